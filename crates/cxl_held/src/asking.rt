//! One command on a session that is kept, as a value in the place of its line.

ghost use Rattle.std.specs.Prelude.{◌≡◌, true, false, Ok, IfOk, OnErr, IsOk};
ghost use Rattle.cxl_machine.specs.Machine.{Machine};
ghost use Rattle.cxl_machine.specs.Memory.{takes_memory};
ghost use Rattle.cxl_machine.specs.Replies.{is_refusal};
ghost use Rattle.cxl_machine.specs.Scripts.{Turn, TakesTurn};
ghost use Rattle.cxl_script.specs.Grammar.{IsRanged};
ghost use Rattle.cxl_held.specs.Asking.{HasTakenTurn, HasStayed};
ghost use Rattle.cxl_held.specs.Sessions.{IsKept, IsHeldAt};

use crate::held::Held;
use cxl_enc::Memory;
use cxl_reply::Reply;
use cxl_script::Command;
use std::alloc::Global;

impl Held {
    /// Carries out one command, and gives its reply as a value. (This project's rule.) Takes memory, all of it before the first write.
    #[tactic(auto, using(crate::proofs::Keeping::at_emptied, crate::proofs::Keeping::stands_emptied))]
    pub fn ask(&mut self, alloc: Global, command: &Command) -> Result<Reply, Memory>
        requires kept { IsKept self.old }
        requires ranged { IsRanged command.now }
        ensures kept { IsKept self.new }
        // Whatever machine it is at, the reply is that of a turn from there on, to whose machine it came, with the words of that turn.
        ensures answer { IfOk result (λ reply. (m : Machine) → IsHeldAt self.old m → (turn : Turn)
            × TakesTurn m (Ok command.now) turn × HasTakenTurn turn reply self.old self.new) }
        // A refused command leaves all as it was but the words of the command before; one that was undone, word for word.
        ensures refused { IfOk result (λ reply. is_refusal reply ≡ true → HasStayed self.old self.new) }
        // After want of memory nothing has changed, and nothing is sent.
        ensures memory { OnErr result (HasStayed self.old self.new) }
        // A command that takes no memory is answered.
        ensures ready { takes_memory command.now ≡ false → IsOk result }
    {
        self.regs.empty_trail();
        self.session
            .act(alloc, command, &mut self.regs, &mut self.media)
    }
}
