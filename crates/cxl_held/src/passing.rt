//! Lines that are carried out on a session that is kept, and whose words nobody asks for.

ghost use Rattle.std.specs.Prelude.{◌≡◌, ◌≤◌, ◌⊎◌, List, IfOk, IfErr};
ghost use Rattle.cxl_machine.specs.Machine.{Machine};
ghost use Rattle.cxl_machine.specs.Scripts.{Asked, Turn};
ghost use Rattle.cxl_shell.specs.Endings.{EndsScript};
ghost use Rattle.cxl_held.specs.Sessions.{IsKept, IsHeldAt, HasPassedOver};
ghost use Rattle.cxl_held.specs.Trails.{untrailed};

use crate::held::Held;
use crate::trail_bus::TrailBus;
use cxl_bus::SimBus;
use cxl_inputs::Status;
use cxl_io::{Memory, Sink, Source};
use cxl_media::SimMedia;
use cxl_session::Session;
use cxl_shell::over_session;
use std::alloc::Global;

impl Held {
    /// Carries out the lines of a script as `act` does, and tells none of the words that they send: so no call of the registers
    /// fails, however many these are. A session that does not come to the end of its lines is let go. (This project's rule.) Takes
    /// memory.
    #[tactic(auto, using(crate::proofs::Untrailed::stands_sim))]
    pub fn pass<S: Source, K: Sink>(
        self,
        alloc: Global,
        lines: &mut S,
        out: &mut K,
    ) -> Result<Held, Status>
        requires kept { IsKept self }
        ensures kept { IfOk result IsKept }
        // Whatever machine it is at, the lines are answered from there on, by the turns of that machine, and no call failed.
        ensures answered { IfOk result (λ held. (m : Machine) → IsHeldAt self m → (asked : List Asked) × (turns : List Turn)
            × HasPassedOver m asked turns held
            × EndsScript m.settled.nodes asked turns (S.state lines.old) (S.state lines.new)
            (K.state out.old) (K.state out.new) Status.Done) }
        // Or it ends as a script does that does not end well; or memory ran out behind the last line.
        ensures stopped { IfErr result (λ status. (status ≡ Status.Memory) ⊎ ((m : Machine) → IsHeldAt self m
            → (asked : List Asked) × (turns : List Turn)
            × EndsScript m.settled.nodes asked turns (S.state lines.old) (S.state lines.new)
            (K.state out.old) (K.state out.new) status)) }
        ensures source { (S.state lines.old).faults ≤ (S.state lines.new).faults }
        ensures sink { (K.state out.old).faults ≤ (K.state out.new).faults }
    {
        let Held {
            session,
            regs,
            media,
        } = self;
        let mut session = session;
        let mut media = media;
        let mut bus = regs.into_bus();
        match over_session(alloc, &mut session, lines, out, &mut bus, &mut media) {
            Status::Done => held_over(alloc, session, bus, media),
            status => Err(status),
        }
    }
}

/// A session over these registers, which tell the words that they are sent from now on.
fn held_over(alloc: Global, session: Session, bus: SimBus, media: SimMedia) -> Result<Held, Status>
    ensures made { IfOk result (λ held. held.session ≡ session × held.regs ≡ untrailed bus × held.media ≡ media) }
    ensures memory { IfErr result (λ status. status ≡ Status.Memory) }
{
    match TrailBus::over(alloc, bus) {
        Ok(regs) => Ok(Held {
            session,
            regs,
            media,
        }),
        Err(Memory) => Err(Status::Memory),
    }
}
