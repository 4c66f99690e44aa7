//! Laws of the answers, each the contract of a function that does nothing.

ghost use Rattle.std.specs.Prelude.{◌≡◌, ℕ, ◌<◌, true, false, List, [], ◌∷◌, ◌++◌, length, AllPairs};
ghost use Rattle.cxl_bus.specs.declared.sent.Sent.{Sent};
ghost use Rattle.cxl_script.specs.declared.command.Command.{Command};
ghost use Rattle.cxl_model.specs.declared.plan.Row.{Row};
ghost use Rattle.cxl_model.specs.System.{System};
ghost use Rattle.cxl_apply.specs.declared.write.Write.{Write};
ghost use Rattle.cxl_apply.specs.Jobs.{AreCreateWrites, AreReleaseWrites};
ghost use Rattle.cxl_apply.specs.Releases.{rows_of};
ghost use Rattle.cxl_reply.specs.Replies.{has_short_text};
ghost use Rattle.cxl_machine.specs.Machine.{Live, Machine};
ghost use Rattle.cxl_machine.specs.Jobs.{create_writes, release_writes};
ghost use Rattle.cxl_machine.specs.Outcomes.{BusOutcome, NoFault, can_go, faults_of};
ghost use Rattle.cxl_machine.specs.Fails.{FailsOf};
ghost use Rattle.cxl_machine.specs.Goings.{CanGo};
ghost use Rattle.cxl_machine.specs.Replies.{Answer, is_refusal};
ghost use Rattle.cxl_machine.specs.Answers.{Answers};
ghost use Rattle.cxl_machine.specs.Scripts.{Asked, Turn, TakesTurn, lines_asked};
ghost use Rattle.cxl_machine.specs.Turns.{AreTurns, machine_after};
ghost use Rattle.cxl_machine.specs.Sound.{IsMachine};
ghost use Rattle.cxl_machine.specs.Trails.{TrailOf};

use cxl_model::{bytes_are_carried_one_to_one, regions_share_no_byte};
use cxl_poison::{bytes_are_one_list, each_record_has_pieces, records_are_told_in_one_way};

/// A law of answers: a refused command leaves the machine as it is.
pub fn refusals_leave_the_machine()
    ensures { (m : Machine) (command : Command) (outcome : BusOutcome) (answer : Answer)
        → Answers m command outcome answer → is_refusal answer.reply ≡ true → answer.machine ≡ m }
{}

/// A law of jobs: the writes of a create over rows in rising node order, and those of a region's release, are the ones that
/// the machine's job has; and those that it has are such writes.
pub fn jobs_have_one_list_of_writes()
    ensures create { (s : System) (rows : List Row) (writes : List Write)
        → AllPairs (λ (row next : Row). row.node < next.node) rows → AreCreateWrites s.blocks rows writes
        → writes ≡ create_writes s rows }
    ensures release { (s : System) (region : Live) (writes : List Write)
        → AreReleaseWrites (rows_of s region.found) writes → writes ≡ release_writes s region }
    ensures of_create { (s : System) (rows : List Row) → AllPairs (λ (row next : Row). row.node < next.node) rows
        → AreCreateWrites s.blocks rows (create_writes s rows) }
    ensures of_release { (s : System) (region : Live) → AreReleaseWrites (rows_of s region.found) (release_writes s region) }
{}

/// A law of answers: a command whose reply has no short text changed nothing and sent nothing. So memory may run out before
/// such a reply is told, and nothing is lost.
pub fn only_short_replies_change()
    ensures machine { (m : Machine) (one : Asked) (turn : Turn) → TakesTurn m one turn
        → has_short_text turn.reply ≡ false → turn.machine ≡ m }
    ensures words { (m : Machine) (one : Asked) (turn : Turn) → TakesTurn m one turn
        → has_short_text turn.reply ≡ false → turn.trail ≡ [] }
{}

/// A law of answers: how the bus let a command go shows in its reply.
pub fn outcomes_show_in_replies()
    ensures { (m : Machine) (command : Command) (outcome other : BusOutcome) (answer another : Answer)
        → Answers m command outcome answer → Answers m command other another
        → answer.reply ≡ another.reply → outcome ≡ other }
{}

/// A law of trails: a command that is refused without a fault of the bus writes no word.
pub fn refusals_write_nothing()
    ensures { (m : Machine) (command : Command) (answer : Answer) (trail : List Sent)
        → Answers m command NoFault answer → is_refusal answer.reply ≡ true
        → TrailOf m command NoFault trail → trail ≡ [] }
{}

/// A law of faults: as many calls of the bus fail in a command as the way in which it went tells of: two where a job
/// that was begun is left pending, and one at any other fault.
pub fn failed_calls_are_numbered()
    ensures { (m : Machine) (command : Command) (outcome : BusOutcome) (trail : List Sent) (failed : List ℕ)
        → FailsOf m command outcome trail failed → length failed ≡ faults_of command outcome }
{}

/// A law of scripts: what is asked behind others is answered by the machine that they left, and lines behind others ask
/// for what they ask for by themselves.
pub fn scripts_go_on()
    ensures one_more { (m : Machine) (asked : List Asked) (turns : List Turn) (one : Asked) (turn : Turn)
        → AreTurns m asked turns → TakesTurn (machine_after m turns) one turn
        → AreTurns m (asked ++ one ∷ []) (turns ++ turn ∷ []) }
    ensures parts { (m : Machine) (asked more : List Asked) (turns : List Turn) → AreTurns m (asked ++ more) turns
        → (first : List Turn) × (rest : List Turn) × (turns ≡ first ++ rest) × AreTurns m asked first
        × AreTurns (machine_after m first) more rest }
    ensures machine { (m : Machine) (turns others : List Turn)
        → machine_after m (turns ++ others) ≡ machine_after (machine_after m turns) others }
    ensures lines { (lines others : List (List ℕ))
        → lines_asked (lines ++ others) ≡ lines_asked lines ++ lines_asked others }
{}

/// A law of answers: a command goes as its kind can go.
pub fn commands_go_as_they_can()
    ensures { (m : Machine) (command : Command) (outcome : BusOutcome) (answer : Answer)
        → Answers m command outcome answer → can_go command outcome ≡ true }
{}

/// A law of answers: a machine that a session can stand for answers each command where no call of the bus failed.
pub fn each_command_is_answered()
    ensures { (m : Machine) (command : Command) → IsMachine m
        → (answer : Answer) × Answers m command NoFault answer }
{
    bytes_are_carried_one_to_one();
    bytes_are_one_list();
    each_record_has_pieces();
}

/// A law of answers: a machine that a session can stand for answers each command however the bus can let it go, and none
/// goes otherwise.
pub fn each_outcome_is_answered()
    ensures answered { (m : Machine) (command : Command) (outcome : BusOutcome) → IsMachine m → CanGo m command outcome
        → (answer : Answer) × Answers m command outcome answer }
    ensures only { (m : Machine) (command : Command) (outcome : BusOutcome) (answer : Answer)
        → Answers m command outcome answer → CanGo m command outcome }
{
    each_command_is_answered();
}

/// A law of answers: by a machine that a session can stand for, a command that went so has one answer at the most.
pub fn one_answer()
    ensures { (m : Machine) (command : Command) (outcome : BusOutcome) (answer other : Answer) → IsMachine m
        → Answers m command outcome answer → Answers m command outcome other → answer ≡ other }
{
    bytes_are_carried_one_to_one();
    regions_share_no_byte();
    bytes_are_one_list();
    records_are_told_in_one_way();
}
