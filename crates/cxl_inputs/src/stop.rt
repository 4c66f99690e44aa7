//! What ends a command early, and the end of each command.

ghost use Rattle.std.specs.Prelude.{◌≡◌, ◌≤◌};
ghost use Rattle.cxl_inputs.specs.Ends.{Finishes};
ghost use Rattle.cxl_inputs.specs.Stop.{stop_of};

use crate::outcome::Outcome;
use crate::status::Status;
use cxl_io::{Memory, Sink};

/// What ends a command early.
#[derive(Drop)]
pub enum Stop {
    /// The command comes to this, as where a file has no reading.
    Outcome(Outcome),
    /// Memory ran out.
    Memory,
}

impl Stop {
    /// The outcome that ends the command, unless there was no memory to make it.
    pub(crate) fn of(outcome: Result<Outcome, Memory>) -> Stop
        ensures { result ≡ stop_of outcome }
    {
        match outcome {
            Ok(outcome) => Stop::Outcome(outcome),
            Err(Memory) => Stop::Memory,
        }
    }
}

impl From<Memory> for Stop {
    ghost use Rattle.std.specs.Prelude.{◌≡◌};
    ghost use Rattle.cxl_inputs.specs.declared.stop.Stop.TheVariants as stop;

    ghost from_gives = { λ _ reason. reason ≡ stop.Memory };

    fn from(_e: Memory) -> Stop {
        Stop::Memory
    }
}

/// Writes what a command comes to, and says how the run ends. Where memory ran out nothing is written, and no write
/// failed.
pub fn finish<K: Sink>(answer: Result<Outcome, Stop>, out: &mut K) -> Status
    ensures finishes { Finishes answer result (K.state out.old) (K.state out.new) }
    ensures counts { (K.state out.old).faults ≤ (K.state out.new).faults }
{
    match answer {
        Ok(outcome) => outcome.write(out),
        Err(Stop::Outcome(outcome)) => outcome.write(out),
        Err(Stop::Memory) => Status::Memory,
    }
}
