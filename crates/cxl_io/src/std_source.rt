//! Standard input, or another reader of std's, as a source.

ghost use Rattle.std.specs.Prelude.{◌≡◌, ◌<◌, ◌≤◌, true, Some, [], length, take, IfOk, OnOk, OnErr};
ghost use Rattle.std.specs.Io.KnownBytes.{ReadConsumes};
ghost use Rattle.cxl_enc.specs.Counters.{next_count};
ghost use Rattle.cxl_enc.specs.Faults.{HasCause};
ghost use Rattle.cxl_io.specs.Source.{GivesFront, IsAtEnd};

use crate::source::Source;
use cxl_enc::Failed;
use std::io;
use std::io::{ErrorKind, Read};
use std::marker::Model;
use std::snapshot::Snapshot;

/// Standard input, or another reader. It tells the bytes that are left where the reader told them when it
/// was made: a reader of memory does, and standard input tells nothing.
#[derive(Drop)]
pub struct StdSource<R: Read> {
    input: R,
    /// The reader as it was given.
    first: Snapshot<R>,
    faults: u64,
}

impl<R: Read> Model for StdSource<R> {
    ghost use Rattle.std.specs.Prelude.{true, IsTrue, is_some};
    ghost use Rattle.cxl_io.specs.Source.{SourceState};
    ghost use Rattle.cxl_io.specs.Told.{told_since};

    ghost Value = { SourceState };

    ghost view = { λ s. record {
      left = told_since (R.remaining s.first.value) (R.remaining s.input);
      faults = s.faults;
      counts_failures_alone = true;
    } };

    // A reader that told its bytes goes on to tell them.
    ghost invariant = { λ s. IsTrue (is_some (R.remaining s.first.value)) → IsTrue (is_some (R.remaining s.input)) };
}

impl<R: Read> StdSource<R> {
    /// Reads from this reader, as `rt.reader()`, and tells what that tells from the first: no byte is lost, added or
    /// told twice. Takes no memory.
    pub fn new(input: R) -> StdSource<R>
        ensures { result ≡ record { left = R.remaining input; faults = 0; counts_failures_alone = true } }
    {
        StdSource {
            first: Snapshot::of(&input),
            input,
            faults: 0,
        }
    }
}

impl<R: Read> Source for StdSource<R> {
    ghost state = { λ s. s };

    /// One read of the system, and no buffer.
    fn read(&mut self, into: &mut [u8]) -> Result<usize, Failed>
        requires { 0 < length into.old }
        ensures within { IfOk result (λ n. n ≤ length into.old) }
        ensures given { IfOk result (λ n. GivesFront self.old self.new (take n into.new)) }
        ensures end { IfOk result (λ n. n ≡ 0 → IsAtEnd self.old) }
        ensures only_end { IfOk result (λ n. self.old.left ≡ Some [] → n ≡ 0) }
        ensures failed { OnErr result (self.new.left ≡ self.old.left) }
        ensures cause { HasCause result self.old.faults self.new.faults }
        ensures counts { self.old.faults ≤ self.new.faults }
        ensures alone { self.new.counts_failures_alone ≡ self.old.counts_failures_alone }

        // The count rises with a failure and with nothing else.
        ensures raised { OnErr result (self.new.faults ≡ next_count self.old.faults) }
        ensures kept { OnOk result (self.new.faults ≡ self.old.faults) }
    {
        match read_some(&mut self.input, into) {
            Ok(n) => Ok(n),
            Err(_) => {
                self.faults = self.faults.saturating_add(1);
                Err(Failed)
            }
        }
    }
}

/// One read of the system, which is made again as often as it is interrupted.
fn read_some<R: Read>(input: &mut R, into: &mut [u8]) -> io::Result<usize>
    ensures room { length into.new ≡ length into.old }
    ensures within { IfOk result (λ n. n ≤ length into.old) }
    ensures known { ReadConsumes (R.remaining input.old) (R.remaining input.new) result into.new }
{
    for _ in 0..u64::MAX {
        match input.read(into) {
            Err(e) if e.kind() == ErrorKind::Interrupted => {}
            read => return read,
        }
    }
    input.read(into)
}
