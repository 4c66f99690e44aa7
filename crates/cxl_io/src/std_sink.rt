//! Standard output, or another writer of std's, as a sink.

ghost use Rattle.std.specs.Prelude.{◌≡◌, ◌<◌, ◌≤◌, true, length, take, IfOk, OnOk, OnErr};
ghost use Rattle.std.specs.Io.KnownBytes.{WriteAppends};
ghost use Rattle.cxl_enc.specs.Counters.{next_count};
ghost use Rattle.cxl_enc.specs.Faults.{HasCause};
ghost use Rattle.cxl_io.specs.Sink.{Takes};

use crate::sink::Sink;
use cxl_enc::Failed;
use std::io;
use std::io::{ErrorKind, Write};
use std::marker::Model;
use std::snapshot::Snapshot;

/// Standard output, or another writer. It tells the bytes that the writer holds where that told them when
/// it was made: a writer into memory does, and standard output tells nothing.
#[derive(Drop)]
pub struct StdSink<W: Write> {
    to: W,
    /// The writer as it was given.
    first: Snapshot<W>,
    faults: u64,
}

impl<W: Write> Model for StdSink<W> {
    ghost use Rattle.std.specs.Prelude.{true, IsTrue, is_some};
    ghost use Rattle.cxl_io.specs.Sink.{SinkState};
    ghost use Rattle.cxl_io.specs.Told.{told_since};

    ghost Value = { SinkState };

    ghost view = { λ s. record {
      taken = told_since (W.contents s.first.value) (W.contents s.to);
      faults = s.faults;
      counts_failures_alone = true;
    } };

    // A writer that told its bytes goes on to tell them.
    ghost invariant = { λ s. IsTrue (is_some (W.contents s.first.value)) → IsTrue (is_some (W.contents s.to)) };
}

impl<W: Write> StdSink<W> {
    /// Writes to this writer, as `io::writer(&rt)`, and tells what that tells from the first. Takes no memory.
    pub fn new(to: W) -> StdSink<W>
        ensures { result ≡ record { taken = W.contents to; faults = 0; counts_failures_alone = true } }
    {
        StdSink {
            first: Snapshot::of(&to),
            to,
            faults: 0,
        }
    }
}

impl<W: Write> Sink for StdSink<W> {
    ghost state = { λ s. s };

    /// One write of the system, and no buffer. A write that took nothing is a fault too.
    fn write(&mut self, bytes: &[u8]) -> Result<usize, Failed>
        requires { 0 < length bytes.now }
        ensures some { IfOk result (λ n. 1 ≤ n) }
        ensures within { IfOk result (λ n. n ≤ length bytes.now) }
        ensures taken { IfOk result (λ n. Takes self.old self.new (take n bytes.now)) }
        ensures failed { OnErr result (self.new.taken ≡ self.old.taken) }
        ensures cause { HasCause result self.old.faults self.new.faults }
        ensures counts { self.old.faults ≤ self.new.faults }
        ensures alone { self.new.counts_failures_alone ≡ self.old.counts_failures_alone }

        // The count rises with a failure and with nothing else.
        ensures raised { OnErr result (self.new.faults ≡ next_count self.old.faults) }
        ensures kept { OnOk result (self.new.faults ≡ self.old.faults) }
    {
        match write_some(&mut self.to, bytes) {
            Ok(n) if n > 0 => Ok(n),
            _ => {
                self.faults = self.faults.saturating_add(1);
                Err(Failed)
            }
        }
    }
}

/// One write of the system, which is made again as often as it is interrupted.
fn write_some<W: Write>(to: &mut W, bytes: &[u8]) -> io::Result<usize>
    ensures within { IfOk result (λ n. n ≤ length bytes.now) }
    ensures known { WriteAppends (W.contents to.old) (W.contents to.new) result bytes.now }
{
    for _ in 0..u64::MAX {
        match to.write(bytes) {
            Err(e) if e.kind() == ErrorKind::Interrupted => {}
            written => return written,
        }
    }
    to.write(bytes)
}
