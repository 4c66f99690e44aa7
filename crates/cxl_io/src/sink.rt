//! The trait by which bytes are written, and how all of a text are.

ghost use Rattle.std.specs.Prelude.{◌≡◌, ◌<◌, ◌≤◌, List, ℕ, [], ◌++◌, length, take, IfOk, OnOk, OnErr};
ghost use Rattle.cxl_enc.specs.Faults.{HasCause, LeavesCount, CountsExactly};
ghost use Rattle.cxl_io.specs.Sink.{SinkState, Takes, TakesPrefix};

use cxl_enc::Failed;

/// Where bytes go, as standard output.
pub trait Sink {
    /// What it took, where it tells it, and how often it failed.
    ghost state: { Self → SinkState };

    /// Takes some bytes from the front, one at the least, and answers how many. A sink that can take
    /// nothing answers `Failed`.
    fn write(&mut self, bytes: &[u8]) -> Result<usize, Failed>
        requires { 0 < length bytes.now }
        ensures some { IfOk result (λ n. 1 ≤ n) }
        ensures within { IfOk result (λ n. n ≤ length bytes.now) }
        ensures taken { IfOk result (λ n. Takes (state self.old) (state self.new) (take n bytes.now)) }
        ensures failed { OnErr result ((state self.new).taken ≡ (state self.old).taken) }
        ensures cause { HasCause result (state self.old).faults (state self.new).faults }
        ensures counts { (state self.old).faults ≤ (state self.new).faults }
        ensures alone { (state self.new).counts_failures_alone ≡ (state self.old).counts_failures_alone }
        // A fault is not swallowed.
        ensures unswallowed { OnOk result
            (LeavesCount (state self.old).counts_failures_alone (state self.old).faults (state self.new).faults) }
        // A call that failed is counted once.
        ensures counted { OnErr result
            (CountsExactly 1 (state self.old).counts_failures_alone (state self.old).faults (state self.new).faults) };
}

/// Writes all the bytes, in as many writes as the sink needs. After a failure some bytes from the front,
/// but not all, are taken. Takes no memory.
pub fn write_all<K: Sink>(sink: &mut K, bytes: &[u8]) -> Result<(), Failed>
    ensures ok { OnOk result (Takes (K.state sink.old) (K.state sink.new) bytes.now) }
    ensures failed { OnErr result (TakesPrefix (K.state sink.old) (K.state sink.new) bytes.now) }
    ensures cause { HasCause result (K.state sink.old).faults (K.state sink.new).faults }
    ensures counts { (K.state sink.old).faults ≤ (K.state sink.new).faults }
    ensures alone { (K.state sink.new).counts_failures_alone ≡ (K.state sink.old).counts_failures_alone }
    ensures unswallowed { OnOk result (LeavesCount (K.state sink.old).counts_failures_alone
        (K.state sink.old).faults (K.state sink.new).faults) }
    // The first write that fails ends it.
    ensures counted { OnErr result (CountsExactly 1 (K.state sink.old).counts_failures_alone
        (K.state sink.old).faults (K.state sink.new).faults) }
{
    let mut at = 0;
    while at < bytes.len() {
        at += sink.write(&bytes[at..])?;
    }
    Ok(())
}

/// A law of writes: two texts that are written one after the other are one text, and a failure in either
/// leaves some bytes of it from the front.
pub fn writes_join()
    ensures nothing { (state : SinkState) → Takes state state [] }
    ensures both { (old mid new : SinkState) (xs ys : List ℕ)
        → Takes old mid xs → Takes mid new ys → Takes old new (xs ++ ys) }
    ensures first { (old new : SinkState) (xs ys : List ℕ)
        → TakesPrefix old new xs → TakesPrefix old new (xs ++ ys) }
    ensures second { (old mid new : SinkState) (xs ys : List ℕ)
        → Takes old mid xs → TakesPrefix mid new ys → TakesPrefix old new (xs ++ ys) }
{}
