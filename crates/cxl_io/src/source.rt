//! The trait by which bytes are read.

ghost use Rattle.std.specs.Prelude.{◌≡◌, ◌<◌, ◌≤◌, Some, [], length, take, IfOk, OnOk, OnErr};
ghost use Rattle.cxl_enc.specs.Faults.{HasCause, LeavesCount, CountsExactly};
ghost use Rattle.cxl_io.specs.Source.{SourceState, GivesFront, IsAtEnd};

use cxl_enc::Failed;

/// Where bytes come from, as standard input.
pub trait Source {
    /// What it has left, where it tells it, and how often it failed.
    ghost state: { Self → SourceState };

    /// Takes bytes from the front of those left, puts them in front into `into`, and answers how many:
    /// 0 exactly where none is left.
    fn read(&mut self, into: &mut [u8]) -> Result<usize, Failed>
        requires { 0 < length into.old }
        ensures within { IfOk result (λ n. n ≤ length into.old) }
        ensures given { IfOk result (λ n. GivesFront (state self.old) (state self.new) (take n into.new)) }
        ensures end { IfOk result (λ n. n ≡ 0 → IsAtEnd (state self.old)) }
        ensures only_end { IfOk result (λ n. (state self.old).left ≡ Some [] → n ≡ 0) }
        ensures failed { OnErr result ((state self.new).left ≡ (state self.old).left) }
        ensures cause { HasCause result (state self.old).faults (state self.new).faults }
        ensures counts { (state self.old).faults ≤ (state self.new).faults }
        ensures alone { (state self.new).counts_failures_alone ≡ (state self.old).counts_failures_alone }
        // A fault is not swallowed.
        ensures unswallowed { OnOk result
            (LeavesCount (state self.old).counts_failures_alone (state self.old).faults (state self.new).faults) }
        // A call that failed is counted once.
        ensures counted { OnErr result
            (CountsExactly 1 (state self.old).counts_failures_alone (state self.old).faults (state self.new).faults) };
}
