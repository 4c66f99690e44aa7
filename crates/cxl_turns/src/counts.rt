//! What is counted of the replies to a list of commands.

ghost use Rattle.std.specs.Prelude.{◌≡◌, ℕ, ◌+◌, ◌-◌, ◌^◌, ◌<◌, ◌≤◌, length, sum};
ghost use Rattle.cxl_script.specs.Grammar.{access_limit};
ghost use Rattle.cxl_turns.specs.Counts.{counted, AreWithin};
ghost use Rattle.cxl_turns.specs.inner.Counted.{LoadsFew};

use cxl_reply::Reply;

/// What the replies to commands come to, counted. (This project's rule.)
#[derive(Clone, Copy, PartialEq, Eq)]
pub struct Counts {
    /// How many regions were made.
    pub regions: u32,
    /// How many stores were carried out.
    pub stores: u32,
    /// How many loads were carried out.
    pub loads: u32,
    /// How many commands were about an address that no live region holds.
    pub unmapped: u32,
    /// The bytes that were loaded, added up.
    pub sum: u64,
}

impl Counts {
    ghost use Rattle.std.specs.Prelude.{◌≡◌, []};
    ghost use Rattle.cxl_turns.specs.Counts.{counts_of, AreWithin};

    /// Of no reply.
    pub fn none() -> Counts
        ensures counts { result ≡ counts_of [] }
        ensures within { AreWithin result 0 }
    {
        Counts {
            regions: 0,
            stores: 0,
            loads: 0,
            unmapped: 0,
            sum: 0,
        }
    }
}

/// Counts one reply more.
pub(crate) fn count(counts: &mut Counts, reply: &Reply)
    requires loads { LoadsFew reply.now }
    requires few { (n : ℕ) × (n < 2 ^ 32 - 1) × AreWithin counts.old n }
    ensures counted { counts.new ≡ counted counts.old reply.now }
    ensures within { (n : ℕ) → AreWithin counts.old n → AreWithin counts.new (n + 1) }
{
    match reply {
        Reply::Created(_) => counts.regions += 1,
        Reply::Stored(_) => counts.stores += 1,
        Reply::Loaded(bytes) => {
            counts.loads += 1;
            counts.sum += sum_of(bytes.items());
        }
        Reply::Unmapped => counts.unmapped += 1,
        _ => {}
    }
}

/// Bytes, added up.
fn sum_of(bytes: &[u8]) -> u64
    requires { length bytes.now ≤ access_limit }
    ensures sum { result ≡ sum bytes.now }
    ensures few { result ≤ 65280 }
{
    let mut sum = 0;
    for byte in bytes {
        sum += u64::from(*byte);
    }
    sum
}
