//! The last line of a script.

ghost use Rattle.cxl_library.specs.Behind.{BeginsLastLine};

use memchr::memrchr;

/// Where the last line of a script begins.
#[tactic(auto, using(crate::proofs::LastLine::behind_break, crate::proofs::LastLine::at_front))]
pub(crate) fn last_line(script: &[u8]) -> usize
    ensures { BeginsLastLine script.now result }
{
    let end = script.len().saturating_sub(1);
    match memrchr(b'\n', &script[..end]) {
        Some(place) => place + 1,
        None => 0,
    }
}
