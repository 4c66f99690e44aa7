//! The names under which files are told, and texts as outcomes.

ghost use Rattle.std.specs.Prelude.{◌≡◌, ◌++◌, OnOk};
ghost use Rattle.cxl_reads.specs.Answers.{told};
ghost use Rattle.cxl_reads.specs.Decoders.{bit_text};

use cxl_enc::Memory;
use cxl_inputs::{Outcome, Status};

pub(crate) const TOPOLOGY: &str = "topology";

pub(crate) const TABLE: &str = "cedt";

pub(crate) const IMAGE: &str = "image";

/// The outcome of a text that is told.
pub(crate) fn told(text: Vec<u8>) -> Outcome
    ensures { result ≡ told text.items }
{
    Outcome::made(Status::Done, text)
}

/// Appends a text.
pub(crate) fn put_text(out: &mut Vec<u8>, text: &[u8]) -> Result<(), Memory>
    ensures { OnOk result (out.new.items ≡ out.old.items ++ text.now) }
{
    out.extend_from_slice(text)?;
    Ok(())
}

/// Appends a word, and a bit behind it.
pub(crate) fn put_bit(out: &mut Vec<u8>, word: &[u8], bit: bool) -> Result<(), Memory>
    ensures { OnOk result (out.new.items ≡ out.old.items ++ bit_text word.now bit) }
{
    put_text(out, word)?;
    put_text(out, if bit { b" 1" } else { b" 0" })
}
