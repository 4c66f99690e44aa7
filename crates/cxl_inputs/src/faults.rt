//! The lines that tell of a file that is not read, or of its first fault.

ghost use Rattle.std.specs.Prelude.{◌≡◌, ◌++◌, codes, IfOk};
ghost use Rattle.cxl_reply.specs.Words.{line};
ghost use Rattle.cxl_inputs.specs.Faults.{numbered};

use cxl_io::Memory;
use std::alloc::Global;

/// The line that names the fault of a file: which file, a word, and the number behind it, if there is one.
pub(crate) fn fault_line(
    alloc: Global,
    file: &str,
    word: &str,
    number: Option<u32>,
) -> Result<Vec<u8>, Memory>
    ensures { IfOk result (λ text. text.items ≡ line (codes "error: " ++ file.now ++ codes " " ++ numbered word.now number)) }
{
    match number {
        None => error_line(alloc, file, word),
        Some(number) => {
            let text = format!(in alloc; "error: {file} {word} {number}\n")?;
            Ok(text.into_bytes())
        }
    }
}

/// The line of an error in two parts.
pub(crate) fn error_line(alloc: Global, front: &str, rest: &str) -> Result<Vec<u8>, Memory>
    ensures { IfOk result (λ text. text.items ≡ line (codes "error: " ++ front.now ++ codes " " ++ rest.now)) }
{
    let text = format!(in alloc; "error: {front} {rest}\n")?;
    Ok(text.into_bytes())
}
