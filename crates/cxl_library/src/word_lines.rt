//! Register words as lines.

ghost use Rattle.std.specs.Prelude.{◌≡◌, ◌++◌, OnOk};
ghost use Rattle.cxl_library.specs.Behind.{word_line, word_lines};

use cxl_enc::Memory;
use cxl_held::Sent;
use cxl_io::put_number;
use cxl_text::put_address;

/// Appends a line for each word.
pub(crate) fn put_words(out: &mut Vec<u8>, words: &[Sent]) -> Result<(), Memory>
    ensures { OnOk result (out.new.items ≡ out.old.items ++ word_lines words.now) }
{
    for word in words {
        put_word(out, word)?;
    }
    Ok(())
}

/// Appends the line of a word, as the question of a bus over a pipe has it.
fn put_word(out: &mut Vec<u8>, word: &Sent) -> Result<(), Memory>
    ensures { OnOk result (out.new.items ≡ out.old.items ++ word_line word.now) }
{
    out.extend_from_slice(b"w ")?;
    put_number(out, u64::from(word.node))?;
    out.push(b' ')?;
    put_address(out, u64::from(word.off))?;
    out.push(b' ')?;
    put_address(out, u64::from(word.value))?;
    out.push(b'\n')?;
    Ok(())
}
