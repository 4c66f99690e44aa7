//! Words of a file, lowest byte first.

ghost use Rattle.std.specs.Prelude.{◌≡◌, ◌+◌, ◌≤◌, ◌++◌, length, OnOk};
ghost use Rattle.cxl_image.specs.Fields.{word_from, words_from, named_bits};
ghost use Rattle.cxl_image.specs.Text.{word_bytes, words_text};

use byteorder::{ByteOrder, LittleEndian};
use cxl_enc::{CAP_WAYS3, Memory};

/// The word at a byte place.
#[tactic(auto, unfolding(crate::specs::Fields::word_from))]
pub fn word_from(bytes: &[u8], at: usize) -> u32
    requires { at + 4 ≤ length bytes.now }
    ensures { result ≡ word_from bytes.now at }
{
    LittleEndian::read_u32(&bytes[at..])
}

/// The eight words of a decoder, from a byte place on.
pub fn decoder_words(bytes: &[u8], at: usize) -> [u32; 8]
    requires { at + 32 ≤ length bytes.now }
    ensures { result ≡ words_from bytes.now at 8 }
{
    let mut words = [0; 8];
    LittleEndian::read_u32_into(&bytes[at..at + 32], &mut words);
    words
}

/// The bits of a capability word that stand for something.
#[tactic(auto, unfolding(crate::specs::Fields::named_bits))]
pub fn named_bits(cap: u32) -> u32
    ensures { result ≡ named_bits cap }
{
    let low = cap & 0x3ff;
    let ways = (cap >> CAP_WAYS3) & 0x3;
    low + (ways << CAP_WAYS3)
}

/// Appends a word.
#[tactic(auto, unfolding(crate::specs::Text::word_bytes))]
pub fn append_word(out: &mut Vec<u8>, word: u32) -> Result<(), Memory>
    ensures { OnOk result (out.new.items ≡ out.old.items ++ word_bytes word) }
{
    let mut bytes = [0; 4];
    LittleEndian::write_u32(&mut bytes, word);
    out.extend_from_slice(&bytes)?;
    Ok(())
}

/// Appends words, one after the other.
#[tactic(auto, unfolding(crate::specs::Text::words_text))]
pub fn append_words(out: &mut Vec<u8>, words: &[u32]) -> Result<(), Memory>
    ensures { OnOk result (out.new.items ≡ out.old.items ++ words_text words.now) }
{
    for word in words {
        append_word(out, *word)?;
    }
    Ok(())
}
