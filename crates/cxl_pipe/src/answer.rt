//! What an answer says.

ghost use Rattle.std.specs.Prelude.{◌≡◌};
ghost use Rattle.cxl_pipe.specs.Protocol.{says_taken, says_failed, tells_word, word_told, tells_pending, is_pending, answers_read, answers_write, is_commit};

use cxl_enc::{CONTROL_COMMIT, CONTROL_COMMITTED, CONTROL_ERROR, has_bit};
use cxl_io::read_number;
use cxl_regs::CONTROL;

/// The peer took a write.
pub fn says_taken(line: &[u8]) -> bool
    ensures { result ≡ says_taken line.now }
{
    line == b"ok".as_slice()
}

/// The peer could not carry out an access.
fn says_failed(line: &[u8]) -> bool
    ensures { result ≡ says_failed line.now }
{
    line == b"failed".as_slice()
}

/// The peer told this word.
pub fn tells_word(line: &[u8], word: u32) -> bool
    ensures { result ≡ tells_word word line.now }
{
    line.starts_with(b"0x") && read_number(line) == Ok(u64::from(word))
}

/// The word that an answer tells, where it tells one.
fn word_told(line: &[u8]) -> Option<u32>
    ensures { result ≡ word_told line.now }
{
    if !line.starts_with(b"0x") {
        return None;
    }
    match read_number(line) {
        Ok(number) => u32::try_from(number).ok(),
        Err(_) => None,
    }
}

/// An answer that a read can have: a word, or that it failed.
pub fn answers_read(line: &[u8]) -> bool
    ensures { result ≡ answers_read line.now }
{
    word_told(line).is_some() || says_failed(line)
}

/// An answer that a write can have: that it was taken, or that it failed.
pub fn answers_write(line: &[u8]) -> bool
    ensures { result ≡ answers_write line.now }
{
    says_taken(line) || says_failed(line)
}

/// The answer tells a control word whose commit is neither done nor refused.
pub fn tells_pending(line: &[u8]) -> bool
    ensures { result ≡ tells_pending line.now }
{
    word_told(line).is_some_and(is_pending)
}

fn is_pending(word: u32) -> bool
    ensures { result ≡ is_pending word }
{
    !has_bit(word, CONTROL_COMMITTED) && !has_bit(word, CONTROL_ERROR)
}

/// The write asks a decoder to commit.
pub fn is_commit(off: u32, value: u32) -> bool
    ensures { result ≡ is_commit off value }
{
    off >= 0x10 && (off - 0x10) % 0x20 / 4 == CONTROL && has_bit(value, CONTROL_COMMIT)
}
