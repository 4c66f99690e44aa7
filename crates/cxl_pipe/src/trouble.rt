//! What a peer was asked last, what was wanted, and what came, as a line for a person. No contract speaks of its text.

use crate::peer::How;
use crate::question::Question;
use std::fmt;

/// What an answer is wanted to say.
#[derive(Clone, Copy)]
pub enum Wanted {
    /// This word.
    Word(u32),
    /// That a write was taken.
    Taken,
}

/// The last question, its number, and why it has no answer, if it has none. Accesses are numbered from 1, reads and
/// writes together.
#[derive(Drop)]
pub struct Last {
    number: u64,
    question: Question,
    wanted: Wanted,
    how: Option<How>,
}

impl Last {
    /// Nothing was asked yet. Takes no memory.
    pub fn new() -> Last {
        Last {
            number: 0,
            question: Question::read(0, 0),
            wanted: Wanted::Taken,
            how: None,
        }
    }

    /// This was asked.
    pub fn asked(&mut self, question: Question, wanted: Wanted) {
        self.number = self.number.saturating_add(1);
        self.question = question;
        self.wanted = wanted;
        self.how = None;
    }

    /// It has no answer.
    pub fn lost(&mut self, how: How) {
        self.how = Some(how);
    }
}

/// What was asked last, what was wanted, and what came.
#[derive(Drop)]
pub struct Trouble<'a> {
    pub last: &'a Last,
    pub line: &'a [u8],
}

impl fmt::Display for Trouble<'_> {
    fn fmt<W: fmt::Write>(&self, f: &mut fmt::Formatter<W>) -> fmt::Result {
        let came = Came { bytes: self.line };
        write!(f, "access {}, ", self.last.number)?;
        match str::from_utf8(self.last.question.bytes()) {
            Ok(text) => write!(f, "{}", text.trim_end())?,
            Err(_) => {}
        }
        match self.last.wanted {
            Wanted::Word(word) => write!(f, ": wanted 0x{word:08x}, ")?,
            Wanted::Taken => write!(f, ": wanted ok, ")?,
        }
        match self.last.how {
            None => write!(f, "came {came}"),
            Some(How::Unsent) => write!(f, "but nobody reads the pipe"),
            Some(How::Unread) => write!(f, "but reading failed behind {came}"),
            Some(How::Ended) => write!(f, "but the peer ended behind {came}"),
            Some(How::Behind) => write!(f, "came more than a line: {came}"),
            Some(How::Long) => write!(f, "came more than 4096 bytes: {came}"),
        }
    }
}

/// How many bytes of an answer are shown.
const SHOWN: usize = 60;

/// Bytes in quotes, those that are no plain letters as escapes.
#[derive(Drop)]
struct Came<'a> {
    bytes: &'a [u8],
}

impl fmt::Display for Came<'_> {
    fn fmt<W: fmt::Write>(&self, f: &mut fmt::Formatter<W>) -> fmt::Result {
        write!(f, "\"")?;
        for byte in self.bytes.iter().take(SHOWN) {
            match byte {
                b'\n' => write!(f, "\\n")?,
                b' '..=b'~' => write!(f, "{}", char::from(*byte))?,
                _ => write!(f, "\\x{byte:02x}")?,
            }
        }
        write!(f, "\"{}", if self.bytes.len() > SHOWN { " .." } else { "" })
    }
}
