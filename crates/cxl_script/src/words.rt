//! The words of a line, each with its place.

ghost use Rattle.std.specs.Prelude.{◌≡◌, ◌<◌, ◌≤◌, [], ◌∷◌, length, drop, not, position, MatchOption, slice_range, Some, None, IsTrue, ◌↔◌};
ghost use Rattle.std.specs.List.{position_or_len};
ghost use Rattle.cxl_script.specs.Words.{is_blank, line_words_from, line_words};
ghost use Rattle.cxl_script.specs.Reading.{behind, ends};
ghost use Rattle.cxl_io.specs.Reader.{line_limit};

use crate::fault::{BadLine, Why};
use memchr::memchr2;
use std::marker::Model;

/// A word of a line, and the byte place at which it begins.
#[derive(Clone, Copy)]
pub(crate) struct Word<'a> {
    pub(crate) at: u32,
    pub(crate) text: &'a [u8],
}

impl Word<'_> {
    /// The fault of this word.
    pub(crate) fn bad(&self, why: Why) -> BadLine
        ensures { result ≡ record { at = self.now.at; why = why } }
    {
        BadLine { at: self.at, why }
    }
}

/// The words of a line that are not read yet. Contracts see it as the line's length and the list of these
/// words.
#[derive(Drop)]
pub(crate) struct Words<'a> {
    line: &'a [u8],
    // Behind the last word that is read.
    at: usize,
}

impl<'a> Model for Words<'a> {
    ghost use Rattle.std.specs.Prelude.{◌≤◌, [], length, drop};
    ghost use Rattle.cxl_script.specs.Words.{Left, line_words_from};
    ghost use Rattle.cxl_io.specs.Reader.{line_limit};

    ghost Value = { Left };

    ghost view = { λ words. record { len = length words.line.now; words = line_words_from words.at [] (drop words.at words.line.now) } };

    ghost invariant = { λ words. (words.at ≤ length words.line.now) × (length words.line.now ≤ line_limit) };
}

impl<'a> Words<'a> {
    /// The words of a line.
    pub(crate) fn new(line: &'a [u8]) -> Words<'a>
        requires { length line.now ≤ line_limit }
        ensures { result ≡ record { len = length line.now; words = line_words line.now } }
    {
        Words { line, at: 0 }
    }

    /// The next word, which is then read.
    pub(crate) fn next(&mut self) -> Option<Word<'a>>
        ensures words { MatchOption result ((self.old.words ≡ []) × (self.new.words ≡ [])) (λ word.
            self.old.words ≡ record { at = word.at; text = word.text.now } ∷ self.new.words) }
        ensures len { self.new.len ≡ self.old.len }
    {
        let (start, end) = next_word(self.line, self.at)?;
        self.at = end;
        Some(Word {
            at: start as u32,
            text: &self.line[start..end],
        })
    }

    /// The next word behind these bytes, where it begins with them; it is read then, and else none is.
    pub(crate) fn next_behind(&mut self, front: &[u8]) -> Option<Word<'a>>
        ensures words { MatchOption result
            ((behind front.now self.old.words ≡ None) × (self.new ≡ self.old))
            (λ word. behind front.now self.old.words ≡ Some (record { at = word.at; text = word.text.now }, self.new.words)) }
        ensures len { self.new.len ≡ self.old.len }
    {
        let (start, end) = next_word(self.line, self.at)?;
        let word = &self.line[start..end];
        if !word.starts_with(front) {
            return None;
        }
        self.at = end;
        Some(Word {
            at: start as u32,
            text: &word[front.len()..],
        })
    }

    /// The value, where no word is left.
    pub(crate) fn ends<T: Drop>(&self, value: T) -> Result<T, BadLine>
        ensures { result ≡ ends value self.now.words }
    {
        match next_word(self.line, self.at) {
            None => Ok(value),
            Some((start, _)) => Err(BadLine {
                at: start as u32,
                why: Why::Extra,
            }),
        }
    }

    pub(crate) fn is_empty(&self) -> bool
        ensures { IsTrue result ↔ (self.now.words ≡ []) }
    {
        next_word(self.line, self.at).is_none()
    }

    /// The fault that a word is missing.
    pub(crate) fn missing(&self) -> BadLine
        ensures { result ≡ record { at = self.now.len; why = Why.Missing } }
    {
        BadLine {
            at: self.line.len() as u32,
            why: Why::Missing,
        }
    }
}

/// Where the next word of a line begins and ends, from a place on that is not within a word.
fn next_word(line: &[u8], at: usize) -> Option<(usize, usize)>
    requires { at ≤ length line.now }
    ensures { MatchOption result (line_words_from at [] (drop at line.now) ≡ []) (λ place.
        (place.0 < place.1) × (place.1 ≤ length line.now)
        × (line_words_from at [] (drop at line.now)
        ≡ record { at = place.0; text = slice_range line.now place.0 place.1 } ∷ line_words_from place.1 [] (drop place.1 line.now))) }
{
    let start = at + blank_len(&line[at..]);
    if start == line.len() {
        return None;
    }
    let end = start + word_len(&line[start..]);
    Some((start, end))
}

/// How many blanks stand in front.
#[tactic(auto, using(crate::proofs::WordLemmas::places))]
fn blank_len(bytes: &[u8]) -> usize
    ensures count { result ≡ position_or_len (λ byte. not (is_blank byte)) bytes.now }
    ensures within { result ≤ length bytes.now }
{
    first_not_blank(bytes).unwrap_or(bytes.len())
}

/// How many bytes stand before the first blank.
#[tactic(auto, using(crate::proofs::WordLemmas::places))]
fn word_len(bytes: &[u8]) -> usize
    ensures count { result ≡ position_or_len is_blank bytes.now }
    ensures within { result ≤ length bytes.now }
{
    first_blank(bytes).unwrap_or(bytes.len())
}

fn first_not_blank(bytes: &[u8]) -> Option<usize>
    ensures { result ≡ position (λ byte. not (is_blank byte)) bytes.now }
{
    bytes.iter().position(|byte| !is_blank(*byte))
}

#[tactic(auto, using(cxl_io::proofs::FirstByte::first_byte))]
fn first_blank(bytes: &[u8]) -> Option<usize>
    ensures { result ≡ position is_blank bytes.now }
{
    memchr2(b' ', b'\t', bytes)
}

fn is_blank(byte: u8) -> bool
    ensures { result ≡ is_blank byte }
{
    byte == b' ' || byte == b'\t'
}
