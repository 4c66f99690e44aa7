//! How the words of a line are read: names, kinds, numbers and bytes.

ghost use Rattle.std.specs.Prelude.{◌≡◌, ◌≤◌, Ok, Err, IfOk, MatchResult};
ghost use Rattle.cxl_enc.specs.Codes.{gran_code_in_table};
ghost use Rattle.cxl_io.specs.Numbers.{number_of};
ghost use Rattle.cxl_script.specs.Reading.{IsUnlessMemory, GivesWithRest, GivesWithRestUnlessMemory, word_as_name, word_as_kind, ranged, word_as_bytes, next_word_in, name_in, kind_in, ranged_in, address_in, hex_bytes_in};
ghost use Rattle.cxl_script.specs.Grammar.{gran_in};

use crate::digits::{hex_bytes, is_hex};
use crate::fault::{BadLine, LineFault, Why};
use crate::words::{Word, Words};
use cxl_enc::{FixedList, MemKind, Name, gran_code};
use cxl_io::read_number;
use std::alloc::Global;

impl<'a> Words<'a> {
    /// The next word, which has to be there.
    pub(crate) fn word(&mut self) -> Result<Word<'a>, BadLine>
        ensures word { MatchResult result
            (λ word. next_word_in self.old.len self.old.words ≡ Ok (record { at = word.at; text = word.text.now }, self.new.words))
            (λ fault. next_word_in self.old.len self.old.words ≡ Err fault) }
        ensures len { self.new.len ≡ self.old.len }
    {
        match self.next() {
            Some(word) => Ok(word),
            None => Err(self.missing()),
        }
    }

    pub(crate) fn name(&mut self) -> Result<Name, BadLine>
        ensures name { GivesWithRest result self.new.words (name_in self.old.len self.old.words) }
        ensures len { self.new.len ≡ self.old.len }
    {
        word_as_name(self.word()?)
    }

    pub(crate) fn kind(&mut self) -> Result<MemKind, BadLine>
        ensures kind { GivesWithRest result self.new.words (kind_in self.old.len self.old.words) }
        ensures len { self.new.len ≡ self.old.len }
    {
        word_as_kind(self.word()?)
    }

    /// A number from least to most.
    pub(crate) fn number(&mut self, least: u64, most: u64) -> Result<u64, BadLine>
        ensures number { GivesWithRest result self.new.words (ranged_in least most self.old.len self.old.words) }
        ensures within { IfOk result (λ number. number ≤ most) }
        ensures len { self.new.len ≡ self.old.len }
    {
        ranged(self.word()?, least, most)
    }

    pub(crate) fn address(&mut self) -> Result<u64, BadLine>
        ensures address { GivesWithRest result self.new.words (address_in self.old.len self.old.words) }
        ensures len { self.new.len ≡ self.old.len }
    {
        self.number(0, u64::MAX)
    }

    /// Bytes in hexadecimal digits, no more than so many.
    pub(crate) fn bytes(&mut self, alloc: Global, most: usize) -> Result<FixedList<u8>, LineFault>
        ensures bytes { GivesWithRestUnlessMemory result self.new.words (hex_bytes_in most self.old.len self.old.words) }
        ensures len { self.new.len ≡ self.old.len }
    {
        word_as_bytes(alloc, self.word()?, most)
    }

    /// The code of a granularity, where one is stated.
    pub(crate) fn gran(&mut self) -> Result<Option<u8>, BadLine>
        ensures gran { GivesWithRest result self.new.words (gran_in self.old.words) }
        ensures len { self.new.len ≡ self.old.len }
    {
        let Some(word) = self.next_behind(b"gran=") else {
            return Ok(None);
        };
        let bytes = ranged(word, 0, u64::MAX)?;
        match code_of_bytes(bytes) {
            Some(code) => Ok(Some(code)),
            None => Err(word.bad(Why::Range)),
        }
    }
}

fn code_of_bytes(bytes: u64) -> Option<u8>
    ensures { result ≡ gran_code_in_table bytes }
{
    gran_code(bytes)
}

pub(crate) fn word_as_name(word: Word<'_>) -> Result<Name, BadLine>
    ensures { result ≡ word_as_name (record { at = word.entry.at; text = word.entry.text.now }) }
{
    Name::read(word.text).ok_or(word.bad(Why::Name))
}

fn word_as_kind(word: Word<'_>) -> Result<MemKind, BadLine>
    ensures { result ≡ word_as_kind (record { at = word.entry.at; text = word.entry.text.now }) }
{
    match word.text {
        b"ram" => Ok(MemKind::Ram),
        b"pmem" => Ok(MemKind::Pmem),
        _ => Err(word.bad(Why::Kind)),
    }
}

pub(crate) fn ranged(word: Word<'_>, least: u64, most: u64) -> Result<u64, BadLine>
    ensures number { result ≡ ranged word.entry.at least most (number_of word.entry.text.now) }
    ensures within { IfOk result (λ number. number ≤ most) }
{
    match read_number(word.text) {
        Ok(number) if least <= number && number <= most => Ok(number),
        Ok(_) => Err(word.bad(Why::Range)),
        Err(_) => Err(word.bad(Why::Number)),
    }
}

fn word_as_bytes(alloc: Global, word: Word<'_>, most: usize) -> Result<FixedList<u8>, LineFault>
    ensures { IsUnlessMemory result (word_as_bytes most (record { at = word.entry.at; text = word.entry.text.now })) }
{
    if !is_hex(word.text) {
        return Err(LineFault::Bad(word.bad(Why::Hex)));
    }
    if word.text.len() / 2 > most {
        return Err(LineFault::Bad(word.bad(Why::Range)));
    }
    Ok(FixedList::new(hex_bytes(alloc, word.text)?))
}
