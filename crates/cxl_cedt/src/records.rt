//! The records of a table that is read and not copied, one after the other.

ghost use Rattle.std.specs.Prelude.{◌≡◌, ◌≤◌, ◌<◌, [], ◌∷◌, length, MatchOption};
ghost use Rattle.cxl_table.specs.Layout.{cxims_kind};

use crate::layout::{CXIMS_KIND, FRAME_SIZE, KIND_PLACE, RESERVED_PLACE};
use crate::numbers::u8_at;
use crate::record_faults::length_said;
use cxl_table::Record;
use std::marker::Model;

/// A record of another type than the three that are judged, in the table's bytes.
#[derive(Drop)]
pub struct OtherText<'a> {
    text: &'a [u8],
}

impl<'a> Model for OtherText<'a> {
    ghost use Rattle.std.specs.Prelude.{◌<◌, ◌≤◌, length};
    ghost use Rattle.cxl_table.specs.Fields.{OtherFields};
    ghost use Rattle.cxl_cedt.specs.inner.Decoding.{other_of};
    ghost use Rattle.cxl_cedt.specs.inner.Walk.{IsOtherIn};

    ghost Value = { OtherFields };

    ghost view = { λ other. other_of other.text.now };

    ghost invariant = { λ other. IsOtherIn other.text.now };
}

impl<'a> OtherText<'a> {
    /// The record's type.
    #[tactic(auto, unfolding(crate::specs::inner::Decoding::other_of))]
    pub fn kind(&self) -> u8
        ensures value { result ≡ self.now.kind }
        ensures other { cxims_kind < result }
    {
        u8_at(self.text, KIND_PLACE)
    }

    /// The byte after the type.
    #[tactic(auto, unfolding(crate::specs::inner::Decoding::other_of))]
    pub fn reserved(&self) -> u8
        ensures { result ≡ self.now.reserved }
    {
        u8_at(self.text, RESERVED_PLACE)
    }

    /// The bytes after the length.
    #[tactic(auto, unfolding(crate::specs::inner::Decoding::other_of))]
    pub fn body(&self) -> &'a [u8]
        ensures value { result.now ≡ self.now.body }
        ensures few { length self.now.body ≤ 65531 }
    {
        &self.text[FRAME_SIZE as usize..]
    }
}

/// A record of a table that is read and not copied.
#[derive(Drop)]
pub enum RecordText<'a> {
    /// One of the three types that are judged, which is kept.
    Judged(&'a Record),
    Other(OtherText<'a>),
}

/// The records of a table that a walk over them has not met yet.
#[derive(Drop)]
pub struct Records<'a> {
    /// Their text.
    rest: &'a [u8],
    /// The judged ones of them.
    judged: &'a [Record],
}

impl<'a> Model for Records<'a> {
    ghost use Rattle.std.specs.Prelude.{List};
    ghost use Rattle.cxl_table.specs.declared.cedt.Record.{Record};
    ghost use Rattle.cxl_cedt.specs.Reading.{records_in};
    ghost use Rattle.cxl_cedt.specs.inner.Walk.{IsWalk};

    ghost Value = { List Record };

    ghost view = { λ walk. records_in walk.rest.now };

    ghost invariant = { λ walk. IsWalk walk.rest.now walk.judged.now };
}

impl<'a> Records<'a> {
    ghost use Rattle.cxl_cedt.specs.Reading.{records_in};
    ghost use Rattle.cxl_cedt.specs.RecordTexts.{record_in};
    ghost use Rattle.cxl_cedt.specs.inner.Walk.{IsWalk};

    /// The records of a text, of which these are judged.
    pub(crate) fn new(rest: &'a [u8], judged: &'a [Record]) -> Records<'a>
        requires { IsWalk rest.now judged.now }
        ensures { result ≡ records_in rest.now }
    {
        Records { rest, judged }
    }

    /// The next record.
    pub fn next(&mut self) -> Option<RecordText<'a>>
        ensures { MatchOption result (self.old ≡ []) (λ item. self.old ≡ record_in item ∷ self.new) }
    {
        if self.rest.is_empty() {
            return None;
        }
        let (text, after) = self.rest.split_at(length_said(self.rest) as usize);
        self.rest = after;
        if u8_at(text, KIND_PLACE) > CXIMS_KIND {
            return Some(RecordText::Other(OtherText { text }));
        }
        let (first, others) = self.judged.split_first().unwrap();
        self.judged = others;
        Some(RecordText::Judged(first))
    }
}
