//! Records that are counted by type as they are read, and kept.

ghost use Rattle.std.specs.Prelude.{◌≡◌, ◌≤◌, [], ◌∷◌, ◌++◌, false, OnOk};
ghost use Rattle.cxl_table.specs.Records.{kind_of, is_kind_full, HasFewOfEach};

use crate::layout::{CXIMS_KIND, KIND_LIMIT};
use cxl_enc::Memory;
use cxl_table::{Other, Record, kind_of};
use std::alloc::Global;
use std::marker::Model;

/// Whether a reader keeps the records of other types than the three that are judged.
#[derive(Clone, Copy, PartialEq, Eq)]
pub enum Others {
    Kept,
    PassedOver,
}

/// The records kept so far, counted by type.
#[derive(Drop)]
pub struct CountedRecords {
    records: Vec<Record>,
    /// Where those of the judged types begin, in order.
    places: Vec<u32>,
    /// How many there are of each judged type, by the type.
    counts: [u8; 3],
}

impl Model for CountedRecords {
    ghost use Rattle.cxl_cedt.specs.inner.KeptRecords.{KeptRecords};
    ghost use Rattle.cxl_cedt.specs.inner.Counted.{IsCounted};

    ghost Value = { KeptRecords };

    ghost view = { λ kept. record { records = kept.records.items; places = kept.places.items } };

    ghost invariant = { λ kept. IsCounted kept.records.items kept.counts };
}

impl CountedRecords {
    pub fn new(alloc: Global) -> CountedRecords
        ensures { result ≡ record { records = []; places = [] } }
    {
        CountedRecords {
            records: Vec::new(alloc),
            places: Vec::new(alloc),
            counts: [0; 3],
        }
    }

    /// Whether no more records of this type may come.
    pub fn is_kind_full(&self, kind: u8) -> bool
        ensures { result ≡ is_kind_full kind self.now.records }
    {
        kind <= CXIMS_KIND && self.counts[usize::from(kind)] == KIND_LIMIT
    }

    /// Adds a record of a judged type, which begins at byte `at`, at the end.
    pub fn push(&mut self, next: Record, at: u32) -> Result<(), Memory>
        requires judged { kind_of next ≤ 2 }
        requires room { is_kind_full (kind_of next) self.old.records ≡ false }
        ensures records { OnOk result (self.new.records ≡ self.old.records ++ next ∷ []) }
        ensures places { OnOk result (self.new.places ≡ self.old.places ++ at ∷ []) }
    {
        let kind = kind_of(&next);
        self.places.push(at)?;
        self.records.push(next)?;
        self.counts[usize::from(kind)] += 1;
        Ok(())
    }

    /// Adds a record of another type at the end, which counts for no limit.
    pub fn push_other(&mut self, next: Other) -> Result<(), Memory>
        ensures records { OnOk result (self.new.records ≡ self.old.records ++ Record.Other next ∷ []) }
        ensures places { OnOk result (self.new.places ≡ self.old.places) }
    {
        Ok(self.records.push(Record::Other(next))?)
    }

    /// The records in order.
    pub fn records(&self) -> &[Record]
        ensures records { result.now ≡ self.now.records }
        ensures few { HasFewOfEach self.now.records }
    {
        &self.records
    }

    /// Where those of the judged types begin, in order.
    pub fn places(&self) -> &[u32]
        ensures { result.now ≡ self.now.places }
    {
        &self.places
    }

    /// The records in order.
    pub fn into_records(self) -> Vec<Record>
        ensures records { result.items ≡ self.records }
        ensures few { HasFewOfEach self.records }
    {
        let CountedRecords {
            records,
            places: _,
            counts: _,
        } = self;
        records
    }
}
