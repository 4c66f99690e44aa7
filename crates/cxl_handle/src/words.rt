//! The register words of a session as rows.

ghost use Rattle.std.specs.Prelude.{◌≡◌, length, map, take, drop};
ghost use Rattle.std.specs.Option.{MatchOption};
ghost use Rattle.cxl_handle.specs.Facts.{AreWordsTold, fact_of, shown};
ghost use Rattle.cxl_handle.specs.Told.{misused};

use crate::handle::{MISUSED, SessionHandle};
use cxl_held::Sent;
use std::alloc::Global;

/// A register word that was sent.
#[repr(C)]
#[derive(Clone, Copy)]
pub struct WordFact {
    /// The number of its node.
    pub node: u32,
    /// Where it stands in the node's block, in bytes.
    pub offset: u32,
    pub value: u32,
}

impl SessionHandle {
    /// The register words that the last call on the session sent, in their order, with status 0, and how many these are, also where
    /// there are fewer rows. Where there is no session: status 1, and none. Takes no memory.
    pub fn words(&mut self, alloc: Global, rows: &mut [WordFact], count: &mut usize) -> u8
        ensures same { self.new.held ≡ self.old.held }
        ensures told { MatchOption self.old.held ((result ≡ misused) × (count.new ≡ 0) × (rows.new ≡ rows.old))
            (λ held. (result ≡ 0) × AreWordsTold held.regs.trail count.new rows.old rows.new) }
    {
        match self.take(alloc) {
            Some(held) => {
                *count = held.words().len();
                put_words(held.words(), rows);
                self.put(held);
                0
            }
            None => {
                *count = 0;
                MISUSED
            }
        }
    }
}

/// Puts words into rows, as many from the front as there is room for.
fn put_words(words: &[Sent], rows: &mut [WordFact])
    ensures told { take (shown words.now rows.old) rows.new ≡ map fact_of (take (shown words.now rows.old) words.now) }
    ensures behind { drop (shown words.now rows.old) rows.new ≡ drop (shown words.now rows.old) rows.old }
{
    let n = words.len().min(rows.len());
    for i in 0..n {
        rows[i] = fact_of(words[i]);
    }
}

/// A word as a row.
fn fact_of(sent: Sent) -> WordFact
    ensures { result ≡ fact_of sent }
{
    WordFact {
        node: sent.node,
        offset: sent.off,
        value: sent.value,
    }
}
