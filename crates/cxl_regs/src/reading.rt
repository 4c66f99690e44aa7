//! What the registers of one decoder mean.

ghost use Rattle.std.specs.Prelude.{◌≡◌, ◌<◌, IsTrue, Some, length, slice_get};
ghost use Rattle.cxl_enc.specs.Codes.{is_ways};
ghost use Rattle.cxl_regs.specs.Reading.{decoder_ways, decoder_granularity, select_bits, range_of, has_range, holds_address, entry_of, entry_at, entries_of, span_length};

use crate::decoder::Decoder;
use cxl_enc::{chunk_size, split, ways_of};

/// A range of host addresses.
#[derive(Clone, Copy, PartialEq, Eq)]
pub struct Range {
    /// The first address.
    pub base: u64,
    /// How many bytes.
    pub size: u64,
}

impl Decoder {
    /// How many ways the decoder has. A code that stands for none counts as one way. (CXL HDM decoder control,
    /// interleave ways.)
    pub fn interleave_ways(&self) -> u8
        ensures value { result ≡ decoder_ways self.now }
        ensures known { IsTrue (is_ways result) }
        ensures some { 0 < result }
    {
        ways_of(self.ways).unwrap_or(1)
    }

    /// The granularity in bytes. The condition holds of each decoder of a block. (CXL HDM decoder control,
    /// interleave granularity.)
    pub fn interleave_granularity(&self) -> u32
        requires { self.now.gran < 16 }
        ensures { result ≡ decoder_granularity self.now }
    {
        chunk_size(self.gran)
    }

    /// How many address bits the decoder selects on: the k of its ways `t * 2^k`, and 0 where its code stands
    /// for none.
    pub fn select_bits(&self) -> u8
        ensures { result ≡ select_bits self.now.ways }
    {
        match ways_of(self.ways) {
            Some(ways) => split(ways).bits,
            None => 0,
        }
    }

    /// The host addresses that the decoder holds once it is committed.
    pub fn range(&self) -> Range
        ensures { result ≡ range_of self.now }
    {
        Range {
            base: self.base,
            size: self.size,
        }
    }

    /// Whether the decoder is committed with this range.
    pub fn has_range(&self, range: &Range) -> bool
        ensures { result ≡ has_range range.now self.now }
    {
        self.committed && self.base == range.base && self.size == range.size
    }

    /// Whether the decoder is committed and the host address lies in its range.
    pub fn holds_address(&self, h: u64) -> bool
        ensures { result ≡ holds_address self.now h }
    {
        self.committed && self.base <= h && h - self.base < self.size
    }

    /// The entry of its target list to which a port's decoder sends a host address; one below its base counts
    /// as the base. The condition holds of each decoder of a block. (CXL HDM decoder interleave.)
    pub fn entry_of(&self, h: u64) -> u8
        requires { self.now.gran < 16 }
        ensures value { result ≡ entry_of self.now h }
        ensures used { result < decoder_ways self.now }
    {
        let chunk = h.saturating_sub(self.base) >> (self.gran + 8);
        (chunk % u64::from(self.interleave_ways())) as u8
    }

    /// The port that stands at an entry of the target list; past the eight entries it is 0. A port's decoder
    /// uses as many entries as it has ways. (CXL HDM decoder target list.)
    pub fn entry_at(&self, entry: u8) -> u8
        ensures port { result ≡ entry_at self.now entry }
        ensures listed { entry < decoder_ways self.now → slice_get (entries_of self.now) entry ≡ Some result }
    {
        let list = self.tail;
        if entry >= 8 {
            return 0;
        }
        ((list >> (8 * entry)) & 0xff) as u8
    }

    /// How many bytes of its device an endpoint's decoder takes: one of as many shares as it has ways. (CXL
    /// endpoint decode.)
    pub fn span_length(&self) -> u64
        ensures { result ≡ span_length self.now }
    {
        self.size / u64::from(self.interleave_ways())
    }
}
