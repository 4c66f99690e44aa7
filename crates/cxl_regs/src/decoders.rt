//! The decoders of one block, in place.

ghost use Rattle.std.specs.Prelude.{◌≡◌, ◌<◌, ◌≤◌, Some, length, replicate, slice_get, slice_set};
ghost use Rattle.cxl_regs.specs.declared.decoder.Decoder.{Decoder};
ghost use Rattle.cxl_regs.specs.Registers.{reset_decoder};
ghost use Rattle.cxl_regs.specs.Writes.{with_word};

use crate::decoder::Decoder;
use crate::writing::write_word;
use std::marker::Model;

/// How many decoders a block has at the most. (CXL HDM decoder capability.)
pub const MOST_DECODERS: usize = 10;

/// The decoders of one block, which lie in the value itself, so that a block takes no memory. Contracts see their list.
#[derive(Drop)]
pub struct Decoders {
    count: u8,
    /// They, and behind them others that nobody reads.
    all: [Decoder; MOST_DECODERS],
}

impl Model for Decoders {
    ghost use Rattle.std.specs.Prelude.{◌≡◌, ◌≤◌, List, length, take};
    ghost use Rattle.cxl_regs.specs.declared.decoder.Decoder.{Decoder};

    ghost Value = { List Decoder };

    ghost view = { λ d. take d.count d.all };

    ghost invariant = { λ d. (d.count ≤ 10) × (length d.all ≡ 10) };
}

impl Decoders {
    /// So many decoders after reset.
    pub fn reset(count: u8) -> Decoders
        requires { count ≤ 10 }
        ensures { result ≡ replicate count reset_decoder }
    {
        Decoders {
            count,
            all: [Decoder::RESET; MOST_DECODERS],
        }
    }

    /// These decoders.
    pub fn of(decoders: &[Decoder]) -> Decoders
        requires { length decoders.now ≤ 10 }
        ensures { result ≡ decoders.now }
    {
        let mut all = [Decoder::RESET; MOST_DECODERS];
        all[..decoders.len()].copy_from_slice(decoders);
        Decoders {
            count: decoders.len() as u8,
            all,
        }
    }

    /// The same decoders.
    pub fn copy(&self) -> Decoders
        ensures { result ≡ self.now }
    {
        Decoders {
            count: self.count,
            all: self.all,
        }
    }

    /// How many there are.
    pub fn count(&self) -> u8
        ensures { result ≡ length self.now }
    {
        self.count
    }

    /// All of them.
    pub fn as_slice(&self) -> &[Decoder]
        ensures { result.now ≡ self.now }
    {
        &self.all[..self.count as usize]
    }

    /// Gives a decoder these registers.
    pub fn put(&mut self, index: usize, d: Decoder)
        requires { index < length self.old }
        ensures { self.new ≡ slice_set self.old index d }
    {
        let all = &mut self.all;
        all[index] = d;
    }

    /// Gives a word of a decoder, but not its control, the bits of `value` that count.
    pub fn put_word(&mut self, index: usize, endpoint: bool, place: u32, value: u32)
        requires { index < length self.old }
        ensures { (d : Decoder) → slice_get self.old index ≡ Some d → self.new ≡ slice_set self.old index (with_word endpoint d place value) }
    {
        let all = &mut self.all;
        write_word(&mut all[index], endpoint, place, value);
    }
}
