//! An HDM decoder block, as the words that are read and written of it.

ghost use Rattle.std.specs.Prelude.{◌≡◌, ◌<◌, ◌≤◌, ◌+◌, ◌-◌, ◌/◌, ◌%◌, ◌↔◌, ◌||◌, true, IsTrue, IsSome, Some, drop, length, IfOk, IfSome, slice_get};
ghost use Rattle.cxl_enc.specs.Bits.{control_commit};
ghost use Rattle.cxl_enc.specs.Caps.{is_legal_cap, has_bit};
ghost use Rattle.cxl_regs.specs.declared.decoder.Decoder.{Decoder};
ghost use Rattle.cxl_regs.specs.Registers.{Registers, IsBlock, IsDecoder, IsSameShape, reset_block};
ghost use Rattle.cxl_regs.specs.Words.{control, head_words, word_at, HasWord};
ghost use Rattle.cxl_regs.specs.Rules.{first_broken_rule, before};
ghost use Rattle.cxl_regs.specs.Reading.{committed_count};
ghost use Rattle.cxl_regs.specs.Writes.{WritesWord, any_committed, with_decoder, with_word, after_global, after_decoder, after_release, after_control, after_commit};

use crate::decoder::Decoder;
use crate::decoders::Decoders;
use crate::effect::{CommitRule, Effect};
use crate::offsets::{CONTROL, GLOBAL_CONTROL, HEAD_SIZE, RESERVED, index_at, place_at};
use crate::rules::{breaks_order, breaks_rise, codes_ok, decoder_count, select_ok};
use crate::words::words_of;
use crate::writing::with_control;
use cxl_enc::{CONTROL_COMMIT, GLOBAL_ENABLE, Memory, has_bit};
use std::alloc::Global;
use std::marker::Model;

/// The HDM decoder block of a bridge, a switch (both are ports here) or an endpoint. Contracts see its
/// registers as records.
#[derive(Drop)]
pub struct Block {
    cap: u32,
    endpoint: bool,
    enabled: bool,
    decoders: Decoders,
}

impl Model for Block {
    ghost use Rattle.cxl_regs.specs.Registers.{Registers, IsBlock};

    ghost Value = { Registers };

    ghost view = { λ b. record { cap = b.cap; endpoint = b.endpoint; enabled = b.enabled; decoders = b.decoders } };

    ghost invariant = { λ b. IsBlock (record { cap = b.cap; endpoint = b.endpoint; enabled = b.enabled; decoders = b.decoders }) };
}

impl Block {
    /// A block after reset.
    pub fn new(cap: u32, endpoint: bool) -> Block
        requires { IsTrue (is_legal_cap cap endpoint) }
        ensures { result ≡ reset_block cap endpoint }
    {
        Block {
            cap,
            endpoint,
            enabled: !endpoint,
            decoders: Decoders::reset(decoder_count(cap)),
        }
    }

    /// The block with these registers.
    pub fn with_decoders(cap: u32, endpoint: bool, enabled: bool, decoders: &[Decoder]) -> Block
        requires { IsBlock (record { cap = cap; endpoint = endpoint; enabled = enabled; decoders = decoders.now }) }
        ensures { result ≡ record { cap = cap; endpoint = endpoint; enabled = enabled; decoders = decoders.now } }
    {
        Block {
            cap,
            endpoint,
            enabled,
            decoders: Decoders::of(decoders),
        }
    }

    /// An equal block.
    pub fn copy(&self) -> Block
        ensures { result ≡ self.now }
    {
        Block {
            cap: self.cap,
            endpoint: self.endpoint,
            enabled: self.enabled,
            decoders: self.decoders.copy(),
        }
    }

    /// The capability word.
    pub fn cap(&self) -> u32
        ensures value { result ≡ self.now.cap }
        ensures block { IsBlock self.now }
    {
        self.cap
    }

    /// Whether the block is an endpoint's, and not a port's.
    pub fn endpoint(&self) -> bool
        ensures value { result ≡ self.now.endpoint }
        ensures block { IsBlock self.now }
    {
        self.endpoint
    }

    /// Whether the block decodes. A port always does.
    pub fn enabled(&self) -> bool
        ensures value { result ≡ self.now.enabled }
        ensures block { IsBlock self.now }
    {
        self.enabled
    }

    /// How many decoders the block has, 10 at the most.
    pub fn count(&self) -> u8
        ensures value { result ≡ length self.now.decoders }
        ensures few { result ≤ 10 }
        ensures block { IsBlock self.now }
    {
        self.decoders.count()
    }

    /// How many committed decoders stand before the first that is not committed.
    pub fn committed(&self) -> u8
        ensures { result ≡ committed_count self.now.decoders }
    {
        self.decoders
            .as_slice()
            .iter()
            .take_while(|d| d.committed)
            .count() as u8
    }

    /// Whether a decoder above this index is committed.
    pub fn has_committed_above(&self, index: u8) -> bool
        ensures { result ≡ any_committed (drop (index + 1) self.now.decoders) }
    {
        self.decoders
            .as_slice()
            .iter()
            .skip(index as usize + 1)
            .any(|d| d.committed)
    }

    /// The registers of decoder `i`.
    pub fn decoder(&self, i: u8) -> Decoder
        requires { i < length self.now.decoders }
        ensures value { slice_get self.now.decoders i ≡ Some result }
        ensures decoder { IsDecoder self.now.endpoint result }
    {
        self.decoders.as_slice()[i as usize]
    }

    /// The word at an offset, `None` exactly where the block has none there: the offset is no multiple of 4
    /// or past the last decoder. (CXL HDM decoder capability.)
    pub fn read32(&self, off: u32) -> Option<u32>
        ensures word { result ≡ word_at self.now off }
        ensures some { IsSome result ↔ HasWord self.now off }
    {
        self.word(off)
    }

    fn word(&self, off: u32) -> Option<u32>
        ensures { result ≡ word_at self.now off }
    {
        if off % 4 != 0 {
            return None;
        }
        if off < HEAD_SIZE {
            return Some(self.head_words()[(off / 4) as usize]);
        }
        let d = self.find(index_at(off))?;
        Some(words_of(&d)[place_at(off) as usize])
    }

    /// The words before the decoders: the capability, the global control and two that are reserved. (CXL HDM decoder
    /// capability.)
    pub fn head_words(&self) -> [u32; 4]
        ensures { result ≡ head_words self.now }
    {
        let control = if self.endpoint && self.enabled { 2 } else { 0 };
        [self.cap, control, 0, 0]
    }

    /// Writes a word. What becomes of it is the first that fits of this project's write rules: words that
    /// hold no value drop it, and so do those of a committed decoder; a decoder is committed in rising order
    /// and released in falling order; a locked one stays. (CXL HDM decoder commit and lock.)
    #[tactic(auto, unfolding(crate::specs::Writes::after_word))]
    pub fn write32(&mut self, off: u32, value: u32) -> Effect
        ensures write { WritesWord self.old off value self.new result }
        ensures same_shape { IsSameShape self.old self.new }
    {
        if off % 4 != 0 {
            return Effect::Dropped;
        }
        if off < HEAD_SIZE {
            if off == GLOBAL_CONTROL && self.endpoint {
                return self.write_global(value);
            }
            return Effect::Dropped;
        }
        let index = index_at(off);
        if index >= usize::from(self.decoders.count()) {
            return Effect::Dropped;
        }
        self.write_decoder(index, place_at(off), value)
    }

    fn find(&self, index: usize) -> Option<Decoder>
        ensures value { result ≡ slice_get self.now.decoders index }
        ensures here { IsSome result → index < length self.now.decoders }
        ensures decoder { IfSome result (IsDecoder self.now.endpoint) }
    {
        self.decoders.as_slice().get(index).copied()
    }

    /// A write to the global control of an endpoint.
    fn write_global(&mut self, value: u32) -> Effect
        requires { self.old.endpoint ≡ true }
        ensures left { self.new ≡ (after_global self.old value).block }
        ensures told { result ≡ (after_global self.old value).effect }
    {
        if has_bit(value, GLOBAL_ENABLE) {
            self.enabled = true;
            return Effect::Written;
        }
        if any_committed(self.decoders.as_slice()) {
            return Effect::Dropped;
        }
        self.enabled = false;
        Effect::Written
    }

    /// A write to a word of a decoder. One that is not its control is written in place.
    fn write_decoder(&mut self, index: usize, place: u32, value: u32) -> Effect
        requires here { index < length self.old.decoders }
        ensures left { (d : Decoder) → slice_get self.old.decoders index ≡ Some d
            → self.new ≡ (after_decoder self.old index d place value).block }
        ensures told { (d : Decoder) → slice_get self.old.decoders index ≡ Some d
            → result ≡ (after_decoder self.old index d place value).effect }
    {
        match place {
            RESERVED => Effect::Dropped,
            CONTROL => self.write_control(index, value),
            _ if self.at(index).committed => Effect::Dropped,
            _ => {
                self.put_word(index, place, value);
                Effect::Written
            }
        }
    }

    /// A write to the control of a decoder. It stays a call, so that a write of another word saves no registers for it.
    #[inline(never)]
    fn write_control(&mut self, index: usize, value: u32) -> Effect
        requires here { index < length self.old.decoders }
        ensures left { (d : Decoder) → slice_get self.old.decoders index ≡ Some d
            → self.new ≡ (after_decoder self.old index d control value).block }
        ensures told { (d : Decoder) → slice_get self.old.decoders index ≡ Some d
            → result ≡ (after_decoder self.old index d control value).effect }
    {
        let d = self.at(index);
        if d.committed {
            self.release(index, d, value)
        } else {
            self.configure(index, d, value)
        }
    }

    /// The registers of a decoder.
    fn at(&self, index: usize) -> Decoder
        requires here { index < length self.now.decoders }
        ensures value { slice_get self.now.decoders index ≡ Some result }
        ensures decoder { IsDecoder self.now.endpoint result }
    {
        self.decoders.as_slice()[index]
    }

    /// A write to the control of a committed decoder.
    fn release(&mut self, index: usize, d: Decoder, value: u32) -> Effect
        requires here { index < length self.old.decoders }
        requires decoder { IsDecoder self.old.endpoint d }
        ensures left { self.new ≡ (after_release self.old index d value).block }
        ensures told { result ≡ (after_release self.old index d value).effect }
    {
        if self.stays(index, &d, value) {
            return Effect::Dropped;
        }
        let released = Decoder {
            commit: false,
            committed: false,
            ..d
        };
        self.put(index, released);
        Effect::Released
    }

    /// Whether a committed decoder stays so: it is locked, the write commits it again, or a later one is committed.
    fn stays(&self, index: usize, d: &Decoder, value: u32) -> bool
        requires { index < length self.now.decoders }
        ensures { result ≡ (d.now.lock || has_bit value control_commit || any_committed (drop (index + 1) self.now.decoders)) }
    {
        d.lock
            || has_bit(value, CONTROL_COMMIT)
            || any_committed(&self.decoders.as_slice()[index + 1..])
    }

    /// A write to the control of a decoder that is not committed.
    fn configure(&mut self, index: usize, d: Decoder, value: u32) -> Effect
        requires here { index < length self.old.decoders }
        requires decoder { IsDecoder self.old.endpoint d }
        ensures left { self.new ≡ (after_control self.old index d value).block }
        ensures told { result ≡ (after_control self.old index d value).effect }
    {
        let d = with_control(d, value);
        if !has_bit(value, CONTROL_COMMIT) {
            let written = Decoder {
                commit: false,
                error: false,
                ..d
            };
            self.put(index, written);
            return Effect::Written;
        }
        self.commit(index, d)
    }

    /// Commits the decoder with these registers, or marks that it could not.
    fn commit(&mut self, index: usize, d: Decoder) -> Effect
        requires here { index < length self.old.decoders }
        requires decoder { IsDecoder self.old.endpoint d }
        ensures left { self.new ≡ (after_commit self.old index d (first_broken_rule self.old index d)).block }
        ensures told { result ≡ (after_commit self.old index d (first_broken_rule self.old index d)).effect }
    {
        let broken = self.broken_rule(index, &d);
        let marked = Decoder {
            commit: true,
            committed: broken.is_none(),
            error: broken.is_some(),
            ..d
        };
        self.put(index, marked);
        match broken {
            Some(rule) => Effect::NotCommitted(rule),
            None => Effect::Committed,
        }
    }

    /// The first commit rule that the decoder would break with these registers.
    fn broken_rule(&self, index: usize, d: &Decoder) -> Option<CommitRule>
        requires here { index < length self.now.decoders }
        ensures { result ≡ first_broken_rule self.now index d.now }
    {
        if self.endpoint && !self.enabled {
            return Some(CommitRule::NotEnabled);
        }
        if d.size == 0 {
            return Some(CommitRule::ZeroSize);
        }
        let before = self.before(index);
        if breaks_order(before) {
            return Some(CommitRule::Order);
        }
        if breaks_rise(before, d) {
            return Some(CommitRule::Rise);
        }
        if !codes_ok(self.cap, self.endpoint, d) {
            return Some(CommitRule::Codes);
        }
        if !select_ok(self.cap, d.gran, d.select_bits()) {
            return Some(CommitRule::Select);
        }
        None
    }

    /// The decoder before, where there is one.
    fn before(&self, index: usize) -> Option<Decoder>
        requires here { index < length self.now.decoders }
        ensures { result ≡ before self.now.decoders index }
    {
        if index == 0 {
            return None;
        }
        Some(self.decoders.as_slice()[index - 1])
    }

    /// Gives a word of a decoder, but not its control, the bits of `value` that count.
    fn put_word(&mut self, index: usize, place: u32, value: u32)
        requires here { index < length self.old.decoders }
        ensures { (d : Decoder) → slice_get self.old.decoders index ≡ Some d
            → self.new ≡ with_decoder self.old index (with_word self.old.endpoint d place value) }
    {
        self.decoders.put_word(index, self.endpoint, place, value);
    }

    /// Gives the decoder these registers.
    fn put(&mut self, index: usize, d: Decoder)
        requires here { index < length self.old.decoders }
        requires decoder { IsDecoder self.old.endpoint d }
        ensures { self.new ≡ with_decoder self.old index d }
    {
        self.decoders.put(index, d);
    }
}

/// Equal blocks, in the same order. Takes memory.
pub fn copies(alloc: Global, blocks: &[Block]) -> Result<Vec<Block>, Memory>
    ensures { IfOk result (λ copies. copies.items ≡ blocks.now) }
{
    let mut copies = Vec::with_capacity(alloc, blocks.len())?;
    for block in blocks {
        copies.push_reserved(block.copy());
    }
    Ok(copies)
}

fn any_committed(decoders: &[Decoder]) -> bool
    ensures { result ≡ any_committed decoders.now }
{
    decoders.iter().any(|d| d.committed)
}
