//! Writes to a decoder block: what becomes of each, and the word that is read afterwards.

use crate::common::{row_passes, rows};
use cxl_regs::CommitRule::{Codes, NotEnabled, Order, Rise, Select, ZeroSize};
use cxl_regs::Effect::{Committed, Dropped, NotCommitted, Released, Written};
use cxl_regs::{
    BASE_LOW, Block, CONTROL, Decoder, Effect, TAIL_HIGH, breaks_order, breaks_rise, codes_ok,
    decoder_of, offset_of, select_ok, words_of, words_stand_for_decoder, write_laws,
    writes_keep_places,
};
use std::process::Abort;
use std::test::*;

/// The offset and the value of a write, what becomes of it, and the word that is read there afterwards.
struct Write {
    name: &'static str,
    off: u32,
    value: u32,
    effect: Effect,
    word: u32,
}

/// Whether a write has its effect and leaves its word.
fn is_carried_out(block: &mut Block, write: &Write) -> bool {
    block.write32(write.off, write.value) == write.effect && has_word(block, write.off, write.word)
}

fn are_carried_out(rt: &impl Abort, block: &mut Block, writes: &[Write]) {
    for write in writes {
        row_passes(rt, write.name, is_carried_out(block, write));
    }
}

fn has_word(block: &Block, off: u32, word: u32) -> bool {
    block.read32(off) == Some(word)
}

fn endpoint() -> Block {
    Block::new(0x1b02, true)
}

const TO_AN_ENDPOINT: &[Write] = rows! {
    Write { name, off, value, effect, word };
    "a commit while disabled", 0x20, 0x1200, NotCommitted(NotEnabled), 0x1a00;
    "the block is enabled", 0x04, 0x2, Written, 0x2;
    "a commit of size 0", 0x20, 0x1200, NotCommitted(ZeroSize), 0x1a00;
    "a size and low bits", 0x18, 0x1fff_ffff, Written, 0x1000_0000;
    "the second decoder's size", 0x38, 0x1000_0000, Written, 0x1000_0000;
    "the second decoder's commit before the first's", 0x40, 0x1200, NotCommitted(Order), 0x1a00;
    "the first decoder's commit", 0x20, 0x1200, Committed, 0x1600;
    "the low half of a committed base", 0x10, 0x2000_0000, Dropped, 0x0;
    "the high half of a committed base", 0x14, 0x1, Dropped, 0x0;
    "a committed size", 0x18, 0x2000_0000, Dropped, 0x1000_0000;
    "the second decoder's commit at the first's base", 0x40, 0x1200, NotCommitted(Rise), 0x1a00;
    "the second decoder's base", 0x30, 0x1000_0000, Written, 0x1000_0000;
    "a commit of granularity code 7", 0x40, 0x1247, NotCommitted(Codes), 0x1a47;
    "a commit of select bits that it lacks", 0x40, 0x1226, NotCommitted(Select), 0x1a26;
    "the second decoder's commit", 0x40, 0x1216, Committed, 0x1616;
    "the first decoder's release before the second's", 0x20, 0x1000, Dropped, 0x1600;
    "the second decoder's release", 0x40, 0x1000, Released, 0x1016;
    "the block is disabled while a decoder is committed", 0x04, 0x0, Dropped, 0x2;
};

#[test]
fn writes_to_an_endpoint(rt: HostRuntime) {
    let mut block = endpoint();
    are_carried_out(&rt, &mut block, TO_AN_ENDPOINT);
}

const TO_A_PORT: &[Write] = rows! {
    Write { name, off, value, effect, word };
    "a port is not enabled", 0x04, 0x2, Dropped, 0x0;
    "a commit of size 0", 0x20, 0x1200, NotCommitted(ZeroSize), 0x1a00;
};

#[test]
fn writes_to_a_port(rt: HostRuntime) {
    let mut block = Block::new(0x382, false);
    are_carried_out(&rt, &mut block, TO_A_PORT);
}

fn is_reset(block: &Block) -> bool {
    block.count() == 4
        && block.cap() == 0x1b02
        && block.endpoint()
        && !block.enabled()
        && block.read32(0x90).is_none()
        && block.read32(0x8e).is_none()
        && has_word(block, 0x00, 0x1b02)
        && has_word(block, 0x08, 0)
        && has_word(block, 0x0c, 0)
        && has_word(block, 0x8c, 0)
}

#[test]
fn a_block_after_reset(rt: HostRuntime) {
    let block = endpoint();
    assert!(rt; is_reset(&block));
}

/// With these an endpoint's first decoder is committed.
const TO_COMMIT: &[Write] = rows! {
    Write { name, off, value, effect, word };
    "the block is enabled", 0x04, 0x2, Written, 0x2;
    "the high half of a size", 0x1c, 0x1, Written, 0x1;
    "the low half of a size", 0x18, 0x4000_0000, Written, 0x4000_0000;
    "a commit of two ways", 0x20, 0x1210, Committed, 0x1610;
};

/// Whether a block's first decoder alone is committed, and has the words of it.
fn is_committed(block: &Block) -> bool {
    if block.count() == 0 {
        return false;
    }
    let decoder = block.decoder(0);
    let words = words_of(&decoder);
    block.enabled()
        && block.committed() == 1
        && words == [0, 0, 0x4000_0000, 1, 0x1610, 0, 0, 0]
        && decoder_of(&words, true) == decoder
}

#[test]
fn a_block_and_its_words(rt: HostRuntime) {
    let mut block = endpoint();
    are_carried_out(&rt, &mut block, TO_COMMIT);
    let copy = block.copy();
    assert!(rt; is_committed(&copy));
}

#[test]
fn a_block_of_one_decoder(rt: HostRuntime) {
    let block = Block::with_decoders(0x1b00, true, false, &[Decoder::RESET]);
    assert!(rt; block.read32(0x30).is_none());
}

#[test]
fn laws() {
    words_stand_for_decoder();
    write_laws();
    writes_keep_places();
}

#[test]
fn codes_and_select_bits(rt: HostRuntime) {
    let three_ways = Decoder {
        ways: 8,
        ..Decoder::RESET
    };
    assert!(rt; codes_ok(0x1b02, true, &three_ways) && !codes_ok(0x382, false, &three_ways));
    assert!(rt; select_ok(0x1b02, 6, 1) && !select_ok(0x1b02, 6, 2));
}

/// A port's decoder of two ways at 512 bytes over 1 TiB.
const PORT: Decoder = Decoder {
    base: 0x10_0000_0000,
    size: 0x100_0000_0000,
    ways: 1,
    gran: 1,
    committed: true,
    tail: 0x0201,
    ..Decoder::RESET
};

fn has_its_range() -> bool {
    let range = PORT.range();
    range.base == 0x10_0000_0000
        && range.size == 0x100_0000_0000
        && PORT.has_range(&range)
        && !Decoder::RESET.has_range(&Decoder::RESET.range())
        && PORT.holds_address(0x10f_ffff_ffff)
        && !PORT.holds_address(0x110_0000_0000)
}

#[test]
fn the_range_of_a_port(rt: HostRuntime) {
    assert!(rt; has_its_range());
    assert!(rt; breaks_order(Some(Decoder::RESET)) && breaks_rise(Some(PORT), &PORT));
}

fn has_its_entries() -> bool {
    PORT.interleave_ways() == 2
        && PORT.interleave_granularity() == 512
        && PORT.select_bits() == 1
        && PORT.entry_of(0x10f_ffff_ffff) == 1
        && PORT.entry_of(0x10_0000_05ff) == 0
        && PORT.entry_at(0) == 1
        && PORT.entry_at(1) == 2
        && PORT.entry_at(8) == 0
}

#[test]
fn the_entries_of_a_port(rt: HostRuntime) {
    assert!(rt; has_its_entries());
}

/// An endpoint's decoder of six ways, and one with a code that stands for no ways.
#[test]
fn shares_of_ways(rt: HostRuntime) {
    let six = Decoder {
        size: 0x6000_0000,
        ways: 9,
        ..Decoder::RESET
    };
    assert!(rt;
        six.interleave_ways() == 6 && six.select_bits() == 1 && six.span_length() == 0x1000_0000
    );
    let none = Decoder { ways: 5, ..six };
    assert!(rt; none.span_length() == 0x6000_0000);
}

#[test]
fn offsets(rt: HostRuntime) {
    assert!(rt;
        offset_of(0, BASE_LOW) == 0x10
            && offset_of(1, CONTROL) == 0x40
            && offset_of(3, TAIL_HIGH) == 0x88
    );
}
