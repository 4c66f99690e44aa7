//! Spans of a device, the rules of a block, and where the next span stands.

ghost use Rattle.std.specs.Prelude.{◌+◌, ◌<◌};
ghost use Rattle.cxl_enc.specs.Limits.{address_limit};

use crate::common::{row_passes, rows};
use cxl_enc::{MemKind, UNIT};
use cxl_regs::{BASE_HIGH, BASE_LOW, Block, CONTROL, Decoder, SIZE_LOW, TAIL_LOW, decoder_of};
use cxl_span::{
    BlockBreach, Room, Span, SpanFault, allot, block_breach, breaks_at, committed_stand_first,
    endpoint_place_of, one_holder, ranges_rise, spans_are_whole, spans_follow,
    spans_lie_in_partitions, start_of,
};
use std::process::Abort;

const GIB: u64 = 0x4000_0000;

/// A decoder of an endpoint's block.
#[derive(Clone, Copy)]
enum Plain {
    Reset,
    /// 256 MiB at 4 GiB, one way, committed.
    First,
    /// The next 256 MiB, past 768 MiB of the device.
    Second,
    /// The first, from 2 GiB of the device on.
    Late,
    /// The second with 512 MiB.
    Long,
    /// Half of 4 GiB, over two ways.
    Shared,
}

/// Its words, from base low to the reserved one.
fn register_words(plain: Plain) -> [u32; 8] {
    match plain {
        Plain::Reset => [0; 8],
        Plain::First => [0, 1, 0x1000_0000, 0, 0x1600, 0, 0, 0],
        Plain::Second => [0x1000_0000, 1, 0x1000_0000, 0, 0x1600, 0x3000_0000, 0, 0],
        Plain::Late => [0, 1, 0x1000_0000, 0, 0x1600, 0x8000_0000, 0, 0],
        Plain::Long => [0x1000_0000, 1, 0x2000_0000, 0, 0x1600, 0x3000_0000, 0, 0],
        Plain::Shared => [0, 1, 0, 1, 0x1610, 0, 0, 0],
    }
}

/// The word that a decoder gets at a place among its words.
struct Change {
    at: u32,
    word: u32,
}

/// The same with some words changed.
fn changed(plain: Plain, changes: &[Change]) -> [u32; 8] {
    let mut words = register_words(plain);
    for change in changes {
        if change.at < 8 {
            words[change.at as usize] = change.word;
        }
    }
    words
}

/// An endpoint's block of four decoders, of which these are the words of the first two.
fn endpoint(enabled: bool, first: &[u32; 8], second: &[u32; 8]) -> Block {
    let first = decoder_of(first, true);
    let second = decoder_of(second, true);
    let reset = decoder_of(&[0; 8], true);
    Block::with_decoders(0x1b02, true, enabled, &[first, second, reset, reset])
}

/// A block's first two decoders with their changes, and the rule that the block breaks first, at which decoder, or rule 0.
struct Row {
    name: &'static str,
    first: Plain,
    first_changes: &'static [Change],
    second: Plain,
    second_changes: &'static [Change],
    rule: u8,
    decoder: u8,
}

/// The last breaks a rule; the others of its kind stand in `worked/rules`.
const BLOCKS: &[Row] = rows! {
    Row { name, first, first_changes, second, second_changes, rule, decoder };
    "two decoders that keep the rules", Plain::First, &[], Plain::Second, &[], 0, 0;
    "no decoder committed", Plain::Reset, &[], Plain::Reset, &[], 0, 0;
    "a span up to the end of the ram", Plain::First, &[], Plain::Second, &[Change { at: TAIL_LOW, word: 0x2000_0000 }], 0, 0;
    "a span of 512 MiB in the pmem", Plain::First, &[], Plain::Second, &[Change { at: SIZE_LOW, word: 0x2000_0000 }], 0, 0;
    "an error before a first span behind the device", Plain::Late, &[], Plain::Second, &[Change { at: CONTROL, word: 0x1e00 }], 3, 1;
};

/// A block on a device of 1 GiB of each kind breaks this first.
fn breaks(block: &Block, rule: u8, decoder: u8) -> bool {
    match block_breach(block, GIB, GIB) {
        Some(breach) => breach == BlockBreach { rule, decoder },
        None => rule == 0,
    }
}

fn is_broken(row: &Row) -> bool {
    let first = changed(row.first, row.first_changes);
    let second = changed(row.second, row.second_changes);
    let block = endpoint(true, &first, &second);
    row.decoder < block.count()
        && breaks_at(&block, GIB, GIB, row.rule, row.decoder) == (row.rule != 0)
        && breaks(&block, row.rule, row.decoder)
}

fn are_broken(rt: &impl Abort, rows: &[Row]) {
    for row in rows {
        row_passes(rt, row.name, is_broken(row));
    }
}

#[test]
fn breaches(rt: HostRuntime) {
    are_broken(&rt, BLOCKS);
}

/// The block of the first and the second.
fn plain_block(enabled: bool) -> Block {
    endpoint(
        enabled,
        &register_words(Plain::First),
        &register_words(Plain::Second),
    )
}

#[test]
fn breach_of_a_disabled_block(rt: HostRuntime) {
    assert!(rt; breaks(&plain_block(false), 2, 0));
}

/// A port's ranges take no bytes of a device.
fn is_a_port(block: &mut Block) -> bool {
    block.write32(0x14, 1);
    block.write32(0x18, 0x1000_0000);
    block.write32(0x20, 0x1200);
    block.read32(0x20) == Some(0x1600) && block_breach(block, 0, 0).is_none()
}

#[test]
fn a_port(rt: HostRuntime) {
    let mut block = Block::new(0x382, false);
    assert!(rt; is_a_port(&mut block));
}

/// The span that an endpoint's block gives, which keeps the rules.
fn allots(block: &Block, ram: u64, kind: MemKind, len: u64) -> Option<Result<Span, SpanFault>> {
    let pmem = if ram == GIB { GIB } else { 0 };
    let asks = ram <= 4 * GIB && len <= 4 * GIB && block.endpoint();
    if asks && block_breach(block, ram, pmem).is_none() {
        Some(allot(block, ram, pmem, kind, len))
    } else {
        None
    }
}

/// A block's first two decoders, the device's ram, and what is asked for; then the answer. The device has as much pmem where
/// its ram is 1 GiB, and else none.
struct Asked {
    name: &'static str,
    first: Plain,
    second: Plain,
    ram: u64,
    kind: MemKind,
    len: u64,
    answer: Result<Span, SpanFault>,
}

const SPANS: &[Asked] = rows! {
    Asked { name, first, second, ram, kind, len, answer };
    "ram of a block after reset", Plain::Reset, Plain::Reset, GIB, MemKind::Ram, UNIT, Ok(Span { skip: 0, start: 0, len: UNIT });
    "pmem behind a span of ram", Plain::First, Plain::Reset, GIB, MemKind::Pmem, UNIT,
        Ok(Span { skip: 0x3000_0000, start: 0x4000_0000, len: UNIT });
    "ram behind a span of pmem", Plain::First, Plain::Second, GIB, MemKind::Ram, UNIT, Err(SpanFault::PastRam(0x5000_0000));
    "pmem without room", Plain::First, Plain::Second, GIB, MemKind::Pmem, GIB,
        Err(SpanFault::NoRoom(Room { start: 0x5000_0000, limit: 0x8000_0000 }));
    "pmem up to its end", Plain::First, Plain::Second, GIB, MemKind::Pmem, 3 * UNIT,
        Ok(Span { skip: 0, start: 0x5000_0000, len: 3 * UNIT });
    "ram behind half of 4 GiB over two ways", Plain::Shared, Plain::Reset, 4 * GIB, MemKind::Ram, UNIT,
        Ok(Span { skip: 0, start: 0x8000_0000, len: UNIT });
};

fn is_answered(asked: &Asked) -> bool {
    let block = endpoint(
        true,
        &register_words(asked.first),
        &register_words(asked.second),
    );
    allots(&block, asked.ram, asked.kind, asked.len) == Some(asked.answer)
}

fn are_answered(rt: &impl Abort, rows: &[Asked]) {
    for row in rows {
        row_passes(rt, row.name, is_answered(row));
    }
}

#[test]
fn spans(rt: HostRuntime) {
    are_answered(&rt, SPANS);
}

/// A block with no decoder left.
#[test]
fn a_full_block(rt: HostRuntime) {
    let decoders = [decoder_of(&register_words(Plain::First), true)];
    let block = Block::with_decoders(0x1b00, true, true, &decoders);
    assert!(rt; allots(&block, GIB, MemKind::Ram, UNIT) == Some(Err(SpanFault::NoDecoder)));
}

/// The start of a committed decoder of an endpoint's block that keeps the rules on a device of 1 GiB of each kind.
fn starts(block: &Block, i: u8) -> Option<u64> {
    let keeps = block_breach(block, GIB, GIB).is_none() && block.endpoint();
    if keeps && i < block.count() && block.decoder(i).committed {
        spans_lie_in_partitions();
        Some(start_of(block, i))
    } else {
        None
    }
}

#[test]
fn start_in_pmem(rt: HostRuntime) {
    assert!(rt; starts(&plain_block(true), 1) == Some(0x4000_0000));
}

/// The byte of its device to which a decoder of an endpoint sends an address.
fn sends(start: u64, base: u64, ways: u8, h: u64) -> u64
    requires { start + h < address_limit }
{
    let d = Decoder {
        base,
        ways,
        ..Decoder::RESET
    };
    endpoint_place_of(start, &d, h)
}

/// Decoders of three, four and six ways.
#[test]
fn places_in_a_span(rt: HostRuntime) {
    assert!(rt; sends(0, 0x1_0000_0000, 8, 0x1_2fff_ffff) == 0xfff_ffff);
    assert!(rt; sends(0, 0x10_0000_0000, 2, 0x10f_ffff_ffff) == 0x3f_ffff_ffff);
    assert!(rt; sends(0x4000_0000, 0x1_0000_0000, 9, 0x1_0000_0600) == 0x4000_0100);
}

#[test]
fn laws_are_called() {
    committed_stand_first();
    ranges_rise();
    one_holder();
    spans_follow();
    spans_are_whole();
}
