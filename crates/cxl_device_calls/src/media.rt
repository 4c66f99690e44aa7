//! Media: one list of calls for the plain and for the shipped one.

ghost use Rattle.std.specs.Prelude.{IsTrue};
ghost use Rattle.cxl_media.specs.Blocks.{IsInOneBlock};

use crate::common::{row_passes, rows};
use cxl_media::{At, Full, MapMedia, Media, Roll, SimMedia};
use std::alloc::Global;
use std::process::Abort;

fn is_in_block(dpa: u64, len: usize) -> bool
    ensures { IsTrue result → IsInOneBlock dpa len }
{
    0 < len && len <= 256 && dpa % 256 + len as u64 <= 256
}

/// A call of `Media`.
#[derive(Clone, Copy)]
enum Call {
    Put,
    PutFull,
    Get,
    Need,
    Scrub,
    Free,
}

/// A call, an endpoint's number, a device address, the bytes that are put or read, and the number that is answered or the
/// address up to which blocks are scrubbed.
struct Row {
    name: &'static str,
    call: Call,
    ep: u32,
    dpa: u64,
    bytes: &'static str,
    number: u64,
}

/// What a `put` answers, where the bytes lie in one block.
fn puts<M: Media>(media: &mut M, ep: u32, dpa: u64, bytes: &str) -> Option<Result<(), Full>> {
    if is_in_block(dpa, bytes.len()) {
        Some(media.put(ep, dpa, bytes.as_bytes()))
    } else {
        None
    }
}

/// Reads into sevens.
fn gets<M: Media>(media: &M, ep: u32, dpa: u64, want: &str) -> bool {
    let mut room = [7; 256];
    if !is_in_block(dpa, want.len()) {
        return false;
    }
    let into = &mut room[..want.len()];
    media.get(ep, dpa, into);
    *into == *want.as_bytes()
}

fn scrubs<M: Media>(media: &mut M, ep: u32, from: u64, to: u64) -> bool {
    let fits = from % 256 == 0 && to % 256 == 0 && from <= to;
    if fits {
        media.scrub(ep, from, to);
    }
    fits
}

/// Whether a call gives its answer.
fn answers<M: Media>(media: &mut M, row: &Row) -> bool {
    match row.call {
        Call::Put => puts(media, row.ep, row.dpa, row.bytes) == Some(Ok(())),
        Call::PutFull => puts(media, row.ep, row.dpa, row.bytes) == Some(Err(Full)),
        Call::Get => gets(media, row.ep, row.dpa, row.bytes),
        Call::Need => u64::from(media.need(row.ep, row.dpa)) == row.number,
        Call::Scrub => scrubs(media, row.ep, row.dpa, row.number),
        Call::Free => u64::from(media.free()) == row.number,
    }
}

/// Over two frames: a block with bytes in two places.
const CALLS: &[Row] = rows! {
    Row { name, call, ep, dpa, bytes, number };
    "two frames are free", Call::Free, 0, 0, "", 2;
    "a first block needs a frame", Call::Need, 7, 0, "", 1;
    "what was never put is zeros", Call::Get, 7, 250, "\0\0\0\0\0\0", 0;
    "the end of a block is put", Call::Put, 7, 250, "abcdef", 0;
    "the block needs no frame", Call::Need, 7, 0, "", 0;
    "one frame is free", Call::Free, 0, 0, "", 1;
    "zeros stand before what was put", Call::Get, 7, 248, "\0\0abcdef", 0;
    "the start of the block is put", Call::Put, 7, 0, "start", 0;
    "the start takes no frame", Call::Free, 0, 0, "", 1;
    "zeros stand behind the start", Call::Get, 7, 0, "start\0", 0;
    "the end is there beside the start", Call::Get, 7, 250, "abcdef", 0;
    "a second block is put", Call::Put, 8, 0, "other", 0;
    "no frame is free", Call::Free, 0, 0, "", 0;
    "a third block finds the media full", Call::PutFull, 7, 256, "late", 0;
    "the third block needs a frame", Call::Need, 7, 256, "", 1;
    "the third block is zeros", Call::Get, 7, 256, "\0\0\0\0", 0;
    "a byte more of the second block is put", Call::Put, 8, 5, "!", 0;
    "the second block has both", Call::Get, 8, 0, "other!", 0;
    "the first block is scrubbed", Call::Scrub, 7, 0, "", 256;
    "the first block's frame is free", Call::Free, 0, 0, "", 1;
    "the first block is zeros", Call::Get, 7, 250, "\0\0\0\0\0\0", 0;
    "the second block stays", Call::Get, 8, 0, "other!", 0;
    "all behind the second block is scrubbed", Call::Scrub, 8, 256, "", 1 << 62;
    "no byte of the second block is scrubbed", Call::Scrub, 8, 0, "", 0;
    "the second block keeps its frame", Call::Free, 0, 0, "", 1;
    "the last byte of a block is put", Call::Put, 7, 511, "z", 0;
    "all blocks of the first endpoint are scrubbed", Call::Scrub, 7, 0, "", 1 << 62;
    "their frame is free", Call::Free, 0, 0, "", 1;
    "they need a frame", Call::Need, 7, 511, "", 1;
    "the other endpoint's block stays", Call::Get, 8, 0, "other!", 0;
};

/// Checks each call.
fn answers_all<M: Media>(rt: &impl Abort, media: &mut M, rows: &[Row]) {
    for row in rows {
        row_passes(rt, row.name, answers(media, row));
    }
}

/// How many places answer this.
fn places_of<M: Roll>(media: &M, answer: Option<At>) -> u32 {
    let mut count: u32 = 0;
    for i in 0..media.places() {
        if media.at(i) == answer {
            count = count.saturating_add(1);
        }
    }
    count
}

/// One block is left, block 0 of node 8, at one place, and all other places are empty.
fn tells_one_block<M: Roll>(media: &M) -> bool {
    places_of(media, Some(At { ep: 8, block: 0 })) == 1
        && places_of(media, None) == media.places().saturating_sub(1)
}

/// From two free frames on.
fn answers_anew<M: Roll>(rt: &impl Abort, alloc: Global, media: &mut M, rows: &[Row]) -> bool {
    let powered = media.power_on(alloc, 2).is_ok();
    answers_all(rt, media, rows);
    powered && tells_one_block(media)
}

/// Full before it is powered on, and then twice the same.
fn answers_twice<M: Roll>(rt: &impl Abort, alloc: Global, media: &mut M, rows: &[Row]) -> bool {
    puts(media, 7, 0, "x") == Some(Err(Full))
        && answers_anew(rt, alloc, media, rows)
        && answers_anew(rt, alloc, media, rows)
}

fn answer_alike(rt: &impl Abort, alloc: Global, rows: &[Row]) {
    let mut map = MapMedia::new(alloc);
    assert!(rt; answers_twice(rt, alloc, &mut map, rows));
    drop(map);
    let mut sim = SimMedia::new(alloc);
    assert!(rt; answers_twice(rt, alloc, &mut sim, rows));
    drop(sim);
}

#[test]
fn both_media_answer_alike(rt: HostRuntime) {
    answer_alike(&rt, rt.alloc(), CALLS);
}

/// The bytes of a block are those of its frame in the pool.
fn stands_in_frame(media: &SimMedia) -> bool {
    match media.frame(7, 511) {
        Some(frame) => &media.pool().bytes(frame)[44..49] == b"bytes".as_slice(),
        None => false,
    }
}

/// Of three frames one is taken.
fn takes_a_frame(alloc: Global, media: &mut SimMedia) -> bool {
    media.power_on(alloc, 3).is_ok()
        && media.frame(7, 300).is_none()
        && puts(media, 7, 300, "bytes") == Some(Ok(()))
        && stands_in_frame(media)
        && media.pool().free() == 2
        && media.pool().total() == 3
}

#[test]
fn blocks_stand_in_frames(rt: HostRuntime) {
    let alloc = rt.alloc();
    let mut media = SimMedia::new(alloc);
    assert!(rt; takes_a_frame(alloc, &mut media));
    drop(media);
}
