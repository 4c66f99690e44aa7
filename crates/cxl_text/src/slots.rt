//! The lines of slots. Each is put together from its end, in room for one, so that the start of a span stays there from
//! line to line.

ghost use Rattle.std.specs.Prelude.{◌≡◌, ◌+◌, ◌<◌, ◌≤◌, ◌++◌, All, codes, decimal, drop, length, OnOk};
ghost use Rattle.cxl_reply.specs.Words.{hex_text, node_text};
ghost use Rattle.cxl_reply.specs.Texts.{slot_text, slots_text};

use crate::refusal::put_whole_text;
use cxl_enc::Memory;
use cxl_io::write_hex;
use cxl_model::Place;
use cxl_topo::Topo;
use itoa::Buffer;

/// How many bytes the longest line has: `slot `, twenty digits, a space, a name, ` 0x`, sixteen digits and the end.
const ROOM: usize = 61;

/// Appends a line for each slot.
pub(crate) fn put_slots(out: &mut Vec<u8>, places: &[Place], topo: &Topo) -> Result<(), Memory>
    requires { All (λ place. place.endpoint < length topo.now.nodes) places.now }
    ensures { OnOk result (out.new.items ≡ out.old.items ++ slots_text topo.now.nodes places.now) }
{
    let mut text = [0; ROOM];
    let mut start = 0;
    let mut tail = put_start(&mut text, start);
    for (slot, place) in places.iter().enumerate() {
        tail = put_other_start(&mut text, tail, start, place.start);
        start = place.start;
        put_slot(out, &mut text, tail, slot, place, topo)?;
    }
    Ok(())
}

/// Puts where a span starts at the end of the room, where another start stands, and answers where that text begins.
fn put_other_start(text: &mut [u8; ROOM], tail: usize, old: u64, start: u64) -> usize
    requires at { 41 ≤ tail }
    requires within { tail ≤ 61 }
    requires text { drop tail text.old ≡ codes " " ++ hex_text old ++ codes "\n" }
    ensures at { 41 ≤ result }
    ensures within { result ≤ 61 }
    ensures text { drop result text.new ≡ codes " " ++ hex_text start ++ codes "\n" }
{
    if start == old {
        return tail;
    }
    put_start(text, start)
}

/// Puts where a span starts at the end of the room, and answers where that text begins.
fn put_start(text: &mut [u8; ROOM], start: u64) -> usize
    ensures at { 41 ≤ result }
    ensures within { result ≤ 61 }
    ensures text { drop result text.new ≡ codes " " ++ hex_text start ++ codes "\n" }
{
    let mut digits = [b'0'; 16];
    let first = write_hex(start, &mut digits);
    let end = put_before(text, ROOM, b"\n");
    let at = put_before(text, end, &digits[first..]);
    put_before(text, at, b" 0x")
}

/// Appends the line of a slot whose span's start stands in the room from there on.
fn put_slot(
    out: &mut Vec<u8>,
    text: &mut [u8; ROOM],
    tail: usize,
    slot: usize,
    place: &Place,
    topo: &Topo,
) -> Result<(), Memory>
    requires at { 41 ≤ tail }
    requires within { tail ≤ 61 }
    requires text { drop tail text.old ≡ codes " " ++ hex_text place.now.start ++ codes "\n" }
    requires node { place.now.endpoint < length topo.now.nodes }
    ensures line { OnOk result (out.new.items ≡ out.old.items ++ slot_text topo.now.nodes (slot, place.now)) }
    ensures text { drop tail text.new ≡ drop tail text.old }
{
    let at = put_before(text, tail, topo.node(place.endpoint).name.bytes());
    let at = put_before(text, at, b" ");
    let at = put_decimal(text, at, slot as u64);
    let first = put_before(text, at, b"slot ");
    put_whole_text(out, &text[first..])
}

/// Puts a number in decimal digits before what stands there, and answers where they begin.
fn put_decimal(text: &mut [u8; ROOM], at: usize, number: u64) -> usize
    requires room { 20 ≤ at }
    requires within { at ≤ 61 }
    ensures at { result + length (decimal number) ≡ at }
    ensures few { at ≤ result + 20 }
    ensures text { drop result text.new ≡ decimal number ++ drop at text.old }
{
    // Most of them have few digits.
    if number < 10 {
        return put_before(text, at, &[b'0' + number as u8]);
    }
    if number < 100 {
        let digits = [b'0' + (number / 10) as u8, b'0' + (number % 10) as u8];
        return put_before(text, at, &digits);
    }
    let mut buffer = Buffer::new();
    put_before(text, at, buffer.format(number).as_bytes())
}

/// Puts bytes before what stands there, and answers where they begin.
fn put_before(text: &mut [u8; ROOM], at: usize, bytes: &[u8]) -> usize
    requires room { length bytes.now ≤ at }
    requires within { at ≤ 61 }
    ensures at { result + length bytes.now ≡ at }
    ensures text { drop result text.new ≡ bytes.now ++ drop at text.old }
{
    let first = at - bytes.len();
    text[first..at].copy_from_slice(bytes);
    first
}
