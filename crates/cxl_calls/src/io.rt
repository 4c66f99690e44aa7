//! Numbers, sinks and messages of `cxl_io`; its blocks, its files, its lines, and what is outside have modules of their own.

mod blocks;
mod files;
mod lines;
mod outside;

use crate::common::{list, prints, repeated, row_passes, rows, shows};
use cxl_io::{
    FetchFault, MemSink, NumFault, Sink, StdSink, put_hex, put_number, read_number, write_all,
};
use std::io;
use std::process::Abort;

/// Words, and the numbers that they stand for, as debug text.
const WORDS: &[(&str, &str)] = &[
    ("", "Err(Empty)"),
    ("0x", "Err(Empty)"),
    ("0", "Ok(0)"),
    ("007", "Ok(7)"),
    ("0xFf", "Ok(255)"),
    ("0x00000000000000000000000000001f", "Ok(31)"),
    ("18446744073709551615", "Ok(18446744073709551615)"),
    ("18446744073709551616", "Err(TooLarge)"),
    ("0xffffffffffffffff", "Ok(18446744073709551615)"),
    ("0x10000000000000000", "Err(TooLarge)"),
    ("12a", "Err(BadDigit(2))"),
    ("0xg", "Err(BadDigit(2))"),
    ("0X1", "Err(BadDigit(1))"),
    ("+1", "Err(BadDigit(0))"),
    ("99999999999999999999 ", "Err(BadDigit(20))"),
];

#[test]
fn numbers_read(rt: HostRuntime) {
    for (word, want) in WORDS {
        let read = read_number(word.as_bytes());
        row_passes(&rt, *word, shows(rt.alloc(), &read, *want));
    }
}

/// The number of a word of a million of one digit and then others.
fn read_long(rt: &(impl Abort + AllocGlobal), digit: u8, rest: &str) -> Result<u64, NumFault> {
    read_number(&repeated(rt, "", digit, 1_000_000, rest))
}

#[test]
fn long_numbers_read(rt: HostRuntime) {
    assert!(rt; read_long(&rt, b'0', "7") == Ok(7));
    assert!(rt; read_long(&rt, b'9', "") == Err(NumFault::TooLarge));
}

/// What is there, a number, its width or 0 for decimal digits, and what is there then.
struct Row {
    front: &'static str,
    number: u64,
    width: u8,
    text: &'static str,
}

const PRINTED: &[Row] = rows! {
    Row { front, number, width, text };
    "n=", 0, 0, "n=0";
    "n=", 7, 0, "n=7";
    "n=", 1_048_576, 0, "n=1048576";
    "n=", u64::MAX, 0, "n=18446744073709551615";
    "0x", 0, 1, "0x0";
    "0x", 0, 4, "0x0000";
    "0x", 31, 4, "0x001f";
    "0x", 0xab_cdef, 2, "0xabcdef";
    "0x", u64::MAX, 1, "0xffffffffffffffff";
    "0x", 9, 16, "0x0000000000000009";
};

fn puts(text: &mut Vec<u8>, number: u64, width: u8) -> bool {
    if width == 0 {
        put_number(text, number).is_ok()
    } else if width <= 16 {
        put_hex(text, number, width).is_ok()
    } else {
        false
    }
}

fn are_put(rt: &(impl Abort + AllocGlobal), row: &Row) -> bool {
    let mut text = list(rt, row.front.as_bytes());
    puts(&mut text, row.number, row.width) && text.as_slice() == row.text.as_bytes()
}

#[test]
fn numbers_printed(rt: HostRuntime) {
    for row in PRINTED {
        row_passes(&rt, row.text, are_put(&rt, row));
    }
}

/// Whether a text is written.
fn writes<S: Sink>(sink: &mut S, text: &str) -> bool {
    write_all(sink, text.as_bytes()).is_ok()
}

fn takes_a_part(sink: &mut MemSink) -> bool {
    !writes(sink, "window 0") && writes(sink, "") && sink.bytes() == b"windo".as_slice()
}

fn loses_the_second(sink: &mut MemSink) -> bool {
    writes(sink, "base ")
        && !writes(sink, "lost ")
        && writes(sink, "size")
        && sink.bytes() == b"base size".as_slice()
}

/// A sink with room for so many bytes, of which one write fails.
fn sink(rt: &(impl Abort + AllocGlobal), room: u32, fails: u64) -> MemSink {
    MemSink::new(rt.alloc(), room, list(rt, &[fails])).expect(rt, "memory")
}

/// A sink takes what has room.
#[test]
fn small_sink(rt: HostRuntime) {
    assert!(rt; takes_a_part(&mut sink(&rt, 5, 9)));
}

/// The second write is one that fails.
#[test]
fn failing_sink(rt: HostRuntime) {
    assert!(rt; loses_the_second(&mut sink(&rt, 64, 2)));
}

#[test]
fn standard_output(rt: HostRuntime) {
    assert!(rt; writes(&mut StdSink::new(io::writer(&rt)), "written\n"));
}

#[test]
fn messages(rt: HostRuntime) {
    let alloc = rt.alloc();
    assert!(rt; prints(alloc, &NumFault::BadDigit(2), "no digit at byte 2"));
    assert!(rt; prints(alloc, &FetchFault::Failed, "cannot read the file"));
}
