//! Lines that go out in blocks.

use super::sink;
use crate::common::{row_passes, rows};
use cxl_io::{Lines, MemSink};
use std::process::Abort;

/// A name, lines that become whole one after the other in a block that is written from four bytes on, the write that fails or 0,
/// and what the sink holds behind each of them and behind the end, with `|` behind it; or `!` where it failed, which is the last.
struct Row {
    name: &'static str,
    lines: &'static str,
    fails: u64,
    told: &'static str,
}

/// Notes what the sink holds, or that it failed, and answers whether there is more to come.
fn notes(text: &mut Vec<u8>, done: bool, out: &MemSink) -> bool {
    let told = if done { out.bytes() } else { b"!" };
    text.extend_from_slice(told).is_ok() && text.push(b'|').is_ok() && done
}

fn put_lines(rt: &(impl Abort + AllocGlobal), row: &Row, out: &mut MemSink, text: &mut Vec<u8>) {
    let mut lines = Lines::<4>::new(rt.alloc());
    for line in row.lines.split(' ') {
        lines
            .block
            .extend_from_slice(line.as_bytes())
            .expect(rt, "memory");
        let done = lines.line_done(out).is_ok();
        if !notes(text, done, out) {
            return;
        }
    }
    let done = lines.end(out).is_ok();
    notes(text, done, out);
}

fn go_out(rt: &(impl Abort + AllocGlobal), row: &Row) -> bool {
    let mut out = sink(rt, 64, row.fails);
    let mut text = Vec::new(rt.alloc());
    put_lines(rt, row, &mut out, &mut text);
    text.as_slice() == row.told.as_bytes()
}

#[test]
fn blocks(rt: HostRuntime) {
    for row in BLOCKS {
        row_passes(&rt, row.name, go_out(&rt, row));
    }
}

const BLOCKS: &[Row] = rows! {
    Row { name, lines, fails, told };
    "fewer bytes are kept, just as many are written", "abc d ef", 0, "|abcd|abcd|abcdef|";
    "a block is never cut", "abcdef ghi j", 0, "abcdef|abcdef|abcdefghij|abcdefghij|";
    "the first block cannot be written", "abc d ef", 1, "|!|";
    "the rest at the end cannot be written", "abcd ef", 2, "abcd|abcd|!|";
};
