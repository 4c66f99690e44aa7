//! What lies outside and fails: files that cannot be read, and sinks. And which files are asked for.

use crate::rows::{ROOM, bytes, code_of_run, files_of, row_passes, sink_of, table_file, words_of};
use crate::tables::{HEADER_OF_OTHERS, HEADER_OF_WHOLE_BLOCK, TWO_BRIDGES};
use cxl_shell::Status;
use std::alloc::Global;
use std::process::Abort;

/// A file that cannot be read.
#[test]
fn unread_file(rt: HostRuntime) {
    let alloc = rt.alloc();
    let words = words_of(&rt, alloc, "route table 0x100000000");
    let table = bytes(&rt, alloc, TWO_BRIDGES);
    let mut files = files_of(&rt, alloc, table, "", Vec::new(alloc), 1);
    let mut sink = sink_of(&rt, alloc, ROOM, 0);
    let code = code_of_run(alloc, &words, &mut files, &mut sink);
    assert!(rt; code == Status::FetchFault.code());
    assert!(rt; sink.bytes() == b"error: cannot read table\n".as_slice());
    drop(files);
    drop(sink);
}

/// A table with so many equal records behind its header.
fn repeated(rt: &impl Abort, alloc: Global, header: &str, record: &str, count: u32) -> Vec<u8> {
    let mut table = bytes(rt, alloc, header);
    let record = bytes(rt, alloc, record);
    for _ in 0..count {
        table.extend_from_slice(&record).expect(rt, "memory");
    }
    table
}

/// A name, a line, the room of a sink, the number of the write that fails or 0, and what is written over the two-bridge
/// table.
struct SinkRow {
    name: &'static str,
    line: &'static str,
    room: u32,
    fail: u64,
    text: &'static str,
}

fn fails_behind(rt: &impl Abort, alloc: Global, row: &SinkRow) -> bool {
    let words = words_of(rt, alloc, row.line);
    let mut files = table_file(rt, alloc, bytes(rt, alloc, TWO_BRIDGES));
    let mut sink = sink_of(rt, alloc, row.room, row.fail);
    let code = code_of_run(alloc, &words, &mut files, &mut sink);
    let told = sink.bytes() == row.text.as_bytes();
    drop(files);
    drop(sink);
    code == 6 && told
}

#[test]
fn sinks(rt: HostRuntime) {
    for row in SINKS.iter() {
        row_passes(&rt, row.name, fails_behind(&rt, rt.alloc(), row));
    }
}

const SINKS: &[SinkRow] = &[
    SinkRow {
        name: "route, a sink with room for five bytes",
        line: "route table 0x100000000",
        room: 5,
        fail: 0,
        text: "windo",
    },
    SinkRow {
        name: "route, the first write fails",
        line: "route table 0x100000000",
        room: ROOM,
        fail: 1,
        text: "",
    },
    SinkRow {
        name: "usage, the first write fails",
        line: "route",
        room: ROOM,
        fail: 1,
        text: "",
    },
    SinkRow {
        name: "list, a sink with room for one line and five bytes",
        line: "list table",
        room: 53,
        fail: 0,
        text: "chbs 0 version 1 base 0x80000000 length 0x10000\nchbs ",
    },
    SinkRow {
        name: "list, the first write fails",
        line: "list table",
        room: ROOM,
        fail: 1,
        text: "",
    },
];

/// Whether a list of 5,000 lines of 17 bytes, whose write of this number fails, ends so behind so many bytes.
fn writes_so_many(rt: &impl Abort, alloc: Global, fail: u64, code: u8, count: usize) -> bool {
    let words = words_of(rt, alloc, "list table");
    let table = repeated(rt, alloc, HEADER_OF_OTHERS, "04000400", 5_000);
    let mut files = table_file(rt, alloc, table);
    let mut sink = sink_of(rt, alloc, ROOM, fail);
    let ended = code_of_run(alloc, &words, &mut files, &mut sink);
    let written = sink.bytes().len();
    drop(files);
    drop(sink);
    ended == code && written == count
}

/// The list goes out in two blocks. Where the second write fails, the first 3,856 lines are written, which are the
/// first with 65,536 bytes or more.
#[test]
fn blocks_of_lines(rt: HostRuntime) {
    assert!(rt; writes_so_many(&rt, rt.alloc(), 0, 0, 17 * 5_000));
    assert!(rt; writes_so_many(&rt, rt.alloc(), 1, 6, 0));
    assert!(rt; writes_so_many(&rt, rt.alloc(), 2, 6, 17 * 3_856));
}

/// How many bytes are written of a list of one line of 18 bytes and 4,854 of 17, whose second write fails.
fn written_of_whole_block(rt: &impl Abort, alloc: Global) -> usize {
    let words = words_of(rt, alloc, "list table");
    let table = repeated(rt, alloc, HEADER_OF_WHOLE_BLOCK, "04000400", 4_854);
    let mut files = table_file(rt, alloc, table);
    let mut sink = sink_of(rt, alloc, ROOM, 2);
    code_of_run(alloc, &words, &mut files, &mut sink);
    let written = sink.bytes().len();
    drop(files);
    drop(sink);
    written
}

/// A block that has 65,536 bytes goes out as it is.
#[test]
fn a_block_of_whole_lines(rt: HostRuntime) {
    assert!(rt; written_of_whole_block(&rt, rt.alloc()) == 65_536);
}

/// Whether the file of this name is asked for, and no other.
fn asks_for(rt: &impl Abort, alloc: Global, line: &str, name: &str) -> bool {
    let words = words_of(rt, alloc, line);
    let mut files = table_file(rt, alloc, bytes(rt, alloc, TWO_BRIDGES));
    let mut sink = sink_of(rt, alloc, ROOM, 0);
    code_of_run(alloc, &words, &mut files, &mut sink);
    let only = is_only(files.asked(), name);
    drop(files);
    drop(sink);
    only
}

/// Whether this name is asked for, and no other.
fn is_only(asked: &[String], name: &str) -> bool {
    asked.len() == 1 && asked[0].as_str() == name
}

/// The one file of the words is asked for, once.
#[test]
fn names_of_files(rt: HostRuntime) {
    assert!(rt; asks_for(&rt, rt.alloc(), "list table", "table"));
    assert!(rt; asks_for(&rt, rt.alloc(), "normal missing", "missing"));
}
