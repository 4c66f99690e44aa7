//! The files and the words of a row, and a run over objects in memory.
//!
//! Here and in the other tests a large value is let go by a call of `drop`, which is proved once: what a function lets go by itself
//! is part by part in its own proof.

use cxl_bus::SimBus;
use cxl_io::{MemFetch, MemSink, MemSource, read_number};
use cxl_media::SimMedia;
use cxl_shell::run;
use std::alloc::Global;
use std::process::Abort;

/// How much a sink takes where a row says nothing of it.
pub(crate) const ROOM: u32 = 1_048_576;

// ---- files

/// The bytes that words of hexadecimal digits write; a word such as `0x6c` is so many zero bytes.
pub(crate) fn bytes(rt: &impl Abort, alloc: Global, text: &str) -> Vec<u8> {
    let mut bytes = Vec::new(alloc);
    for word in text.split(' ') {
        put_digits(rt, alloc, &mut bytes, word);
    }
    bytes
}

fn put_digits(rt: &impl Abort, alloc: Global, bytes: &mut Vec<u8>, word: &str) {
    match hex::decode(alloc, word) {
        Ok(part) => bytes.extend_from_slice(&part).expect(rt, "memory"),
        Err(_) => {
            let zeros = read_number(word.as_bytes()).expect(rt, "digits");
            let len = bytes.len().saturating_add(zeros as usize);
            bytes.resize(len, 0).expect(rt, "memory");
        }
    }
}

/// The files of a host in memory, and the number of the fetch that fails, or 0.
pub(crate) fn files_of(
    rt: &impl Abort,
    alloc: Global,
    table: Vec<u8>,
    topology: &str,
    image: Vec<u8>,
    fail: u64,
) -> MemFetch {
    let mut files = Vec::new(alloc);
    put_file(rt, alloc, &mut files, "table", table);
    let topology = Vec::from_slice(alloc, topology.as_bytes()).expect(rt, "memory");
    put_file(rt, alloc, &mut files, "topology", topology);
    put_file(rt, alloc, &mut files, "image", image);
    MemFetch::new(files, [fail].to_vec(alloc).expect(rt, "memory"))
}

fn put_file(
    rt: &impl Abort,
    alloc: Global,
    files: &mut Vec<(String, Vec<u8>)>,
    name: &str,
    bytes: Vec<u8>,
) {
    let name = String::from_str(alloc, name).expect(rt, "memory");
    files.push((name, bytes)).expect(rt, "memory");
}

/// The table alone.
pub(crate) fn table_file(rt: &impl Abort, alloc: Global, table: Vec<u8>) -> MemFetch {
    files_of(rt, alloc, table, "", Vec::new(alloc), 0)
}

// ---- runs

/// A sink with room for so many bytes, and the number of the write that fails, or 0.
pub(crate) fn sink_of(rt: &impl Abort, alloc: Global, room: u32, fail: u64) -> MemSink {
    let fails = [fail].to_vec(alloc).expect(rt, "memory");
    MemSink::new(alloc, room, fails).expect(rt, "memory")
}

/// The words, which single spaces separate.
pub(crate) fn words_of(rt: &impl Abort, alloc: Global, line: &str) -> Vec<String> {
    let mut words = Vec::new(alloc);
    for word in line.split(' ') {
        put_word(rt, alloc, &mut words, word);
    }
    words
}

pub(crate) fn put_word(rt: &impl Abort, alloc: Global, words: &mut Vec<String>, word: &str) {
    let word = String::from_str(alloc, word).expect(rt, "memory");
    words.push(word).expect(rt, "memory");
}

/// Runs the words over an empty script and devices without power, and gives the exit status.
pub(crate) fn code_of_run(
    alloc: Global,
    words: &[String],
    files: &mut MemFetch,
    sink: &mut MemSink,
) -> u8 {
    let mut script = MemSource::new(Vec::new(alloc), Vec::new(alloc));
    let mut regs = SimBus::new(alloc);
    let mut media = SimMedia::new(alloc);
    let status = run(
        alloc,
        words,
        files,
        &mut script,
        sink,
        &mut regs,
        &mut media,
    );
    drop(script);
    drop(regs);
    drop(media);
    status.code()
}

/// Checks that the row of this name is right.
pub(crate) fn row_passes(rt: &impl Abort, name: &str, right: bool) {
    assert!(rt; right, "row {name}");
}

/// The same of a row that is one of many alike, by its number.
pub(crate) fn row_passes_at(rt: &impl Abort, name: &str, number: usize, right: bool) {
    assert!(rt; right, "row {name} {number}");
}
