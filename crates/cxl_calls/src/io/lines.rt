//! Lines of a source.

use crate::common::{list, repeated, row_passes, rows};
use cxl_io::{LineReader, MemSource, Source, StdSource, Taken};
use std::process::Abort;

/// An answer of the reader: its line, `*` for one of 4,096 bytes, `-` for one that is too long, and `.`, `!` and `#` for a
/// source that has ended, has failed or has too many bytes.
fn told(reader: &LineReader, answer: Taken) -> &[u8] {
    match answer {
        Taken::Line if reader.line().len() == 4_096 => b"*",
        Taken::Line => reader.line(),
        Taken::Long => b"-",
        Taken::End => b".",
        Taken::Fault => b"!",
        Taken::TooMuch => b"#",
    }
}

/// Notes the next answer, with `|` behind it.
fn tells<S: Source>(reader: &mut LineReader, source: &mut S, text: &mut Vec<u8>) -> bool {
    let answer = reader.next(source);
    text.extend_from_slice(told(reader, answer)).is_ok() && text.push(b'|').is_ok()
}

/// Notes the next six answers.
fn tells_six<S: Source>(reader: &mut LineReader, source: &mut S, text: &mut Vec<u8>) -> bool {
    let mut right = true;
    for _ in 0..6 {
        right = tells(reader, source, text) && right;
    }
    right
}

/// Whether the first six answers begin so.
pub(super) fn gives<S: Source>(
    rt: &(impl Abort + AllocGlobal),
    source: &mut S,
    want: &str,
) -> bool {
    let mut reader = LineReader::new(rt.alloc()).expect(rt, "memory");
    let mut text = Vec::new(rt.alloc());
    tells_six(&mut reader, source, &mut text) && text.starts_with(want.as_bytes())
}

/// A text, so many letters and a text, the read that fails or 0, and the answers up to the end, which comes twice.
struct Row {
    name: &'static str,
    front: &'static str,
    letters: usize,
    rest: &'static str,
    fails: u64,
    answers: &'static str,
}

const SOURCES: &[Row] = rows! {
    Row { name, front, letters, rest, fails, answers };
    "no byte", "", 0, "", 0, ".|.|";
    "an empty line", "\n", 0, "", 0, "|.|.|";
    "a line that ends with the source", "show a", 0, "", 0, "show a|.|.|";
    "lines that end with 0x0a and with 0x0d 0x0a", "show a\n", 0, "down 0x0\r\n", 0, "show a|down 0x0|.|.|";
    "0x0d before an ending and before the end", "a\r\r\n\r\n\nb\r", 0, "", 0, "a\r|||b\r|.|.|";
    "an empty line behind another", "a\n\n", 0, "", 0, "a||.|.|";
    // A read that fails is final.
    "the first read fails", "a\nb", 0, "", 1, "!|!|";
    "the second read fails", "a\nb", 0, "", 2, "a|!|!|";
    // A line of 4,097 bytes is passed over, one of 4,096 with its ending of two bytes is given.
    "a line of 4,097 bytes", "", 4_097, "\nend", 0, "-|end|.|.|";
    "a line of 20,000 bytes", "", 20_000, "\nend", 0, "-|end|.|.|";
    "a line of 4,096 bytes", "", 4_096, "\r\n", 0, "*|.|.|";
    // A script of 16,777,216 bytes is read to its end; one byte more is too much.
    "a script of 16,777,216 bytes", "\n", 16_777_215, "", 0, "|-|.|.|";
    "a script of a byte more", "\n", 16_777_216, "", 0, "|#|#|";
};

/// Whether a source in memory gives the answers of its row.
fn is_read(rt: &(impl Abort + AllocGlobal), row: &Row) -> bool {
    let bytes = repeated(rt, row.front, b'a', row.letters, row.rest);
    let fails = list(rt, &[row.fails]);
    gives(rt, &mut MemSource::new(bytes, fails), row.answers)
}

#[test]
fn lines(rt: HostRuntime) {
    for row in SOURCES {
        row_passes(&rt, row.name, is_read(&rt, row));
    }
}

/// A reader of the system's interface, here over bytes in memory.
#[test]
fn source_of_the_system(rt: HostRuntime) {
    let bytes: &[u8] = b"show a\n";
    assert!(rt; gives(&rt, &mut StdSource::new(bytes), "show a|.|.|"));
}
