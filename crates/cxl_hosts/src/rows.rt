//! Rows are plain texts and numbers.

use cxl_io::read_number;
use std::alloc::Global;
use std::fmt::Debug;
use std::process::Abort;

/// The numbers that a text writes, with spaces between them.
pub(crate) fn numbers(rt: &impl Abort, alloc: Global, text: &str) -> Vec<u64> {
    let mut numbers = Vec::new(alloc);
    for word in text.split(' ') {
        if !word.is_empty() {
            let number = read_number(word.as_bytes()).expect(rt, "a number");
            numbers.push(number).expect(rt, "memory");
        }
    }
    numbers
}

/// Whether these are the numbers that a text writes.
pub(crate) fn are_written(rt: &impl Abort, alloc: Global, own: &[u64], text: &str) -> bool {
    own == numbers(rt, alloc, text).as_slice()
}

/// The number at a place, which has to be there.
pub(crate) fn at(rt: &impl Abort, numbers: &[u64], i: usize) -> u64 {
    *numbers.get(i).expect(rt, "a number")
}

/// The same as a word, which it has to be.
pub(crate) fn as_word(rt: &impl Abort, numbers: &[u64], i: usize) -> u32 {
    u32::try_from(at(rt, numbers, i)).expect(rt, "a word")
}

/// The same as a byte.
pub(crate) fn as_byte(rt: &impl Abort, numbers: &[u64], i: usize) -> u8 {
    u8::try_from(at(rt, numbers, i)).expect(rt, "a byte")
}

/// Whether this is the value's debug text.
pub(crate) fn shows<T: Debug>(alloc: Global, value: &T, text: &str) -> bool {
    match format!(in alloc; "{value:?}") {
        Ok(own) => own.as_str() == text,
        Err(_) => false,
    }
}

/// Checks that the row of this name is right.
pub(crate) fn row_passes(rt: &impl Abort, name: &str, right: bool) {
    assert!(rt; right, "row {name}");
}
