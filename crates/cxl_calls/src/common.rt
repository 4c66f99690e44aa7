//! What the tests of all crates compare with and make their values by. A test states its facts as `assert!(rt; ..)` with no
//! message, which is the cheapest to prove, over functions that answer whether they hold; of a table, by `row_passes`, which
//! names the row.

use std::alloc::Global;
use std::fmt::{Debug, Display};
use std::process::Abort;

/// A table of structs: the type with its fields, and then a row a line, whose values stand in the order of these.
macro_rules! rows {
    (@row $type:ident { $($field:ident),+ } $($value:expr),+) => { $type { $($field: $value),+ } };
    ($type:ident $fields:tt; $($($value:expr),+;)+) => { &[$(rows!(@row $type $fields $($value),+)),+] };
}

pub(crate) use rows;

/// A list of these.
pub fn list<T: Copy>(rt: &(impl Abort + AllocGlobal), items: &[T]) -> Vec<T> {
    Vec::from_slice(rt.alloc(), items).expect(rt, "memory")
}

/// A text, so many of one byte, and a text.
pub fn repeated(
    rt: &(impl Abort + AllocGlobal),
    front: &str,
    byte: u8,
    count: usize,
    rest: &str,
) -> Vec<u8> {
    let mut bytes = list(rt, front.as_bytes());
    let len = bytes.len().saturating_add(count);
    bytes.resize(len, byte).expect(rt, "memory");
    bytes
        .extend_from_slice(rest.as_bytes())
        .expect(rt, "memory");
    bytes
}

/// Whether this is a value's debug text.
pub fn shows<T: Debug>(alloc: Global, value: &T, want: &str) -> bool {
    match format!(in alloc; "{value:?}") {
        Ok(text) => text.as_str() == want,
        Err(_) => false,
    }
}

/// Whether a value is printed so.
pub fn prints<T: Display>(alloc: Global, value: &T, want: &str) -> bool {
    match format!(in alloc; "{value}") {
        Ok(text) => text.as_str() == want,
        Err(_) => false,
    }
}

/// Checks that the row of this name is right.
pub fn row_passes(rt: &impl Abort, name: &str, right: bool) {
    assert!(rt; right, "row {name}");
}
