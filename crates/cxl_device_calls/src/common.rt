//! What the tests of several modules compare with: `row_passes` of `cxl_calls`, since its bound `Abort` may stand in tests alone,
//! so that no library can hold it for both.

use std::process::Abort;

/// A table of structs: the type with its fields, and then a row a line, whose values stand in the order of these.
macro_rules! rows {
    (@row $type:ident { $($field:ident),+ } $($value:expr),+) => { $type { $($field: $value),+ } };
    ($type:ident $fields:tt; $($($value:expr),+;)+) => { &[$(rows!(@row $type $fields $($value),+)),+] };
}

pub(crate) use rows;

/// Checks that the row of this name is right.
pub fn row_passes(rt: &impl Abort, name: &str, right: bool) {
    assert!(rt; right, "row {name}");
}
