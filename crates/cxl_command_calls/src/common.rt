//! What the tests of several modules compare with: `row_passes` of `cxl_calls`, since its bound `Abort` may stand in tests alone,
//! so that no library can hold it for both.

use std::process::Abort;

/// Checks that the row of this name is right.
pub fn row_passes(rt: &impl Abort, name: &str, right: bool) {
    assert!(rt; right, "row {name}");
}
