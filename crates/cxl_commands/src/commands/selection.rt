//! Which window of a table an address goes by, and to which bridge.

ghost use Rattle.std.specs.Prelude.{MatchOption};
ghost use Rattle.cxl_commands.specs.commands.Route.{IsNowhere, IsSelection};

use cxl_window::{Window, positions, slot_of};

/// The window that holds a host address, and the bridge that the address goes to.
#[derive(Clone, Copy, PartialEq, Eq)]
pub(crate) struct Selection {
    /// The window's place among the windows of the table.
    pub(crate) window: u32,
    /// The address's place among the targets of the window.
    pub(crate) position: u32,
    /// The UID of the bridge.
    pub(crate) bridge: u32,
}

/// The selection by the first window that can be used and holds the address.
pub(crate) fn select(windows: &[Window], h: u64) -> Option<Selection>
    ensures { MatchOption result (IsNowhere windows.now h) (λ selection. IsSelection windows.now h selection) }
{
    // Each position has a target.
    positions();
    for window in windows {
        if let Some(position) = slot_of(window, h) {
            return Some(Selection {
                window: window.index(),
                position,
                bridge: window.targets()[position as usize],
            });
        }
    }
    None
}
