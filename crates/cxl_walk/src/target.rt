//! The target of a window to which an address goes.

ghost use Rattle.std.specs.Prelude.{◌≡◌, ℕ, Some, None, slice_get, IfSome, IfNone};
ghost use Rattle.cxl_window.specs.Fields.{WindowFields};
ghost use Rattle.cxl_window.specs.Position.{position_at};
ghost use Rattle.cxl_walk.specs.inner.Calls.{IsTarget, IsTargetIn};

use cxl_window::{Window, positions, slot_of};

/// The target of a window to which an address goes.
#[derive(Clone, Copy)]
pub(crate) struct Target {
    /// The window's index.
    pub(crate) window: u32,
    pub(crate) position: u32,
    /// The UID of the target bridge.
    pub(crate) uid: u32,
}

/// The target of the usable window that holds the address.
pub(crate) fn target_of(windows: &[Window], h: u64) -> Option<Target>
    requires { (i : ℕ) (w : WindowFields) → slice_get windows.now i ≡ Some w → w.index ≡ i }
    ensures some { IfSome result (λ target. (w : WindowFields) × IsTarget windows.now h target w) }
    ensures none { IfNone result ((i : ℕ) (w : WindowFields) → slice_get windows.now i ≡ Some w → position_at w h ≡ None) }
{
    for window in windows {
        if let Some(target) = target_in(window, h) {
            return Some(target);
        }
    }
    None
}

fn target_in(window: &Window, h: u64) -> Option<Target>
    ensures some { IfSome result (λ target. IsTargetIn window.now h target) }
    ensures none { IfNone result (position_at window.now h ≡ None) }
{
    positions();
    let position = slot_of(window, h)?;
    Some(Target {
        window: window.index(),
        position,
        uid: window.targets()[position as usize],
    })
}
