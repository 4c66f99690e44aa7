//! A region that bytes are carried from or to, with its window.

use cxl_model::Found;
use cxl_window::Window;

/// A region with its window.
#[derive(Clone, Copy)]
pub struct Side<'a> {
    pub found: &'a Found,
    pub window: &'a Window,
}
