//! Image, topology and windows of a host, as they are read together.

use cxl_image::Image;
use cxl_topo::Topo;
use cxl_window::Window;

/// A register image over a topology, with the host's windows, as they are read together. Contracts see it by
/// `as_system`. (This project's rule.)
#[derive(Clone, Copy)]
pub struct Host<'a> {
    pub image: &'a Image,
    pub topo: &'a Topo,
    /// By index.
    pub windows: &'a [Window],
}
