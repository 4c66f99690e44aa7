//! The decoder blocks of all nodes of a topology, and the image file that holds them.
#![tactic(auto)]

mod fault;
mod image;
mod judging;
mod laws;
mod nodes;
mod putting;
mod reading;
mod words;
mod writing;

pub use fault::ImageFault;
pub use image::Image;
pub use laws::{image_laws, one_image_reading};
pub use reading::read_image;
pub use writing::write_image;
