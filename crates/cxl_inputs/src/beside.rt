//! What a program tells beside its text.

use crate::status::Status;

/// What a program tells beside its text, as a hint on standard error.
pub trait Beside {
    /// A run of these words ended so. It has none of the objects of the run, so that what it does changes nothing of it.
    fn tell(&mut self, words: &[String], status: Status);
}

/// Tells nothing.
#[derive(Drop)]
pub struct Silent;

impl Beside for Silent {
    fn tell(&mut self, _words: &[String], _status: Status) {}
}
