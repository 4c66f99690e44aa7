//! The caller's script.

ghost use Rattle.std.specs.Prelude.{◌≡◌};

use cxl_enc::Failed;
use cxl_io::Source;
use std::marker::Model;

/// A source of the caller's bytes, which tells those that are left and never fails.
#[derive(Drop)]
pub struct SliceSource<'a> {
    left: &'a [u8],
}

impl<'a> Model for SliceSource<'a> {
    ghost use Rattle.std.specs.Prelude.{List, ℕ};

    ghost Value = { List ℕ };

    ghost view = { λ s. s.left.now };
}

impl<'a> SliceSource<'a> {
    /// A source of these bytes.
    pub fn new(bytes: &'a [u8]) -> SliceSource<'a>
        ensures { result ≡ bytes.now }
    {
        SliceSource { left: bytes }
    }
}

impl Source for SliceSource<'_> {
    ghost use Rattle.cxl_library.specs.Slices.{source_of};

    ghost state = { source_of };

    fn read(&mut self, into: &mut [u8]) -> Result<usize, Failed> {
        let n = into.len().min(self.left.len());
        let (front, left) = self.left.split_at(n);
        into[..n].copy_from_slice(front);
        self.left = left;
        Ok(n)
    }
}
