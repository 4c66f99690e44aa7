//! The caller's files.

ghost use Rattle.std.specs.Prelude.{◌≡◌, ◌≢◌, Err, IfOk};
ghost use Rattle.cxl_io.specs.Fetch.{IsFile, IsTooLarge};
ghost use Rattle.cxl_io.specs.Told.{Bytes};
ghost use Rattle.cxl_library.specs.Slices.{slices};

use cxl_enc::FILE_LIMIT;
use cxl_io::{Fetch, FetchFault};
use std::alloc::Global;
use std::marker::Model;

/// The name under which a call's words name the table.
pub(crate) const CEDT: &str = "cedt";
/// The name of the topology.
pub(crate) const TOPOLOGY: &str = "topology";
/// The name of the image.
pub(crate) const IMAGE: &str = "image";

/// The caller's files: a table and a topology by their names, and an image by any other. Their bytes are told, and none of them fails.
#[derive(Drop)]
pub struct Slices<'a> {
    cedt: &'a [u8],
    topo: &'a [u8],
    image: &'a [u8],
}

impl<'a> Model for Slices<'a> {
    ghost use Rattle.cxl_library.specs.Slices.{Slices};

    ghost Value = { Slices };

    ghost view = { λ s. record { cedt = s.cedt.now; topo = s.topo.now; image = s.image.now } };
}

impl<'a> Slices<'a> {
    /// These files. Takes no memory.
    pub fn new(cedt: &'a [u8], topo: &'a [u8], image: &'a [u8]) -> Slices<'a>
        ensures { result ≡ slices cedt.now topo.now image.now }
    {
        Slices { cedt, topo, image }
    }
}

impl Fetch for Slices<'_> {
    ghost use Rattle.cxl_library.specs.Slices.{files_of};

    ghost state = { files_of };

    fn fetch(&mut self, alloc: Global, name: &str) -> Result<Vec<u8>, FetchFault> {
        match name {
            CEDT => copied(alloc, self.cedt),
            TOPOLOGY => copied(alloc, self.topo),
            _ => copied(alloc, self.image),
        }
    }
}

/// A copy of a file, which has at most 1,048,576 bytes.
fn copied(alloc: Global, file: &[u8]) -> Result<Vec<u8>, FetchFault>
    ensures ok { IfOk result (λ copy. IsFile (Bytes file.now) copy.items) }
    ensures too_large { result ≡ Err FetchFault.TooLarge → IsTooLarge (Bytes file.now) }
    ensures there { result ≢ Err FetchFault.Failed }
{
    if file.len() > FILE_LIMIT {
        return Err(FetchFault::TooLarge);
    }
    Ok(Vec::from_slice(alloc, file)?)
}
