//! The trait by which files are fetched by name.

ghost use Rattle.std.specs.Prelude.{◌≡◌, ◌≢◌, ◌≤◌, ◌⊎◌, Err, [], ◌∷◌, IfOk};
ghost use Rattle.cxl_enc.specs.Faults.{Rose, LeavesCount, CountsExactly};
ghost use Rattle.cxl_io.specs.Fetch.{FetchState, AsksFor, IsFile, IsTooLarge};
ghost use Rattle.cxl_io.specs.declared.fetch.FetchFault.TheVariants.{Memory};

use std::alloc::{AllocError, Global};
use thiserror::Error;

/// Why a file was not given.
#[derive(Clone, Copy, Debug, PartialEq, Eq, Error)]
pub enum FetchFault {
    /// The file is not there, or reading it failed.
    #[error("cannot read the file")]
    Failed,
    /// The file has more than 1,048,576 bytes.
    #[error("the file is too large")]
    TooLarge,
    #[error("out of memory")]
    Memory,
}

impl From<AllocError> for FetchFault {
    ghost from_gives = { λ _ fault. fault ≡ Memory };

    fn from(_e: AllocError) -> FetchFault {
        FetchFault::Memory
    }
}

/// Files by name.
pub trait Fetch {
    /// What is told of each name, the names that were asked for, and how often it failed.
    ghost state: { Self → FetchState };

    /// The whole file of that name, which has at most 1,048,576 bytes. (This project's rule.) A name that
    /// is not there is a failure.
    fn fetch(&mut self, alloc: Global, name: &str) -> Result<Vec<u8>, FetchFault>
        ensures ok { IfOk result (λ file. IsFile ((state self.old).told name.now) file.items) }
        ensures too_large { result ≡ Err FetchFault.TooLarge → IsTooLarge ((state self.old).told name.now) }
        ensures failed { result ≡ Err FetchFault.Failed
            → Rose (state self.old).faults (state self.new).faults }
        ensures counts { (state self.old).faults ≤ (state self.new).faults }
        ensures alone { (state self.new).counts_failures_alone ≡ (state self.old).counts_failures_alone }
        ensures stays { (state self.new).told ≡ (state self.old).told }
        // A fault is not swallowed. A file that is too large and want of memory are none of the files'.
        ensures unswallowed { (result ≢ Err FetchFault.Failed)
            → LeavesCount (state self.old).counts_failures_alone (state self.old).faults (state self.new).faults }
        // A call that failed is counted once.
        ensures counted { result ≡ Err FetchFault.Failed
            → CountsExactly 1 (state self.old).counts_failures_alone (state self.old).faults (state self.new).faults }
        // The name is asked for, unless memory ran out before.
        ensures asked { AsksFor (state self.old) (state self.new) (name.now ∷ [])
            ⊎ ((result ≡ Err FetchFault.Memory) × AsksFor (state self.old) (state self.new) []) };
}
