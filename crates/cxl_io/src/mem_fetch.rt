//! Files in memory, which can be told to fail.

ghost use Rattle.std.specs.Prelude.{◌≡◌, ◌≢◌, ◌≤◌, ◌⊎◌, Some, Ok, Err, [], ◌∷◌, ◌++◌, IfOk, IfErr, OnOk, OnErr, option_copied};
ghost use Rattle.cxl_enc.specs.Faults.{Rose};
ghost use Rattle.cxl_enc.specs.Counters.{fresh_counters};
ghost use Rattle.cxl_io.specs.Fetch.{AsksFor, IsFile, IsTooLarge};
ghost use Rattle.cxl_io.specs.MemoryFiles.{files_of, names_of, file_of, file_answer, fetch_answer, state_of, files_after};

use crate::fetch::{Fetch, FetchFault};
use cxl_enc::{FILE_LIMIT, FailingCalls};
use std::alloc::{AllocError, Global};
use std::marker::Model;

/// Files in memory, each its name and its bytes, which tell their contents and the names that they were
/// asked for. A fetch can also be told to fail at some of its calls.
#[derive(Drop)]
pub struct MemFetch {
    files: Vec<(String, Vec<u8>)>,
    asked: Vec<String>,
    counters: FailingCalls,
}

impl Model for MemFetch {
    ghost use Rattle.cxl_io.specs.MemoryFiles.{MemoryFiles, files_of, names_of};

    ghost Value = { MemoryFiles };

    ghost view = { λ f. record { files = files_of f.files.items; asked = names_of f.asked.items; counters = f.counters } };
}

impl MemFetch {
    /// These files, of which the first of a name counts, and the numbers of the fetches that fail,
    /// counted from 1. Takes no memory.
    pub fn new(files: Vec<(String, Vec<u8>)>, fails: Vec<u64>) -> MemFetch
        ensures { result ≡ record { files = files_of files.items; asked = []; counters = fresh_counters fails.items } }
    {
        MemFetch {
            asked: Vec::new(*files.allocator()),
            files,
            counters: FailingCalls::new(fails),
        }
    }

    /// The names that were asked for, in order.
    pub fn asked(&self) -> &[String]
        ensures { names_of result.now ≡ self.now.asked }
    {
        self.asked.as_slice()
    }
}

impl Fetch for MemFetch {
    ghost state = { state_of };

    fn fetch(&mut self, alloc: Global, name: &str) -> Result<Vec<u8>, FetchFault>
        ensures ok { IfOk result (λ file. IsFile ((state_of self.old).told name.now) file.items) }
        ensures too_large { result ≡ Err FetchFault.TooLarge → IsTooLarge ((state_of self.old).told name.now) }
        ensures failed { result ≡ Err FetchFault.Failed
            → Rose (state_of self.old).faults (state_of self.new).faults }
        ensures counts { (state_of self.old).faults ≤ (state_of self.new).faults }
        ensures unswallowed { (result ≢ Err FetchFault.Failed)
            → (state_of self.new).faults ≡ (state_of self.old).faults }
        ensures stays { (state_of self.new).told ≡ (state_of self.old).told }
        ensures asked { AsksFor (state_of self.old) (state_of self.new) (name.now ∷ [])
            ⊎ ((result ≡ Err FetchFault.Memory) × AsksFor (state_of self.old) (state_of self.new) []) }

        // Exactly what comes, unless memory runs out, and what is counted, unless memory ran out before.
        ensures given { IfOk result (λ file. fetch_answer self.old name.now ≡ Ok file.items) }
        ensures refused { IfErr result
            (λ fault. (fault ≡ FetchFault.Memory) ⊎ (fetch_answer self.old name.now ≡ Err fault)) }
        ensures after { (self.new ≡ files_after self.old name.now)
            ⊎ ((result ≡ Err FetchFault.Memory) × (self.new ≡ self.old)) }
    {
        note(alloc, &mut self.asked, name)?;
        let fails = self.counters.begin();
        let found = if fails {
            None
        } else {
            file_of(&self.files, name)
        };
        match found {
            None => {
                self.counters.fault();
                Err(FetchFault::Failed)
            }
            Some(file) => copy_of(alloc, file),
        }
    }
}

/// Adds a name. After want of memory the names are as before.
fn note(alloc: Global, names: &mut Vec<String>, name: &str) -> Result<(), AllocError>
    ensures ok { OnOk result (names_of names.new.items ≡ names_of names.old.items ++ name.now ∷ []) }
    ensures err { OnErr result (names.new.items ≡ names.old.items) }
{
    let name = String::from_str(alloc, name)?;
    names.push(name)?;
    Ok(())
}

fn file_of<'a>(files: &'a [(String, Vec<u8>)], name: &str) -> Option<&'a [u8]>
    ensures { option_copied result ≡ file_of (files_of files.now) name.now }
{
    for file in files {
        if file.0.as_str() == name {
            return Some(file.1.as_slice());
        }
    }
    None
}

fn copy_of(alloc: Global, file: &[u8]) -> Result<Vec<u8>, FetchFault>
    ensures given { IfOk result (λ copy. file_answer (Some file.now) ≡ Ok copy.items) }
    ensures refused { IfErr result
        (λ fault. (fault ≡ FetchFault.Memory) ⊎ (file_answer (Some file.now) ≡ Err fault)) }
{
    if file.len() > FILE_LIMIT {
        return Err(FetchFault::TooLarge);
    }
    Ok(Vec::from_slice(alloc, file)?)
}
