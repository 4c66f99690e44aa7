//! The files of the system.

ghost use Rattle.std.specs.Prelude.{◌≡◌, ◌≢◌, ◌+◌, ◌<◌, ◌≤◌, true, None, Err, IfOk, IfSome, length, take};
ghost use Rattle.cxl_enc.specs.Faults.{Rose};
ghost use Rattle.cxl_enc.specs.Counters.{next_count};
ghost use Rattle.cxl_enc.specs.Limits.{file_limit};
ghost use Rattle.cxl_io.specs.Fetch.{IsFile, IsTooLarge};
ghost use Rattle.cxl_io.specs.Told.{Untold, told_by};

use crate::fetch::{Fetch, FetchFault};
use cxl_enc::FILE_LIMIT;
use std::alloc::Global;
use std::fs::{File, OpenFile};
use std::io;
use std::io::{ErrorKind, Read};
use std::marker::Model;
use std::rt::Files;

/// The files of the system. It tells nothing of what they hold or of the names that were asked for;
/// contracts see it as how often it failed.
#[derive(Drop)]
pub struct StdFetch<R> {
    rt: R,
    faults: u64,
}

impl<R> Model for StdFetch<R> {
    ghost use Rattle.std.specs.Prelude.{ℕ};

    ghost Value = { ℕ };

    ghost view = { λ f. f.faults };
}

impl<R: Files> StdFetch<R> {
    /// Opens files by this runtime. Takes no memory.
    pub fn new(rt: R) -> StdFetch<R>
        ensures { result ≡ 0 }
    {
        StdFetch { rt, faults: 0 }
    }
}

impl<R: Files> Fetch for StdFetch<R> {
    ghost state = { λ faults. record { told = λ _. Untold; asked = None; faults = faults; counts_failures_alone = true } };

    fn fetch(&mut self, alloc: Global, name: &str) -> Result<Vec<u8>, FetchFault>
        ensures ok { IfOk result (λ file. IsFile Untold file.items) }
        ensures failed { result ≡ Err FetchFault.Failed → Rose self.old self.new }
        ensures counts { self.old ≤ self.new }

        // The count rises with a failure and with nothing else.
        ensures raised { result ≡ Err FetchFault.Failed → self.new ≡ next_count self.old }
        ensures kept { (result ≢ Err FetchFault.Failed) → self.new ≡ self.old }
    {
        let answer = read_file(alloc, &self.rt, name);
        if let Err(FetchFault::Failed) = &answer {
            self.faults = self.faults.saturating_add(1);
        }
        answer
    }
}

/// All that a reader has left, as a file, refused above 1,048,576 bytes. Takes memory; where it fails at any byte,
/// nothing is given.
pub fn whole_file<F: Read + Drop>(alloc: Global, file: F) -> Result<Vec<u8>, FetchFault>
    ensures ok { IfOk result (λ bytes. IsFile (told_by (F.remaining file)) bytes.items) }
    ensures too_large { result ≡ Err FetchFault.TooLarge → IsTooLarge (told_by (F.remaining file)) }
{
    file_within(alloc, file, 0)
}

/// The file of that name, as the system has it.
fn read_file<R: Files>(alloc: Global, rt: &R, name: &str) -> Result<Vec<u8>, FetchFault>
    ensures { IfOk result (λ file. IsFile Untold file.items) }
{
    match File::open(rt, name) {
        Ok(file) => {
            let room = room_for(&file);
            file_within(alloc, file, room)
        }
        Err(e) => Err(fault_of(&e)),
    }
}

/// As much room as a file wants by its length, and a byte more, by which its end is seen. None where that is not told.
fn room_for<F: OpenFile>(file: &F) -> usize {
    match file.metadata() {
        Ok(metadata) => metadata.len().min(FILE_LIMIT as u64 + 1) as usize + 1,
        Err(_) => 0,
    }
}

/// What a reader has left, as a file, with room for so many bytes before the first is read.
fn file_within<F: Read + Drop>(alloc: Global, file: F, room: usize) -> Result<Vec<u8>, FetchFault>
    ensures ok { IfOk result (λ bytes. IsFile (told_by (F.remaining file)) bytes.items) }
    ensures too_large { result ≡ Err FetchFault.TooLarge → IsTooLarge (told_by (F.remaining file)) }
{
    match read_to_limit(alloc, file, room) {
        Ok(bytes) => as_file(bytes),
        Err(e) => Err(fault_of(&e)),
    }
}

/// These bytes, unless they are more than a file may have.
fn as_file(bytes: Vec<u8>) -> Result<Vec<u8>, FetchFault>
    ensures ok { IfOk result (λ file. (file.items ≡ bytes.items) × (length bytes.items ≤ file_limit)) }
    ensures too_large { result ≡ Err FetchFault.TooLarge → file_limit < length bytes.items }
{
    if bytes.len() > FILE_LIMIT {
        return Err(FetchFault::TooLarge);
    }
    Ok(bytes)
}

/// The bytes that a reader has left, up to one more than a file may have.
fn read_to_limit<F: Read + Drop>(alloc: Global, file: F, room: usize) -> io::Result<Vec<u8>>
    ensures { IfOk result (λ bytes. IfSome (F.remaining file) (λ left. bytes.items ≡ take (file_limit + 1) left)) }
{
    let mut bytes = Vec::with_capacity(alloc, room)?;
    file.take(FILE_LIMIT as u64 + 1).read_to_end(&mut bytes)?;
    Ok(bytes)
}

/// Want of memory is none of the file's.
fn fault_of(e: &io::Error) -> FetchFault
    ensures { result ≢ FetchFault.TooLarge }
{
    if e.kind() == ErrorKind::OutOfMemory {
        FetchFault::Memory
    } else {
        FetchFault::Failed
    }
}
