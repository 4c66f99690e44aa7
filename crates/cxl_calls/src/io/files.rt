//! Files in memory and of the system.

use crate::common::{list, repeated, row_passes, rows, shows};
use cxl_io::{Fetch, FetchFault, MemFetch, StdFetch};
use std::alloc::Global;
use std::process::Abort;
use std::rt::Files;
use std::{fs, io, process};

/// How many bytes a file has, or why it is not given.
fn len_of<F: Fetch>(alloc: Global, files: &mut F, name: &str) -> Result<usize, FetchFault> {
    match files.fetch(alloc, name) {
        Ok(file) => Ok(file.len()),
        Err(fault) => Err(fault),
    }
}

/// The same as debug text.
fn tells<F: Fetch>(alloc: Global, files: &mut F, name: &str, want: &str) -> bool {
    shows(alloc, &len_of(alloc, files, name), want)
}

/// Whether a file has these bytes.
fn gives<F: Fetch>(alloc: Global, files: &mut F, name: &str, want: &str) -> bool {
    match files.fetch(alloc, name) {
        Ok(file) => file.as_slice() == want.as_bytes(),
        Err(_) => false,
    }
}

/// A file of a name, a text and so many bytes more.
struct File {
    name: &'static str,
    text: &'static str,
    more: usize,
}

fn add(rt: &(impl Abort + AllocGlobal), files: &mut Vec<(String, Vec<u8>)>, file: &File) {
    let name = String::from_str(rt.alloc(), file.name).expect(rt, "memory");
    files
        .push((name, repeated(rt, file.text, 7, file.more, "")))
        .expect(rt, "memory");
}

/// Four files: two have the same name, one has the most bytes that a file may have and one a byte more.
const FILES: &[File] = rows! {
    File { name, text, more };
    "table", "CEDT", 0;
    "full", "", 1_048_576;
    "over", "", 1_048_577;
    "table", "other", 0;
};

/// These files, of which the fourth fetch fails.
fn files(rt: &(impl Abort + AllocGlobal)) -> MemFetch {
    let mut files = Vec::new(rt.alloc());
    for file in FILES {
        add(rt, &mut files, file);
    }
    MemFetch::new(files, list(rt, &[4]))
}

/// A fetch of a file, and what it tells.
struct Row {
    name: &'static str,
    file: &'static str,
    told: &'static str,
}

/// The fetches after the first.
const FETCHES: &[Row] = rows! {
    Row { name, file, told };
    "the most bytes of a file", "full", "Ok(1048576)";
    "a byte more", "over", "Err(TooLarge)";
    "the fourth fetch", "table", "Err(Failed)";
    "a name of no file", "image", "Err(Failed)";
    "the first file of a name", "table", "Ok(4)";
};

/// Whether the name at a place among those that were asked for is this one.
fn is_asked(asked: &[String], place: usize, want: &str) -> bool {
    match asked.get(place) {
        Some(name) => name.as_str() == want,
        None => false,
    }
}

/// The first file of a name counts, a file may have 1,048,576 bytes, and the fourth fetch is one that fails. The names are noted in
/// order, whatever comes of them.
#[test]
fn files_in_memory(rt: HostRuntime) {
    let mut memory = files(&rt);
    assert!(rt; gives(rt.alloc(), &mut memory, "table", "CEDT"));
    for row in FETCHES {
        let told = tells(rt.alloc(), &mut memory, row.file, row.told);
        row_passes(&rt, row.name, told);
    }
    let asked = memory.asked();
    assert!(rt; asked.len() == 6 && is_asked(asked, 3, "table") && is_asked(asked, 4, "image"));
    drop(memory);
}

/// Writes a file of the system.
fn writes(rt: &impl Files, path: &str, bytes: &[u8]) -> bool {
    is_done(fs::write(rt, path, bytes))
}

fn is_done(answer: io::Result<()>) -> bool {
    answer.is_ok()
}

/// A file is read whole, a larger one than may be is refused, and so is a missing one.
fn goes_through<F: Fetch>(
    rt: &(impl AllocGlobal + Files),
    files: &mut F,
    path: &str,
    over: &[u8],
) -> bool {
    let alloc = rt.alloc();
    writes(rt, path, b"CEDT")
        && gives(alloc, files, path, "CEDT")
        && writes(rt, path, over)
        && tells(alloc, files, path, "Err(TooLarge)")
        && is_done(fs::remove_file(rt, path))
        && tells(alloc, files, path, "Err(Failed)")
}

/// A path for this process.
#[test]
fn files_of_the_system(rt: HostRuntime) {
    let id = process::id(rt.process());
    let path = format!(in rt.alloc(); "/tmp/cxl_io-{id}").expect(&rt, "memory");
    let over = repeated(&rt, "", 7, 1_048_577, "");
    assert!(rt; goes_through(&rt, &mut StdFetch::new(&rt), path.as_str(), &over));
}
