//! Readers and writers of the system's interface that fail, or do a part of what they are asked.

use super::lines::gives;
use crate::common::{repeated, shows};
use cxl_io::{FetchFault, Sink, StdSink, StdSource, whole_file, write_all};
use std::alloc::Global;
use std::io;
use std::io::{ErrorKind, Read, Write};

/// Gives its bytes, some a read, behind reads that are interrupted; then it ends, or fails.
#[derive(Drop)]
struct Feed<'a> {
    left: &'a [u8],
    /// The most bytes of one read.
    part: usize,
    /// How many reads are interrupted.
    interrupted: u32,
    fails: bool,
}

impl Read for Feed<'_> {
    fn read(&mut self, buf: &mut [u8]) -> io::Result<usize> {
        if self.interrupted > 0 {
            self.interrupted -= 1;
            return Err(io::Error::from(ErrorKind::Interrupted));
        }
        if self.left.is_empty() && self.fails {
            return Err(io::Error::from(ErrorKind::Other));
        }
        let len = buf.len().min(self.left.len()).min(self.part);
        buf[..len].copy_from_slice(&self.left[..len]);
        self.left = &self.left[len..];
        Ok(len)
    }
}

/// What is read by five bytes: a line that ended, and the front of another.
fn two_lines(fails: bool) -> Feed<'static> {
    Feed {
        left: b"show a\ndown",
        part: 5,
        interrupted: 2,
        fails,
    }
}

/// A read that is interrupted is made again; one that fails ends the lines, and no line of it is given.
#[test]
fn readers_that_fail(rt: HostRuntime) {
    assert!(rt;
        gives(
            &rt,
            &mut StdSource::new(two_lines(false)),
            "show a|down|.|.|"
        )
    );
    assert!(rt; gives(&rt, &mut StdSource::new(two_lines(true)), "show a|!|!|"));
}

/// Takes some bytes a write, and so many in all; then it fails, or takes none.
#[derive(Drop)]
struct Tray {
    taken: Vec<u8>,
    /// The most bytes of one write.
    part: usize,
    room: usize,
    fails: bool,
}

impl Write for Tray {
    fn write(&mut self, buf: &[u8]) -> io::Result<usize> {
        let room = self.room.saturating_sub(self.taken.len());
        if room == 0 && self.fails {
            return Err(io::Error::from(ErrorKind::Other));
        }
        let len = buf.len().min(room).min(self.part);
        self.taken.extend_from_slice(&buf[..len])?;
        Ok(len)
    }

    fn flush(&mut self) -> io::Result<()> {
        Ok(())
    }
}

/// A tray that takes three bytes a write.
fn empty_tray(alloc: Global, room: usize, fails: bool) -> Tray {
    Tray {
        taken: Vec::new(alloc),
        part: 3,
        room,
        fails,
    }
}

/// Whether a text is written, where it is to be, and these bytes are taken.
fn takes(mut tray: Tray, text: &str, whole: bool, want: &str) -> bool {
    let written = write_all(&mut StdSink::new(&mut tray), text.as_bytes()).is_ok();
    written == whole && tray.taken.as_slice() == want.as_bytes()
}

/// A part that is taken is told as that part, and the rest is written behind it.
#[test]
fn writers_that_take_a_part(rt: HostRuntime) {
    let alloc = rt.alloc();
    assert!(rt;
        matches!(
            StdSink::new(empty_tray(alloc, 64, true)).write(b"window 0"),
            Ok(3)
        )
    );
    assert!(rt; takes(empty_tray(alloc, 64, true), "window 0", true, "window 0"));
    assert!(rt; takes(empty_tray(alloc, 64, true), "windows", true, "windows"));
}

/// One that fails, and one that takes nothing: what was taken before is told, and no more is written.
#[test]
fn writers_that_fail(rt: HostRuntime) {
    let alloc = rt.alloc();
    assert!(rt; takes(empty_tray(alloc, 5, true), "window 0", false, "windo"));
    assert!(rt; takes(empty_tray(alloc, 5, false), "window 0", false, "windo"));
}

/// How many bytes there are in a file of these, which is read to its end or fails there; or why it is not given.
fn tells(alloc: Global, bytes: &[u8], fails: bool, want: &str) -> bool {
    let file = Feed {
        left: bytes,
        part: 65_536,
        interrupted: 0,
        fails,
    };
    shows(alloc, &len_of(whole_file(alloc, file)), want)
}

fn len_of(file: Result<Vec<u8>, FetchFault>) -> Result<usize, FetchFault> {
    match file {
        Ok(file) => Ok(file.len()),
        Err(fault) => Err(fault),
    }
}

/// A file may have 1,048,576 bytes and no more, and its first part is no file.
#[test]
fn files_at_the_limit(rt: HostRuntime) {
    let alloc = rt.alloc();
    let full = repeated(&rt, "", 7, 1_048_576, "");
    let over = repeated(&rt, "", 7, 1_048_577, "");
    assert!(rt; tells(alloc, &full, false, "Ok(1048576)"));
    assert!(rt; tells(alloc, &over, false, "Err(TooLarge)"));
    assert!(rt; tells(alloc, &full, true, "Err(Failed)"));
    assert!(rt; tells(alloc, b"CEDT", true, "Err(Failed)"));
}
