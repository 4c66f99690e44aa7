//! What helps beside a fault: one line on standard error. No contract speaks of it, and standard output has none of it.
#![tactic(auto)]

mod files;
mod topology;
mod words;

use cxl_inputs::{Beside, Status};
use std::alloc::Global;
use std::io::{self, Eprint};
use std::rt::Files;

/// Says in one line what is wrong and what to do, by the words of the command and the status with which it ended. A command
/// that was carried out, one without an answer, and one whose reader is gone have no such line. The error is that of standard error. (This project's
/// rule.) Takes memory.
fn hint<R: Eprint + Files>(
    rt: &R,
    alloc: Global,
    words: &[String],
    status: Status,
) -> io::Result<()> {
    match status {
        Status::Usage => words::bad_words(rt, alloc, words),
        Status::FetchFault => files::bad_file(rt, words),
        Status::BadTable(fault) => files::bad_table(rt, alloc, words, fault),
        Status::BadTopo(fault) => files::bad_topology(rt, alloc, words, fault),
        Status::BadImage(fault) => files::bad_image(rt, words, fault),
        // whoever read a pipe has enough
        Status::WriteFault if is_pipe(rt, alloc) => Ok(()),
        _ => match cause(status) {
            Some(text) => say(rt, "", text),
            None => Ok(()),
        },
    }
}

/// Hints on standard error.
#[derive(Drop)]
pub struct Hints<'a, R> {
    rt: &'a R,
    alloc: Global,
}

impl<'a, R: Eprint + Files> Hints<'a, R> {
    /// Hints that this runtime writes. Takes no memory.
    pub fn new(rt: &'a R, alloc: Global) -> Hints<'a, R> {
        Hints { rt, alloc }
    }
}

impl<R: Eprint + Files> Beside for Hints<'_, R> {
    fn tell(&mut self, words: &[String], status: Status) {
        // A hint that cannot be written changes nothing.
        let _ = hint(self.rt, self.alloc, words, status);
    }
}

/// A word of the command line, and nothing where there is none.
fn command_word(words: &[String], place: usize) -> &str {
    match words.get(place) {
        Some(word) => word.as_str(),
        None => "",
    }
}

/// One line: what it is about, as a file's name or a word, and what is to be said of it.
fn say<R: Eprint>(rt: &R, about: &str, text: &str) -> io::Result<()> {
    say_more(rt, about, text, "")
}

/// The same with more to be said.
fn say_more<R: Eprint>(rt: &R, about: &str, text: &str, more: &str) -> io::Result<()> {
    eprintln!(rt; "cxlplan: {about}{text}{more}")
}

/// Whether standard output is a pipe, whose writes fail only where nobody reads it any more.
fn is_pipe<R: Files>(rt: &R, alloc: Global) -> bool {
    match rt.read_link(alloc, "/proc/self/fd/1") {
        Ok(name) => name.as_str().starts_with("pipe:"),
        Err(_) => false,
    }
}

/// What ended a command, where its status alone says that.
fn cause(status: Status) -> Option<&'static str> {
    match status {
        Status::TooLarge => Some("a table, a topology or an image has 1048576 bytes at the most"),
        Status::ReadFault => Some("reading the script failed; the lines before are answered"),
        Status::TooMuch => Some(
            "a script has 16777216 bytes at the most; the lines that ended within them are answered",
        ),
        Status::WriteFault => Some("writing failed, so the text may be cut"),
        Status::Memory => Some("memory ran out"),
        _ => None,
    }
}
