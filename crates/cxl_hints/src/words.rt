//! Why words are no command.

use crate::{command_word, say, say_more};
use cxl_io::{NumFault, read_number};
use cxl_script::{BadLine, LineFault, Why, read_command};
use std::alloc::Global;
use std::io::{self, Eprint};

/// Names the word that cannot be read, or the form of the command that is asked.
pub(crate) fn bad_words<R: Eprint>(rt: &R, alloc: Global, words: &[String]) -> io::Result<()> {
    if words.is_empty() {
        return say(
            rt,
            "",
            "no command is named, or a word is no UTF-8; see cxlplan --help",
        );
    }
    match (command_word(words, 0), words.len()) {
        ("route", 3) => bad_number(rt, command_word(words, 2)),
        ("plan", 4) => no_create(rt, alloc, command_word(words, 3)),
        ("help" | "-h" | "--help", 2) => no_command(rt, command_word(words, 1)),
        (verb, _) => no_command(rt, verb),
    }
}

/// The form of a command, or of the one that a word which is none stands for.
fn no_command<R: Eprint>(rt: &R, verb: &str) -> io::Result<()> {
    match (form_of(verb), meant_by(verb)) {
        (Some(form), _) => say_more(rt, "the form is cxlplan ", form, "; see cxlplan --help"),
        (None, Some(form)) => say_more(rt, verb, " is no command; the form is cxlplan ", form),
        (None, None) => say(rt, verb, " is no command; see cxlplan --help"),
    }
}

/// A command with the words that it takes.
fn form_of(verb: &str) -> Option<&'static str> {
    match verb {
        "route" => Some("route CEDT HPA"),
        "list" => Some("list CEDT"),
        "normal" => Some("normal CEDT"),
        "check" => Some("check CEDT TOPO IMAGE"),
        "plan" => Some("plan CEDT TOPO LINE, with LINE as one word in quotes"),
        "run" => Some("run CEDT TOPO or cxlplan run CEDT TOPO IMAGE"),
        "gen" => Some("gen N, with N from 1 to 32"),
        "--help" => Some("--help, with no other word"),
        "--version" => Some("--version, with no other word"),
        _ => None,
    }
}

/// What other programs call so.
fn meant_by(verb: &str) -> Option<&'static str> {
    match verb {
        "-h" | "-?" | "help" => Some("--help"),
        "-v" | "-V" | "version" => Some("--version"),
        _ => None,
    }
}

/// Why a word is no number.
fn bad_number<R: Eprint>(rt: &R, word: &str) -> io::Result<()> {
    match read_number(word.as_bytes()) {
        Err(NumFault::BadDigit(at)) => eprintln!(rt;
            "cxlplan: {word} has no digit at byte {at}; write decimal digits, or hexadecimal ones after 0x"
        ),
        Err(NumFault::TooLarge) => say(rt, word, " is no address of 64 bits"),
        _ => say(
            rt,
            word,
            " is no number; write decimal digits, or hexadecimal ones after 0x",
        ),
    }
}

/// Why a line asks for no region.
fn no_create<R: Eprint>(rt: &R, alloc: Global, line: &str) -> io::Result<()> {
    let why = match read_command(alloc, line.as_bytes()) {
        Err(LineFault::Bad(bad)) => return bad_line(rt, line, bad),
        Err(LineFault::Memory) => "memory ran out",
        Ok(Some(_)) => "plan wants a line that begins with create, and no other command",
        Ok(None) => "the line is empty or a comment; write create NAME KIND SIZE EP..",
    };
    say(rt, "", why)
}

/// The place and the cause of a line's first fault, with the word that begins there.
fn bad_line<R: Eprint>(rt: &R, line: &str, bad: BadLine) -> io::Result<()> {
    let at = bad.at;
    let word = word_at(line, at as usize);
    let why = advice(bad.why);
    if word.is_empty() || matches!(bad.why, Why::Long) {
        eprintln!(rt; "cxlplan: in LINE at byte {at}: {why}; see cxlplan --help")
    } else {
        eprintln!(rt; "cxlplan: in LINE at byte {at}, {word:?}: {why}; see cxlplan --help")
    }
}

/// The word that begins at a place of a line, and nothing where none does.
fn word_at(line: &str, at: usize) -> &str {
    let Some(rest) = line.get(at..) else {
        return "";
    };
    match rest.split([' ', '\t']).next() {
        Some(word) => word,
        None => "",
    }
}

/// What to write in the place of a word.
fn advice(why: Why) -> &'static str {
    match why {
        Why::Verb => "no command of a script; plan wants create NAME KIND SIZE EP..",
        Why::Missing =>
            "a word is missing: create NAME KIND SIZE EP.. or create NAME KIND SIZE ways=N",
        Why::Extra => "a word too many",
        Why::Name => "a name has 1 to 15 letters, digits and _",
        Why::Kind => "the kind is ram or pmem",
        Why::Number => "no number; sizes are bytes, as 1073741824 or 0x40000000 for 1 GiB",
        Why::Range =>
            "a number out of its range; a granularity is 256 to 16384, a power of two, and ways are 1 to 16",
        Why::Hex => "bytes are hexadecimal digits, two each",
        Why::Long => "a line has 4096 bytes at the most",
    }
}
