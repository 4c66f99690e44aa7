//! What is wrong with a file.

use crate::topology::{Sought, Spot, key_below, line_above, line_of_node};
use crate::{command_word, say};
use cxl_cedt::CedtFault;
use cxl_image::ImageFault;
use cxl_inputs::fault_node;
use cxl_io::{Fetch, StdFetch};
use cxl_topofile::{Key, Section, TableKey, TopoFault};
use std::alloc::Global;
use std::fmt::Display;
use std::fs::{self, File};
use std::io::{self, Eprint, ErrorKind};
use std::rt::Files;
use std::str;
use toml::de::Error;

/// The first file of the command that cannot be read, and why.
pub(crate) fn bad_file<R: Eprint + Files>(rt: &R, words: &[String]) -> io::Result<()> {
    for name in words.iter().skip(1).take(count_of_files(words)) {
        if let Some(why) = why_unread(rt, name.as_str()) {
            return say(rt, name.as_str(), why);
        }
    }
    say(rt, "", "a file cannot be read")
}

/// How many files a command names, behind its own name.
fn count_of_files(words: &[String]) -> usize {
    match command_word(words, 0) {
        "check" | "run" => 3,
        "plan" => 2,
        "gen" => 0,
        _ => 1,
    }
}

/// Why a file cannot be read, where that can be told without reading it.
fn why_unread<R: Files>(rt: &R, name: &str) -> Option<&'static str> {
    let found = match fs::metadata(rt, name) {
        Ok(found) => found,
        Err(error) => return Some(why_unreached(error.kind())),
    };
    if found.is_dir() {
        return Some(" is a folder");
    }
    if found.is_file() && File::open(rt, name).is_err() {
        return Some(" may not be read by you; the files below /sys/firmware/acpi are root's");
    }
    None
}

fn why_unreached(kind: ErrorKind) -> &'static str {
    if kind == ErrorKind::NotFound {
        " is not there"
    } else {
        " cannot be reached"
    }
}

/// What stands in the place of a table, where the first bytes tell.
enum Instead {
    AcpidumpText,
    Image,
}

/// The fault of a table with the file's name, or what stands there in its place.
pub(crate) fn bad_table<R: Eprint + Files>(
    rt: &R,
    alloc: Global,
    words: &[String],
    fault: CedtFault,
) -> io::Result<()> {
    let name = command_word(words, 1);
    match instead_of_table(rt, alloc, name) {
        Some(Instead::AcpidumpText) => eprintln!(rt;
            "cxlplan: {name} is acpidump's text; acpixtract -s CEDT {name} makes a binary table of it"
        ),
        Some(Instead::Image) => say(rt, name, " is an image; the order is CEDT TOPO IMAGE"),
        None => tell(rt, name, None, fault, order_of(fault)),
    }
}

fn instead_of_table<R: Files>(rt: &R, alloc: Global, name: &str) -> Option<Instead> {
    let bytes = reread(rt, alloc, name)?;
    if has_acpidump_text(bytes.as_slice()) {
        return Some(Instead::AcpidumpText);
    }
    if bytes.starts_with(b"CXLHDM01") {
        return Some(Instead::Image);
    }
    None
}

/// Where a table belongs, if the file is none.
fn order_of(fault: CedtFault) -> &'static str {
    match fault {
        CedtFault::Signature => "; the table comes first, as its bytes and not as text",
        _ => "",
    }
}

/// The fault of a file with the file's name, its line where that is known, and what helps.
fn tell<R: Eprint, F: Copy + Display>(
    rt: &R,
    name: &str,
    line: Option<usize>,
    fault: F,
    help: &str,
) -> io::Result<()> {
    match line {
        Some(line) => eprintln!(rt; "cxlplan: {name}, line {line}: {fault}{help}"),
        None => eprintln!(rt; "cxlplan: {name}: {fault}{help}"),
    }
}

/// The fault of a topology with the file's name, and the line where it lies.
pub(crate) fn bad_topology<R: Eprint + Files>(
    rt: &R,
    alloc: Global,
    words: &[String],
    fault: TopoFault,
) -> io::Result<()> {
    let name = command_word(words, 2);
    match fault {
        TopoFault::Toml => bad_toml(rt, alloc, name),
        TopoFault::Memory => say(rt, "", "memory ran out"),
        _ => match reread(rt, alloc, name) {
            Some(bytes) => bad_tables(rt, alloc, name, bytes.as_slice(), fault),
            None => tell(rt, name, None, fault, counted(fault)),
        },
    }
}

/// From where the places count that a fault of a topology names.
fn counted(fault: TopoFault) -> &'static str {
    match fault {
        TopoFault::Tree(_) => " (nodes count from 0: bridges, then switches, then endpoints)",
        _ => " (tables of a kind count from 0)",
    }
}

/// The fault of a topology by its text: a key that is unknown is named, and so is the line, where headers tell it.
fn bad_tables<R: Eprint>(
    rt: &R,
    alloc: Global,
    name: &str,
    bytes: &[u8],
    fault: TopoFault,
) -> io::Result<()> {
    let Ok(text) = str::from_utf8(bytes) else {
        return tell(rt, name, None, fault, counted(fault));
    };
    match unknown_key(text, fault) {
        Some((spot, none)) => tell(rt, name, Some(spot.line), spot.key, none),
        None => {
            let line = line_of_fault(alloc, text, fault)?;
            tell(rt, name, line, fault, counted(fault))
        }
    }
}

/// The key that is none of its table's, and what says so.
fn unknown_key(text: &str, fault: TopoFault) -> Option<(Spot<'_>, &'static str)> {
    let TopoFault::Key(place) = fault else {
        return None;
    };
    if place.key != Key::Unknown {
        return None;
    }
    let above = line_above(text, place.section, place.index)?;
    let spot = key_below(text, above, Sought::Unknown(place.section))?;
    Some((spot, no_key_of(place.section)))
}

fn no_key_of(section: Section) -> &'static str {
    match section {
        Section::Top => " is no key of the top table",
        Section::Bridge => " is no key of a bridge",
        Section::Switch => " is no key of a switch",
        Section::Endpoint => " is no key of an endpoint",
    }
}

/// The line of a fault's key, or where the key is missing, that of its table.
fn line_of_fault(alloc: Global, text: &str, fault: TopoFault) -> io::Result<Option<usize>> {
    match fault {
        TopoFault::Key(place) | TopoFault::Kind(place) | TopoFault::Range(place) => {
            line_of_place(alloc, text, place)
        }
        TopoFault::Tree(fault) => Ok(fault_node(fault).and_then(|node| line_of_node(text, node))),
        _ => Ok(None),
    }
}

fn line_of_place(alloc: Global, text: &str, place: TableKey) -> io::Result<Option<usize>> {
    let Some(above) = line_above(text, place.section, place.index) else {
        return Ok(None);
    };
    let shown = format!(in alloc; "{place}")?;
    // the text of a place ends with its key
    let key = match shown.as_str().rsplit_once(' ') {
        Some((_, key)) => key,
        None => "",
    };
    match key_below(text, above, Sought::Named(key)) {
        Some(spot) => Ok(Some(spot.line)),
        None if above > 0 => Ok(Some(above)),
        None => Ok(None),
    }
}

/// Where a file stops to be TOML.
fn bad_toml<R: Eprint + Files>(rt: &R, alloc: Global, name: &str) -> io::Result<()> {
    match reread(rt, alloc, name) {
        Some(bytes) => bad_text(rt, alloc, name, bytes.as_slice()),
        None => say(rt, name, " is no TOML document"),
    }
}

fn bad_text<R: Eprint>(rt: &R, alloc: Global, name: &str, text: &[u8]) -> io::Result<()> {
    if text.starts_with(b"CEDT") || text.starts_with(b"CXLHDM01") {
        return say(rt, name, " is no topology; the order is CEDT TOPO IMAGE");
    }
    match toml::table_from_slice(alloc, text) {
        Err(error) => tell(rt, name, line_of_error(text, &error), error.message(), ""),
        Ok(_) => say(rt, name, " is no TOML document"),
    }
}

fn line_of_error(text: &[u8], error: &Error) -> Option<usize> {
    match error.span() {
        Some(span) => Some(line_of(text, span.start)),
        None => None,
    }
}

/// The fault of an image with the file's name.
pub(crate) fn bad_image<R: Eprint>(rt: &R, words: &[String], fault: ImageFault) -> io::Result<()> {
    let name = command_word(words, 3);
    tell(
        rt,
        name,
        None,
        fault,
        "; it has to be captured with its topology",
    )
}

/// The bytes of an ordinary file. What comes by a pipe is gone.
fn reread<R: Files>(rt: &R, alloc: Global, name: &str) -> Option<Vec<u8>> {
    match fs::metadata(rt, name) {
        Ok(found) if found.is_file() => StdFetch::new(rt).fetch(alloc, name).ok(),
        _ => None,
    }
}

/// Whether bytes are what acpidump prints: a table's name of four letters and the place where it was.
fn has_acpidump_text(bytes: &[u8]) -> bool {
    match bytes.get(4..9) {
        Some(at) => at == b" @ 0x".as_slice(),
        None => false,
    }
}

/// The line of a place in a text, from 1.
fn line_of(bytes: &[u8], place: usize) -> usize {
    let mut line: usize = 1;
    for byte in bytes.iter().take(place) {
        if *byte == b'\n' {
            line = line.saturating_add(1);
        }
    }
    line
}
