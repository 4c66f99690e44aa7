//! Where in the text of a topology a fault lies, where its tables stand under headers as `[[bridge]]`.

use cxl_topofile::Section;

/// A line of a text, from 1, and the key that stands on it.
#[derive(Clone, Copy)]
pub(crate) struct Spot<'a> {
    pub line: usize,
    pub key: &'a str,
}

/// Which key of a table is sought.
#[derive(Clone, Copy)]
pub(crate) enum Sought<'a> {
    Named(&'a str),
    /// The first that is none of its table's keys.
    Unknown(Section),
}

const BRIDGE: &str = "bridge";

const SWITCH: &str = "switch";

const ENDPOINT: &str = "endpoint";

/// The line above a table's keys: its header's, and 0 for the top table.
pub(crate) fn line_above(text: &str, section: Section, index: u32) -> Option<usize> {
    match section {
        Section::Top => Some(0),
        Section::Bridge => header(text, BRIDGE, index),
        Section::Switch => header(text, SWITCH, index),
        Section::Endpoint => header(text, ENDPOINT, index),
    }
}

/// The line of a node's header. Nodes count through bridges, then switches, then endpoints.
pub(crate) fn line_of_node(text: &str, node: u32) -> Option<usize> {
    // tables in braces have no header, so nodes cannot be counted by these
    for kind in [BRIDGE, SWITCH, ENDPOINT] {
        if key_below(text, 0, Sought::Named(kind)).is_some() {
            return None;
        }
    }
    let behind_bridges = node.saturating_sub(count(text, BRIDGE));
    let behind_switches = behind_bridges.saturating_sub(count(text, SWITCH));
    if node < count(text, BRIDGE) {
        header(text, BRIDGE, node)
    } else if behind_bridges < count(text, SWITCH) {
        header(text, SWITCH, behind_bridges)
    } else {
        header(text, ENDPOINT, behind_switches)
    }
}

/// The key that is sought, below a line and above the next header.
pub(crate) fn key_below<'a>(text: &'a str, above: usize, sought: Sought<'_>) -> Option<Spot<'a>> {
    for (at, line) in text.lines().enumerate() {
        if at < above {
            continue;
        }
        if line.trim().starts_with('[') {
            return None;
        }
        if let Some(key) = key_of(line) {
            if sought.is(key) {
                let line = at.saturating_add(1);
                return Some(Spot { line, key });
            }
        }
    }
    None
}

impl Sought<'_> {
    fn is(self, key: &str) -> bool {
        match self {
            Sought::Named(name) => key == name,
            Sought::Unknown(section) => !keys_of(section).contains(&key),
        }
    }
}

/// The keys that a table may have.
fn keys_of(section: Section) -> &'static [&'static str] {
    match section {
        Section::Top => &["frames", BRIDGE, SWITCH, ENDPOINT],
        Section::Bridge => &[
            "name",
            "uid",
            "decoders",
            "targets",
            "low",
            "high",
            "passthrough",
        ],
        Section::Switch => &[
            "name",
            "parent",
            "port",
            "decoders",
            "targets",
            "low",
            "high",
            "passthrough",
        ],
        Section::Endpoint => &[
            "name", "parent", "port", "decoders", "low", "high", "ways3", "ways16", "ram", "pmem",
        ],
    }
}

/// The line of the header of a table, by its index among those of its kind.
fn header(text: &str, kind: &str, index: u32) -> Option<usize> {
    let mut before: u32 = 0;
    for (at, line) in text.lines().enumerate() {
        if kind_of(line) == Some(kind) {
            if before == index {
                return Some(at.saturating_add(1));
            }
            before = before.saturating_add(1);
        }
    }
    None
}

/// How many tables of a kind have a header.
fn count(text: &str, kind: &str) -> u32 {
    let mut found: u32 = 0;
    for line in text.lines() {
        if kind_of(line) == Some(kind) {
            found = found.saturating_add(1);
        }
    }
    found
}

/// The kind of the table that begins with this line.
fn kind_of(line: &str) -> Option<&str> {
    let behind = line.trim().strip_prefix("[[")?;
    match behind.split_once("]]") {
        Some((kind, _)) => Some(kind.trim()),
        None => None,
    }
}

/// The plain key that this line gives a value.
fn key_of(line: &str) -> Option<&str> {
    match line.split_once('=') {
        Some((key, _)) if is_plain(key.trim()) => Some(key.trim()),
        _ => None,
    }
}

/// Whether a word is a key without quotes or dots.
fn is_plain(word: &str) -> bool {
    !word.is_empty()
        && word.bytes().all(|byte| byte.is_ascii_alphanumeric() || byte == b'_' || byte == b'-')
}
