//! The keys of a topology file.

ghost use Rattle.std.specs.Prelude.{◌≡◌, ◌<◌};
ghost use Rattle.std.specs.Str.{bytes_eq};
ghost use Rattle.cxl_topofile.specs.Keys.{key_text, shown_key};
ghost use Rattle.cxl_topofile.specs.inner.Fields.{first_key, key_of, slot_of, slot_at};

/// How many slots there are: one for each key, and the last one for every other text.
pub(crate) const SLOTS: usize = 19;

/// A key of a topology file, or one that no table of it has.
#[derive(Clone, Copy, PartialEq, Eq)]
pub enum Key {
    Frames,
    Bridge,
    Switch,
    Endpoint,
    Name,
    Uid,
    Parent,
    Port,
    Decoders,
    Targets,
    Low,
    High,
    Passthrough,
    Ways3,
    Ways16,
    Ram,
    Pmem,
    /// A key of a table that is none of its keys.
    Unknown,
}

impl Key {
    /// The key as a file writes it, and no text for `Unknown`.
    pub(crate) fn text(self) -> &'static str
        ensures { result.now ≡ key_text self }
    {
        match self {
            Key::Frames => "frames",
            Key::Bridge => "bridge",
            Key::Switch => "switch",
            Key::Endpoint => "endpoint",
            Key::Name => "name",
            Key::Uid => "uid",
            Key::Parent => "parent",
            Key::Port => "port",
            Key::Decoders => "decoders",
            Key::Targets => "targets",
            Key::Low => "low",
            Key::High => "high",
            Key::Passthrough => "passthrough",
            Key::Ways3 => "ways3",
            Key::Ways16 => "ways16",
            Key::Ram => "ram",
            Key::Pmem => "pmem",
            Key::Unknown => "",
        }
    }

    /// The key as a message names it.
    pub(crate) fn shown(self) -> &'static str
        ensures { result.now ≡ shown_key self }
    {
        match self {
            Key::Unknown => "unknown",
            key => key.text(),
        }
    }

    /// The place of the key among all.
    pub(crate) fn slot(self) -> usize
        ensures slot { result ≡ slot_of self }
        ensures few { result < 18 }
    {
        match self {
            Key::Frames => 0,
            Key::Bridge => 1,
            Key::Switch => 2,
            Key::Endpoint => 3,
            Key::Name => 4,
            Key::Uid => 5,
            Key::Parent => 6,
            Key::Port => 7,
            Key::Decoders => 8,
            Key::Targets => 9,
            Key::Low => 10,
            Key::High => 11,
            Key::Passthrough => 12,
            Key::Ways3 => 13,
            Key::Ways16 => 14,
            Key::Ram => 15,
            Key::Pmem => 16,
            Key::Unknown => 17,
        }
    }
}

/// The slot of a text.
pub(crate) fn slot_at(text: &[u8]) -> usize
    ensures slot { result ≡ slot_at text.now }
    ensures few { result < 19 }
{
    match key_of(text) {
        Some(key) => key.slot(),
        None => SLOTS - 1,
    }
}

/// The key that a file writes so.
fn key_of(text: &[u8]) -> Option<Key>
    ensures { result ≡ key_of text.now }
{
    // A text is compared with the keys of its length alone.
    match text.len() {
        3 => first_key(text, &[Key::Uid, Key::Low, Key::Ram]),
        4 => first_key(text, &[Key::Name, Key::Port, Key::High, Key::Pmem]),
        6 => first_key(
            text,
            &[
                Key::Frames,
                Key::Bridge,
                Key::Switch,
                Key::Parent,
                Key::Ways16,
            ],
        ),
        8 => first_key(text, &[Key::Endpoint, Key::Decoders]),
        _ => first_key(
            text,
            &[Key::Targets, Key::Passthrough, Key::Ways3, Key::Unknown],
        ),
    }
}

/// The first of these keys that a file writes so.
fn first_key(text: &[u8], keys: &[Key]) -> Option<Key>
    ensures { result ≡ first_key text.now keys.now }
{
    keys.iter().copied().find(|key| is_written(*key, text))
}

/// Whether a file writes the key so.
fn is_written(key: Key, text: &[u8]) -> bool
    ensures { result ≡ bytes_eq text.now (key_text key) }
{
    text == key.text().as_bytes()
}
