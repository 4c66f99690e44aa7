//! Why a file stands for no topology, with the place of the fault.

ghost use Rattle.std.specs.Prelude.{◌≡◌};
ghost use Rattle.cxl_topofile.specs.declared.fault.TopoFault.TheVariants.{Memory};

use crate::key::Key;
use cxl_topo::TreeFault;
use std::alloc::{AllocError, AllocFailed};
use std::fmt;
use thiserror::Error;

/// Why a file stands for no topology: the first fault of the text, then of the tables (the top table, the
/// bridges, the switches, the endpoints, each kind in file order), then of the tree.
#[derive(Clone, Copy, PartialEq, Eq, Error)]
pub enum TopoFault {
    /// The file is no TOML document.
    #[error("no TOML document")]
    Toml,
    /// A key is missing and has no default, or it is none of its table's keys.
    #[error("a key is missing or unknown: {0}")]
    Key(TableKey),
    /// The value of a key is of another kind.
    #[error("a value is of the wrong kind: {0}")]
    Kind(TableKey),
    /// The value of a key is out of its range.
    #[error("a value is out of range: {0}")]
    Range(TableKey),
    /// The nodes are no legal tree.
    #[error("the nodes are no legal tree: {0}")]
    Tree(TreeFault),
    #[error("out of memory")]
    Memory,
}

// The debug text of a fault is its message, since an error needs one and nothing else asks for it.
impl fmt::Debug for TopoFault {
    fn fmt<W: fmt::Write>(&self, f: &mut fmt::Formatter<W>) -> fmt::Result {
        write!(f, "{self}")
    }
}

/// A key of a table: of the top table, where the index is 0, or of the bridge, switch or endpoint with
/// this index among its kind.
#[derive(Clone, Copy, PartialEq, Eq)]
pub struct TableKey {
    pub section: Section,
    pub index: u32,
    pub key: Key,
}

/// Which table of a topology file.
#[derive(Clone, Copy, PartialEq, Eq)]
pub enum Section {
    Top,
    Bridge,
    Switch,
    Endpoint,
}

impl Section {
    ghost use Rattle.cxl_topofile.specs.inner.Sections.{section_name};

    /// The section as a message names it.
    fn name(self) -> &'static str
        ensures { result.now ≡ section_name self }
    {
        match self {
            Section::Top => "top",
            Section::Bridge => "bridge",
            Section::Switch => "switch",
            Section::Endpoint => "endpoint",
        }
    }
}

impl fmt::Display for TableKey {
    ghost use Rattle.std.specs.Prelude.{Some};
    ghost use Rattle.cxl_topofile.specs.Places.{place_text};

    ghost output = { λ place. Some (place_text place) };

    fn fmt<W: fmt::Write>(&self, f: &mut fmt::Formatter<W>) -> fmt::Result {
        let index = self.index;
        let key = self.key.shown();
        match self.section {
            Section::Top => write!(f, "top {key}"),
            section => write!(f, "{} {index} {key}", section.name()),
        }
    }
}

impl From<AllocError> for TopoFault {
    ghost from_gives = { λ _ e. e ≡ Memory };

    fn from(_e: AllocError) -> TopoFault {
        TopoFault::Memory
    }
}

impl<T: Drop> From<AllocFailed<T>> for TopoFault {
    ghost from_gives = { λ _ e. e ≡ Memory };

    fn from(_e: AllocFailed<T>) -> TopoFault {
        TopoFault::Memory
    }
}

/// What is wrong with the value of a key.
#[derive(Clone, Copy)]
pub(crate) struct Wrong {
    pub cause: Cause,
    pub key: Key,
}

impl Wrong {
    ghost use Rattle.cxl_topofile.specs.Wrongs.{missing, of_other_kind, out_of_range};
    ghost use Rattle.cxl_topofile.specs.Groups.{fault_at};

    /// The key is missing and has no default.
    pub(crate) fn missing(key: Key) -> Wrong
        ensures { result ≡ missing key }
    {
        let cause = Cause::Missing;
        Wrong { cause, key }
    }

    /// The value is of another kind.
    pub(crate) fn of_other_kind(key: Key) -> Wrong
        ensures { result ≡ of_other_kind key }
    {
        let cause = Cause::Kind;
        Wrong { cause, key }
    }

    /// The value is out of its range.
    pub(crate) fn out_of_range(key: Key) -> Wrong
        ensures { result ≡ out_of_range key }
    {
        let cause = Cause::Range;
        Wrong { cause, key }
    }

    /// The fault, with the place of the table.
    pub(crate) fn at(self, section: Section, index: u32) -> TopoFault
        ensures { result ≡ fault_at section index self }
    {
        let place = TableKey {
            section,
            index,
            key: self.key,
        };
        match self.cause {
            Cause::Missing => TopoFault::Key(place),
            Cause::Kind => TopoFault::Kind(place),
            Cause::Range => TopoFault::Range(place),
        }
    }
}

#[derive(Clone, Copy)]
pub(crate) enum Cause {
    Missing,
    Kind,
    Range,
}
