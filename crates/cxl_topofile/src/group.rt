//! The two kinds of nodes below others: switches and endpoints.

ghost use Rattle.std.specs.Prelude.{◌≡◌};
ghost use Rattle.toml.specs.View.{table_view};
ghost use Rattle.cxl_topofile.specs.Groups.{section_of, draft_of};

use crate::draft::{Draft, read_endpoint, read_switch};
use crate::fault::{Section, Wrong};
use toml::Table;

/// The two kinds of nodes that stand under others.
#[derive(Clone, Copy)]
pub(crate) enum Group {
    Switches,
    Endpoints,
}

impl Group {
    /// The section of their tables.
    pub(crate) fn section(self) -> Section
        ensures { result ≡ section_of self }
    {
        match self {
            Group::Switches => Section::Switch,
            Group::Endpoints => Section::Endpoint,
        }
    }

    /// What a table of this kind states.
    pub(crate) fn read(self, table: &Table) -> Result<Draft, Wrong>
        ensures { result ≡ draft_of self (table_view table.now) }
    {
        match self {
            Group::Switches => read_switch(table),
            Group::Endpoints => read_endpoint(table),
        }
    }
}
