//! The commands that work by their words and files alone.

ghost use Rattle.std.specs.Prelude.{◌≡◌, ◌≤◌, false};
ghost use Rattle.cxl_io.specs.Fetch.{FetchState};
ghost use Rattle.cxl_commands.specs.Answers.{IsOutcomeByFiles};
ghost use Rattle.cxl_commands.specs.Form.{OfTable, OfWords, runs_session};
ghost use Rattle.cxl_commands.specs.Outside.{outside};
ghost use Rattle.cxl_commands.specs.RunByFiles.{IsRunByFiles};

pub(crate) mod check;
pub(crate) mod help;
mod lines;
pub(crate) mod list;
pub(crate) mod normal;
pub(crate) mod plan;
pub(crate) mod route;
mod selection;

use crate::form::{TableAsk, WordsAsk};
use cxl_inputs::{Outcome, Status, finish};
use cxl_io::{Fetch, Sink};
use help::{helped, misused, version_told};
use list::list;
use normal::normal;
use route::route;
use std::alloc::Global;

/// From this many bytes on a block of lines is written, so that memory holds one block and never the whole text. (This
/// project's rule.)
const BLOCK: usize = 65_536;

/// What is asked of the table in a file.
pub fn of_table<F: Fetch, K: Sink>(
    alloc: Global,
    cedt: &str,
    ask: TableAsk,
    files: &mut F,
    out: &mut K,
) -> Status
    ensures run { IsRunByFiles (OfTable cedt.now ask) (outside (F.state files.old) (K.state out.old))
        (outside (F.state files.new) (K.state out.new)) result }
    ensures files { (F.state files.old).faults ≤ (F.state files.new).faults }
    ensures sink { (K.state out.old).faults ≤ (K.state out.new).faults }
    ensures told { (F.state files.new).told ≡ (F.state files.old).told }
{
    match ask {
        TableAsk::Route(h) => finish(route(alloc, cedt, h, files), out),
        TableAsk::Listing => list(alloc, cedt, files, out),
        TableAsk::Normal => finish(normal(alloc, cedt, files), out),
    }
}

/// What the words alone come to.
pub fn said(ask: WordsAsk) -> Outcome
    requires { runs_session (OfWords ask) ≡ false }
    ensures { (files : FetchState) → IsOutcomeByFiles (OfWords ask) files files result }
{
    match ask {
        WordsAsk::Help => helped(),
        WordsAsk::Version => version_told(),
        WordsAsk::NoCreate | WordsAsk::Unreadable => misused(),
        WordsAsk::Gen(_) => unreachable!(),
    }
}
