//! The file of a topology: its reading, or the text of its first fault.

ghost use Rattle.std.specs.Prelude.{◌≡◌, ◌≢◌, ◌≤◌, ⊤, [], ◌∷◌, ◌++◌, codes, IfOk, IfErr, OnOk};
ghost use Rattle.cxl_io.specs.Fetch.{AsksFor};
ghost use Rattle.cxl_reply.specs.Words.{line};
ghost use Rattle.cxl_topofile.specs.Places.{place_text};
ghost use Rattle.cxl_topofile.specs.declared.fault.TopoFault.{TopoFault};
ghost use Rattle.cxl_inputs.specs.File.{HasNotFailed, RunsOutBehind};
ghost use Rattle.cxl_inputs.specs.Stop.{IsStop};
ghost use Rattle.cxl_inputs.specs.Topology.{IsTreeOf, HasNoTree, bad_topology, tree_fault_word, tree_fault_node, IsTreeReading};
ghost use Rattle.cxl_inputs.specs.Given.{StandForNoTree};

use crate::faults::fault_line;
use crate::file::{fetch_file, within_limit};
use crate::outcome::Outcome;
use crate::status::Status;
use crate::stop::Stop;
use cxl_io::{Fetch, Memory};
use cxl_topo::{Topo, TreeFault};
use cxl_topofile::{TableKey, TopoFault, read_topo};
use std::alloc::Global;

/// The topology of a command's file. It stops where there is none.
pub(crate) fn fetch_topology<F: Fetch>(
    alloc: Global,
    file: &str,
    files: &mut F,
) -> Result<Topo, Stop>
    ensures tree { IfOk result (IsTreeOf ((F.state files.old).told file.now)) }
    ensures asked { OnOk result (AsksFor (F.state files.old) (F.state files.new) (file.now ∷ [])) }
    ensures unfailed { OnOk result (HasNotFailed (F.state files.old) (F.state files.new)) }
    ensures stops { IfErr result (IsStop (HasNoTree [] file.now (F.state files.old) (F.state files.new))
        (RunsOutBehind (file.now ∷ []) (F.state files.old) (F.state files.new))) }
    ensures counts { (F.state files.old).faults ≤ (F.state files.new).faults }
    ensures stays { (F.state files.new).told ≡ (F.state files.old).told }
{
    let bytes = fetch_file(alloc, file, files)?;
    match read_topo(alloc, bytes.as_slice()) {
        Ok(topo) => Ok(topo),
        Err(fault) => Err(Stop::of(faulty(alloc, fault))),
    }
}

/// The topology for which the bytes of a file of this name stand. It stops where they stand for none. Takes memory.
pub fn given_topology(alloc: Global, file: &str, bytes: &[u8]) -> Result<Topo, Stop>
    ensures tree { IfOk result (IsTreeReading bytes.now) }
    ensures stops { IfErr result (IsStop (StandForNoTree file.now bytes.now) ⊤) }
{
    within_limit(alloc, file, bytes)?;
    match read_topo(alloc, bytes) {
        Ok(topo) => Ok(topo),
        Err(fault) => Err(Stop::of(faulty(alloc, fault))),
    }
}

/// The first fault of a topology. Want of memory in the reader is want of memory here.
fn faulty(alloc: Global, fault: TopoFault) -> Result<Outcome, Memory>
    ensures { IfOk result (λ outcome. (fault ≢ TopoFault.Memory) × (outcome ≡ bad_topology fault)) }
{
    let text = match fault {
        TopoFault::Toml => fault_line(alloc, "topology", "toml", None),
        TopoFault::Key(place) => place_line(alloc, "key", place),
        TopoFault::Kind(place) => place_line(alloc, "kind", place),
        TopoFault::Range(place) => place_line(alloc, "range", place),
        TopoFault::Tree(fault) => {
            fault_line(alloc, "topology", fault_word(fault), fault_node(fault))
        }
        TopoFault::Memory => Err(Memory),
    }?;
    Ok(Outcome::made(Status::BadTopo(fault), text))
}

/// The line that names a fault by a word and its place in the file.
fn place_line(alloc: Global, word: &str, place: TableKey) -> Result<Vec<u8>, Memory>
    ensures { IfOk result (λ text. text.items ≡ line (codes "error: topology " ++ word.now ++ codes " " ++ place_text place)) }
{
    let text = format!(in alloc; "error: topology {word} {place}\n")?;
    Ok(text.into_bytes())
}

/// The word of a tree's fault.
fn fault_word(fault: TreeFault) -> &'static str
    ensures { result.now ≡ tree_fault_word fault }
{
    match fault {
        TreeFault::TooMany => "too-many",
        TreeFault::NoParent(_) => "no-parent",
        TreeFault::PortTaken(_) => "port-taken",
        TreeFault::Forks(_) => "forks",
        TreeFault::NameTaken(_) => "name-taken",
        TreeFault::UidTaken(_) => "uid-taken",
        TreeFault::Depth(_) => "depth",
        TreeFault::Caps(_) => "caps",
        TreeFault::Capacity(_) => "capacity",
        TreeFault::Memory => "memory",
    }
}

/// The node that has the fault, where it is one of a node.
pub fn fault_node(fault: TreeFault) -> Option<u32>
    ensures { result ≡ tree_fault_node fault }
{
    match fault {
        TreeFault::NoParent(node)
        | TreeFault::PortTaken(node)
        | TreeFault::Forks(node)
        | TreeFault::NameTaken(node)
        | TreeFault::UidTaken(node)
        | TreeFault::Depth(node)
        | TreeFault::Caps(node)
        | TreeFault::Capacity(node) => Some(node),
        TreeFault::TooMany | TreeFault::Memory => None,
    }
}
