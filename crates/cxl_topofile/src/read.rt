//! The reader: the topology that a file stands for, or its first fault.

ghost use Rattle.std.specs.Prelude.{◌≡◌, ◌+◌, ◌≤◌, Some, length, nat_lt, IfOk, IfErr, MatchResult};
ghost use Rattle.cxl_enc.specs.Limits.{frame_limit, node_limit};
ghost use Rattle.cxl_topo.specs.Tree.{Tree};
ghost use Rattle.cxl_topo.specs.Faults.{IsTree};
ghost use Rattle.cxl_topo.specs.Frames.{AreFrames};
ghost use Rattle.toml.specs.View.{table_view};
ghost use Rattle.cxl_topofile.specs.inner.Seen.{seen_stated};
ghost use Rattle.cxl_topofile.specs.File.{tree_of, IsDocument, IsTopologyFile, IsFirstTopoFault};
ghost use Rattle.cxl_topofile.specs.inner.Answers.{IsNoDocument, IsTreeRefusal};

use crate::attach::attach;
use crate::draft::Draft;
use crate::fault::TopoFault;
use crate::sections::read_table;
use crate::stated::Stated;
use cxl_enc::NODE_LIMIT;
use cxl_topo::{Node, Topo, TreeFault};
use std::alloc::Global;
use toml::Table;

/// The topology that a file stands for, or the file's first fault. Takes memory.
pub fn read_topo(alloc: Global, bytes: &[u8]) -> Result<Topo, TopoFault>
    ensures file { IfOk result (λ topo. IsTopologyFile bytes.now topo) }
    ensures fault { IfErr result (λ fault. IsFirstTopoFault bytes.now fault) }

    // A file that stands for a tree is read, unless memory runs out.
    ensures only { (tree : Tree) → IsTopologyFile bytes.now tree
        → MatchResult result (λ topo. topo ≡ tree) (λ fault. fault ≡ TopoFault.Memory) }
{
    let table = read_document(alloc, bytes)?;
    let stated = read_table(alloc, &table)?;
    tree_from(alloc, &stated)
}

fn read_document(alloc: Global, bytes: &[u8]) -> Result<Table, TopoFault>
    ensures document { IfOk result (λ table. IsDocument bytes.now (table_view table)) }
    ensures none { IfErr result (λ fault. IsNoDocument bytes.now fault) }
{
    match toml::table_from_slice(alloc, bytes) {
        Ok(table) => Ok(table),
        Err(error) => {
            if error.is_memory() {
                Err(TopoFault::Memory)
            } else {
                Err(TopoFault::Toml)
            }
        }
    }
}

/// The tree of what a file states, or its first fault.
fn tree_from(alloc: Global, stated: &Stated) -> Result<Topo, TopoFault>
    requires some { 1 ≤ stated.now.frames }
    requires few { stated.now.frames ≤ frame_limit }
    ensures tree { IfOk result (λ topo. topo ≡ tree_of (seen_stated stated.now)) }
    ensures legal { IfOk result (λ _. IsTree (tree_of (seen_stated stated.now)).nodes) }
    ensures only { IsTree (tree_of (seen_stated stated.now)).nodes → IfErr result (λ fault. fault ≡ TopoFault.Memory) }
    ensures fault { IfErr result (λ fault. IsTreeRefusal (tree_of (seen_stated stated.now)).nodes fault) }
{
    if exceed_node_limit(&stated.bridges, &stated.drafts) {
        return Err(TopoFault::Tree(TreeFault::TooMany));
    }
    let nodes = attach(alloc, &stated.bridges, &stated.drafts)?;
    tree_over(alloc, nodes, stated.frames)
}

/// Whether these are more nodes than a tree may have.
fn exceed_node_limit(bridges: &[Node], drafts: &[Draft]) -> bool
    ensures { result ≡ nat_lt node_limit (length bridges.now + length drafts.now) }
{
    bridges.len() > NODE_LIMIT || drafts.len() > NODE_LIMIT - bridges.len()
}

/// The tree of these nodes, or its first fault. Want of memory is the file's.
fn tree_over(alloc: Global, nodes: Vec<Node>, frames: u32) -> Result<Topo, TopoFault>
    requires { AreFrames frames }
    ensures tree { IfOk result (λ topo. topo ≡ record { nodes = nodes.items; frames = frames }) }
    ensures legal { IfOk result (λ _. IsTree nodes.items) }
    ensures only { IsTree nodes.items → IfErr result (λ fault. fault ≡ TopoFault.Memory) }
    ensures fault { IfErr result (λ fault. IsTreeRefusal nodes.items fault) }
{
    match Topo::new(alloc, nodes, frames) {
        Ok(topo) => Ok(topo),
        Err(TreeFault::Memory) => Err(TopoFault::Memory),
        Err(fault) => Err(TopoFault::Tree(fault)),
    }
}
