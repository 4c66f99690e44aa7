//! The tree of a topology as lines.

ghost use Rattle.std.specs.Prelude.{◌≡◌, ◌≤◌, ◌<◌, ◌++◌, OnOk, length, codes, decimal, Some, slice_get, IfSome};
ghost use Rattle.std.specs.List.{flat_map, enumerate_from};
ghost use Rattle.cxl_reply.specs.Words.{line};
ghost use Rattle.cxl_reads.specs.Answers.{ComesTo, IsAnswered};
ghost use Rattle.cxl_reads.specs.Tree.{name_text, memory_text, kind_text, parent_text, counts_text, bits_text, who_text, block_text, node_line, tree_text, IsTreeTold};

use crate::answers::{TOPOLOGY, put_bit, put_text, told};
use cxl_enc::{CAP_HIGH, CAP_LOW, CAP_WAYS3, CAP_WAYS16, Memory, has_bit, target_count};
use cxl_inputs::{Outcome, Status, Stop, finish, given_topology};
use cxl_io::{Sink, put_number};
use cxl_regs::decoder_count;
use cxl_text::put_address;
use cxl_topo::{Capacity, Node, NodeKind, Parent, Topo, tree_laws};
use std::alloc::Global;

/// Writes a topology as lines: the frames that its devices share, and each node by number, with its kind, its parent and what its
/// capability word states, also where the file left it to a default. A file that has a fault is told as the program tells it. Where
/// memory runs out, nothing is written.
pub fn tree<K: Sink>(alloc: Global, topo: &[u8], out: &mut K) -> Status
    ensures answer { IsAnswered (IsTreeTold topo.now) result (K.state out.old) (K.state out.new) }
    ensures counts { (K.state out.old).faults ≤ (K.state out.new).faults }
{
    finish(tree_told(alloc, topo), out)
}

/// What telling it comes to.
fn tree_told(alloc: Global, topo: &[u8]) -> Result<Outcome, Stop>
    ensures { ComesTo (IsTreeTold topo.now) result }
{
    let topo = given_topology(alloc, TOPOLOGY, topo)?;
    let mut text = Vec::new(alloc);
    put_tree(&mut text, &topo)?;
    Ok(told(text))
}

fn put_tree(out: &mut Vec<u8>, topo: &Topo) -> Result<(), Memory>
    ensures { OnOk result (out.new.items ≡ out.old.items ++ tree_text topo.now) }
{
    put_frames(out, topo.frames())?;
    put_nodes(out, topo)
}

fn put_frames(out: &mut Vec<u8>, frames: u32) -> Result<(), Memory>
    ensures { OnOk result (out.new.items ≡ out.old.items ++ line (codes "frames " ++ decimal frames)) }
{
    out.extend_from_slice(b"frames ")?;
    put_number(out, u64::from(frames))?;
    out.push(b'\n')?;
    Ok(())
}

/// Appends a line for each node.
fn put_nodes(out: &mut Vec<u8>, topo: &Topo) -> Result<(), Memory>
    ensures { OnOk result (out.new.items ≡ out.old.items
        ++ flat_map (node_line topo.now.nodes) (enumerate_from 0 topo.now.nodes)) }
{
    for i in 0..topo.count() {
        put_node(out, i, topo.node(i), topo)?;
    }
    Ok(())
}

fn put_node(out: &mut Vec<u8>, i: u32, node: &Node, topo: &Topo) -> Result<(), Memory>
    requires { slice_get topo.now.nodes i ≡ Some node.now }
    ensures { OnOk result (out.new.items ≡ out.old.items ++ node_line topo.now.nodes (i, node.now)) }
{
    put_who(out, i, node, topo)?;
    put_block(out, node)?;
    out.push(b'\n')?;
    Ok(())
}

/// Appends which node it is, what, and below which other.
fn put_who(out: &mut Vec<u8>, i: u32, node: &Node, topo: &Topo) -> Result<(), Memory>
    requires { slice_get topo.now.nodes i ≡ Some node.now }
    ensures { OnOk result (out.new.items ≡ out.old.items ++ who_text topo.now.nodes i node.now) }
{
    tree_laws();
    let _count = topo.count();
    put_name(out, i, node)?;
    put_kind(out, &node.kind)?;
    put_parent(out, node.parent, topo)
}

/// Appends what a node's block can do, or that it passes addresses on.
fn put_block(out: &mut Vec<u8>, node: &Node) -> Result<(), Memory>
    ensures { OnOk result (out.new.items ≡ out.old.items ++ block_text node.now) }
{
    put_counts(out, node.cap)?;
    put_bits(out, node.cap)?;
    put_bit(out, b" passthrough", node.forwards)
}

#[tactic(auto, unfolding(crate::specs::Tree::name_text))]
fn put_name(out: &mut Vec<u8>, i: u32, node: &Node) -> Result<(), Memory>
    ensures { OnOk result (out.new.items ≡ out.old.items ++ name_text i node.now) }
{
    out.extend_from_slice(b"node ")?;
    put_number(out, u64::from(i))?;
    out.extend_from_slice(b" ")?;
    put_text(out, node.name.bytes())
}

fn put_kind(out: &mut Vec<u8>, kind: &NodeKind) -> Result<(), Memory>
    ensures { OnOk result (out.new.items ≡ out.old.items ++ kind_text kind.now) }
{
    match kind {
        NodeKind::Bridge(uid) => {
            out.extend_from_slice(b" bridge uid ")?;
            put_number(out, u64::from(*uid))
        }
        NodeKind::Switch => put_text(out, b" switch"),
        NodeKind::Endpoint(memory) => {
            put_text(out, b" endpoint")?;
            put_memory(out, memory)
        }
    }
}

#[tactic(auto, unfolding(crate::specs::Tree::memory_text))]
fn put_memory(out: &mut Vec<u8>, memory: &Capacity) -> Result<(), Memory>
    ensures { OnOk result (out.new.items ≡ out.old.items ++ memory_text memory.now) }
{
    out.extend_from_slice(b" ram ")?;
    put_address(out, memory.ram)?;
    out.extend_from_slice(b" pmem ")?;
    put_address(out, memory.pmem)
}

/// Appends the node above, and the port there; a bridge has none.
fn put_parent(out: &mut Vec<u8>, parent: Option<Parent>, topo: &Topo) -> Result<(), Memory>
    requires { IfSome parent (λ above. above.node < length topo.now.nodes) }
    ensures { OnOk result (out.new.items ≡ out.old.items ++ parent_text topo.now.nodes parent) }
{
    match parent {
        Some(parent) => put_port(out, parent, topo),
        None => Ok(()),
    }
}

fn put_port(out: &mut Vec<u8>, parent: Parent, topo: &Topo) -> Result<(), Memory>
    requires { parent.node < length topo.now.nodes }
    ensures { OnOk result (out.new.items ≡ out.old.items ++ parent_text topo.now.nodes (Some parent)) }
{
    out.extend_from_slice(b" parent ")?;
    put_text(out, topo.node(parent.node).name.bytes())?;
    out.extend_from_slice(b" port ")?;
    put_number(out, u64::from(parent.port))
}

#[tactic(auto, unfolding(crate::specs::Tree::counts_text))]
fn put_counts(out: &mut Vec<u8>, cap: u32) -> Result<(), Memory>
    ensures { OnOk result (out.new.items ≡ out.old.items ++ counts_text cap) }
{
    out.extend_from_slice(b" cap ")?;
    put_address(out, u64::from(cap))?;
    out.extend_from_slice(b" decoders ")?;
    put_number(out, u64::from(decoder_count(cap)))?;
    out.extend_from_slice(b" targets ")?;
    put_number(out, u64::from(target_count(cap)))
}

#[tactic(auto, unfolding(crate::specs::Tree::bits_text))]
fn put_bits(out: &mut Vec<u8>, cap: u32) -> Result<(), Memory>
    ensures { OnOk result (out.new.items ≡ out.old.items ++ bits_text cap) }
{
    put_bit(out, b" low", has_bit(cap, CAP_LOW))?;
    put_bit(out, b" high", has_bit(cap, CAP_HIGH))?;
    put_bit(out, b" ways3", has_bit(cap, CAP_WAYS3))?;
    put_bit(out, b" ways16", has_bit(cap, CAP_WAYS16))
}
