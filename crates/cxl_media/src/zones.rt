//! The blocks by zone, so that those of a zone are met without a look at the others.

ghost use Rattle.std.specs.Prelude.{◌≡◌, ◌≢◌, ℕ, ◌<◌, ◌*◌, ◌≤◌, [], None, Some, IfOk, length, replicate, slice_index, slice_set};
ghost use Rattle.std.specs.Vec.{vec_capacity};
ghost use Rattle.std.specs.FinMap as map;
ghost use Rattle.std.specs.FinMap.{FinMap};
ghost use Rattle.cxl_enc.specs.Limits.{frame_limit};
ghost use Rattle.cxl_media.specs.Blocks.{Key, key_cmp};
ghost use Rattle.cxl_media.specs.Hash.{home_of};
ghost use Rattle.cxl_media.specs.Zones.{no_node, node_at, nexts, put_next, put_before, IsAhead, AreZoned};

use crate::numbers::Numbers;
use crate::probe::home;
use cxl_enc::Memory;
use std::alloc::Global;

/// How many blocks a zone has: 256 MiB of an endpoint's device, so that regions share none.
pub const ZONE_BLOCKS: u64 = 1 << 20;

/// Chains through the frames of blocks, one for each home of zones.
#[derive(Drop)]
pub struct Zones {
    pub homes: u32,
    // By home: 0 where its chain is empty, and else one more than the number of its first frame.
    pub firsts: Numbers,
    // By the number of a frame, up to the greatest that had a block. There is room for all.
    pub nodes: Vec<Node>,
}

/// The block of a frame, and its neighbours on a chain: 0 where there is none, and else one more than the number of
/// that frame.
#[derive(Clone, Copy)]
pub struct Node {
    pub number: u64,
    pub ep: u32,
    pub next: u32,
    pub before: u32,
}

impl Zones {
    /// No home. Takes no memory.
    pub fn empty(alloc: Global) -> Zones
        ensures homes { result.homes ≡ 0 }
        ensures firsts { result.firsts ≡ [] }
        ensures nodes { result.nodes.items ≡ [] }
    {
        Zones {
            homes: 0,
            firsts: Numbers::empty(alloc),
            nodes: Vec::new(alloc),
        }
    }

    /// Empty chains, two for each frame that there is.
    pub fn new(alloc: Global, frames: u32) -> Result<Zones, Memory>
        requires { frames ≤ frame_limit }
        ensures homes { IfOk result (λ zones. zones.homes ≡ 2 * frames) }
        ensures firsts { IfOk result (λ zones. zones.firsts ≡ replicate (2 * frames) 0) }
        ensures nodes { IfOk result (λ zones. zones.nodes.items ≡ []) }
        ensures room { IfOk result (λ zones. vec_capacity zones.nodes ≡ frames) }
    {
        let firsts = Numbers::new(alloc, 2 * frames as usize)?;
        let nodes = Vec::with_capacity(alloc, frames as usize)?;
        Ok(Zones {
            homes: 2 * frames,
            firsts,
            nodes,
        })
    }

    /// The place at which the chain of a zone's home begins.
    pub fn first(&self, ep: u32, zone: u64) -> u32
        requires { length self.now.firsts ≡ self.now.homes }
        ensures { result ≡ slice_index self.now.firsts (home_of self.now.homes (ep, zone)) }
    {
        let place = home(ep, zone, self.homes);
        if place < self.firsts.len() {
            self.firsts.get(place)
        } else {
            0
        }
    }

    /// What is kept of a frame.
    pub fn node(&self, frame: u32) -> Node
        ensures { result ≡ node_at self.now.nodes.items frame }
    {
        node_of(&self.nodes, frame)
    }

    /// Puts the frame of a new block on the chain of its zone's home, before all others.
    pub fn add(&mut self, frame: u32, ep: u32, number: u64)
        requires some { 0 < self.old.homes }
        requires size { length self.old.firsts ≡ self.old.homes }
        requires room { frame < vec_capacity self.old.nodes }
        requires small { frame < frame_limit }
        ensures zoned { (frames : FinMap key_cmp ℕ) → AreZoned frames self.old.homes self.old.firsts self.old.nodes.items
            → map.get frames (ep, number) ≡ None → ((key : Key) → map.get frames key ≢ Some frame)
            → AreZoned (map.insert frames (ep, number) frame) self.new.homes self.new.firsts self.new.nodes.items }
        ensures homes { self.new.homes ≡ self.old.homes }
        ensures capacity { vec_capacity self.new.nodes ≡ vec_capacity self.old.nodes }
    {
        make(&mut self.nodes, frame);
        let place = home(ep, number / ZONE_BLOCKS, self.homes);
        let next = self.firsts.get(place);
        set_before(&mut self.nodes, next, frame + 1);
        set_node(
            &mut self.nodes,
            frame,
            Node {
                number,
                ep,
                next,
                before: 0,
            },
        );
        self.firsts.set(place, frame + 1);
    }

    /// Takes the frame of a block off its chain.
    pub fn remove(&mut self, frame: u32)
        requires some { 0 < self.old.homes }
        requires size { length self.old.firsts ≡ self.old.homes }
        ensures zoned { (frames : FinMap key_cmp ℕ) (key : Key) → AreZoned frames self.old.homes self.old.firsts self.old.nodes.items
            → map.get frames key ≡ Some frame
            → AreZoned (map.remove frames key) self.new.homes self.new.firsts self.new.nodes.items }
        // What is met from the next place on is still met from it.
        ensures ahead { (frames : FinMap key_cmp ℕ) (key : Key) → AreZoned frames self.old.homes self.old.firsts self.old.nodes.items
            → map.get frames key ≡ Some frame → (n : ℕ) → IsAhead (nexts self.old.nodes.items) (nexts self.old.nodes.items frame) n
            → IsAhead (nexts self.new.nodes.items) (nexts self.old.nodes.items frame) n }
        ensures homes { self.new.homes ≡ self.old.homes }
        ensures capacity { vec_capacity self.new.nodes ≡ vec_capacity self.old.nodes }
    {
        let Node {
            number,
            ep,
            next,
            before,
        } = node_of(&self.nodes, frame);
        if before == 0 {
            self.firsts
                .set(home(ep, number / ZONE_BLOCKS, self.homes), next);
        }
        set_next(&mut self.nodes, before, next);
        set_before(&mut self.nodes, next, before);
    }
}

/// What is kept of a frame.
fn node_of(nodes: &[Node], frame: u32) -> Node
    ensures { result ≡ node_at nodes.now frame }
{
    let at = frame as usize;
    if at < nodes.len() {
        nodes[at]
    } else {
        Node {
            number: 0,
            ep: 0,
            next: 0,
            before: 0,
        }
    }
}

/// Makes room for what is kept of a frame, and of each below it.
fn make(nodes: &mut Vec<Node>, frame: u32)
    requires { frame < vec_capacity nodes.old }
    ensures same { (n : ℕ) → node_at nodes.new.items n ≡ node_at nodes.old.items n }
    ensures more { length nodes.old.items ≤ length nodes.new.items }
    ensures within { frame < length nodes.new.items }
    ensures capacity { vec_capacity nodes.new ≡ vec_capacity nodes.old }
{
    for _ in nodes.len()..frame as usize + 1 {
        nodes.push_reserved(Node {
            number: 0,
            ep: 0,
            next: 0,
            before: 0,
        });
    }
}

/// Writes what is kept of a frame.
fn set_node(nodes: &mut Vec<Node>, frame: u32, node: Node)
    ensures nodes { nodes.new.items ≡ slice_set nodes.old.items frame node }
    ensures capacity { vec_capacity nodes.new ≡ vec_capacity nodes.old }
{
    let at = frame as usize;
    if at < nodes.len() {
        nodes[at] = node;
    }
}

/// Writes what is behind the frame at a place, where there is one.
fn set_next(nodes: &mut Vec<Node>, place: u32, next: u32)
    ensures nodes { nodes.new.items ≡ put_next nodes.old.items place next }
    ensures capacity { vec_capacity nodes.new ≡ vec_capacity nodes.old }
{
    if place != 0 {
        let node = node_of(nodes, place - 1);
        set_node(nodes, place - 1, Node { next, ..node });
    }
}

/// Writes what is before the frame at a place, where there is one.
fn set_before(nodes: &mut Vec<Node>, place: u32, before: u32)
    ensures nodes { nodes.new.items ≡ put_before nodes.old.items place before }
    ensures capacity { vec_capacity nodes.new ≡ vec_capacity nodes.old }
{
    if place != 0 {
        let node = node_of(nodes, place - 1);
        set_node(nodes, place - 1, Node { before, ..node });
    }
}
