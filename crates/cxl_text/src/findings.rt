//! The texts of an image's regions, and of its first breach.

ghost use Rattle.std.specs.Prelude.{◌≡◌, ◌+◌, ◌<◌, ◌≤◌, ◌++◌, length, OnOk, OnErr};
ghost use Rattle.cxl_reply.specs.Plans.{found_range_text, found_ways_text, found_head_text, found_text, breach_text};
ghost use Rattle.cxl_reply.specs.Conditions.{IsToldFound};

use crate::refusal::{put_short_line, put_whole_text};
use crate::short_text::ShortText;
use crate::slots::put_slots;
use crate::words::kind_text;
use cxl_enc::Memory;
use cxl_model::Found;
use cxl_topo::Topo;

/// Room for the lines of a region of sixteen slots, so that its text is not moved as it grows.
const ROOM: usize = 1_024;

/// Appends a region of an image and its slots, a line each. After `Memory` the text is as before. (This
/// project's rule.) Takes memory.
pub fn put_found(out: &mut Vec<u8>, found: &Found, topo: &Topo) -> Result<(), Memory>
    requires { IsToldFound topo.now.nodes found.now }
    ensures ok { OnOk result (out.new.items ≡ out.old.items ++ found_text topo.now.nodes found.now) }
    ensures err { OnErr result (out.new.items ≡ out.old.items) }
{
    let mut text = Vec::with_capacity(*out.allocator(), ROOM)?;
    put_found_lines(&mut text, found, topo)?;
    put_whole_text(out, &text)
}

fn put_found_lines(out: &mut Vec<u8>, found: &Found, topo: &Topo) -> Result<(), Memory>
    requires { IsToldFound topo.now.nodes found.now }
    ensures { OnOk result (out.new.items ≡ out.old.items ++ found_text topo.now.nodes found.now) }
{
    put_found_head(out, found)?;
    put_slots(out, found.spans.items(), topo)
}

fn put_found_head(out: &mut Vec<u8>, found: &Found) -> Result<(), Memory>
    requires { found.now.gran ≤ 6 }
    ensures { OnOk result (out.new.items ≡ out.old.items ++ found_head_text found.now) }
{
    let mut line = ShortText::new();
    put_found_range(&mut line, found);
    put_found_ways(&mut line, found);
    line.put(b" ");
    line.put(kind_text(found.kind));
    put_short_line(out, &mut line)
}

#[tactic(auto, unfolding(cxl_reply::specs::Plans::found_ways_text))]
fn put_found_ways(line: &mut ShortText, found: &Found)
    requires room { length line.old ≤ 80 }
    requires gran { found.now.gran ≤ 6 }
    ensures text { line.new ≡ line.old ++ found_ways_text found.now }
    ensures len { length line.new ≤ length line.old + 32 }
{
    line.put_gran(b" gran ", found.gran);
    line.put_number(b" ways ", u32::from(found.ways));
}

#[tactic(auto, unfolding(cxl_reply::specs::Plans::found_range_text))]
fn put_found_range(line: &mut ShortText, found: &Found)
    requires { length line.old ≤ 60 }
    ensures text { line.new ≡ line.old ++ found_range_text found.now }
    ensures len { length line.new ≤ length line.old + 67 }
{
    line.put_hex(b"region ", found.base);
    line.put_hex(b" size ", found.size);
    line.put_number(b" window ", found.window);
}

/// Appends the rule that an image breaks first, by its number, with the node and the decoder that break
/// it. After `Memory` the text is as before. (This project's rule.) Takes memory.
pub fn put_breach(
    out: &mut Vec<u8>,
    rule: u8,
    node: u32,
    decoder: u8,
    topo: &Topo,
) -> Result<(), Memory>
    requires { node < length topo.now.nodes }
    ensures ok { OnOk result (out.new.items ≡ out.old.items ++ breach_text topo.now.nodes rule node decoder) }
    ensures err { OnErr result (out.new.items ≡ out.old.items) }
{
    let mut line = ShortText::new();
    line.put_number(b"breach K", u32::from(rule));
    line.put_node(b" ", node, topo);
    line.put_number(b" ", u32::from(decoder));
    put_short_line(out, &mut line)
}
