//! The texts of refusals.

ghost use Rattle.std.specs.Prelude.{◌≡◌, ◌+◌, ◌<◌, ◌≤◌, ◌++◌, All, codes, decimal, length, OnOk, OnErr};
ghost use Rattle.cxl_reply.specs.Words.{line, hex_text, node_text};
ghost use Rattle.std.specs.List.{flat_map, enumerate_from};
ghost use Rattle.cxl_reply.specs.Refusals.{why_text, bad_line_text, named_text, full_text, spot_text, sizes_text, span_text, reason_text, window_text, plan_fault_text, count_text};
ghost use Rattle.cxl_text.specs.Short.{short_limit};
ghost use Rattle.cxl_reply.specs.Conditions.{IsToldReason, IsToldFault};

use crate::short_lines::named_line;
use crate::short_text::ShortText;
use cxl_enc::{Memory, Name};
use cxl_model::{PlanFault, Reason, Room, SpanFault};
use cxl_reply::{Counted, Lack, Sizes, Spot};
use cxl_script::{BadLine, Why};
use cxl_topo::Topo;

pub(crate) fn put_bad_line(out: &mut Vec<u8>, fault: &BadLine) -> Result<(), Memory>
    ensures { OnOk result (out.new.items ≡ out.old.items ++ bad_line_text fault.now) }
{
    let mut line = ShortText::new();
    line.put_number(b"bad line ", fault.at);
    line.put(b" ");
    line.put(why_text(fault.why));
    put_short_line(out, &mut line)
}

fn why_text(why: Why) -> &'static [u8]
    ensures text { result.now ≡ why_text why }
    ensures few { length result.now ≤ 10 }
{
    match why {
        Why::Verb => b"verb",
        Why::Missing => b"missing",
        Why::Extra => b"extra",
        Why::Name => b"name",
        Why::Kind => b"kind",
        Why::Number => b"number",
        Why::Range => b"range",
        Why::Hex => b"hex",
        Why::Long => b"long",
    }
}

/// Appends words and a name.
pub(crate) fn put_named(out: &mut Vec<u8>, words: &[u8], name: &Name) -> Result<(), Memory>
    requires { length words.now ≤ 20 }
    ensures { OnOk result (out.new.items ≡ out.old.items ++ named_text words.now name.now) }
{
    put_whole_text(out, named_line(words, name).bytes())
}

pub(crate) fn put_full(out: &mut Vec<u8>, lack: &Lack) -> Result<(), Memory>
    ensures { OnOk result (out.new.items ≡ out.old.items ++ full_text lack.now) }
{
    let mut line = ShortText::new();
    line.put_number(b"full need ", lack.need);
    line.put_number(b" free ", lack.free);
    put_short_line(out, &mut line)
}

/// Appends words, a node and a decoder of it.
pub(crate) fn put_spot(
    out: &mut Vec<u8>,
    words: &[u8],
    spot: &Spot,
    topo: &Topo,
) -> Result<(), Memory>
    requires few { length words.now ≤ 20 }
    requires node { spot.now.node < length topo.now.nodes }
    ensures { OnOk result (out.new.items ≡ out.old.items ++ spot_text words.now topo.now.nodes spot.now) }
{
    let mut line = ShortText::new();
    line.put(words);
    line.put_node(b" ", spot.node, topo);
    line.put_number(b" ", u32::from(spot.decoder));
    put_short_line(out, &mut line)
}

pub(crate) fn put_sizes(out: &mut Vec<u8>, sizes: &Sizes) -> Result<(), Memory>
    ensures { OnOk result (out.new.items ≡ out.old.items ++ sizes_text sizes.now) }
{
    let mut line = ShortText::new();
    line.put_hex(b"sizes differ ", sizes.from);
    line.put_hex(b" ", sizes.to);
    put_short_line(out, &mut line)
}

pub(crate) fn put_count(out: &mut Vec<u8>, counted: &Counted) -> Result<(), Memory>
    ensures { OnOk result (out.new.items ≡ out.old.items ++ count_text counted.now) }
{
    let mut line = ShortText::new();
    line.put_number(b"poison count ", counted.said);
    line.put_number(b" ", counted.room);
    put_short_line(out, &mut line)
}

/// Appends why there is no plan.
pub(crate) fn put_plan_fault(
    out: &mut Vec<u8>,
    fault: &PlanFault,
    topo: &Topo,
) -> Result<(), Memory>
    requires { IsToldFault topo.now.nodes fault.now }
    ensures { OnOk result (out.new.items ≡ out.old.items ++ plan_fault_text topo.now.nodes fault.now) }
{
    match fault {
        PlanFault::Repeat(endpoint) => put_at_node(out, b"refused repeat ", *endpoint, topo),
        PlanFault::Ways(ways) => put_ways(out, *ways),
        PlanFault::Size => put_whole_text(out, b"refused size\n"),
        PlanFault::Uneven(node) => put_at_node(out, b"refused uneven ", *node, topo),
        PlanFault::NoDecoder(node) => put_at_node(out, b"refused no-decoder ", *node, topo),
        PlanFault::Span(endpoint, fault) => put_span_fault(out, *endpoint, fault, topo),
        PlanFault::NoWindow(reasons) => put_no_window(out, reasons.items(), topo),
        PlanFault::Memory => Ok(()),
    }
}

/// Appends a text, whole or not at all.
pub(crate) fn put_whole_text(out: &mut Vec<u8>, text: &[u8]) -> Result<(), Memory>
    ensures ok { OnOk result (out.new.items ≡ out.old.items ++ text.now) }
    ensures err { OnErr result (out.new.items ≡ out.old.items) }
{
    out.extend_from_slice(text)?;
    Ok(())
}

/// Ends a text as a line, and appends it, whole or not at all.
pub(crate) fn put_short_line(out: &mut Vec<u8>, text: &mut ShortText) -> Result<(), Memory>
    requires { length text.old < short_limit }
    ensures ok { OnOk result (out.new.items ≡ out.old.items ++ line text.old) }
    ensures err { OnErr result (out.new.items ≡ out.old.items) }
{
    text.put(b"\n");
    put_whole_text(out, text.bytes())
}

/// Appends words that end with a space, and a node.
fn put_at_node(out: &mut Vec<u8>, words: &[u8], node: u32, topo: &Topo) -> Result<(), Memory>
    requires few { length words.now ≤ 20 }
    requires node { node < length topo.now.nodes }
    ensures { OnOk result (out.new.items ≡ out.old.items ++ line (words.now ++ node_text topo.now.nodes node)) }
{
    let mut line = ShortText::new();
    line.put_node(words, node, topo);
    put_short_line(out, &mut line)
}

fn put_ways(out: &mut Vec<u8>, ways: u32) -> Result<(), Memory>
    ensures { OnOk result (out.new.items ≡ out.old.items ++ line (codes "refused ways " ++ decimal ways)) }
{
    let mut line = ShortText::new();
    line.put_number(b"refused ways ", ways);
    put_short_line(out, &mut line)
}

fn put_span_fault(
    out: &mut Vec<u8>,
    endpoint: u32,
    fault: &SpanFault,
    topo: &Topo,
) -> Result<(), Memory>
    requires { endpoint < length topo.now.nodes }
    ensures { OnOk result (out.new.items ≡ out.old.items
        ++ line (codes "refused span " ++ node_text topo.now.nodes endpoint ++ codes " " ++ span_text fault.now)) }
{
    let mut line = ShortText::new();
    line.put_node(b"refused span ", endpoint, topo);
    line.put(b" ");
    put_span_cause(&mut line, fault);
    put_short_line(out, &mut line)
}

fn put_span_cause(line: &mut ShortText, fault: &SpanFault)
    requires { length line.old ≤ 60 }
    ensures text { line.new ≡ line.old ++ span_text fault.now }
    ensures len { length line.new ≤ length line.old + 60 }
{
    match fault {
        SpanFault::NoDecoder => line.put(b"no-decoder"),
        SpanFault::PastRam(cursor) => line.put_hex(b"past-ram ", *cursor),
        SpanFault::NoRoom(room) => put_room(line, b"no-room ", room),
    }
}

/// Appends a word that ends with a space, and where a span or a region would lie.
fn put_room(line: &mut ShortText, word: &[u8], room: &Room)
    requires before { length line.old ≤ 60 }
    requires word { length word.now ≤ 10 }
    ensures text { line.new ≡ line.old ++ (word.now ++ hex_text room.now.start ++ codes " " ++ hex_text room.now.limit) }
    ensures len { length line.new ≤ length line.old + 60 }
{
    line.put_hex(word, room.start);
    line.put_hex(b" ", room.limit);
}

fn put_no_window(out: &mut Vec<u8>, reasons: &[Reason], topo: &Topo) -> Result<(), Memory>
    requires { All (IsToldReason topo.now.nodes) reasons.now }
    ensures { OnOk result (out.new.items ≡ out.old.items
        ++ (line (codes "refused no-window") ++ flat_map (window_text topo.now.nodes) (enumerate_from 0 reasons.now))) }
{
    put_whole_text(out, b"refused no-window\n")?;
    put_windows(out, reasons, topo)?;
    Ok(())
}

/// Appends a line for each window.
fn put_windows(out: &mut Vec<u8>, reasons: &[Reason], topo: &Topo) -> Result<(), Memory>
    requires { All (IsToldReason topo.now.nodes) reasons.now }
    ensures { OnOk result (out.new.items ≡ out.old.items ++ flat_map (window_text topo.now.nodes) (enumerate_from 0 reasons.now)) }
{
    for (index, reason) in reasons.iter().enumerate() {
        put_window(out, index, reason, topo)?;
    }
    Ok(())
}

fn put_window(out: &mut Vec<u8>, index: usize, reason: &Reason, topo: &Topo) -> Result<(), Memory>
    requires { IsToldReason topo.now.nodes reason.now }
    ensures { OnOk result (out.new.items ≡ out.old.items ++ window_text topo.now.nodes (index, reason.now)) }
{
    let mut line = ShortText::new();
    line.put_long_number(b"window ", index as u64);
    line.put(b" ");
    put_reason(&mut line, reason, topo);
    put_short_line(out, &mut line)
}

fn put_reason(line: &mut ShortText, reason: &Reason, topo: &Topo)
    requires before { length line.old ≤ 60 }
    requires told { IsToldReason topo.now.nodes reason.now }
    ensures text { line.new ≡ line.old ++ reason_text topo.now.nodes reason.now }
    ensures len { length line.new ≤ length line.old + 60 }
{
    match reason {
        Reason::Unusable => line.put(b"unusable"),
        Reason::Kind => line.put(b"kind"),
        Reason::Fixed => line.put(b"fixed"),
        Reason::Bridges => line.put(b"bridges"),
        Reason::Gran => line.put(b"gran"),
        Reason::Select(node) => line.put_node(b"select ", *node, topo),
        Reason::WaysCap(node) => line.put_node(b"ways-cap ", *node, topo),
        Reason::NoBase(room) => put_room(line, b"no-base ", room),
    }
}
