//! The text of a plan.

ghost use Rattle.std.specs.Prelude.{◌≡◌, ◌<◌, ◌≤◌, ◌++◌, All, codes, decimal, length, OnOk, OnErr};
ghost use Rattle.std.specs.List.{flat_map};
ghost use Rattle.cxl_regs.specs.Reading.{entries_of};
ghost use Rattle.cxl_topo.specs.Tree.{is_endpoint_at};
ghost use Rattle.cxl_reply.specs.Words.{node_text};
ghost use Rattle.cxl_reply.specs.Plans.{plan_head_text, more_ports_text, ports_text, tail_text, decoder_text, planned_text, plan_text, IsToldRow, IsToldPlan};

use crate::refusal::put_whole_text;
use crate::region::put_head;
use crate::short_text::ShortText;
use crate::words::put_address;
use cxl_enc::Memory;
use cxl_io::put_number;
use cxl_model::{Plan, Row};
use cxl_regs::Decoder;
use cxl_topo::{NodeKind, Topo};

/// Appends the text of a plan: a line for the region, and one for each decoder that makes it. After
/// `Memory` the text is as before. (This project's rule.) Takes memory.
pub fn put_plan(out: &mut Vec<u8>, plan: &Plan, topo: &Topo) -> Result<(), Memory>
    requires { IsToldPlan topo.now.nodes plan.now }
    ensures ok { OnOk result (out.new.items ≡ out.old.items ++ plan_text topo.now.nodes plan.now) }
    ensures err { OnErr result (out.new.items ≡ out.old.items) }
{
    let mut text = Vec::new(*out.allocator());
    put_plan_lines(&mut text, plan, topo)?;
    put_whole_text(out, &text)
}

fn put_plan_lines(out: &mut Vec<u8>, plan: &Plan, topo: &Topo) -> Result<(), Memory>
    requires { IsToldPlan topo.now.nodes plan.now }
    ensures { OnOk result (out.new.items ≡ out.old.items ++ plan_text topo.now.nodes plan.now) }
{
    put_plan_head(out, plan)?;
    put_plan_rows(out, plan.rows.items(), topo)
}

fn put_plan_head(out: &mut Vec<u8>, plan: &Plan) -> Result<(), Memory>
    requires { plan.now.found.gran ≤ 6 }
    ensures { OnOk result (out.new.items ≡ out.old.items ++ plan_head_text plan.now) }
{
    put_head(out, b"plan ", &plan.name, &plan.found)
}

fn put_plan_rows(out: &mut Vec<u8>, rows: &[Row], topo: &Topo) -> Result<(), Memory>
    requires { All (IsToldRow topo.now.nodes) rows.now }
    ensures { OnOk result (out.new.items ≡ out.old.items ++ flat_map (planned_text topo.now.nodes) rows.now) }
{
    for row in rows {
        put_planned(out, row, topo)?;
    }
    Ok(())
}

fn put_planned(out: &mut Vec<u8>, row: &Row, topo: &Topo) -> Result<(), Memory>
    requires { IsToldRow topo.now.nodes row.now }
    ensures { OnOk result (out.new.items ≡ out.old.items ++ planned_text topo.now.nodes row.now) }
{
    put_planned_head(out, row, topo)?;
    put_tail(out, is_endpoint(row.node, topo), &row.decoder)?;
    put_whole_text(out, b"\n")
}

/// Appends a decoder of a node, with its ways and its granularity.
fn put_planned_head(out: &mut Vec<u8>, row: &Row, topo: &Topo) -> Result<(), Memory>
    requires { IsToldRow topo.now.nodes row.now }
    ensures { OnOk result (out.new.items ≡ out.old.items
        ++ (codes "row " ++ node_text topo.now.nodes row.now.node ++ codes " " ++ decimal row.now.index ++ decoder_text row.now.decoder)) }
{
    let mut head = ShortText::new();
    head.put_node(b"row ", row.node, topo);
    head.put_number(b" ", u32::from(row.index));
    put_decoder(&mut head, &row.decoder);
    put_whole_text(out, head.bytes())
}

fn is_endpoint(node: u32, topo: &Topo) -> bool
    requires { node < length topo.now.nodes }
    ensures { result ≡ is_endpoint_at topo.now.nodes node }
{
    matches!(topo.node(node).kind, NodeKind::Endpoint(_))
}

fn put_decoder(text: &mut ShortText, decoder: &Decoder)
    requires room { length text.old ≤ 60 }
    requires gran { decoder.now.gran < 16 }
    ensures { text.new ≡ text.old ++ decoder_text decoder.now }
{
    text.put_number(b" ways ", u32::from(decoder.interleave_ways()));
    text.put_number(b" gran ", decoder.interleave_granularity());
}

/// Appends a port's target list, or an endpoint's skip, each behind its word. Takes memory.
pub fn put_tail(out: &mut Vec<u8>, endpoint: bool, decoder: &Decoder) -> Result<(), Memory>
    ensures { OnOk result (out.new.items ≡ out.old.items ++ tail_text endpoint decoder.now) }
{
    if endpoint {
        put_whole_text(out, b" skip ")?;
        put_address(out, decoder.tail)
    } else {
        put_whole_text(out, b" targets ")?;
        put_ports(out, decoder)
    }
}

/// Appends the ports that a decoder lists, with commas between.
fn put_ports(out: &mut Vec<u8>, decoder: &Decoder) -> Result<(), Memory>
    ensures { OnOk result (out.new.items ≡ out.old.items ++ ports_text (entries_of decoder.now)) }
{
    put_number(out, u64::from(decoder.entry_at(0)))?;
    for entry in 1..decoder.interleave_ways() {
        out.push(b',')?;
        put_number(out, u64::from(decoder.entry_at(entry)))?;
    }
    Ok(())
}
