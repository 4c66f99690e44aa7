//! The texts of places: where addresses go, extents, spreads and bytes.

ghost use Rattle.std.specs.Prelude.{◌≡◌, ◌+◌, ◌<◌, ◌≤◌, ◌++◌, All, length, map, OnOk};
ghost use Rattle.cxl_reply.specs.Words.{more_spaced};
ghost use Rattle.cxl_reply.specs.Texts.{via_text, vias_text, down_head_text, down_end_text, down_text, up_text, loaded_text, extent_bytes_text, extent_text, extents_text, share_text, shares_text, spread_text};
ghost use Rattle.cxl_reply.specs.Conditions.{IsToldDown, IsToldExtents, AreToldSlots};

use crate::digits::put_bytes;
use crate::refusal::{put_short_line, put_whole_text};
use crate::short_text::ShortText;
use cxl_enc::Memory;
use cxl_model::Extent;
use cxl_reply::{Downed, Extents, Spread, Upped, Via};
use cxl_topo::Topo;

/// Appends where a host address goes.
pub(crate) fn put_down(out: &mut Vec<u8>, downed: &Downed, topo: &Topo) -> Result<(), Memory>
    requires { IsToldDown topo.now.nodes downed.now }
    ensures { OnOk result (out.new.items ≡ out.old.items ++ down_text topo.now.nodes downed.now) }
{
    put_down_head(out, downed)?;
    put_vias(out, &downed.via[..usize::from(downed.len)], topo)?;
    put_down_end(out, downed, topo)
}

fn put_down_head(out: &mut Vec<u8>, downed: &Downed) -> Result<(), Memory>
    ensures { OnOk result (out.new.items ≡ out.old.items ++ down_head_text downed.now) }
{
    let mut head = ShortText::new();
    head.put_hex(b"down ", downed.h);
    head.put_name(b" region ", &downed.name);
    head.put_number(b" slot ", downed.slot);
    head.put_number(b" position ", downed.position);
    head.put(b" via ");
    put_whole_text(out, head.bytes())
}

fn put_down_end(out: &mut Vec<u8>, downed: &Downed, topo: &Topo) -> Result<(), Memory>
    requires { downed.now.endpoint < length topo.now.nodes }
    ensures { OnOk result (out.new.items ≡ out.old.items ++ down_end_text topo.now.nodes downed.now) }
{
    let mut end = ShortText::new();
    end.put_node(b" endpoint ", downed.endpoint, topo);
    end.put_hex(b" dpa ", downed.dpa);
    put_short_line(out, &mut end)
}

/// Appends the ports on the way with spaces between, or a dash where there is none.
fn put_vias(out: &mut Vec<u8>, vias: &[Via], topo: &Topo) -> Result<(), Memory>
    requires { All (λ via. via.node < length topo.now.nodes) vias.now }
    ensures { OnOk result (out.new.items ≡ out.old.items ++ vias_text topo.now.nodes vias.now) }
{
    match vias {
        [] => {
            out.push(b'-')?;
            Ok(())
        }
        [first, others @ ..] => {
            put_via(out, b"", first, topo)?;
            put_more_vias(out, others, topo)
        }
    }
}

/// Appends ports on the way, each behind a space.
fn put_more_vias(out: &mut Vec<u8>, vias: &[Via], topo: &Topo) -> Result<(), Memory>
    requires { All (λ via. via.node < length topo.now.nodes) vias.now }
    ensures { OnOk result (out.new.items ≡ out.old.items ++ more_spaced (map (via_text topo.now.nodes) vias.now)) }
{
    for via in vias {
        put_via(out, b" ", via, topo)?;
    }
    Ok(())
}

/// Appends a port on the way behind what parts it from the one before.
fn put_via(out: &mut Vec<u8>, before: &[u8], via: &Via, topo: &Topo) -> Result<(), Memory>
    requires few { length before.now ≤ 1 }
    requires node { via.now.node < length topo.now.nodes }
    ensures { OnOk result (out.new.items ≡ out.old.items ++ (before.now ++ via_text topo.now.nodes via.now)) }
{
    let mut text = ShortText::new();
    text.put_node(before, via.node, topo);
    text.put_number(b":", u32::from(via.decoder));
    text.put_number(b":", u32::from(via.entry));
    put_whole_text(out, text.bytes())
}

/// Appends which host address goes to a device byte.
pub(crate) fn put_up(out: &mut Vec<u8>, upped: &Upped) -> Result<(), Memory>
    ensures { OnOk result (out.new.items ≡ out.old.items ++ up_text upped.now) }
{
    let mut line = ShortText::new();
    line.put_hex(b"host ", upped.h);
    line.put_name(b" region ", &upped.name);
    put_short_line(out, &mut line)
}

/// Appends bytes in hexadecimal digits.
pub(crate) fn put_loaded(out: &mut Vec<u8>, bytes: &[u8]) -> Result<(), Memory>
    ensures { OnOk result (out.new.items ≡ out.old.items ++ loaded_text bytes.now) }
{
    put_whole_text(out, b"bytes ")?;
    put_bytes(out, bytes)?;
    put_whole_text(out, b"\n")
}

/// Appends a line for each extent.
pub(crate) fn put_extents(out: &mut Vec<u8>, extents: &Extents, topo: &Topo) -> Result<(), Memory>
    requires { IsToldExtents topo.now.nodes extents.now }
    ensures { OnOk result (out.new.items ≡ out.old.items ++ extents_text topo.now.nodes extents.now) }
{
    let endpoints = extents.endpoints.items();
    for extent in extents.extents.items() {
        put_extent(out, extent, endpoints, topo)?;
    }
    Ok(())
}

fn put_extent(
    out: &mut Vec<u8>,
    extent: &Extent,
    endpoints: &[u32],
    topo: &Topo,
) -> Result<(), Memory>
    requires slot { extent.now.slot < length endpoints.now }
    requires endpoints { All (λ n. n < length topo.now.nodes) endpoints.now }
    ensures { OnOk result (out.new.items ≡ out.old.items ++ extent_text topo.now.nodes endpoints.now extent.now) }
{
    let mut line = ShortText::new();
    put_extent_bytes(&mut line, extent);
    line.put_node(b" ", endpoints[extent.slot as usize], topo);
    line.put_hex(b" ", extent.dpa);
    put_short_line(out, &mut line)
}

/// Appends the host bytes of an extent.
#[tactic(auto, unfolding(cxl_reply::specs::Texts::extent_bytes_text))]
fn put_extent_bytes(line: &mut ShortText, extent: &Extent)
    requires { length line.old ≤ 60 }
    ensures text { line.new ≡ line.old ++ extent_bytes_text extent.now }
    ensures len { length line.new ≤ length line.old + 36 }
{
    line.put_hex(b"extent ", extent.h);
    line.put_number(b" ", extent.len);
}

/// Appends a line for each slot.
pub(crate) fn put_spread(out: &mut Vec<u8>, spread: &Spread, topo: &Topo) -> Result<(), Memory>
    requires { AreToldSlots topo.now.nodes spread.now.endpoints }
    ensures { OnOk result (out.new.items ≡ out.old.items ++ spread_text topo.now.nodes spread.now) }
{
    put_shares(out, spread.endpoints.items(), &spread.bytes, topo)
}

fn put_shares(
    out: &mut Vec<u8>,
    endpoints: &[u32],
    bytes: &[u64],
    topo: &Topo,
) -> Result<(), Memory>
    requires few { length endpoints.now ≤ length bytes.now }
    requires endpoints { All (λ n. n < length topo.now.nodes) endpoints.now }
    ensures { OnOk result (out.new.items ≡ out.old.items ++ shares_text topo.now.nodes endpoints.now bytes.now) }
{
    for (slot, endpoint) in endpoints.iter().enumerate() {
        put_share(out, slot, *endpoint, bytes[slot], topo)?;
    }
    Ok(())
}

fn put_share(
    out: &mut Vec<u8>,
    slot: usize,
    endpoint: u32,
    bytes: u64,
    topo: &Topo,
) -> Result<(), Memory>
    requires { endpoint < length topo.now.nodes }
    ensures { OnOk result (out.new.items ≡ out.old.items ++ share_text topo.now.nodes (slot, (endpoint, bytes))) }
{
    let mut line = ShortText::new();
    line.put_long_number(b"slot ", slot as u64);
    line.put_node(b" ", endpoint, topo);
    line.put_long_number(b" ", bytes);
    put_short_line(out, &mut line)
}
