//! The node that each table of a file states.

ghost use Rattle.std.specs.Prelude.{◌≡◌, Ok, IfOk, IsTrue, if◌then◌else◌};
ghost use Rattle.cxl_enc.specs.Caps.{are_caps, word_of};
ghost use Rattle.cxl_enc.specs.Limits.{placeholder_cap};
ghost use Rattle.toml.specs.View.{table_view};
ghost use Rattle.cxl_topofile.specs.Drafts.{known_in, bridge_keys, switch_keys, endpoint_keys, port_caps_of, port_of, bridge_of, switch_of, endpoint_cap_of, endpoint_of};
ghost use Rattle.cxl_topofile.specs.inner.Fields.{members_of, AreFields};
ghost use Rattle.cxl_topofile.specs.inner.Steps.{caps_of, seat_of, capacity_of};

use crate::fault::Wrong;
use crate::fields::{Fields, fields_of};
use crate::key::Key;
use crate::value::{decoders, flag, name, number, targets};
use cxl_enc::{ADDRESS_LIMIT, PLACEHOLDER_CAP};
use cxl_topo::{Capacity, Caps, Name, Node, NodeKind, cap_word};
use toml::Table;

/// The most that a 32-bit number holds.
const MAX_UID: u64 = 4_294_967_295;

const MAX_PORT: u64 = 255;

const BRIDGE_KEYS: [Key; 7] = [
    Key::Name,
    Key::Uid,
    Key::Decoders,
    Key::Targets,
    Key::Low,
    Key::High,
    Key::Passthrough,
];

const SWITCH_KEYS: [Key; 8] = [
    Key::Name,
    Key::Parent,
    Key::Port,
    Key::Decoders,
    Key::Targets,
    Key::Low,
    Key::High,
    Key::Passthrough,
];

const ENDPOINT_KEYS: [Key; 10] = [
    Key::Name,
    Key::Parent,
    Key::Port,
    Key::Decoders,
    Key::Low,
    Key::High,
    Key::Ways3,
    Key::Ways16,
    Key::Ram,
    Key::Pmem,
];

/// A switch or an endpoint as its table states it, before its parent is looked up.
#[derive(Clone, Copy)]
pub(crate) struct Draft {
    pub name: Name,
    pub kind: NodeKind,
    /// The name of the node above, and the port there.
    pub parent: Name,
    pub port: u8,
    pub cap: u32,
    pub forwards: bool,
}

/// The capability word of a bridge or a switch, and whether it forwards.
#[derive(Clone, Copy)]
pub(crate) struct PortCaps {
    pub cap: u32,
    pub forwards: bool,
}

fn read_port_caps(fields: &Fields<'_>) -> Result<PortCaps, Wrong>
    requires { AreFields fields.now }
    ensures { result ≡ port_caps_of (members_of fields.now) }
{
    let caps = read_caps(fields)?;
    let forwards = flag(fields, Key::Passthrough, false)?;
    Ok(port_caps(&caps, forwards))
}

/// The capabilities that the keys of a bridge or a switch say.
#[tactic(auto, unfolding(crate::specs::inner::Steps::caps_of))]
fn read_caps(fields: &Fields<'_>) -> Result<Caps, Wrong>
    requires { AreFields fields.now }
    ensures caps { result ≡ caps_of (members_of fields.now) }
    ensures sound { IfOk result (λ caps. IsTrue (are_caps caps)) }
{
    Ok(Caps {
        decoders: decoders(fields)?,
        targets: targets(fields)?,
        low: flag(fields, Key::Low, true)?,
        high: flag(fields, Key::High, true)?,
        ways3: false,
        ways16: false,
    })
}

/// The word of these capabilities, or a placeholder's where the node forwards.
fn port_caps(caps: &Caps, forwards: bool) -> PortCaps
    requires { IsTrue (are_caps caps.now) }
    ensures cap { result.cap ≡ (if forwards then placeholder_cap else word_of caps.now) }
    ensures forwards { result.forwards ≡ forwards }
{
    let cap = if forwards {
        PLACEHOLDER_CAP
    } else {
        cap_word(caps)
    };
    PortCaps { cap, forwards }
}

fn read_port(fields: &Fields<'_>) -> Result<u8, Wrong>
    requires { AreFields fields.now }
    ensures { result ≡ port_of (members_of fields.now) }
{
    let port = number(fields, Key::Port, None, 0, MAX_PORT)?;
    Ok(port as u8)
}

/// The name of a switch or an endpoint, the name of the node above, and the port there.
#[derive(Clone, Copy)]
pub(crate) struct Seat {
    pub name: Name,
    pub parent: Name,
    pub port: u8,
}

#[tactic(auto, unfolding(crate::specs::inner::Steps::seat_of))]
fn read_seat(fields: &Fields<'_>) -> Result<Seat, Wrong>
    requires { AreFields fields.now }
    ensures { result ≡ seat_of (members_of fields.now) }
{
    Ok(Seat {
        name: name(fields, Key::Name)?,
        parent: name(fields, Key::Parent)?,
        port: read_port(fields)?,
    })
}

/// The bridge of a table.
pub(crate) fn read_bridge(table: &Table) -> Result<Node, Wrong>
    ensures { result ≡ bridge_of (table_view table.now) }
{
    let fields = fields_of(table, &BRIDGE_KEYS)?;
    bridge_from(&fields)
}

/// The bridge of these fields.
#[tactic(auto, unfolding(crate::specs::Drafts::bridge_of))]
fn bridge_from(fields: &Fields<'_>) -> Result<Node, Wrong>
    requires fields { AreFields fields.now }
    requires known { known_in (members_of fields.now) bridge_keys ≡ Ok tt }
    ensures { result ≡ bridge_of (members_of fields.now) }
{
    let name = name(fields, Key::Name)?;
    let uid = number(fields, Key::Uid, None, 0, MAX_UID)?;
    let caps = read_port_caps(fields)?;
    Ok(Node {
        name,
        kind: NodeKind::Bridge(uid as u32),
        parent: None,
        cap: caps.cap,
        forwards: caps.forwards,
    })
}

/// The switch of a table.
pub(crate) fn read_switch(table: &Table) -> Result<Draft, Wrong>
    ensures { result ≡ switch_of (table_view table.now) }
{
    let fields = fields_of(table, &SWITCH_KEYS)?;
    switch_from(&fields)
}

/// The switch of these fields.
fn switch_from(fields: &Fields<'_>) -> Result<Draft, Wrong>
    requires fields { AreFields fields.now }
    requires known { known_in (members_of fields.now) switch_keys ≡ Ok tt }
    ensures { result ≡ switch_of (members_of fields.now) }
{
    let seat = read_seat(fields)?;
    let caps = read_port_caps(fields)?;
    Ok(Draft {
        name: seat.name,
        kind: NodeKind::Switch,
        parent: seat.parent,
        port: seat.port,
        cap: caps.cap,
        forwards: caps.forwards,
    })
}

#[tactic(auto, unfolding(crate::specs::Drafts::endpoint_cap_of))]
fn read_endpoint_cap(fields: &Fields<'_>) -> Result<u32, Wrong>
    requires { AreFields fields.now }
    ensures { result ≡ endpoint_cap_of (members_of fields.now) }
{
    let caps = Caps {
        decoders: decoders(fields)?,
        targets: 0,
        low: flag(fields, Key::Low, true)?,
        high: flag(fields, Key::High, true)?,
        ways3: flag(fields, Key::Ways3, true)?,
        ways16: flag(fields, Key::Ways16, true)?,
    };
    Ok(cap_word(&caps))
}

/// The endpoint of a table.
pub(crate) fn read_endpoint(table: &Table) -> Result<Draft, Wrong>
    ensures { result ≡ endpoint_of (table_view table.now) }
{
    let fields = fields_of(table, &ENDPOINT_KEYS)?;
    endpoint_from(&fields)
}

/// The endpoint of these fields.
fn endpoint_from(fields: &Fields<'_>) -> Result<Draft, Wrong>
    requires fields { AreFields fields.now }
    requires known { known_in (members_of fields.now) endpoint_keys ≡ Ok tt }
    ensures { result ≡ endpoint_of (members_of fields.now) }
{
    let seat = read_seat(fields)?;
    let cap = read_endpoint_cap(fields)?;
    let capacity = read_capacity(fields)?;
    Ok(Draft {
        name: seat.name,
        kind: NodeKind::Endpoint(capacity),
        parent: seat.parent,
        port: seat.port,
        cap,
        forwards: false,
    })
}

#[tactic(auto, unfolding(crate::specs::inner::Steps::capacity_of))]
fn read_capacity(fields: &Fields<'_>) -> Result<Capacity, Wrong>
    requires { AreFields fields.now }
    ensures { result ≡ capacity_of (members_of fields.now) }
{
    let ram = number(fields, Key::Ram, Some(0), 0, ADDRESS_LIMIT)?;
    let pmem = number(fields, Key::Pmem, Some(0), 0, ADDRESS_LIMIT)?;
    Ok(Capacity { ram, pmem })
}
