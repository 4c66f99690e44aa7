//! The text of each reply.

ghost use Rattle.std.specs.Prelude.{◌≡◌, ◌++◌, [], false, OnOk, OnErr};
ghost use Rattle.cxl_reply.specs.Conditions.{IsTold, HasKnownCode};
ghost use Rattle.cxl_reply.specs.Replies.{reply_text, has_short_text};

use crate::fixed::put_fixed;
use crate::places::{put_down, put_extents, put_loaded, put_spread, put_up};
use crate::poison::put_report;
use crate::refusal::{
    put_bad_line, put_count, put_full, put_named, put_plan_fault, put_sizes, put_spot,
    put_whole_text,
};
use crate::region::put_shown;
use crate::short_lines::{has_short_text, short};
use cxl_enc::Memory;
use cxl_reply::Reply;
use cxl_topo::Topo;

/// Appends the text of a reply, in which nodes stand by their names in the topology. After `Memory` the
/// text is as before. (This project's rule.) Takes memory.
pub fn put_reply(reply: &Reply, topo: &Topo, out: &mut Vec<u8>) -> Result<(), Memory>
    requires { IsTold topo.now.nodes reply.now }
    ensures ok { OnOk result (out.new.items ≡ out.old.items ++ reply_text topo.now.nodes reply.now) }
    ensures err { OnErr result (out.new.items ≡ out.old.items) }
{
    // Asked for by its kind first, since the place for a short text is dear to clear.
    if has_short_text(reply) {
        return match short(reply) {
            Some(text) => put_whole_text(out, text.bytes()),
            None => unreachable!(),
        };
    }
    if out.is_empty() {
        put_first(out, reply, topo)
    } else {
        put_behind(out, reply, topo)
    }
}

/// Appends the text of a reply that has no short text, whole or not at all.
fn put_behind(out: &mut Vec<u8>, reply: &Reply, topo: &Topo) -> Result<(), Memory>
    requires told { IsTold topo.now.nodes reply.now }
    requires long { has_short_text reply.now ≡ false }
    ensures ok { OnOk result (out.new.items ≡ out.old.items ++ reply_text topo.now.nodes reply.now) }
    ensures err { OnErr result (out.new.items ≡ out.old.items) }
{
    let mut text = Vec::new(*out.allocator());
    put_long(&mut text, reply, topo)?;
    put_whole_text(out, &text)
}

/// Puts the text of a reply that has no short text where none is yet, in the room that is there.
fn put_first(out: &mut Vec<u8>, reply: &Reply, topo: &Topo) -> Result<(), Memory>
    requires told { IsTold topo.now.nodes reply.now }
    requires long { has_short_text reply.now ≡ false }
    requires none { out.old.items ≡ [] }
    ensures ok { OnOk result (out.new.items ≡ reply_text topo.now.nodes reply.now) }
    ensures err { OnErr result (out.new.items ≡ []) }
{
    let put = put_long(out, reply, topo);
    if put.is_err() {
        out.clear();
    }
    put
}

/// Appends the text of a reply that has no short text. After `Memory` a part of it may be appended. (This project's rule.)
/// Takes memory.
pub fn put_long(out: &mut Vec<u8>, reply: &Reply, topo: &Topo) -> Result<(), Memory>
    requires told { IsTold topo.now.nodes reply.now }
    requires long { has_short_text reply.now ≡ false }
    ensures { OnOk result (out.new.items ≡ out.old.items ++ reply_text topo.now.nodes reply.now) }
{
    match reply {
        Reply::Shown(shown) => put_shown(out, shown, topo),
        Reply::Down(downed) => put_down(out, downed, topo),
        Reply::Up(upped) => put_up(out, upped),
        Reply::Loaded(bytes) => put_loaded(out, bytes.items()),
        Reply::Poison(report) => put_report(out, report, topo),
        Reply::Extents(extents) => put_extents(out, extents, topo),
        Reply::Spread(spread) => put_spread(out, spread, topo),
        Reply::Refused(fault) => put_plan_fault(out, fault, topo),
        Reply::Locked(spot) => put_spot(out, b"locked", spot, topo),
        Reply::NotLast(spot) => put_spot(out, b"not last", spot, topo),
        Reply::BadLine(fault) => put_bad_line(out, fault),
        Reply::Busy(name) => put_named(out, b"busy", name),
        Reply::NameTaken(name) => put_named(out, b"name taken", name),
        Reply::NoRegion(name) => put_named(out, b"no such region", name),
        Reply::NoEndpoint(name) => put_named(out, b"no such endpoint", name),
        Reply::SameRegion(name) => put_named(out, b"same region", name),
        Reply::Full(lack) => put_full(out, lack),
        Reply::SizesDiffer(sizes) => put_sizes(out, sizes),
        Reply::PoisonCount(counted) => put_count(out, counted),
        Reply::RegionsFull
        | Reply::Unmapped
        | Reply::CrossesEnd
        | Reply::NoSet
        | Reply::PoisonShort
        | Reply::BusRead
        | Reply::NothingPending => put_fixed(out, reply),
        Reply::Created(_)
        | Reply::Destroyed(_)
        | Reply::Stored(_)
        | Reply::Begun(_)
        | Reply::Stepped(_)
        | Reply::Aborted(_)
        | Reply::Copied(_)
        | Reply::Moved(_)
        | Reply::BusUndone
        | Reply::BusPending(_) => Ok(()),
    }
}
