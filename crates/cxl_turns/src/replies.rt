//! How a reply is written.

ghost use Rattle.std.specs.Prelude.{◌≤◌};
ghost use Rattle.cxl_reply.specs.Conditions.{IsTold};
ghost use Rattle.cxl_turns.specs.inner.Written.{WritesText, WritesReply};

use crate::stops::LineStop;
use cxl_enc::{Failed, Memory};
use cxl_io::{Lines, Sink, write_all};
use cxl_reply::Reply;
use cxl_text::{fixed_text, has_short_text, put_long, short};
use cxl_topo::Topo;

/// Writes the text of a reply in one write, with the block of `lines` as the place for it. A reply to a command that changed something, or
/// that met a fault of the bus, takes no memory, so that it can be told where none is left.
pub(crate) fn write_reply<K: Sink>(
    reply: &Reply,
    topo: &Topo,
    lines: &mut Lines<0>,
    out: &mut K,
) -> Result<(), LineStop>
    requires { IsTold topo.now.nodes reply.now }
    ensures told { WritesReply topo.now.nodes (K.state out.old) (K.state out.new) reply.now result }
    ensures counts { (K.state out.old).faults ≤ (K.state out.new).faults }
{
    if has_short_text(reply) {
        return match short(reply) {
            Some(short) => write_text(short.bytes(), out),
            None => unreachable!(),
        };
    }
    if let Some(fixed) = fixed_text(reply) {
        return write_text(fixed, out);
    }
    lines.block.clear();
    match put_long(&mut lines.block, reply, topo) {
        Ok(()) => write_text(&lines.block, out),
        Err(Memory) => Err(LineStop::Memory),
    }
}

/// Writes a text.
fn write_text<K: Sink>(text: &[u8], out: &mut K) -> Result<(), LineStop>
    ensures told { WritesText (K.state out.old) (K.state out.new) text.now result }
    ensures counts { (K.state out.old).faults ≤ (K.state out.new).faults }
{
    match write_all(out, text) {
        Ok(()) => Ok(()),
        Err(Failed) => Err(LineStop::Sink),
    }
}
