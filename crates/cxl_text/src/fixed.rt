//! The texts of replies that name nothing, which take no memory.

ghost use Rattle.std.specs.Prelude.{◌≡◌, ◌++◌, List, is_some, true, IfSome, IsSome, OnOk, OnErr};
ghost use Rattle.cxl_topo.specs.declared.node.Node.{Node};
ghost use Rattle.cxl_reply.specs.declared.reply.Reply.TheVariants as replies;
ghost use Rattle.cxl_reply.specs.Replies.{reply_text};
ghost use Rattle.cxl_text.specs.Fixed.{has_fixed_text};

use crate::refusal::put_whole_text;
use cxl_enc::Memory;
use cxl_reply::Reply;

/// The text of a reply that names nothing and changed nothing: unmapped, crosses end, regions full, no set, poison short,
/// bus fault read and nothing pending. `None` for every other reply. It takes no memory.
pub fn fixed_text(reply: &Reply) -> Option<&'static [u8]>
    ensures which { is_some result ≡ has_fixed_text reply.now }
    // That a read failed is told without memory.
    ensures bus_read { reply.now ≡ replies.BusRead → IsSome result }
    ensures text { (nodes : List Node) → IfSome result (λ text. text.now ≡ reply_text nodes reply.now) }
{
    match reply {
        Reply::Unmapped => Some(b"unmapped\n"),
        Reply::CrossesEnd => Some(b"crosses end\n"),
        Reply::RegionsFull => Some(b"regions full\n"),
        Reply::NoSet => Some(b"refused no-set\n"),
        Reply::PoisonShort => Some(b"poison short\n"),
        Reply::BusRead => Some(b"bus fault read\n"),
        Reply::NothingPending => Some(b"nothing pending\n"),
        _ => None,
    }
}

/// Appends such a text, whole or not at all.
pub(crate) fn put_fixed(out: &mut Vec<u8>, reply: &Reply) -> Result<(), Memory>
    requires { has_fixed_text reply.now ≡ true }
    ensures ok { (nodes : List Node) → OnOk result (out.new.items ≡ out.old.items ++ reply_text nodes reply.now) }
    ensures err { OnErr result (out.new.items ≡ out.old.items) }
{
    match fixed_text(reply) {
        Some(text) => put_whole_text(out, text),
        None => Ok(()),
    }
}
