//! The place of a reply.

ghost use Rattle.std.specs.Prelude.{◌≡◌};

use cxl_reply::Reply;

/// Puts a reply in the place of one to an earlier command. That one is let go here alone, since a reply may own lists of many kinds.
pub(crate) fn put_reply(place: &mut Reply, reply: Reply)
    ensures { place.new ≡ reply }
{
    *place = reply;
}
