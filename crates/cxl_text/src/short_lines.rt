//! The texts of replies to what changed something, which take no memory.

ghost use Rattle.std.specs.Prelude.{◌≡◌, ◌≤◌, ◌++◌, ◌∷◌, List, length, codes, is_some, IfSome};
ghost use Rattle.cxl_reply.specs.Words.{line};
ghost use Rattle.cxl_topo.specs.declared.node.Node.{Node};
ghost use Rattle.cxl_text.specs.Short.{short_limit};
ghost use Rattle.cxl_reply.specs.Conditions.{HasKnownCode};
ghost use Rattle.cxl_reply.specs.Texts.{created_text, stored_text, begun_text, stepped_text, progress_text, carried_text};
ghost use Rattle.cxl_reply.specs.Refusals.{named_text, pending_text};
ghost use Rattle.cxl_reply.specs.Replies.{reply_text, has_short_text};

use crate::short_text::ShortText;
use cxl_enc::Name;
use cxl_reply::{Begun, Carried, Named, Pending, Progress, Reply};

/// The text of a reply to a command that changed something, or whose register writes the bus stopped:
/// created, destroyed, stored, begun, stepped, aborted, copied, moved, bus fault undone and bus fault
/// pending. `None` for every other reply. It takes no memory, so that what was done can be told even
/// where none is left.
pub fn short(reply: &Reply) -> Option<ShortText>
    requires { HasKnownCode reply.now }
    ensures which { is_some result ≡ has_short_text reply.now }
    ensures text { (nodes : List Node) → IfSome result (λ text. text ≡ reply_text nodes reply.now) }
{
    // Each line is made in a function of its own that stays one, so that a reply without a line clears no room for it.
    match reply {
        Reply::Created(named) => Some(created(named)),
        Reply::Destroyed(name) => Some(named_line(b"destroyed", name)),
        Reply::Stored(len) => Some(stored(*len)),
        Reply::Begun(begun) => Some(begun_line(begun)),
        Reply::Stepped(progress) => Some(stepped(progress)),
        Reply::Aborted(name) => Some(named_line(b"aborted", name)),
        Reply::Copied(carried) => Some(carried_line(b"copied", carried)),
        Reply::Moved(carried) => Some(carried_line(b"moved", carried)),
        Reply::BusUndone => Some(undone()),
        Reply::BusPending(pending) => Some(pending_line(pending)),
        _ => None,
    }
}

/// Whether a reply has a short text, which `short` gives. Takes no memory.
pub fn has_short_text(reply: &Reply) -> bool
    ensures { result ≡ has_short_text reply.now }
{
    match reply {
        Reply::Created(_)
        | Reply::Destroyed(_)
        | Reply::Stored(_)
        | Reply::Begun(_)
        | Reply::Stepped(_)
        | Reply::Aborted(_)
        | Reply::Copied(_)
        | Reply::Moved(_)
        | Reply::BusUndone
        | Reply::BusPending(_) => true,
        _ => false,
    }
}

#[inline(never)]
fn created(named: &Named) -> ShortText
    requires { named.now.gran ≤ 6 }
    ensures { result ≡ created_text named.now }
{
    let mut text = ShortText::new();
    text.put_name(b"created ", &named.name);
    text.put(b" ");
    text.put_layout(named.window, named.base, named.size, named.gran, named.ways);
    text.put(b"\n");
    text
}

/// A word and a name.
#[inline(never)]
pub(crate) fn named_line(word: &[u8], name: &Name) -> ShortText
    requires { length word.now ≤ 20 }
    ensures { result ≡ named_text word.now name.now }
{
    let mut text = ShortText::new();
    text.put(word);
    text.put_name(b" ", name);
    text.put(b"\n");
    text
}

#[inline(never)]
fn stored(len: u32) -> ShortText
    ensures { result ≡ stored_text len }
{
    let mut text = ShortText::new();
    text.put_number(b"stored ", len);
    text.put(b"\n");
    text
}

#[inline(never)]
fn begun_line(begun: &Begun) -> ShortText
    ensures { result ≡ begun_text begun.now }
{
    let mut text = ShortText::new();
    text.put_name(b"begun ", &begun.name);
    text.put_number(b" writes ", begun.writes);
    text.put(b"\n");
    text
}

#[inline(never)]
fn stepped(progress: &Progress) -> ShortText
    ensures { result ≡ stepped_text progress.now }
{
    let mut text = ShortText::new();
    put_progress(&mut text, b"stepped ", progress.done, progress.total);
    text.put(b"\n");
    text
}

/// Appends words, and how many writes of how many are made.
fn put_progress(text: &mut ShortText, words: &[u8], done: u32, total: u32)
    requires before { length text.old ≤ 60 }
    requires words { length words.now ≤ 8 }
    ensures text { text.new ≡ text.old ++ words.now ++ progress_text done total }
    ensures len { length text.new ≤ 92 }
{
    text.put_number(words, done);
    text.put_number(b" of ", total);
}

/// A region was given the bytes of another, with the verb for how.
#[inline(never)]
fn carried_line(verb: &[u8], carried: &Carried) -> ShortText
    requires { length verb.now ≤ 20 }
    ensures { result ≡ carried_text verb.now carried.now }
{
    let mut text = ShortText::new();
    text.put(verb);
    text.put_name(b" ", &carried.from);
    text.put_name(b" ", &carried.to);
    text.put_number(b" pieces ", carried.pieces);
    text.put(b"\n");
    text
}

#[inline(never)]
fn undone() -> ShortText
    ensures { result ≡ line (codes "bus fault undone") }
{
    let mut text = ShortText::new();
    text.put(b"bus fault undone\n");
    text
}

#[inline(never)]
fn pending_line(pending: &Pending) -> ShortText
    ensures { result ≡ pending_text pending.now }
{
    let mut text = ShortText::new();
    text.put_name(b"bus fault pending ", &pending.name);
    put_progress(&mut text, b" ", pending.done, pending.total);
    text.put(b"\n");
    text
}
