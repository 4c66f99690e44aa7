//! Regions whose end is undone: the order in which they stand. And the image behind each command that meets a fault of the bus.

ghost use Rattle.cxl_session.specs.Standing.{Stands};

use crate::acts::{HOST, is_answered, opened, replies};
use crate::host_files::TWO_ENDPOINTS;
use crate::rows::row_passes_at;
use crate::scripts::Script;
use crate::tables::TWO_WINDOWS;
use cxl_bus::{FailingBus, Regs, SimBus};
use cxl_image::write_image;
use cxl_media::{MapMedia, Roll, SimMedia};
use cxl_session::Session;
use std::alloc::Global;
use std::process::Abort;

// ---- the places of regions

/// Two bridges with an endpoint and a window each, after reset.
const APART: Script = Script {
    name: "two windows",
    table: TWO_WINDOWS,
    topology: TWO_ENDPOINTS,
    fails: &[],
    lines: "",
    code: 0,
    text: "",
};

/// Whether two regions live, with these bases, in this order.
fn are_live(session: &Session, first: u64, second: u64) -> bool {
    match session.live() {
        [one, other] => one.base == first && other.base == second,
        _ => false,
    }
}

/// Whether a region whose end is undone stands before the one that was made behind it, and behind that where it is made anew.
fn stand_in_order<R: Regs, M: Roll>(
    rt: &impl Abort,
    alloc: Global,
    regs: &mut R,
    media: &mut M,
) -> bool {
    let mut session = opened(rt, alloc, &APART, regs, media).expect(rt, "a session");
    let lines = "\
create a ram 0x10000000 e0\n\
create b ram 0x10000000 e1\n\
begin destroy a\n\
abort";
    replies(rt, alloc, &mut session, lines, regs, media);
    let stand = are_live(&session, 0x1_0000_0000, 0x2_0000_0000)
        && is_answered(rt, alloc, &mut session, AFRESH, ANSWERED, regs, media)
        && are_live(&session, 0x2_0000_0000, 0x1_0000_0000);
    drop(session);
    stand
}

const AFRESH: &str = "\
destroy a\n\
load 0x200000000 1\n\
create a ram 0x10000000 e0\n\
load 0x100000000 1";

const ANSWERED: &str = "\
destroyed a\n\
bytes 00\n\
created a window 0 base 0x100000000 size 0x10000000 gran 256 ways 1\n\
bytes 00\n";

#[test]
fn regions_stand_in_order(rt: HostRuntime) {
    let alloc = rt.alloc();
    let mut regs = SimBus::new(alloc);
    assert!(rt; stand_in_order(&rt, alloc, &mut regs, &mut SimMedia::new(alloc)));
}

// ---- the image behind a command that meets a fault

/// A command that writes registers: a name of its writes; the lines before it and its own; the line that begins it, to be made
/// in steps; the number of its first call of the bus and of its writes; and what it is answered.
struct Writing {
    name: &'static str,
    before: &'static str,
    line: &'static str,
    begin: &'static str,
    first: u64,
    writes: u64,
    reply: &'static str,
}

const CREATE: Writing = Writing {
    name: "write of a create",
    before: "",
    line: "create r0 ram 0x20000000 e0 e1",
    begin: "begin create r0 ram 0x20000000 e0 e1",
    first: 3,
    writes: 32,
    reply: "created r0 window 0 base 0x100000000 size 0x20000000 gran 256 ways 2\n",
};

const RELEASE: Writing = Writing {
    name: "write of a release",
    before: "create r0 ram 0x20000000 e0 e1",
    line: "destroy r0",
    begin: "begin destroy r0",
    first: 35,
    writes: 4,
    reply: "destroyed r0\n",
};

/// A bus that fails at so many calls, from that of a command's write on.
fn failing_from(
    rt: &impl Abort,
    alloc: Global,
    writing: &Writing,
    write: u64,
    count: u64,
) -> FailingBus {
    let mut fails = Vec::new(alloc);
    for more in 0..count {
        let call = writing.first.saturating_add(write).saturating_add(more);
        fails.push(call).expect(rt, "memory");
    }
    FailingBus::new(alloc, fails)
}

/// The words of a session's image.
fn words_of(rt: &impl Abort, alloc: Global, session: &Session) -> Vec<u8> {
    write_image(alloc, session.image()).expect(rt, "memory")
}

/// A session behind the lines that go before a command.
fn before<R: Regs, M: Roll>(
    rt: &impl Abort,
    alloc: Global,
    writing: &Writing,
    regs: &mut R,
    media: &mut M,
) -> Session
    ensures { Stands result (R.state regs.new) (M.state media.new) }
{
    let mut session = opened(rt, alloc, &HOST, regs, media).expect(rt, "a session");
    replies(rt, alloc, &mut session, writing.before, regs, media);
    session
}

/// The words of the image behind so many writes of a command, over a bus that does not fail.
fn words_behind<M: Roll>(
    rt: &impl Abort,
    alloc: Global,
    writing: &Writing,
    writes: u64,
    media: &mut M,
) -> Vec<u8> {
    let steps = format!(in alloc; "{}\nstep {writes}", writing.begin).expect(rt, "memory");
    let mut regs = SimBus::new(alloc);
    let mut session = before(rt, alloc, writing, &mut regs, media);
    replies(rt, alloc, &mut session, &steps, &mut regs, media);
    let words = words_of(rt, alloc, &session);
    drop(session);
    words
}

/// Whether a command that fails at this write is undone, and leaves each word of the image as it was; it is then carried out.
fn is_undone<M: Roll>(
    rt: &impl Abort,
    alloc: Global,
    writing: &Writing,
    write: u64,
    media: &mut M,
) -> bool {
    let mut regs = failing_from(rt, alloc, writing, write, 1);
    let mut session = before(rt, alloc, writing, &mut regs, media);
    let undone = is_undone_in(rt, alloc, &mut session, writing, &mut regs, media);
    drop(session);
    drop(regs);
    undone
}

/// The same in a session whose bus fails at the write.
fn is_undone_in<R: Regs, M: Roll>(
    rt: &impl Abort,
    alloc: Global,
    session: &mut Session,
    writing: &Writing,
    regs: &mut R,
    media: &mut M,
) -> bool
    requires { Stands session.old (R.state regs.old) (M.state media.old) }
{
    let words = words_of(rt, alloc, session);
    let undone = "bus fault undone\n";
    is_answered(rt, alloc, session, writing.line, undone, regs, media)
        && words_of(rt, alloc, session) == words
        && is_answered(rt, alloc, session, writing.line, writing.reply, regs, media)
}

/// A command that is left pending: its line, what it is answered, and the words of the image behind it.
#[derive(Drop)]
struct Left {
    line: &'static str,
    told: String,
    words: Vec<u8>,
}

/// A command that is left pending with so many writes made.
fn left_of<M: Roll>(
    rt: &impl Abort,
    alloc: Global,
    writing: &Writing,
    made: u64,
    media: &mut M,
) -> Left {
    let words = words_behind(rt, alloc, writing, made, media);
    let told = format!(in alloc; "bus fault pending r0 {made} of {}\n", writing.writes).expect(
        rt, "memory",
    );
    Left {
        line: writing.line,
        told,
        words,
    }
}

/// Whether a command that fails behind so many writes, and as the last of them is taken back, too, is left pending with as
/// many made: each word of the image is as they leave it. An abort then takes them back, and leaves each as it was.
fn is_left_pending<M: Roll>(
    rt: &impl Abort,
    alloc: Global,
    writing: &Writing,
    made: u64,
    media: &mut M,
) -> bool {
    let left = left_of(rt, alloc, writing, made, media);
    let mut regs = failing_from(rt, alloc, writing, made, 2);
    let mut session = before(rt, alloc, writing, &mut regs, media);
    let pending = is_left_pending_in(rt, alloc, &mut session, &left, &mut regs, media);
    drop(session);
    drop(regs);
    pending
}

/// The same in a session whose bus fails so.
fn is_left_pending_in<R: Regs, M: Roll>(
    rt: &impl Abort,
    alloc: Global,
    session: &mut Session,
    left: &Left,
    regs: &mut R,
    media: &mut M,
) -> bool
    requires { Stands session.old (R.state regs.old) (M.state media.old) }
{
    let words = words_of(rt, alloc, session);
    is_answered(
        rt,
        alloc,
        session,
        left.line,
        left.told.as_str(),
        regs,
        media,
    ) && words_of(rt, alloc, session) == left.words
        && is_answered(rt, alloc, session, "abort", "aborted r0\n", regs, media)
        && words_of(rt, alloc, session) == words
}

/// Checks a command that fails at each of its writes, over any device memory.
fn fails_at_each<M: Roll>(rt: &impl Abort, alloc: Global, writing: &Writing, media: &mut M) {
    for write in 0..writing.writes {
        let left = write == 0 || is_left_pending(rt, alloc, writing, write, media);
        row_passes_at(
            rt,
            writing.name,
            write as usize,
            left && is_undone(rt, alloc, writing, write, media),
        );
    }
}

#[test]
fn image_behind_each_fault(rt: HostRuntime) {
    let alloc = rt.alloc();
    for writing in &[CREATE, RELEASE] {
        fails_at_each(&rt, alloc, writing, &mut SimMedia::new(alloc));
        fails_at_each(&rt, alloc, writing, &mut MapMedia::new(alloc));
    }
}
