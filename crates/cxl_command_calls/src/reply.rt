//! Texts of replies whose values no host comes to. All others stand in `worked/`.

ghost use Rattle.std.specs.Prelude.{◌≡◌, List, length, IsTrue, ◌↔◌, ◌<◌};
ghost use Rattle.cxl_reply.specs.Conditions.{IsTold, HasKnownCode, IsToldDown, IsToldReason, IsToldFault};
ghost use Rattle.cxl_topo.specs.declared.node.Node.{Node};

use crate::common::row_passes;
use cxl_enc::Name;
use cxl_model::{PlanFault, Reason, Room};
use cxl_reply::{BadLine, Downed, FixedList, Named, Reply, Via, Why};
use cxl_text::{put_reply, short};
use cxl_topo::Topo;
use cxl_topofile::read_topo;
use std::process::Abort;

fn name(rt: &impl Abort, text: &str) -> Name {
    Name::read(text.as_bytes()).expect(rt, "a name")
}

/// Two bridges with two endpoints each, and four switches above one more.
const NODES: &str = "bridge = [{ name = \"hb0\", uid = 0 }, { name = \"hb1\", uid = 1 }]
switch = [{ name = \"s0\", parent = \"hb0\", port = 2 }, { name = \"s2\", parent = \"s0\", port = 0 },
  { name = \"s6\", parent = \"s2\", port = 0 }, { name = \"s13\", parent = \"s6\", port = 0 }]
endpoint = [{ name = \"e0\", parent = \"hb0\", port = 0, ram = 0x80000000 },
  { name = \"e1\", parent = \"hb0\", port = 1, ram = 0x80000000 },
  { name = \"e2\", parent = \"hb1\", port = 0, ram = 0x80000000 },
  { name = \"e3\", parent = \"hb1\", port = 1, ram = 0x80000000 },
  { name = \"e13\", parent = \"s13\", port = 0, ram = 0x80000000 }]
";

fn topology(rt: &(impl Abort + AllocGlobal)) -> Topo
    ensures { length result.nodes ≡ 11 }
{
    let topo = read_topo(rt.alloc(), NODES.as_bytes())
        .ok()
        .expect(rt, "a topology");
    assert!(rt; topo.count() == 11);
    topo
}

/// The text of a reply, behind what stood there.
fn text_of(rt: &(impl Abort + AllocGlobal), topo: &Topo, reply: &Reply) -> Vec<u8>
    requires { IsTold topo.now.nodes reply.now }
{
    let mut text = Vec::from_slice(rt.alloc(), b"> ").expect(rt, "memory");
    put_reply(reply, topo, &mut text).expect(rt, "memory");
    text
}

fn is_behind(text: &[u8], want: &str) -> bool {
    text.strip_prefix(b"> ".as_slice()) == Some(want.as_bytes())
}

/// Whether the reply's short text is this one, where it has one.
fn is_short(reply: &Reply, want: &str) -> Option<bool>
    requires { HasKnownCode reply.now }
{
    match &short(reply) {
        Some(text) => Some(text.bytes() == want.as_bytes()),
        None => None,
    }
}

fn is_put(
    rt: &(impl Abort + AllocGlobal),
    topo: &Topo,
    reply: &Reply,
    want: &str,
    in_short: Option<bool>,
) -> bool
    requires { length topo.now.nodes ≡ 11 }
{
    is_told(reply, topo)
        && is_behind(&text_of(rt, topo, reply), want)
        && is_short(reply, want) == in_short
}

/// Whether the reply has this text, and a short one that is the same or another.
fn is_printed(
    rt: &(impl Abort + AllocGlobal),
    reply: Reply,
    want: &str,
    in_short: Option<bool>,
) -> bool {
    let topo = topology(rt);
    let put = is_put(rt, &topo, &reply, want, in_short);
    drop(topo);
    put
}

/// The reply has this text, and no short one.
fn prints(rt: &(impl Abort + AllocGlobal), reply: Reply, want: &str) {
    row_passes(rt, want, is_printed(rt, reply, want, None));
}

/// The reply has this text, which is its short one, too.
fn tells(rt: &(impl Abort + AllocGlobal), reply: Reply, want: &str) {
    row_passes(rt, want, is_printed(rt, reply, want, Some(true)));
}

/// Whether a reply names nodes of the eleven.
fn is_told(reply: &Reply, topo: &Topo) -> bool
    requires { length topo.now.nodes ≡ 11 }
    ensures told { IsTrue result → IsTold topo.now.nodes reply.now }
    ensures code { IsTrue result → HasKnownCode reply.now }
{
    match reply {
        Reply::Created(named) => named.gran <= 6,
        Reply::Down(downed) => is_told_down(downed, topo),
        Reply::Refused(fault) => is_told_fault(fault, topo),
        Reply::BadLine(_) => true,
        _ => false,
    }
}

fn is_port(via: &Via) -> bool
    ensures { IsTrue result ↔ via.now.node < 11 }
{
    via.node < 11
}

fn is_told_down(downed: &Downed, topo: &Topo) -> bool
    requires { length topo.now.nodes ≡ 11 }
    ensures { IsTrue result → IsToldDown topo.now.nodes downed.now }
{
    downed.len <= 5
        && downed.via[..usize::from(downed.len)].iter().all(is_port)
        && downed.endpoint < 11
}

fn is_reason(reason: &Reason) -> bool
    ensures { IsTrue result → (nodes : List Node) → length nodes ≡ 11 → IsToldReason nodes reason.now }
{
    match reason {
        Reason::Select(node) | Reason::WaysCap(node) => *node < 11,
        _ => true,
    }
}

fn is_told_fault(fault: &PlanFault, topo: &Topo) -> bool
    requires { length topo.now.nodes ≡ 11 }
    ensures { IsTrue result → IsToldFault topo.now.nodes fault.now }
{
    match fault {
        PlanFault::NoWindow(reasons) => reasons.items().iter().all(is_reason),
        _ => false,
    }
}

/// The longest short text.
#[test]
fn the_longest(rt: HostRuntime) {
    let longest = Named {
        name: name(&rt, "abcdefghijklmno"),
        window: u32::MAX,
        base: u64::MAX,
        size: u64::MAX,
        gran: 6,
        ways: u8::MAX,
    };
    tells(
        &rt,
        Reply::Created(longest),
        "created abcdefghijklmno window 4294967295 base 0xffffffffffffffff size 0xffffffffffffffff gran 16384 ways 255\n",
    );
}

const WHYS: [(Why, &str); 9] = [
    (Why::Verb, "bad line 7 verb\n"),
    (Why::Missing, "bad line 7 missing\n"),
    (Why::Extra, "bad line 7 extra\n"),
    (Why::Name, "bad line 7 name\n"),
    (Why::Kind, "bad line 7 kind\n"),
    (Why::Number, "bad line 7 number\n"),
    (Why::Range, "bad line 7 range\n"),
    (Why::Hex, "bad line 7 hex\n"),
    (Why::Long, "bad line 7 long\n"),
];

fn bad_line(why: Why) -> Reply {
    Reply::BadLine(BadLine { at: 7, why })
}

#[test]
fn bad_lines(rt: HostRuntime) {
    for (why, want) in &WHYS {
        prints(&rt, bad_line(*why), *want);
    }
}

fn via(node: u32, entry: u8) -> Via {
    Via {
        node,
        decoder: 0,
        entry,
    }
}

/// An address that goes to an endpoint by so many of these ports.
fn down_reply(rt: &impl Abort, len: u8, via: [Via; 5], endpoint: u32) -> Reply {
    Reply::Down(Downed {
        h: 0x10f_ffff_ffff,
        name: name(rt, "r0"),
        slot: 3,
        position: 1,
        len,
        via,
        endpoint,
        dpa: 0x3f_ffff_ffff,
    })
}

fn ports_of(nodes: [u32; 5], entries: [u8; 5]) -> [Via; 5] {
    [
        via(nodes[0], entries[0]),
        via(nodes[1], entries[1]),
        via(nodes[2], entries[2]),
        via(nodes[3], entries[3]),
        via(nodes[4], entries[4]),
    ]
}

/// One port of a switch, none, and five in a row.
#[test]
fn addresses(rt: HostRuntime) {
    let one = ports_of([1, 0, 0, 0, 0], [1, 0, 0, 0, 0]);
    let five = ports_of([0, 2, 3, 4, 5], [0, 1, 1, 0, 1]);
    prints(
        &rt,
        down_reply(&rt, 1, one, 9),
        "down 0x10fffffffff region r0 slot 3 position 1 via hb1:0:1 endpoint e3 dpa 0x3fffffffff\n",
    );
    prints(
        &rt,
        down_reply(&rt, 0, five, 7),
        "down 0x10fffffffff region r0 slot 3 position 1 via - endpoint e1 dpa 0x3fffffffff\n",
    );
    prints(
        &rt,
        down_reply(&rt, 5, five, 10),
        "down 0x10fffffffff region r0 slot 3 position 1 via hb0:0:0 s0:0:1 s2:0:1 s6:0:0 s13:0:1 endpoint e13 dpa 0x3fffffffff\n",
    );
}

const REASONS: [Reason; 8] = [
    Reason::Unusable,
    Reason::Kind,
    Reason::Fixed,
    Reason::Bridges,
    Reason::Gran,
    Reason::Select(0),
    Reason::WaysCap(7),
    Reason::NoBase(Room {
        start: 0x2_0000_0000,
        limit: 0x2_0000_0000,
    }),
];

#[test]
fn refused_windows(rt: HostRuntime) {
    let reasons = REASONS.to_vec(rt.alloc()).expect(&rt, "memory");
    let refused = PlanFault::NoWindow(FixedList::new(reasons));
    let want = "refused no-window
window 0 unusable
window 1 kind
window 2 fixed
window 3 bridges
window 4 gran
window 5 select hb0
window 6 ways-cap e1
window 7 no-base 0x200000000 0x200000000
";
    prints(&rt, Reply::Refused(refused), want);
}
