//! The worked scripts command by command: each line as a call of `act` over an open session, with the text of its reply. Which
//! routes are kept behind each command.

ghost use Rattle.std.specs.Prelude.{IfOk};
ghost use Rattle.cxl_machine.specs.Machine.{Machine};
ghost use Rattle.cxl_machine.specs.Sound.{IsMachine};
ghost use Rattle.cxl_script.specs.Grammar.{IsRanged};
ghost use Rattle.cxl_model.specs.System.{bridge_uids};
ghost use Rattle.cxl_session.specs.Standing.{Stands, StandsFor};
ghost use Rattle.cxl_window.specs.Windows.{AreMadeWith};

use crate::host_files::ONE_FRAME;
use crate::rows::{bytes, row_passes};
use crate::scripts::Script;
use crate::tables::TWO_BRIDGES;
use cxl_bus::{FailingBus, Regs, SimBus};
use cxl_cedt::read;
use cxl_image::Image;
use cxl_machine::{OpenFault, answers_are_told, live_regions_stay};
use cxl_media::{MapMedia, Media, Roll, SimMedia};
use cxl_model::Step;
use cxl_reply::Reply;
use cxl_script::{Command, LineFault, asked_commands_are_ranged, read_command};
use cxl_session::Session;
use cxl_text::put_reply;
use cxl_topo::Topo;
use cxl_topofile::read_topo;
use cxl_walk::{Route, down};
use cxl_window::{Window, windows};
use std::alloc::Global;
use std::process::Abort;

// ---- a session and its commands

/// The windows of a table, which is written in digits, over these bridges.
fn windows_of(rt: &impl Abort, alloc: Global, digits: &str, uids: &[u32]) -> Vec<Window>
    ensures { AreMadeWith result.items uids.now }
{
    let table = bytes(rt, alloc, digits);
    assert!(rt; table.len() <= 1_048_576);
    let table = read(alloc, &table).expect(rt, "a table");
    match windows(alloc, &table, Some(uids)) {
        Ok(windows) => {
            drop(table);
            windows
        }
        Err(_) => panic!(rt; "memory"),
    }
}

/// Opens a session over a script's host.
pub(crate) fn opened<R: Regs, M: Roll>(
    rt: &impl Abort,
    alloc: Global,
    script: &Script,
    regs: &mut R,
    media: &mut M,
) -> Result<Session, OpenFault>
    ensures { IfOk result (λ session. Stands session (R.state regs.new) (M.state media.new)) }
{
    let topo = read_topo(alloc, script.topology.as_bytes()).expect(rt, "a topology");
    let windows = windows_of(rt, alloc, script.table, topo.uids());
    let start = Image::new(alloc, &topo).expect(rt, "memory");
    Session::open(alloc, topo, windows, start, regs, media)
}

/// Appends what a line that asks for no command is answered.
fn refuse(rt: &impl Abort, session: &Session, fault: LineFault, text: &mut Vec<u8>) {
    let reply = match fault {
        LineFault::Bad(fault) => Reply::BadLine(fault),
        LineFault::Memory => panic!(rt; "memory"),
    };
    put_reply(&reply, session.topo(), text).expect(rt, "memory");
    drop(reply);
}

/// Carries out a command, and appends the text of its reply.
fn act<R: Regs, M: Roll>(
    rt: &impl Abort,
    alloc: Global,
    session: &mut Session,
    command: &Command,
    text: &mut Vec<u8>,
    regs: &mut R,
    media: &mut M,
)
    requires stands { Stands session.old (R.state regs.old) (M.state media.old) }
    requires ranged { IsRanged command.now }
    ensures { Stands session.new (R.state regs.new) (M.state media.new) }
{
    answers_are_told();
    let reply = session
        .act(alloc, command, regs, media)
        .expect(rt, "memory");
    put_reply(&reply, session.topo(), text).expect(rt, "memory");
    drop(reply);
}

/// The same of a line, which may ask for nothing.
fn act_on_line<R: Regs, M: Roll>(
    rt: &impl Abort,
    alloc: Global,
    session: &mut Session,
    line: &str,
    text: &mut Vec<u8>,
    regs: &mut R,
    media: &mut M,
)
    requires { Stands session.old (R.state regs.old) (M.state media.old) }
    ensures { Stands session.new (R.state regs.new) (M.state media.new) }
{
    asked_commands_are_ranged();
    match read_command(alloc, line.as_bytes()) {
        Ok(None) => {}
        Ok(Some(command)) => {
            act(rt, alloc, session, &command, text, regs, media);
            drop(command);
        }
        Err(fault) => refuse(rt, session, fault, text),
    }
}

/// What lines are answered, one after the other.
pub(crate) fn replies<R: Regs, M: Roll>(
    rt: &impl Abort,
    alloc: Global,
    session: &mut Session,
    lines: &str,
    regs: &mut R,
    media: &mut M,
) -> Vec<u8>
    requires { Stands session.old (R.state regs.old) (M.state media.old) }
    ensures { Stands session.new (R.state regs.new) (M.state media.new) }
{
    let mut text = Vec::new(alloc);
    for line in lines.split('\n') {
        act_on_line(rt, alloc, session, line, &mut text, regs, media);
    }
    text
}

/// Whether lines are answered so.
pub(crate) fn is_answered<R: Regs, M: Roll>(
    rt: &impl Abort,
    alloc: Global,
    session: &mut Session,
    lines: &str,
    text: &str,
    regs: &mut R,
    media: &mut M,
) -> bool
    requires { Stands session.old (R.state regs.old) (M.state media.old) }
    ensures { Stands session.new (R.state regs.new) (M.state media.new) }
{
    replies(rt, alloc, session, lines, regs, media).as_slice() == text.as_bytes()
}

// ---- the scripts

/// The exit status of a script whose session does not open.
fn code_of_unopened(fault: OpenFault) -> u8 {
    match fault {
        OpenFault::Breach(_) | OpenFault::Full(_) => 8,
        OpenFault::Bus => 7,
        OpenFault::Memory => 9,
    }
}

/// Whether a script's lines are answered by its text, or no session opens and it says so by its exit status.
fn comes_to<R: Regs, M: Roll>(
    rt: &impl Abort,
    alloc: Global,
    script: &Script,
    regs: &mut R,
    media: &mut M,
) -> bool {
    match opened(rt, alloc, script, regs, media) {
        Ok(mut session) => {
            let (lines, text) = (script.lines, script.text);
            let is_so = is_answered(rt, alloc, &mut session, lines, text, regs, media);
            drop(session);
            script.code == 0 && is_so
        }
        Err(fault) => script.code == code_of_unopened(fault),
    }
}

/// The same over a bus that fails at the script's calls; and over the simulators' bus, where none is to fail.
fn comes_to_over<M: Roll>(rt: &impl Abort, alloc: Global, script: &Script, media: &mut M) -> bool {
    let fails = Vec::from_slice(alloc, script.fails).expect(rt, "memory");
    let mut failing = FailingBus::new(alloc, fails);
    let mut sim = SimBus::new(alloc);
    let comes = comes_to(rt, alloc, script, &mut failing, media)
        && (!script.fails.is_empty() || comes_to(rt, alloc, script, &mut sim, media));
    drop(failing);
    comes
}

/// Whether a script comes to its text and its exit status command by command, over both kinds of device memory.
pub(crate) fn comes_to_by_commands(rt: &impl Abort, alloc: Global, script: &Script) -> bool {
    let mut sim = SimMedia::new(alloc);
    let mut map = MapMedia::new(alloc);
    let comes = comes_to_over(rt, alloc, script, &mut sim)
        && comes_to_over(rt, alloc, script, &mut map);
    drop(sim);
    drop(map);
    comes
}

// ---- kept routes

/// Two bridges with an endpoint each, after reset, and one frame.
pub(crate) const HOST: Script = Script {
    name: "two bridges",
    table: TWO_BRIDGES,
    topology: ONE_FRAME,
    fails: &[],
    lines: "",
    code: 0,
    text: "",
};

/// The route that is kept for the first byte of a slot of a live region of two ways, where the address is one.
fn kept_route(session: &Session, h: u64) -> Option<Route> {
    let kept = session.kept();
    for (place, found) in session.live().iter().enumerate() {
        if found.base <= h && h - found.base < 512 {
            let slot = (h - found.base) as usize / 256;
            return kept.get(place)?.routes().get(slot).copied();
        }
    }
    None
}

/// The route to which an address leads by the registers.
fn route_by_registers(session: &Session, h: u64) -> Option<Route>
    requires { (m : Machine) × StandsFor session.now m × IsMachine m }
{
    live_regions_stay();
    down(session.image(), session.topo(), session.windows(), h).ok()
}

/// A line; how many regions live behind it; the address of the first byte of a slot, and the route that is kept for it there,
/// or none.
struct Keeping {
    line: &'static str,
    live: usize,
    address: u64,
    route: Way,
}

/// One of the routes below, or none.
enum Way {
    Nowhere,
    ToFirst,
    ToSecond,
    ToSecondBehind,
}

const NO_STEP: Step = Step {
    node: 0,
    decoder: 0,
    entry: 0,
};

/// The route of the first region's first slot.
const TO_FIRST: Route = Route {
    window: 0,
    position: 0,
    base: 0x1_0000_0000,
    len: 1,
    steps: [NO_STEP; 5],
    endpoint: 2,
    decoder: 0,
    dpa: 0,
};

/// The step by the first decoder of the second bridge.
const BY_SECOND: Step = Step { node: 1, ..NO_STEP };

/// The route of its second slot.
const TO_SECOND: Route = Route {
    window: 0,
    position: 1,
    base: 0x1_0000_0000,
    len: 1,
    steps: [BY_SECOND, NO_STEP, NO_STEP, NO_STEP, NO_STEP],
    endpoint: 3,
    decoder: 0,
    dpa: 0,
};

/// The step by the second decoder of the second bridge.
const BY_SECOND_DECODER: Step = Step {
    decoder: 1,
    ..BY_SECOND
};

/// The route of the second slot of the region behind it.
const TO_SECOND_BEHIND: Route = Route {
    window: 0,
    position: 1,
    base: 0x1_2000_0000,
    len: 1,
    steps: [BY_SECOND_DECODER, NO_STEP, NO_STEP, NO_STEP, NO_STEP],
    endpoint: 3,
    decoder: 1,
    dpa: 0x1000_0000,
};

/// The route that a row names.
fn route_of(way: &Way) -> Option<Route> {
    match way {
        Way::Nowhere => None,
        Way::ToFirst => Some(TO_FIRST),
        Way::ToSecond => Some(TO_SECOND),
        Way::ToSecondBehind => Some(TO_SECOND_BEHIND),
    }
}

const KEEPING: [Keeping; 9] = [
    Keeping {
        line: "create r0 ram 0x20000000 e0 e1",
        live: 1,
        address: 0x1_0000_0100,
        route: Way::ToSecond,
    },
    // A region that is being made keeps no route, though its address leads to an endpoint before the last write.
    Keeping {
        line: "begin create b ram 0x20000000 e0 e1",
        live: 1,
        address: 0x1_2000_0100,
        route: Way::Nowhere,
    },
    Keeping {
        line: "step 24",
        live: 1,
        address: 0x1_2000_0100,
        route: Way::Nowhere,
    },
    Keeping {
        line: "step 8",
        live: 2,
        address: 0x1_2000_0100,
        route: Way::ToSecondBehind,
    },
    Keeping {
        line: "store 0x120000100 11",
        live: 2,
        address: 0x1_0000_0000,
        route: Way::ToFirst,
    },
    // Nor does one that is being ended, until that is undone.
    Keeping {
        line: "begin destroy b",
        live: 1,
        address: 0x1_2000_0000,
        route: Way::Nowhere,
    },
    Keeping {
        line: "abort",
        live: 2,
        address: 0x1_2000_0100,
        route: Way::ToSecondBehind,
    },
    Keeping {
        line: "destroy b",
        live: 1,
        address: 0x1_0000_0000,
        route: Way::ToFirst,
    },
    Keeping {
        line: "destroy r0",
        live: 0,
        address: 0x1_0000_0100,
        route: Way::Nowhere,
    },
];

/// Whether a session keeps so many routes, and for the row's address the one to which the registers lead, or none.
fn keeps(session: &Session, row: &Keeping) -> bool
    requires { (m : Machine) × StandsFor session.now m × IsMachine m }
{
    session.live().len() == row.live
        && session.kept().len() == row.live
        && is_kept(session, row.address, route_of(&row.route))
}

/// Whether this route is kept for an address, and the registers lead to it, where it is one.
fn is_kept(session: &Session, h: u64, route: Option<Route>) -> bool
    requires { (m : Machine) × StandsFor session.now m × IsMachine m }
{
    kept_route(session, h) == route && (route.is_none() || route_by_registers(session, h) == route)
}

/// Checks the kept routes behind each line.
fn all_keep<R: Regs, M: Roll>(
    rt: &impl Abort,
    alloc: Global,
    rows: &[Keeping],
    regs: &mut R,
    media: &mut M,
) {
    let mut session = opened(rt, alloc, &HOST, regs, media).expect(rt, "a session");
    for row in rows {
        replies(rt, alloc, &mut session, row.line, regs, media);
        row_passes(rt, row.line, keeps(&session, row));
    }
    drop(session);
}

/// The same over both kinds of device memory.
fn all_keep_over_each(rt: &impl Abort, alloc: Global, rows: &[Keeping]) {
    let mut regs = SimBus::new(alloc);
    let mut sim = SimMedia::new(alloc);
    let mut map = MapMedia::new(alloc);
    all_keep(rt, alloc, rows, &mut regs, &mut sim);
    all_keep(rt, alloc, rows, &mut regs, &mut map);
    drop(regs);
    drop(sim);
    drop(map);
}

#[test]
fn kept_routes(rt: HostRuntime) {
    all_keep_over_each(&rt, rt.alloc(), &KEEPING);
}
