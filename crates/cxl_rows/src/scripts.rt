//! What scripts come to, as runs and command by command: each over a bus that fails at stated calls, and over both kinds of device
//! memory. All that a run alone shows stands in `worked/`.

use crate::acts::comes_to_by_commands;
use crate::host_files::{ONE_FRAME, TWO_ENDPOINTS};
use crate::rows::{ROOM, bytes, files_of, row_passes, sink_of, words_of};
use crate::tables::TWO_BRIDGES;
use cxl_bus::FailingBus;
use cxl_io::{MemFetch, MemSource};
use cxl_media::{MapMedia, Roll, SimMedia};
use cxl_shell::run;
use std::alloc::Global;
use std::process::Abort;

/// A name, a host after reset, the calls of the bus that fail (the endpoints' blocks are enabled by the first of them), a script,
/// and what it comes to.
pub(crate) struct Script {
    pub(crate) name: &'static str,
    pub(crate) table: &'static str,
    pub(crate) topology: &'static str,
    pub(crate) fails: &'static [u64],
    pub(crate) lines: &'static str,
    pub(crate) code: u8,
    pub(crate) text: &'static str,
}

/// The files of a script's host.
fn files_of_host(rt: &impl Abort, alloc: Global, script: &Script) -> MemFetch {
    let table = bytes(rt, alloc, script.table);
    files_of(rt, alloc, table, script.topology, Vec::new(alloc), 0)
}

/// The lines of a script.
fn source_of(rt: &impl Abort, alloc: Global, script: &Script) -> MemSource {
    let lines = Vec::from_slice(alloc, script.lines.as_bytes()).expect(rt, "memory");
    MemSource::new(lines, Vec::new(alloc))
}

fn comes_to<M: Roll>(rt: &impl Abort, alloc: Global, script: &Script, media: &mut M) -> bool {
    let words = words_of(rt, alloc, "run table topology");
    let mut files = files_of_host(rt, alloc, script);
    let mut source = source_of(rt, alloc, script);
    let mut sink = sink_of(rt, alloc, ROOM, 0);
    let fails = Vec::from_slice(alloc, script.fails).expect(rt, "memory");
    let mut regs = FailingBus::new(alloc, fails);
    let status = run(
        alloc,
        &words,
        &mut files,
        &mut source,
        &mut sink,
        &mut regs,
        media,
    );
    let told = sink.bytes() == script.text.as_bytes();
    drop(files);
    drop(source);
    drop(sink);
    drop(regs);
    status.code() == script.code && told
}

/// The same over both kinds of device memory.
fn comes_to_over_each(rt: &impl Abort, alloc: Global, script: &Script) -> bool {
    let mut sim = SimMedia::new(alloc);
    let mut map = MapMedia::new(alloc);
    let comes = comes_to(rt, alloc, script, &mut sim) && comes_to(rt, alloc, script, &mut map);
    drop(sim);
    drop(map);
    comes
}

/// Checks each script, as a run and command by command.
pub(crate) fn come_to(rt: &(impl Abort + AllocGlobal), scripts: &[Script]) {
    for script in scripts {
        row_passes(
            rt,
            script.name,
            comes_to_by_commands(rt, rt.alloc(), script),
        );
        row_passes(rt, script.name, comes_to_over_each(rt, rt.alloc(), script));
    }
}

#[test]
fn scripts(rt: HostRuntime) {
    come_to(&rt, SCRIPTS);
}

const SCRIPTS: &[Script] = &[
    Script {
        name: "bytes over two devices",
        table: TWO_BRIDGES,
        topology: TWO_ENDPOINTS,
        fails: &[],
        lines: "\
create r0 ram 0x20000000 e0 e1\n\
store 0x1000000fe aabbccdd\n\
load 0x1000000fe 4\n\
load 0x100000100 2\n\
down 0x100000100\n\
load 0x1000000fc 2\n",
        code: 0,
        text: "\
created r0 window 0 base 0x100000000 size 0x20000000 gran 256 ways 2\n\
stored 4\n\
bytes aabbccdd\n\
bytes ccdd\n\
down 0x100000100 region r0 slot 1 position 1 via hb1:0:0 endpoint e1 dpa 0x0\n\
bytes 0000\n",
    },
    Script {
        name: "moves and copies with one frame",
        table: TWO_BRIDGES,
        topology: ONE_FRAME,
        fails: &[],
        lines: "\
create r0 ram 0x20000000 e0 e1\n\
create r1 ram 0x20000000 e0 e1\n\
store 0x100000000 11\n\
store 0x120000000 22\n\
move r0 r1\n\
load 0x120000000 1\n\
load 0x100000000 1\n\
copy r1 r0\n\
copy r1 r1\n\
move r2 r0\n\
copy r0 r2\n",
        code: 0,
        text: "\
created r0 window 0 base 0x100000000 size 0x20000000 gran 256 ways 2\n\
created r1 window 0 base 0x120000000 size 0x20000000 gran 256 ways 2\n\
stored 1\n\
full need 1 free 0\n\
moved r0 r1 pieces 1\n\
bytes 11\n\
bytes 00\n\
full need 1 free 0\n\
same region r1\n\
no such region r2\n\
no such region r2\n",
    },
    Script {
        name: "a write fails, and so does the one that takes the first back",
        table: TWO_BRIDGES,
        topology: TWO_ENDPOINTS,
        fails: &[5, 6],
        lines: "\
create r0 ram 0x20000000 e0 e1\n\
abort\n",
        code: 0,
        text: "\
bus fault pending r0 2 of 32\n\
aborted r0\n",
    },
    Script {
        name: "the blocks cannot be enabled",
        table: TWO_BRIDGES,
        topology: TWO_ENDPOINTS,
        fails: &[1],
        lines: "\
create r0 ram 0x20000000 e0 e1\n",
        code: 7,
        text: "\
error: bus fault\n",
    },
    Script {
        name: "a read fails",
        table: TWO_BRIDGES,
        topology: TWO_ENDPOINTS,
        fails: &[35],
        lines: "\
create r0 ram 0x20000000 e0 e1\n\
show r0\n\
show r0\n",
        code: 0,
        text: "\
created r0 window 0 base 0x100000000 size 0x20000000 gran 256 ways 2\n\
bus fault read\n\
region r0 ram window 0 base 0x100000000 size 0x20000000 gran 256 ways 2\n\
node hb0 0 00000000 00000001 20000000 00000000 00001600 00000000 00000000\n\
node hb1 0 00000000 00000001 20000000 00000000 00001600 00000000 00000000\n\
node e0 0 00000000 00000001 20000000 00000000 00001610 00000000 00000000\n\
node e1 0 00000000 00000001 20000000 00000000 00001610 00000000 00000000\n\
slot 0 e0 0x0\n\
slot 1 e1 0x0\n",
    },
];
