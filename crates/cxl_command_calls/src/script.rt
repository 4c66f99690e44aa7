//! What the lines of a script ask for. Their faults stand in `worked/lines`.

use crate::common::row_passes;
use cxl_enc::{MemKind, Name};
use cxl_script::{Command, Create, LineFault, read_command};
use std::process::Abort;

type Read = Result<Option<Command>, LineFault>;

/// What a line is to ask for.
enum Wanted<'a> {
    Numbers(&'a NumbersRow),
    Names(&'a NamesRow),
    Region(&'a RegionRow),
    /// A region by this code.
    Granularity(u8),
    /// A store of bytes at this address, or a poison list of this endpoint.
    Bytes(u64, &'a [u8], &'a [u8]),
    /// Any command.
    Command,
}

fn is_wanted(rt: &(impl Abort + AllocGlobal), read: &Read, wanted: Wanted<'_>) -> bool {
    match wanted {
        Wanted::Numbers(row) => numbers(read) == (row.verb, row.first, row.second),
        Wanted::Names(row) => has_names(read, row),
        Wanted::Region(row) => creates(rt, read, row),
        Wanted::Granularity(code) => granularity(read) == Some(code),
        Wanted::Bytes(h, endpoint, bytes) => has_bytes(read, h, endpoint, bytes),
        Wanted::Command => matches!(read, Ok(Some(_))),
    }
}

/// Whether a line asks for this.
fn asks_for(rt: &(impl Abort + AllocGlobal), line: &[u8], wanted: Wanted<'_>) -> bool {
    let read = read_command(rt.alloc(), line);
    is_wanted(rt, &read, wanted)
}

/// A command that holds numbers alone, by its verb.
fn numbers(read: &Read) -> (&'static str, u64, u64) {
    match read {
        Ok(Some(Command::Down(h))) => ("down", *h, 0),
        Ok(Some(Command::Load(load))) => ("load", load.h, u64::from(load.len)),
        Ok(Some(Command::Step(steps))) => ("step", u64::from(*steps), 0),
        Ok(Some(Command::Range(reach))) => ("range", reach.h, reach.len),
        Ok(Some(Command::Spread(reach))) => ("spread", reach.h, reach.len),
        Ok(Some(Command::Abort)) => ("abort", 0, 0),
        Ok(None) => ("", 0, 0),
        _ => ("other", 0, 0),
    }
}

/// A line, and the verb and the numbers of its command, as `numbers` tells them.
struct NumbersRow {
    line: &'static str,
    verb: &'static str,
    first: u64,
    second: u64,
}

#[test]
fn numbers_of_commands(rt: HostRuntime) {
    for row in NUMBERS {
        row_passes(
            &rt,
            row.line,
            asks_for(&rt, row.line.as_bytes(), Wanted::Numbers(row)),
        );
    }
}

const NUMBERS: &[NumbersRow] = &[
    NumbersRow {
        line: "",
        verb: "",
        first: 0,
        second: 0,
    },
    NumbersRow {
        line: " \t ",
        verb: "",
        first: 0,
        second: 0,
    },
    NumbersRow {
        line: "# create r0",
        verb: "",
        first: 0,
        second: 0,
    },
    NumbersRow {
        line: "\t#down 5",
        verb: "",
        first: 0,
        second: 0,
    },
    NumbersRow {
        line: "down 0x100000100",
        verb: "down",
        first: 0x1_0000_0100,
        second: 0,
    },
    NumbersRow {
        line: "\t down\t 18446744073709551615 ",
        verb: "down",
        first: u64::MAX,
        second: 0,
    },
    NumbersRow {
        line: "load 0x1000000fe 4",
        verb: "load",
        first: 0x1_0000_00fe,
        second: 4,
    },
    NumbersRow {
        line: "load 0 256",
        verb: "load",
        first: 0,
        second: 256,
    },
    NumbersRow {
        line: "step 1000000",
        verb: "step",
        first: 1_000_000,
        second: 0,
    },
    NumbersRow {
        line: "range 0x1000000080 65536",
        verb: "range",
        first: 0x10_0000_0080,
        second: 65_536,
    },
    NumbersRow {
        line: "spread 1 0x10000000000000",
        verb: "spread",
        first: 1,
        second: 1 << 52,
    },
    NumbersRow {
        line: "abort",
        verb: "abort",
        first: 0,
        second: 0,
    },
];

/// The verb of a command that holds no more than names and a device address, and these.
fn names(read: &Read) -> Option<(&'static str, Name, Name, u64)> {
    match read {
        Ok(Some(Command::Destroy(name))) => Some(("destroy", *name, *name, 0)),
        Ok(Some(Command::Show(name))) => Some(("show", *name, *name, 0)),
        Ok(Some(Command::BeginDestroy(name))) => Some(("begin destroy", *name, *name, 0)),
        Ok(Some(Command::Up(up))) => Some(("up", up.endpoint, up.endpoint, up.dpa)),
        Ok(Some(Command::Copy(pair))) => Some(("copy", pair.from, pair.to, 0)),
        Ok(Some(Command::Move(pair))) => Some(("move", pair.from, pair.to, 0)),
        _ => None,
    }
}

/// A line, and the verb, the names and the device address of its command, as `names` tells them.
struct NamesRow {
    line: &'static str,
    verb: &'static str,
    from: &'static str,
    to: &'static str,
    dpa: u64,
}

fn has_names(read: &Read, row: &NamesRow) -> bool {
    match names(read) {
        Some((verb, from, to, dpa)) => {
            let same = (verb, from.bytes(), to.bytes(), dpa);
            same == (row.verb, row.from.as_bytes(), row.to.as_bytes(), row.dpa)
        }
        None => false,
    }
}

#[test]
fn names_of_commands(rt: HostRuntime) {
    for row in NAMES {
        row_passes(
            &rt,
            row.line,
            asks_for(&rt, row.line.as_bytes(), Wanted::Names(row)),
        );
    }
}

const NAMES: &[NamesRow] = &[
    NamesRow {
        line: "destroy r0",
        verb: "destroy",
        from: "r0",
        to: "r0",
        dpa: 0,
    },
    NamesRow {
        line: "show abcdefghijklmno",
        verb: "show",
        from: "abcdefghijklmno",
        to: "abcdefghijklmno",
        dpa: 0,
    },
    NamesRow {
        line: "begin destroy r0",
        verb: "begin destroy",
        from: "r0",
        to: "r0",
        dpa: 0,
    },
    NamesRow {
        line: "up e1 0x2000",
        verb: "up",
        from: "e1",
        to: "e1",
        dpa: 0x2000,
    },
    NamesRow {
        line: "copy r0 r1",
        verb: "copy",
        from: "r0",
        to: "r1",
        dpa: 0,
    },
    NamesRow {
        line: "move r1 r0",
        verb: "move",
        from: "r1",
        to: "r0",
        dpa: 0,
    },
];

/// The region that a line asks for, at once or begun.
fn created(read: &Read) -> Option<&Create> {
    match read {
        Ok(Some(Command::Create(create))) => Some(create),
        Ok(Some(Command::BeginCreate(create))) => Some(create),
        _ => None,
    }
}

/// Names, each behind a space.
fn is_spaced(rt: &(impl Abort + AllocGlobal), names: &[Name], want: &str) -> bool {
    let mut text = Vec::new(rt.alloc());
    for name in names {
        text.push(b' ').expect(rt, "memory");
        text.extend_from_slice(name.bytes()).expect(rt, "memory");
    }
    text.as_slice() == want.as_bytes()
}

/// A line, and the region that it makes: its kind, its granularity, its endpoints and its ways.
struct RegionRow {
    line: &'static str,
    kind: MemKind,
    gran: Option<u8>,
    endpoints: &'static str,
    ways: Option<u8>,
}

/// A region `r0` of half a gigabyte.
fn is_created(rt: &(impl Abort + AllocGlobal), create: &Create, row: &RegionRow) -> bool {
    create.name.bytes() == b"r0".as_slice()
        && create.size == 0x2000_0000
        && (create.kind, create.gran, create.ways) == (row.kind, row.gran, row.ways)
        && is_spaced(rt, create.endpoints.items(), row.endpoints)
}

fn creates(rt: &(impl Abort + AllocGlobal), read: &Read, row: &RegionRow) -> bool {
    match created(read) {
        Some(create) => is_created(rt, create, row),
        None => false,
    }
}

#[test]
fn created_regions(rt: HostRuntime) {
    for row in CREATED {
        row_passes(
            &rt,
            row.line,
            asks_for(&rt, row.line.as_bytes(), Wanted::Region(row)),
        );
    }
}

/// `gran=` and `ways=` count only in their places, and `gran` and `ways` are names.
const CREATED: &[RegionRow] = &[
    RegionRow {
        line: "create r0 ram 536870912 e1 e0",
        kind: MemKind::Ram,
        gran: None,
        endpoints: " e1 e0",
        ways: None,
    },
    RegionRow {
        line: "create r0 pmem 0x20000000 gran=512 e0",
        kind: MemKind::Pmem,
        gran: Some(1),
        endpoints: " e0",
        ways: None,
    },
    RegionRow {
        line: "create r0 ram 0x20000000 gran ways e0 e0",
        kind: MemKind::Ram,
        gran: None,
        endpoints: " gran ways e0 e0",
        ways: None,
    },
    RegionRow {
        line: "create r0 ram 0x20000000 ways=16",
        kind: MemKind::Ram,
        gran: None,
        endpoints: "",
        ways: Some(16),
    },
    RegionRow {
        line: "begin create r0 pmem 0x20000000 e2",
        kind: MemKind::Pmem,
        gran: None,
        endpoints: " e2",
        ways: None,
    },
    RegionRow {
        line: "begin create r0 ram 0x20000000 gran=0x4000 ways=1",
        kind: MemKind::Ram,
        gran: Some(6),
        endpoints: "",
        ways: Some(1),
    },
];

/// The granularity code of the region that a line asks for.
fn granularity(read: &Read) -> Option<u8> {
    match created(read) {
        Some(create) => create.gran,
        None => None,
    }
}

#[test]
fn granularities(rt: HostRuntime) {
    for (line, code) in &GRANULARITIES {
        row_passes(
            &rt,
            *line,
            asks_for(&rt, line.as_bytes(), Wanted::Granularity(*code)),
        );
    }
}

const GRANULARITIES: [(&str, u8); 7] = [
    ("create r ram 1 gran=256 e0", 0),
    ("create r ram 1 gran=512 e0", 1),
    ("create r ram 1 gran=1024 e0", 2),
    ("create r ram 1 gran=2048 e0", 3),
    ("create r ram 1 gran=0x1000 e0", 4),
    ("create r ram 1 gran=08192 e0", 5),
    ("create r ram 1 gran=16384 e0", 6),
];

/// The address and the bytes that a line stores, or the endpoint of a poison list and its bytes.
fn has_bytes(read: &Read, h: u64, endpoint: &[u8], bytes: &[u8]) -> bool {
    match read {
        Ok(Some(Command::Store(store))) => store.h == h && store.bytes.items() == bytes,
        Ok(Some(Command::Poison(poison))) => {
            poison.endpoint.bytes() == endpoint && poison.bytes.items() == bytes
        }
        _ => false,
    }
}

#[test]
fn bytes_of_commands(rt: HostRuntime) {
    let stored = Wanted::Bytes(0x1_0000_00fe, b"", &[0xaa, 0xbb, 0xcc, 0xdd]);
    assert!(rt; asks_for(&rt, b"store 0x1000000fe aAbBccdd", stored));
    let listed = Wanted::Bytes(u64::MAX, b"e0", &[0, 0xff]);
    assert!(rt; asks_for(&rt, b"poison e0 00ff", listed));
}
