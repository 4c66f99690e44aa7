//! Why no set of so many endpoints has a legal plan in a window of worked hosts, one row of each reason that a person worked out from
//! the rules.

ghost use Rattle.std.specs.Prelude.{◌≡◌, ◌≤◌, IfSome, true};

use crate::host_texts::{
    ONE_OF_BOTH_KINDS, OVER_ONE, OVER_THREE_LONG, OVER_TWO, THREE_BY_ONE, TWO_BY_ONE, TWO_BY_TWO,
    TWO_WAYS,
};
use crate::hosts::host_of;
use crate::rows::row_passes;
use cxl_check::check;
use cxl_enc::MemKind;
use cxl_legal::{is_size, is_ways};
use cxl_pick::Want;
use cxl_reason::{SetReason, reasons};
use std::alloc::Global;
use std::process::Abort;

/// A name, the nodes of the host, the windows over them, the decoders that are committed, what is wanted, and the answer of each
/// window.
struct Row {
    name: &'static str,
    nodes: &'static str,
    windows: &'static str,
    ranges: &'static str,
    kind: MemKind,
    size: u64,
    gran: Option<u8>,
    ways: u8,
    answers: &'static [Option<SetReason>],
}

fn is_told(rt: &impl Abort, alloc: Global, row: &Row) -> bool {
    let host = host_of(rt, alloc, row.nodes, row.windows, row.ranges);
    let want = Want {
        kind: row.kind,
        size: row.size,
        gran: row.gran,
        ways: row.ways,
    };
    let regions = check(alloc, &host.image, &host.topo, &host.windows).expect(rt, "accepted");
    drop(regions);
    assert!(rt; is_code(row.gran));
    assert!(rt; is_ways(usize::from(row.ways)));
    assert!(rt; is_size(row.size, row.ways));
    let told = reasons(alloc, &host.image, &host.topo, &host.windows, &want).expect(rt, "memory");
    drop(host);
    are_answers(&told, row.answers)
}

/// Whether a stated granularity is a code.
fn is_code(gran: Option<u8>) -> bool
    ensures { result ≡ true → IfSome gran (λ code. code ≤ 6) }
{
    match gran {
        Some(code) => code <= 6,
        None => true,
    }
}

fn are_answers(told: &[Option<SetReason>], answers: &[Option<SetReason>]) -> bool {
    if told.len() != answers.len() {
        return false;
    }
    for i in 0..told.len() {
        if told[i] != answers[i] {
            return false;
        }
    }
    true
}

/// Checks each row.
fn are_told(rt: &(impl Abort + AllocGlobal), rows: &[Row]) {
    for row in rows {
        row_passes(rt, row.name, is_told(rt, rt.alloc(), row));
    }
}

#[test]
fn reasons_of_windows(rt: HostRuntime) {
    are_told(&rt, OF_WINDOWS);
}

#[test]
fn reasons_of_endpoints_and_codes(rt: HostRuntime) {
    are_told(&rt, OF_ENDPOINTS);
    are_told(&rt, OF_CODES);
}

#[test]
fn reasons_of_room(rt: HostRuntime) {
    are_told(&rt, OF_ROOM);
}

#[test]
fn reasons_of_several_windows(rt: HostRuntime) {
    are_told(&rt, OF_SEVERAL);
}

/// By the window alone.
const OF_WINDOWS: &[Row] = &[
    Row {
        name: "a base that is no multiple of 256 MiB",
        nodes: TWO_BY_ONE,
        windows: "0x108000000 0x100000000 0 0 0x000e 0 1",
        ranges: "",
        kind: MemKind::Ram,
        size: 0x2000_0000,
        gran: None,
        ways: 2,
        answers: &[Some(SetReason::Unusable)],
    },
    Row {
        name: "pmem in a window of ram",
        nodes: ONE_OF_BOTH_KINDS,
        windows: "0x100000000 0x100000000 0 0 0x0006 0",
        ranges: "",
        kind: MemKind::Pmem,
        size: 0x1000_0000,
        gran: None,
        ways: 1,
        answers: &[Some(SetReason::Kind)],
    },
    Row {
        name: "a fixed configuration",
        nodes: TWO_BY_ONE,
        windows: "0x100000000 0x100000000 0 0 0x001e 0 1",
        ranges: "",
        kind: MemKind::Ram,
        size: 0x2000_0000,
        gran: None,
        ways: 2,
        answers: &[Some(SetReason::Fixed)],
    },
    Row {
        name: "1 KiB in a window of two ways of 256 bytes",
        nodes: TWO_BY_ONE,
        windows: OVER_TWO,
        ranges: "",
        kind: MemKind::Ram,
        size: 0x2000_0000,
        gran: Some(2),
        ways: 2,
        answers: &[Some(SetReason::Gran)],
    },
];

/// By the endpoints below the window's bridges.
const OF_ENDPOINTS: &[Row] = &[
    Row {
        name: "four ways over two endpoints",
        nodes: TWO_BY_ONE,
        windows: OVER_TWO,
        ranges: "",
        kind: MemKind::Ram,
        size: 0x4000_0000,
        gran: None,
        ways: 4,
        answers: &[Some(SetReason::Few(2))],
    },
    Row {
        name: "four ways, where two of four endpoints lie below the window's bridge",
        nodes: TWO_BY_TWO,
        windows: OVER_ONE,
        ranges: "",
        kind: MemKind::Ram,
        size: 0x4000_0000,
        gran: None,
        ways: 4,
        answers: &[Some(SetReason::Few(2))],
    },
    Row {
        name: "two ways of pmem, where one of two endpoints has pmem",
        nodes: "0x382, 0x382, 0x1b02 0 0 0x80000000 0x10000000, 0x1b02 1 0 0x80000000 0",
        windows: OVER_TWO,
        ranges: "",
        kind: MemKind::Pmem,
        size: 0x2000_0000,
        gran: None,
        ways: 2,
        answers: &[Some(SetReason::Few(1))],
    },
    Row {
        name: "one way of pmem, where none has any",
        nodes: TWO_BY_ONE,
        windows: OVER_ONE,
        ranges: "",
        kind: MemKind::Pmem,
        size: 0x1000_0000,
        gran: None,
        ways: 1,
        answers: &[Some(SetReason::Few(0))],
    },
];

/// By the codes of ports and endpoints.
const OF_CODES: &[Row] = &[
    Row {
        name: "three ways over two bridges",
        nodes: TWO_BY_TWO,
        windows: OVER_TWO,
        ranges: "",
        kind: MemKind::Ram,
        size: 0x3000_0000,
        gran: None,
        ways: 3,
        answers: &[Some(SetReason::NoCodes)],
    },
    Row {
        name: "two ways, both below one of two bridges that the window lists",
        nodes: "0x382, 0x382, 0x1b02 0 0 0x80000000 0, 0x1b02 0 1 0x80000000 0",
        windows: OVER_TWO,
        ranges: "",
        kind: MemKind::Ram,
        size: 0x2000_0000,
        gran: None,
        ways: 2,
        answers: &[Some(SetReason::NoCodes)],
    },
    Row {
        name: "bridges that cannot select on address bit 9",
        nodes: "0x282, 0x282, 0x1b02 0 0 0x80000000 0, 0x1b02 0 1 0x80000000 0, \
            0x1b02 1 0 0x80000000 0, 0x1b02 1 1 0x80000000 0",
        windows: OVER_TWO,
        ranges: "",
        kind: MemKind::Ram,
        size: 0x4000_0000,
        gran: None,
        ways: 4,
        answers: &[Some(SetReason::NoCodes)],
    },
    Row {
        name: "endpoints that cannot have three ways",
        nodes: "0x382, 0x382, 0x382, \
            0x302 0 0 0x10000000 0, 0x302 1 0 0x10000000 0, 0x302 2 0 0x10000000 0",
        windows: OVER_THREE_LONG,
        ranges: "",
        kind: MemKind::Ram,
        size: 0x3000_0000,
        gran: None,
        ways: 3,
        answers: &[Some(SetReason::NoCodes)],
    },
];

/// By room in common.
const OF_ROOM: &[Row] = &[
    Row {
        name: "3 GiB of each of two endpoints of 2 GiB",
        nodes: TWO_BY_ONE,
        windows: "0x200000000 0x200000000 0 0 0x000e 0 1",
        ranges: "",
        kind: MemKind::Ram,
        size: 0x1_8000_0000,
        gran: None,
        ways: 2,
        answers: &[Some(SetReason::NoRoom(Some(0x1_0000_0000)))],
    },
    Row {
        name: "4 GiB behind a region of 512 MiB in a window of 4 GiB",
        nodes: TWO_BY_ONE,
        windows: OVER_TWO,
        ranges: TWO_WAYS,
        kind: MemKind::Ram,
        size: 0x1_0000_0000,
        gran: None,
        ways: 2,
        answers: &[Some(SetReason::NoRoom(Some(0xe000_0000)))],
    },
    Row {
        name: "2 GiB in a window of 1 GiB",
        nodes: TWO_BY_ONE,
        windows: "0x100000000 0x40000000 0 0 0x000e 0 1",
        ranges: "",
        kind: MemKind::Ram,
        size: 0x8000_0000,
        gran: None,
        ways: 2,
        answers: &[Some(SetReason::NoRoom(Some(0x4000_0000)))],
    },
    Row {
        name: "512 MiB of each of three endpoints of 256 MiB",
        nodes: THREE_BY_ONE,
        windows: OVER_THREE_LONG,
        ranges: "",
        kind: MemKind::Ram,
        size: 0x6000_0000,
        gran: None,
        ways: 3,
        answers: &[Some(SetReason::NoRoom(Some(0x3000_0000)))],
    },
    Row {
        name: "bridges whose only decoder is committed",
        nodes: "0x380, 0x380, 0x1b02 0 0 0x80000000 0, 0x1b02 1 0 0x80000000 0",
        windows: OVER_TWO,
        ranges: TWO_WAYS,
        kind: MemKind::Ram,
        size: 0x2000_0000,
        gran: None,
        ways: 2,
        answers: &[Some(SetReason::NoRoom(None))],
    },
    Row {
        name: "four ways, which need 1 GiB, in a window of 512 MiB",
        nodes: TWO_BY_TWO,
        windows: "0x100000000 0x20000000 0 0 0x000e 0 1",
        ranges: "",
        kind: MemKind::Ram,
        size: 0x4000_0000,
        gran: None,
        ways: 4,
        answers: &[Some(SetReason::NoRoom(None))],
    },
];

/// Of a host with several windows, and of one where a set is picked.
const OF_SEVERAL: &[Row] = &[
    Row {
        name: "2 GiB over two endpoints of 2 GiB",
        nodes: TWO_BY_ONE,
        windows: OVER_TWO,
        ranges: "",
        kind: MemKind::Ram,
        size: 0x8000_0000,
        gran: None,
        ways: 2,
        answers: &[None],
    },
    Row {
        name: "4 GiB over four endpoints in four windows, of which the last has room",
        nodes: TWO_BY_TWO,
        windows: "0x8000000 0x10000000 0 0 0x000e 0, 0x100000000 0x100000000 0 0 0x000e 0, \
            0x200000000 0x40000000 0 0 0x000e 0 1, 0x300000000 0x200000000 0 0 0x000e 0 1",
        ranges: "",
        kind: MemKind::Ram,
        size: 0x1_0000_0000,
        gran: None,
        ways: 4,
        answers: &[
            Some(SetReason::Unusable),
            Some(SetReason::Few(2)),
            Some(SetReason::NoRoom(Some(0x4000_0000))),
            None,
        ],
    },
];
