//! A table of the CEDT with a record of each kind: how it is made, written and read. Faults of tables stand in `worked/faults`.

use crate::common::{row_passes, rows};
use cxl_cedt::{Cedt, Cfmws, Chbs, Cxims, Head, Other, Record, read, write};
use std::process::Abort;
use std::test::*;

/// Two bridges, 0 and 1; one window of 4 GiB over both by XOR, 256 bytes each in turn; the map of 256 bytes; and a record of another
/// type, whose reserved byte is kept.
const TABLE: [u8; 168] = [
    0x43, 0x45, 0x44, 0x54, 0xa8, 0, 0, 0, 0x01, 0xff, 0, 0, 0, 0, 0, 0, 0, 0, //
    0, 0, 0, 0, 0, 0, 0, 0, 0, 0, 0, 0, 0, 0, 0, 0, 0, 0, //
    0, 0, 0x20, 0, 0, 0, 0, 0, 0x01, 0, 0, 0, 0, 0, 0, 0, //
    0, 0, 0, 0x80, 0, 0, 0, 0, 0, 0, 0x01, 0, 0, 0, 0, 0, //
    0, 0, 0x20, 0, 0x01, 0, 0, 0, 0x01, 0, 0, 0, 0, 0, 0, 0, //
    0, 0, 0x01, 0x80, 0, 0, 0, 0, 0, 0, 0x01, 0, 0, 0, 0, 0, //
    0x01, 0, 0x2c, 0, 0, 0, 0, 0, 0, 0, 0, 0, 0x01, 0, 0, 0, //
    0, 0, 0, 0, 0x01, 0, 0, 0, 0x01, 0x01, 0, 0, 0, 0, 0, 0, //
    0x0e, 0, 0, 0, 0, 0, 0, 0, 0x01, 0, 0, 0, //
    0x02, 0, 0x10, 0, 0, 0, 0, 0x01, 0, 0x41, 0x40, 0, 0, 0, 0, 0, //
    0x04, 0x03, 0x08, 0, 0xaa, 0xbb, 0xcc, 0xde,
];

/// A bridge with version 1 and 64 KiB of registers.
fn bridge(uid: u32, base: u64) -> Record {
    Record::Chbs(Chbs {
        uid,
        version: 1,
        base,
        length: 0x1_0000,
    })
}

/// The window of 4 GiB at 4 GiB over both bridges.
pub(crate) fn window(rt: &(impl Abort + AllocGlobal), xor: bool) -> Record {
    let base = 0x1_0000_0000;
    let targets = Vec::from_slice(rt.alloc(), &[0, 1]).expect(rt, "memory");
    Record::Cfmws(Cfmws::new(base, base, 1, xor, 0, 0x000e, 0, targets))
}

/// The record of the one map.
fn one_map(rt: &(impl Abort + AllocGlobal)) -> Record {
    let maps = Vec::from_slice(rt.alloc(), &[0x40_4100]).expect(rt, "memory");
    Record::Cxims(Cxims::new(0, maps))
}

/// The table of these records.
pub(crate) fn table(rt: &(impl Abort + AllocGlobal), xor: bool) -> Cedt {
    let body = Vec::from_slice(rt.alloc(), &TABLE[164..]).expect(rt, "memory");
    let other = Record::Other(Other::new(4, 3, body));
    let records = vec![in rt.alloc();
        bridge(0, 0x8000_0000),
        bridge(1, 0x8001_0000),
        window(rt, xor),
        one_map(rt),
        other,
    ];
    let records = records.expect(rt, "memory");
    assert!(rt; Cedt::can_hold(&records));
    let head = Head {
        revision: 1,
        oem_id: [0; 6],
        oem_table: [0; 8],
        oem_revision: 0,
        creator: [0; 4],
        creator_revision: 0,
    };
    Cedt::new(head, records)
}

/// Whether it is the window by XOR over both bridges.
fn is_window(window: &Cfmws) -> bool {
    let range = (window.base(), window.size());
    let codes = (window.ways(), window.xor(), window.gran());
    let rest = (window.restrict(), window.qtg());
    range == (0x1_0000_0000, 0x1_0000_0000)
        && codes == (1, true, 0)
        && rest == (0x000e, 0)
        && window.targets() == [0, 1].as_slice()
}

/// Whether they are the records of the table.
fn are_records(records: &[Record]) -> bool {
    let [
        Record::Chbs(first),
        Record::Chbs(second),
        Record::Cfmws(window),
        Record::Cxims(maps),
        Record::Other(other),
    ] = records
    else {
        return false;
    };
    (first.uid, first.version, first.base, first.length) == (0, 1, 0x8000_0000, 0x1_0000)
        && (second.uid, second.base) == (1, 0x8001_0000)
        && is_window(window)
        && maps.gran() == 0
        && maps.maps() == [0x40_4100].as_slice()
        && (other.kind(), other.reserved()) == (4, 3)
        && other.body() == &TABLE[164..]
}

/// Made of its parts it is written as its bytes, and these are read as its parts.
#[test]
fn made_written_and_read(rt: HostRuntime) {
    let made = table(&rt, true);
    assert!(rt; made.size() == 168 && are_records(made.records()));
    let bytes = write(rt.alloc(), &made).expect(&rt, "memory");
    assert!(rt; bytes.as_slice() == TABLE.as_slice());
    let cedt = read(rt.alloc(), &TABLE).ok().expect(&rt, "a table");
    assert!(rt; *cedt.head() == *made.head() && are_records(cedt.records()));
    drop(cedt);
    drop(made);
}

/// So many windows, and tables of one map.
fn windows_and_maps(rt: &(impl Abort + AllocGlobal), windows: u32, maps: u32) -> Vec<Record> {
    let mut records = Vec::new(rt.alloc());
    for i in 0..128 {
        if i < windows {
            records.push(window(rt, true)).expect(rt, "memory");
        }
        if i < maps {
            records.push(one_map(rt)).expect(rt, "memory");
        }
    }
    records
}

/// How many windows and tables of maps there are, and whether a table may hold them: at most 64 are of one type.
struct CountRow {
    name: &'static str,
    windows: u32,
    maps: u32,
    held: bool,
}

const COUNTS: &[CountRow] = rows! {
    CountRow { name, windows, maps, held };
    "the most of both", 64, 64, true;
    "a window too many", 65, 0, false;
    "a table of maps too many", 0, 65, false;
};

#[test]
fn many_windows_and_maps(rt: HostRuntime) {
    for row in COUNTS {
        let records = windows_and_maps(&rt, row.windows, row.maps);
        row_passes(&rt, row.name, Cedt::can_hold(&records) == row.held);
    }
}
