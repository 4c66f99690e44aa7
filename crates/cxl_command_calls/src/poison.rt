//! Poison lists: what the bytes of a device are read as, and which are refused.

use cxl_poison::{PoisonFault, PoisonList, Said, read_list};
use std::alloc::Global;
use std::process::Abort;
use std::test::*;

/// A list of 32 bytes and one record: flags, count, and the record's first eight bytes and its length.
fn payload(flags: u8, count: u8, address: [u8; 8], length: u8) -> [u8; 48] {
    let mut bytes = [0; 48];
    bytes[0] = flags;
    bytes[2] = 0x0b;
    bytes[3] = 0x0a;
    bytes[10] = count;
    bytes[32..40].copy_from_slice(&address);
    bytes[40] = length;
    bytes
}

/// A device address with a source in its lowest bits, and those between that are reserved.
const ADDRESS: [u8; 8] = [0xfa, 0xff, 0xff, 0x0f, 0, 0, 0, 0];

/// Whether a list says this besides its records.
fn says(list: &PoisonList, more: bool, overflow: Option<u64>, scanning: bool) -> bool {
    list.more == more && list.overflow == overflow && list.scanning == scanning
}

fn read(rt: &impl Abort, alloc: Global, bytes: &[u8]) -> PoisonList {
    read_list(alloc, bytes).expect(rt, "a list")
}

fn has_record(list: &PoisonList, dpa: u64, units: u32, source: u8) -> bool {
    match list.records.items() {
        [record] => record.dpa == dpa && record.units == units && record.source == source,
        _ => false,
    }
}

fn has_one_record(list: &PoisonList) -> bool {
    says(list, false, None, false) && has_record(list, 0xfff_ffc0, 2, 2)
}

fn has_every_flag(list: &PoisonList) -> bool {
    says(list, true, Some(0x0a0b), true) && list.records.items().is_empty()
}

#[test]
fn lists(rt: HostRuntime) {
    let one = read(&rt, rt.alloc(), &payload(0, 1, ADDRESS, 2));
    assert!(rt; has_one_record(&one));
    let flagged = read(&rt, rt.alloc(), &payload(0b111, 0, ADDRESS, 2));
    assert!(rt; has_every_flag(&flagged));
}

/// Whether the first bytes of these are refused for this fault.
fn is_refused(alloc: Global, bytes: &[u8], len: usize, want: PoisonFault) -> bool {
    let Some(front) = bytes.get(..len) else {
        return false;
    };
    match read_list(alloc, front) {
        Ok(_) => false,
        Err(fault) => fault == want,
    }
}

#[test]
fn faults(rt: HostRuntime) {
    let bytes = payload(0, 2, [0; 8], 2);
    let one_there = PoisonFault::Count(Said { said: 2, room: 1 });
    let none_there = PoisonFault::Count(Said { said: 2, room: 0 });
    assert!(rt; is_refused(rt.alloc(), &bytes, 48, one_there));
    assert!(rt; is_refused(rt.alloc(), &bytes, 47, none_there));
    assert!(rt; is_refused(rt.alloc(), &bytes, 31, PoisonFault::Short));
}
