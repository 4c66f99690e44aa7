//! The reader of poison lists.

ghost use Rattle.std.specs.Prelude.{◌≡◌, ◌+◌, ◌*◌, ◌<◌, ◌≤◌, if◌then◌else◌, List, length, Option, Some, None, Ok, Err, IfOk, IfErr, IfSome, IfNone};
ghost use Rattle.cxl_model.specs.declared.poison.PoisonList.{PoisonList};
ghost use Rattle.cxl_poison.specs.declared.fault.PoisonFault.{PoisonFault};
ghost use Rattle.cxl_poison.specs.Payload.{payload_head, record_size, has_flag, timestamp_said, records_said, entry_from, entries_from, IsPoisonPayload, IsPoisonFault, IsPoisonFaultOf, IsPoisonAnswer};

use crate::fault::{PoisonFault, Said};
use byteorder::{ByteOrder, LittleEndian};
use cxl_enc::{FixedList, Memory};
use cxl_model::{Entry, PoisonList};
use std::alloc::Global;

/// The bytes before the first record.
const HEAD: usize = 32;

/// The bytes of each record.
const RECORD: usize = 16;

/// The poison list of a device's answer. `Short` comes below 32 bytes, `Count` where it has fewer records than it says.
/// Reserved bytes, and those behind the counted records, may be any. Takes memory. (CXL Get Poison List output.)
pub fn read_list(alloc: Global, bytes: &[u8]) -> Result<PoisonList, PoisonFault>
    ensures list { IfOk result (λ list. IsPoisonPayload bytes.now list) }
    ensures fault { IfErr result (λ fault. IsPoisonFaultOf bytes.now fault) }
    // The list is read, and the fault is answered, unless memory runs out.
    ensures only_list { (list : PoisonList) → IsPoisonPayload bytes.now list → IsPoisonAnswer result (Ok list) }
    ensures only_fault { (fault : PoisonFault) → IsPoisonFault bytes.now fault → IsPoisonAnswer result (Err fault) }
{
    list_of(alloc, bytes)
}

fn list_of(alloc: Global, bytes: &[u8]) -> Result<PoisonList, PoisonFault>
    ensures list { IfOk result (λ list. IsPoisonPayload bytes.now list) }
    ensures fault { IfErr result (λ fault. IsPoisonFaultOf bytes.now fault) }
{
    if let Some(fault) = poison_fault(bytes) {
        return Err(fault);
    }
    Ok(sound_list(alloc, bytes)?)
}

/// Why the bytes are no list, where they are none.
fn poison_fault(bytes: &[u8]) -> Option<PoisonFault>
    ensures some { IfSome result (λ fault. IsPoisonFault bytes.now fault) }
    ensures head { IfNone result (payload_head ≤ length bytes.now) }
    ensures room { IfNone result (payload_head + record_size * records_said bytes.now ≤ length bytes.now) }
{
    if bytes.len() < HEAD {
        return Some(PoisonFault::Short);
    }
    let said = records_said(bytes);
    let behind = bytes.len() - HEAD;
    if RECORD * usize::from(said) > behind {
        return Some(PoisonFault::Count(Said {
            said: u32::from(said),
            room: (behind / RECORD) as u32,
        }));
    }
    None
}

/// The list of bytes that are one.
fn sound_list(alloc: Global, bytes: &[u8]) -> Result<PoisonList, Memory>
    requires head { payload_head ≤ length bytes.now }
    requires room { payload_head + record_size * records_said bytes.now ≤ length bytes.now }
    ensures { IfOk result (λ list. IsPoisonPayload bytes.now list) }
{
    let records = entries_from(alloc, bytes, records_said(bytes))?;
    Ok(PoisonList {
        more: has_flag(bytes, 0),
        overflow: overflow(bytes),
        scanning: has_flag(bytes, 2),
        records: FixedList::new(records),
    })
}

/// So many records behind the head.
fn entries_from(alloc: Global, bytes: &[u8], count: u16) -> Result<Vec<Entry>, Memory>
    requires { payload_head + record_size * count ≤ length bytes.now }
    ensures { IfOk result (λ entries. entries.items ≡ entries_from bytes.now count) }
{
    let entries = (0..count)
        .map(|i| entry_from(bytes, HEAD + RECORD * usize::from(i)))
        .collect(alloc)?;
    Ok(entries)
}

/// The record at a byte place.
#[tactic(auto, unfolding(crate::specs::Payload::entry_from))]
fn entry_from(bytes: &[u8], at: usize) -> Entry
    requires { at + record_size ≤ length bytes.now }
    ensures { result ≡ entry_from bytes.now at }
{
    let address = LittleEndian::read_u64(&bytes[at..]);
    Entry {
        dpa: address / 64 * 64,
        units: LittleEndian::read_u32(&bytes[at + 8..]),
        source: (address % 8) as u8,
    }
}

/// How many records there are said to be.
#[tactic(auto, unfolding(crate::specs::Payload::records_said))]
fn records_said(bytes: &[u8]) -> u16
    requires { payload_head ≤ length bytes.now }
    ensures { result ≡ records_said bytes.now }
{
    LittleEndian::read_u16(&bytes[10..])
}

/// When the device's list overflowed, where it did.
#[tactic(auto, unfolding(crate::specs::Payload::timestamp_said))]
fn overflow(bytes: &[u8]) -> Option<u64>
    requires { payload_head ≤ length bytes.now }
    ensures { result ≡ (if has_flag bytes.now 1 then Some (timestamp_said bytes.now) else None) }
{
    if has_flag(bytes, 1) {
        Some(LittleEndian::read_u64(&bytes[2..]))
    } else {
        None
    }
}

fn has_flag(bytes: &[u8], k: u8) -> bool
    requires some { payload_head ≤ length bytes.now }
    requires few { k < 8 }
    ensures { result ≡ has_flag bytes.now k }
{
    (bytes[0] >> k) & 1 == 1
}
