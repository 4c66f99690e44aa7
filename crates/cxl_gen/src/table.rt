//! The table of a generated system.

ghost use Rattle.std.specs.Prelude.{◌≡◌, ◌+◌, ◌<◌, ◌≤◌, ◌++◌, [], ◌∷◌, map, IfOk, OnOk};
ghost use Rattle.std.specs.List.{range_with_len};
ghost use Rattle.cxl_gen.specs.Made.{made_chbs, made_cxims, made_window, made_records, made_table, window_base};

use cxl_cedt::{Cedt, Cfmws, Chbs, Cxims, Head, Record};
use cxl_enc::Memory;
use std::alloc::Global;

/// The table of a number: so many windows, two bridges for each, and three maps. (This project's rule.) Takes memory.
pub fn made_table(alloc: Global, n: u32) -> Result<Cedt, Memory>
    requires { n ≤ 32 }
    ensures { IfOk result (λ cedt. cedt ≡ made_table n) }
{
    let head = Head {
        revision: 1,
        oem_id: [0; 6],
        oem_table: [0; 8],
        oem_revision: 0,
        creator: [0; 4],
        creator_revision: 0,
    };
    let records = records_of(alloc, n)?;
    Ok(Cedt::new(head, records))
}

fn records_of(alloc: Global, n: u32) -> Result<Vec<Record>, Memory>
    requires { n ≤ 32 }
    ensures { IfOk result (λ records. records.items ≡ made_records n) }
{
    let mut records = Vec::with_capacity(alloc, 3 * n as usize + 3)?;
    add_bridges(&mut records, 2 * n)?;
    add_maps(&mut records, alloc)?;
    add_windows(&mut records, alloc, n)?;
    Ok(records)
}

fn add_bridges(records: &mut Vec<Record>, count: u32) -> Result<(), Memory>
    requires { count ≤ 64 }
    ensures { OnOk result (records.new.items ≡ records.old.items ++ map made_chbs (range_with_len 0 count)) }
{
    for i in 0..count {
        records.push(made_chbs(i))?;
    }
    Ok(())
}

fn made_chbs(i: u32) -> Record
    requires { i < 64 }
    ensures { result ≡ made_chbs i }
{
    Record::Chbs(Chbs {
        uid: i,
        version: 1,
        base: 0x8000_0000 + 0x1_0000 * u64::from(i),
        length: 0x1_0000,
    })
}

fn add_maps(records: &mut Vec<Record>, alloc: Global) -> Result<(), Memory>
    ensures { OnOk result (records.new.items ≡ records.old.items ++ map made_cxims (1 ∷ 3 ∷ 5 ∷ [])) }
{
    add_map(records, alloc, 1)?;
    add_map(records, alloc, 3)?;
    add_map(records, alloc, 5)?;
    Ok(())
}

fn add_map(records: &mut Vec<Record>, alloc: Global, gran: u8) -> Result<(), Memory>
    requires { gran ≤ 6 }
    ensures { OnOk result (records.new.items ≡ records.old.items ++ made_cxims gran ∷ []) }
{
    Ok(records.push(made_cxims(alloc, gran)?)?)
}

fn made_cxims(alloc: Global, gran: u8) -> Result<Record, Memory>
    requires { gran ≤ 6 }
    ensures { IfOk result (λ made. made ≡ made_cxims gran) }
{
    let map = (1u64 << (gran + 8)) + (1u64 << (gran + 14));
    let maps = Vec::from_array(alloc, [map])?;
    Ok(Record::Cxims(Cxims::new(gran, maps)))
}

fn add_windows(records: &mut Vec<Record>, alloc: Global, count: u32) -> Result<(), Memory>
    requires { count ≤ 32 }
    ensures { OnOk result (records.new.items ≡ records.old.items ++ map made_window (range_with_len 0 count)) }
{
    for j in 0..count {
        records.push(made_window(alloc, j)?)?;
    }
    Ok(())
}

fn made_window(alloc: Global, j: u32) -> Result<Record, Memory>
    requires { j < 32 }
    ensures { IfOk result (λ made. made ≡ made_window j) }
{
    let targets = Vec::from_array(alloc, [2 * j, 2 * j + 1])?;
    Ok(Record::Cfmws(Cfmws::new(
        window_base(j),
        0x4_0000_0000,
        1,
        j % 2 == 1,
        (j % 6) as u8,
        6,
        0,
        targets,
    )))
}

/// The first host address of window `j`.
pub(crate) fn window_base(j: u32) -> u64
    requires { j < 32 }
    ensures { result ≡ window_base j }
{
    0x10_0000_0000 * (u64::from(j) + 1)
}
