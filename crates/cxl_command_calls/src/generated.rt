//! Generated systems: the bytes of a table, how many commands there are, and the first and last of each part.

use crate::common::row_passes;
use cxl_cedt::{Cedt, write};
use cxl_gen::{Made, command_count, make, make_command};
use cxl_script::Command;
use std::alloc::Global;
use std::process::Abort;

/// What a command asks for: of a region its size and how many endpoints it names, of a store its address and the number
/// in its first two bytes, of a load its address and how many bytes it reads.
fn numbers(command: Option<&Command>) -> (&'static str, u64, u64) {
    match command {
        Some(Command::Create(create)) => {
            ("create", create.size, create.endpoints.items().len() as u64)
        }
        Some(Command::Store(store)) => ("store", store.h, first_two(store.bytes.items())),
        Some(Command::Load(load)) => ("load", load.h, u64::from(load.len)),
        _ => ("", 0, 0),
    }
}

fn first_two(bytes: &[u8]) -> u64 {
    match bytes {
        [low, high, ..] => u64::from(*low) + 256 * u64::from(*high),
        _ => 0,
    }
}

/// Whether a region of this name is asked for, with this endpoint as its last.
fn is_region(command: Option<&Command>, name: &str, last: &str) -> bool {
    match command {
        Some(Command::Create(create)) => match create.endpoints.items() {
            [_, _, _, endpoint] => {
                create.name.bytes() == name.as_bytes() && endpoint.bytes() == last.as_bytes()
            }
            _ => false,
        },
        _ => false,
    }
}

/// A place among the commands, and what the command there asks for, as `numbers` tells it.
struct Row {
    name: &'static str,
    place: usize,
    verb: &'static str,
    first: u64,
    second: u64,
}

fn stands_there(commands: &[Command], row: &Row) -> bool {
    numbers(commands.get(row.place)) == (row.verb, row.first, row.second)
}

fn stand_there(rt: &impl Abort, commands: &[Command], rows: &[Row]) {
    for row in rows {
        row_passes(rt, row.name, stands_there(commands, row));
    }
}

/// Whether a table has these bytes, where they are told.
fn is_table(alloc: Global, cedt: &Cedt, want: Option<&[u8]>) -> bool {
    let Some(want) = want else {
        return true;
    };
    match write(alloc, cedt) {
        Ok(bytes) => bytes.as_slice() == want,
        Err(_) => false,
    }
}

/// A generated system: its number, its table where it is told, the place of a region's command, with that region and its
/// last endpoint, and what other commands ask for.
struct System {
    number: u32,
    table: Option<&'static [u8]>,
    place: usize,
    region: &'static str,
    last: &'static str,
    rows: &'static [Row],
}

/// Whether what was made is the system, as far as that is told.
fn is_system(rt: &(impl Abort + AllocGlobal), made: &Made, system: &System) -> bool {
    let commands = made.commands.items();
    stand_there(rt, commands, system.rows);
    is_region(commands.get(system.place), system.region, system.last)
        && is_table(rt.alloc(), &made.cedt, system.table)
}

fn is_made(rt: &(impl Abort + AllocGlobal), system: &System) -> bool {
    assert!(rt; 1 <= system.number && system.number <= 32);
    let made = make(rt.alloc(), system.number).expect(rt, "memory");
    let right = is_system(rt, &made, system);
    drop(made);
    right
}

#[test]
fn fewest_windows(rt: HostRuntime) {
    assert!(rt; is_made(&rt, &FEWEST_WINDOWS));
}

#[test]
fn most_windows(rt: HostRuntime) {
    assert!(rt; is_made(&rt, &MOST_WINDOWS));
}

/// Whether the command behind so many others, made in the place of the one before it, asks for this.
fn is_made_in_place(
    alloc: Global,
    number: u32,
    place: u32,
    asked: (&'static str, u64, u64),
) -> bool {
    if number > 32 || place == 0 || place >= command_count(number) {
        return false;
    }
    let mut command = Command::Abort;
    let made = make_command(alloc, number, place - 1, &mut command).is_ok()
        && make_command(alloc, number, place, &mut command).is_ok()
        && numbers(Some(&command)) == asked;
    drop(command);
    made
}

#[test]
fn one_behind_the_other(rt: HostRuntime) {
    let last_store = ("store", 0x10_003e_ae70, 999);
    assert!(rt; is_made_in_place(rt.alloc(), 1, 1_000, last_store));
    assert!(rt; is_made_in_place(rt.alloc(), 1, 1_001, ("load", 0x10_0000_0000, 8)));
}

const FEWEST_WINDOWS: System = System {
    number: 1,
    table: Some(&TABLE),
    place: 0,
    region: "r0",
    last: "e3",
    rows: FEWEST,
};

const MOST_WINDOWS: System = System {
    number: 32,
    table: None,
    place: 31_031,
    region: "r31",
    last: "e127",
    rows: MOST,
};

const FEWEST: &[Row] = &[
    Row {
        name: "the region",
        place: 0,
        verb: "create",
        first: 0x1_0000_0000,
        second: 4,
    },
    Row {
        name: "the first store",
        place: 1,
        verb: "store",
        first: 0x10_0000_0000,
        second: 0,
    },
    Row {
        name: "the last store",
        place: 1_000,
        verb: "store",
        first: 0x10_003e_ae70,
        second: 999,
    },
    Row {
        name: "the first load",
        place: 1_001,
        verb: "load",
        first: 0x10_0000_0000,
        second: 8,
    },
    Row {
        name: "the last load",
        place: 2_000,
        verb: "load",
        first: 0x10_003e_ae70,
        second: 8,
    },
    Row {
        name: "behind the last command",
        place: 2_001,
        verb: "",
        first: 0,
        second: 0,
    },
];

const MOST: &[Row] = &[
    Row {
        name: "the second region",
        place: 1_001,
        verb: "create",
        first: 0x1_0000_0000,
        second: 4,
    },
    Row {
        name: "the first store to it",
        place: 1_002,
        verb: "store",
        first: 0x20_0000_0000,
        second: 0,
    },
    Row {
        name: "the last store",
        place: 32_031,
        verb: "store",
        first: 0x200_003e_ae70,
        second: 999,
    },
    Row {
        name: "the first load",
        place: 32_032,
        verb: "load",
        first: 0x10_0000_0000,
        second: 8,
    },
    Row {
        name: "the last load",
        place: 64_031,
        verb: "load",
        first: 0x200_003e_ae70,
        second: 8,
    },
    Row {
        name: "behind the last command",
        place: 64_032,
        verb: "",
        first: 0,
        second: 0,
    },
];

/// The table of one window: the header, two bridges, the maps of the codes 1, 3 and 5, and the window.
const TABLE: [u8; 192] = [
    0x43, 0x45, 0x44, 0x54, 0xc0, 0, 0, 0, 0x01, 0x9a, 0, 0, 0, 0, 0, 0, //
    0, 0, 0, 0, 0, 0, 0, 0, 0, 0, 0, 0, 0, 0, 0, 0, //
    0, 0, 0, 0, 0, 0, 0x20, 0, 0, 0, 0, 0, 0x01, 0, 0, 0, //
    0, 0, 0, 0, 0, 0, 0, 0x80, 0, 0, 0, 0, 0, 0, 0x01, 0, //
    0, 0, 0, 0, 0, 0, 0x20, 0, 0x01, 0, 0, 0, 0x01, 0, 0, 0, //
    0, 0, 0, 0, 0, 0, 0x01, 0x80, 0, 0, 0, 0, 0, 0, 0x01, 0, //
    0, 0, 0, 0, 0x02, 0, 0x10, 0, 0, 0, 0x01, 0x01, 0, 0x82, 0, 0, //
    0, 0, 0, 0, 0x02, 0, 0x10, 0, 0, 0, 0x03, 0x01, 0, 0x08, 0x02, 0, //
    0, 0, 0, 0, 0x02, 0, 0x10, 0, 0, 0, 0x05, 0x01, 0, 0x20, 0x08, 0, //
    0, 0, 0, 0, 0x01, 0, 0x2c, 0, 0, 0, 0, 0, 0, 0, 0, 0, //
    0x10, 0, 0, 0, 0, 0, 0, 0, 0x04, 0, 0, 0, 0x01, 0, 0, 0, //
    0, 0, 0, 0, 0x06, 0, 0, 0, 0, 0, 0, 0, 0x01, 0, 0, 0,
];
