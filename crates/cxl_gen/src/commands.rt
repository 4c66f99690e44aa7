//! The commands that are given to a generated system.

ghost use Rattle.std.specs.Prelude.{◌≡◌, ◌*◌, ◌<◌, ◌≤◌, map, length, slice_get, Some, IfOk, OnOk, OnErr};
ghost use Rattle.std.specs.List.{range_with_len};
ghost use Rattle.cxl_gen.specs.Made.{endpoint_name, store_place, made_create, made_store, made_load, made_region, made_commands};

use crate::names::made_name;
use crate::table::window_base;
use cxl_enc::{FixedList, MemKind, Memory, Name};
use cxl_script::{Command, Create, Load, Store};
use std::alloc::Global;

/// How many stores a region has, and how many loads.
const ACCESSES: u32 = 1_000;

/// How many commands make a region and store to it.
const FILLING: u32 = 1_001;

/// The commands of a number.
pub(crate) fn commands_of(alloc: Global, n: u32) -> Result<Vec<Command>, Memory>
    requires { n ≤ 32 }
    ensures { IfOk result (λ commands. commands.items ≡ made_commands n) }
{
    let count = command_count(n);
    let mut commands = Vec::with_capacity(alloc, count as usize)?;
    for k in 0..count {
        let mut command = Command::Abort;
        make_command(alloc, n, k, &mut command)?;
        commands.push(command)?;
    }
    Ok(commands)
}

/// How many commands a number from 1 to 32 has. (This project's rule.)
pub fn command_count(n: u32) -> u32
    requires { n ≤ 32 }
    ensures { result ≡ length (made_commands n) }
{
    (FILLING + ACCESSES) * n
}

/// Makes a command the one of a number that stands behind `k` others, whatever it was before, so that each can be carried out
/// before the next is made. (This project's rule.) Takes memory for it alone; a store behind a store keeps the memory of its
/// bytes. After `Memory` the command is as before.
pub fn make_command(alloc: Global, n: u32, k: u32, command: &mut Command) -> Result<(), Memory>
    requires few { n ≤ 32 }
    requires there { k < length (made_commands n) }
    ensures ok { OnOk result (slice_get (made_commands n) k ≡ Some command.new) }
    ensures err { OnErr result (command.new ≡ command.old) }
{
    let filling = FILLING * n;
    if k < filling {
        return make_filling(alloc, k / FILLING, k % FILLING, command);
    }
    let load = k - filling;
    make_load(load / ACCESSES, load % ACCESSES, command);
    Ok(())
}

/// Makes a command the one behind `i` others of those by which region `j` is made and stored to.
fn make_filling(alloc: Global, j: u32, i: u32, command: &mut Command) -> Result<(), Memory>
    requires region { j < 32 }
    requires place { i < 1001 }
    ensures ok { OnOk result (slice_get (made_region j) i ≡ Some command.new) }
    ensures err { OnErr result (command.new ≡ command.old) }
{
    if i == 0 {
        *command = made_create(alloc, j)?;
        Ok(())
    } else {
        make_store(alloc, j, i - 1, command)
    }
}

fn made_create(alloc: Global, j: u32) -> Result<Command, Memory>
    requires { j < 32 }
    ensures { IfOk result (λ command. command ≡ made_create j) }
{
    Ok(Command::Create(Create {
        name: made_name(alloc, b"r", j)?,
        kind: MemKind::Ram,
        size: 0x1_0000_0000,
        gran: None,
        endpoints: FixedList::new(endpoint_names(alloc, j)?),
        ways: None,
    }))
}

fn endpoint_names(alloc: Global, j: u32) -> Result<Vec<Name>, Memory>
    requires { j < 32 }
    ensures { IfOk result (λ names. names.items ≡ map endpoint_name (range_with_len (4 * j) 4)) }
{
    let mut names = Vec::with_capacity(alloc, 4)?;
    for k in 0..4 {
        names.push(made_name(alloc, b"e", 4 * j + k)?)?;
    }
    Ok(names)
}

/// Makes a command the store of number `i` in region `j`. One that is a store of as many bytes keeps their memory.
fn make_store(alloc: Global, j: u32, i: u32, command: &mut Command) -> Result<(), Memory>
    requires region { j < 32 }
    requires access { i < 1000 }
    ensures ok { OnOk result (command.new ≡ made_store j i) }
    ensures err { OnErr result (command.new ≡ command.old) }
{
    let h = store_place(j, i);
    let bytes = u64::from(i).to_le_bytes();
    match command {
        Command::Store(store) if store.bytes.items().len() == 8 => {
            store.h = h;
            store.bytes.replace_all(&bytes);
        }
        _ => *command = new_store(alloc, h, &bytes)?,
    }
    Ok(())
}

/// The store of these bytes, in memory of their own.
fn new_store(alloc: Global, h: u64, bytes: &[u8]) -> Result<Command, Memory>
    ensures { IfOk result (λ command. command ≡ Command.Store (record { h = h; bytes = bytes.now })) }
{
    let bytes = FixedList::new(Vec::from_slice(alloc, bytes)?);
    Ok(Command::Store(Store { h, bytes }))
}

/// Makes a command the load of number `i` in region `j`, within a load where it is one.
fn make_load(j: u32, i: u32, command: &mut Command)
    requires region { j < 32 }
    requires access { i < 1000 }
    ensures { command.new ≡ made_load j i }
{
    let asked = Load {
        h: store_place(j, i),
        len: 8,
    };
    match command {
        Command::Load(load) => *load = asked,
        _ => *command = Command::Load(asked),
    }
}

/// Where the bytes of number `i` stand in region `j`.
fn store_place(j: u32, i: u32) -> u64
    requires region { j < 32 }
    requires access { i < 1000 }
    ensures { result ≡ store_place j i }
{
    window_base(j) + 0x1010 * u64::from(i)
}
