//! What a line of a script asks for.

ghost use Rattle.std.specs.Prelude.{◌≡◌};
ghost use Rattle.cxl_script.specs.Reading.{IsUnlessMemory};
ghost use Rattle.cxl_script.specs.Grammar.{asked_in, command_in, asked_of, begin_in, only_name_in, only_address_in, up_in, load_in, store_in, poison_in, step_in, reach_in, pair_in};

use crate::command::{Command, Load, Pair, Poison, Reach, Store, Up};
use crate::create::create;
use crate::fault::{BadLine, LineFault, Why};
use crate::limits::{ACCESS_LIMIT, RANGE_LIMIT, STEP_LIMIT};
use crate::verb::{Verb, verb_of};
use crate::words::{Word, Words};
use cxl_enc::{ADDRESS_LIMIT, Name};
use cxl_io::LINE_LIMIT;
use std::alloc::Global;

/// What a line of a script asks for, without its ending: nothing where it has no word, or where its first
/// word begins with `#`. `Bad` is the first fault from the left; a line of more than 4,096 bytes has no
/// other. (This project's grammar.) Takes memory for the names and bytes that the line states.
pub fn read_command(alloc: Global, line: &[u8]) -> Result<Option<Command>, LineFault>
    ensures { IsUnlessMemory result (asked_in line.now) }
{
    if line.len() > LINE_LIMIT {
        return Err(LineFault::Bad(BadLine {
            at: LINE_LIMIT as u32,
            why: Why::Long,
        }));
    }
    let mut words = Words::new(line);
    match words.next() {
        Some(first) if !first.text.starts_with(b"#") => {
            Ok(Some(command(alloc, first, &mut words)?))
        }
        _ => Ok(None),
    }
}

/// What the first word of a line asks for, with the words behind it.
fn command(alloc: Global, first: Word<'_>, words: &mut Words<'_>) -> Result<Command, LineFault>
    ensures { IsUnlessMemory result (command_in words.old.len (record { at = first.entry.at; text = first.entry.text.now }) words.old.words) }
{
    match verb_of(first.text) {
        Some(verb) => asked_of(alloc, verb, words),
        None => Err(LineFault::Bad(first.bad(Why::Verb))),
    }
}

fn asked_of(alloc: Global, verb: Verb, words: &mut Words<'_>) -> Result<Command, LineFault>
    ensures { IsUnlessMemory result (asked_of verb words.old.len words.old.words) }
{
    match verb {
        Verb::Create => Ok(Command::Create(create(alloc, words)?)),
        Verb::Destroy => Ok(Command::Destroy(only_name(words)?)),
        Verb::Show => Ok(Command::Show(only_name(words)?)),
        Verb::Down => Ok(Command::Down(only_address(words)?)),
        Verb::Up => Ok(Command::Up(up(words)?)),
        Verb::Load => Ok(Command::Load(load(words)?)),
        Verb::Store => Ok(Command::Store(store(alloc, words)?)),
        Verb::Poison => Ok(Command::Poison(poison(alloc, words)?)),
        Verb::Begin => begin(alloc, words),
        Verb::Step => Ok(Command::Step(step(words)?)),
        Verb::Abort => Ok(words.ends(Command::Abort)?),
        Verb::Range => Ok(Command::Range(reach(RANGE_LIMIT, words)?)),
        Verb::Spread => Ok(Command::Spread(reach(ADDRESS_LIMIT, words)?)),
        Verb::Copy => Ok(Command::Copy(pair(words)?)),
        Verb::Move => Ok(Command::Move(pair(words)?)),
    }
}

/// What the words behind `begin` ask for.
fn begin(alloc: Global, words: &mut Words<'_>) -> Result<Command, LineFault>
    ensures { IsUnlessMemory result (begin_in words.old.len words.old.words) }
{
    let word = words.word()?;
    match verb_of(word.text) {
        Some(Verb::Create) => Ok(Command::BeginCreate(create(alloc, words)?)),
        Some(Verb::Destroy) => Ok(Command::BeginDestroy(only_name(words)?)),
        _ => Err(LineFault::Bad(word.bad(Why::Verb))),
    }
}

fn only_name(words: &mut Words<'_>) -> Result<Name, BadLine>
    ensures { result ≡ only_name_in words.old.len words.old.words }
{
    let name = words.name()?;
    words.ends(name)
}

fn only_address(words: &mut Words<'_>) -> Result<u64, BadLine>
    ensures { result ≡ only_address_in words.old.len words.old.words }
{
    let h = words.address()?;
    words.ends(h)
}

fn up(words: &mut Words<'_>) -> Result<Up, BadLine>
    ensures { result ≡ up_in words.old.len words.old.words }
{
    let endpoint = words.name()?;
    let dpa = words.address()?;
    words.ends(Up { endpoint, dpa })
}

fn load(words: &mut Words<'_>) -> Result<Load, BadLine>
    ensures { result ≡ load_in words.old.len words.old.words }
{
    let h = words.address()?;
    let len = words.number(1, ACCESS_LIMIT)?;
    words.ends(Load { h, len: len as u32 })
}

fn store(alloc: Global, words: &mut Words<'_>) -> Result<Store, LineFault>
    ensures { IsUnlessMemory result (store_in words.old.len words.old.words) }
{
    let h = words.address()?;
    let bytes = words.bytes(alloc, ACCESS_LIMIT as usize)?;
    Ok(words.ends(Store { h, bytes })?)
}

fn poison(alloc: Global, words: &mut Words<'_>) -> Result<Poison, LineFault>
    ensures { IsUnlessMemory result (poison_in words.old.len words.old.words) }
{
    let endpoint = words.name()?;
    let bytes = words.bytes(alloc, LINE_LIMIT)?;
    Ok(words.ends(Poison { endpoint, bytes })?)
}

fn step(words: &mut Words<'_>) -> Result<u32, BadLine>
    ensures { result ≡ step_in words.old.len words.old.words }
{
    let steps = words.number(1, STEP_LIMIT)?;
    words.ends(steps as u32)
}

/// An address and a number of bytes, from one to so many.
fn reach(most: u64, words: &mut Words<'_>) -> Result<Reach, BadLine>
    ensures { result ≡ reach_in most words.old.len words.old.words }
{
    let h = words.address()?;
    let len = words.number(1, most)?;
    words.ends(Reach { h, len })
}

fn pair(words: &mut Words<'_>) -> Result<Pair, BadLine>
    ensures { result ≡ pair_in words.old.len words.old.words }
{
    let from = words.name()?;
    let to = words.name()?;
    words.ends(Pair { from, to })
}
