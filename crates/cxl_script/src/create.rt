//! The words of a create line.

ghost use Rattle.std.specs.Prelude.{◌≡◌};
ghost use Rattle.cxl_io.specs.Numbers.{number_of};
ghost use Rattle.cxl_script.specs.Reading.{IsUnlessMemory, GivesWithRest, ranged};
ghost use Rattle.cxl_script.specs.Grammar.{head_in, names_in, some_names_in, create_over, over_ways, over_names, ways_limit, create_in};

use crate::command::Create;
use crate::fault::{BadLine, LineFault};
use crate::limits::WAYS_LIMIT;
use crate::reading::{ranged, word_as_name};
use crate::words::{Word, Words};
use cxl_enc::{FixedList, MemKind, Name};
use std::alloc::Global;

/// What a create line states before its endpoints.
#[derive(Clone, Copy)]
pub(crate) struct Head {
    pub(crate) name: Name,
    pub(crate) kind: MemKind,
    pub(crate) size: u64,
    pub(crate) gran: Option<u8>,
}

/// The words of a create line behind its verb.
pub(crate) fn create(alloc: Global, words: &mut Words<'_>) -> Result<Create, LineFault>
    ensures { IsUnlessMemory result (create_in words.old.len words.old.words) }
{
    let head = read_head(words)?;
    match words.next_behind(b"ways=") {
        Some(word) => Ok(over_ways(alloc, head, word, words)?),
        None => over_names(alloc, head, words),
    }
}

/// A region over as many endpoints as a word says, which are to be picked.
fn over_ways(
    alloc: Global,
    head: Head,
    word: Word<'_>,
    words: &Words<'_>,
) -> Result<Create, BadLine>
    ensures { result ≡ over_ways head (ranged word.entry.at 1 ways_limit (number_of word.entry.text.now)) words.now.words }
{
    let ways = ranged(word, 1, WAYS_LIMIT)?;
    let none = FixedList::new(Vec::new(alloc));
    words.ends(create_over(head, none, Some(ways as u8)))
}

/// A region over the endpoints that the line names, one or more.
fn over_names(alloc: Global, head: Head, words: &mut Words<'_>) -> Result<Create, LineFault>
    ensures { IsUnlessMemory result (over_names head (some_names_in words.old.len words.old.words)) }
{
    if words.is_empty() {
        return Err(LineFault::Bad(words.missing()));
    }
    let endpoints = names(alloc, words)?;
    Ok(create_over(head, endpoints, None))
}

fn read_head(words: &mut Words<'_>) -> Result<Head, BadLine>
    ensures head { GivesWithRest result words.new.words (head_in words.old.len words.old.words) }
    ensures len { words.new.len ≡ words.old.len }
{
    let name = words.name()?;
    let kind = words.kind()?;
    let size = words.address()?;
    let gran = words.gran()?;
    Ok(Head {
        name,
        kind,
        size,
        gran,
    })
}

fn create_over(head: Head, endpoints: FixedList<Name>, ways: Option<u8>) -> Create
    ensures { result ≡ create_over head endpoints ways }
{
    Create {
        name: head.name,
        kind: head.kind,
        size: head.size,
        gran: head.gran,
        endpoints,
        ways,
    }
}

/// The names of endpoints, to the end of the line.
fn names(alloc: Global, words: &mut Words<'_>) -> Result<FixedList<Name>, LineFault>
    ensures { IsUnlessMemory result (names_in words.old.words) }
{
    let mut names = Vec::new(alloc);
    while let Some(word) = words.next() {
        names.push(word_as_name(word)?)?;
    }
    Ok(FixedList::new(names))
}
