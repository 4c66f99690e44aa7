//! What the words of the command line ask for.

ghost use Rattle.std.specs.Prelude.{◌≡◌, true, IfOk, OnErr};
ghost use Rattle.cxl_io.specs.Numbers.{number_of};
ghost use Rattle.cxl_commands.specs.Plain.{plain};
ghost use Rattle.cxl_commands.specs.Form.{route_form, list_form, normal_form, check_form, plan_form, create_on_line, run_form, gen_of, gen_form, alone, takes_memory, form_of};
ghost use Rattle.cxl_commands.specs.Words.{bytes_of};

use cxl_io::{Memory, read_number};
use cxl_script::{Command, Create, LineFault, read_command};
use std::alloc::Global;

/// What the words of the command line ask for, in two parts: which files they name, and what is asked of them.
#[derive(Drop)]
pub enum Form<'a> {
    /// Something of the table in a file.
    OfTable(&'a str, TableAsk),
    /// Something of the host of a table and a topology after reset.
    OfResetHost(&'a str, &'a str, ResetAsk),
    /// Something of the host of a table, a topology and an image.
    OfHost(&'a str, &'a str, &'a str, HostAsk),
    /// Something that no file tells.
    OfWords(WordsAsk),
}

/// What is asked of a table.
#[derive(Clone, Copy)]
pub enum TableAsk {
    /// The window, position and bridge of a host address.
    Route(u64),
    /// A line for each record.
    Listing,
    /// Its bytes, as the writer gives them.
    Normal,
}

/// What is asked of a host after reset.
#[derive(Drop)]
pub enum ResetAsk {
    /// How the region of a create line would be made.
    Plan(Create),
    /// The commands of a script.
    Script,
}

/// What is asked of a host with an image.
#[derive(Clone, Copy)]
pub enum HostAsk {
    /// Its regions, or the first breach.
    Check,
    /// The commands of a script.
    Script,
}

/// What is asked of no file.
#[derive(Clone, Copy)]
pub enum WordsAsk {
    /// A plan is asked for by a line that does not ask for a region.
    NoCreate,
    Help,
    Version,
    /// The words are none of the forms, or a word is no number that has to be one.
    Unreadable,
    /// The commands of the generated system of this number.
    Gen(u32),
}

/// Reads the words of the command line, without the name of the program. A create line takes memory.
pub fn form_of(alloc: Global, words: &[String]) -> Result<Form<'_>, Memory>
    ensures form { IfOk result (λ form. plain form ≡ form_of (bytes_of words.now)) }
    ensures memory { OnErr result (takes_memory (form_of (bytes_of words.now)) ≡ true) }
{
    let Some((verb, operands)) = words.split_first() else {
        return Ok(Form::OfWords(WordsAsk::Unreadable));
    };
    match verb.as_str() {
        "route" => Ok(route_form(operands)),
        "list" => Ok(list_form(operands)),
        "normal" => Ok(normal_form(operands)),
        "check" => Ok(check_form(operands)),
        "plan" => plan_form(alloc, operands),
        "run" => Ok(run_form(operands)),
        "gen" => Ok(gen_form(operands)),
        "--help" => Ok(alone(Form::OfWords(WordsAsk::Help), operands)),
        "--version" => Ok(alone(Form::OfWords(WordsAsk::Version), operands)),
        _ => Ok(Form::OfWords(WordsAsk::Unreadable)),
    }
}

/// A form that has no words after its first.
fn alone<'a>(form: Form<'a>, words: &[String]) -> Form<'a>
    ensures { plain result ≡ alone (plain form.entry) (bytes_of words.now) }
{
    if words.is_empty() {
        form
    } else {
        Form::OfWords(WordsAsk::Unreadable)
    }
}

/// The words after `route`: a file and a host address.
fn route_form(words: &[String]) -> Form<'_>
    ensures { plain result ≡ route_form (bytes_of words.now) }
{
    match words {
        [file, address] => match read_number(address.as_bytes()) {
            Ok(h) => Form::OfTable(file.as_str(), TableAsk::Route(h)),
            Err(_) => Form::OfWords(WordsAsk::Unreadable),
        },
        _ => Form::OfWords(WordsAsk::Unreadable),
    }
}

/// The word after `list`: a file.
fn list_form(words: &[String]) -> Form<'_>
    ensures { plain result ≡ list_form (bytes_of words.now) }
{
    match words {
        [file] => Form::OfTable(file.as_str(), TableAsk::Listing),
        _ => Form::OfWords(WordsAsk::Unreadable),
    }
}

/// The word after `normal`: a file.
fn normal_form(words: &[String]) -> Form<'_>
    ensures { plain result ≡ normal_form (bytes_of words.now) }
{
    match words {
        [file] => Form::OfTable(file.as_str(), TableAsk::Normal),
        _ => Form::OfWords(WordsAsk::Unreadable),
    }
}

/// The words after `check`: the files of a table, a topology and an image.
fn check_form(words: &[String]) -> Form<'_>
    ensures { plain result ≡ check_form (bytes_of words.now) }
{
    match words {
        [cedt, topo, image] => Form::OfHost(
            cedt.as_str(),
            topo.as_str(),
            image.as_str(),
            HostAsk::Check,
        ),
        _ => Form::OfWords(WordsAsk::Unreadable),
    }
}

/// The words after `plan`: the files of a table and a topology, and a create line. Takes memory.
fn plan_form(alloc: Global, words: &[String]) -> Result<Form<'_>, Memory>
    ensures form { IfOk result (λ form. plain form ≡ plan_form (bytes_of words.now)) }
    ensures memory { OnErr result (takes_memory (plan_form (bytes_of words.now)) ≡ true) }
{
    match words {
        [cedt, topo, line] => match create_on_line(alloc, line.as_bytes())? {
            Some(create) => Ok(Form::OfResetHost(
                cedt.as_str(),
                topo.as_str(),
                ResetAsk::Plan(create),
            )),
            None => Ok(Form::OfWords(WordsAsk::NoCreate)),
        },
        _ => Ok(Form::OfWords(WordsAsk::Unreadable)),
    }
}

/// The words after `run`: the files of a table and a topology, and that of an image, where one is named.
fn run_form(words: &[String]) -> Form<'_>
    ensures { plain result ≡ run_form (bytes_of words.now) }
{
    match words {
        [cedt, topo] => Form::OfResetHost(cedt.as_str(), topo.as_str(), ResetAsk::Script),
        [cedt, topo, image] => Form::OfHost(
            cedt.as_str(),
            topo.as_str(),
            image.as_str(),
            HostAsk::Script,
        ),
        _ => Form::OfWords(WordsAsk::Unreadable),
    }
}

/// The word after `gen`: a number from 1 to 32.
fn gen_form(words: &[String]) -> Form<'_>
    ensures { plain result ≡ gen_form (bytes_of words.now) }
{
    match words {
        [number] => numbered(number.as_bytes()),
        _ => Form::OfWords(WordsAsk::Unreadable),
    }
}

/// The generated system of a number, where it is one.
fn numbered(number: &[u8]) -> Form<'_>
    ensures { plain result ≡ gen_of (number_of number.now) }
{
    match read_number(number) {
        Ok(n) if n >= 1 && n <= 32 => Form::OfWords(WordsAsk::Gen(n as u32)),
        _ => Form::OfWords(WordsAsk::Unreadable),
    }
}

/// The region that a line asks for, where it asks for one. Takes memory.
fn create_on_line(alloc: Global, line: &[u8]) -> Result<Option<Create>, Memory>
    ensures { IfOk result (λ create. create ≡ create_on_line line.now) }
{
    match read_command(alloc, line) {
        Ok(Some(Command::Create(create))) => Ok(Some(create)),
        Err(LineFault::Memory) => Err(Memory),
        other => {
            drop(other);
            Ok(None)
        }
    }
}
