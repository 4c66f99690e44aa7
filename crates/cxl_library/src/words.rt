//! The words of each form, as the command line has them.

ghost use Rattle.std.specs.Prelude.{◌≡◌, ◌++◌, ◌∷◌, [], None, Some, Ok, IfOk};
ghost use Rattle.cxl_commands.specs.Form.{Route, Listing, Normal, Check, Script, Version, plan_form_over, create_on_line, gen_of, Unreadable, form_of};
ghost use Rattle.cxl_commands.specs.Words.{bytes_of};
ghost use Rattle.cxl_reads.specs.Answers.{table_name, topology_name, image_name};

use crate::slices::{CEDT, IMAGE, TOPOLOGY};
use cxl_enc::Memory;
use std::alloc::Global;

/// The words of `route`.
pub(crate) fn route_words(alloc: Global, hpa: u64) -> Result<Vec<String>, Memory>
    ensures { IfOk result (λ words. form_of (bytes_of words.items) ≡ Route table_name hpa) }
{
    let address = format!(in alloc; "{hpa}")?;
    let words = three(alloc, "route", CEDT, address.as_str())?;
    Ok(words)
}

/// The words of `list`.
pub(crate) fn list_words(alloc: Global) -> Result<Vec<String>, Memory>
    ensures { IfOk result (λ words. form_of (bytes_of words.items) ≡ Listing table_name) }
{
    two(alloc, "list", CEDT)
}

/// The words of `normal`.
pub(crate) fn normal_words(alloc: Global) -> Result<Vec<String>, Memory>
    ensures { IfOk result (λ words. form_of (bytes_of words.items) ≡ Normal table_name) }
{
    two(alloc, "normal", CEDT)
}

/// The words of `check`.
pub(crate) fn check_words(alloc: Global) -> Result<Vec<String>, Memory>
    ensures { IfOk result (λ words. form_of (bytes_of words.items) ≡ Check table_name topology_name image_name) }
{
    let words = three(alloc, "check", CEDT, TOPOLOGY)?;
    with_word(alloc, words, IMAGE)
}

/// The words of `plan`.
pub(crate) fn plan_words(alloc: Global, line: &str) -> Result<Vec<String>, Memory>
    ensures { IfOk result (λ words.
        form_of (bytes_of words.items) ≡ plan_form_over table_name topology_name (create_on_line line.now)) }
{
    let words = three(alloc, "plan", CEDT, TOPOLOGY)?;
    with_word(alloc, words, line)
}

/// The words of `run` from reset.
pub(crate) fn reset_words(alloc: Global) -> Result<Vec<String>, Memory>
    ensures { IfOk result (λ words. form_of (bytes_of words.items) ≡ Script table_name topology_name None) }
{
    three(alloc, "run", CEDT, TOPOLOGY)
}

/// The words of `run` from an image.
pub(crate) fn image_words(alloc: Global) -> Result<Vec<String>, Memory>
    ensures { IfOk result (λ words. form_of (bytes_of words.items) ≡ Script table_name topology_name (Some image_name)) }
{
    let words = three(alloc, "run", CEDT, TOPOLOGY)?;
    with_word(alloc, words, IMAGE)
}

/// The words of `gen`.
pub(crate) fn gen_words(alloc: Global, number: u32) -> Result<Vec<String>, Memory>
    ensures { IfOk result (λ words. form_of (bytes_of words.items) ≡ gen_of (Ok number)) }
{
    let word = format!(in alloc; "{number}")?;
    let words = two(alloc, "gen", word.as_str())?;
    Ok(words)
}

/// The word of `--version`.
pub(crate) fn version_words(alloc: Global) -> Result<Vec<String>, Memory>
    ensures { IfOk result (λ words. form_of (bytes_of words.items) ≡ Version) }
{
    with_word(alloc, Vec::new(alloc), "--version")
}

/// Words that are no command, as the program takes those of which one is no text.
pub(crate) fn no_words(alloc: Global) -> Vec<String>
    ensures { form_of (bytes_of result.items) ≡ Unreadable }
{
    Vec::new(alloc)
}

fn three(alloc: Global, first: &str, second: &str, third: &str) -> Result<Vec<String>, Memory>
    ensures { IfOk result (λ words. bytes_of words.items ≡ first.now ∷ second.now ∷ third.now ∷ []) }
{
    let words = two(alloc, first, second)?;
    with_word(alloc, words, third)
}

fn two(alloc: Global, first: &str, second: &str) -> Result<Vec<String>, Memory>
    ensures { IfOk result (λ words. bytes_of words.items ≡ first.now ∷ second.now ∷ []) }
{
    let words = with_word(alloc, Vec::new(alloc), first)?;
    with_word(alloc, words, second)
}

/// One word more.
fn with_word(alloc: Global, words: Vec<String>, word: &str) -> Result<Vec<String>, Memory>
    ensures { IfOk result (λ more. bytes_of more.items ≡ bytes_of words.items ++ word.now ∷ []) }
{
    let mut words = words;
    let word = String::from_str(alloc, word)?;
    words.push(word)?;
    Ok(words)
}
