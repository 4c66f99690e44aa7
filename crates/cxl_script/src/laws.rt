//! Laws of lines, each the contract of a function that does nothing.

ghost use Rattle.std.specs.Prelude.{◌≡◌, ℕ, List, Some, Ok, IfOk, IfSome};
ghost use Rattle.cxl_script.specs.declared.command.Command.{Command};
ghost use Rattle.cxl_script.specs.Grammar.{asked_in, IsRanged, StatesGranCodes};

/// A law of lines: what one asks for is ranged. Its granularity is told by a code of the table, its lengths are
/// those that a line may state, and what it stores are bytes.
pub fn asked_commands_are_ranged()
    ensures { (line : List ℕ) (command : Command) → asked_in line ≡ Ok (Some command) → IsRanged command }
{}

/// A law of lines: where one asks for a region to be made, a granularity that it states is told by a code of the
/// table.
pub fn stated_granularities_are_codes()
    ensures { (line : List ℕ) → IfOk (asked_in line) (λ asked. IfSome asked StatesGranCodes) }
{}
