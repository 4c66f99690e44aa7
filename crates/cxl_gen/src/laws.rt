//! Laws of generated systems, each the contract of a function that does nothing.

ghost use Rattle.std.specs.Prelude.{ℕ, ◌≤◌, All};
ghost use Rattle.cxl_script.specs.Grammar.{IsRanged};
ghost use Rattle.cxl_topo.specs.Faults.{IsTree};
ghost use Rattle.cxl_gen.specs.Made.{made_nodes, made_commands};

/// A law of generated systems: what their commands ask for, a line can ask for; and their nodes are a legal tree.
pub fn made_systems_are_sound()
    ensures ranged { (n : ℕ) → All IsRanged (made_commands n) }
    ensures tree { (n : ℕ) → 1 ≤ n → n ≤ 32 → IsTree (made_nodes n) }
{}
