//! Laws of causes, each the contract of a function that does nothing.

ghost use Rattle.std.specs.Prelude.{◌≡◌, ℕ, ◌+◌, ◌%◌, ◌<◌, ◌≤◌, true, false, None, Some, IsSome, is_some};
ghost use Rattle.cxl_enc.specs.Limits.{address_limit};
ghost use Rattle.cxl_regs.specs.declared.decoder.Decoder.{Decoder};
ghost use Rattle.cxl_regs.specs.Registers.{Registers};
ghost use Rattle.cxl_regs.specs.Reading.{range_of};
ghost use Rattle.cxl_regs.specs.Rules.{before};
ghost use Rattle.cxl_topo.specs.Tree.{is_endpoint_at};
ghost use Rattle.cxl_topo.specs.Faults.{IsTree};
ghost use Rattle.cxl_window.specs.Fields.{WindowFields};
ghost use Rattle.cxl_model.specs.Ranges.{window_for};
ghost use Rattle.cxl_model.specs.Rules.{starts_in_thirds};
ghost use Rattle.cxl_regs.specs.declared.reading.Range.{Range};
ghost use Rattle.cxl_cause.specs.RangeCauses.{port_code, next_third};
ghost use Rattle.cxl_span.specs.Rules.{size_unit};
ghost use Rattle.cxl_model.specs.System.{System};
ghost use Rattle.cxl_model.specs.Accepted.{breaks};
ghost use Rattle.cxl_cause.specs.BlockCauses.{size_below, size_above};
ghost use Rattle.cxl_cause.specs.Causes.{cause_at};
ghost use Rattle.cxl_cause.specs.Wanted.{with_decoder, StandsIn};

use cxl_topo::tree_laws;

/// A law of causes: a decoder has a cause for a rule exactly where it breaks that rule.
pub fn causes_stand_where_rules_break()
    ensures { (s : System) (rule n i : ℕ) → is_some (cause_at s rule n i) ≡ breaks s rule n i }
{}

/// A law of sizes: with each size that a cause of K6 tells in that decoder, the place does not break K6; and where some size is legal
/// there, one is told.
pub fn told_sizes_keep_the_rule()
    ensures below { (s : System) (n i : ℕ) (block : Registers) (d : Decoder) (size : ℕ) → StandsIn s n i block d
        → d.base + d.size ≤ address_limit → size_below d ≡ Some size
        → breaks (with_decoder s n i (record d { size = size })) 6 n i ≡ false }
    ensures above { (s : System) (n i : ℕ) (block : Registers) (d : Decoder) (size : ℕ) → StandsIn s n i block d
        → size_above d ≡ Some size
        → breaks (with_decoder s n i (record d { size = size })) 6 n i ≡ false }
    ensures told { (d : Decoder) (size : ℕ) → 0 < size → size % size_unit d ≡ 0 → d.base + size ≤ address_limit
        → size_below d ≡ None → IsSome (size_above d) }
{}

/// A law of bases: with the end of the decoder below as its base, a place does not break K7; and with no lower base.
pub fn ends_below_are_the_least_bases()
    ensures keeps { (s : System) (n i : ℕ) (block : Registers) (d below : Decoder) → StandsIn s n i block d
        → before block.decoders i ≡ Some below
        → breaks (with_decoder s n i (record d { base = below.base + below.size })) 7 n i ≡ false }
    ensures least { (s : System) (n i base : ℕ) (block : Registers) (d below : Decoder) → StandsIn s n i block d
        → before block.decoders i ≡ Some below → d.committed ≡ true
        → breaks (with_decoder s n i (record d { base = base })) 7 n i ≡ false
        → below.base + below.size ≤ base }
{}

/// A law of codes: with the granularity code that a cause of K12 tells of a port in that decoder, the place does not break K12.
pub fn told_codes_of_ports_keep_the_rule()
    ensures { (s : System) (n i : ℕ) (block : Registers) (d : Decoder) (w : WindowFields) → IsTree s.nodes
        → StandsIn s n i block d → is_endpoint_at s.nodes n ≡ false → window_for s (range_of d) ≡ Some w
        → breaks (with_decoder s n i (record d { gran = port_code s w n (range_of d) })) 12 n i ≡ false }
{
    tree_laws();
}

/// A law of thirds: the address that a cause of K9 tells lies past the base, at a multiple of 768 MiB from the window's.
pub fn told_thirds_start_ranges()
    ensures starts { (w : WindowFields) (r : Range)
        → starts_in_thirds w (record { base = next_third w r; size = r.size }) ≡ true }
    ensures past { (w : WindowFields) (r : Range) → r.base < next_third w r }
{}
