//! What the definitions say of plans, poison lists, trails and scripts on worked machines, each the contract of a function
//! that does nothing.

ghost use Rattle.std.specs.Prelude.{◌≡◌, false, [], ◌∷◌, ◌++◌, None, Err, codes, replicate};
ghost use Rattle.cxl_worked.specs.Examples.{six_ways, four_ways, two_bridges};
ghost use Rattle.cxl_model.specs.declared.plan.PlanFault.TheVariants as faults;
ghost use Rattle.cxl_model.specs.declared.plan.Reason.TheVariants as reasons;
ghost use Rattle.cxl_model.specs.declared.poison.Part.TheVariants.{Run};
ghost use Rattle.cxl_span.specs.declared.allotting.SpanFault.TheVariants.{PastRam, NoRoom};
ghost use Rattle.cxl_script.specs.declared.command.Command.TheVariants as commands;
ghost use Rattle.cxl_reply.specs.declared.reply.Reply.TheVariants as replies;
ghost use Rattle.cxl_machine.specs.Answers.{Answers};
ghost use Rattle.cxl_machine.specs.Elsewhere.{Plans};
ghost use Rattle.cxl_worked_machines.specs.Examples.{fresh, create_named, with_r0, releasing, r0, e0, hb0, poison_bytes, nothing, poison, two_refusals};
ghost use Rattle.cxl_worked_machines.specs.ExamplePlans.{asks, asks_at, full_bridges, without_room, four_reset, three_reset};
ghost use Rattle.cxl_machine.specs.Outcomes.{NoFault, Undone, LeftPending, ReadFailed};
ghost use Rattle.cxl_machine.specs.Replies.{stays};
ghost use Rattle.cxl_machine.specs.Scripts.{lines_asked};
ghost use Rattle.cxl_machine.specs.Fails.{FailsOf};
ghost use Rattle.cxl_machine.specs.Trails.{TrailOf};
ghost use Rattle.cxl_machine.specs.Turns.{AreTurns, machine_after, text_of, words_sent, failed_in};

use cxl_poison::cuts_lie_in_touched_stretches;

/// A law of plans: each fault once, and each reason against a window.
pub fn plan_faults_on_examples()
    ensures repeat { Plans two_bridges (asks 0x20000000 (2 ∷ 3 ∷ 2 ∷ [])) (Err (faults.Repeat 2)) }
    ensures ways { Plans six_ways (asks 0x50000000 (3 ∷ 4 ∷ 5 ∷ 6 ∷ 7 ∷ [])) (Err (faults.Ways 5)) }
    ensures size { Plans two_bridges (asks 0x10000000 (2 ∷ 3 ∷ [])) (Err faults.Size) }
    ensures uneven { Plans four_ways (asks 0x30000000 (2 ∷ 3 ∷ 4 ∷ [])) (Err (faults.Uneven 1)) }
    ensures no_decoder { Plans full_bridges (asks 0x20000000 (2 ∷ 3 ∷ [])) (Err (faults.NoDecoder 0)) }
    ensures past_ram { Plans (without_room 0) (asks 0x20000000 (2 ∷ 3 ∷ [])) (Err (faults.Span 2 (PastRam 0x10000000))) }
    ensures no_room { Plans (without_room 0x10000000) (asks 0x20000000 (2 ∷ 3 ∷ []))
        (Err (faults.Span 2 (NoRoom record { start = 0x10000000; limit = 0x10000000 }))) }
    ensures no_window { Plans four_reset (asks_at 0 0x40000000 (2 ∷ 3 ∷ 4 ∷ 5 ∷ [])) (Err (faults.NoWindow
        (reasons.Unusable ∷ reasons.Kind ∷ reasons.Fixed ∷ reasons.Bridges ∷ reasons.Gran
        ∷ reasons.NoBase record { start = 0x100000000; limit = 0x120000000 } ∷ []))) }
    ensures select { Plans four_reset (asks 0x40000000 (2 ∷ 3 ∷ 4 ∷ 5 ∷ [])) (Err (faults.NoWindow
        (reasons.Unusable ∷ reasons.Kind ∷ reasons.Fixed ∷ reasons.Bridges ∷ reasons.Select 0
        ∷ reasons.NoBase record { start = 0x100000000; limit = 0x120000000 } ∷ []))) }
    ensures ways_cap { Plans three_reset (asks 0x30000000 (3 ∷ 4 ∷ 5 ∷ [])) (Err (faults.NoWindow (reasons.WaysCap 3 ∷ []))) }
{}

/// A law of poison lists: what one touches, and why one is refused.
pub fn poison_on_examples()
    ensures told { Answers (with_r0 nothing) (poison e0 (poison_bytes 1)) NoFault
        (stays (with_r0 nothing) (replies.Poison record {
          endpoint = 2;
          list = record { more = false; overflow = None; scanning = false; records = record { dpa = 0xfffffc0; units = 2; source = 2 } ∷ [] };
          pieces = record { parts = Run record { h = 0x11ffffec0; len = 64; region = 0 } ∷ []; unmapped = 64 } ∷ [];
          names = r0 ∷ [];
        })) }
    ensures short { Answers fresh (poison e0 (replicate 31 0)) NoFault (stays fresh replies.PoisonShort) }
    ensures few { Answers fresh (poison e0 (poison_bytes 2)) NoFault
        (stays fresh (replies.PoisonCount record { said = 2; room = 1 })) }
    ensures no_endpoint { Answers fresh (poison hb0 (poison_bytes 1)) NoFault
        (stays fresh (replies.NoEndpoint hb0)) }
{
    cuts_lie_in_touched_stretches();
}

/// A law of trails: the words of a create that met a fault at its third write, of a step and of an abort.
pub fn trails_on_examples()
    ensures undone { TrailOf fresh (commands.Create (create_named r0)) Undone
        (record { node = 3; off = 0x10; value = 0 } ∷ record { node = 3; off = 0x14; value = 1 }
        ∷ record { node = 3; off = 0x14; value = 0 } ∷ record { node = 3; off = 0x10; value = 0 } ∷ []) }
    ensures at_once { TrailOf fresh (commands.Create (create_named r0)) Undone [] }
    ensures stepped { TrailOf (releasing nothing 0) (commands.Step 1) NoFault
        (record { node = 0; off = 0x20; value = 0x1000 } ∷ []) }
    ensures aborted { TrailOf (releasing nothing 1) commands.Abort NoFault
        (record { node = 0; off = 0x20; value = 0x1200 } ∷ []) }
    ensures refused { TrailOf fresh (commands.Destroy r0) NoFault [] }
{}

/// A law of faults: of a create that met one at its first or third write, of a step and an abort that met one behind one
/// word, and of a read that failed, behind how many words each did.
pub fn faults_on_examples()
    ensures undone { FailsOf fresh (commands.Create (create_named r0)) Undone
        (record { node = 3; off = 0x10; value = 0 } ∷ record { node = 3; off = 0x14; value = 1 }
        ∷ record { node = 3; off = 0x14; value = 0 } ∷ record { node = 3; off = 0x10; value = 0 } ∷ []) (2 ∷ []) }
    ensures at_once { FailsOf fresh (commands.Create (create_named r0)) Undone [] (0 ∷ []) }
    ensures pending { FailsOf fresh (commands.Create (create_named r0)) (LeftPending 1)
        (record { node = 3; off = 0x10; value = 0 } ∷ record { node = 3; off = 0x14; value = 1 }
        ∷ record { node = 3; off = 0x14; value = 0 } ∷ []) (2 ∷ 3 ∷ []) }
    ensures stepped { FailsOf (releasing nothing 0) (commands.Step 2) (LeftPending 1)
        (record { node = 0; off = 0x20; value = 0x1000 } ∷ []) (1 ∷ []) }
    ensures aborted { FailsOf (releasing nothing 1) commands.Abort (LeftPending 1) [] (0 ∷ []) }
    ensures read { FailsOf (with_r0 nothing) (commands.Show r0) ReadFailed [] (0 ∷ []) }
    ensures refused { FailsOf fresh (commands.Destroy r0) NoFault [] [] }
{}

/// A law of scripts: what the lines of one ask for, the turns that answer it, and what these come to.
pub fn scripts_on_examples()
    ensures turns { AreTurns fresh (lines_asked (codes "# nothing" ∷ [] ∷ codes "destroy r0" ∷ codes "x" ∷ [])) two_refusals }
    ensures machine { machine_after fresh two_refusals ≡ fresh }
    ensures words { words_sent two_refusals ≡ [] }
    ensures faults { failed_in two_refusals ≡ [] }
    ensures text { text_of fresh.settled.nodes two_refusals
        ≡ codes "no such region r0" ++ (10 ∷ []) ++ codes "bad line 0 verb" ++ (10 ∷ []) }
{}
