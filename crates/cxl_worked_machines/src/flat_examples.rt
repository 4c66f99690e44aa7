//! What the definitions of one flat memory say of worked machines, each the contract of a function that does nothing. Beside
//! each case that holds stand cases that do not, and differ from it by a byte, an address or a name.

ghost use Rattle.std.specs.Prelude.{◌≡◌, true, false, [], ◌∷◌, Some, None, Ok, Err};
ghost use Rattle.cxl_script.specs.declared.command.Command.TheVariants as commands;
ghost use Rattle.cxl_script.specs.declared.fault.Why.TheVariants as whys;
ghost use Rattle.cxl_reply.specs.declared.reply.Reply.TheVariants as replies;
ghost use Rattle.cxl_walk.specs.Carrying.{CarriesRegions};
ghost use Rattle.cxl_worked.specs.Examples.{two_bridges};
ghost use Rattle.cxl_worked.specs.ExampleRegions.{region_of_two};
ghost use Rattle.cxl_flat.specs.Memory.{byte_of, HasBytes, LiesBeside, LieWithin, IsFlatAccess, writes_bytes, KeepsBytes};
ghost use Rattle.cxl_flat.specs.Flat.{IsUnmapped};
ghost use Rattle.cxl_worked_machines.specs.Examples.{fresh, create_named, with_r0, with_both, making_b, job_with, releasing, found_b, r0, b, e0, nothing, first_byte, load, store, up, poison, copy, move, quiet_turn};

use crate::opening_examples::openings_on_examples;
use cxl_flat::machines_carry_their_regions;

/// A law of addresses: which are a region's, and which lie beside others.
pub fn places_on_examples()
    ensures first { LieWithin region_of_two 0x100000000 1 }
    ensures whole { LieWithin region_of_two 0x100000000 0x20000000 }
    ensures last { LieWithin region_of_two 0x11fffffff 1 }
    ensures not_before { ¬ (LieWithin region_of_two 0xffffffff 1) }
    ensures not_past { ¬ (LieWithin region_of_two 0x11fffffff 2) }
    ensures not_behind { ¬ (LieWithin region_of_two 0x120000000 0) }
    ensures beside_below { LiesBeside 0xff 0x100 2 }
    ensures beside_above { LiesBeside 0x102 0x100 2 }
    ensures not_beside_first { ¬ (LiesBeside 0x100 0x100 2) }
    ensures not_beside_last { ¬ (LiesBeside 0x101 0x100 2) }
{}

/// A law of bytes: which stand at the host addresses of a machine.
pub fn flat_bytes_on_examples()
    ensures first { byte_of (with_r0 first_byte) 0x100000000 ≡ Some 0x11 }
    ensures next { byte_of (with_r0 first_byte) 0x100000001 ≡ Some 0 }
    ensures last { byte_of (with_r0 first_byte) 0x11fffffff ≡ Some 0 }
    ensures before { byte_of (with_r0 first_byte) 0xffffffff ≡ None }
    ensures behind { byte_of (with_r0 first_byte) 0x120000000 ≡ None }
    ensures stand { HasBytes (with_r0 first_byte) 0x100000000 (0x11 ∷ 0 ∷ []) }
    ensures not_first { ¬ (HasBytes (with_r0 first_byte) 0x100000000 (0x12 ∷ 0 ∷ [])) }
    ensures not_last { ¬ (HasBytes (with_r0 first_byte) 0x100000000 (0x11 ∷ 1 ∷ [])) }
    ensures not_across { ¬ (HasBytes (with_r0 first_byte) 0x11fffffff (0 ∷ 0 ∷ [])) }
{}

/// A law of loads: two bytes of a region are told as they stand, and the machine stays.
pub fn flat_loads_on_examples()
    ensures told { IsFlatAccess (with_r0 first_byte) (Ok (load 0x100000000 2))
        (quiet_turn (with_r0 first_byte) (replies.Loaded (0x11 ∷ 0 ∷ []))) }
    ensures crosses_end { IsFlatAccess (with_r0 first_byte) (Ok (load 0x11fffffff 2))
        (quiet_turn (with_r0 first_byte) replies.CrossesEnd) }
    ensures unmapped { IsFlatAccess fresh (Ok (load 0x100000000 2)) (quiet_turn fresh replies.Unmapped) }
    ensures not_refused { ¬ (IsFlatAccess (with_r0 first_byte) (Ok (load 0x100000000 2))
        (quiet_turn (with_r0 first_byte) replies.Unmapped)) }
    ensures not_another { ¬ (IsFlatAccess (with_r0 first_byte) (Ok (load 0x100000000 2))
        (quiet_turn (with_r0 first_byte) (replies.Loaded (0x11 ∷ 1 ∷ [])))) }
    ensures not_one { ¬ (IsFlatAccess (with_r0 first_byte) (Ok (load 0x100000000 2))
        (quiet_turn (with_r0 first_byte) (replies.Loaded (0x11 ∷ [])))) }
    ensures not_changed { ¬ (IsFlatAccess (with_r0 first_byte) (Ok (load 0x100000000 2))
        (quiet_turn (with_r0 nothing) (replies.Loaded (0x11 ∷ 0 ∷ [])))) }
{}

/// A law of stores: a byte is put at its address and nowhere else, where a frame is free.
pub fn flat_stores_on_examples()
    ensures stored { IsFlatAccess (with_r0 nothing) (Ok (store 0x100000000 (0x11 ∷ [])))
        (quiet_turn (with_r0 first_byte) (replies.Stored 1)) }
    ensures full { IsFlatAccess (with_r0 first_byte) (Ok (store 0x1000001ff (0xaa ∷ 0xbb ∷ [])))
        (quiet_turn (with_r0 first_byte) (replies.Full record { need = 2; free = 1 })) }
    ensures crosses_end { IsFlatAccess (with_r0 nothing) (Ok (store 0x11fffffff (0xaa ∷ 0xbb ∷ [])))
        (quiet_turn (with_r0 nothing) replies.CrossesEnd) }
    ensures unmapped { IsFlatAccess fresh (Ok (store 0x100000000 (0x11 ∷ []))) (quiet_turn fresh replies.Unmapped) }
    ensures not_refused { ¬ (IsFlatAccess (with_r0 nothing) (Ok (store 0x100000000 (0x11 ∷ [])))
        (quiet_turn (with_r0 nothing) (replies.Full record { need = 1; free = 0 }))) }
    ensures not_dropped { ¬ (IsFlatAccess (with_r0 nothing) (Ok (store 0x100000000 (0x11 ∷ [])))
        (quiet_turn (with_r0 nothing) (replies.Stored 1))) }
    ensures not_beside { ¬ (IsFlatAccess (with_r0 nothing) (Ok (store 0x100000001 (0 ∷ [])))
        (quiet_turn (with_r0 first_byte) (replies.Stored 1))) }
{}

/// A law of copies and moves: the second region has the bytes that the first had, which keeps them or is zero.
pub fn flat_copies_on_examples()
    ensures copied { IsFlatAccess (with_both 2 first_byte nothing) (Ok (copy r0 b))
        (quiet_turn (with_both 2 first_byte first_byte) (replies.Copied record { from = r0; to = b; pieces = 1 })) }
    ensures not_copied { ¬ (IsFlatAccess (with_both 2 first_byte nothing) (Ok (copy r0 b))
        (quiet_turn (with_both 2 first_byte nothing) (replies.Copied record { from = r0; to = b; pieces = 1 }))) }
    ensures not_taken { ¬ (IsFlatAccess (with_both 2 first_byte nothing) (Ok (copy r0 b))
        (quiet_turn (with_both 2 nothing first_byte) (replies.Copied record { from = r0; to = b; pieces = 1 }))) }
    ensures moved { IsFlatAccess (with_both 2 first_byte nothing) (Ok (move r0 b))
        (quiet_turn (with_both 2 nothing first_byte) (replies.Moved record { from = r0; to = b; pieces = 1 })) }
    ensures not_moved { ¬ (IsFlatAccess (with_both 2 first_byte nothing) (Ok (move r0 b))
        (quiet_turn (with_both 2 nothing nothing) (replies.Moved record { from = r0; to = b; pieces = 1 }))) }
    ensures not_kept { ¬ (IsFlatAccess (with_both 2 first_byte nothing) (Ok (move r0 b))
        (quiet_turn (with_both 2 first_byte first_byte) (replies.Moved record { from = r0; to = b; pieces = 1 }))) }
{}

/// A law of commands: of all of them a store, a copy and a move alone write bytes.
pub fn writers_on_examples()
    ensures stores { writes_bytes (Ok (store 0x100000000 (0x11 ∷ []))) ≡ true }
    ensures copies { writes_bytes (Ok (copy r0 b)) ≡ true }
    ensures moves { writes_bytes (Ok (move r0 b)) ≡ true }
    ensures create { writes_bytes (Ok (commands.Create (create_named r0))) ≡ false }
    ensures destroy { writes_bytes (Ok (commands.Destroy r0)) ≡ false }
    ensures show { writes_bytes (Ok (commands.Show r0)) ≡ false }
    ensures down { writes_bytes (Ok (commands.Down 0x100000000)) ≡ false }
    ensures up { writes_bytes (Ok (up e0 0)) ≡ false }
    ensures load { writes_bytes (Ok (load 0x100000000 2)) ≡ false }
    ensures poison { writes_bytes (Ok (poison e0 (0 ∷ []))) ≡ false }
    ensures begin_create { writes_bytes (Ok (commands.BeginCreate (create_named r0))) ≡ false }
    ensures begin_destroy { writes_bytes (Ok (commands.BeginDestroy r0)) ≡ false }
    ensures step { writes_bytes (Ok (commands.Step 1)) ≡ false }
    ensures abort { writes_bytes (Ok commands.Abort) ≡ false }
    ensures range { writes_bytes (Ok (commands.Range record { h = 0x100000000; len = 1 })) ≡ false }
    ensures spread { writes_bytes (Ok (commands.Spread record { h = 0x100000000; len = 1 })) ≡ false }
    ensures bad_line { writes_bytes (Err record { at = 0; why = whys.Verb }) ≡ false }
{}

/// A law of bytes: they are kept where a region stays, is being ended or is new and zero; and not where one of them changes.
pub fn kept_bytes_on_examples()
    ensures stays { KeepsBytes (with_r0 first_byte) (with_r0 first_byte) }
    ensures made { KeepsBytes (with_r0 first_byte) (with_both 2 first_byte nothing) }
    ensures ended { KeepsBytes (with_r0 first_byte) fresh }
    ensures releasing { KeepsBytes (with_r0 first_byte) (releasing first_byte 1) }
    ensures aborted { KeepsBytes (releasing first_byte 1) (with_r0 first_byte) }
    ensures not_stored { ¬ (KeepsBytes (with_r0 nothing) (with_r0 first_byte)) }
    ensures not_zeroed { ¬ (KeepsBytes (with_r0 first_byte) (with_r0 nothing)) }
    ensures not_made_with_bytes { ¬ (KeepsBytes (with_r0 nothing) (with_both 2 nothing first_byte)) }
    ensures not_zeroed_in_release { ¬ (KeepsBytes (with_r0 first_byte) (releasing nothing 1)) }
    ensures not_zeroed_by_abort { ¬ (KeepsBytes (releasing first_byte 1) (with_r0 nothing)) }
{}

/// A law of jobs: the region that is being made is none of the live ones, by its name, its host bytes and its device bytes.
pub fn unmapped_on_examples()
    ensures making { IsUnmapped (making_b 5) (job_with b found_b) }
    ensures not_named { ¬ (IsUnmapped (making_b 5) (job_with r0 found_b)) }
    ensures not_host { ¬ (IsUnmapped (making_b 5) (job_with b (record found_b { base = 0x11fffffff }))) }
    ensures not_device { ¬ (IsUnmapped (making_b 5) (job_with b (record found_b { spans = record { endpoint = 3; start = 0xfffffff } ∷ [] }))) }
{}

/// A law of images: one carries the region that it has, and neither one that has no spans nor two over the same device bytes.
pub fn carrying_on_examples()
    ensures carries { CarriesRegions two_bridges (region_of_two ∷ []) }
    ensures not_without_spans { ¬ (CarriesRegions two_bridges (record region_of_two { spans = [] } ∷ [])) }
    ensures not_shared { ¬ (CarriesRegions two_bridges (region_of_two ∷ record region_of_two { base = 0x120000000 } ∷ [])) }
{
    machines_carry_their_regions();
    openings_on_examples();
}
