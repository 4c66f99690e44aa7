//! What the definitions say of accesses to the bytes and the addresses of worked machines, each the contract of a function
//! that does nothing.

ghost use Rattle.std.specs.Prelude.{[], ◌∷◌, replicate};
ghost use Rattle.cxl_worked.specs.ExampleRegions.{region_of_two};
ghost use Rattle.cxl_script.specs.declared.command.Command.TheVariants as commands;
ghost use Rattle.cxl_reply.specs.declared.reply.Reply.TheVariants as replies;
ghost use Rattle.cxl_machine.specs.Answers.{Answers};
ghost use Rattle.cxl_move.specs.Bytes.{written};
ghost use Rattle.cxl_machine.specs.Outcomes.{NoFault, ReadFailed};
ghost use Rattle.cxl_machine.specs.Replies.{becomes, stays};
ghost use Rattle.cxl_worked_machines.specs.Examples.{fresh, with_r0, with_both, with_unequal, r0, b, e0, e1, hb0, row_shown, nothing, first_byte, load, store, up, copy, move};

/// A law of bytes: what stores leave and loads read.
pub fn bytes_on_examples()
    ensures stored { Answers (with_r0 nothing) (store 0x100000000 (0x11 ∷ [])) NoFault
        (becomes (with_r0 first_byte) (replies.Stored 1)) }
    ensures across { Answers (with_r0 nothing) (store 0x1000000fe (0xaa ∷ 0xbb ∷ 0xcc ∷ 0xdd ∷ [])) NoFault
        (becomes (with_r0 (written nothing 0xfe (0xaa ∷ 0xbb ∷ 0xcc ∷ 0xdd ∷ []))) (replies.Stored 4)) }
    ensures full { Answers (with_r0 first_byte) (store 0x1000001ff (0xaa ∷ 0xbb ∷ [])) NoFault
        (stays (with_r0 first_byte) (replies.Full record { need = 2; free = 1 })) }
    ensures loaded { Answers (with_r0 first_byte) (load 0x100000000 2) NoFault
        (stays (with_r0 first_byte) (replies.Loaded (0x11 ∷ 0 ∷ []))) }
    ensures unwritten { Answers (with_r0 nothing) (load 0x11fffffff 1) NoFault
        (stays (with_r0 nothing) (replies.Loaded (0 ∷ []))) }
    ensures crosses_end { Answers (with_r0 nothing) (load 0x11fffffff 2) NoFault
        (stays (with_r0 nothing) replies.CrossesEnd) }
    ensures unmapped { Answers (with_r0 nothing) (store 0x120000000 (0x11 ∷ [])) NoFault
        (stays (with_r0 nothing) replies.Unmapped) }
{}

/// A law of addresses: where host bytes and device bytes lie.
pub fn addresses_on_examples()
    ensures down { Answers (with_r0 nothing) (commands.Down 0x100000100) NoFault
        (stays (with_r0 nothing) (replies.Down record {
          h = 0x100000100;
          name = r0;
          slot = 1;
          position = 1;
          len = 1;
          via = record { node = 1; decoder = 0; entry = 0 } ∷ replicate 4 record { node = 0; decoder = 0; entry = 0 };
          endpoint = 3;
          dpa = 0;
        })) }
    ensures down_unmapped { Answers fresh (commands.Down 0x100000100) NoFault
        (stays fresh replies.Unmapped) }
    ensures up { Answers (with_r0 nothing) (up e1 0) NoFault
        (stays (with_r0 nothing) (replies.Up record { h = 0x100000100; name = r0 })) }
    ensures up_unmapped { Answers (with_r0 nothing) (up e0 0x10000000) NoFault
        (stays (with_r0 nothing) replies.Unmapped) }
    ensures no_endpoint { Answers (with_r0 nothing) (up hb0 0) NoFault
        (stays (with_r0 nothing) (replies.NoEndpoint hb0)) }
    ensures range { Answers (with_r0 nothing) (commands.Range record { h = 0x100000080; len = 256 }) NoFault
        (stays (with_r0 nothing) (replies.Extents record {
          extents = record { h = 0x100000080; len = 128; slot = 0; dpa = 0x80 } ∷ record { h = 0x100000100; len = 128; slot = 1; dpa = 0 } ∷ [];
          endpoints = 2 ∷ 3 ∷ [];
        })) }
    ensures spread { Answers (with_r0 nothing) (commands.Spread record { h = 0x100000080; len = 256 }) NoFault
        (stays (with_r0 nothing) (replies.Spread record { bytes = 128 ∷ 128 ∷ replicate 14 0; endpoints = 2 ∷ 3 ∷ [] })) }
    ensures shown { Answers (with_r0 nothing) (commands.Show r0) NoFault
        (stays (with_r0 nothing) (replies.Shown record {
          name = r0;
          found = region_of_two;
          rows = row_shown 0 0x1600 ∷ row_shown 1 0x1600 ∷ row_shown 2 0x1610 ∷ row_shown 3 0x1610 ∷ [];
        })) }
    ensures not_read { Answers (with_r0 nothing) (commands.Show r0) ReadFailed (stays (with_r0 nothing) replies.BusRead) }
{}

/// A law of copies: a region is given the bytes of another; and each cause for which it is not.
pub fn copies_on_examples()
    ensures moved { Answers (with_both 1 first_byte nothing) (move r0 b) NoFault
        (becomes (with_both 1 nothing first_byte) (replies.Moved record { from = r0; to = b; pieces = 1 })) }
    ensures copied { Answers (with_both 2 first_byte nothing) (copy r0 b) NoFault
        (becomes (with_both 2 first_byte first_byte) (replies.Copied record { from = r0; to = b; pieces = 1 })) }
    ensures full { Answers (with_both 1 nothing first_byte) (copy b r0) NoFault
        (stays (with_both 1 nothing first_byte) (replies.Full record { need = 1; free = 0 })) }
    ensures same { Answers (with_both 1 nothing nothing) (copy b b) NoFault
        (stays (with_both 1 nothing nothing) (replies.SameRegion b)) }
    ensures no_region { Answers (with_r0 nothing) (copy r0 b) NoFault
        (stays (with_r0 nothing) (replies.NoRegion b)) }
    ensures unequal { Answers with_unequal (move r0 b) NoFault
        (stays with_unequal (replies.SizesDiffer record { from = 0x20000000; to = 0x40000000 })) }
{}
