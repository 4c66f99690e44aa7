//! What the definitions say of the host on which a worked run starts, and of one in which no session opens, each the
//! contract of a function that does nothing.

ghost use Rattle.std.specs.Prelude.{ℕ, List, [], ◌∷◌, codes, None, Some};
ghost use Rattle.cxl_table.specs.CedtFields.{CedtFields};
ghost use Rattle.cxl_commands.specs.Form.{Check, Script, Gen, Help};
ghost use Rattle.cxl_gen.specs.Made.{made_table, made_tree};
ghost use Rattle.cxl_inputs.specs.Host.{host_of, AreRead};
ghost use Rattle.cxl_inputs.specs.ResetHost.{reset_host_of, AreBothRead};
ghost use Rattle.cxl_inputs.specs.declared.status.Status.TheVariants as statuses;
ghost use Rattle.cxl_io.specs.Told.{Told, Absent};
ghost use Rattle.cxl_model.specs.System.{System};
ghost use Rattle.cxl_regs.specs.Registers.{Registers};
ghost use Rattle.cxl_shell.specs.commands.Script.{IsStart, StartsSession};
ghost use Rattle.cxl_topo.specs.Tree.{Tree};
ghost use Rattle.cxl_worked_runs.specs.Runs.{sink, ended, reset_pair, first_enabled, both_enabled, enables, regs, no_blocks, FailsWith};

/// A law of starts: on which host the commands of a script and of a generated system start, and that others start on none.
pub fn hosts_on_examples()
    ensures after_reset { (told : List ℕ → Told) (cedt topo : List ℕ) (table : CedtFields) (tree : Tree) → AreBothRead told cedt topo table tree
        → IsStart (Script cedt topo None) told (reset_host_of table tree) tree.frames }
    ensures from_image { (told : List ℕ → Told) (cedt topo image : List ℕ) (table : CedtFields) (tree : Tree) (blocks : List Registers)
        → AreRead told cedt topo image table tree blocks
        → IsStart (Script cedt topo (Some image)) told (host_of table tree blocks) tree.frames }
    ensures generated { (told : List ℕ → Told) → IsStart (Gen 1) told (reset_host_of (made_table 1) (made_tree 1)) 65536 }
    ensures not_other_frames { (told : List ℕ → Told) → ¬ (IsStart (Gen 1) told (reset_host_of (made_table 1) (made_tree 1)) 65535) }
    ensures not_other_number { (told : List ℕ → Told) → ¬ (IsStart (Gen 1) told (reset_host_of (made_table 2) (made_tree 2)) 65536) }
    ensures not_absent { (cedt topo : List ℕ) (s : System) (frames : ℕ) → ¬ (IsStart (Script cedt topo None) (λ name. Absent) s frames) }
    ensures not_absent_image { (cedt topo image : List ℕ) (s : System) (frames : ℕ)
        → ¬ (IsStart (Script cedt topo (Some image)) (λ name. Absent) s frames) }
    ensures not_check { (told : List ℕ → Told) (cedt topo image : List ℕ) (s : System) (frames : ℕ)
        → ¬ (IsStart (Check cedt topo image) told s frames) }
    ensures not_help { (told : List ℕ → Told) (s : System) (frames : ℕ) → ¬ (IsStart Help told s frames) }
{}

/// A law of openings: how registers, device memory and text are left where no session opens, by a fault of the bus behind
/// the first endpoint or for want of memory, and how not.
pub fn unopened_on_examples()
    ensures bus { StartsSession reset_pair → FailsWith (regs first_enabled (enables 2 ∷ []) (1 ∷ []) 1) (no_blocks 2)
        (sink (ended (codes "error: bus fault")) 0) statuses.BusFault }
    ensures cut { StartsSession reset_pair → FailsWith (regs first_enabled (enables 2 ∷ []) (1 ∷ []) 1) (no_blocks 2)
        (sink (codes "error") 1) statuses.WriteFault }
    ensures memory { FailsWith (regs [] [] [] 0) (no_blocks 0) (sink [] 0) statuses.Memory }
    ensures memory_behind_reset { FailsWith (regs reset_pair.blocks [] [] 0) (no_blocks 2) (sink [] 0) statuses.Memory }
    ensures not_without_fault { ¬ (FailsWith (regs first_enabled (enables 2 ∷ []) (1 ∷ []) 0) (no_blocks 2)
        (sink (ended (codes "error: bus fault")) 0) statuses.BusFault) }
    ensures not_both_enabled { ¬ (FailsWith (regs both_enabled (enables 2 ∷ enables 3 ∷ []) (2 ∷ []) 1) (no_blocks 2)
        (sink (ended (codes "error: bus fault")) 0) statuses.BusFault) }
    ensures not_before_its_word { ¬ (FailsWith (regs first_enabled (enables 2 ∷ []) (0 ∷ []) 1) (no_blocks 2)
        (sink (ended (codes "error: bus fault")) 0) statuses.BusFault) }
    ensures not_called_again { ¬ (FailsWith (regs first_enabled (enables 2 ∷ []) (1 ∷ 1 ∷ []) 2) (no_blocks 2)
        (sink (ended (codes "error: bus fault")) 0) statuses.BusFault) }
    ensures not_counted_twice { ¬ (FailsWith (regs first_enabled (enables 2 ∷ []) (1 ∷ []) 2) (no_blocks 2)
        (sink (ended (codes "error: bus fault")) 0) statuses.BusFault) }
    ensures not_fewer_frames { ¬ (FailsWith (regs first_enabled (enables 2 ∷ []) (1 ∷ []) 1) (no_blocks 1)
        (sink (ended (codes "error: bus fault")) 0) statuses.BusFault) }
    ensures not_untold { ¬ (FailsWith (regs first_enabled (enables 2 ∷ []) (1 ∷ []) 1) (no_blocks 2) (sink [] 0) statuses.BusFault) }
    ensures not_memory_half { ¬ (FailsWith (regs first_enabled (enables 2 ∷ []) (1 ∷ []) 1) (no_blocks 2) (sink [] 0) statuses.Memory) }
    ensures not_memory_behind_fault { ¬ (FailsWith (regs reset_pair.blocks [] [] 1) (no_blocks 2) (sink [] 0) statuses.Memory) }
    ensures not_memory_past_sink_fault { ¬ (FailsWith (regs [] [] [] 0) (no_blocks 0) (sink [] 1) statuses.Memory) }
    ensures not_told_past_sink_fault { ¬ (FailsWith (regs first_enabled (enables 2 ∷ []) (1 ∷ []) 1) (no_blocks 2)
        (sink (ended (codes "error: bus fault")) 1) statuses.BusFault) }
    ensures not_memory_told { ¬ (FailsWith (regs [] [] [] 0) (no_blocks 0) (sink (codes "x") 0) statuses.Memory) }
    ensures not_done { ¬ (FailsWith (regs [] [] [] 0) (no_blocks 0) (sink [] 0) statuses.Done) }
{}
