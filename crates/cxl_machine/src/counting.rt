//! Laws of frames, each the contract of a function that does nothing.

ghost use Rattle.std.specs.Prelude.{◌≡◌, ◌≢◌, ℕ, ◌+◌, List, length, Contains};
ghost use Rattle.std.specs.FinMap as map;
ghost use Rattle.cxl_script.specs.declared.command.Store.{Store};
ghost use Rattle.cxl_model.specs.Contents.{Contents};
ghost use Rattle.cxl_machine.specs.Accesses.{frames_wanted, offset_in};
ghost use Rattle.cxl_move.specs.Bytes.{new_pieces, written};
ghost use Rattle.cxl_machine.specs.Copies.{copied, moved, pieces_of};
ghost use Rattle.cxl_machine.specs.Machine.{Live, Machine, free_frames, pieces_held, with_contents};
ghost use Rattle.cxl_machine.specs.Sound.{IsMachine};

/// A law of frames: those that are free and those that hold pieces are all. A store takes one for each touched piece that
/// was not there; a copy takes those of the first region and gives back those that the second had; a move takes none, and
/// gives back those that the second region had.
pub fn frames_are_counted()
    ensures free { (m : Machine) → IsMachine m → free_frames m + pieces_held m ≡ m.frames }
    ensures written { (contents : Contents) (offset : ℕ) (bytes : List ℕ)
        → map.len (written contents offset bytes) ≡ map.len contents + length (new_pieces contents offset (length bytes)) }
    ensures stored { (m : Machine) (region : Live) (store : Store) → IsMachine m → Contains m.live region
        → pieces_held (with_contents region.name (written region.contents (offset_in region store.h) store.bytes) m)
        ≡ pieces_held m + frames_wanted region store }
    ensures copied { (m : Machine) (from to : Live) → IsMachine m → Contains m.live to
        → pieces_held (copied m from to) + pieces_of to ≡ pieces_held m + pieces_of from }
    ensures moved { (m : Machine) (from to : Live) → IsMachine m → Contains m.live from → Contains m.live to
        → from.name ≢ to.name → pieces_held (moved m from to) + pieces_of to ≡ pieces_held m }
{}
