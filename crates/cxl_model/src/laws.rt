//! Laws of the definitions, each the contract of a function that does nothing.

ghost use Rattle.std.specs.Prelude.{◌≡◌, ◌⊎◌, ◌↔◌, ℕ, ◌+◌, ◌<◌, ◌≤◌, true, false, List, length, Contains};
ghost use Rattle.cxl_image.specs.Images.{reset_blocks};
ghost use Rattle.cxl_topo.specs.Tree.{Tree};
ghost use Rattle.cxl_window.specs.Fields.{WindowFields};
ghost use Rattle.cxl_window.specs.Windows.{AreMadeWith};
ghost use Rattle.cxl_model.specs.System.{System, IsSystem, system_of, bridge_uids, decoders_at};
ghost use Rattle.cxl_model.specs.Hosts.{IsHost};
ghost use Rattle.cxl_model.specs.Chain.{ChainEnd, Chain};
ghost use Rattle.cxl_regs.specs.declared.reading.Range.{Range};
ghost use Rattle.cxl_model.specs.Ranges.{IsCommittedRange, lies_within};
ghost use Rattle.cxl_model.specs.Accepted.{breaks, IsAccepted, IsFirstBreach, HasFirstBreach, KeepsBlocks, IsWhole};

use cxl_image::Image;
use cxl_span::ranges_rise;
use cxl_topo::Topo;
use cxl_window::Window;

/// A law of chains: where windows are made with the tree's bridges, an address's chain has one end at the most. That
/// it has one is what `down` of `cxl_walk` gives.
pub fn chains_have_one_end()
    ensures { (s : System) (h : ℕ) (one other : ChainEnd)
        → AreMadeWith s.windows (bridge_uids s.nodes)
        → Chain s h one → Chain s h other → one ≡ other }
{
    ranges_rise();
}

/// A law of images: one is accepted, or it has a first breach, and not both; and it has one first breach
/// at the most.
pub fn accepted_or_breach()
    ensures either { (s : System) → IsAccepted s ⊎ HasFirstBreach s }
    ensures not_both { (s : System) → IsAccepted s → HasFirstBreach s → ⊥ }
    ensures one { (s : System) (rule n i other m j : ℕ) → IsFirstBreach s rule n i
        → IsFirstBreach s other m j → (rule ≡ other) × (n ≡ m) × (i ≡ j) }
{}

/// A law of rules: nothing is broken past a node's decoders, past all nodes, nor past the last rule. So whether an
/// image is accepted, and what it breaks first, is found by looking at the decoders that it has.
pub fn breaches_lie_in_images()
    ensures decoders { (s : System) (rule n i : ℕ) → 1 + length (decoders_at s n) ≤ i
        → breaks s rule n i ≡ false }
    ensures nodes { (s : System) (rule n i : ℕ) → 1 + length s.nodes + length s.blocks ≤ n
        → breaks s rule n i ≡ false }
    ensures rules { (s : System) (rule n i : ℕ) → 13 ≤ rule → breaks s rule n i ≡ false }
{}

/// A law of images: one is accepted exactly where K1 to K8 hold of it and each committed range is whole.
pub fn accepted_where_whole()
    ensures { (s : System) → IsAccepted s
        ↔ (KeepsBlocks s × ((r : Range) → IsCommittedRange s r → IsWhole s r)) }
{}

/// A law of hosts: where K1 holds, one is a system; and K1 holds of each system.
pub fn hosts_with_caps_are_systems()
    ensures system { (s : System) → IsHost s → ((n i : ℕ) → breaks s 1 n i ≡ false) → IsSystem s }
    ensures host { (s : System) → IsSystem s → IsHost s }
    ensures caps { (s : System) (n i : ℕ) → IsSystem s → breaks s 1 n i ≡ false }
{}

/// An accepted image over its topology, with windows made with that topology's bridges, is a system. Does nothing, so
/// that a caller can rest on it.
pub fn accepted_image_is_system(image: &Image, topo: &Topo, windows: &[Window])
    requires made { AreMadeWith windows.now (bridge_uids topo.now.nodes) }
    requires accepted { IsAccepted (system_of image.now topo.now windows.now) }
    ensures { IsSystem (system_of image.now topo.now windows.now) }
{
    hosts_with_caps_are_systems();
    let _count = topo.count();
    let _blocks = image.count();
}

/// A law of hosts: after reset, an image is accepted.
pub fn reset_hosts_are_accepted()
    ensures { (tree : Tree) (windows : List WindowFields)
        → IsSystem (system_of (reset_blocks tree.nodes) tree windows)
        → IsAccepted (system_of (reset_blocks tree.nodes) tree windows) }
{
    hosts_with_caps_are_systems();
}

/// A law of windows: a range that has bytes lies in one usable window at the most.
pub fn one_window()
    ensures { (s : System) (r : Range) (w v : WindowFields) → AreMadeWith s.windows (bridge_uids s.nodes)
        → 0 < r.size
        → Contains s.windows w → Contains s.windows v
        → lies_within r w ≡ true → lies_within r v ≡ true → w ≡ v }
{}
