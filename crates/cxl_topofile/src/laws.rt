//! A law of topology files, the contract of a function that does nothing.

ghost use Rattle.std.specs.Prelude.{◌≡◌, ◌≢◌, ℕ, List};
ghost use Rattle.cxl_topo.specs.Tree.{Tree};
ghost use Rattle.cxl_topofile.specs.File.{IsTopologyFile, IsFirstTopoFault};
ghost use Rattle.cxl_topofile.specs.declared.fault.TopoFault.{TopoFault};

use cxl_topo::tree_laws;

/// A law of files: bytes stand for one tree at the most, or have one first fault at the most, and never both.
pub fn one_topology_reading()
    ensures one_tree { (bytes : List ℕ) (tree other : Tree)
        → IsTopologyFile bytes tree → IsTopologyFile bytes other → tree ≡ other }
    ensures one_fault { (bytes : List ℕ) (fault other : TopoFault)
        → fault ≢ TopoFault.Memory → other ≢ TopoFault.Memory
        → IsFirstTopoFault bytes fault → IsFirstTopoFault bytes other → fault ≡ other }
    ensures not_both { (bytes : List ℕ) (tree : Tree) (fault : TopoFault) → fault ≢ TopoFault.Memory
        → IsTopologyFile bytes tree → IsFirstTopoFault bytes fault → ⊥ }
{
    tree_laws();
}
