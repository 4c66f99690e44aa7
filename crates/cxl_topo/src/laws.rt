//! Laws of legal trees, the contract of a function that does nothing.

ghost use Rattle.std.specs.Prelude.{◌≡◌, ◌↔◌, List, false};
ghost use Rattle.cxl_topo.specs.declared.node.Node.{Node};
ghost use Rattle.cxl_topo.specs.declared.fault.TreeFault.{TreeFault};
ghost use Rattle.cxl_topo.specs.Faults.{IsTree, fits};
ghost use Rattle.cxl_topo.specs.Laws.{AreTreeLaws};

/// What holds of every legal tree, for whoever reasons about one; and a tree is legal exactly where no fault fits.
/// Does nothing.
pub fn tree_laws()
    ensures legal { (nodes : List Node) → IsTree nodes ↔ ((fault : TreeFault) → fits nodes fault ≡ false) }
    ensures laws { (nodes : List Node) → IsTree nodes → AreTreeLaws nodes }
{}
