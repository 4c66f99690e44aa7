//! Where the nodes of a tree are found by name, by UID and by parent.

ghost use Rattle.std.specs.Prelude.{◌≡◌, ◌+◌, ◌<◌, ◌≤◌, length, take, nat_eq, Some, None, IfOk, OnOk};
ghost use Rattle.std.specs.Cmp.Rules.{comparing, hashing};
ghost use Rattle.std.specs.Hash as fed;
ghost use Rattle.std.specs.Ordering.{on};
ghost use Rattle.std.proofs.Common.{rules};

use crate::children::Children;
use crate::enter::{add_uid, enter_bridge};
use crate::node::Node;
use cxl_enc::Name;
use std::alloc::{AllocError, Global};
use std::collections::{BTreeMap, HashMap};
use std::hash::{Hash, Hasher};

/// A name as a key of a table: the number whose digits to the base 256 are its bytes, the first one
/// lowest, so that one comparison tells two names apart.
#[derive(Clone, Copy)]
pub struct NameKey(pub u128);

impl PartialEq for NameKey {
    ghost eq = { on (λ key. key.0) nat_eq };

    ghost laws = { Prim.search (comparing, rules) };

    fn eq(&self, other: &NameKey) -> bool {
        self.0 == other.0
    }
}

impl Eq for NameKey {
    ghost laws = { Prim.search (comparing, rules) };
}

impl Hash for NameKey {
    ghost hash_input = { λ key. fed.u128 key.0 };

    ghost respects_eq = { Prim.search (hashing, rules) };

    fn hash<H: Hasher>(&self, state: &mut H) {
        state.write_u128(self.0);
    }
}

impl NameKey {
    ghost use Rattle.cxl_enc.specs.Name.{IsName};
    ghost use Rattle.cxl_topo.specs.Keys.{name_key};

    /// The key of a name.
    pub fn of(name: &Name) -> NameKey
        ensures key { result ≡ name_key name.now }
        ensures name { IsName name.now }
    {
        let bytes = name.bytes();
        let mut number: u128 = 0;
        let mut left = bytes.len();
        while left > 0 {
            left -= 1;
            number = 256 * number + u128::from(bytes[left]);
        }
        NameKey(number)
    }
}

/// Where to find the nodes of a tree, so that no search goes over all of them, and the UIDs of its bridges.
#[derive(Drop)]
pub(crate) struct Tables {
    pub(crate) children: Children,
    pub(crate) names: HashMap<NameKey, u32>,
    pub(crate) bridges: BTreeMap<u32, u32>,
    pub(crate) uids: Vec<u32>,
}

impl Tables {
    ghost use Rattle.cxl_enc.specs.Limits.{node_limit};
    ghost use Rattle.cxl_topo.specs.declared.node.Parent.{Parent};
    ghost use Rattle.cxl_topo.specs.Tree.{parent_of, child_of, bridge_uids};
    ghost use Rattle.cxl_topo.specs.inner.AreTables.{AreTables};
    ghost use Rattle.cxl_topo.specs.inner.Tables.{ListsChildren, ListsNames, ListsBridges};
    ghost use Rattle.std.specs.Prelude.{[]};

    /// The tables of no nodes, with room for so many.
    pub(crate) fn new(alloc: Global, count: usize) -> Result<Tables, AllocError>
        requires { count ≤ node_limit }
        ensures { IfOk result (AreTables count []) }
    {
        let names = HashMap::with_capacity(alloc, count)?;
        let children = Children::new(alloc, count)?;
        Ok(Tables {
            children,
            names,
            bridges: BTreeMap::new(alloc),
            uids: Vec::new(alloc),
        })
    }

    /// Enters node `i`, whose name is entered, after the earlier ones.
    pub(crate) fn add(&mut self, nodes: &[Node], i: u32) -> Result<(), AllocError>
        requires below { i < length nodes.now }
        requires within { (parent : Parent) → parent_of nodes.now i ≡ Some parent → parent.node < length nodes.now }
        requires free { (parent : Parent) → parent_of nodes.now i ≡ Some parent → child_of (take i nodes.now) parent.node parent.port ≡ None }
        requires children { ListsChildren (length nodes.now) (take i nodes.now) self.old.children }
        requires names { ListsNames (take (i + 1) nodes.now) self.old.names }
        requires bridges { ListsBridges (take i nodes.now) self.old.bridges }
        requires uids { self.old.uids.items ≡ bridge_uids (take i nodes.now) }
        ensures { OnOk result (AreTables (length nodes.now) (take (i + 1) nodes.now) self.new) }
    {
        self.children.enter(nodes, i)?;
        enter_bridge(&mut self.bridges, nodes, i)?;
        add_uid(&mut self.uids, nodes, i)
    }
}
