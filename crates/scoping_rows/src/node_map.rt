//! A value for each of some nodes.
ghost use Rattle.std.specs.Prelude.{◌≡◌, [], true, nat_eq, MatchOption, OnOk, OnErr};
ghost use Rattle.std.specs.List.{IsDistinct};
ghost use Rattle.std.specs.Map.{keys_of, lookup};
ghost use Rattle.indexmap.specs.IndexMap.{insert_entry};
ghost use Rattle.semantic_syntax.specs.NodeEntries.{AreRising, AreBefore, HasNone, IsPositionOf};

use indexmap::IndexMap;
use semantic_syntax::NodeId;
use std::alloc::{AllocError, Global};
use std::marker::Model;

/// Values under nodes, in the order in which they were noted. As long as the nodes rise, as those of a walk mostly do,
/// an entry takes its own room alone and is found by halves; from the first node that comes late, what is new stands
/// in a map.
#[derive(Drop)]
pub struct NodeMap<T> {
    rising: Vec<(NodeId, T)>,
    late: IndexMap<NodeId, T>,
}

impl<T> Model for NodeMap<T> {
    ghost use Rattle.std.specs.Prelude.{ℕ, List, ◌++◌, nat_eq};
    ghost use Rattle.std.specs.List.{IsDistinct};
    ghost use Rattle.std.specs.Map.{keys_of};
    ghost use Rattle.semantic_syntax.specs.NodeEntries.{AreRising};

    ghost Value = { List (ℕ × T) };

    ghost view = { λ a. a.rising.items ++ a.late.entries };

    ghost invariant = { λ a. (AreRising a.rising.items) × (IsDistinct nat_eq (keys_of (a.rising.items ++ a.late.entries))) };
}

/// Whether the node comes behind those of all entries, which rise.
fn is_behind<T>(entries: &[(NodeId, T)], node: NodeId) -> bool
    requires { AreRising entries.now }
    ensures { result ≡ true → AreBefore entries.now node }
{
    match entries.last() {
        Some(last) => last.0 < node,
        None => true,
    }
}

/// The position of the node's entry, if any, among entries whose nodes rise.
fn position_of<T>(entries: &[(NodeId, T)], node: NodeId) -> Option<usize>
    requires { AreRising entries.now }
    ensures { MatchOption result (HasNone entries.now node) (IsPositionOf entries.now node) }
{
    match entries.binary_search_by_key(&node, |entry| entry.0) {
        Ok(position) => Some(position),
        Err(_) => None,
    }
}

impl<T: Copy> NodeMap<T> {
    /// A map without entries.
    pub fn new(alloc: Global) -> NodeMap<T>
        ensures { result ≡ [] }
    {
        NodeMap {
            rising: Vec::new(alloc),
            late: IndexMap::new(alloc),
        }
    }

    /// No node has two values.
    pub fn attest(&self)
        ensures { IsDistinct nat_eq (keys_of self.now) }
    {
        let _entries = &self.rising;
    }

    /// Makes room for so many more entries, as long as their nodes rise. All stays, whatever the answer.
    pub fn reserve(&mut self, entries: usize) -> Result<(), AllocError>
        ensures { self.new ≡ self.old }
    {
        self.rising.reserve(entries)
    }

    /// The value of the node, if any.
    pub fn get(&self, node: NodeId) -> Option<T>
        ensures { result ≡ lookup (nat_eq node) self.now }
    {
        match position_of(&self.rising, node) {
            Some(position) => Some(self.rising[position].1),
            None => self.late.get(&node).copied(),
        }
    }

    /// Notes the value of the node. A new node goes last, one that is there keeps its position.
    pub fn insert(&mut self, node: NodeId, value: T) -> Result<(), AllocError>
        ensures ok { OnOk result (self.new ≡ insert_entry nat_eq self.old node value) }
        ensures err { OnErr result (self.new ≡ self.old) }
    {
        if self.late.is_empty() && is_behind(&self.rising, node) {
            self.rising.push((node, value))?;
            return Ok(());
        }
        match position_of(&self.rising, node) {
            Some(position) => self.rising[position].1 = value,
            None => {
                self.late.insert(node, value)?;
            }
        }
        Ok(())
    }
}
