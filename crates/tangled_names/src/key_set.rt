//! A set of names at homes.
ghost use Rattle.std.specs.Prelude.{◌≡◌, [], OnOk};
ghost use Rattle.std.specs.Str.{chars, IsUtf8};
ghost use Rattle.tangle_model.specs.Repeated.{key_of, key_stands};
ghost use Rattle.tangled_names.specs.Gathered.{noted_of};
ghost use Rattle.tangled_names.specs.Stored.{with_key, with_key_if, name_key, has_name, node_key};

use crate::mention::{Mention, key_home};
use indexmap::IndexSet;
use semantic_syntax::NodeId;
use std::alloc::{AllocError, Global};
use std::marker::Model;

/// Names, each at a home. Contracts see them in order.
#[derive(Drop)]
pub struct KeySet<'a> {
    stored: IndexSet<(&'a str, usize)>,
}

impl<'a> Model for KeySet<'a> {
    ghost use Rattle.std.specs.Prelude.{List, map};
    ghost use Rattle.std.specs.List.{AllByRecursion};
    ghost use Rattle.tangle_model.specs.Repeated.{Key};
    ghost use Rattle.tangled_names.specs.Stored.{key_seen, IsSpelled};

    ghost Value = { List Key };

    ghost view = { λ s. map key_seen s.stored.keys };

    ghost invariant = { λ s. AllByRecursion IsSpelled s.stored.keys };
}

/// A text is UTF-8.
fn spell(text: &str)
    ensures { IsUtf8 text.entry.now }
{}

/// No name.
#[tactic(auto, using(crate::proofs::Words::empty))]
fn no_name() -> &'static str
    ensures { chars result.now ≡ [] }
{
    ""
}

impl<'a> KeySet<'a> {
    /// No names.
    pub fn new(alloc: Global) -> KeySet<'a>
        ensures { result ≡ [] }
    {
        KeySet {
            stored: IndexSet::new(alloc),
        }
    }

    /// Whether the name at the home is among them.
    fn has(&self, name: &str, home: usize) -> bool
        ensures { result ≡ key_stands
            (record { name = chars name.entry.now; home = home }) self.now }
    {
        spell(name);
        self.stored.contains(&(name, home))
    }

    /// Adds the name at the home.
    fn add(&mut self, name: &'a str, home: usize) -> Result<(), AllocError>
        ensures { OnOk result (self.new
            ≡ with_key self.old (record { name = chars name.now; home = home })) }
    {
        spell(name);
        self.stored.insert((name, home))?;
        Ok(())
    }

    /// Whether the name is among them, without a home.
    pub fn has_name(&self, name: &str) -> bool
        ensures { result ≡ has_name self.now (chars name.entry.now) }
    {
        self.has(name, 0)
    }

    /// Adds the name without a home, if it is so.
    pub fn add_name_if(&mut self, is: bool, name: &'a str) -> Result<(), AllocError>
        ensures { OnOk result (self.new ≡ with_key_if is self.old (name_key (chars name.now))) }
    {
        if is {
            self.add(name, 0)?;
        }
        Ok(())
    }

    /// Whether what is noted has a name that is among them, at its home.
    pub fn has_key(&self, mention: &Mention<'_>) -> bool
        ensures { result ≡ key_stands (key_of (noted_of mention.now)) self.now }
    {
        self.has(mention.name.as_str(), key_home(mention))
    }

    /// Adds the name of what is noted, at its home, if it is so.
    pub fn add_key_if(&mut self, is: bool, mention: &Mention<'a>) -> Result<(), AllocError>
        ensures { OnOk result (self.new ≡ with_key_if is self.old (key_of (noted_of mention.now))) }
    {
        if is {
            self.add(mention.name.as_str(), key_home(mention))?;
        }
        Ok(())
    }

    /// Adds the node, if it is so.
    pub fn add_node_if(&mut self, is: bool, node: usize) -> Result<(), AllocError>
        ensures { OnOk result (self.new ≡ with_key_if is self.old (node_key node)) }
    {
        if is {
            self.add(no_name(), node)?;
        }
        Ok(())
    }

    /// Whether the node is among them.
    pub fn has_node(&self, node: NodeId) -> bool
        ensures { result ≡ key_stands (node_key node) self.now }
    {
        self.has(no_name(), node.index())
    }
}
