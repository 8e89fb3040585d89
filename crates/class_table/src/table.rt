//! The table of classes.
ghost use Rattle.std.specs.Prelude.{◌≡◌, ◌∷◌, [], ◌++◌, ◌<◌, ◌≤◌, true, length, map, slice_index, IfOk, OnOk, OnErr, IfSome, option_map, vec_len, vec_capacity};
ghost use Rattle.std.specs.List.{AllByRecursion, list_any, enumerate_from};
ghost use Rattle.std.specs.Option.{option_to_list};
ghost use Rattle.std.specs.Str.{chars};
ghost use Rattle.semantic_model.specs.Element.{is_named, element_ids};
ghost use Rattle.class_table.specs.Seen.{element_seen, use_seen};
ghost use Rattle.class_table.specs.Lists.{IsInside, no_classes, with_class, with_element, with_use, elements_in, uses_in};
ghost use Rattle.class_table.specs.Meanings.{with_meaning};
ghost use Rattle.class_table.specs.Outward.{parent_class, classes_outward};

use crate::ancestors::{ClassAncestors, parent_of};
use crate::element::Element;
use crate::element_ids::ElementIds;
use crate::iterators::{ClassesEnumerated, PrivateUses};
use crate::meant_names::MeantNames;
use crate::private_name::PrivateIdentifierReference;
use semantic_syntax::{ClassId, Ident, NodeId};
use std::alloc::{AllocError, Global};
use std::collections::BTreeMap;
use std::marker::Model;

/// The classes of a program by their ids, in preorder. Contracts see its lists.
#[derive(Drop)]
pub struct ClassTable<'a> {
    /// The class around a class, for each that stands inside one.
    pub parent_ids: BTreeMap<ClassId, ClassId>,
    /// The node of each class.
    pub declarations: Vec<NodeId>,
    /// The elements of each class, in order.
    pub elements: Vec<Vec<Element<'a>>>,
    /// The uses of private names in each class, without those in classes inside it.
    pub private_identifier_references: Vec<Vec<PrivateIdentifierReference<'a>>>,
    /// What each name means among the elements of each class.
    names: Vec<MeantNames<'a>>,
}

impl<'a> Model for ClassTable<'a> {
    ghost use Rattle.class_table.specs.Lists.{ClassLists};

    ghost Value = { ClassLists };

    ghost use Rattle.class_table.specs.View.{lists_of, IsClassTable};

    ghost view = { lists_of };

    ghost invariant = { IsClassTable };
}

impl<'a> ClassTable<'a> {
    /// A table that has no class yet.
    pub fn new(alloc: Global) -> ClassTable<'a>
        ensures { result ≡ no_classes }
    {
        ClassTable {
            parent_ids: BTreeMap::new(alloc),
            declarations: Vec::new(alloc),
            elements: Vec::new(alloc),
            private_identifier_references: Vec::new(alloc),
            names: Vec::new(alloc),
        }
    }

    /// How many classes there are.
    pub fn len(&self) -> usize
        ensures { result ≡ length self.now.nodes }
    {
        self.declarations.len()
    }

    /// The node that the class was declared with.
    pub fn get_node_id(&self, c: ClassId) -> NodeId
        requires { c < length self.now.nodes }
        ensures { result ≡ slice_index self.now.nodes c }
    {
        self.declarations[c.index()]
    }

    /// The elements of a class itself, in order.
    pub fn elements_of(&self, c: ClassId) -> &[Element<'a>]
        requires { c < length self.now.nodes }
        ensures elements { map element_seen result.now ≡ elements_in self.now c }
        ensures numbered { length result.now ≤ u32.MAX }
    {
        self.elements[c.index()].as_slice()
    }

    /// Where the classes are kept.
    pub(crate) fn allocator(&self) -> Global {
        *self.declarations.allocator()
    }

    /// The class around a class, if it stands inside one.
    pub(crate) fn parent_of(&self, c: ClassId) -> Option<ClassId>
        ensures parent { result ≡ parent_class self.now.parents c }
        ensures before { IfSome result (λ p. p < c) }
    {
        parent_of(&self.parent_ids, c)
    }

    /// A class and those around it, inner first.
    pub fn ancestors(&self, c: ClassId) -> ClassAncestors<'_>
        ensures { result ≡ classes_outward self.now.parents c }
    {
        ClassAncestors::new(&self.parent_ids, c)
    }

    /// The classes, each with its node.
    pub fn iter_enumerated(&self) -> ClassesEnumerated<'_>
        ensures { result ≡ enumerate_from 0 self.now.nodes }
    {
        ClassesEnumerated::new(self.declarations.as_slice())
    }

    /// The uses of private names in a class, in order.
    pub fn iter_private_identifiers(&self, c: ClassId) -> PrivateUses<'_>
        requires { c < length self.now.nodes }
        ensures { result ≡ uses_in self.now c }
    {
        PrivateUses::new(self.private_identifier_references[c.index()].as_slice())
    }

    /// The elements of the class that the name means, as a private or as a public one: the first match alone where it
    /// is an accessor or a property, else the matches up to and including the first accessor or property, at most two.
    pub fn get_element_ids(
        &self,
        alloc: Global,
        c: ClassId,
        name: Ident<'_>,
        is_private: bool,
    ) -> Result<ElementIds, AllocError>
        requires { c < length self.now.nodes }
        ensures ids { IfOk result
            (λ ids. ids ≡ element_ids (elements_in self.now c)
            (chars name.entry.text.now) is_private) }
        ensures within { IfOk result (AllByRecursion (λ i. i < length (elements_in self.now c))) }
    {
        self.names[c.index()].ids_meant(alloc, name, is_private)
    }

    /// Whether the class itself has a private element of the name (ECMAScript 15.7.1, PrivateBoundIdentifiers).
    pub fn has_private_definition(&self, c: ClassId, name: Ident<'_>) -> bool
        requires { c < length self.now.nodes }
        ensures { result ≡ list_any (is_named (chars name.entry.text.now) true)
            (elements_in self.now c) }
    {
        self.names[c.index()].has(name, true)
    }

    /// Adds a class with this node, inside another one or inside none, without elements and uses. After want of
    /// memory the table is as before.
    pub fn declare_class(
        &mut self,
        parent: Option<ClassId>,
        node: NodeId,
    ) -> Result<ClassId, AllocError>
        requires room { length self.old.nodes < u32.MAX }
        requires parent { IfSome parent (λ p. p < length self.old.nodes) }
        ensures id { IfOk result (λ id. id ≡ length self.old.nodes) }
        ensures ok { OnOk result (self.new ≡ with_class self.old parent node []) }
        ensures err { OnErr result (self.new ≡ self.old) }
    {
        let alloc = self.allocator();
        self.declare_with_elements(parent, node, Vec::new(alloc))
    }

    /// Adds a class as `declare_class` does, with its elements.
    pub(crate) fn declare_with_elements(
        &mut self,
        parent: Option<ClassId>,
        node: NodeId,
        elements: Vec<Element<'a>>,
    ) -> Result<ClassId, AllocError>
        requires room { length self.old.nodes < u32.MAX }
        requires parent { IfSome parent (λ p. p < length self.old.nodes) }
        requires elements { length elements.items ≤ u32.MAX }
        ensures id { IfOk result (λ id. id ≡ length self.old.nodes) }
        ensures ok { OnOk result
            (self.new ≡ with_class self.old parent node (map element_seen elements.entry.items)) }
        ensures err { OnErr result (self.new ≡ self.old) }
    {
        let alloc = self.allocator();
        let id = ClassId::new(self.declarations.len() as u32);
        reserve_class(
            &mut self.declarations,
            &mut self.elements,
            &mut self.private_identifier_references,
            &mut self.names,
        )?;
        let names = MeantNames::of(alloc, elements.as_slice())?;
        put_inside(&mut self.parent_ids, id, parent)?;
        push_in_room(&mut self.declarations, node);
        push_in_room(&mut self.elements, elements);
        push_in_room(&mut self.private_identifier_references, Vec::new(alloc));
        push_in_room(&mut self.names, names);
        Ok(id)
    }

    /// Adds an element to a class, as its last. After want of memory the table is as before.
    pub fn add_element(&mut self, c: ClassId, element: Element<'a>) -> Result<(), AllocError>
        requires class { c < length self.old.nodes }
        requires room { length (elements_in self.old c) < u32.MAX }
        ensures ok { OnOk result (self.new ≡ with_element self.old c (element_seen element.entry)) }
        ensures err { OnErr result (self.new ≡ self.old) }
    {
        push_named(
            &mut self.elements[c.index()],
            &mut self.names[c.index()],
            element,
        )?;
        Ok(())
    }

    /// Adds a use of a private name to a class, as its last. After want of memory the table is as before.
    pub fn add_private_identifier_reference(
        &mut self,
        c: ClassId,
        reference: PrivateIdentifierReference<'a>,
    ) -> Result<(), AllocError>
        requires { c < length self.old.nodes }
        ensures ok { OnOk result (self.new ≡ with_use self.old c (use_seen reference.entry)) }
        ensures err { OnErr result (self.new ≡ self.old) }
    {
        self.private_identifier_references[c.index()].push(reference)?;
        Ok(())
    }
}

/// Makes room in each list for one more class.
fn reserve_class<'a>(
    declarations: &mut Vec<NodeId>,
    elements: &mut Vec<Vec<Element<'a>>>,
    uses: &mut Vec<Vec<PrivateIdentifierReference<'a>>>,
    names: &mut Vec<MeantNames<'a>>,
) -> Result<(), AllocError>
    ensures declarations { declarations.new.items ≡ declarations.old.items }
    ensures elements { elements.new.items ≡ elements.old.items }
    ensures uses { uses.new.items ≡ uses.old.items }
    ensures names { names.new.items ≡ names.old.items }
    ensures declarations_room { OnOk result
        (vec_len declarations.new < vec_capacity declarations.new) }
    ensures elements_room { OnOk result (vec_len elements.new < vec_capacity elements.new) }
    ensures uses_room { OnOk result (vec_len uses.new < vec_capacity uses.new) }
    ensures names_room { OnOk result (vec_len names.new < vec_capacity names.new) }
{
    declarations.reserve(1)?;
    elements.reserve(1)?;
    uses.reserve(1)?;
    names.reserve(1)
}

/// Notes the class around a new one, if there is one.
fn put_inside(
    parents: &mut BTreeMap<ClassId, ClassId>,
    class: ClassId,
    parent: Option<ClassId>,
) -> Result<(), AllocError>
    requires { AllByRecursion (IsInside class) parents.old.entries }
    ensures ok { OnOk result (parents.new.entries
        ≡ parents.old.entries ++ option_to_list (option_map (λ p. (class, p)) parent)) }
    ensures err { OnErr result (parents.new.entries ≡ parents.old.entries) }
{
    if let Some(parent) = parent {
        parents.insert(class, parent)?;
    }
    Ok(())
}

/// Adds a value to a list that has room for it.
fn push_in_room<T: Drop>(list: &mut Vec<T>, value: T)
    requires { vec_len list.old < vec_capacity list.old }
    ensures { list.new.items ≡ list.old.items ++ value ∷ [] }
{
    let _ = list.push(value);
}

/// Adds an element as the last one, and to the names as well. After want of memory both are as before.
fn push_named<'a>(
    elements: &mut Vec<Element<'a>>,
    names: &mut MeantNames<'a>,
    element: Element<'a>,
) -> Result<(), AllocError>
    requires { length elements.old.items < u32.MAX }
    ensures elements { OnOk result (elements.new.items ≡ elements.old.items ++ element.entry ∷ []) }
    ensures names { OnOk result
        (names.new ≡ with_meaning names.old (length elements.old.items)
        (element_seen element.entry)) }
    ensures elements_stay { OnErr result (elements.new.items ≡ elements.old.items) }
    ensures names_stay { OnErr result (names.new ≡ names.old) }
{
    elements.reserve(1)?;
    names.put(elements.len() as u32, &element)?;
    push_in_room(elements, element);
    Ok(())
}
