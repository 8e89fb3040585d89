//! The declarations past which a block function doesn't move, as a pass over the program collects them: a `var` in its
//! place would be an early error (ECMAScript, Annex B.3.2).

ghost use Rattle.std.specs.Prelude.{◌≡◌, ℕ, ◌∷◌, [], ◌&&◌, not, option_map, OnOk, IfOk};
ghost use Rattle.std.specs.Str.{chars};
ghost use Rattle.semantic_tree.specs.ChildIter.{shown};
ghost use Rattle.semantic_syntax.specs.Tables.{Name};
ghost use Rattle.semantic_model.specs.Names.{bound_names};
ghost use Rattle.semantic_kinds.specs.declared.kind.AstType.TheVariants.{BindingIdentifier as binding_identifier};
ghost use Rattle.semantic_kinds.specs.declared.role.Role.TheVariants.{Pattern as pattern_role};
ghost use Rattle.semantic_tree.specs.Views.{is, child_of, holds};
ghost use Rattle.walk_model.specs.WrittenNames.{is_written, openers_at, is_known_inside, opener_of_names, is_lexical, is_sloppy, declares_lexically, names_in, written_by, written_in, names_written};
ghost use Rattle.walk_notes.specs.WrittenNames.{Adds, openers_of};

use node_rules::bound_identifiers::bound_identifiers;
use node_rules::inside::{is_inside, is_parameter_decorator};
use node_rules::rows::{is_statement, is_var_declaration};
use scoping::name_table::NameTable;
use semantic_syntax::{Ident, NodeId, SourceType};
use semantic_tree::{AstKind, AstType, Program, Role};
use std::alloc::{AllocError, Global};
use std::collections::HashSet;
use std::marker::Model;

/// Where lexical variables, classes and functions are declared: pairs of the node that opens the scope and the
/// name's number.
#[derive(Drop)]
pub struct Namesakes {
    alloc: Global,
    names: NameTable,
    written: HashSet<(usize, usize)>,
}

impl Model for Namesakes {
    ghost use Rattle.std.specs.Prelude.{List, length, map, ◌<◌, All};
    ghost use Rattle.std.specs.Coded.{codes};
    ghost use Rattle.walk_model.specs.WrittenNames.{WrittenName};
    ghost use Rattle.walk_notes.specs.WrittenNames.{written_of};

    ghost Value = { List WrittenName };

    ghost coded = { Prim.hlevel (codes) };

    ghost view = { λ s. map (written_of s.names) s.written.keys };

    ghost invariant = { λ s. All (λ key. key.1 < length s.names) s.written.keys };
}

/// The nodes that open the innermost scope and the one around it.
#[derive(Clone, Copy)]
struct Openers {
    innermost: NodeId,
    around: NodeId,
}

/// Whether functions in blocks move: Annex B.3.2 of ECMAScript is of sloppy code.
fn is_sloppy(source_type: SourceType) -> bool
    ensures { result ≡ is_sloppy source_type }
{
    !source_type.is_typescript() && !source_type.is_strict()
}

/// Whether the name of a function or class is known in its own scope alone, as that of an expression is (ECMAScript
/// 15.2.5, 15.7.14).
fn is_known_inside(kind: AstKind<'_>) -> bool
    ensures { result ≡ is_known_inside kind.entry.node.now }
{
    matches!(kind.ty(), AstType::Function | AstType::Class) && !is_statement(kind)
}

/// Whether the variables of a declaration are lexical: all but those of `var` (ECMAScript 14.3.1, Let and Const
/// Declarations).
fn is_lexical(declaration: Option<AstKind<'_>>) -> bool
    ensures { result ≡ is_lexical (option_map shown declaration.entry) }
{
    match declaration {
        Some(declaration) => !is_var_declaration(declaration),
        None => false,
    }
}

/// Whether the names that a catch clause declares are those of a pattern: past a plain one a `var` may go
/// (ECMAScript, Annex B.3.4).
fn has_pattern(parameter: AstKind<'_>) -> bool
    ensures { result ≡ holds (λ p. not (is binding_identifier p))
        (child_of pattern_role parameter.entry.node.now) }
{
    match parameter.child(Role::Pattern) {
        Some(pattern) => pattern.ty() != AstType::BindingIdentifier,
        None => false,
    }
}

/// Whether the node declares lexical variables, a class, a function, or the names of a catch pattern.
fn counts(kind: AstKind<'_>, parent: Option<AstKind<'_>>) -> bool
    ensures { result ≡ declares_lexically kind.entry.node.now.kind kind.entry.node.now
        (option_map shown parent.entry) }
{
    match kind.ty() {
        AstType::VariableDeclarator => is_lexical(parent),
        AstType::Function | AstType::Class => true,
        AstType::CatchParameter => has_pattern(kind),
        _ => false,
    }
}

/// The node that opens the scope where the names of a node are declared.
fn opener_of_names(kind: AstKind<'_>, openers: &Openers) -> NodeId
    ensures { result ≡ opener_of_names kind.entry.node.now (openers_of openers.now) }
{
    if is_known_inside(kind) {
        kind.node_id()
    } else {
        openers.innermost
    }
}

/// The openers for a child in the role.
fn openers_in_child(kind: AstKind<'_>, role: Role, openers: &Openers) -> Openers
    ensures { openers_of result ≡ openers_at kind.entry.node.now role (openers_of openers.now) }
{
    if is_inside(kind.ty(), role) {
        Openers {
            innermost: kind.node_id(),
            around: openers.innermost,
        }
    } else if is_parameter_decorator(kind.ty(), role) {
        Openers {
            innermost: openers.around,
            around: openers.around,
        }
    } else {
        Openers {
            innermost: openers.innermost,
            around: openers.around,
        }
    }
}

impl Namesakes {
    /// Those of a program, wherever they are written. Only sloppy JavaScript has block functions that move.
    pub fn of(alloc: Global, program: &Program) -> Result<Namesakes, AllocError>
        ensures { IfOk result (λ made. (opener : ℕ) (name : Name)
            → is_written made opener name
            ≡ (is_sloppy program.now.source_type
            && is_written (names_written program.now) opener name)) }
    {
        let mut namesakes = Namesakes::new(alloc);
        if !is_sloppy(program.source_type()) {
            return Ok(namesakes);
        }
        let openers = Openers {
            innermost: NodeId::ROOT,
            around: NodeId::ROOT,
        };
        namesakes.collect(program.root(), None, &openers)?;
        Ok(namesakes)
    }

    /// No declaration is collected yet.
    fn new(alloc: Global) -> Namesakes
        ensures { result ≡ [] }
    {
        Namesakes {
            alloc,
            names: NameTable::new(alloc),
            written: HashSet::new(alloc),
        }
    }

    /// Whether the scope that the node opens has such a declaration of the name.
    pub fn has(&self, opener: NodeId, name: Ident<'_>) -> bool
        ensures { result ≡ is_written self.now opener (chars name.entry.text.now) }
    {
        match self.names.find(name) {
            Some(number) => self.written.contains(&(opener.index(), number)),
            None => false,
        }
    }

    /// The name is declared in the scope that the node opens.
    fn add(&mut self, opener: NodeId, name: Ident<'_>) -> Result<(), AllocError>
        ensures { OnOk result (Adds self.old self.new
            (record { opener = opener; name = chars name.entry.text.now } ∷ [])) }
    {
        let number = self.names.intern(name)?;
        self.written.insert((opener.index(), number))?;
        Ok(())
    }

    /// The names that a node binds are declared in the scope that the opener opens.
    fn note(&mut self, kind: AstKind<'_>, opener: NodeId) -> Result<(), AllocError>
        ensures { OnOk result (Adds self.old self.new
            (names_in opener (bound_names kind.entry.node.now))) }
    {
        let names = bound_identifiers(self.alloc, kind)?;
        for name in names.iter() {
            self.add(opener, name.text())?;
        }
        Ok(())
    }

    /// Collects the names of one node, if it counts.
    fn note_node(
        &mut self,
        kind: AstKind<'_>,
        parent: Option<AstKind<'_>>,
        openers: &Openers,
    ) -> Result<(), AllocError>
        ensures { OnOk result (Adds self.old self.new
            (written_by kind.entry.node.now (option_map shown parent.entry)
            (openers_of openers.now))) }
    {
        if counts(kind, parent) {
            self.note(kind, opener_of_names(kind, openers))?;
        }
        Ok(())
    }

    /// Collects from a node and all that is below it.
    #[tactic(auto, using(semantic_tree::specs::Falls::below))]
    fn collect(
        &mut self,
        kind: AstKind<'_>,
        parent: Option<AstKind<'_>>,
        openers: &Openers,
    ) -> Result<(), AllocError>
        ensures { OnOk result (Adds self.old self.new
            (written_in kind.entry.node.now (option_map shown parent.entry)
            (openers_of openers.now))) }
    {
        self.note_node(kind, parent, openers)?;
        for (role, child) in kind.node().children.as_slice() {
            let there = openers_in_child(kind, *role, openers);
            self.collect(AstKind::new(child), Some(kind), &there)?;
        }
        Ok(())
    }
}
