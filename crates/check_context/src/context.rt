//! What is handed to a check beside the node.
ghost use Rattle.std.specs.Prelude.{◌≡◌, ◌<◌, true, length, is_some, option_map, IfSome};
ghost use Rattle.std.specs.List.{position_or_len};
ghost use Rattle.semantic_tree.specs.ChildIter.{shown};
ghost use Rattle.semantic_tree.specs.Sound.{is_sound};
ghost use Rattle.node_store.specs.PathLeft.{path_left};
ghost use Rattle.semantic_syntax.specs.Reading.{scope_of, parent_of};
ghost use Rattle.check_model.specs.Context.{seen_row};
ghost use Rattle.check_model.specs.Functions.{is_async_or_generator};
ghost use Rattle.check_model.specs.Search.{first};
ghost use Rattle.check_model.specs.Sight.{symbol_entries};
ghost use Rattle.check_model.specs.Surroundings.{parent, is_under, is_in_class, scope_passes, is_strict, is_in_function, is_at_top, is_in_static_block, bytes_at};
ghost use Rattle.check_context.specs.Handed.{around, is_block_or_function, IsContext};

use class_table::ClassTableBuilder;
use node_store::{AncestorKinds, Ancestry};
use scoping::{NodeTables, Redeclaration, Scoping};
use semantic_syntax::{NodeId, ScopeFlags, ScopeId, SourceType, Span};
use semantic_tree::{AstKind, AstType};

/// What is handed to a check beside the node: where the node stands, and what is known of the program when the node
/// is left.
#[derive(Drop)]
pub struct CheckContext<'a, 'n> {
    /// The source of the program, which spans point into.
    pub source_text: &'a str,
    pub source_type: SourceType,
    /// The scopes, symbols and references so far.
    pub scoping: &'n Scoping,
    /// What belongs to each node so far.
    pub tables: &'n NodeTables,
    /// The classes so far. On leaving a class it is the current one; on leaving another node that is the innermost
    /// class whose body holds the node.
    pub classes: &'n ClassTableBuilder<'a>,
    /// The path to the node.
    pub ancestry: Ancestry<'a, 'n>,
    /// The scope where the node stands, which isn't the one that it opens.
    pub current_scope_id: ScopeId,
    /// Whether the node is ambient code, by its own `declare` too.
    pub in_ambient: bool,
}

impl<'a, 'n> CheckContext<'a, 'n> {
    /// The nodes around, parent first.
    pub fn above(&self) -> AncestorKinds<'n, 'a>
        requires { IsContext self.now }
        ensures { path_left result ≡ (around self.now).path }
    {
        self.ancestry.above()
    }

    /// The node around, if this isn't the root.
    pub fn parent(&self) -> Option<AstKind<'a>>
        requires { IsContext self.now }
        ensures { option_map shown result ≡ parent (around self.now) }
    {
        let mut above = self.above();
        above.next()
    }

    /// Whether the node around is of the kind.
    pub fn is_under(&self, kind: AstType) -> bool
        requires { IsContext self.now }
        ensures { result ≡ is_under kind (around self.now) }
    {
        match self.parent() {
            Some(parent) => parent.ty() == kind,
            None => false,
        }
    }

    /// Whether a class is around.
    pub fn is_in_class(&self) -> bool
        requires { IsContext self.now }
        ensures { result ≡ is_in_class (around self.now) }
    {
        let mut above = self.above();
        while let Some(kind) = above.next() {
            if kind.ty() == AstType::Class {
                return true;
            }
        }
        false
    }

    /// The flags of the scope where the node stands.
    fn scope_flags(&self) -> ScopeFlags
        requires { IsContext self.now }
        ensures { result ≡ (scope_of self.now.scoping.now self.now.current_scope_id).flags }
    {
        self.scoping.scope_flags(self.current_scope_id)
    }

    /// Whether the code is strict (ECMAScript 11.2.2, Strict Mode Code).
    #[tactic(auto, using(crate::proofs::Outward::here))]
    pub fn is_strict(&self) -> bool
        requires { IsContext self.now }
        ensures { result ≡ is_strict (around self.now) }
    {
        self.scope_flags().is_strict_mode()
    }

    /// Whether the scope is a function's or an arrow's.
    #[tactic(auto, using(crate::proofs::Outward::here))]
    pub fn is_in_function(&self) -> bool
        requires { IsContext self.now }
        ensures { result ≡ is_in_function (around self.now) }
    {
        self.scope_flags().is_function()
    }

    /// Whether the node stands in the root's scope.
    #[tactic(auto, using(crate::proofs::Outward::here))]
    pub fn is_at_top(&self) -> bool
        requires { IsContext self.now }
        ensures { result ≡ is_at_top (around self.now) }
    {
        self.scope_flags().is_top()
    }

    /// Whether the scope itself is a static block's.
    #[tactic(auto, using(crate::proofs::Outward::here))]
    pub fn is_static_block(&self) -> bool
        requires { IsContext self.now }
        ensures { result ≡ scope_passes (λ seen. seen.is_static_block) (around self.now) }
    {
        self.scope_flags().is_class_static_block()
    }

    /// The node that opens the scope where the node stands.
    pub fn scope_node(&self) -> NodeId
        requires { IsContext self.now }
        ensures { result ≡ (scope_of self.now.scoping.now self.now.current_scope_id).node }
    {
        self.scoping.get_node_id(self.current_scope_id)
    }

    /// The scope around a scope.
    pub fn outer_scope(&self, scope: ScopeId) -> Option<ScopeId>
        requires { scope < length self.now.scoping.now.scopes }
        ensures value { result ≡ parent_of self.now.scoping.now.scopes scope }
        ensures within { IfSome result (λ outer. outer < length self.now.scoping.now.scopes) }
    {
        self.scoping.attest();
        self.scoping.scope_parent_id(scope)
    }

    /// Whether a scope is a static block's.
    fn is_block_scope(&self, scope: ScopeId) -> bool
        requires { scope < length self.now.scoping.now.scopes }
        ensures { result ≡ (seen_row self.now.scoping.now scope).is_static_block }
    {
        self.scoping.scope_flags(scope).is_class_static_block()
    }

    /// Whether a scope is a static block's or a function's.
    fn is_block_or_function_scope(&self, scope: ScopeId) -> bool
        requires { scope < length self.now.scoping.now.scopes }
        ensures { result ≡ is_block_or_function (seen_row self.now.scoping.now scope) }
    {
        let flags = self.scoping.scope_flags(scope);
        flags.is_class_static_block() || flags.is_function()
    }

    /// Whether the nearest scope outward that is a static block's or a function's is a static block's (ECMAScript
    /// 15.7.1, Contains, which doesn't look for `await` in functions).
    pub fn is_in_static_block(&self) -> bool
        requires { IsContext self.now }
        ensures { result ≡ is_in_static_block (around self.now) }
    {
        self.scoping.attest();
        let mut scope = self.current_scope_id;
        while !self.is_block_or_function_scope(scope) {
            match self.outer_scope(scope) {
                Some(outer) => scope = outer,
                None => return false,
            }
        }
        self.is_block_scope(scope)
    }

    /// Whether a class is current.
    #[tactic(auto, using(crate::proofs::CurrentClass::current))]
    pub fn has_class(&self) -> bool
        ensures { result ≡ is_some (first (around self.now).classes) }
    {
        self.classes.current_class_id.is_some()
    }

    /// The bytes of the source under a span.
    pub fn bytes_at(&self, span: Span) -> &'a [u8]
        requires { is_sound self.now.source_text.now span ≡ true }
        ensures { result.now ≡ bytes_at (around self.now) span }
    {
        &self.source_text.as_bytes()[span.start as usize..span.end as usize]
    }

    /// The declarations of the symbol of a binding identifier, if it is declared more than once.
    #[tactic(auto, using(crate::proofs::Declared::entries))]
    pub fn entries_of(&self, ident: AstKind<'_>) -> &'n [Redeclaration]
        ensures { result.now ≡ symbol_entries (around self.now) ident.entry.node.now }
    {
        match self.tables.symbol_of(ident.node_id()) {
            Some(symbol) if symbol.index() < self.scoping.symbols_len() => {
                self.scoping.symbol_redeclarations(symbol)
            }
            _ => &[],
        }
    }

    /// How many of these declarations stand before the first async function or generator; all where there is none.
    #[tactic(auto, using(crate::proofs::Declared::entries))]
    pub fn plain_entries_of(&self, ident: AstKind<'_>) -> usize
        ensures { result ≡ position_or_len is_async_or_generator
            (symbol_entries (around self.now) ident.entry.node.now) }
    {
        match self.tables.symbol_of(ident.node_id()) {
            Some(symbol) if symbol.index() < self.scoping.symbols_len() => {
                self.scoping.plain_redeclarations(symbol)
            }
            _ => 0,
        }
    }
}
