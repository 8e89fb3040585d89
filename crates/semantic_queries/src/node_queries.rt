//! Queries over the nodes that an analysis keeps.

ghost use Rattle.std.specs.Prelude.{◌≡◌, ◌<◌, [], Some, IfSome, length, slice_get};
ghost use Rattle.std.specs.Borrow.{sem};
ghost use Rattle.std.specs.Option.{option_map};
ghost use Rattle.std.specs.Str.{chars};
ghost use Rattle.semantic_kinds.specs.declared.kind.AstType.TheVariants.{IdentifierReference as identifier_reference};
ghost use Rattle.node_store.specs.NodeList.{node_at, no_nodes};
ghost use Rattle.node_store.specs.Seen.{seen};
ghost use Rattle.semantic_syntax.specs.Reading.{symbol_of};
ghost use Rattle.semantic_queries.specs.FreeReference.{is_free_at};
ghost use Rattle.semantic_queries.specs.Lending.{LendsScoping};

use crate::semantic::Semantic;
use node_store::{AstNode, AstNodes};
use scoping::Scoping;
use semantic_syntax::{NodeId, Reference, Span, SymbolId};

impl<'a> Semantic<'a> {
    /// The nodes of the program, each under its preorder place; none where they weren't kept, or are cleared.
    pub fn nodes(&self) -> &AstNodes<'a>
        ensures { result.now ≡ self.now.nodes }
    {
        &self.nodes
    }

    /// The scopes, symbols, bindings and references, and the nodes.
    pub fn into_scoping_and_nodes(self) -> (Scoping, AstNodes<'a>)
        ensures scoping { result.0 ≡ self.entry.scoping }
        ensures nodes { result.1 ≡ self.entry.nodes }
    {
        (self.scoping, self.nodes)
    }

    /// The scopes, symbols, bindings and references, to be changed, and the nodes.
    pub fn scoping_mut_and_nodes(&mut self) -> (&mut Scoping, &AstNodes<'a>)
        ensures* writes_back { sem 𝓛 (LendsScoping self.entry result.0) }
        ensures scoping { result.0.now ≡ self.old.scoping }
        ensures nodes { result.1.now ≡ self.old.nodes }
    {
        (&mut self.scoping, &self.nodes)
    }

    /// Lets go of what is seen of the tree: nodes and comments are none then.
    pub fn clear_ast_references(&mut self)
        ensures nodes { self.new.nodes ≡ no_nodes }
        ensures comments { self.new.comments.now ≡ [] }
        ensures rest { record self.new { nodes = self.old.nodes; comments = self.old.comments }
            ≡ self.old }
    {
        self.nodes.clear();
        self.comments = &[];
    }

    /// The node that declares a symbol.
    pub fn symbol_declaration(&self, s: SymbolId) -> &AstNode<'a>
        requires symbol { s < length self.now.scoping.symbols }
        requires node { (symbol_of self.now.scoping s).node < length self.now.nodes.nodes }
        ensures { slice_get self.now.nodes.nodes (symbol_of self.now.scoping s).node
            ≡ Some (seen result.now) }
    {
        self.nodes.get_node(self.scoping.symbol_declaration(s))
    }

    /// Whether the node is an identifier reference whose reference has no symbol. One whose reference the tables
    /// don't hold is none.
    pub fn is_unresolved_reference(&self, n: NodeId) -> bool
        requires { n < length self.now.nodes.nodes }
        ensures { option_map (is_free_at self.now.scoping self.now.tables)
            (node_at self.now.nodes n) ≡ Some result }
    {
        self.is_reference_to_global_variable(self.nodes.kind(n))
    }

    /// The name that a reference reads or writes: the text of its node, an identifier reference.
    pub fn reference_name(&self, r: &Reference) -> &'a str
        requires node { r.now.node_id < length self.now.nodes.nodes }
        requires reference { IfSome (node_at self.now.nodes r.now.node_id)
            (λ node. node.kind ≡ identifier_reference) }
        ensures { option_map (λ node. node.text) (node_at self.now.nodes r.now.node_id)
            ≡ Some (chars result.now) }
    {
        self.nodes.kind(r.node_id()).text().as_str()
    }

    /// The bytes of the source that the node of a reference covers.
    pub fn reference_span(&self, r: &Reference) -> Span
        requires { r.now.node_id < length self.now.nodes.nodes }
        ensures { option_map (λ node. node.span) (node_at self.now.nodes r.now.node_id)
            ≡ Some result }
    {
        self.nodes.kind(r.node_id()).span()
    }
}
