//! References, and the declarations of a symbol after its first.
ghost use Rattle.std.specs.Prelude.{◌≡◌, Some, None, not, ◌==◌};
ghost use Rattle.std.specs.Int.RustNames.{bit_and};
ghost use Rattle.std.specs.Borrow.{sem};
ghost use Rattle.semantic_syntax.specs.ReferenceParts.{LendsFlags};

use crate::ids::{NodeId, ScopeId, SymbolId};
use crate::reference_flags::ReferenceFlags;
use crate::spans::Span;
use crate::symbol_flags::SymbolFlags;

/// A use of a name: the identifier reference, the scope where it stands, how it is used, and the symbol that
/// it means, if any.
#[derive(Clone, Copy, PartialEq, Eq, Debug)]
pub struct Reference {
    pub node_id: NodeId,
    pub scope_id: ScopeId,
    pub flags: ReferenceFlags,
    pub symbol_id: Option<SymbolId>,
}

impl Reference {
    /// A reference without a symbol.
    pub fn new(node_id: NodeId, scope_id: ScopeId, flags: ReferenceFlags) -> Reference
        ensures { result ≡ record {
          node_id = node_id;
          scope_id = scope_id;
          flags = flags;
          symbol_id = None;
        } }
    {
        Reference {
            node_id,
            scope_id,
            flags,
            symbol_id: None,
        }
    }

    /// The identifier reference.
    pub fn node_id(&self) -> NodeId
        ensures { result ≡ self.now.node_id }
    {
        self.node_id
    }

    /// The scope where it stands.
    pub fn scope_id(&self) -> ScopeId
        ensures { result ≡ self.now.scope_id }
    {
        self.scope_id
    }

    /// How it is used.
    pub fn flags(&self) -> ReferenceFlags
        ensures { result ≡ self.now.flags }
    {
        self.flags
    }

    /// How it is used, to be changed.
    pub fn flags_mut(&mut self) -> &mut ReferenceFlags
        ensures* writes_back { sem 𝓛 (LendsFlags self.entry result) }
        ensures value { result.now ≡ self.old.flags }
    {
        &mut self.flags
    }

    /// The symbol that it means, if any.
    pub fn symbol_id(&self) -> Option<SymbolId>
        ensures { result ≡ self.now.symbol_id }
    {
        self.symbol_id
    }

    /// Ties it to a symbol.
    pub fn set_symbol_id(&mut self, symbol: SymbolId)
        ensures { self.new ≡ record self.old { symbol_id = Some symbol } }
    {
        self.symbol_id = Some(symbol);
    }

    /// Whether it reads.
    pub fn is_read(&self) -> bool
        ensures { result ≡ not (bit_and self.now.flags.bits ReferenceFlags.Read.bits == 0) }
    {
        self.flags.is_read()
    }

    /// Whether it writes.
    pub fn is_write(&self) -> bool
        ensures { result ≡ not (bit_and self.now.flags.bits ReferenceFlags.Write.bits == 0) }
    {
        self.flags.is_write()
    }

    /// Whether it is a use as a type.
    pub fn is_type(&self) -> bool
        ensures { result ≡ not (bit_and self.now.flags.bits ReferenceFlags.TypeFlag.bits == 0) }
    {
        self.flags.is_type()
    }
}

/// One of several declarations of a symbol.
#[derive(Clone, Copy, PartialEq, Eq, Debug)]
pub struct Redeclaration {
    pub span: Span,
    /// The node that declares.
    pub declaration: NodeId,
    pub flags: SymbolFlags,
}
