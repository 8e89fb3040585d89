//! The lines on scopes, symbols and references.
ghost use Rattle.std.specs.Prelude.{ℕ, ◌≡◌, ◌++◌, OnOk};
ghost use Rattle.report_lines.specs.Pieces.{numbers_text, scope_flags_text, symbol_flags_text, reference_flags};
ghost use Rattle.report_lines.specs.TableLines.{scope_line, bind_text, symbol_text, declaration_text, redeclaration_line, uses_line, pure_line, reference_text, use_text, free_text};

use crate::flags::push_flags;
use crate::line::Line;
use semantic_syntax::{
    NodeId, Redeclaration, Reference, ReferenceFlags, ReferenceId, ScopeFlags, ScopeId, Span,
    SymbolFlags, SymbolId,
};
use std::alloc::AllocError;

fn push_scope_flags(line: &mut Line, flags: ScopeFlags) -> Result<(), AllocError>
    ensures { OnOk result (line.new ≡ line.old ++ scope_flags_text flags) }
{
    push_flags(line, flags)
}

fn push_symbol_flags(line: &mut Line, flags: SymbolFlags) -> Result<(), AllocError>
    ensures { OnOk result (line.new ≡ line.old ++ symbol_flags_text flags) }
{
    push_flags(line, flags)
}

fn push_reference_flags(line: &mut Line, flags: ReferenceFlags) -> Result<(), AllocError>
    ensures { OnOk result (line.new ≡ line.old ++ reference_flags flags) }
{
    push_flags(line, flags)
}

/// Makes the line of a scope.
#[tactic(auto, unfolding(crate::specs::TableLines::scope_line))]
pub fn make_scope_line(
    line: &mut Line,
    scope: ScopeId,
    parent: Option<ScopeId>,
    node: NodeId,
    flags: ScopeFlags,
) -> Result<(), AllocError>
    ensures { OnOk result (line.new
        ≡ scope_line scope (record { parent = parent; node = node; flags = flags })) }
{
    line.begin();
    line.push_labelled("scope ", scope.index())?;
    line.push_number_or_dash(" parent ", parent.map(ScopeId::index))?;
    line.push_labelled(" node ", node.index())?;
    line.push(" flags ")?;
    push_scope_flags(line, flags)?;
    line.push("\n")
}

/// Makes the line of a binding.
#[tactic(auto, unfolding(crate::specs::TableLines::bind_text))]
pub fn make_bind_line(
    line: &mut Line,
    scope: ScopeId,
    name: &str,
    symbol: SymbolId,
) -> Result<(), AllocError>
    ensures { OnOk result (line.new ≡ bind_text scope name.now symbol) }
{
    line.begin();
    line.push_labelled("bind ", scope.index())?;
    line.push_quoted(" ", name)?;
    line.push_labelled(" ", symbol.index())?;
    line.push("\n")
}

// Adds what the lines on declarations end with.
#[tactic(auto, unfolding(crate::specs::TableLines::declaration_text))]
fn push_declaration(
    line: &mut Line,
    node: NodeId,
    span: Span,
    flags: SymbolFlags,
) -> Result<(), AllocError>
    ensures { OnOk result (line.new ≡ line.old ++ declaration_text node span flags) }
{
    line.push_labelled(" node ", node.index())?;
    line.push_span(" span ", span)?;
    line.push(" flags ")?;
    push_symbol_flags(line, flags)?;
    line.push("\n")
}

/// Makes the line of a symbol.
#[tactic(auto, unfolding(crate::specs::TableLines::symbol_text))]
pub fn make_symbol_line(
    line: &mut Line,
    symbol: SymbolId,
    name: &str,
    scope: ScopeId,
    node: NodeId,
    span: Span,
    flags: SymbolFlags,
) -> Result<(), AllocError>
    ensures { OnOk result (line.new ≡ symbol_text symbol name.now scope node span flags) }
{
    line.begin();
    line.push_labelled("symbol ", symbol.index())?;
    line.push_quoted(" ", name)?;
    line.push_labelled(" scope ", scope.index())?;
    push_declaration(line, node, span, flags)
}

/// Makes the line of one declaration of a symbol that was declared again.
#[tactic(auto, unfolding(crate::specs::TableLines::redeclaration_line))]
pub fn make_redeclaration_line(
    line: &mut Line,
    symbol: SymbolId,
    entry: &Redeclaration,
) -> Result<(), AllocError>
    ensures { OnOk result (line.new ≡ redeclaration_line symbol entry.now) }
{
    line.begin();
    line.push_labelled("redecl ", symbol.index())?;
    push_declaration(line, entry.declaration, entry.span, entry.flags)
}

// Adds a space and a number for each reference.
fn push_references(line: &mut Line, references: &[ReferenceId]) -> Result<(), AllocError>
    ensures { OnOk result (line.new ≡ line.old ++ numbers_text references.now) }
{
    for reference in references {
        line.push_behind_space(reference.index())?;
    }
    Ok(())
}

/// Makes the line of the references that are tied to a symbol.
#[tactic(auto, unfolding(crate::specs::TableLines::uses_line))]
pub fn make_uses_line(
    line: &mut Line,
    symbol: SymbolId,
    references: &[ReferenceId],
) -> Result<(), AllocError>
    ensures { OnOk result (line.new ≡ uses_line symbol references.now) }
{
    line.begin();
    line.push_labelled("uses ", symbol.index())?;
    push_references(line, references)?;
    line.push("\n")
}

/// Makes the line of a symbol without side effects.
#[tactic(auto, unfolding(crate::specs::TableLines::pure_line))]
pub fn make_pure_line(line: &mut Line, symbol: SymbolId) -> Result<(), AllocError>
    ensures { OnOk result (line.new ≡ pure_line symbol) }
{
    line.begin();
    line.push_labelled("pure ", symbol.index())?;
    line.push("\n")
}

// Adds what the line of a reference ends with.
#[tactic(auto, unfolding(crate::specs::TableLines::use_text))]
fn push_use(line: &mut Line, reference: &Reference) -> Result<(), AllocError>
    ensures { OnOk result (line.new ≡ line.old ++ use_text reference.now) }
{
    line.push_labelled(" node ", reference.node_id.index())?;
    line.push_labelled(" scope ", reference.scope_id.index())?;
    line.push(" flags ")?;
    push_reference_flags(line, reference.flags)?;
    line.push_number_or_dash(" symbol ", reference.symbol_id.map(SymbolId::index))?;
    line.push("\n")
}

/// Makes the line of a reference.
#[tactic(auto, unfolding(crate::specs::TableLines::reference_text))]
pub fn make_reference_line(
    line: &mut Line,
    number: usize,
    name: &str,
    reference: &Reference,
) -> Result<(), AllocError>
    ensures { OnOk result (line.new ≡ reference_text number name.now reference.now) }
{
    line.begin();
    line.push_labelled("ref ", number)?;
    line.push_quoted(" ", name)?;
    push_use(line, reference)
}

/// Makes the line of the free references of a name.
#[tactic(auto, unfolding(crate::specs::TableLines::free_text))]
pub fn make_free_line(
    line: &mut Line,
    name: &str,
    references: &[ReferenceId],
) -> Result<(), AllocError>
    ensures { OnOk result (line.new ≡ free_text name.now references.now) }
{
    line.begin();
    line.push_quoted("free ", name)?;
    push_references(line, references)?;
    line.push("\n")
}
