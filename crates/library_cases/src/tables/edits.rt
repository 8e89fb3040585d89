//! Edits by hand.
use scoping::Scoping;
use semantic_syntax::{
    Ident, NodeId, Reference, ReferenceFlags, ReferenceId, ScopeFlags, ScopeId, Span, SymbolFlags,
    SymbolId,
};
use std::alloc::AllocError;

/// An edit. Where none is named it is one of scope 0, of scope 1 inside it, of symbol 0 or of reference 0.
pub enum Edit {
    Reserve,
    /// A scope inside the scope, if any.
    Scope(Option<u8>),
    /// A symbol of the name.
    Symbol(&'static str),
    /// A symbol of the name that the scope binds, with its start.
    BoundSymbol(&'static str, u8, u8),
    /// A reference in the scope.
    Refer(u8),
    /// The symbol is used by the reference.
    Use(u8, u8),
    Bind(&'static str),
    Name(&'static str),
    NameAll(&'static str),
    RenameSymbol(&'static str),
    RenameBinding(&'static str, &'static str),
    MoveInward(&'static str),
    MoveSymbolInward,
    MoveSymbolOutward,
    TakeOverOutward,
    Redeclare(u8),
    RemoveDeclaration(u8),
    ClearRedeclarations,
    Mark,
    Free(&'static str),
    Unlist(&'static str),
    Unbind(&'static str),
    DeleteReference,
    RetainAll,
    RetainNone,
    Uproot,
}

/// An edit, and the tables that it leaves as a line of text.
pub type Step = (Edit, &'static str);

fn span_at(start: u8) -> Span {
    let start = u32::from(start);
    Span::new(start, start + 1)
}

/// Makes room, or makes a scope or a reference.
fn make(scoping: &mut Scoping, edit: &Edit) -> Result<bool, AllocError> {
    if scoping.scopes_len() > 9 || scoping.references_len() > 9 {
        return Ok(false);
    }
    match edit {
        Edit::Reserve => scoping.reserve(1, 1, 2)?,
        Edit::Scope(None) => {
            scoping.add_scope(None, NodeId::ROOT, ScopeFlags::Top)?;
        }
        Edit::Scope(Some(parent)) if usize::from(*parent) < scoping.scopes_len() => {
            let parent = ScopeId::new(u32::from(*parent));
            scoping.add_scope(Some(parent), NodeId::new(1), ScopeFlags::Function)?;
        }
        Edit::Refer(scope) => {
            scoping.create_reference(Reference::new(
                NodeId::new(3),
                ScopeId::new(u32::from(*scope)),
                ReferenceFlags::write(),
            ))?;
        }
        _ => return Ok(false),
    }
    Ok(true)
}

/// Makes a symbol.
fn make_symbol(scoping: &mut Scoping, edit: &Edit) -> Result<bool, AllocError> {
    if scoping.symbols_len() > 9 {
        return Ok(false);
    }
    let flags = SymbolFlags::BlockScopedVariable;
    let node = NodeId::new(2);
    match edit {
        Edit::Symbol(name) => {
            let scope = ScopeId::new(0);
            scoping.create_symbol(span_at(4), Ident::new(name), flags, scope, node)?;
        }
        Edit::BoundSymbol(name, scope, start) if usize::from(*scope) < scoping.scopes_len() => {
            let name = Ident::new(name);
            let scope = ScopeId::new(u32::from(*scope));
            scoping.create_symbol_with_binding(span_at(*start), name, flags, scope, scope, node)?;
        }
        _ => return Ok(false),
    }
    Ok(true)
}

/// Lists a reference as a use or as a free one.
fn list(scoping: &mut Scoping, edit: &Edit) -> Result<bool, AllocError> {
    match edit {
        Edit::Use(symbol, reference)
            if usize::from(*symbol) < scoping.symbols_len()
                && usize::from(*reference) < scoping.references_len() => {
            let symbol = SymbolId::new(u32::from(*symbol));
            let reference = ReferenceId::new(u32::from(*reference));
            scoping.add_resolved_reference(symbol, reference)?;
        }
        Edit::Free(name) if scoping.references_len() > 0 => {
            scoping.add_root_unresolved_reference(Ident::new(name), ReferenceId::new(0))?;
        }
        _ => return Ok(false),
    }
    Ok(true)
}

/// Binds symbol 0, declares it again or marks it.
fn declare(scoping: &mut Scoping, edit: &Edit) -> Result<bool, AllocError> {
    if scoping.scopes_len() == 0 || scoping.symbols_len() == 0 {
        return Ok(false);
    }
    let symbol = SymbolId::new(0);
    match edit {
        Edit::Bind(name) => scoping.add_binding(ScopeId::new(0), Ident::new(name), symbol)?,
        Edit::Redeclare(start) => {
            let flags = SymbolFlags::FunctionScopedVariable;
            scoping.add_symbol_redeclaration(symbol, flags, NodeId::new(4), span_at(*start))?
        }
        Edit::Mark => scoping.mark_no_side_effects(symbol)?,
        _ => return Ok(false),
    }
    Ok(true)
}

/// Gives symbol 0 another name.
fn rename(scoping: &mut Scoping, edit: &Edit) -> Result<bool, AllocError> {
    if scoping.scopes_len() == 0 || scoping.symbols_len() == 0 {
        return Ok(false);
    }
    let outer = ScopeId::new(0);
    let symbol = SymbolId::new(0);
    match edit {
        Edit::Name(name) => scoping.set_symbol_name(symbol, Ident::new(name))?,
        Edit::NameAll(name) => scoping.set_symbol_names(&[symbol], Ident::new(name))?,
        Edit::RenameSymbol(name) => scoping.rename_symbol(symbol, outer, Ident::new(name))?,
        Edit::RenameBinding(old, new) => {
            let old = Ident::new(old);
            match scoping.get_binding(outer, old) {
                Some(found) if found == symbol => {
                    scoping.rename_binding(outer, symbol, old, Ident::new(new))?
                }
                _ => return Ok(false),
            }
        }
        _ => return Ok(false),
    }
    Ok(true)
}

/// Moves bindings between scopes 0 and 1.
fn move_bindings(scoping: &mut Scoping, edit: &Edit) -> Result<bool, AllocError> {
    if scoping.scopes_len() < 2 || scoping.symbols_len() == 0 {
        return Ok(false);
    }
    let outer = ScopeId::new(0);
    let inner = ScopeId::new(1);
    let symbol = SymbolId::new(0);
    match edit {
        Edit::MoveInward(name) => scoping.move_binding(outer, inner, Ident::new(name))?,
        Edit::MoveSymbolInward => scoping.move_binding_by_symbol_id(outer, inner, symbol)?,
        Edit::MoveSymbolOutward => scoping.move_binding_by_symbol_id(inner, outer, symbol)?,
        Edit::TakeOverOutward if scoping.get_bindings(outer).is_empty() => {
            scoping.take_over_bindings(inner, outer)?
        }
        _ => return Ok(false),
    }
    Ok(true)
}

/// Makes an edit that takes no memory.
fn delete(scoping: &mut Scoping, edit: &Edit) -> bool {
    if scoping.scopes_len() < 2 || scoping.symbols_len() == 0 || scoping.references_len() == 0 {
        return false;
    }
    let symbol = SymbolId::new(0);
    let reference = ReferenceId::new(0);
    match edit {
        Edit::RemoveDeclaration(start) => {
            scoping.remove_symbol_declaration(symbol, span_at(*start))
        }
        Edit::ClearRedeclarations => scoping.clear_symbol_redeclarations(symbol),
        Edit::Unlist(name) => {
            scoping.delete_root_unresolved_reference(Ident::new(name), reference)
        }
        Edit::Unbind(name) => scoping.remove_binding(ScopeId::new(0), Ident::new(name)),
        Edit::DeleteReference if !scoping.has_binding(reference) => {
            scoping.delete_reference(reference)
        }
        Edit::RetainAll => scoping.retain_resolved_references_excluding(&[]),
        Edit::RetainNone => scoping.retain_resolved_references_excluding(&[true]),
        Edit::Uproot => scoping.set_scope_parent_id(ScopeId::new(1), None),
        _ => return false,
    }
    true
}

/// Makes a scope, a symbol or a reference, or lists one.
fn add(scoping: &mut Scoping, edit: &Edit) -> Result<bool, AllocError> {
    let made = make(scoping, edit)?;
    let made_symbol = make_symbol(scoping, edit)?;
    let listed = list(scoping, edit)?;
    Ok(made || made_symbol || listed)
}

/// Makes the edit, and tells whether it could be made: what it speaks of must be there.
pub fn take(scoping: &mut Scoping, edit: &Edit) -> Result<bool, AllocError> {
    let added = add(scoping, edit)?;
    let declared = declare(scoping, edit)?;
    let renamed = rename(scoping, edit)?;
    let moved = move_bindings(scoping, edit)?;
    let deleted = delete(scoping, edit);
    Ok(added || declared || renamed || moved || deleted)
}
