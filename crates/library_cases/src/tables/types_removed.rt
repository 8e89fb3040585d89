//! What stays of the tables as what is of types alone goes.
use scoping::Scoping;
use semantic_syntax::{
    Ident, NodeId, Reference, ReferenceFlags, ScopeFlags, Span, SymbolFlags, SymbolId,
};
use std::alloc::{AllocError, Global};
use std::test::Fail;

/// Binds the name in the root to a symbol with the flags.
fn bind(scoping: &mut Scoping, name: &str, flags: SymbolFlags) -> Result<(), AllocError> {
    if scoping.scopes_len() == 0 || scoping.symbols_len() > 9 {
        return Ok(());
    }
    let root = scoping.root_scope_id();
    let span = Span::new(0, 1);
    scoping.create_symbol_with_binding(span, Ident::new(name), flags, root, root, NodeId::ROOT)?;
    Ok(())
}

/// Makes a reference with the flags, uses symbol 0 by it, and lists it as a free one of the name.
fn refer(scoping: &mut Scoping, name: &str, flags: ReferenceFlags) -> Result<(), AllocError> {
    if scoping.symbols_len() == 0 || scoping.references_len() > 9 {
        return Ok(());
    }
    let root = scoping.root_scope_id();
    let reference = scoping.create_reference(Reference::new(NodeId::ROOT, root, flags))?;
    if reference.index() < scoping.references_len() && scoping.symbols_len() > 0 {
        scoping.add_resolved_reference(SymbolId::new(0), reference)?;
    }
    if reference.index() < scoping.references_len() {
        scoping.add_root_unresolved_reference(Ident::new(name), reference)?;
    }
    Ok(())
}

/// Whether the root binds the name.
fn is_bound(scoping: &Scoping, name: &str) -> bool {
    scoping.scopes_len() > 0 && scoping.scope_has_binding(scoping.root_scope_id(), Ident::new(name))
}

/// Whether a symbol with the flags stays bound and its use in the way stays free, once what is of types alone goes from
/// tables that were empty.
fn remove_types(
    scoping: &mut Scoping,
    flags: SymbolFlags,
    way: ReferenceFlags,
) -> Result<(bool, bool), AllocError> {
    if scoping.scopes_len() > 0 {
        return Ok((false, false));
    }
    scoping.add_scope(None, NodeId::ROOT, ScopeFlags::Top)?;
    bind(scoping, "a", flags)?;
    refer(scoping, "a", way)?;
    scoping.delete_typescript_bindings();
    let is_free = scoping.root_unresolved_references().len() == 1;
    Ok((is_bound(scoping, "a"), is_free))
}

fn what_stays(
    alloc: Global,
    flags: SymbolFlags,
    way: ReferenceFlags,
) -> Result<(bool, bool), AllocError> {
    let mut scoping = Scoping::new(alloc);
    let stays = remove_types(&mut scoping, flags, way);
    drop(scoping);
    stays
}

#[test]
fn types_go_alone(rt: HostRuntime) -> Result<(), Fail> {
    let class = SymbolFlags::Class;
    let read = ReferenceFlags::Read;
    let as_type = ReferenceFlags::TypeFlag;
    let type_of = ReferenceFlags::ValueAsType;
    for (flags, way, wanted) in [
        (class, read, (true, true)),
        (class, as_type, (true, false)),
        (class, read.union(as_type), (true, true)),
        (class, read.union(type_of), (true, false)),
        (SymbolFlags::TypeAlias, read, (false, true)),
        (SymbolFlags::Interface, read, (false, true)),
        (SymbolFlags::TypeParameter, read, (false, true)),
        (SymbolFlags::EnumMember.union(class), read, (false, true)),
    ] {
        assert_eq!(rt; what_stays(rt.alloc(), flags, way)?, wanted);
    }
    Ok(())
}
