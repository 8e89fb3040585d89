//! The greatest ids.
use semantic_syntax::{ClassId, ElementId, NodeId, ReferenceId, ScopeId, SymbolId};

/// The greatest number of an id: one more is no id, so that there is room for none.
const GREATEST: u32 = 4_294_967_294;

#[test]
fn the_greatest_ids_keep_their_numbers(rt: HostRuntime) {
    for index in [
        NodeId::new(GREATEST).index(),
        ScopeId::new(GREATEST).index(),
        SymbolId::new(GREATEST).index(),
        ReferenceId::new(GREATEST).index(),
        ClassId::new(GREATEST).index(),
        ElementId::new(GREATEST).index(),
    ] {
        assert_eq!(rt; index, GREATEST as usize);
    }
    assert!(rt; NodeId::ROOT < NodeId::new(GREATEST));
    assert!(rt; SymbolId::new(GREATEST - 1) < SymbolId::new(GREATEST));
    assert!(rt; ScopeId::new(GREATEST) == ScopeId::new(GREATEST));
}
