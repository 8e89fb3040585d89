//! Sets of kinds of nodes.
use node_store::AstTypesBitset;
use semantic_tree::AstType;

/// Two lists of kinds, whether their sets have a kind in common, and whether the first has all of the second.
const PAIRS: &[(&[AstType], &[AstType], bool, bool)] = &[
    (&[], &[], false, true),
    (&[AstType::Program], &[], false, true),
    (&[], &[AstType::Program], false, false),
    (
        &[AstType::Program, AstType::Class],
        &[AstType::Class],
        true,
        true,
    ),
    (
        &[AstType::Class],
        &[AstType::Program, AstType::Class],
        true,
        false,
    ),
    (&[AstType::Class], &[AstType::Function], false, false),
];

/// How many kinds are set.
fn size_of(set: &AstTypesBitset) -> usize {
    let mut size: usize = 0;
    for _kind in set {
        size = size.saturating_add(1);
    }
    size
}

#[test]
fn sets_of_kinds_are_compared(rt: HostRuntime) {
    for (first, second, meet, holds) in PAIRS {
        let set = AstTypesBitset::from_types(first);
        let other = AstTypesBitset::from_types(second);
        assert_eq!(rt; set.intersects(&other), *meet);
        assert_eq!(rt; set.contains(&other), *holds);
        assert_eq!(rt; size_of(&set), first.len());
    }
}

#[test]
fn each_kind_is_set_alone(rt: HostRuntime) {
    for kind in &AstType::ALL {
        let mut set = AstTypesBitset::new();
        set.set(*kind);
        assert!(rt; set.has(*kind));
        assert_eq!(rt; size_of(&set), 1);
    }
}
