//! Trees that are cut off.
use super::texts::TREE;
use semantic_tree::TreeError;
use tree_json::read_program;

#[test]
fn a_text_without_its_end_is_not_json(rt: HostRuntime) {
    let bytes = TREE.as_bytes();
    for length in 0..bytes.len() {
        let read = read_program(rt.alloc(), &bytes[..length]);
        assert!(rt; matches!(read, Err(TreeError::NotJson)), "{length} bytes");
    }
}
