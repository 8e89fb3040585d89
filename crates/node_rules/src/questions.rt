//! Questions to one node.

ghost use Rattle.std.specs.Prelude.{◌≡◌, true};
ghost use Rattle.std.specs.Str.{bytes_eq};
ghost use Rattle.semantic_kinds.specs.Ascii.{is_ascii};
ghost use Rattle.semantic_tree.specs.declared.node.Node.{Node};
ghost use Rattle.semantic_model.specs.Namespace.{is_list};

use semantic_kinds::class::is_word;
use semantic_tree::{AstKind, AstType};

/// Whether the node has the text, which is one of the words of the grammar.
pub fn reads(kind: AstKind<'_>, word: &str) -> bool
    requires { is_ascii word.now ≡ true }
    ensures { result ≡ bytes_eq kind.entry.node.now.text word.now }
{
    is_word(kind.text().as_str(), word)
}

/// Whether a node of the kind is a list of statements.
pub fn is_statement_list(kind: AstType) -> bool
    ensures { (node : Node) → node.kind ≡ kind → result ≡ is_list node }
{
    matches!(
        kind,
        AstType::TSModuleBlock | AstType::BlockStatement | AstType::Program
    )
}
