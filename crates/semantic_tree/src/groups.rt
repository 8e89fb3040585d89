//! Groups of kinds.

ghost use Rattle.std.specs.Prelude.{◌≡◌};
ghost use Rattle.semantic_kinds.specs.Classes.{is_member};
ghost use Rattle.semantic_tree.specs.KindGroups.{is_loop, is_module_declaration, is_parentheses, is_wrapper};

use crate::view::AstKind;
use semantic_kinds::AstType;
use semantic_kinds::class::is_member;

/// Whether nodes of the kind are parentheses round an expression.
pub fn is_parentheses(kind: AstType) -> bool
    ensures { result ≡ is_parentheses kind }
{
    matches!(kind, AstType::ParenthesizedExpression)
}

/// Whether nodes of the kind are parentheses, or what TypeScript puts round an expression.
pub fn is_wrapper(kind: AstType) -> bool
    ensures { result ≡ is_wrapper kind }
{
    match kind {
        AstType::ParenthesizedExpression
        | AstType::TSAsExpression
        | AstType::TSSatisfiesExpression
        | AstType::TSTypeAssertion
        | AstType::TSNonNullExpression
        | AstType::TSInstantiationExpression => true,
        _ => false,
    }
}

impl<'a> AstKind<'a> {
    /// Whether this is one of the two whiles or of the three fors.
    pub fn is_iteration_statement(self) -> bool
        ensures { result ≡ is_loop self.entry.node.now.kind }
    {
        match self.ty() {
            AstType::DoWhileStatement
            | AstType::WhileStatement
            | AstType::ForStatement
            | AstType::ForInStatement
            | AstType::ForOfStatement => true,
            _ => false,
        }
    }

    /// Whether this is a computed, a static or a private member.
    pub fn is_member_expression_kind(self) -> bool
        ensures { result ≡ is_member self.entry.node.now.kind }
    {
        is_member(self.ty())
    }

    /// Whether this is an import or an export declaration, `export =` or `export as namespace`.
    pub fn is_module_declaration(self) -> bool
        ensures { result ≡ is_module_declaration self.entry.node.now.kind }
    {
        match self.ty() {
            AstType::ImportDeclaration
            | AstType::ExportDeclaration
            | AstType::ExportNamedDeclaration
            | AstType::ExportFromDeclaration
            | AstType::ExportDefaultDeclaration
            | AstType::ExportAllDeclaration
            | AstType::TSExportAssignment
            | AstType::TSNamespaceExportDeclaration => true,
            _ => false,
        }
    }
}
