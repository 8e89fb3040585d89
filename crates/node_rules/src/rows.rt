//! The binder rows: what each node's names are, and what an earlier symbol of the name may not be, by the early
//! errors of ECMAScript on LexicallyDeclaredNames and VarDeclaredNames, and by the `Excludes` of TypeScript's
//! `SymbolFlags`.

ghost use Rattle.std.specs.Prelude.{◌≡◌, ◌&&◌, ◌||◌, [], ◌∷◌, None, codes, cond};
ghost use Rattle.semantic_kinds.specs.declared.kind.AstType.TheVariants.{VariableDeclaration as variable_declaration, FormalParameters as formal_parameters, IfStatement as if_statement};
ghost use Rattle.semantic_kinds.specs.declared.mark.Mark.TheVariants.{TypeOnly as type_only};
ghost use Rattle.semantic_syntax.specs.declared.symbol_flags.TheConstants.SymbolFlags as symbol;
ghost use Rattle.semantic_syntax.specs.Sets.{union};
ghost use Rattle.semantic_tree.specs.BoundNames.{is_simple_parameter_list};
ghost use Rattle.semantic_tree.specs.Views.{is, has, is_with_text};
ghost use Rattle.semantic_model.specs.Place.{Place, no_scope, parent_holds};
ghost use Rattle.semantic_model.specs.Binder as binder;
ghost use Rattle.node_rules.specs.Seen.{IsBinderRow, seen, seen_under, parent_path};

use crate::questions::reads;
use semantic_syntax::{ScopeFlags, SourceType, SymbolFlags};
use semantic_tree::{AstKind, AstType, Mark, Role};

/// What a binder row gives to each of its names.
#[derive(Clone, Copy, PartialEq, Eq, Debug)]
pub struct Row {
    /// The flags that the symbol gets.
    pub flags: SymbolFlags,
    /// What an earlier symbol of the name may not be.
    pub excluded: SymbolFlags,
}

/// The flags where `is` says, else none.
fn when(is: bool, flags: SymbolFlags) -> SymbolFlags
    ensures { result.bits ≡ cond is flags.bits 0 }
{
    if is { flags } else { SymbolFlags::empty() }
}

/// `Ambient`, where the node is marked `declare`.
fn marked_ambient(node: AstKind<'_>) -> SymbolFlags
    ensures { result.bits ≡ binder.marked_ambient node.entry.node.now }
{
    when(node.has_mark(Mark::Declare), SymbolFlags::Ambient)
}

/// The flags, with `Ambient` where the node is marked `declare`.
pub fn ambient(node: AstKind<'_>, flags: SymbolFlags) -> SymbolFlags
    ensures { result.bits ≡ union flags.bits (binder.marked_ambient node.entry.node.now) }
{
    flags.union(marked_ambient(node))
}

/// Whether the declaration is of `var` variables.
pub fn is_var_declaration(declaration: AstKind<'_>) -> bool
    ensures { result ≡ is_with_text variable_declaration (codes "var") declaration.entry.node.now }
{
    declaration.ty() == AstType::VariableDeclaration && reads(declaration, "var")
}

/// Variables of a `var` declaration, which conflict with lexical ones (ECMAScript 14.2.1, 14.3.2, VarDeclaredNames;
/// TypeScript's `FunctionScopedVariableExcludes`).
pub fn var_row(declaration: AstKind<'_>) -> Row
    ensures { IsBinderRow result (union symbol.FunctionScopedVariable.bits
        (binder.marked_ambient declaration.entry.node.now))
        symbol.FunctionScopedVariableExcludes.bits }
{
    Row {
        flags: ambient(declaration, SymbolFlags::FunctionScopedVariable),
        excluded: SymbolFlags::FunctionScopedVariableExcludes,
    }
}

/// What the variables of a lexical declaration are: all but those of `let` are constant.
fn lexical_flags(declaration: AstKind<'_>) -> SymbolFlags
    ensures { result.bits ≡ binder.lexical_flags declaration.entry.node.now }
{
    if declaration.ty() == AstType::VariableDeclaration && reads(declaration, "let") {
        SymbolFlags::BlockScopedVariable
    } else {
        SymbolFlags::BlockScopedVariable.union(SymbolFlags::ConstVariable)
    }
}

/// Variables of a lexical declaration, which conflict with all that has a value (ECMAScript 14.2.1, 14.3.1.1, 16.1.1,
/// LexicallyDeclaredNames; TypeScript 2451, `BlockScopedVariableExcludes`).
pub fn lexical_row(declaration: AstKind<'_>) -> Row
    ensures { IsBinderRow result (union (binder.lexical_flags declaration.entry.node.now)
        (binder.marked_ambient declaration.entry.node.now))
        symbol.BlockScopedVariableExcludes.bits }
{
    Row {
        flags: ambient(declaration, lexical_flags(declaration)),
        excluded: SymbolFlags::BlockScopedVariableExcludes,
    }
}

/// A function or an arrow that is marked as having no side effects.
fn is_pure_function(kind: AstKind<'_>) -> bool
    ensures { result ≡ binder.is_pure_function kind.entry.node.now }
{
    matches!(
        kind.ty(),
        AstType::Function | AstType::ArrowFunctionExpression
    ) && kind.has_mark(Mark::Pure)
}

/// Whether a declarator sets a plain name to a function without side effects.
pub fn is_pure_declarator(declarator: AstKind<'_>) -> bool
    ensures { result ≡ binder.is_pure_declarator declarator.entry.node.now }
{
    match (declarator.child(Role::Id), declarator.child(Role::Init)) {
        (Some(id), Some(init)) => id.ty() == AstType::BindingIdentifier && is_pure_function(init),
        (_, _) => false,
    }
}

/// Whether a function or class is a statement.
pub fn is_statement(kind: AstKind<'_>) -> bool
    ensures { result ≡ binder.is_statement kind.entry.node.now }
{
    reads(kind, "declaration") || reads(kind, "ts-declare")
}

/// An `async` function or a generator.
pub fn is_special(function: AstKind<'_>) -> bool
    ensures { result ≡ binder.is_special function.entry.node.now }
{
    function.has_mark(Mark::Async) || function.has_mark(Mark::Generator)
}

/// The flags of a function. One that is `async` or a generator may not repeat (ECMAScript, Annex B.3.2), and the own
/// name of an expression is known inside it alone (15.2.5).
fn function_flags(function: AstKind<'_>) -> SymbolFlags
    ensures { result.bits ≡ binder.function_flags function.entry.node.now }
{
    let expression = when(!is_statement(function), SymbolFlags::FunctionExpression);
    let special = when(is_special(function), SymbolFlags::AsyncOrGeneratorFunction);
    ambient(function, SymbolFlags::Function).union(expression.union(special))
}

/// Whether the function stands directly under an `if` (ECMAScript, Annex B.3.3).
fn is_under_if(parent: Option<AstKind<'_>>) -> bool
    ensures { result ≡ parent_holds (is if_statement) (parent_path parent.entry) }
{
    match parent {
        Some(parent) => parent.ty() == AstType::IfStatement,
        None => false,
    }
}

/// What a function conflicts with: in TypeScript by `FunctionExcludes` (TypeScript 2300). In JavaScript it may be
/// declared beside a `var` (ECMAScript 8.2.10, TopLevelVarDeclaredNames), and directly under a sloppy `if` beside
/// anything (Annex B.3.3).
fn function_excluded(
    function: AstKind<'_>,
    parent: Option<AstKind<'_>>,
    source_type: SourceType,
    flags: ScopeFlags,
) -> SymbolFlags
    ensures { result.bits ≡ binder.function_excluded
        (seen source_type function.entry parent.entry flags) }
{
    if source_type.is_typescript() {
        SymbolFlags::FunctionExcludes
    } else if is_statement(function) && !flags.is_strict_mode() && is_under_if(parent) {
        SymbolFlags::empty()
    } else {
        SymbolFlags::FunctionExcludes.difference(SymbolFlags::FunctionScopedVariable)
    }
}

/// A function under its parent, in a scope with the flags.
pub fn function_row(
    function: AstKind<'_>,
    parent: Option<AstKind<'_>>,
    source_type: SourceType,
    flags: ScopeFlags,
) -> Row
    ensures { IsBinderRow result (binder.function_flags function.entry.node.now)
        (binder.function_excluded (seen source_type function.entry parent.entry flags)) }
{
    Row {
        flags: function_flags(function),
        excluded: function_excluded(function, parent, source_type, flags),
    }
}

/// Whether a function is a plain one in a block of sloppy JavaScript, whose scope has the flags (ECMAScript, Annex
/// B.3.2).
fn is_block_function(function: AstKind<'_>, source_type: SourceType, flags: ScopeFlags) -> bool
    ensures { result ≡ binder.is_block_function (seen source_type function.entry None flags) }
{
    !is_special(function)
        && !source_type.is_typescript()
        && !flags.is_strict_mode()
        && !(flags.is_var() || flags.is_catch_clause())
}

/// Whether a function may move: a plain one that is a statement of a block of sloppy JavaScript (ECMAScript, Annex
/// B.3.2).
pub fn may_move(function: AstKind<'_>, source_type: SourceType, flags: ScopeFlags) -> bool
    ensures { result ≡ (binder.is_statement function.entry.node.now
        && binder.is_block_function (seen source_type function.entry None flags)) }
{
    is_statement(function) && is_block_function(function, source_type, flags)
}

/// A class, which is declared as lexical variables are (ECMAScript 14.2.1, 15.7.14; TypeScript 2300,
/// `ClassExcludes`).
pub fn class_row(class: AstKind<'_>) -> Row
    ensures { IsBinderRow result
        (union symbol.Class.bits (binder.marked_ambient class.entry.node.now))
        symbol.ClassExcludes.bits }
{
    Row {
        flags: ambient(class, SymbolFlags::Class),
        excluded: SymbolFlags::ClassExcludes,
    }
}

/// Whether the list is an arrow's or a method's, whose names differ (ECMAScript 15.1.1, UniqueFormalParameters).
fn is_unique_list(list: AstKind<'_>) -> bool
    ensures { result ≡ (is_with_text formal_parameters (codes "arrow") list.entry.node.now
        || is_with_text formal_parameters (codes "unique") list.entry.node.now) }
{
    list.ty() == AstType::FormalParameters && (reads(list, "arrow") || reads(list, "unique"))
}

/// What a parameter of the list, which is simple or not, conflicts with. Two may not have one name in an arrow's or a
/// method's list, in strict code, and in a list that isn't simple (ECMAScript 15.1.1).
fn parameter_excluded(list: AstKind<'_>, is_simple: bool, flags: ScopeFlags) -> SymbolFlags
    ensures { is_simple ≡ is_simple_parameter_list list.entry.node.now
        → result.bits ≡ binder.parameter_excluded list.entry.node.now
        (record no_scope { flags = flags.bits } ∷ []) }
{
    if is_unique_list(list) || flags.is_strict_mode() || !is_simple {
        SymbolFlags::FunctionScopedVariableExcludes.union(SymbolFlags::FunctionScopedVariable)
    } else {
        SymbolFlags::FunctionScopedVariableExcludes
    }
}

/// A parameter of the list, which is simple or not, in a scope with the flags (ECMAScript 15.1.1, 15.2.1).
pub fn parameter_row(list: AstKind<'_>, is_simple: bool, flags: ScopeFlags) -> Row
    ensures { is_simple ≡ is_simple_parameter_list list.entry.node.now
        → IsBinderRow result symbol.FunctionScopedVariable.bits
        (binder.parameter_excluded list.entry.node.now
        (record no_scope { flags = flags.bits } ∷ [])) }
{
    Row {
        flags: SymbolFlags::FunctionScopedVariable,
        excluded: parameter_excluded(list, is_simple, flags),
    }
}

/// A rest element directly in a list of parameters, which isn't simple then, so that no name repeats (ECMAScript
/// 15.1.1).
pub fn rest_row() -> Row
    ensures { IsBinderRow result symbol.FunctionScopedVariable.bits
        (union symbol.FunctionScopedVariableExcludes.bits symbol.FunctionScopedVariable.bits) }
{
    Row {
        flags: SymbolFlags::FunctionScopedVariable,
        excluded: SymbolFlags::FunctionScopedVariableExcludes.union(
            SymbolFlags::FunctionScopedVariable,
        ),
    }
}

/// A plain catch name, which conflicts with nothing before it: its scope has no other (ECMAScript 14.15.2,
/// CatchClauseEvaluation).
pub fn caught_row() -> Row
    ensures { IsBinderRow result
        (union symbol.FunctionScopedVariable.bits symbol.CatchVariable.bits) 0 }
{
    Row {
        flags: SymbolFlags::FunctionScopedVariable.union(SymbolFlags::CatchVariable),
        excluded: SymbolFlags::empty(),
    }
}

/// A name of a catch pattern, which no other of the pattern has (ECMAScript 14.15.1).
pub fn catch_pattern_row() -> Row
    ensures { IsBinderRow result (union symbol.BlockScopedVariable.bits symbol.CatchVariable.bits)
        symbol.BlockScopedVariableExcludes.bits }
{
    Row {
        flags: SymbolFlags::BlockScopedVariable.union(SymbolFlags::CatchVariable),
        excluded: SymbolFlags::BlockScopedVariableExcludes,
    }
}

/// Whether the declaration of a specifier is marked as one of types.
fn imports_types(declaration: Option<AstKind<'_>>) -> bool
    ensures { result ≡ parent_holds (has type_only) (parent_path declaration.entry) }
{
    match declaration {
        Some(declaration) => declaration.has_mark(Mark::TypeOnly),
        None => false,
    }
}

/// What an imported name is: a type alone where the specifier or its declaration is marked so, by TypeScript's
/// `import type`.
fn import_flags(specifier: AstKind<'_>, declaration: Option<AstKind<'_>>) -> SymbolFlags
    ensures { result.bits ≡ binder.import_flags (seen_under specifier.entry declaration.entry) }
{
    if specifier.has_mark(Mark::TypeOnly) || imports_types(declaration) {
        SymbolFlags::TypeImport
    } else {
        SymbolFlags::Import
    }
}

/// An imported name, which is declared once (ECMAScript 16.2.2.1, 16.2.1.1; TypeScript 2300 and 2440,
/// `AliasExcludes`).
pub fn import_row(specifier: AstKind<'_>, declaration: Option<AstKind<'_>>) -> Row
    ensures { IsBinderRow result
        (binder.import_flags (seen_under specifier.entry declaration.entry))
        symbol.ImportBindingExcludes.bits }
{
    Row {
        flags: import_flags(specifier, declaration),
        excluded: SymbolFlags::ImportBindingExcludes,
    }
}

/// TypeScript's `import a = b` (`AliasExcludes`).
pub fn import_equals_row() -> Row
    ensures { IsBinderRow result symbol.Import.bits symbol.ImportBindingExcludes.bits }
{
    Row {
        flags: SymbolFlags::Import,
        excluded: SymbolFlags::ImportBindingExcludes,
    }
}

/// A type alias (TypeScript 2300, `TypeAliasExcludes`).
pub fn type_alias_row(alias: AstKind<'_>) -> Row
    ensures { IsBinderRow result (union symbol.TypeAlias.bits
        (binder.marked_ambient alias.entry.node.now)) symbol.TypeAliasExcludes.bits }
{
    Row {
        flags: ambient(alias, SymbolFlags::TypeAlias),
        excluded: SymbolFlags::TypeAliasExcludes,
    }
}

/// An interface (TypeScript 2300, `InterfaceExcludes`).
pub fn interface_row(interface: AstKind<'_>) -> Row
    ensures { IsBinderRow result (union symbol.Interface.bits
        (binder.marked_ambient interface.entry.node.now)) symbol.InterfaceExcludes.bits }
{
    Row {
        flags: ambient(interface, SymbolFlags::Interface),
        excluded: SymbolFlags::InterfaceExcludes,
    }
}

/// An enum (TypeScript 2567, `RegularEnumExcludes` and `ConstEnumExcludes`).
pub fn enum_row(declaration: AstKind<'_>) -> Row
    ensures { (p : Place) → p.node ≡ declaration.entry.node.now
        → binder.enums p ≡ binder.declare_here p result.flags.bits result.excluded.bits
        (binder.ids p.node) }
{
    if declaration.has_mark(Mark::Const) {
        Row {
            flags: ambient(declaration, SymbolFlags::ConstEnum),
            excluded: SymbolFlags::ConstEnumExcludes,
        }
    } else {
        Row {
            flags: ambient(declaration, SymbolFlags::RegularEnum),
            excluded: SymbolFlags::RegularEnumExcludes,
        }
    }
}

/// A member of an enum (TypeScript 2300, `EnumMemberExcludes`).
pub fn member_row() -> Row
    ensures { IsBinderRow result symbol.EnumMember.bits symbol.EnumMemberExcludes.bits }
{
    Row {
        flags: SymbolFlags::EnumMember,
        excluded: SymbolFlags::EnumMemberExcludes,
    }
}

/// A type parameter (TypeScript 2300, `TypeParameterExcludes`).
pub fn type_parameter_row() -> Row
    ensures { IsBinderRow result symbol.TypeParameter.bits symbol.TypeParameterExcludes.bits }
{
    Row {
        flags: SymbolFlags::TypeParameter,
        excluded: SymbolFlags::TypeParameterExcludes,
    }
}
