//! Early errors of object literals.
ghost use Rattle.std.specs.Prelude.{◌≡◌, option_map, filter_map};
ghost use Rattle.std.specs.Iterator.{YieldsFirstBy};
ghost use Rattle.semantic_kinds.specs.declared.role.Role.TheVariants as roles;
ghost use Rattle.semantic_tree.specs.ChildIter.{shown};
ghost use Rattle.semantic_tree.specs.Views.{all_in};
ghost use Rattle.semantic_tree.specs.declared.node.Node.{Node};
ghost use Rattle.check_model.specs.Expressions as rows;
ghost use Rattle.check_context.specs.Handed.{sight, IsContext};
ghost use Rattle.check_context.specs.Tells.{Tells};
ghost use Rattle.expression_checks.specs.ProtoKeys.{keys_left};

use check_context::{CheckContext, tell};
use node_rules::questions::reads;
use semantic_diagnostics::Diagnostics;
use semantic_diagnostics::makers::redeclaration;
use semantic_kinds::class::is_word;
use semantic_tree::{AstKind, AstType, ChildIter, Mark, Role};
use std::alloc::{AllocError, Global};

/// Whether the property is written out: a key, a colon and a value (ECMAScript 13.2.5.1).
fn is_written_out(property: AstKind<'_>) -> bool
    ensures { result ≡ rows.is_written_out property.entry.node.now }
{
    property.ty() == AstType::ObjectProperty
        && reads(property, "init")
        && !(property.has_mark(Mark::Method)
            || property.has_mark(Mark::Shorthand)
            || property.has_mark(Mark::Computed))
}

/// Whether the key is named `__proto__`.
fn is_proto(key: AstKind<'_>) -> bool
    ensures { result ≡ rows.is_proto key.entry.node.now }
{
    match key.static_name() {
        Some(name) => is_word(name.as_str(), "__proto__"),
        None => false,
    }
}

/// The key of a property that sets the prototype.
fn proto_key(property: AstKind<'_>) -> Option<AstKind<'_>>
    ensures { option_map shown result ≡ rows.proto_key property.entry.node.now }
{
    if !is_written_out(property) {
        return None;
    }
    match property.child(Role::Key) {
        Some(key) if is_proto(key) => Some(key),
        _ => None,
    }
}

/// The keys of an object that set the prototype, as far as they are left.
#[derive(Drop)]
struct ProtoKeys<'a> {
    properties: ChildIter<'a>,
}

impl<'a> ProtoKeys<'a> {
    /// The keys of the object that set its prototype, of which none is taken yet.
    fn new(object: AstKind<'a>) -> ProtoKeys<'a>
        ensures { keys_left result
            ≡ filter_map rows.proto_key (all_in roles.Properties object.entry.node.now) }
    {
        ProtoKeys {
            properties: object.children(Role::Properties),
        }
    }

    /// The next key that sets the prototype.
    fn next(&mut self) -> Option<AstKind<'a>>
        ensures { YieldsFirstBy shown keys_left self.old result self.new }
    {
        while let Some(property) = self.properties.next() {
            if let Some(key) = proto_key(property) {
                return Some(key);
            }
        }
        None
    }
}

/// Tells of two keys that set the prototype.
#[tactic(auto, using(check_context::proofs::Telling::made, semantic_diagnostics::proofs::AsciiTexts::ascii_texts))]
fn tell_proto(
    alloc: Global,
    earlier: AstKind<'_>,
    key: AstKind<'_>,
    out: &mut Diagnostics,
) -> Result<(), AllocError>
    ensures { let pair : Node × Node = (earlier.entry.node.now, key.entry.node.now) in
        Tells result (rows.proto_rows pair) out.old out.new }
{
    tell(
        redeclaration(alloc, "__proto__", earlier.span(), key.span()),
        out,
    )
}

/// An object sets its prototype once (ECMAScript 13.2.5.1). Each further key that sets it is told with the one before.
#[tactic(auto, using(check_context::proofs::Telling::loop_telling))]
pub fn check_object_expression<'a>(
    alloc: Global,
    kind: AstKind<'a>,
    ctx: &CheckContext<'a, '_>,
    out: &mut Diagnostics,
) -> Result<(), AllocError>
    requires { IsContext ctx.now }
    ensures { Tells result (rows.check_object_expression (sight kind.entry.node.now ctx.now))
        out.old out.new }
{
    let _ctx = ctx;
    let mut keys = ProtoKeys::new(kind);
    let Some(first) = keys.next() else {
        return Ok(());
    };
    let mut earlier = first;
    while let Some(key) = keys.next() {
        tell_proto(alloc, earlier, key, out)?;
        earlier = key;
    }
    Ok(())
}
