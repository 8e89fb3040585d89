//! Trees with two names swapped.

ghost use Rattle.std.specs.Prelude.{◌≡◌, IfOk};
ghost use Rattle.std.specs.Str.{chars};
ghost use Rattle.semantic_tree.specs.Renamed.{swap, names_member, is_program_name, setting_inside, setting_below, renamed_text, renamed_node};

use crate::node::Node;
use semantic_kinds::{AstType, Role};
use std::alloc::{AllocError, Global};

/// Where a node stands, as far as the names of enum members go.
#[derive(Clone, Copy, PartialEq, Eq, Debug)]
pub enum Setting {
    /// Under an enum member.
    InMember,
    /// Under the template that is the name of an enum member.
    InMemberName,
    /// Elsewhere.
    Elsewhere,
}

impl Setting {
    /// Whether a node here is the name of an enum member, or the piece of a template that is its name.
    fn names_member(self, role: Role, kind: AstType) -> bool
        ensures { result ≡ names_member self role kind }
    {
        match self {
            Setting::InMember => {
                role == Role::Id
                    && (kind == AstType::IdentifierName || kind == AstType::StringLiteral)
            }
            Setting::InMemberName => role == Role::Quasis && kind == AstType::TemplateElement,
            Setting::Elsewhere => false,
        }
    }

    /// Whether the text of a node here is a name of the program.
    fn is_named(self, role: Role, kind: AstType) -> bool
        ensures { result ≡ is_program_name self role kind }
    {
        kind == AstType::BindingIdentifier
            || kind == AstType::IdentifierReference
            || self.names_member(role, kind)
    }

    /// The setting below a node here that is no enum member.
    fn inside(self, role: Role, kind: AstType) -> Setting
        ensures { result ≡ setting_inside self role kind }
    {
        match self {
            Setting::InMember if role == Role::Id && kind == AstType::TemplateLiteral => {
                Setting::InMemberName
            }
            _ => Setting::Elsewhere,
        }
    }

    /// The setting of the children of a node here.
    fn below(self, role: Role, kind: AstType) -> Setting
        ensures { result ≡ setting_below self role kind }
    {
        if kind == AstType::TSEnumMember {
            Setting::InMember
        } else {
            self.inside(role, kind)
        }
    }
}

/// The second name for the first, the first for the second, and any other for itself.
#[tactic(auto, using(semantic_syntax::proofs::SameTexts::texts))]
fn swapped<'a>(name: &'a str, a: &'a str, b: &'a str) -> &'a str
    ensures { chars result.now ≡ swap (chars a.now) (chars b.now) (chars name.now) }
{
    if name == a {
        b
    } else if name == b {
        a
    } else {
        name
    }
}

impl Node {
    /// The text of the node in a role and a setting, with the two names swapped.
    fn swapped_text<'a>(&'a self, setting: Setting, role: Role, a: &'a str, b: &'a str) -> &'a str
        ensures { chars result.now
            ≡ renamed_text (swap (chars a.now) (chars b.now)) setting role self.now.kind
            self.now.text }
    {
        if setting.is_named(role, self.kind) {
            swapped(self.text.as_str(), a, b)
        } else {
            self.text.as_str()
        }
    }

    /// A copy of the node in a role and a setting, and of all below it, with the two names swapped.
    pub fn swapped(
        &self,
        alloc: Global,
        setting: Setting,
        role: Role,
        a: &str,
        b: &str,
    ) -> Result<Node, AllocError>
        ensures { IfOk result (λ made. made
            ≡ renamed_node (swap (chars a.now) (chars b.now)) setting role self.now) }
    {
        let text = self.swapped_text(setting, role, a, b);
        let mut made = Node::new(alloc, self.kind, self.span, text, self.marks)?;
        made.node_id = self.node_id;
        let below = setting.below(role, self.kind);
        for (place, child) in self.children.as_slice() {
            let copy = child.swapped(alloc, below, *place, a, b)?;
            match made.push(*place, copy) {
                Ok(()) => {}
                Err(_) => return Err(AllocError),
            }
        }
        Ok(made)
    }
}
