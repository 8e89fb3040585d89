//! Which nodes have names of the program as their texts, by where they stand.
ghost use Rattle.std.specs.Prelude.{◌≡◌};
ghost use Rattle.semantic_tree.specs.Renamed.{is_program_name, names_member, setting_below, setting_inside};

use semantic_tree::swap::Setting;
use semantic_tree::{AstType, Role};

/// Whether a node in the setting is the name of an enum member, or the piece of a template that is its name.
fn names_member(setting: Setting, role: Role, kind: AstType) -> bool
    ensures { result ≡ names_member setting role kind }
{
    match setting {
        Setting::InMember => {
            role == Role::Id && (kind == AstType::IdentifierName || kind == AstType::StringLiteral)
        }
        Setting::InMemberName => role == Role::Quasis && kind == AstType::TemplateElement,
        Setting::Elsewhere => false,
    }
}

/// Whether the text of a node in the setting is a name of the program.
pub fn is_named(setting: Setting, role: Role, kind: AstType) -> bool
    ensures { result ≡ is_program_name setting role kind }
{
    kind == AstType::BindingIdentifier
        || kind == AstType::IdentifierReference
        || names_member(setting, role, kind)
}

/// The setting below a node in the setting that is no enum member.
fn setting_inside(setting: Setting, role: Role, kind: AstType) -> Setting
    ensures { result ≡ setting_inside setting role kind }
{
    match setting {
        Setting::InMember if role == Role::Id && kind == AstType::TemplateLiteral => {
            Setting::InMemberName
        }
        _ => Setting::Elsewhere,
    }
}

/// The setting of the children of a node in the setting.
pub fn setting_below(setting: Setting, role: Role, kind: AstType) -> Setting
    ensures { result ≡ setting_below setting role kind }
{
    if kind == AstType::TSEnumMember {
        Setting::InMember
    } else {
        setting_inside(setting, role, kind)
    }
}
