//! The roles of children.

ghost use Rattle.std.specs.Prelude.{◌≡◌, map, find};
ghost use Rattle.std.specs.Str.{bytes_eq};
ghost use Rattle.semantic_kinds.specs.Roles.{role_name, role_named, all_roles};

use crate::lookup::roles_of_length;

/// What a child is in its parent. `Root` is the root's; `Annotation` is named `type`.
#[derive(Clone, Copy, PartialEq, Eq, Debug)]
pub enum Role {
    Root,
    Hashbang,
    Directives,
    Body,
    Expression,
    Test,
    Consequent,
    Param,
    Pattern,
    Annotation,
    Alternate,
    Init,
    Update,
    Left,
    Right,
    Label,
    Argument,
    Object,
    Discriminant,
    Cases,
    Block,
    Handler,
    Finalizer,
    Declarators,
    Id,
    TypeParameters,
    This,
    Params,
    ReturnType,
    Items,
    Rest,
    Decorators,
    Initializer,
    Properties,
    Key,
    Value,
    Elements,
    Heritage,
    TypeArguments,
    Implements,
    Specifiers,
    Source,
    Attributes,
    Imported,
    Local,
    Entries,
    Declaration,
    Exported,
    Quasis,
    Expressions,
    Tag,
    Quasi,
    Meta,
    Property,
    Callee,
    Arguments,
    Options,
    Field,
    Binding,
    Opening,
    Children,
    Closing,
    Name,
    Namespace,
    Element,
    Check,
    Extends,
    True,
    False,
    Qualifier,
    Index,
    Parameter,
    Types,
    Literal,
    Constraint,
    NameType,
    ValueType,
    Members,
    Default,
    Parameters,
    Reference,
}

/// The names of the roles, in their order.
static NAMES: [&str; 81] = [
    "root",
    "hashbang",
    "directives",
    "body",
    "expression",
    "test",
    "consequent",
    "param",
    "pattern",
    "type",
    "alternate",
    "init",
    "update",
    "left",
    "right",
    "label",
    "argument",
    "object",
    "discriminant",
    "cases",
    "block",
    "handler",
    "finalizer",
    "declarators",
    "id",
    "typeParameters",
    "this",
    "params",
    "returnType",
    "items",
    "rest",
    "decorators",
    "initializer",
    "properties",
    "key",
    "value",
    "elements",
    "heritage",
    "typeArguments",
    "implements",
    "specifiers",
    "source",
    "attributes",
    "imported",
    "local",
    "entries",
    "declaration",
    "exported",
    "quasis",
    "expressions",
    "tag",
    "quasi",
    "meta",
    "property",
    "callee",
    "arguments",
    "options",
    "field",
    "binding",
    "opening",
    "children",
    "closing",
    "name",
    "namespace",
    "element",
    "check",
    "extends",
    "true",
    "false",
    "qualifier",
    "index",
    "parameter",
    "types",
    "literal",
    "constraint",
    "nameType",
    "valueType",
    "members",
    "default",
    "parameters",
    "reference",
];

/// The names of the roles, in their order.
fn names() -> &'static [&'static str; 81]
    ensures { map (λ name. name.now) result.now ≡ map role_name all_roles }
{
    &NAMES
}

impl Role {
    pub const ALL: [Role; 81] = [
        Role::Root,
        Role::Hashbang,
        Role::Directives,
        Role::Body,
        Role::Expression,
        Role::Test,
        Role::Consequent,
        Role::Param,
        Role::Pattern,
        Role::Annotation,
        Role::Alternate,
        Role::Init,
        Role::Update,
        Role::Left,
        Role::Right,
        Role::Label,
        Role::Argument,
        Role::Object,
        Role::Discriminant,
        Role::Cases,
        Role::Block,
        Role::Handler,
        Role::Finalizer,
        Role::Declarators,
        Role::Id,
        Role::TypeParameters,
        Role::This,
        Role::Params,
        Role::ReturnType,
        Role::Items,
        Role::Rest,
        Role::Decorators,
        Role::Initializer,
        Role::Properties,
        Role::Key,
        Role::Value,
        Role::Elements,
        Role::Heritage,
        Role::TypeArguments,
        Role::Implements,
        Role::Specifiers,
        Role::Source,
        Role::Attributes,
        Role::Imported,
        Role::Local,
        Role::Entries,
        Role::Declaration,
        Role::Exported,
        Role::Quasis,
        Role::Expressions,
        Role::Tag,
        Role::Quasi,
        Role::Meta,
        Role::Property,
        Role::Callee,
        Role::Arguments,
        Role::Options,
        Role::Field,
        Role::Binding,
        Role::Opening,
        Role::Children,
        Role::Closing,
        Role::Name,
        Role::Namespace,
        Role::Element,
        Role::Check,
        Role::Extends,
        Role::True,
        Role::False,
        Role::Qualifier,
        Role::Index,
        Role::Parameter,
        Role::Types,
        Role::Literal,
        Role::Constraint,
        Role::NameType,
        Role::ValueType,
        Role::Members,
        Role::Default,
        Role::Parameters,
        Role::Reference,
    ];

    /// All roles, in their order.
    pub fn all() -> &'static [Role]
        ensures { result.now ≡ all_roles }
    {
        &Role::ALL
    }

    /// The name of the role.
    pub fn name(self) -> &'static str
        ensures { result.now ≡ role_name self }
    {
        names()[self as usize]
    }

    /// The role of a name, if there is one.
    pub fn from_name(text: &str) -> Option<Role>
        ensures { result ≡ role_named text.now }
    {
        named_among(roles_of_length(text.len()), text)
    }
}

/// The first of these roles that has the name.
fn named_among(roles: &[Role], text: &str) -> Option<Role>
    ensures { result ≡ find (λ one. bytes_eq (role_name one) text.now) roles.now }
{
    for one in roles {
        if one.name() == text {
            return Some(*one);
        }
    }
    None
}
