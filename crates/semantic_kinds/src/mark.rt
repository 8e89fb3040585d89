//! The marks of nodes.

ghost use Rattle.std.specs.Prelude.{◌≡◌, map, find};
ghost use Rattle.std.specs.Str.{bytes_eq};
ghost use Rattle.semantic_kinds.specs.Marks.{mark_name, mark_named, mark_bit, all_marks};

use crate::lookup::marks_of_length;

/// A mark of a node. `TypeOnly` is named `type`.
#[derive(Clone, Copy, PartialEq, Eq, Debug)]
pub enum Mark {
    Async,
    Generator,
    Declare,
    Pure,
    Static,
    Computed,
    Abstract,
    Optional,
    Definite,
    Readonly,
    Override,
    Public,
    Private,
    Protected,
    Method,
    Shorthand,
    Prefix,
    Delegate,
    Await,
    TypeOnly,
    Const,
    In,
    Out,
    Asserts,
    Postfix,
    Binary,
    Octal,
    Decimal,
    Hex,
    Float,
}

/// The names of the marks, in their order.
static NAMES: [&str; 30] = [
    "async",
    "generator",
    "declare",
    "pure",
    "static",
    "computed",
    "abstract",
    "optional",
    "definite",
    "readonly",
    "override",
    "public",
    "private",
    "protected",
    "method",
    "shorthand",
    "prefix",
    "delegate",
    "await",
    "type",
    "const",
    "in",
    "out",
    "asserts",
    "postfix",
    "binary",
    "octal",
    "decimal",
    "hex",
    "float",
];

/// The names of the marks, in their order.
fn names() -> &'static [&'static str; 30]
    ensures { map (λ name. name.now) result.now ≡ map mark_name all_marks }
{
    &NAMES
}

impl Mark {
    pub const ALL: [Mark; 30] = [
        Mark::Async,
        Mark::Generator,
        Mark::Declare,
        Mark::Pure,
        Mark::Static,
        Mark::Computed,
        Mark::Abstract,
        Mark::Optional,
        Mark::Definite,
        Mark::Readonly,
        Mark::Override,
        Mark::Public,
        Mark::Private,
        Mark::Protected,
        Mark::Method,
        Mark::Shorthand,
        Mark::Prefix,
        Mark::Delegate,
        Mark::Await,
        Mark::TypeOnly,
        Mark::Const,
        Mark::In,
        Mark::Out,
        Mark::Asserts,
        Mark::Postfix,
        Mark::Binary,
        Mark::Octal,
        Mark::Decimal,
        Mark::Hex,
        Mark::Float,
    ];

    /// All marks, in their order.
    pub fn all() -> &'static [Mark]
        ensures { result.now ≡ all_marks }
    {
        &Mark::ALL
    }

    /// The name of the mark.
    pub fn name(self) -> &'static str
        ensures { result.now ≡ mark_name self }
    {
        names()[self as usize]
    }

    /// The mark of a name, if there is one.
    pub fn from_name(text: &str) -> Option<Mark>
        ensures { result ≡ mark_named text.now }
    {
        named_among(marks_of_length(text.len()), text)
    }

    /// The bit of the mark in a set of marks.
    pub fn bit(self) -> u32
        ensures { result ≡ mark_bit self }
    {
        match self {
            Mark::Async => 0x1,
            Mark::Generator => 0x2,
            Mark::Declare => 0x4,
            Mark::Pure => 0x8,
            Mark::Static => 0x10,
            Mark::Computed => 0x20,
            Mark::Abstract => 0x40,
            Mark::Optional => 0x80,
            Mark::Definite => 0x100,
            Mark::Readonly => 0x200,
            Mark::Override => 0x400,
            Mark::Public => 0x800,
            Mark::Private => 0x1000,
            Mark::Protected => 0x2000,
            Mark::Method => 0x4000,
            Mark::Shorthand => 0x8000,
            Mark::Prefix => 0x10000,
            Mark::Delegate => 0x20000,
            Mark::Await => 0x40000,
            Mark::TypeOnly => 0x80000,
            Mark::Const => 0x100000,
            Mark::In => 0x200000,
            Mark::Out => 0x400000,
            Mark::Asserts => 0x800000,
            Mark::Postfix => 0x1000000,
            Mark::Binary => 0x2000000,
            Mark::Octal => 0x4000000,
            Mark::Decimal => 0x8000000,
            Mark::Hex => 0x10000000,
            Mark::Float => 0x20000000,
        }
    }
}

/// The first of these marks that has the name.
fn named_among(marks: &[Mark], text: &str) -> Option<Mark>
    ensures { result ≡ find (λ one. bytes_eq (mark_name one) text.now) marks.now }
{
    for one in marks {
        if one.name() == text {
            return Some(*one);
        }
    }
    None
}
