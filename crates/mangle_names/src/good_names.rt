//! Which names symbols may get, as far as a name itself tells.
ghost use Rattle.std.specs.Prelude.{◌≡◌, map, true};
ghost use Rattle.std.specs.List.{list_all};
ghost use Rattle.std.specs.Str.{chars};
ghost use Rattle.semantic_kinds.specs.Ascii.{is_ascii};
ghost use Rattle.mangle_model.specs.GoodNames.{is_ascii_identifier, is_part, is_reserved, is_start, reserved_words};

/// Whether an identifier may begin with the character.
fn is_start(byte: u8) -> bool
    ensures { result ≡ is_start byte }
{
    (byte >= b'a' && byte <= b'z') || (byte >= b'A' && byte <= b'Z') || byte == b'$' || byte == b'_'
}

/// Whether it may go on with the character.
fn is_part(byte: u8) -> bool
    ensures { result ≡ is_part byte }
{
    is_start(byte) || (byte >= b'0' && byte <= b'9')
}

fn are_parts(bytes: &[u8]) -> bool
    ensures { result ≡ list_all is_part bytes.now }
{
    bytes.iter().all(|byte| is_part(*byte))
}

/// Whether the bytes are an identifier of letters, digits, `$` and `_` of ASCII.
fn is_identifier(bytes: &[u8]) -> bool
    ensures { result ≡ is_ascii_identifier bytes.now }
{
    match bytes.split_first() {
        Some((first, rest)) => is_start(*first) && are_parts(rest),
        None => false,
    }
}

/// Whether the name is such an identifier.
pub fn is_ascii_identifier(name: &str) -> bool
    ensures { result ≡ is_ascii_identifier (chars name.now) }
{
    is_identifier(name.as_bytes())
}

/// The words that are reserved in some mode or have a meaning of their own somewhere, and the parameters of CommonJS.
fn reserved_words() -> &'static [&'static str]
    ensures words { map (λ word. word.now) result.now ≡ reserved_words }
    ensures ascii { list_all is_ascii (map (λ word. word.now) result.now) ≡ true }
{
    &[
        "await",
        "break",
        "case",
        "catch",
        "class",
        "const",
        "continue",
        "debugger",
        "default",
        "delete",
        "do",
        "else",
        "enum",
        "export",
        "extends",
        "false",
        "finally",
        "for",
        "function",
        "if",
        "import",
        "in",
        "instanceof",
        "new",
        "null",
        "return",
        "super",
        "switch",
        "this",
        "throw",
        "true",
        "try",
        "typeof",
        "var",
        "void",
        "while",
        "with",
        "yield",
        "let",
        "static",
        "implements",
        "interface",
        "package",
        "private",
        "protected",
        "public",
        "async",
        "of",
        "arguments",
        "eval",
        "as",
        "get",
        "set",
        "is",
        "any",
        "never",
        "unknown",
        "string",
        "number",
        "bigint",
        "boolean",
        "symbol",
        "object",
        "undefined",
        "NaN",
        "Infinity",
        "from",
        "target",
        "meta",
        "type",
        "keyof",
        "infer",
        "asserts",
        "unique",
        "readonly",
        "declare",
        "module",
        "global",
        "using",
        "out",
        "defer",
        "exports",
        "require",
        "__filename",
        "__dirname",
        "abstract",
        "namespace",
        "satisfies",
        "override",
        "accessor",
        "source",
    ]
}

/// Whether the name is one of them.
pub fn is_reserved(name: &str) -> bool
    ensures { result ≡ is_reserved (chars name.now) }
{
    reserved_words().contains(&name)
}
