//! What a source is parsed as.
ghost use Rattle.std.specs.Prelude.{◌≡◌};
ghost use Rattle.semantic_syntax.specs.SourceTypes.{is_script, is_commonjs, is_module, is_typescript, is_typescript_definition};

/// What a program is parsed as.
#[derive(Clone, Copy, PartialEq, Eq, Debug)]
pub enum Goal {
    Script,
    Module,
    CommonJs,
}

/// The language of a program.
#[derive(Clone, Copy, PartialEq, Eq, Debug)]
pub enum Lang {
    Js,
    Jsx,
    Ts,
    Tsx,
    Dts,
}

/// Goal and language of a program.
#[derive(Clone, Copy, PartialEq, Eq, Debug)]
pub struct SourceType {
    pub goal: Goal,
    pub lang: Lang,
}

impl SourceType {
    /// Whether it is a script.
    pub fn is_script(self) -> bool
        ensures { result ≡ is_script self }
    {
        matches!(self.goal, Goal::Script)
    }

    /// Whether it is a module.
    pub fn is_module(self) -> bool
        ensures { result ≡ is_module self }
    {
        matches!(self.goal, Goal::Module)
    }

    /// Whether it is a CommonJS module.
    pub fn is_commonjs(self) -> bool
        ensures { result ≡ is_commonjs self }
    {
        matches!(self.goal, Goal::CommonJs)
    }

    /// Whether its code is strict from the start, as a module's is (ECMAScript 11.2.2).
    pub fn is_strict(self) -> bool
        ensures { result ≡ is_module self }
    {
        self.is_module()
    }

    /// Whether it is TypeScript, a definition file included.
    pub fn is_typescript(self) -> bool
        ensures { result ≡ is_typescript self }
    {
        matches!(self.lang, Lang::Ts | Lang::Tsx | Lang::Dts)
    }

    /// Whether it is a definition file of TypeScript.
    pub fn is_typescript_definition(self) -> bool
        ensures { result ≡ is_typescript_definition self }
    {
        matches!(self.lang, Lang::Dts)
    }
}
