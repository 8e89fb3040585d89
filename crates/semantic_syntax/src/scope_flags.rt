//! What a scope is.
ghost use Rattle.std.specs.Prelude.{⊤, ◌≡◌, ◌==◌, [], ◌∷◌, codes, not};
ghost use Rattle.std.specs.Int.RustNames.{bit_and, bit_or};
ghost use Rattle.bitflags.specs.Sets.{without};

use bitflags::{Flag, Flags};

/// Which kind of node opened a scope, and what is known of its code.
#[derive(Clone, Copy, PartialEq, Eq, Debug, Default)]
pub struct ScopeFlags {
    bits: u16,
}

impl ScopeFlags {
    /// Its code is strict (ECMAScript 11.2.2).
    pub const StrictMode: ScopeFlags = ScopeFlags { bits: 1 << 0 };

    /// The program's scope, which is scope 0.
    pub const Top: ScopeFlags = ScopeFlags { bits: 1 << 1 };

    /// A function opened it, or an arrow.
    pub const Function: ScopeFlags = ScopeFlags { bits: 1 << 2 };

    /// An arrow opened it, so `arguments` and `this` come from further out.
    pub const Arrow: ScopeFlags = ScopeFlags { bits: 1 << 3 };

    /// `static { .. }` in a class opened it.
    pub const ClassStaticBlock: ScopeFlags = ScopeFlags { bits: 1 << 4 };

    /// The block of a namespace, an external module or a global declaration.
    pub const TsModuleBlock: ScopeFlags = ScopeFlags { bits: 1 << 5 };

    /// The function of a class's constructor opened it.
    pub const Constructor: ScopeFlags = ScopeFlags { bits: 1 << 6 };

    /// The function of a getter opened it, in a class or an object.
    pub const GetAccessor: ScopeFlags = ScopeFlags { bits: 1 << 7 };

    /// The function of a setter opened it, in a class or an object.
    pub const SetAccessor: ScopeFlags = ScopeFlags { bits: 1 << 8 };

    /// A catch clause opened it; its body takes over what its parameter binds.
    pub const CatchClause: ScopeFlags = ScopeFlags { bits: 1 << 9 };

    /// `eval` is called directly in it or below.
    pub const DirectEval: ScopeFlags = ScopeFlags { bits: 1 << 10 };

    /// A conditional type's, where `infer` declares.
    pub const TsConditional: ScopeFlags = ScopeFlags { bits: 1 << 11 };

    /// The body of `with`, in which a name may be a property of the object.
    pub const With: ScopeFlags = ScopeFlags { bits: 1 << 12 };

    /// Where a `var` inside is declared.
    pub const Var: ScopeFlags = ScopeFlags {
        bits: Self::Top.bits
            | Self::Function.bits
            | Self::ClassStaticBlock.bits
            | Self::TsModuleBlock.bits,
    };

    const FLAGS: &'static [Flag<ScopeFlags>] = &[
        Flag {
            name: "StrictMode",
            value: ScopeFlags::StrictMode,
        },
        Flag {
            name: "Top",
            value: ScopeFlags::Top,
        },
        Flag {
            name: "Function",
            value: ScopeFlags::Function,
        },
        Flag {
            name: "Arrow",
            value: ScopeFlags::Arrow,
        },
        Flag {
            name: "ClassStaticBlock",
            value: ScopeFlags::ClassStaticBlock,
        },
        Flag {
            name: "TsModuleBlock",
            value: ScopeFlags::TsModuleBlock,
        },
        Flag {
            name: "Constructor",
            value: ScopeFlags::Constructor,
        },
        Flag {
            name: "GetAccessor",
            value: ScopeFlags::GetAccessor,
        },
        Flag {
            name: "SetAccessor",
            value: ScopeFlags::SetAccessor,
        },
        Flag {
            name: "CatchClause",
            value: ScopeFlags::CatchClause,
        },
        Flag {
            name: "DirectEval",
            value: ScopeFlags::DirectEval,
        },
        Flag {
            name: "TsConditional",
            value: ScopeFlags::TsConditional,
        },
        Flag {
            name: "With",
            value: ScopeFlags::With,
        },
    ];

    /// The empty set.
    pub fn empty() -> ScopeFlags
        ensures { result.bits ≡ 0 }
    {
        <ScopeFlags as Flags>::empty()
    }

    /// Whether all of `other` is in this set.
    pub fn contains(self, other: ScopeFlags) -> bool
        ensures { result ≡ (bit_and self.bits other.bits == other.bits) }
    {
        Flags::contains(&self, other)
    }

    /// Whether some of `other` is in this set.
    pub fn intersects(self, other: ScopeFlags) -> bool
        ensures { result ≡ not (bit_and self.bits other.bits == 0) }
    {
        Flags::intersects(&self, other)
    }

    /// The flags of either.
    pub fn union(self, other: ScopeFlags) -> ScopeFlags
        ensures { result.bits ≡ bit_or self.bits other.bits }
    {
        Flags::union(self, other)
    }

    /// The flags of this set without those of `other`.
    pub fn difference(self, other: ScopeFlags) -> ScopeFlags
        ensures { result.bits ≡ without 16 self.bits other.bits }
    {
        Flags::difference(self, other)
    }

    /// Whether no flag is set.
    pub fn is_empty(self) -> bool
        ensures { result ≡ (self.bits == 0) }
    {
        Flags::is_empty(&self)
    }

    /// Whether its code is strict.
    pub fn is_strict_mode(self) -> bool
        ensures { result ≡ not (bit_and self.bits ScopeFlags.StrictMode.bits == 0) }
    {
        self.intersects(ScopeFlags::StrictMode)
    }

    /// Whether it is the root.
    pub fn is_top(self) -> bool
        ensures { result ≡ not (bit_and self.bits ScopeFlags.Top.bits == 0) }
    {
        self.intersects(ScopeFlags::Top)
    }

    /// Whether it is a function's or an arrow's.
    pub fn is_function(self) -> bool
        ensures { result ≡ not (bit_and self.bits ScopeFlags.Function.bits == 0) }
    {
        self.intersects(ScopeFlags::Function)
    }

    /// Whether it is an arrow's.
    pub fn is_arrow(self) -> bool
        ensures { result ≡ not (bit_and self.bits ScopeFlags.Arrow.bits == 0) }
    {
        self.intersects(ScopeFlags::Arrow)
    }

    /// Whether it is a static block's.
    pub fn is_class_static_block(self) -> bool
        ensures { result ≡ not (bit_and self.bits ScopeFlags.ClassStaticBlock.bits == 0) }
    {
        self.intersects(ScopeFlags::ClassStaticBlock)
    }

    /// Whether it is a catch clause's.
    pub fn is_catch_clause(self) -> bool
        ensures { result ≡ not (bit_and self.bits ScopeFlags.CatchClause.bits == 0) }
    {
        self.intersects(ScopeFlags::CatchClause)
    }

    /// Whether it is a conditional type's.
    pub fn is_ts_conditional(self) -> bool
        ensures { result ≡ not (bit_and self.bits ScopeFlags.TsConditional.bits == 0) }
    {
        self.intersects(ScopeFlags::TsConditional)
    }

    /// Whether `eval` is called in it or below.
    pub fn contains_direct_eval(self) -> bool
        ensures { result ≡ not (bit_and self.bits ScopeFlags.DirectEval.bits == 0) }
    {
        self.intersects(ScopeFlags::DirectEval)
    }

    /// Whether a `var` inside stops there.
    pub fn is_var(self) -> bool
        ensures { result ≡ not (bit_and self.bits ScopeFlags.Var.bits == 0) }
    {
        self.intersects(ScopeFlags::Var)
    }
}

impl Flags for ScopeFlags {
    type Bits = u16;

    ghost exact = { ⊤ };

    ghost table = { (codes "StrictMode", 1) ∷ (codes "Top", 2) ∷ (codes "Function", 4) ∷ (codes "Arrow", 8) ∷ (codes "ClassStaticBlock", 16) ∷ (codes "TsModuleBlock", 32) ∷ (codes "Constructor", 64) ∷ (codes "GetAccessor", 128) ∷ (codes "SetAccessor", 256) ∷ (codes "CatchClause", 512) ∷ (codes "DirectEval", 1024) ∷ (codes "TsConditional", 2048) ∷ (codes "With", 4096) ∷ [] };

    ghost set_of = { λ f. f.bits };

    fn flags<'a>() -> &'a [Flag<ScopeFlags>] {
        ScopeFlags::FLAGS
    }

    fn bits(&self) -> u16 {
        self.bits
    }

    fn from_bits_retain(bits: u16) -> ScopeFlags {
        ScopeFlags { bits }
    }
}
