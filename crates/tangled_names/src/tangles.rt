//! The tangled names of a program, each with the reasons.
ghost use Rattle.std.specs.Prelude.{◌≡◌, [], false, cond, filter, map, IfOk, OnOk};
ghost use Rattle.std.specs.Str.{chars};
ghost use Rattle.semantic_model.specs.TablesOf.{tables_of};
ghost use Rattle.semantic_syntax.specs.Tables.{Name};
ghost use Rattle.tangle_model.specs.Tangled.{all_reasons, tangles_from, tangles};
ghost use Rattle.tangled_names.specs.Facts.{facts_tell};
ghost use Rattle.tangled_names.specs.Found.{with_tangle, tangle_seen};

use crate::facts::NameFacts;
use crate::key_set::KeySet;
use crate::pass::MentionPass;
use scoping::Scoping;
use semantic_kinds::class::is_word;
use semantic_syntax::{Ident, SourceType, SymbolId};
use semantic_tree::Program;
use std::alloc::{AllocError, Global};
use std::marker::Model;
use tangle_model::Reason;

/// A tangled name.
#[derive(Drop)]
pub struct TangledName {
    /// The first symbol that has the name.
    pub symbol: SymbolId,
    /// Why it is tangled.
    pub reasons: Vec<Reason>,
}

/// The tangled names of a program, each once, in order of their first symbols.
#[derive(Drop)]
pub struct TangledNames {
    names: Vec<TangledName>,
}

impl Model for TangledNames {
    ghost use Rattle.std.specs.Prelude.{List, map};
    ghost use Rattle.tangle_model.specs.Tangled.{Tangle};
    ghost use Rattle.tangled_names.specs.Found.{tangle_seen};

    ghost Value = { List Tangle };

    ghost view = { λ a. map tangle_seen a.names.items };
}

impl TangledNames {
    /// No names.
    fn new(alloc: Global) -> TangledNames
        ensures { result ≡ [] }
    {
        TangledNames {
            names: Vec::new(alloc),
        }
    }

    /// Adds the name of the symbol, if there are reasons.
    fn push(&mut self, symbol: SymbolId, reasons: Vec<Reason>) -> Result<(), AllocError>
        ensures { OnOk result (self.new ≡ with_tangle self.old symbol reasons.items) }
    {
        if !reasons.is_empty() {
            self.names.push(TangledName { symbol, reasons })?;
        }
        Ok(())
    }

    /// The names, in order.
    pub fn as_slice(&self) -> &[TangledName]
        ensures { map tangle_seen result.now ≡ self.now }
    {
        self.names.as_slice()
    }
}

/// Whether the reason holds of a name in a source of the type with these tables.
fn holds(
    facts: &NameFacts<'_>,
    source_type: SourceType,
    scoping: &Scoping,
    reason: Reason,
    name: &str,
) -> bool
    ensures { result ≡ facts_tell facts.now source_type scoping.now reason (chars name.entry.now) }
{
    let is_typed = source_type.is_typescript();
    match reason {
        Reason::BlockFunction => facts.places.block_functions.has_name(name),
        Reason::CatchVariable => facts.places.catch_variables.has_name(name),
        Reason::Arguments => is_word(name, "arguments"),
        Reason::With => facts.places.in_with.has_name(name),
        Reason::Eval => facts.scopes.seen_by_eval.has_name(name),
        Reason::FreeNamesake => {
            is_typed
                && scoping
                    .root_unresolved_references()
                    .get(Ident::new(name))
                    .is_some()
        }
        Reason::MergedMember => facts.scopes.merged.has_name(name),
        Reason::NamespaceNamesake => {
            is_typed
                && facts.namesakes.passed.has_name(name)
                && facts.namesakes.shared.has_name(name)
        }
        Reason::InferredName => is_typed && facts.typed.met.beside_infer.has_name(name),
        Reason::HiddenParameter => {
            is_typed
                && facts.typed.noted.in_type_parameters.has_name(name)
                && facts.typed.symbols.inner_variables.has_name(name)
        }
        Reason::IndexParameter => is_typed && facts.typed.met.in_own_index.has_name(name),
        Reason::SloppyFunction => {
            is_typed
                && facts.typed.noted.inner_functions.has_name(name)
                && facts.namesakes.shared.has_name(name)
        }
        Reason::ExportedType => {
            is_typed
                && facts.typed.noted.exported_types.has_name(name)
                && facts.namesakes.shared.has_name(name)
        }
        Reason::TypedVariable => {
            is_typed
                && facts.typed.noted.passing_variables.has_name(name)
                && facts.typed.symbols.typed_variables.has_name(name)
        }
        Reason::TypedFunctionName => {
            is_typed
                && facts.typed.symbols.own_names.has_name(name)
                && facts.typed.symbols.types.has_name(name)
        }
    }
}

/// All reasons.
fn all_reasons() -> &'static [Reason]
    ensures { result.now ≡ all_reasons }
{
    &[
        Reason::BlockFunction,
        Reason::CatchVariable,
        Reason::Arguments,
        Reason::With,
        Reason::Eval,
        Reason::FreeNamesake,
        Reason::MergedMember,
        Reason::NamespaceNamesake,
        Reason::InferredName,
        Reason::HiddenParameter,
        Reason::IndexParameter,
        Reason::SloppyFunction,
        Reason::ExportedType,
        Reason::TypedVariable,
        Reason::TypedFunctionName,
    ]
}

/// The reasons that hold of a name in a source of the type with these tables.
fn reasons_for(
    alloc: Global,
    facts: &NameFacts<'_>,
    source_type: SourceType,
    scoping: &Scoping,
    name: &str,
) -> Result<Vec<Reason>, AllocError>
    ensures { IfOk result (λ found. found.items
        ≡ filter (λ r. facts_tell facts.now source_type scoping.now r (chars name.entry.now))
        all_reasons) }
{
    let mut found = Vec::new(alloc);
    for reason in all_reasons() {
        if holds(facts, source_type, scoping, *reason, name) {
            found.push(*reason)?;
        }
    }
    Ok(found)
}

/// Those reasons where it is so, else none.
fn reasons_if(
    is: bool,
    alloc: Global,
    facts: &NameFacts<'_>,
    source_type: SourceType,
    scoping: &Scoping,
    name: &str,
) -> Result<Vec<Reason>, AllocError>
    ensures { IfOk result (λ found. found.items
        ≡ cond is
        (filter (λ r. facts_tell facts.now source_type scoping.now r (chars name.entry.now))
        all_reasons) []) }
{
    if is {
        reasons_for(alloc, facts, source_type, scoping, name)
    } else {
        Ok(Vec::new(alloc))
    }
}

/// The tangled names by what is known of names, in a source of the type with these tables.
fn tangles_by(
    alloc: Global,
    facts: &NameFacts<'_>,
    source_type: SourceType,
    scoping: &Scoping,
) -> Result<TangledNames, AllocError>
    ensures { IfOk result (λ found. found
        ≡ tangles_from (λ (name : Name).
        filter (λ r. facts_tell facts.now source_type scoping.now r name) all_reasons)
        (λ x. false) 0 scoping.now.symbols) }
{
    let mut found = TangledNames::new(alloc);
    let mut before = KeySet::new(alloc);
    let count = scoping.symbols_len() as u32;
    for number in 0..count {
        let symbol = SymbolId::new(number);
        let name = scoping.symbol_name(symbol);
        let is_new = !before.has_name(name);
        let reasons = reasons_if(is_new, alloc, facts, source_type, scoping, name)?;
        before.add_name_if(is_new, name)?;
        found.push(symbol, reasons)?;
    }
    Ok(found)
}

/// The tangled names of a program, by its tables: those whose ties in the tables may part from the language's. They are
/// told in order of their first symbols, each with all reasons. The only error is want of memory.
pub fn tangled_names(
    alloc: Global,
    program: &Program,
    scoping: &Scoping,
) -> Result<TangledNames, AllocError>
    requires { scoping.now ≡ tables_of program.now }
    ensures { IfOk result (λ found. found ≡ tangles program.now) }
{
    let pass = MentionPass::over(alloc, program)?;
    let facts = NameFacts::of(alloc, pass.as_slice(), scoping)?;
    tangles_by(alloc, &facts, program.source_type(), scoping)
}
