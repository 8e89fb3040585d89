//! What is known of the names of a program of TypeScript beyond.
ghost use Rattle.std.specs.Prelude.{map, IfOk};
ghost use Rattle.tangled_names.specs.Facts.{MetHold, NotedHold, SymbolsHold, TypedHold};
ghost use Rattle.tangled_names.specs.Gathered.{noted_of};

use crate::facts::{met_names, noted_names};
use crate::key_set::KeySet;
use crate::mention::Mention;
use crate::symbol_names::{Question, names_where};
use scoping::Scoping;
use semantic_syntax::SymbolFlags;
use std::alloc::{AllocError, Global};
use tangle_model::What;

/// The names that meet another of theirs in a part of a type.
#[derive(Drop)]
pub struct MetFacts<'a> {
    pub(crate) beside_infer: KeySet<'a>,
    pub(crate) in_own_index: KeySet<'a>,
}

/// The names of which something is noted.
#[derive(Drop)]
pub struct NotedFacts<'a> {
    pub(crate) in_type_parameters: KeySet<'a>,
    pub(crate) inner_functions: KeySet<'a>,
    pub(crate) exported_types: KeySet<'a>,
    pub(crate) passing_variables: KeySet<'a>,
}

/// The names of some symbols.
#[derive(Drop)]
pub struct SymbolFacts<'a> {
    pub(crate) inner_variables: KeySet<'a>,
    pub(crate) typed_variables: KeySet<'a>,
    pub(crate) own_names: KeySet<'a>,
    pub(crate) types: KeySet<'a>,
}

/// The names for which reasons of TypeScript hold.
#[derive(Drop)]
pub struct TypedFacts<'a> {
    pub(crate) met: MetFacts<'a>,
    pub(crate) noted: NotedFacts<'a>,
    pub(crate) symbols: SymbolFacts<'a>,
}

impl<'a> MetFacts<'a> {
    /// What meets, where this is noted in a program. The only error is want of memory.
    fn of(alloc: Global, mentions: &[Mention<'a>]) -> Result<MetFacts<'a>, AllocError>
        ensures { IfOk result (λ f. MetHold f (map noted_of mentions.now)) }
    {
        let beside_infer = met_names(alloc, mentions, What::BesideInfer, What::Inferred)?;
        let in_own_index = met_names(
            alloc,
            mentions,
            What::InIndexSignature,
            What::IndexParameter,
        )?;
        Ok(MetFacts {
            beside_infer,
            in_own_index,
        })
    }
}

impl<'a> NotedFacts<'a> {
    /// The names of what is noted in a program. The only error is want of memory.
    fn of(alloc: Global, mentions: &[Mention<'a>]) -> Result<NotedFacts<'a>, AllocError>
        ensures { IfOk result (λ f. NotedHold f (map noted_of mentions.now)) }
    {
        let in_type_parameters = noted_names(alloc, mentions, What::InTypeParameters)?;
        let inner_functions = noted_names(alloc, mentions, What::InnerFunction)?;
        let exported_types = noted_names(alloc, mentions, What::ExportedType)?;
        let passing_variables = noted_names(alloc, mentions, What::PassingVariable)?;
        Ok(NotedFacts {
            in_type_parameters,
            inner_functions,
            exported_types,
            passing_variables,
        })
    }
}

impl<'a> SymbolFacts<'a> {
    /// The names of symbols of these tables. The only error is want of memory.
    fn of(alloc: Global, scoping: &'a Scoping) -> Result<SymbolFacts<'a>, AllocError>
        ensures { IfOk result (λ f. SymbolsHold f scoping.now) }
    {
        let inner_variables = names_where(alloc, scoping, Question::InnerVariable)?;
        let typed_variables = names_where(alloc, scoping, Question::TypedVariable)?;
        let own_names = names_where(
            alloc,
            scoping,
            Question::Flagged(SymbolFlags::FunctionExpression),
        )?;
        let types = names_where(alloc, scoping, Question::Flagged(SymbolFlags::TypeFlag))?;
        Ok(SymbolFacts {
            inner_variables,
            typed_variables,
            own_names,
            types,
        })
    }
}

impl<'a> TypedFacts<'a> {
    /// What is known of the names of a program, where this is noted in it and these are its tables. The only error is
    /// want of memory.
    pub fn of(
        alloc: Global,
        mentions: &[Mention<'a>],
        scoping: &'a Scoping,
    ) -> Result<TypedFacts<'a>, AllocError>
        ensures { IfOk result (λ f. TypedHold f (map noted_of mentions.now) scoping.now) }
    {
        let met = MetFacts::of(alloc, mentions)?;
        let noted = NotedFacts::of(alloc, mentions)?;
        let symbols = SymbolFacts::of(alloc, scoping)?;
        Ok(TypedFacts {
            met,
            noted,
            symbols,
        })
    }
}
