//! The program in which symbols have new names.

ghost use Rattle.std.specs.Prelude.{◌≡◌, IfOk};
ghost use Rattle.mangle_model.specs.Assignment.{assignment_of};
ghost use Rattle.mangle_model.specs.Renamed.{given};
ghost use Rattle.mangle_model.specs.WithNames.{is_given, with_names_in, AreSomeNames};
ghost use Rattle.rename_model.specs.WithName.{AreIdentifiers};
ghost use Rattle.renamer.specs.Told.{told_by};

use crate::giving::given;
use mangle_names::NewNames;
use renamer::{Analysed, GivenNames, with_names_in};
use semantic_syntax::NodeId;
use semantic_tree::Program;
use std::alloc::{AllocError, Global};

/// The new names of symbols, for the nodes that bear theirs.
#[derive(Drop)]
struct SymbolNames<'a> {
    analysed: &'a Analysed<'a>,
    names: &'a NewNames,
}

impl<'a> GivenNames for SymbolNames<'a> {
    ghost given = { λ all. given (assignment_of all.names.now) (told_by all.analysed.now) };

    fn name_of(&self, node: NodeId) -> Option<&str> {
        given(self.analysed, self.names, node)
    }
}

/// The program in which symbols have the new names, which aren't empty. All nodes that are given one are identifiers, so
/// the program has no fault.
pub fn renamed_by(
    alloc: Global,
    program: &Program,
    analysed: &Analysed<'_>,
    names: &NewNames,
) -> Result<Program, AllocError>
    requires some { AreSomeNames (given (assignment_of names.now) (told_by analysed.now)) }
    requires identifiers { AreIdentifiers
        (is_given (given (assignment_of names.now) (told_by analysed.now)))
        program.now.root.children }
    ensures { IfOk result (λ made. made
        ≡ with_names_in (given (assignment_of names.now) (told_by analysed.now)) program.now) }
{
    with_names_in(alloc, program, &SymbolNames { analysed, names })
}
