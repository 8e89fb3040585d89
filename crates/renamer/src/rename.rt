//! A symbol gets another name.

ghost use Rattle.std.specs.Prelude.{◌≡◌, ◌<◌, false, length, slice_get, bytes_eq, codes, IfOk, IfErr};
ghost use Rattle.std.specs.Str.{chars};
ghost use Rattle.semantic_syntax.specs.Tables.{Symbol};
ghost use Rattle.semantic_model.specs.TablesOf.{tables_of};
ghost use Rattle.semantic_model.specs.Analysis.{analysis_of};
ghost use Rattle.renamer.specs.Told.{told_by};
ghost use Rattle.rename_model.specs.Alone.{BelongsTo, IsUnused};
ghost use Rattle.renamer.specs.Answers.{IsAnswer};
ghost use Rattle.renamer.specs.Outcome.{Comes, Compares, FindsDifference, IsRenaming, IsRefusedFor, NeverDiffers};
ghost use Rattle.renamer.specs.Requests.{asked_in_request};

use crate::analysed::Analysed;
use crate::bearing::is_bad_name;
use crate::differing::first_difference;
use crate::error::RenameError;
use crate::fixing::first_fixed;
use crate::refusal::{Refusal, RequestError};
use crate::renaming::renamed;
use crate::request::Request;
use semantic::{SemanticBuilder, SemanticBuilderReturn, drop_analysis};
use semantic_syntax::{NodeId, SymbolId};
use semantic_tree::Program;
use std::alloc::{AllocError, Global};

/// Drops a program, out of line: each function that drops one itself is proved anew to drop each of its parts.
pub(crate) fn drop_program(_program: Program) {}

/// What an analysis tells of nodes.
fn analysed_by<'a>(analysis: &'a SemanticBuilderReturn<'_>) -> Analysed<'a>
    ensures scoping { result.scoping.now ≡ analysis.now.semantic.scoping }
    ensures tables { result.tables.now ≡ analysis.now.semantic.tables }
{
    Analysed {
        scoping: analysis.semantic.scoping(),
        tables: analysis.semantic.tables(),
    }
}

/// The first node at which the analysis of a program differs from another.
fn difference(
    alloc: Global,
    analysed: &Analysed<'_>,
    made: &Program,
) -> Result<Option<NodeId>, AllocError>
    ensures { FindsDifference (told_by analysed.now) made.now result }
{
    let analysis = SemanticBuilder::new().build(alloc, made)?;
    let found = first_difference(analysed, &analysed_by(&analysis), made.node_count());
    drop_analysis(analysis);
    Ok(found)
}

/// The program that is made, unless its analysis differs.
fn compared(alloc: Global, analysed: &Analysed<'_>, made: Program) -> Result<Program, RenameError>
    ensures { Compares (told_by analysed.now) made result }
{
    match difference(alloc, analysed, &made) {
        Ok(None) => Ok(made),
        Ok(Some(node)) => {
            drop_program(made);
            Err(RenameError::Differs(node))
        }
        Err(error) => {
            drop_program(made);
            Err(RenameError::Memory(error))
        }
    }
}

/// Gives the symbol of an analysed program the name.
fn rename_analysed(
    alloc: Global,
    program: &Program,
    analysed: &Analysed<'_>,
    symbol: SymbolId,
    new: &str,
) -> Result<Program, RenameError>
    requires analysis { told_by analysed.now ≡ analysis_of program.now }
    requires symbol { symbol < length (tables_of program.now).symbols }
    ensures { Comes program.now symbol (chars new.now) result }
{
    let _root = program.root();
    if is_bad_name(new) {
        return Err(RenameError::BadName);
    }
    let fixed = first_fixed(alloc, program, analysed, symbol)?;
    match fixed {
        Some(node) => return Err(RenameError::Fixed(node)),
        None => {}
    }
    let made = renamed(alloc, program, analysed, symbol, new)?;
    compared(alloc, analysed, made)
}

/// The program in which the symbol has the new name, in its binding identifiers and enum members and in the references
/// that are tied to it. Properties in short whose value is renamed keep their key and are written out.
///
/// It is refused in this order: for a bad name; for the least node that is renamed and whose name others see; for the
/// least node that would mean another symbol. `Memory` may come at any place. The program itself stays as it is.
pub fn rename_program(
    alloc: Global,
    p: &Program,
    s: SymbolId,
    new: &str,
) -> Result<Program, RenameError>
    requires { s < length (tables_of p.now).symbols }
    // It is what the definition gives, but for want of memory.
    ensures exact { Comes p.now s (chars new.now) result }
    // What is renamed means the same.
    ensures renamed { IfOk result (IsRenaming p.now s (chars new.now)) }
    // Each refusal has its cause.
    ensures refused { IfErr result (IsRefusedFor p.now s (chars new.now)) }
    // A name of this symbol alone never comes to mean another.
    ensures complete { (y : Symbol) → slice_get (tables_of p.now).symbols s ≡ Some y
        → bytes_eq y.name (codes "arguments") ≡ false → bytes_eq y.name (codes "eval") ≡ false
        → BelongsTo p.now s y.name → IsUnused p.now (chars new.now)
        → NeverDiffers result }
{
    let _root = p.root();
    let analysis = SemanticBuilder::new().build(alloc, p)?;
    let result = rename_analysed(alloc, p, &analysed_by(&analysis), s, new);
    drop_analysis(analysis);
    result
}

/// Gives the symbol that is asked for the name, where the analysed program has that symbol.
fn rename_known(
    alloc: Global,
    program: &Program,
    analysed: &Analysed<'_>,
    request: &Request<'_>,
) -> Result<Program, RequestError>
    requires analysis { told_by analysed.now ≡ analysis_of program.now }
    requires tables { analysed.now.scoping.now ≡ tables_of program.now }
    ensures { IsAnswer (asked_in_request request.now) program.now result }
{
    if request.symbol.index() >= analysed.scoping.symbols_len() {
        return Err(RequestError::Refused(Refusal::NoSymbol(request.symbol)));
    }
    let made = rename_analysed(alloc, program, analysed, request.symbol, request.name)?;
    Ok(made)
}

/// The program in which the symbol that is asked for has the name, with the refusals of `rename_program` and one more:
/// that there is no such symbol.
pub(crate) fn rename_asked(
    alloc: Global,
    program: &Program,
    request: &Request<'_>,
) -> Result<Program, RequestError>
    ensures { IsAnswer (asked_in_request request.now) program.now result }
{
    let analysis = SemanticBuilder::new().build(alloc, program)?;
    let result = rename_known(alloc, program, &analysed_by(&analysis), request);
    drop_analysis(analysis);
    result
}
