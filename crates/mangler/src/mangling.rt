//! A mangled program: names are proposed, and the program with these names is the answer where it passes all tests and its
//! names are not longer than those of the simple mangler. Else the simple mangler's is.

ghost use Rattle.std.specs.Prelude.{◌≡◌, ◌≤◌, ◌&&◌, ℕ, [], true, cond, nat_le, IfOk, IfSome};
ghost use Rattle.semantic_tree.specs.Tree.{Tree};
ghost use Rattle.semantic_model.specs.Analysis.{analysis_of};
ghost use Rattle.semantic_model.specs.Moment.{ListsBeginWithOwn};
ghost use Rattle.rename_model.specs.Same.{first_difference};
ghost use Rattle.renamer.specs.Told.{told_by};
ghost use Rattle.mangle_model.specs.Assignment.{assignment_of};
ghost use Rattle.mangle_model.specs.Mangling.{is_no_node, may_change, IsMangled};
ghost use Rattle.mangle_model.specs.MayMangle.{Options};
ghost use Rattle.mangle_model.specs.OneNameEach.{each_named, simply_mangled};
ghost use Rattle.mangle_model.specs.Renamed.{renamed_by};
ghost use Rattle.mangle_model.specs.Tests.{are_renamed};
ghost use Rattle.mangle_model.specs.Written.{size_written};
ghost use Rattle.mangler.specs.Alikes.{AreAlike, AreGivable, IsGoodCopy, IsMangling, IsShortMangling, IsSimple};
ghost use Rattle.mangler.specs.Changing.{options_of};
ghost use Rattle.mangle_names.specs.Marks.{is_number_marked};

use crate::changing::changing_symbols;
use crate::comparing::are_renamed;
use crate::copying::renamed_by;
use crate::giving::are_identifiers;
use crate::options::MangleOptions;
use crate::passing::all_pass;
use crate::seen::seen_in;
use crate::written::written_size;
use mangle_names::{NewNames, barred_names, proposed};
use renamer::{Analysed, first_difference};
use semantic::{SemanticBuilder, SemanticBuilderReturn, drop_analysis};
use semantic_tree::Program;
use simple_names::{Known, each_named};
use std::alloc::{AllocError, Global};

/// A mangled program, and the new names of the symbols of the one that it was.
#[derive(Drop)]
pub struct Mangled {
    pub program: Program,
    pub names: NewNames,
}

/// Drops a program, out of line: each function that drops one itself is proved anew to drop each of its parts.
pub(crate) fn drop_program(_program: Program) {}

/// Drops a mangled program, out of line.
fn drop_mangled(_mangled: Mangled) {}

/// Drops a mangled program if there is one, out of line.
fn drop_found(_found: Option<Mangled>) {}

/// What an analysis tells of nodes.
fn analysed_by<'a>(analysis: &'a SemanticBuilderReturn<'_>) -> Analysed<'a>
    ensures scoping { result.scoping.now ≡ analysis.now.semantic.scoping }
    ensures tables { result.tables.now ≡ analysis.now.semantic.tables }
{
    Analysed {
        scoping: analysis.semantic.scoping(),
        tables: analysis.semantic.tables(),
    }
}

/// Whether the other analysis is the first, but for the new names, at so many nodes.
fn are_alike(names: &NewNames, one: &Analysed<'_>, other: &Analysed<'_>, count: u32) -> bool
    requires one { ListsBeginWithOwn one.now.scoping.now }
    requires other { ListsBeginWithOwn other.now.scoping.now }
    ensures { result ≡ (are_renamed
        (assignment_of names.now) one.now.scoping.now other.now.scoping.now
        && is_no_node (first_difference (told_by one.now) (told_by other.now) 0 count)) }
{
    are_renamed(names, one.scoping, other.scoping) && first_difference(one, other, count).is_none()
}

/// Whether the analysis of the program that is made is the first one, but for the new names.
fn is_alike(
    alloc: Global,
    program: &Program,
    analysed: &Analysed<'_>,
    names: &NewNames,
    made: &Program,
) -> Result<bool, AllocError>
    requires { told_by analysed.now ≡ analysis_of program.now }
    ensures { IfOk result (λ same. same ≡ true
        → AreAlike (assignment_of names.now) program.now made.now) }
{
    let analysis = SemanticBuilder::new().build(alloc, made)?;
    let same = are_alike(
        names,
        analysed,
        &analysed_by(&analysis),
        program.node_count(),
    );
    drop_analysis(analysis);
    Ok(same)
}

/// Whether the names of the one program are not longer than those of the other. Names so long that their size is no number
/// are want of memory.
fn is_no_longer(one: &Program, other: &Program) -> Result<bool, AllocError>
    ensures { IfOk result (λ shorter. shorter
        ≡ nat_le (size_written one.now) (size_written other.now)) }
{
    match (written_size(one), written_size(other)) {
        (Some(one), Some(other)) => Ok(one <= other),
        (_, _) => Err(AllocError),
    }
}

/// Whether the program that is made means the same, and its names are not longer.
fn is_good_copy(
    alloc: Global,
    program: &Program,
    analysed: &Analysed<'_>,
    names: &NewNames,
    made: &Program,
) -> Result<bool, AllocError>
    requires { told_by analysed.now ≡ analysis_of program.now }
    ensures { IfOk result (λ good. good ≡ true
        → IsGoodCopy (assignment_of names.now) program.now made.now) }
{
    let shorter = is_no_longer(made, program)?;
    if !shorter {
        return Ok(false);
    }
    is_alike(alloc, program, analysed, names, made)
}

/// The program that is made, if it is a good copy.
fn good_copy(
    alloc: Global,
    program: &Program,
    analysed: &Analysed<'_>,
    names: &NewNames,
    made: Program,
) -> Result<Option<Program>, AllocError>
    requires { told_by analysed.now ≡ analysis_of program.now }
    ensures { IfOk result (λ found.
        IfSome found (λ q. (q ≡ made) × IsGoodCopy (assignment_of names.now) program.now q)) }
{
    match is_good_copy(alloc, program, analysed, names, &made) {
        Ok(true) => Ok(Some(made)),
        Ok(false) => {
            drop_program(made);
            Ok(None)
        }
        Err(error) => {
            drop_program(made);
            Err(error)
        }
    }
}

/// Whether the names may be given: the symbols may change, the names are good ones, and what is given a name is an
/// identifier.
fn may_be_given(
    alloc: Global,
    program: &Program,
    analysed: &Analysed<'_>,
    may: &[bool],
    names: &NewNames,
) -> Result<bool, AllocError>
    requires { told_by analysed.now ≡ analysis_of program.now }
    ensures { IfOk result (λ good. good ≡ true
        → AreGivable (is_number_marked may.now) program.now names.now) }
{
    let barred = barred_names(alloc, analysed.scoping, may)?;
    if !all_pass(may, &barred, names) {
        return Ok(false);
    }
    Ok(are_identifiers(analysed, names, program.root().node()))
}

/// The program with the new names, if it is a mangled one.
fn mangled_with(
    alloc: Global,
    options: MangleOptions,
    program: &Program,
    analysed: &Analysed<'_>,
    may: &[bool],
    names: &NewNames,
) -> Result<Option<Program>, AllocError>
    requires analysis { told_by analysed.now ≡ analysis_of program.now }
    requires may { (s : ℕ) → is_number_marked may.now s
        ≡ may_change (options_of options) program.now s }
    ensures { IfOk result (λ found.
        IfSome found (λ q. IsMangled (options_of options) program.now names.now q)) }
{
    let _root = program.root();
    let given = may_be_given(alloc, program, analysed, may, names)?;
    if !given {
        return Ok(None);
    }
    let made = renamed_by(alloc, program, analysed, names)?;
    good_copy(alloc, program, analysed, names, made)
}

/// The program itself, with no new names.
fn itself(
    alloc: Global,
    options: MangleOptions,
    program: &Program,
    analysed: &Analysed<'_>,
) -> Result<Mangled, AllocError>
    requires { told_by analysed.now ≡ analysis_of program.now }
    ensures mangled { IfOk result (IsMangling (options_of options) program.now) }
    ensures names { IfOk result (λ m. m.names ≡ []) }
{
    let _root = program.root();
    let names = NewNames::new(alloc);
    let copy = renamed_by(alloc, program, analysed, &names)?;
    Ok(Mangled {
        program: copy,
        names,
    })
}

/// The program with the simple mangler's names, or itself where its names would be longer.
fn shorter_or_itself(
    alloc: Global,
    options: MangleOptions,
    program: &Program,
    analysed: &Analysed<'_>,
    names: NewNames,
    made: Program,
) -> Result<Mangled, AllocError>
    requires analysis { told_by analysed.now ≡ analysis_of program.now }
    requires names { names ≡ each_named (options_of options) program.now }
    requires made { made ≡ renamed_by (assignment_of names) program.now }
    ensures { IfOk result (IsSimple (options_of options) program.now) }
{
    let _root = program.root();
    match is_no_longer(&made, program) {
        Ok(true) => Ok(Mangled {
            program: made,
            names,
        }),
        Ok(false) => {
            drop_program(made);
            itself(alloc, options, program, analysed)
        }
        Err(error) => {
            drop_program(made);
            Err(error)
        }
    }
}

/// The program that the simple mangler makes.
fn simply_mangled(
    alloc: Global,
    options: MangleOptions,
    program: &Program,
    analysed: &Analysed<'_>,
    may: &[bool],
) -> Result<Mangled, AllocError>
    requires analysis { told_by analysed.now ≡ analysis_of program.now }
    requires may { (s : ℕ) → is_number_marked may.now s
        ≡ may_change (options_of options) program.now s }
    ensures { IfOk result (IsSimple (options_of options) program.now) }
{
    let _root = program.root();
    let known = Known {
        scoping: analysed.scoping,
        nodes: analysed.tables,
        may,
    };
    let names = each_named(alloc, program, &known)?;
    let made = renamed_by(alloc, program, analysed, &names)?;
    shorter_or_itself(alloc, options, program, analysed, names, made)
}

/// The program with the proposed names, if it is a mangled one.
fn proposal(
    alloc: Global,
    options: MangleOptions,
    program: &Program,
    analysed: &Analysed<'_>,
    may: &[bool],
) -> Result<Option<Mangled>, AllocError>
    requires analysis { told_by analysed.now ≡ analysis_of program.now }
    requires may { (s : ℕ) → is_number_marked may.now s
        ≡ may_change (options_of options) program.now s }
    ensures { IfOk result (λ found. IfSome found (IsMangling (options_of options) program.now)) }
{
    let names = proposed(alloc, program, analysed.scoping, analysed.tables, may)?;
    match mangled_with(alloc, options, program, analysed, may, &names)? {
        Some(program) => Ok(Some(Mangled { program, names })),
        None => Ok(None),
    }
}

/// The one of two mangled programs whose names are not longer than those of the other, the first if both are.
fn shorter_of(one: Mangled, other: Mangled) -> Result<Mangled, AllocError>
    ensures { IfOk result (λ m. m
        ≡ cond (nat_le (size_written one.program) (size_written other.program)) one other) }
{
    match is_no_longer(&one.program, &other.program) {
        Ok(true) => {
            drop_mangled(other);
            Ok(one)
        }
        Ok(false) => {
            drop_mangled(one);
            Ok(other)
        }
        Err(error) => {
            drop_mangled(one);
            drop_mangled(other);
            Err(error)
        }
    }
}

/// What was found, if it isn't longer than what the simple mangler makes, else the latter.
fn found_or_simple(found: Option<Mangled>, simple: Mangled) -> Result<Mangled, AllocError>
    ensures { (o : Options) (p : Tree) → IfSome found (IsMangling o p) → IsSimple o p simple
        → IfOk result (IsShortMangling o p) }
{
    match found {
        Some(found) => shorter_of(found, simple),
        None => Ok(simple),
    }
}

/// Mangles an analysed program.
fn mangle_analysed(
    alloc: Global,
    options: MangleOptions,
    program: &Program,
    analysed: &Analysed<'_>,
) -> Result<Mangled, AllocError>
    requires { told_by analysed.now ≡ analysis_of program.now }
    ensures { IfOk result (IsShortMangling (options_of options) program.now) }
{
    let seen = seen_in(alloc, program, analysed)?;
    let may = changing_symbols(alloc, options, program, analysed, &seen)?;
    let found = proposal(alloc, options, program, analysed, may.as_slice())?;
    match simply_mangled(alloc, options, program, analysed, may.as_slice()) {
        Ok(simple) => found_or_simple(found, simple),
        Err(error) => {
            drop_found(found);
            Err(error)
        }
    }
}

/// The program in which symbols have short names, each node means the same, and no name that others see changes. Which
/// symbols get which names is a matter of size: the names are not longer than they were, nor than those that the simple
/// mangler gives. The only error is want of memory, which names that are too long to be measured are too.
pub fn mangle_program(
    alloc: Global,
    p: &Program,
    options: MangleOptions,
) -> Result<Mangled, AllocError>
    ensures mangled { IfOk result (λ m. IsMangled (options_of options) p.now m.names m.program) }
    ensures length { IfOk result (λ m. size_written m.program
        ≤ size_written (simply_mangled (options_of options) p.now)) }
{
    let analysis = SemanticBuilder::new().build(alloc, p)?;
    let result = mangle_analysed(alloc, options, p, &analysed_by(&analysis));
    drop_analysis(analysis);
    result
}
