//! The program, over any source and any sinks.
ghost use Rattle.std.specs.Prelude.{◌≡◌, ℕ, List, Some, None, IfOk, IfErr};
ghost use Rattle.semantic_tree.specs.Tree.{Tree};
ghost use Rattle.program_ends.specs.Answering.{GivesAnswer, WritesAll};
ghost use Rattle.program_ends.specs.Calls.{source_call, sink_call};
ghost use Rattle.program_ends.specs.Completeness.{IsClear, IsDoneOrMemory, IsNotRefused, IsUsageOrMemory};
ghost use Rattle.program_ends.specs.Ending.{TellsEnd};
ghost use Rattle.program_ends.specs.Faults.{FaultsEnd, end_due};
ghost use Rattle.program_ends.specs.Reads.{Stands};
ghost use Rattle.mangler.specs.Changing.{options_of};
ghost use Rattle.mangler_program.specs.Codes.{end_of};
ghost use Rattle.mangler_program.specs.Meaning.{usage_line, Answers, Ends, IsAsked, IsMangledText, Means};
ghost use Rattle.mangler_program.specs.Words.{asked_by};
ghost use Rattle.mangler_program.specs.declared.status.MangleStatus.TheVariants.{Done};

use crate::status::MangleStatus;
use crate::words::read_words;
use mangler::{MangleOptions, Mangled, mangle_program};
use program_ends::{Stop, read_program_from, refuse, tell};
use report_ends::{ReportError, Sink, Source, write_whole};
use semantic_tree::Program;
use std::alloc::{AllocError, Global};
use tree_json::write_program;

/// The line on words that are refused.
pub const USAGE: &str = "usage: mangler [--toplevel]\n";

/// Drops a mangled program, out of line: each function that drops one itself is proved anew to drop each of its parts.
fn drop_mangled(_mangled: Mangled) {}

/// Drops a program, out of line.
fn drop_program(_program: Program) {}

/// The text of the mangled program.
fn mangled_text(
    alloc: Global,
    options: MangleOptions,
    program: &Program,
) -> Result<Vec<u8>, AllocError>
    ensures { IfOk result (λ text. IsMangledText (options_of options) program.now text.items) }
{
    let mangled = mangle_program(alloc, program, options)?;
    let text = write_program(alloc, &mangled.program);
    drop_mangled(mangled);
    text
}

/// Writes the text.
fn write_text<K: Sink>(text: &[u8], out: &mut K) -> Result<MangleStatus, ReportError>
    ensures { WritesAll K.held K.faults out.old out.new text.now Done result }
{
    write_whole(text, out)?;
    Ok(MangleStatus::Done)
}

/// Writes the mangled program.
fn answer<K: Sink>(
    alloc: Global,
    options: MangleOptions,
    program: &Program,
    out: &mut K,
) -> Result<MangleStatus, ReportError>
    ensures { GivesAnswer end_of
        (Answers (options_of options)) K.held K.faults out.old out.new program.now result }
{
    let text = mangled_text(alloc, options, program)?;
    write_text(text.as_slice(), out)
}

/// Reads a program, and writes it, mangled.
fn answer_input<S: Source, K: Sink>(
    alloc: Global,
    options: MangleOptions,
    source: &mut S,
    out: &mut K,
) -> Result<MangleStatus, ReportError>
    ensures ends { Ends (options_of options) (source_call S.left S.faults source.old source.new)
        (sink_call K.held K.faults out.old out.new) result }
    ensures failing { FaultsEnd (source_call S.left S.faults source.old source.new)
        (sink_call K.held K.faults out.old out.new) (end_due end_of result) }
    ensures complete { (input : List ℕ) (program : Tree) → S.left source.old ≡ Some input
        → Stands input program → IfErr result IsNotRefused }
{
    let program = read_program_from(alloc, source)?;
    let answered = answer(alloc, options, &program, out);
    drop_program(program);
    answered
}

/// Answers words that ask for nothing that is known.
fn refuse_words<E: Sink>(errs: &mut E) -> MangleStatus
    ensures { TellsEnd (sink_call E.held E.faults errs.old errs.new) usage_line Stop.Usage
        (end_of result) }
{
    refuse(USAGE, errs)
}

/// Does all that the program does. There are no words, or the one word `--toplevel`, which lets the variables of a script
/// change too. It reads the whole input, which is a program's tree as JSON, and writes on `out` the tree of the mangled
/// program, whose names are not longer than those of the simple mangler. Where it can't it tells why on `errs`, in one line.
/// Where the words are refused nothing is read.
pub fn run_mangle<S: Source, K: Sink, E: Sink>(
    alloc: Global,
    words: &[String],
    source: &mut S,
    out: &mut K,
    errs: &mut E,
) -> MangleStatus
    ensures means { Means (source_call S.left S.faults source.old source.new)
        (sink_call K.held K.faults out.old out.new)
        (sink_call E.held E.faults errs.old errs.new) words.now result }
    ensures failing { FaultsEnd (source_call S.left S.faults source.old source.new)
        (sink_call K.held K.faults out.old out.new) (end_of result) }
    // Where no end fails and the input stands for a program, it is mangled, but for want of memory.
    ensures complete { IsAsked (asked_by words.now)
        → IsClear (source_call S.left S.faults source.old source.new)
        (sink_call K.held K.faults out.old out.new) → IsDoneOrMemory (end_of result) }
    ensures usage { asked_by words.now ≡ None → IsUsageOrMemory (end_of result) }
{
    let Some(options) = read_words(words) else {
        return refuse_words(errs);
    };
    match answer_input(alloc, options, source, out) {
        Ok(status) => status,
        Err(error) => tell(alloc, &error, errs),
    }
}
