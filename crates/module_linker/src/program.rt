//! The program, over any source and any sinks.
ghost use Rattle.std.specs.Prelude.{◌≡◌, ℕ, List, [], Some, IfOk, OnOk, IfErr};
ghost use Rattle.program_ends.specs.Calls.{source_call, sink_call};
ghost use Rattle.program_ends.specs.Completeness.{IsDoneOrMemory, IsUsageOrMemory};
ghost use Rattle.program_ends.specs.Faults.{FaultsEnd};
ghost use Rattle.program_ends.specs.Meaning.{Finds};
ghost use Rattle.module_set.specs.Reading.{StandsForSet};
ghost use Rattle.module_set.specs.declared.modules.Module.{Module};
ghost use Rattle.program_ends.specs.FindingEnds.{end_of};
ghost use Rattle.module_linker.specs.Codes.{status_for, is_loose};
ghost use Rattle.module_linker.specs.Failing.{NotFound, FailureKeeps, IsNotRefused};
ghost use Rattle.module_linker.specs.Meaning.{StandsLinked, GivesLinks, Ends, Means, IsClear, end_due};

use crate::LinkStatus;
use crate::failure::LinkFailure;
use crate::linking::link;
use crate::stops::{refuse_words, tell_failure};
use link_model::{Link, LinkOutcome};
use module_entries::write::write_links;
use module_set::{Modules, read_modules};
use report_ends::{Sink, Source, read_input};
use std::alloc::Global;

/// Whether an import comes to nothing, or to things that differ.
fn is_loose(outcome: LinkOutcome) -> bool
    ensures { result ≡ is_loose outcome }
{
    matches!(
        outcome,
        LinkOutcome::Missing | LinkOutcome::Ring | LinkOutcome::Ambiguous
    )
}

/// The status for links that are written.
#[tactic(auto, using(crate::proofs::Loose::loose_turn, crate::proofs::Loose::loose_found, crate::proofs::Loose::loose_end))]
fn status_for(links: &[Link]) -> LinkStatus
    ensures { result ≡ status_for links.now }
{
    for link in links {
        if is_loose(link.outcome) {
            return LinkStatus::Found;
        }
    }
    LinkStatus::Done
}

/// Reads the whole input, and the set of modules that it stands for. Some bytes are gone from the source where it fails.
fn read_modules_from<S: Source>(alloc: Global, source: &mut S) -> Result<Modules, LinkFailure>
    ensures found { IfOk result
        (Finds StandsForSet (source_call S.left S.faults source.old source.new)) }
    ensures stopped { IfErr result (NotFound (source_call S.left S.faults source.old source.new)) }
    ensures kept { OnOk result (S.faults source.new ≡ S.faults source.old) }
    ensures failing { IfErr result (FailureKeeps (S.faults source.new ≡ S.faults source.old)) }
    ensures same { (input : List ℕ) (ms : List Module) → S.left source.old ≡ Some input
        → StandsForSet input ms → IfOk result (λ modules. modules ≡ ms) }
    ensures complete { (input : List ℕ) (ms : List Module) → S.left source.old ≡ Some input
        → StandsForSet input ms → IfErr result IsNotRefused }
{
    let input = read_input(alloc, source)?;
    let modules = read_modules(alloc, &input)?;
    Ok(modules)
}

/// Writes the links of modules, and gives the status for them.
fn answer<K: Sink>(alloc: Global, modules: &Modules, out: &mut K) -> Result<LinkStatus, LinkFailure>
    ensures { GivesLinks K.held K.faults out.old out.new modules.now result }
{
    let links = link(alloc, modules)?;
    write_links(alloc, modules, links.as_slice(), out)?;
    Ok(status_for(links.as_slice()))
}

/// Reads a set of modules, and writes its links.
fn link_input<S: Source, K: Sink>(
    alloc: Global,
    source: &mut S,
    out: &mut K,
) -> Result<LinkStatus, LinkFailure>
    ensures ends { Ends (source_call S.left S.faults source.old source.new)
        (sink_call K.held K.faults out.old out.new) result }
    ensures failing { FaultsEnd (source_call S.left S.faults source.old source.new)
        (sink_call K.held K.faults out.old out.new) (end_due result) }
    ensures complete { (input : List ℕ) (ms : List Module) → S.left source.old ≡ Some input
        → StandsLinked input ms → IfErr result IsNotRefused }
{
    let modules = read_modules_from(alloc, source)?;
    answer(alloc, &modules, out)
}

/// Does all that the program does: it reads the whole input, which is a set of modules as JSON, and writes a line on
/// what each import comes to on `out`. `Found` is answered where some import comes to nothing, or to things that differ.
/// Where it can't answer it tells why on `errs`, in one line. Where there are words nothing is read.
pub fn run_link<S: Source, K: Sink, E: Sink>(
    alloc: Global,
    words: &[String],
    source: &mut S,
    out: &mut K,
    errs: &mut E,
) -> LinkStatus
    ensures means { Means (source_call S.left S.faults source.old source.new)
        (sink_call K.held K.faults out.old out.new)
        (sink_call E.held E.faults errs.old errs.new) words.now result }
    ensures failing { FaultsEnd (source_call S.left S.faults source.old source.new)
        (sink_call K.held K.faults out.old out.new) (end_of result) }
    ensures complete { words.now ≡ [] → IsClear (source_call S.left S.faults source.old source.new)
        (sink_call K.held K.faults out.old out.new) → IsDoneOrMemory (end_of result) }
    ensures usage { ¬ (words.now ≡ []) → IsUsageOrMemory (end_of result) }
{
    if !words.is_empty() {
        return refuse_words(errs);
    }
    match link_input(alloc, source, out) {
        Ok(status) => status,
        Err(failure) => tell_failure(alloc, &failure, errs),
    }
}
