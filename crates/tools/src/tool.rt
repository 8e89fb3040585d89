//! The tools by their names.
ghost use Rattle.std.specs.Prelude.{◌≡◌};
ghost use Rattle.program_ends.specs.Calls.{source_call, sink_call};
ghost use Rattle.program_ends.specs.Running.{EndsRun};
ghost use Rattle.tools.specs.Ends.{end_of};
ghost use Rattle.tools.specs.Named.{tool_named};
ghost use Rattle.tools.specs.Runs.{IsRunOf, IsGivenBy};
ghost use Rattle.tools.specs.Usages.{usage_of};

use crate::status::ToolStatus;
use file_check::run_check;
use mangler_program::run_mangle;
use module_linker::run_link;
use name_lint::run_names;
use program_ends::run_over_standard_ends;
use renamer::run_rename;
use report::run;
use report_ends::{Sink, Source};
use std::alloc::Global;
use tangle_lint::run_tangled;

/// The line on a first word that names no tool.
pub const USAGE: &str =
    "usage: report|renamer|mangler|name_lint|tangled_names|file_check|module_linker [WORD ..]\n";

/// A tool.
#[derive(Clone, Copy, Debug, PartialEq, Eq)]
pub enum Tool {
    /// Tells what the analysis of a program found.
    Report,
    /// Renames a symbol.
    Renamer,
    /// Gives symbols short names.
    Mangler,
    /// Tells names that nothing uses, and names that nobody declares.
    NameLint,
    /// Tells names for which tables may part from the language.
    TangledNames,
    /// Tells what the report and the lint of names tell, by one analysis.
    FileCheck,
    /// Tells what the imports of modules come to.
    ModuleLinker,
}

impl Tool {
    /// The tool of the name, if it is one's.
    pub fn named(name: &str) -> Option<Tool>
        ensures { result ≡ tool_named name.now }
    {
        if name == "report" {
            Some(Tool::Report)
        } else if name == "renamer" {
            Some(Tool::Renamer)
        } else if name == "mangler" {
            Some(Tool::Mangler)
        } else if name == "name_lint" {
            Some(Tool::NameLint)
        } else if name == "tangled_names" {
            Some(Tool::TangledNames)
        } else if name == "file_check" {
            Some(Tool::FileCheck)
        } else if name == "module_linker" {
            Some(Tool::ModuleLinker)
        } else {
            None
        }
    }

    /// The line on words that the tool refuses.
    pub fn usage(self) -> &'static str
        ensures { result.now ≡ usage_of self }
    {
        match self {
            Tool::Report => report::USAGE,
            Tool::Renamer => renamer::USAGE,
            Tool::Mangler => mangler_program::USAGE,
            Tool::NameLint => name_lint::USAGE,
            Tool::TangledNames => tangle_lint::USAGE,
            Tool::FileCheck => file_check::USAGE,
            Tool::ModuleLinker => module_linker::USAGE,
        }
    }

    /// Does all that the tool does with the words behind its name, and gives its status.
    pub fn run<S: Source, K: Sink, E: Sink>(
        self,
        alloc: Global,
        words: &[String],
        source: &mut S,
        out: &mut K,
        errs: &mut E,
    ) -> ToolStatus
        ensures { IsRunOf self (source_call S.left S.faults source.old source.new)
            (sink_call K.held K.faults out.old out.new)
            (sink_call E.held E.faults errs.old errs.new) words.now result }
    {
        match self {
            Tool::Report => ToolStatus::Finding(run(alloc, words, source, out, errs)),
            Tool::Renamer => ToolStatus::Rename(run_rename(alloc, words, source, out, errs)),
            Tool::Mangler => ToolStatus::Mangle(run_mangle(alloc, words, source, out, errs)),
            Tool::NameLint => ToolStatus::Finding(run_names(alloc, words, source, out, errs)),
            Tool::TangledNames => ToolStatus::Finding(run_tangled(alloc, words, source, out, errs)),
            Tool::FileCheck => ToolStatus::Finding(run_check(alloc, words, source, out, errs)),
            Tool::ModuleLinker => ToolStatus::Finding(run_link(alloc, words, source, out, errs)),
        }
    }

    /// Runs the tool over standard input, output and error, on the words behind the first `names`, which name the program and it.
    pub fn run_over_standard_ends(self, rt: &HostRuntime, names: usize) -> ToolStatus
        ensures { EndsRun end_of (IsGivenBy self) result }
    {
        run_over_standard_ends(rt, names, self.usage(), |alloc, words, source, out, errs| {
            self.run(alloc, words, source, out, errs)
        })
    }
}
