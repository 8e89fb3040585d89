//! The program that an input stands for.
ghost use Rattle.std.specs.Prelude.{◌≡◌, ℕ, List, Some, IfOk, IfErr};
ghost use Rattle.semantic_tree.specs.Tree.{Tree};
ghost use Rattle.report_ends.specs.Streams.{ReadKeeps};
ghost use Rattle.program_ends.specs.Calls.{source_call};
ghost use Rattle.program_ends.specs.Completeness.{IsNotRefused};
ghost use Rattle.program_ends.specs.Meaning.{Finds, NotFound};
ghost use Rattle.program_ends.specs.Reads.{Stands, InputCause};

use report_ends::{ReportError, Source, read_input};
use semantic_tree::Program;
use std::alloc::Global;
use tree_json::read_program;

/// The program that the bytes stand for. It answers `Tree` where they are no program's tree, and `Memory`.
fn program_in(alloc: Global, input: &[u8]) -> Result<Program, ReportError>
    ensures stands { IfOk result (λ program. Stands input.now program) }
    ensures refused { IfErr result (InputCause input.now) }
    ensures complete { (program : Tree) → Stands input.now program
        → IfErr result (λ error. error ≡ ReportError.Memory) }
{
    let program = read_program(alloc, input)?;
    Ok(program)
}

/// Reads the whole input, and the program that it stands for. It answers `Read` where a call on the source failed,
/// `TooLong` where the input is longer than `INPUT_LIMIT` bytes, `Tree` where it is no program's tree, and `Memory`.
/// Some bytes are gone from the source then.
pub fn read_program_from<S: Source>(alloc: Global, source: &mut S) -> Result<Program, ReportError>
    ensures found { IfOk result (Finds Stands (source_call S.left S.faults source.old source.new)) }
    ensures stopped { IfErr result (NotFound (source_call S.left S.faults source.old source.new)) }
    ensures kept { ReadKeeps (S.faults source.new ≡ S.faults source.old) result }
    ensures complete { (input : List ℕ) (program : Tree) → S.left source.old ≡ Some input
        → Stands input program → IfErr result IsNotRefused }
{
    let input = read_input(alloc, source)?;
    program_in(alloc, &input)
}
