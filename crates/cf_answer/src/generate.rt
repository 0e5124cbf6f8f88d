//! `gen`: the generated workload.
ghost use Rattle.std.specs.Prelude.{◌≡◌, ◌≤◌, ◌*◌, ◌++◌, [], true, ℤ, map, IfOk, OnOk, OnErr};
ghost use Rattle.cf_gen.specs.Workload.{gen_source, gen_lines};
ghost use Rattle.cf_io.specs.Lines.{lines as lines_of};
ghost use Rattle.cf_io.specs.Seen.{SourceSeen};
ghost use Rattle.cf_words.specs.Commands.{gen as the_gen};
ghost use Rattle.cf_answer.specs.Ends.{AnswersOn};
ghost use Rattle.cf_answer.specs.Outside.{streams};
ghost use Rattle.cf_answer.specs.Owed.{IsCompiledBy, sum_line};
ghost use Rattle.cf_answer.specs.Refusals.{IsRefusedSource};
ghost use Rattle.cf_answer.specs.Statuses.{status_of as the_status_of, IsEarly};
ghost use Rattle.cf_answer.specs.Steps.{IsVerdict, AddUp};

use crate::fault::Fault;
use crate::limits::longest_text;
use crate::source::target_of_text;
use crate::sum::sum_of_replies;
use crate::write::write_text;
use cf_gen::{lines, source};
use cf_io::Sink;
use cf_pass::Pass;
use cf_tree::{NoMemory, Target, put_number};
use std::alloc::Global;

// The target that the source of the workload of a size is compiled to.
fn compiled_workload(
    alloc: Global,
    size: u32,
    passes: &mut Vec<Box<dyn Pass>>,
) -> Result<Target, Fault>
    requires { (1 ≤ size) × (size ≤ 100) }
    ensures verdict { IsVerdict (IsCompiledBy true (gen_source size) (map (λ p. told p) passes.old.items) (map (λ p. told p) passes.new.items))
        (IsRefusedSource (gen_source size)) result }
    ensures kept { OnErr result (map (λ p. told p) passes.new.items ≡ map (λ p. told p) passes.old.items) }
{
    let text = source(alloc, size as u64)?;
    if text.len() > longest_text() {
        return Err(Fault::TextTooLong);
    }
    target_of_text(alloc, &text, passes)
}

// Adds the line that tells a number of lines and a sum.
fn put_sum(text: &mut Vec<u8>, count: u32, sum: i128) -> Result<(), NoMemory>
    ensures { OnOk result (text.new.items ≡ text.old.items ++ sum_line count sum) }
{
    text.extend_from_slice(b"lines ")?;
    put_number(text, count)?;
    text.extend_from_slice(b" sum ")?;
    put_number(text, sum)?;
    text.push(b'\n')?;
    Ok(())
}

// The line that tells how many lines the workload of a size has, and the sum of their replies.
fn summary(alloc: Global, size: u32, target: &Target) -> Result<Vec<u8>, NoMemory>
    requires { (1 ≤ size) × (size ≤ 100) }
    ensures { IfOk result (λ text. (sum : ℤ) × AddUp target.now (lines_of (gen_lines size)) sum × (text.items ≡ sum_line (size * size) sum)) }
{
    let input = lines(alloc, u64::from(size))?;
    let sum = sum_of_replies(alloc, target, &input)?;
    let mut text = Vec::new(alloc);
    put_sum(&mut text, size * size, sum.total)?;
    Ok(text)
}

/// Compiles the source of the workload of a size, runs it on the lines of the workload, and writes how
/// many lines there are and the sum of their replies.
///
/// Faults are those for which that source is refused, `Output` and `NoMemory`.
pub fn write_workload<O: Sink>(
    alloc: Global,
    size: u32,
    out: &mut O,
    passes: &mut Vec<Box<dyn Pass>>,
) -> Result<(), Fault>
    requires { (1 ≤ size) × (size ≤ 100) }
    ensures answers { (input : SourceSeen) → AnswersOn (the_gen size) (map (λ p. told p) passes.old.items) (map (λ p. told p) passes.new.items) []
        (streams input (O.seen out.old)) (streams input (O.seen out.new)) result }
    ensures unwritten { IsEarly (the_status_of result) → out.new ≡ out.old }
{
    let target = compiled_workload(alloc, size, passes)?;
    let text = summary(alloc, size, &target)?;
    write_text(out, &text)
}
