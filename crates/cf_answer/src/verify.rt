//! Checking the steps of a file against a source.
ghost use Rattle.std.specs.Prelude.{◌≡◌, ◌⊎◌, ◌≤◌, ◌<◌, ◌+◌, ◌-◌, ◌^◌, ◌∷◌, [], List, ℕ, Some, length, map, flat_map, IfOk, IsErrOf};
ghost use Rattle.cf_io.specs.Seen.{ShelfSeen, SourceSeen};
ghost use Rattle.cf_tree.specs.ChooseView.{choose_tree};
ghost use Rattle.cf_pass.specs.Passes.{Told};
ghost use Rattle.cf_words.specs.Commands.{verify as the_verify};
ghost use Rattle.cf_answer.specs.Certificates.{verified_line};
ghost use Rattle.cf_answer.specs.Ends.{Does, AnswersOn, IsInOrder};
ghost use Rattle.cf_answer.specs.Limits.{text_limit, of_target, most_of};
ghost use Rattle.cf_answer.specs.Statuses.{status_of as the_status_of, IsEarly};
ghost use Rattle.cf_answer.specs.Outside.{AreTold, outside, streams};
ghost use Rattle.cf_cases.specs.Holding.{EachOf};
ghost use Rattle.cf_cert.specs.Laws.{IsLinearChoose, AreWithinCases};
ghost use Rattle.cf_cert.specs.Verifying.{HaveFewSteps};
ghost use Rattle.cf_form.specs.ToldView.{told_choose};
ghost use Rattle.cf_steps.specs.Blocks.{block_tree, block_trees};
ghost use Rattle.cf_answer.specs.Branches.{in_branches, wrong_head as wrong_head_of, IsVerdictIn};
ghost use Rattle.cf_answer.specs.Refusals.{IsBrokenSource};
ghost use Rattle.cf_answer.specs.Steps.{IsVerdict};
ghost use Rattle.cf_answer.specs.Verifying.{edition_in, IsFetched, IsToldProgram, NoneFailed};
ghost use Rattle.cf_answer.specs.Written.{IsWrittenBy, front_of, line_of};

use crate::branches::{Coming, is_head};
use crate::choose_line::put_line;
use crate::ended::Ended;
use crate::fault::{Fault, StepsFault};
use crate::limits::{longest_target, longest_text};
use crate::saying::NamedSource;
use crate::source::{ToldProgram, read_told};
use crate::steps::read_steps;
use crate::write::write_text;
use cf_build::numbered;
use cf_cert::{Verdict, Why, verify};
use cf_form::ChooseInfo;
use cf_io::{FetchFault, ReadFault, Shelf, Sink, read_front, read_text};
use cf_program::Linearity;
use cf_steps::{Block, Blocks};
use cf_tree::{Choose, NoMemory};
use std::alloc::Global;

// The lines of chooses that are verified.
fn verified_lines(alloc: Global, chooses: &[Choose<'_>]) -> Result<Vec<u8>, NoMemory>
    ensures { IfOk result (λ text. text.items ≡ flat_map verified_line (map choose_tree chooses.now)) }
{
    let mut text = Vec::new(alloc);
    for choose in chooses {
        put_line(&mut text, choose.number, b"verified".as_slice())?;
    }
    Ok(text)
}

// The number of the first choose whose block names another branch.
fn wrong_head(told: &[ChooseInfo], chooses: &[Choose<'_>], blocks: &[Block]) -> Option<u32>
    ensures { result ≡ wrong_head_of (in_branches (map told_choose told.now) [] (map choose_tree chooses.now)) (map block_tree blocks.now) }
{
    let mut coming = Coming::new(told);
    let mut rest = blocks;
    for choose in chooses {
        let branch = coming.next(choose.number);
        let Some((block, behind)) = rest.split_first() else {
            return None;
        };
        if !is_head(choose.scope, branch, &block.truths) {
            return Some(choose.number);
        }
        rest = behind;
    }
    None
}

// The verdict on blocks for these chooses in their branches.
fn verdict(
    alloc: Global,
    told: &[ChooseInfo],
    chooses: &[Choose<'_>],
    blocks: &Blocks,
) -> Result<Verdict, NoMemory>
    requires chooses { EachOf IsLinearChoose (map choose_tree chooses.now) }
    requires within { EachOf (λ b. AreWithinCases b.cases) (block_trees blocks.now) }
    requires few { HaveFewSteps (block_trees blocks.now) }
    ensures { IfOk result (IsVerdictIn (in_branches (map told_choose told.now) [] (map choose_tree chooses.now)) (block_trees blocks.now)) }
{
    match wrong_head(told, chooses, &blocks.list) {
        Some(number) => Ok(Verdict::Rejected {
            number,
            case: 0,
            step: 0,
            why: Why::Blocks,
        }),
        None => verify(alloc, chooses, blocks),
    }
}

// Checks the text of a steps file against the chooses of a source, whose matches are taken apart.
fn verify_text<O: Sink>(
    alloc: Global,
    program: &ToldProgram,
    text: &[u8],
    out: &mut O,
) -> Result<(), Fault>
    requires short { length text.now ≤ most_of (of_target (edition_in program.now.formed)) }
    requires place { length text.now < 2 ^ 32 - 1 }
    ensures answers { (file steps : List ℕ) (given : List Told) (input : SourceSeen) (source : List ℕ) →
        IsToldProgram source program.now → AnswersOn (the_verify file steps) given given (source ∷ text.now ∷ [])
        (streams input (O.seen out.old)) (streams input (O.seen out.new)) result }
    ensures unwritten { IsEarly (the_status_of result) → out.new ≡ out.old }
{
    let blocks = read_steps(alloc, program.edition(), text)?;
    let chooses = numbered(alloc, program.lowered.typed())?;
    let verdict = verdict(alloc, program.chooses(), &chooses, &blocks)?;
    match verdict {
        Verdict::Yes => {
            let lines = verified_lines(alloc, &chooses)?;
            write_text(out, &lines)
        }
        Verdict::Rejected {
            number,
            case,
            step,
            why,
        } => Err(Fault::Rejected {
            number,
            case,
            step,
            why,
        }),
    }
}

// The program of a source text as far as it was read, with its matches taken apart, or why the text is
// refused.
fn read_program(alloc: Global, front: &[u8]) -> Result<ToldProgram, Fault>
    requires { length front.now ≤ text_limit + 1 }
    ensures verdict { (whole : List ℕ) → front.now ≡ front_of whole → IsVerdict (IsToldProgram whole) (IsBrokenSource whole) result }
    ensures short { (IsErrOf result Fault.TextTooLong) ⊎ (length front.now ≤ text_limit) }
{
    if front.len() > longest_text() {
        return Err(Fault::TextTooLong);
    }
    read_told(alloc, front)
}

// Checks the steps in a file against a source text as far as it was read.
fn verify_front<F: Shelf, O: Sink>(
    alloc: Global,
    front: &[u8],
    steps: &str,
    shelf: &mut F,
    out: &mut O,
) -> Result<(), Fault>
    requires { length front.now ≤ text_limit + 1 }
    ensures does { (file whole : List ℕ) (before : ShelfSeen) → IsFetched text_limit file before (F.seen shelf.old) → NoneFailed before (F.seen shelf.old) →
        AreTold (before.texts file) whole → front.now ≡ front_of whole → (given : List Told) (input : SourceSeen) →
        Does (the_verify file steps.now) given given (outside before input (O.seen out.old)) (outside (F.seen shelf.new) input (O.seen out.new)) result }
    ensures usage { ¬ IsErrOf result Fault.Usage }
    ensures short { (IsErrOf result Fault.TextTooLong) ⊎ (length front.now ≤ text_limit) }
    ensures unwritten { IsEarly (the_status_of result) → out.new ≡ out.old }
    ensures order { (file whole : List ℕ) (before : ShelfSeen) → IsFetched text_limit file before (F.seen shelf.old) → NoneFailed before (F.seen shelf.old) →
        AreTold (before.texts file) whole → front.now ≡ front_of whole → IsInOrder (the_verify file steps.now) before (F.seen shelf.new) (the_status_of result) }
{
    let program = read_program(alloc, front)?;
    match read_text(alloc, shelf, steps, longest_target(program.edition())) {
        Ok(text) => verify_text(alloc, &program, &text, out),
        Err(ReadFault::Failed) => Err(Fault::File),
        Err(ReadFault::TooLong) => Err(Fault::Steps(StepsFault::TooLong)),
        Err(ReadFault::NoMemory) => Err(Fault::NoMemory),
    }
}

/// Checks the steps in the second file against the source text in the first, and writes for each
/// choose of the source that it is verified. The second file is read only where no rule is broken in
/// the first.
///
/// Faults are `File` where a file failed, those for which the source or the steps are refused, `Output`
/// and `NoMemory`.
pub fn verify_files<F: Shelf, O: Sink>(
    alloc: Global,
    file: &str,
    steps: &str,
    shelf: &mut F,
    out: &mut O,
) -> Ended
    ensures does { (given : List Told) (input : SourceSeen) → Does (the_verify file.now steps.now) given given
        (outside (F.seen shelf.old) input (O.seen out.old)) (outside (F.seen shelf.new) input (O.seen out.new)) result.answer }
    ensures written { IsWrittenBy (Some (the_verify file.now steps.now)) (F.seen shelf.old).texts result.answer (line_of result) }
    ensures usage { ¬ IsErrOf result.answer Fault.Usage }
    ensures unwritten { IsEarly (the_status_of result.answer) → out.new ≡ out.old }
    // The steps file is read only behind a source in which no rule is broken.
    ensures order { IsInOrder (the_verify file.now steps.now) (F.seen shelf.old) (F.seen shelf.new) (the_status_of result.answer) }
{
    match read_front(alloc, shelf, file, longest_text() + 1) {
        Ok(front) => {
            let answer = verify_front(alloc, &front, steps, shelf, out);
            let source = NamedSource {
                name: file.as_bytes(),
                text: &front,
                how: Linearity::Plain,
            };
            Ended::on_source(alloc, &source, answer)
        }
        Err(FetchFault::Failed) => Ended::plain(Err(Fault::File)),
        Err(FetchFault::NoMemory) => Ended::plain(Err(Fault::NoMemory)),
    }
}
