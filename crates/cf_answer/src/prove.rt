//! What `prove` writes: for each choose of a program the steps of its elimination, and its own target.
ghost use Rattle.std.specs.Prelude.{◌≡◌, ◌≤◌, ◌<◌, ◌-◌, ◌^◌, ◌∷◌, [], List, ℕ, All, length, map, IfOk, IfErr, OnOk};
ghost use Rattle.cf_io.specs.Seen.{SourceSeen};
ghost use Rattle.cf_pass.specs.Passes.{Told};
ghost use Rattle.cf_tree.specs.ChooseView.{choose_tree};
ghost use Rattle.cf_build.specs.Solves.{IsTypedChoose, IsFaultAmong};
ghost use Rattle.cf_words.specs.Commands.{prove as the_prove};
ghost use Rattle.cf_form.specs.ToldView.{told_choose, truth_at};
ghost use Rattle.cf_lex.specs.Editions.{edition_of};
ghost use Rattle.cf_tree.specs.declared.base.Edition.TheVariants.{Three};
ghost use Rattle.cf_answer.specs.Branches.{in_branches};
ghost use Rattle.cf_answer.specs.Certificates.{asked_in, AreProofs};
ghost use Rattle.cf_answer.specs.Ends.{AnswersOn};
ghost use Rattle.cf_answer.specs.Limits.{text_limit};
ghost use Rattle.cf_answer.specs.Outside.{streams};
ghost use Rattle.cf_answer.specs.Refusals.{IsRefusedSource};
ghost use Rattle.cf_answer.specs.Statuses.{status_of as the_status_of, IsEarly};
ghost use Rattle.cf_answer.specs.Steps.{IsVerdict};
ghost use Rattle.cf_answer.specs.Verifying.{told_in, AddsBlock, ArePut, IsToldProgram};

use crate::branches::{Coming, head};
use crate::fault::Fault;
use crate::source::{ToldProgram, read_told};
use crate::write::write_printed;
use cf_build::{BuildFault, numbered};
use cf_choose::ChooseFault;
use cf_form::{ChooseInfo, TruthAt};
use cf_io::Sink;
use cf_prove::prove;
use cf_tree::Choose;
use std::alloc::Global;

// Adds the printed block of a choose in a branch.
fn put_block(
    alloc: Global,
    choose: &Choose<'_>,
    branch: &[TruthAt],
    text: &mut Vec<u8>,
) -> Result<(), BuildFault>
    requires { IsTypedChoose (choose_tree choose.now) }
    ensures block { OnOk result (AddsBlock Three (choose_tree choose.now, map truth_at branch.now) text.old.items text.new.items) }
    ensures refused { IfErr result (IsFaultAmong (choose_tree choose.now ∷ [])) }
{
    let head = head(alloc, choose.scope, branch)?;
    match prove(alloc, choose, &head) {
        Ok(block) => {
            text.extend_from_slice(&block)?;
            Ok(())
        }
        Err(ChooseFault::Refused(refusal)) => Err(BuildFault::Choose {
            number: choose.number,
            refusal,
        }),
        Err(ChooseFault::NoMemory) => Err(BuildFault::NoMemory),
    }
}

// The printed blocks of these chooses in order, or the first of them that is refused.
fn prove_each(
    alloc: Global,
    told: &[ChooseInfo],
    chooses: &[Choose<'_>],
) -> Result<Vec<u8>, BuildFault>
    requires { All (λ c. IsTypedChoose (choose_tree c)) chooses.now }
    ensures proofs { IfOk result (λ text. ArePut Three (in_branches (map told_choose told.now) [] (map choose_tree chooses.now)) text.items) }
    ensures refused { IfErr result (IsFaultAmong (map choose_tree chooses.now)) }
{
    let mut text = Vec::new(alloc);
    let mut coming = Coming::new(told);
    for i in 0..chooses.len() {
        let choose = &chooses[i];
        let branch = coming.next(choose.number);
        put_block(alloc, choose, branch, &mut text)?;
    }
    Ok(text)
}

// The printed blocks of the chooses of a program in the order of their numbers, those of one number
// in the order of the text, or the choose for which it is refused.
fn blocks(alloc: Global, program: &ToldProgram) -> Result<Vec<u8>, Fault>
    ensures { (source : List ℕ) (s : IsToldProgram source program.now) → IsVerdict (λ text. AreProofs (edition_of source)
        (in_branches (told_in program.now.formed) [] (asked_in s.lowered.typed)) text.items) (IsRefusedSource source) result }
{
    let chooses = numbered(alloc, program.lowered.typed())?;
    let text = prove_each(alloc, program.chooses(), &chooses)?;
    Ok(text)
}

/// Writes for each choose of a source text the steps of its elimination, and its own target, or nothing
/// where they are past their limit.
pub fn write_blocks<O: Sink>(alloc: Global, text: &[u8], out: &mut O) -> Result<(), Fault>
    requires short { length text.now ≤ text_limit }
    requires place { length text.now < 2 ^ 32 - 1 }
    ensures answers { (file : List ℕ) (given : List Told) (input : SourceSeen) → AnswersOn (the_prove file) given given (text.now ∷ [])
        (streams input (O.seen out.old)) (streams input (O.seen out.new)) result }
    ensures unwritten { IsEarly (the_status_of result) → out.new ≡ out.old }
{
    let program = read_told(alloc, text)?;
    let text = blocks(alloc, &program)?;
    write_printed(out, program.edition(), &text)
}
