//! `emit smt`: the chooses of a source with their arms, and goals for solvers.
ghost use Rattle.std.specs.Prelude.{◌≡◌, ◌≤◌, ◌<◌, ◌-◌, ◌^◌, ◌∷◌, [], List, ℕ, length, map, IfOk, ⊤};
ghost use Rattle.cf_io.specs.Seen.{SourceSeen};
ghost use Rattle.cf_pass.specs.Passes.{Told};
ghost use Rattle.cf_tree.specs.ChooseTree.{ChooseTree};
ghost use Rattle.cf_tree.specs.ChooseView.{choose_tree};
ghost use Rattle.cf_tree.specs.CodeTree.{code_solve};
ghost use Rattle.cf_tree.specs.CodeView.{arm_trees, code_tree};
ghost use Rattle.cf_tree.specs.Params.{names_of};
ghost use Rattle.cf_build.specs.Chooses.{choose_arms};
ghost use Rattle.cf_build.specs.Solves.{AreSolved, IsSolved};
ghost use Rattle.cf_words.specs.Commands.{goals as the_goals};
ghost use Rattle.cf_answer.specs.Branches.{in_branches};
ghost use Rattle.cf_answer.specs.Certificates.{asked_in};
ghost use Rattle.cf_answer.specs.Claims.{branch_behind as branch_of, GoalsAnswer, GoalsWritten, IsSolve};
ghost use Rattle.cf_answer.specs.Ends.{AnswersOn};
ghost use Rattle.cf_answer.specs.Limits.{text_limit};
ghost use Rattle.cf_answer.specs.Outside.{streams};
ghost use Rattle.cf_answer.specs.Owed.{AreGoals};
ghost use Rattle.cf_answer.specs.Refusals.{IsRefusedClaims};
ghost use Rattle.cf_answer.specs.Statuses.{status_of as the_status_of, IsEarly};
ghost use Rattle.cf_answer.specs.Steps.{IsVerdict};
ghost use Rattle.cf_answer.specs.Verifying.{told_in, IsToldProgram};
ghost use Rattle.cf_answer.specs.declared.fault.Fault.TheVariants as faults;

use crate::fault::Fault;
use crate::source::{ToldProgram, parsed, read_told};
use crate::write::write_text;
use cf_build::{SolvedChoose, solve_all};
use cf_hints::hints;
use cf_io::Sink;
use cf_lex::edition_of;
use cf_print_block::Outputs;
use cf_smt::{Claim, ClaimFault, put_claim, put_head};
use cf_tree::{Arm, Choose, Code, NoMemory, Param, Text, add_u32, put_number};
use std::alloc::Global;

// The names of a scope.
fn scope_names(alloc: Global, scope: &[Param]) -> Result<Vec<Text>, NoMemory>
    ensures { IfOk result (λ names. names.items ≡ names_of scope.now) }
{
    let mut names = Vec::new(alloc);
    for param in scope {
        names.push(param.name.try_copy(alloc)?)?;
    }
    Ok(names)
}

/// The names that the source gives outputs, by the number of their choose. Nothing relies on them: where one is missing,
/// or is no free one, another is made.
#[derive(Clone, Copy)]
struct Wishes<'a> {
    alloc: Global,
    outputs: &'a [Outputs],
}

// The names of the outputs of the choose of this number.
fn wished_names<'a>(outputs: &'a [Outputs], number: u32) -> &'a [Text] {
    for choose in outputs {
        if choose.number == number {
            return &choose.names;
        }
    }
    &[]
}

// x and a number.
fn made_name(alloc: Global, k: usize) -> Result<Text, NoMemory> {
    let mut bytes = Vec::from_slice(alloc, b"x")?;
    put_number(&mut bytes, k)?;
    Ok(Text { bytes })
}

// The name of an output, or where it has none, one that is made.
fn output_name(alloc: Global, names: &[Text], k: usize) -> Result<Text, NoMemory> {
    match names.get(k) {
        Some(name) => name.try_copy(alloc),
        None => made_name(alloc, k),
    }
}

// Names for so many outputs.
fn output_names(alloc: Global, names: &[Text], count: usize) -> Result<Vec<Text>, NoMemory>
    ensures { IfOk result (λ all. length all.items ≡ count) }
{
    let mut all = Vec::new(alloc);
    for k in 0..count {
        all.push(output_name(alloc, names, k)?)?;
    }
    Ok(all)
}

// Adds what is claimed of a choose by its arms, under these names.
fn put_named(
    alloc: Global,
    choose: &Choose<'_>,
    branch: u32,
    scope: &[Text],
    outputs: &[Text],
    arms: &[Arm],
    text: &mut Vec<u8>,
) -> Result<(), ClaimFault>
    requires scope { length scope.now ≡ length choose.now.scope.now }
    requires outputs { length outputs.now ≡ length choose.now.outputs.now }
    ensures { arm_trees arms.now ≡ choose_arms (choose_tree choose.now) → GoalsAnswer (choose_tree choose.now) branch text.old.items text.new.items result }
{
    let claim = Claim {
        number: choose.number,
        branch,
        scope,
        outputs,
        rel: choose.rel,
        arms,
    };
    put_claim(alloc, text, &claim)
}

// Adds what is claimed of a choose by its arms.
fn put_arms(
    wishes: Wishes<'_>,
    choose: &Choose<'_>,
    branch: u32,
    arms: &[Arm],
    text: &mut Vec<u8>,
) -> Result<(), ClaimFault>
    ensures { arm_trees arms.now ≡ choose_arms (choose_tree choose.now) → GoalsAnswer (choose_tree choose.now) branch text.old.items text.new.items result }
{
    let Ok(scope) = scope_names(wishes.alloc, choose.scope) else {
        return Err(ClaimFault::NoMemory);
    };
    let names = wished_names(wishes.outputs, choose.number);
    let Ok(outputs) = output_names(wishes.alloc, names, choose.outputs.len()) else {
        return Err(ClaimFault::NoMemory);
    };
    put_named(wishes.alloc, choose, branch, &scope, &outputs, arms, text)
}

// The same by its solve.
fn put_solve(
    wishes: Wishes<'_>,
    choose: &Choose<'_>,
    branch: u32,
    code: &Code,
    text: &mut Vec<u8>,
) -> Result<(), ClaimFault>
    requires { IsSolve (code_tree code.now) }
    ensures { code_tree code.now ≡ code_solve choose.now.number (choose_arms (choose_tree choose.now)) →
        GoalsAnswer (choose_tree choose.now) branch text.old.items text.new.items result }
{
    match code {
        Code::Solve { arms, .. } => put_arms(wishes, choose, branch, arms, text),
        _ => unreachable!(),
    }
}

// Adds the goals of a solved choose.
fn put_goals(
    wishes: Wishes<'_>,
    choose: &SolvedChoose<'_>,
    branch: u32,
    text: &mut Vec<u8>,
) -> Result<(), ClaimFault>
    ensures { (q : ChooseTree) → IsSolved q choose.now → GoalsAnswer q branch text.old.items text.new.items result }
{
    match choose.solved.code(wishes.alloc, choose.choose.number) {
        Ok(code) => put_solve(wishes, &choose.choose, branch, &code, text),
        Err(_) => Err(ClaimFault::NoMemory),
    }
}

// Which branch of its number comes next.
fn branch_behind(last: u32, next: u32, number: u32) -> u32
    ensures { result ≡ branch_of last next number }
{
    if last == number { next } else { 0 }
}

// Adds the goals of solved chooses.
#[tactic(auto, using(crate::proofs::ClaimedLemmas::claimed_first))]
fn put_all_goals(
    wishes: Wishes<'_>,
    chooses: &[SolvedChoose<'_>],
    text: &mut Vec<u8>,
) -> Result<(), ClaimFault>
    ensures { (qs : List ChooseTree) → AreSolved qs chooses.now → GoalsWritten qs text.old.items text.new.items result }
{
    let mut last = 0;
    let mut next = 0;
    for choose in chooses {
        let number = choose.choose.number;
        let branch = branch_behind(last, next, number);
        put_goals(wishes, choose, branch, text)?;
        last = number;
        next = match add_u32(branch, 1) {
            Ok(next) => next,
            Err(NoMemory) => return Err(ClaimFault::NoMemory),
        };
    }
    Ok(())
}

fn fault_of(fault: ClaimFault) -> Fault
    ensures { (fault ≡ ClaimFault.Sets → result ≡ faults.NoSetsInSmt) × (fault ≡ ClaimFault.NoMemory → result ≡ faults.NoMemory) }
{
    match fault {
        ClaimFault::Sets => Fault::NoSetsInSmt,
        ClaimFault::NoMemory => Fault::NoMemory,
    }
}

// The top of a file, and the goals of the chooses of a program in the order of their numbers; or why it is refused.
fn goals(wishes: Wishes<'_>, source: &[u8], program: &ToldProgram) -> Result<Vec<u8>, Fault>
    ensures { (s : IsToldProgram source.now program.now) → IsVerdict (λ text. AreGoals source.now (in_branches (told_in program.now.formed) []
        (asked_in s.lowered.typed)) text.items) (IsRefusedClaims source.now) result }
{
    let chooses = solve_all(wishes.alloc, program.lowered.typed())?;
    let mut text = Vec::new(wishes.alloc);
    put_head(&mut text, source)?;
    match put_all_goals(wishes, &chooses, &mut text) {
        Ok(()) => Ok(text),
        Err(fault) => Err(fault_of(fault)),
    }
}

// The names of the outputs in a source text.
fn output_wishes(alloc: Global, text: &[u8]) -> Result<Vec<Outputs>, Fault>
    requires short { length text.now ≤ text_limit }
    requires place { length text.now < 2 ^ 32 - 1 }
    ensures { IsVerdict (λ names. ⊤) (IsRefusedClaims text.now) result }
{
    let program = parsed(alloc, edition_of(text), text)?;
    let names = hints(alloc, &program)?;
    Ok(names.outputs)
}

/// Writes the chooses of a source text with their arms, and goals for solvers.
pub fn write_goals<O: Sink>(alloc: Global, text: &[u8], out: &mut O) -> Result<(), Fault>
    requires short { length text.now ≤ text_limit }
    requires place { length text.now < 2 ^ 32 - 1 }
    ensures answers { (file : List ℕ) (given : List Told) (input : SourceSeen) → AnswersOn (the_goals file) given given (text.now ∷ [])
        (streams input (O.seen out.old)) (streams input (O.seen out.new)) result }
    ensures unwritten { IsEarly (the_status_of result) → out.new ≡ out.old }
{
    let program = read_told(alloc, text)?;
    let outputs = output_wishes(alloc, text)?;
    let wishes = Wishes {
        alloc,
        outputs: &outputs,
    };
    let goals = goals(wishes, text, &program)?;
    write_text(out, &goals)
}
