//! From the text of a source to its program and its target.
ghost use Rattle.std.specs.Prelude.{◌≡◌, ◌≤◌, ◌<◌, ◌-◌, ◌^◌, Bool, true, List, ℕ, length, map, IfOk, Ok, OnErr};
ghost use Rattle.cf_tree.specs.declared.base.Edition.TheVariants.{Two, Three};
ghost use Rattle.cf_tree.specs.DefView.{program_tree};
ghost use Rattle.cf_lex.specs.Editions.{edition_of as the_edition_of};
ghost use Rattle.cf_pass.specs.Passes.{Told};
ghost use Rattle.cf_program.specs.Source.{IsSpelledProgram};
ghost use Rattle.cf_program.specs.Checked.{checked as checked_by};
ghost use Rattle.cf_program.specs.Typed.{typed_tree};
ghost use Rattle.cf_program.specs.declared.linearity.Linearity.TheVariants.{Plain, Late as LateRule};
ghost use Rattle.cf_answer.specs.declared.fault.Fault.TheVariants.{Rule};
ghost use Rattle.cf_answer.specs.Limits.{text_limit};
ghost use Rattle.cf_answer.specs.Owed.{IsCompiledBy};
ghost use Rattle.cf_answer.specs.Refusals.{IsBroken, IsBrokenSource, IsRefusedSource, IsRefusedRun};
ghost use Rattle.cf_answer.specs.Sources.{SpellsProgram, IsTypedBy, IsTypedSource, IsLoweredSource};
ghost use Rattle.cf_form.specs.ToldView.{told_choose};
ghost use Rattle.cf_answer.specs.Verifying.{edition_in, told_in, IsToldProgram};
ghost use Rattle.cf_answer.specs.Steps.{IsVerdict, IsCheckedProgram, IsCheckedSource, IsFormedProgram, IsFormedSource, IsMisspelled, IsNamedRunner, IsRunner, answerer_of};

use crate::answerer::{Answerer, Runner};
use crate::beside::unused_lines;
use crate::fault::Fault;
use crate::names::result_names;
use crate::text::lexed;
use cf_advice::{Spot, spots_of, unused_params};
use cf_build::build;
use cf_form::{ChooseInfo, Formed, form, form_late};
use cf_lex::edition_of;
use cf_match::{Lowered, lower};
use cf_parse::{ParseFault, program};
use cf_pass::Pass;
use cf_program::{Late, Source, TypeFault, Typed};
use cf_tree::{Edition, NoMemory, Program, Target};
use cf_type::{check, check_late, check_late_source, check_source};
use std::alloc::Global;

/// The program that a source text spells, with the forms of language 2, or why the text is refused,
/// whatever its chooses are.
pub fn read_source(alloc: Global, text: &[u8]) -> Result<Typed, Fault>
    requires short { length text.now ≤ text_limit }
    requires place { length text.now < 2 ^ 32 - 1 }
    ensures { IsVerdict (λ x. IsTypedSource text.now (typed_tree x)) (IsBrokenSource text.now) result }
{
    let edition = edition_of(text);
    let program = parsed(alloc, edition, text)?;
    typed(alloc, edition, &program)
}

/// The tree that a source text spells, whatever rules it breaks.
pub(crate) fn parsed(alloc: Global, edition: Edition, text: &[u8]) -> Result<Program, Fault>
    requires short { length text.now ≤ text_limit }
    requires place { length text.now < 2 ^ 32 - 1 }
    requires edition { edition ≡ the_edition_of text.now }
    ensures verdict { IsVerdict (λ x. SpellsProgram text.now (program_tree x)) (IsMisspelled text.now) result }
    ensures numbers { IfOk result (λ x. IsSpelledProgram edition (program_tree x)) }
{
    let list = lexed(alloc, edition, text)?;
    match program(alloc, edition, &list) {
        Ok(program) => Ok(program),
        Err(ParseFault::Syntax(place)) => Err(Fault::Syntax(place)),
        Err(ParseFault::NoMemory) => Err(Fault::NoMemory),
    }
}

/// A program with its types, and with the forms of language 2.
pub(crate) fn typed(alloc: Global, edition: Edition, program: &Program) -> Result<Typed, Fault>
    requires { IsSpelledProgram edition (program_tree program.now) }
    ensures { IsVerdict (λ x. IsTypedBy edition Plain (program_tree program.now) (typed_tree x)) (IsBroken edition Plain (program_tree program.now)) result }
{
    match edition {
        Edition::Two => checked(alloc, program),
        Edition::Three => formed(alloc, program),
    }
}

fn checked(alloc: Global, program: &Program) -> Result<Typed, Fault>
    requires { IsSpelledProgram Two (program_tree program.now) }
    ensures { IsVerdict (λ x. IsTypedBy Two Plain (program_tree program.now) (typed_tree x)) (IsBroken Two Plain (program_tree program.now)) result }
{
    match check(alloc, program) {
        Ok(typed) => Ok(typed),
        Err(TypeFault::NoMemory) => Err(Fault::NoMemory),
        Err(fault) => Err(Fault::Rule(fault)),
    }
}

fn formed(alloc: Global, program: &Program) -> Result<Typed, Fault>
    requires { IsSpelledProgram Three (program_tree program.now) }
    ensures { IsVerdict (λ x. IsTypedBy Three Plain (program_tree program.now) (typed_tree x)) (IsBroken Three Plain (program_tree program.now)) result }
{
    let formed = formed_program(alloc, program)?;
    Ok(formed.into_typed())
}

// A program of edition 3 with the forms of language 2, and what is told of its chooses.
fn formed_program(alloc: Global, program: &Program) -> Result<Formed, Fault>
    requires { IsSpelledProgram Three (program_tree program.now) }
    ensures { IsVerdict (IsFormedProgram (program_tree program.now)) (IsBroken Three Plain (program_tree program.now)) result }
{
    match check_source(alloc, program) {
        Ok(source) => {
            let formed = form(alloc, &source)?;
            Ok(formed)
        }
        Err(TypeFault::NoMemory) => Err(Fault::NoMemory),
        Err(fault) => Err(Fault::Rule(fault)),
    }
}

/// A program of edition 3 with the forms of language 2, what stands at its numbers, and the lines of `check` on
/// its parameters.
#[derive(Drop)]
pub struct CheckedSource {
    pub formed: Formed,
    pub spots: Vec<Spot>,
    pub unused: Vec<u8>,
}

/// The program that a source text of edition 3 in a file of this name spells, as it is checked; or why the text
/// is refused, whatever its chooses are.
pub(crate) fn read_checked(alloc: Global, name: &[u8], text: &[u8]) -> Result<CheckedSource, Fault>
    requires short { length text.now ≤ text_limit }
    requires place { length text.now < 2 ^ 32 - 1 }
    requires edition { the_edition_of text.now ≡ Three }
    ensures { IsVerdict (IsCheckedSource name.now text.now) (IsBrokenSource text.now) result }
{
    let program = parsed(alloc, Edition::Three, text)?;
    checked_program(alloc, name, &program)
}

// The same of a program.
fn checked_program(alloc: Global, name: &[u8], program: &Program) -> Result<CheckedSource, Fault>
    requires { IsSpelledProgram Three (program_tree program.now) }
    ensures { IsVerdict (IsCheckedProgram name.now (program_tree program.now)) (IsBroken Three Plain (program_tree program.now)) result }
{
    match check_source(alloc, program) {
        Ok(source) => with_advice(alloc, name, program, &source),
        Err(TypeFault::NoMemory) => Err(Fault::NoMemory),
        Err(fault) => Err(Fault::Rule(fault)),
    }
}

// The same, where this is the program with its types.
fn with_advice(
    alloc: Global,
    name: &[u8],
    program: &Program,
    source: &Source,
) -> Result<CheckedSource, Fault>
    requires { checked_by Three Plain (program_tree program.now) ≡ Ok (typed_tree source.now) }
    ensures { IsVerdict (IsCheckedProgram name.now (program_tree program.now)) (IsBroken Three Plain (program_tree program.now)) result }
{
    let spots = spots_of(alloc, program)?;
    let params = unused_params(alloc, source.defs())?;
    let unused = unused_lines(alloc, name, &params)?;
    let formed = form(alloc, source)?;
    Ok(CheckedSource {
        formed,
        spots,
        unused,
    })
}

/// The program that a source text of edition 3 spells, with the forms of language 2, and what is told
/// of its chooses; or why the text is refused, whatever its chooses are.
pub fn read_formed(alloc: Global, text: &[u8]) -> Result<Formed, Fault>
    requires short { length text.now ≤ text_limit }
    requires place { length text.now < 2 ^ 32 - 1 }
    requires edition { the_edition_of text.now ≡ Three }
    ensures { IsVerdict (IsFormedSource text.now) (IsBrokenSource text.now) result }
{
    let program = parsed(alloc, Edition::Three, text)?;
    formed_program(alloc, &program)
}

/// The program that a source text spells, with its matches taken apart, or why the text is refused,
/// whatever its chooses are.
pub fn read_lowered(alloc: Global, text: &[u8]) -> Result<Lowered, Fault>
    requires short { length text.now ≤ text_limit }
    requires place { length text.now < 2 ^ 32 - 1 }
    ensures { IsVerdict (IsLoweredSource text.now) (IsBrokenSource text.now) result }
{
    let typed = read_source(alloc, text)?;
    // for the proof: the rules of a typed program are told by its methods alone.
    let _ = typed.main();
    let lowered = lower(alloc, &typed)?;
    Ok(lowered)
}

/// A program with its matches taken apart, and where it is of edition 3, what is told of the chooses of
/// its source.
#[derive(Drop)]
pub struct ToldProgram {
    pub lowered: Lowered,
    pub formed: Option<Formed>,
}

impl ToldProgram {
    /// The edition of its source.
    pub fn edition(&self) -> Edition
        ensures { result ≡ edition_in self.now.formed }
    {
        match &self.formed {
            Some(_) => Edition::Three,
            None => Edition::Two,
        }
    }

    /// What is told of the chooses of its source; nothing of those of language 2.
    pub fn chooses(&self) -> &[ChooseInfo]
        ensures { map told_choose result.now ≡ told_in self.now.formed }
    {
        match &self.formed {
            Some(formed) => formed.chooses(),
            None => &[],
        }
    }
}

/// The program that a source text spells, with its matches taken apart, and what is told of the
/// chooses of the source; or why the text is refused, whatever its chooses are.
pub fn read_told(alloc: Global, text: &[u8]) -> Result<ToldProgram, Fault>
    requires short { length text.now ≤ text_limit }
    requires place { length text.now < 2 ^ 32 - 1 }
    ensures { IsVerdict (IsToldProgram text.now) (IsBrokenSource text.now) result }
{
    match edition_of(text) {
        Edition::Two => {
            let lowered = read_lowered(alloc, text)?;
            let formed = None;
            Ok(ToldProgram { lowered, formed })
        }
        Edition::Three => told_in_three(alloc, text),
    }
}

// The same of edition 3.
fn told_in_three(alloc: Global, text: &[u8]) -> Result<ToldProgram, Fault>
    requires short { length text.now ≤ text_limit }
    requires place { length text.now < 2 ^ 32 - 1 }
    requires edition { the_edition_of text.now ≡ Three }
    ensures { IsVerdict (IsToldProgram text.now) (IsBrokenSource text.now) result }
{
    let formed = read_formed(alloc, text)?;
    let typed = formed.typed();
    // for the proof: the rules of a typed program are told by its methods alone.
    let _ = typed.main();
    match lower(alloc, typed) {
        Ok(lowered) => Ok(ToldProgram {
            lowered,
            formed: Some(formed),
        }),
        Err(NoMemory) => Err(Fault::NoMemory),
    }
}

/// The target that a source text is compiled to by these passes, or why the text is refused.
pub fn target_of_text(
    alloc: Global,
    text: &[u8],
    passes: &mut Vec<Box<dyn Pass>>,
) -> Result<Target, Fault>
    requires short { length text.now ≤ text_limit }
    requires place { length text.now < 2 ^ 32 - 1 }
    ensures verdict { IsVerdict (IsCompiledBy true text.now (map (λ p. told p) passes.old.items) (map (λ p. told p) passes.new.items))
        (IsRefusedSource text.now) result }
    ensures kept { OnErr result (map (λ p. told p) passes.new.items ≡ map (λ p. told p) passes.old.items) }
{
    let typed = read_source(alloc, text)?;
    let target = build(alloc, &typed, passes)?;
    Ok(target)
}

/// What answers the lines for `run` of a source text: the target that it is compiled to by these
/// passes, or where it is linear only once the numbers in scope are known, its late program; with the
/// names of its results. Or why the text is refused.
pub fn runner(alloc: Global, text: &[u8], passes: &mut Vec<Box<dyn Pass>>) -> Result<Runner, Fault>
    requires short { length text.now ≤ text_limit }
    requires place { length text.now < 2 ^ 32 - 1 }
    ensures verdict { IsVerdict (IsNamedRunner true text.now (map (λ p. told p) passes.old.items) (map (λ p. told p) passes.new.items))
        (IsRefusedRun text.now) result }
    ensures kept { OnErr result (map (λ p. told p) passes.new.items ≡ map (λ p. told p) passes.old.items) }
{
    let edition = edition_of(text);
    let program = parsed(alloc, edition, text)?;
    let names = result_names(alloc, &program)?;
    let answerer = program_answerer(alloc, edition, &program, passes)?;
    Ok(Runner { answerer, names })
}

fn program_answerer(
    alloc: Global,
    edition: Edition,
    program: &Program,
    passes: &mut Vec<Box<dyn Pass>>,
) -> Result<Answerer, Fault>
    requires { IsSpelledProgram edition (program_tree program.now) }
    ensures verdict { (text : List ℕ) → edition ≡ the_edition_of text → SpellsProgram text (program_tree program.now) →
        IsVerdict (λ a. IsRunner true text (map (λ p. told p) passes.old.items) (map (λ p. told p) passes.new.items) (answerer_of a))
        (IsRefusedRun text) result }
    ensures kept { OnErr result (map (λ p. told p) passes.new.items ≡ map (λ p. told p) passes.old.items) }
{
    match typed(alloc, edition, program) {
        Ok(typed) => {
            let target = build(alloc, &typed, passes)?;
            Ok(Answerer::Target(target))
        }
        Err(Fault::Rule(fault)) => late_answerer(alloc, edition, program, fault),
        Err(fault) => Err(fault),
    }
}

// What answers the lines of a program that breaks this rule: where it is that on linear relations, its
// late program.
fn late_answerer(
    alloc: Global,
    edition: Edition,
    program: &Program,
    fault: TypeFault,
) -> Result<Answerer, Fault>
    requires spelled { IsSpelledProgram edition (program_tree program.now) }
    requires broken { IsBroken edition Plain (program_tree program.now) (Rule fault) }
    ensures { (text : List ℕ) → edition ≡ the_edition_of text → SpellsProgram text (program_tree program.now) → (calls : Bool) (given : List Told) →
        IsVerdict (λ a. IsRunner calls text given given (answerer_of a)) (IsRefusedRun text) result }
{
    match fault {
        TypeFault::NotLinear(_place) => {
            let late = late(alloc, edition, program)?;
            Ok(Answerer::Late(late))
        }
        other => Err(Fault::Rule(other)),
    }
}

// A program that is not linear, as a late one with the forms of language 2.
fn late(alloc: Global, edition: Edition, program: &Program) -> Result<Late, Fault>
    requires { IsSpelledProgram edition (program_tree program.now) }
    ensures { IsVerdict (λ x. IsTypedBy edition LateRule (program_tree program.now) (typed_tree x)) (IsBroken edition LateRule (program_tree program.now))
        result }
{
    match edition {
        Edition::Two => checked_late(alloc, program),
        Edition::Three => formed_late(alloc, program),
    }
}

fn checked_late(alloc: Global, program: &Program) -> Result<Late, Fault>
    requires { IsSpelledProgram Two (program_tree program.now) }
    ensures { IsVerdict (λ x. IsTypedBy Two LateRule (program_tree program.now) (typed_tree x)) (IsBroken Two LateRule (program_tree program.now)) result }
{
    match check_late(alloc, program) {
        Ok(late) => Ok(late),
        Err(TypeFault::NoMemory) => Err(Fault::NoMemory),
        Err(fault) => Err(Fault::Rule(fault)),
    }
}

fn formed_late(alloc: Global, program: &Program) -> Result<Late, Fault>
    requires { IsSpelledProgram Three (program_tree program.now) }
    ensures { IsVerdict (λ x. IsTypedBy Three LateRule (program_tree program.now) (typed_tree x)) (IsBroken Three LateRule (program_tree program.now)) result }
{
    match check_late_source(alloc, program) {
        Ok(source) => {
            let formed = form_late(alloc, &source)?;
            Ok(formed.into_late())
        }
        Err(TypeFault::NoMemory) => Err(Fault::NoMemory),
        Err(fault) => Err(Fault::Rule(fault)),
    }
}
