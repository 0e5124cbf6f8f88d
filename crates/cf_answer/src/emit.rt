//! `emit`: the target of a source as a program of another language.
ghost use Rattle.std.specs.Prelude.{◌≡◌, ◌||◌, ◌≤◌, ◌<◌, ◌-◌, ◌^◌, ◌∷◌, [], List, ℕ, false, length, map, IfOk, OnErr, OnOk};
ghost use Rattle.std.specs.List.{list_any};
ghost use Rattle.cf_io.specs.Seen.{SourceSeen};
ghost use Rattle.cf_tree.specs.CodeView.{code_tree};
ghost use Rattle.cf_tree.specs.DefView.{program_tree};
ghost use Rattle.cf_lex.specs.Editions.{edition_of as the_edition_of};
ghost use Rattle.cf_pass.specs.Passes.{HaveTurned};
ghost use Rattle.cf_program.specs.Source.{IsSpelledProgram};
ghost use Rattle.cf_program.specs.Typed.{typed_tree};
ghost use Rattle.cf_print_program.specs.Printed.{IsPrint, has_sets as has_sets_in};
ghost use Rattle.cf_print_shape.specs.Sets.{is_set, uses_sets as uses_sets_in};
ghost use Rattle.cf_stmt.specs.BlockView.{block_tree};
ghost use Rattle.cf_words.specs.Commands.{emit as the_emit, plain_emitting};
ghost use Rattle.cf_answer.specs.Emitting.{AnswersAs, CompilesIn, IsEmitted, lacks_sets as lacks_sets_in, printing};
ghost use Rattle.cf_answer.specs.Ends.{AnswersOn};
ghost use Rattle.cf_answer.specs.Limits.{text_limit};
ghost use Rattle.cf_answer.specs.Outside.{streams};
ghost use Rattle.cf_answer.specs.Refusals.{IsRefusedEmission};
ghost use Rattle.cf_answer.specs.Sources.{SpellsProgram, IsTypedSource};
ghost use Rattle.cf_answer.specs.Statuses.{status_of as the_status_of, IsEarly};
ghost use Rattle.cf_answer.specs.Steps.{IsVerdict};

use crate::fault::Fault;
use crate::source::{parsed, typed};
use crate::write::write_text;
use cf_build::build;
use cf_hints::hints;
use cf_io::Sink;
use cf_lex::edition_of;
use cf_pass::Pass;
use cf_print::Language;
use cf_print_program::{Emission, EmitFault, Hints, emitted};
use cf_print_shape::{has_set, uses_sets};
use cf_program::Typed;
use cf_range::{param_ranges, tidied};
use cf_stmt::{Block, statements};
use cf_tree::{Edition, NoMemory, Program, Target, Text};
use cf_words::Emitting;
use std::alloc::Global;

fn has_sets(language: Language) -> bool
    ensures { result ≡ has_sets_in language }
{
    match language {
        Language::C => false,
        Language::Python | Language::JavaScript | Language::Rust => true,
    }
}

// Whether a parameter, a result or a part of a target is a set.
fn has_a_set(target: &Target) -> bool
    ensures { result ≡ (list_any is_set target.now.params.items || (list_any is_set target.now.results.items || uses_sets_in (code_tree target.now.code))) }
{
    has_set(target.params()) || has_set(target.results()) || uses_sets(target.body())
}

// Refuses a program in which a set stands, where the language has none.
fn check_sets(alloc: Global, language: Language, typed: &Typed) -> Result<(), Fault>
    ensures { (text : List ℕ) → IsTypedSource text (typed_tree typed.now) →
        IsVerdict (λ done. lacks_sets_in language (typed_tree typed.now) ≡ false) (IsRefusedEmission language text) result }
{
    if has_sets(language) {
        return Ok(());
    }
    check_without_sets(alloc, language, typed)
}

// The same of a language that has none. The program is built without passes, since these may take sets away.
fn check_without_sets(alloc: Global, language: Language, typed: &Typed) -> Result<(), Fault>
    requires { has_sets_in language ≡ false }
    ensures { (text : List ℕ) → IsTypedSource text (typed_tree typed.now) →
        IsVerdict (λ done. lacks_sets_in language (typed_tree typed.now) ≡ false) (IsRefusedEmission language text) result }
{
    let target = build(alloc, typed, &mut Vec::new(alloc))?;
    if has_a_set(&target) {
        return Err(Fault::NoSetsInC);
    }
    Ok(())
}

// The target of a program, rewritten by the passes, where it has a form in the language.
fn compiled(
    alloc: Global,
    language: Language,
    edition: Edition,
    program: &Program,
    passes: &mut Vec<Box<dyn Pass>>,
) -> Result<Target, Fault>
    requires { IsSpelledProgram edition (program_tree program.now) }
    ensures verdict { (text : List ℕ) → edition ≡ the_edition_of text → SpellsProgram text (program_tree program.now) →
        IsVerdict (CompilesIn language (map (λ p. told p) passes.old.items) (map (λ p. told p) passes.new.items) text)
        (IsRefusedEmission language text) result }
    ensures turned { OnOk result (HaveTurned (map (λ p. told p) passes.old.items) (map (λ p. told p) passes.new.items)) }
    ensures kept { OnErr result (map (λ p. told p) passes.new.items ≡ map (λ p. told p) passes.old.items) }
{
    let typed = typed(alloc, edition, program)?;
    check_sets(alloc, language, &typed)?;
    let target = build(alloc, &typed, passes)?;
    Ok(target)
}

// Statements that answer as a target.
fn body_of(alloc: Global, target: &Target) -> Result<Box<Block>, NoMemory>
    ensures { IfOk result (λ b. AnswersAs (block_tree b.value) target.now) }
{
    let ranges = param_ranges(alloc, target.params())?;
    let code = tidied(alloc, &ranges, target.body())?;
    statements(alloc, &code)
}

// A print of statements. None of them has a set that the target had not before it was rewritten.
fn print_of(
    alloc: Global,
    emitting: &Emitting<'_>,
    source: &[u8],
    hints: &Hints,
    target: &Target,
    body: &Block,
) -> Result<Text, NoMemory>
    ensures { IfOk result (λ text. IsPrint (printing (plain_emitting emitting.now) source.now target.now (block_tree body.now)) text) }
{
    let emission = Emission {
        language: emitting.language,
        has_main: emitting.has_main,
        name: emitting.name.as_bytes(),
        source,
        hints,
        params: target.params(),
        results: target.results(),
        body,
    };
    match emitted(alloc, &emission) {
        Ok(text) => Ok(text),
        Err(EmitFault::Sets) | Err(EmitFault::NoMemory) => Err(NoMemory),
    }
}

// The program of a target.
fn printed(
    alloc: Global,
    emitting: &Emitting<'_>,
    source: &[u8],
    program: &Program,
    target: &Target,
) -> Result<Text, NoMemory>
    ensures { IfOk result (λ text. IsEmitted (plain_emitting emitting.now) source.now target.now text) }
{
    let hints = hints(alloc, program)?;
    let body = body_of(alloc, target)?;
    print_of(alloc, emitting, source, &hints, target, &body)
}

/// Writes the target that a source text is compiled to by the passes as a program of another language.
pub fn write_emitted<O: Sink>(
    alloc: Global,
    emitting: &Emitting<'_>,
    text: &[u8],
    out: &mut O,
    passes: &mut Vec<Box<dyn Pass>>,
) -> Result<(), Fault>
    requires short { length text.now ≤ text_limit }
    requires place { length text.now < 2 ^ 32 - 1 }
    ensures answers { (file : List ℕ) (input : SourceSeen) →
        AnswersOn (the_emit (plain_emitting emitting.now) file) (map (λ p. told p) passes.old.items) (map (λ p. told p) passes.new.items) (text.now ∷ [])
        (streams input (O.seen out.old)) (streams input (O.seen out.new)) result }
    ensures unwritten { IsEarly (the_status_of result) → out.new ≡ out.old }
{
    let edition = edition_of(text);
    let program = parsed(alloc, edition, text)?;
    let target = compiled(alloc, emitting.language, edition, &program, passes)?;
    let printed = printed(alloc, emitting, text, &program, &target)?;
    write_text(out, &printed.bytes)
}
