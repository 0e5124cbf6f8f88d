//! What `clap` is told of the words: one level of subcommands, no help and no version.
ghost use Rattle.std.specs.Prelude.{◌≡◌, IfOk, false, codes};
ghost use Rattle.clap.specs.declared.builder.command.Command.TheViews.{out-Command};
ghost use Rattle.clap.specs.Words.{app_of, rule_of, with_rule as adds_rule, with_subcommand as adds_subcommand};
ghost use Rattle.cf_words.specs.Grammar.{emitting_subcommand, flag as the_flag, flagged_subcommand, grammar as the_grammar, operand as the_operand, paired_subcommand, program as the_program, valued as the_valued};

use cf_tree::without;
use clap::{Arg, ArgAction, Command};
use std::alloc::{AllocError, Global};

/// The command line as `clap` reads it.
pub(crate) fn grammar<'a>(alloc: Global) -> Result<Command<'a>, AllocError>
    ensures { IfOk result (λ c. app_of c ≡ the_grammar) }
{
    let running = with_compiling(alloc, program(alloc))?;
    let telling = with_flags(alloc, running, "pre")?;
    let checking = with_flags(alloc, telling, "check")?;
    let executing = with_flags(alloc, checking, "exec")?;
    let verifying = with_certificates(alloc, executing)?;
    with_writing(alloc, verifying)
}

// The program with `compile` and `run`.
fn with_compiling<'a>(alloc: Global, program: Command<'a>) -> Result<Command<'a>, AllocError>
    ensures { IfOk result (λ c. app_of c ≡ adds_subcommand (adds_subcommand (app_of program.entry) (flagged_subcommand (codes "compile")).top)
        (flagged_subcommand (codes "run")).top) }
{
    let compiling = with_flags(alloc, program, "compile")?;
    with_flags(alloc, compiling, "run")
}

// The program with `prove` and `verify`.
fn with_certificates<'a>(alloc: Global, program: Command<'a>) -> Result<Command<'a>, AllocError>
    ensures { IfOk result (λ c. app_of c ≡ adds_subcommand (adds_subcommand (app_of program.entry) (flagged_subcommand (codes "prove")).top)
        (paired_subcommand (codes "verify")).top) }
{
    let proving = with_flags(alloc, program, "prove")?;
    with_pair(alloc, proving, "verify")
}

// The program with `gen` and `emit`.
fn with_writing<'a>(alloc: Global, program: Command<'a>) -> Result<Command<'a>, AllocError>
    ensures { IfOk result (λ c. app_of c ≡ adds_subcommand (adds_subcommand (app_of program.entry) (flagged_subcommand (codes "gen")).top)
        (emitting_subcommand (codes "emit")).top) }
{
    let generating = with_flags(alloc, program, "gen")?;
    with_emitting(alloc, generating, "emit")
}

fn program<'a>(alloc: Global) -> Command<'a>
    ensures { app_of result ≡ the_program }
{
    Command::new(alloc, "comfusy")
        .no_binary_name(true)
        .disable_help_flag(true)
        .disable_help_subcommand(true)
        .subcommand_required(true)
}

// The program with one more subcommand, which takes the six flags and an operand.
fn with_flags<'a>(
    alloc: Global,
    program: Command<'a>,
    name: &'a str,
) -> Result<Command<'a>, AllocError>
    ensures { IfOk result (λ c. app_of c ≡ adds_subcommand (app_of program.entry) (flagged_subcommand name.entry.now).top) }
{
    match flagged(alloc, name) {
        Ok(subcommand) => program.subcommand(subcommand),
        Err(fault) => Err(without(program, fault)),
    }
}

// The program with one more subcommand, which takes two operands and no flag.
fn with_pair<'a>(
    alloc: Global,
    program: Command<'a>,
    name: &'a str,
) -> Result<Command<'a>, AllocError>
    ensures { IfOk result (λ c. app_of c ≡ adds_subcommand (app_of program.entry) (paired_subcommand name.entry.now).top) }
{
    match paired(alloc, name) {
        Ok(subcommand) => program.subcommand(subcommand),
        Err(fault) => Err(without(program, fault)),
    }
}

// The program with one more subcommand, which takes two operands, a flag, and one with a value.
fn with_emitting<'a>(
    alloc: Global,
    program: Command<'a>,
    name: &'a str,
) -> Result<Command<'a>, AllocError>
    ensures { IfOk result (λ c. app_of c ≡ adds_subcommand (app_of program.entry) (emitting_subcommand name.entry.now).top) }
{
    match emitting(alloc, name) {
        Ok(subcommand) => program.subcommand(subcommand),
        Err(fault) => Err(without(program, fault)),
    }
}

fn flagged<'a>(alloc: Global, name: &'a str) -> Result<Command<'a>, AllocError>
    ensures { IfOk result (λ c. (app_of c ≡ flagged_subcommand name.entry.now) × ((out-Command c).has_globals ≡ false)) }
{
    let plain = with_flag(alloc, Command::new(alloc, name), "plain")?;
    let passes = with_flag(alloc, plain, "stats")?;
    let key = with_flag(alloc, passes, "key")?;
    let replies = with_flag(alloc, key, "jsonl")?;
    let strict = with_flag(alloc, replies, "strict")?;
    let all = with_flag(alloc, strict, "unique")?;
    with_operand(alloc, all, "operand")
}

fn paired<'a>(alloc: Global, name: &'a str) -> Result<Command<'a>, AllocError>
    ensures { IfOk result (λ c. (app_of c ≡ paired_subcommand name.entry.now) × ((out-Command c).has_globals ≡ false)) }
{
    let one = with_operand(alloc, Command::new(alloc, name), "file")?;
    with_operand(alloc, one, "steps")
}

fn emitting<'a>(alloc: Global, name: &'a str) -> Result<Command<'a>, AllocError>
    ensures { IfOk result (λ c. (app_of c ≡ emitting_subcommand name.entry.now) × ((out-Command c).has_globals ≡ false)) }
{
    let one = with_operand(alloc, Command::new(alloc, name), "language")?;
    let two = with_operand(alloc, one, "file")?;
    let flagged = with_flag(alloc, two, "main")?;
    with_valued(alloc, flagged, "name")
}

// The command with one more flag.
fn with_flag<'a>(
    alloc: Global,
    command: Command<'a>,
    name: &'a str,
) -> Result<Command<'a>, AllocError>
    requires { (out-Command command).has_globals ≡ false }
    ensures { IfOk result (λ c. (app_of c ≡ adds_rule (app_of command.entry) (the_flag name.entry.now)) × ((out-Command c).has_globals ≡ false)) }
{
    command.arg(flag(alloc, name))
}

// The command with one more flag, which has a value behind it.
fn with_valued<'a>(
    alloc: Global,
    command: Command<'a>,
    name: &'a str,
) -> Result<Command<'a>, AllocError>
    requires { (out-Command command).has_globals ≡ false }
    ensures { IfOk result (λ c. (app_of c ≡ adds_rule (app_of command.entry) (the_valued name.entry.now)) × ((out-Command c).has_globals ≡ false)) }
{
    command.arg(valued(alloc, name))
}

// The command with one more operand.
fn with_operand<'a>(
    alloc: Global,
    command: Command<'a>,
    name: &'a str,
) -> Result<Command<'a>, AllocError>
    requires { (out-Command command).has_globals ≡ false }
    ensures { IfOk result (λ c. (app_of c ≡ adds_rule (app_of command.entry) (the_operand name.entry.now)) × ((out-Command c).has_globals ≡ false)) }
{
    command.arg(operand(alloc, name))
}

fn flag<'a>(alloc: Global, name: &'a str) -> Arg<'a>
    ensures { (rule_of result ≡ the_flag name.entry.now) × (result.global ≡ false) }
{
    Arg::new(alloc, name).long(name).action(ArgAction::SetTrue)
}

fn valued<'a>(alloc: Global, name: &'a str) -> Arg<'a>
    ensures { (rule_of result ≡ the_valued name.entry.now) × (result.global ≡ false) }
{
    Arg::new(alloc, name).long(name)
}

fn operand<'a>(alloc: Global, name: &'a str) -> Arg<'a>
    ensures { (rule_of result ≡ the_operand name.entry.now) × (result.global ≡ false) }
{
    Arg::new(alloc, name).required(true)
}
