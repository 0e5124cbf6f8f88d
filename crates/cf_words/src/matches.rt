//! What `clap` finds in words.
ghost use Rattle.std.specs.Prelude.{◌≡◌, ◌∷◌, [], false, map, string_bytes, Some, IfSome, IfOk, option_map, unwrap_or};
ghost use Rattle.clap.specs.Words.{found_of, rows_of, subcommand_rows_of};
ghost use Rattle.cf_words.specs.Commands.{HasSize, plain_command, plain_emitting};
ghost use Rattle.cf_words.specs.Grammar.{MatchesAnswer, checks_found as the_checks_found, clap_command, command_found as the_command_found, emit_found as the_emit_found, emit_in as the_emit_in, flags_found as the_flags_found, form_found as the_form_found, is_set as the_is_set, name_found as the_name_found, plain_found as the_plain_found, verify_found as the_verify_found};
ghost use Rattle.cf_words.specs.Words.{WordsAnswer, check_for as the_check_for, command_for as the_command_for, emit_goals as the_emit_goals, emit_language as the_emit_language, emit_named as the_emit_named, emit_on as the_emit_on, usual_name, command_without_input as the_command_without_input, exec_for as the_exec_for, run_for as the_run_for, strictness_of as the_strictness_of, verify_for as the_verify_for};

use crate::command::{
    CheckFlags, Command, CommandKind, Emitting, FileCommand, Flags, ReplyForm, Strictness,
};
use crate::fault::{WordsFault, fault_of};
use crate::grammar::grammar;
use crate::language::language_of;
use crate::size::size_of;
use crate::word::is_name;
use cf_print::{may_name, words_of};
use cf_tree::NoMemory;
use clap::ArgMatches;
use std::alloc::Global;

/// What `clap` finds in the words.
///
/// # Errors
/// `Usage` where it takes them for no command.
pub(crate) fn matches_of<'a>(
    alloc: Global,
    words: &'a [String],
) -> Result<ArgMatches<'a>, WordsFault>
    ensures { MatchesAnswer (clap_command (map string_bytes words.entry.now)) result }
{
    let Ok(grammar) = grammar(alloc) else {
        return Err(WordsFault::NoMemory);
    };
    match grammar.try_get_matches_from(words) {
        Ok(matches) => Ok(matches),
        Err(error) => Err(fault_of(&error)),
    }
}

/// The command of a subcommand with what was found for it.
///
/// # Errors
/// `Usage` where that is no command.
pub(crate) fn command_found<'a>(
    alloc: Global,
    matches: &ArgMatches<'a>,
) -> Result<Command<'a>, WordsFault>
    ensures command { WordsAnswer (the_command_found (subcommand_rows_of matches.now)) result }
    ensures size { IfOk result HasSize }
{
    match matches.subcommand() {
        Some((name, found)) => command_behind(alloc, name, found),
        None => Err(WordsFault::Usage),
    }
}

fn command_behind<'a>(
    alloc: Global,
    name: &str,
    found: &ArgMatches<'a>,
) -> Result<Command<'a>, WordsFault>
    ensures command { WordsAnswer (the_command_found (Some (name.now, rows_of (found_of found.now)))) result }
    ensures size { IfOk result HasSize }
{
    if name == "emit" {
        return emit_found(alloc, found);
    }
    match plain_found(name, found) {
        Some(command) => Ok(command),
        None => Err(WordsFault::Usage),
    }
}

// The command of a subcommand that is not `emit`.
fn plain_found<'a>(name: &str, found: &ArgMatches<'a>) -> Option<Command<'a>>
    ensures command { option_map plain_command result ≡ the_plain_found name.now (rows_of (found_of found.now)) }
    ensures size { IfSome result HasSize }
{
    if name == "verify" {
        return verify_found(found);
    }
    let operand = found.get_str("operand")?;
    command_for(
        name,
        flags_found(found),
        form_found(found),
        checks_found(found),
        operand,
    )
}

// The command `emit` on what was found.
fn emit_found<'a>(alloc: Global, found: &ArgMatches<'a>) -> Result<Command<'a>, WordsFault>
    ensures command { WordsAnswer (the_emit_found (rows_of (found_of found.now))) result }
    ensures size { IfOk result HasSize }
{
    match found.get_str("language") {
        Some(language) => emit_in(alloc, language, found),
        None => Err(WordsFault::Usage),
    }
}

// The same in the language of this word.
fn emit_in<'a>(
    alloc: Global,
    language: &str,
    found: &ArgMatches<'a>,
) -> Result<Command<'a>, WordsFault>
    ensures command { WordsAnswer (the_emit_in language.now (rows_of (found_of found.now))) result }
    ensures size { IfOk result HasSize }
{
    match found.get_str("file") {
        Some(file) => emit_on(
            alloc,
            language,
            is_set(found, "main"),
            name_found(found),
            file,
        ),
        None => Err(WordsFault::Usage),
    }
}

// The name that was found.
fn name_found<'a>(found: &ArgMatches<'a>) -> Option<&'a str>
    ensures { option_map (λ n. n.now) result ≡ the_name_found (rows_of (found_of found.now)) }
{
    found.get_str("name")
}

// The command `emit` for this word, with a name or none.
fn emit_on<'a>(
    alloc: Global,
    word: &str,
    has_main: bool,
    name: Option<&'a str>,
    file: &'a str,
) -> Result<Command<'a>, WordsFault>
    ensures command { WordsAnswer (the_emit_on word.now has_main (option_map (λ n. n.now) name.entry) file.now) result }
    ensures size { IfOk result HasSize }
{
    if word == "smt" {
        return emit_goals(has_main, name, file);
    }
    emit_language(alloc, word, has_main, name, file)
}

// Goals for solvers, where neither flag stands.
fn emit_goals<'a>(
    has_main: bool,
    name: Option<&'a str>,
    file: &'a str,
) -> Result<Command<'a>, WordsFault>
    ensures command { WordsAnswer (the_emit_goals has_main (option_map (λ n. n.now) name.entry) file.now) result }
    ensures size { IfOk result HasSize }
{
    match name {
        Some(_) => Err(WordsFault::Usage),
        None => if has_main {
            Err(WordsFault::Usage)
        } else {
            Ok(goals(file))
        },
    }
}

fn goals<'a>(file: &'a str) -> Command<'a>
    ensures { result ≡ Command.OnFile (record {
      kind = CommandKind.Goals;
      flags = record { plain = false; stats = false };
      form = record { key = false; jsonl = false };
      file = file.entry;
    }) }
{
    let flags = Flags {
        plain: false,
        stats: false,
    };
    silent(CommandKind::Goals, flags, file)
}

// A name, or the usual one.
fn name_or_usual<'a>(name: Option<&'a str>) -> &'a str
    ensures { result.now ≡ unwrap_or (option_map (λ n. n.now) name.entry) usual_name }
{
    match name {
        Some(name) => name,
        None => "answer",
    }
}

// A program of a language that there is, and a name that a function may have there.
fn emit_language<'a>(
    alloc: Global,
    word: &str,
    has_main: bool,
    name: Option<&'a str>,
    file: &'a str,
) -> Result<Command<'a>, WordsFault>
    ensures command { WordsAnswer (the_emit_language word.now has_main (option_map (λ n. n.now) name.entry) file.now) result }
    ensures size { IfOk result HasSize }
{
    match language_of(word) {
        Some(language) => {
            let emitting = Emitting {
                language,
                has_main,
                name: name_or_usual(name),
            };
            emit_named(alloc, emitting, file)
        }
        None => Err(WordsFault::Usage),
    }
}

// The same, where the language is known.
fn emit_named<'a>(
    alloc: Global,
    emitting: Emitting<'a>,
    file: &'a str,
) -> Result<Command<'a>, WordsFault>
    ensures command { WordsAnswer (the_emit_named (plain_emitting emitting.entry) file.now) result }
    ensures size { IfOk result HasSize }
{
    match may_name(alloc, words_of(emitting.language), emitting.name.as_bytes()) {
        Ok(may) => if may {
            Ok(emit(emitting, file))
        } else {
            Err(WordsFault::Usage)
        },
        Err(NoMemory) => Err(WordsFault::NoMemory),
    }
}

fn emit<'a>(emitting: Emitting<'a>, file: &'a str) -> Command<'a>
    ensures { result ≡ Command.OnFile (record {
      kind = CommandKind.Emit emitting.entry;
      flags = record { plain = false; stats = false };
      form = record { key = false; jsonl = false };
      file = file.entry;
    }) }
{
    let flags = Flags {
        plain: false,
        stats: false,
    };
    silent(CommandKind::Emit(emitting), flags, file)
}

// The command `verify` on the two operands that were found.
fn verify_found<'a>(found: &ArgMatches<'a>) -> Option<Command<'a>>
    ensures command { option_map plain_command result ≡ the_verify_found (rows_of (found_of found.now)) }
    ensures size { IfSome result HasSize }
{
    let file = found.get_str("file")?;
    let steps = found.get_str("steps")?;
    verify_for(file, steps)
}

// The command `verify`, where both operands are names.
fn verify_for<'a>(file: &'a str, steps: &'a str) -> Option<Command<'a>>
    ensures command { option_map plain_command result ≡ the_verify_for (file.now ∷ steps.now ∷ []) }
    ensures size { IfSome result HasSize }
{
    if is_name(file.as_bytes()) && is_name(steps.as_bytes()) {
        Some(Command::Verify { file, steps })
    } else {
        None
    }
}

fn flags_found(found: &ArgMatches<'_>) -> Flags
    ensures { result ≡ the_flags_found (rows_of (found_of found.now)) }
{
    Flags {
        plain: is_set(found, "plain"),
        stats: is_set(found, "stats"),
    }
}

fn form_found(found: &ArgMatches<'_>) -> ReplyForm
    ensures { result ≡ the_form_found (rows_of (found_of found.now)) }
{
    ReplyForm {
        key: is_set(found, "key"),
        jsonl: is_set(found, "jsonl"),
    }
}

fn checks_found(found: &ArgMatches<'_>) -> CheckFlags
    ensures { result ≡ the_checks_found (rows_of (found_of found.now)) }
{
    CheckFlags {
        strict: is_set(found, "strict"),
        unique: is_set(found, "unique"),
    }
}

fn is_set(found: &ArgMatches<'_>, flag: &str) -> bool
    ensures { result ≡ the_is_set flag.now (rows_of (found_of found.now)) }
{
    match found.get_str(flag) {
        Some(text) => text == "true",
        None => false,
    }
}

// The command of a first word, with these flags and this operand.
fn command_for<'a>(
    first: &str,
    flags: Flags,
    form: ReplyForm,
    checks: CheckFlags,
    operand: &'a str,
) -> Option<Command<'a>>
    ensures command { option_map plain_command result ≡ the_command_for first.now flags form checks operand.now }
    ensures size { IfSome result HasSize }
{
    if first == "check" {
        check_for(flags, form, checks, operand)
    } else if checks.strict || checks.unique {
        None
    } else if first == "run" {
        run_for(flags, form, operand)
    } else if first == "exec" {
        exec_for(flags, form, operand)
    } else if form.key || form.jsonl {
        None
    } else {
        command_without_input(first, flags, operand)
    }
}

// The command `check`, where nothing is asked of the passes or of replies, and its flags say how strict
// it is.
fn check_for<'a>(
    flags: Flags,
    form: ReplyForm,
    checks: CheckFlags,
    operand: &'a str,
) -> Option<Command<'a>>
    ensures command { option_map plain_command result ≡ the_check_for flags form checks operand.now }
    ensures size { IfSome result HasSize }
{
    if flags.plain || flags.stats {
        return None;
    }
    if form.key || form.jsonl {
        return None;
    }
    match strictness_of(checks) {
        Some(strictness) => Some(silent(CommandKind::Check(strictness), flags, operand)),
        None => None,
    }
}

// How strict `check` is with these flags; `--unique` stands beside `--strict`.
fn strictness_of(checks: CheckFlags) -> Option<Strictness>
    ensures { result ≡ the_strictness_of checks }
{
    if checks.strict && checks.unique {
        Some(Strictness::Unique)
    } else if checks.strict {
        Some(Strictness::Existing)
    } else if checks.unique {
        None
    } else {
        Some(Strictness::Told)
    }
}

// The command `run`, where the operand is a name.
fn run_for<'a>(flags: Flags, form: ReplyForm, operand: &'a str) -> Option<Command<'a>>
    ensures command { option_map plain_command result ≡ the_run_for flags form operand.now }
    ensures size { IfSome result HasSize }
{
    if is_name(operand.as_bytes()) {
        Some(on_file(CommandKind::Run, flags, form, operand))
    } else {
        None
    }
}

// The command `exec`, where the operand is a name and nothing is asked of the passes.
fn exec_for<'a>(flags: Flags, form: ReplyForm, operand: &'a str) -> Option<Command<'a>>
    ensures command { option_map plain_command result ≡ the_exec_for flags form operand.now }
    ensures size { IfSome result HasSize }
{
    if is_name(operand.as_bytes()) && !(flags.plain || flags.stats) {
        Some(on_file(CommandKind::Exec, flags, form, operand))
    } else {
        None
    }
}

// The command of a first word that reads no input.
fn command_without_input<'a>(first: &str, flags: Flags, operand: &'a str) -> Option<Command<'a>>
    ensures command { option_map plain_command result ≡ the_command_without_input first.now flags operand.now }
    ensures size { IfSome result HasSize }
{
    if first == "compile" {
        Some(silent(CommandKind::Compile, flags, operand))
    } else if flags.plain || flags.stats {
        None
    } else if first == "pre" {
        Some(silent(CommandKind::Pre, flags, operand))
    } else if first == "prove" {
        Some(silent(CommandKind::Prove, flags, operand))
    } else if first == "gen" {
        Some(Command::Gen(size_of(operand)?))
    } else {
        None
    }
}

// A command that replies to nothing.
fn silent<'a>(kind: CommandKind<'a>, flags: Flags, file: &'a str) -> Command<'a>
    ensures { result ≡ Command.OnFile (record { kind = kind.entry; flags = flags; form = record { key = false; jsonl = false }; file = file.entry }) }
{
    let form = ReplyForm {
        key: false,
        jsonl: false,
    };
    on_file(kind, flags, form, file)
}

fn on_file<'a>(kind: CommandKind<'a>, flags: Flags, form: ReplyForm, file: &'a str) -> Command<'a>
    ensures { result ≡ Command.OnFile (record { kind = kind.entry; flags = flags; form = form; file = file.entry }) }
{
    Command::OnFile(FileCommand {
        kind,
        flags,
        form,
        file,
    })
}
