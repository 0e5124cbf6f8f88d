//! Opening what answers lines.
ghost use Rattle.std.specs.Prelude.{◌≡◌, ◌≤◌, ◌<◌, ◌+◌, ◌-◌, ◌^◌, ◌∷◌, [], ℕ, List, true, Some, length, map, string_bytes};
ghost use Rattle.cf_pass.specs.Passes.{Told};
ghost use Rattle.cf_words.specs.Commands.{command_on, file_command, run as the_run, exec as the_exec};
ghost use Rattle.cf_words.specs.Words.{command_of};
ghost use Rattle.cf_words.specs.declared.command.Flags.{Flags};
ghost use Rattle.cf_words.specs.declared.command.ReplyForm.{ReplyForm};
ghost use Rattle.cf_answer.specs.Commands.{text_most};
ghost use Rattle.cf_answer.specs.Limits.{text_limit};
ghost use Rattle.cf_tree.specs.declared.base.Edition.TheVariants.{Two};
ghost use Rattle.cf_answer.specs.Refusals.{IsRefusedRun, IsRefusedTarget};
ghost use Rattle.cf_answer.specs.Steps.{IsVerdict, replier_of};
ghost use Rattle.cf_lines.specs.Opening.{IsAsked, IsOpenedFront, IsOpening, RepliesFor, IsRead, answers_lines as the_answers_lines};

use cf_answer::{
    Ended, Fault, Replier, longest_text, longest_written, read_target, runner_of, target_replier,
};
use cf_io::{FetchFault, Shelf, read_front};
use cf_pass::Pass;
use cf_words::{Command, CommandKind, FileCommand, Flags, ReplyForm, WordsFault, parse};
use std::alloc::Global;

/// What answers the lines for the command of these words, which is `run` or `exec`; its file is read once.
///
/// # Errors
/// `Usage` where the words are no such command, or ask for tallies, which stand behind all replies; else as `run` and
/// `exec` end on a file that is refused, with the message about it.
pub fn open_program<F: Shelf>(
    alloc: Global,
    words: &[String],
    shelf: &mut F,
    passes: &mut Vec<Box<dyn Pass>>,
) -> Result<Replier, Ended>
    ensures { IsOpening (command_of (map string_bytes words.now)) (map (λ p. told p) passes.old.items) (map (λ p. told p) passes.new.items)
        (F.seen shelf.old) (F.seen shelf.new) result }
{
    match asked(alloc, words) {
        Ok(command) => open_file(alloc, &command, shelf, passes),
        Err(fault) => Err(Ended::plain(Err(fault))),
    }
}

// The command of the words, where it answers lines.
fn asked<'a>(alloc: Global, words: &'a [String]) -> Result<FileCommand<'a>, Fault>
    ensures { IsAsked (command_of (map string_bytes words.entry.now)) result }
{
    match parse(alloc, words) {
        Ok(Command::OnFile(command)) => answering(command),
        Ok(Command::Verify { file: _, steps: _ }) => Err(Fault::Usage),
        Ok(Command::Gen(_)) => Err(Fault::Usage),
        Ok(Command::Help) => Err(Fault::Usage),
        Ok(Command::Version) => Err(Fault::Usage),
        Err(WordsFault::Usage) => Err(Fault::Usage),
        Err(WordsFault::NoMemory) => Err(Fault::NoMemory),
    }
}

// The same of a command on a file.
fn answering(command: FileCommand<'_>) -> Result<FileCommand<'_>, Fault>
    ensures { IsAsked (Some (file_command command.entry)) result }
{
    if answers_lines(command.kind, command.flags) {
        return Ok(command);
    }
    Err(Fault::Usage)
}

// Whether a command answers lines, and writes nothing behind all replies.
fn answers_lines(kind: CommandKind<'_>, flags: Flags) -> bool
    ensures { (form : ReplyForm) (file : List ℕ) → result ≡ the_answers_lines (command_on kind.entry flags form file) }
{
    match kind {
        CommandKind::Run => !flags.stats,
        CommandKind::Exec => true,
        CommandKind::Compile
        | CommandKind::Pre
        | CommandKind::Check(_)
        | CommandKind::Prove
        | CommandKind::Emit(_)
        | CommandKind::Goals => false,
    }
}

// Reads the file as far as it may be read, and opens its text.
fn open_file<F: Shelf>(
    alloc: Global,
    command: &FileCommand<'_>,
    shelf: &mut F,
    passes: &mut Vec<Box<dyn Pass>>,
) -> Result<Replier, Ended>
    requires { the_answers_lines (file_command command.now) ≡ true }
    ensures { IsOpening (Some (file_command command.now)) (map (λ p. told p) passes.old.items) (map (λ p. told p) passes.new.items)
        (F.seen shelf.old) (F.seen shelf.new) result }
{
    let limit = longest_of(command.kind);
    match read_front(alloc, shelf, command.file, limit + 1) {
        Ok(front) => open_front(alloc, command, &front, passes),
        Err(FetchFault::Failed) => Err(Ended::plain(Err(Fault::File))),
        Err(FetchFault::NoMemory) => Err(Ended::plain(Err(Fault::NoMemory))),
    }
}

// The most bytes of a file that a command takes. Which edition a target is of is known only when it was read.
fn longest_of(kind: CommandKind<'_>) -> usize
    ensures is { (flags : Flags) (form : ReplyForm) (file : List ℕ) → result ≡ text_most (command_on kind.entry flags form file) Two }
    ensures small { result < 2 ^ 31 }
{
    match kind {
        CommandKind::Exec => longest_written(),
        CommandKind::Compile
        | CommandKind::Run
        | CommandKind::Pre
        | CommandKind::Check(_)
        | CommandKind::Prove
        | CommandKind::Emit(_)
        | CommandKind::Goals => longest_text(),
    }
}

// Opens the text of a file, as far as it was read.
fn open_front(
    alloc: Global,
    command: &FileCommand<'_>,
    front: &[u8],
    passes: &mut Vec<Box<dyn Pass>>,
) -> Result<Replier, Ended>
    requires lines { the_answers_lines (file_command command.now) ≡ true }
    requires read { length front.now ≤ text_most (file_command command.now) Two + 1 }
    requires small { length front.now < 2 ^ 32 - 1 }
    ensures { IsOpenedFront command.now (map (λ p. told p) passes.old.items) (map (λ p. told p) passes.new.items) front.now result }
{
    match read(alloc, command, front, passes) {
        Ok(replier) => Ok(replier),
        Err(fault) => Err(Ended::on_text(alloc, command, front, Err(fault))),
    }
}

// What answers lines by the text of a file, as far as it was read.
fn read(
    alloc: Global,
    command: &FileCommand<'_>,
    front: &[u8],
    passes: &mut Vec<Box<dyn Pass>>,
) -> Result<Replier, Fault>
    requires lines { the_answers_lines (file_command command.now) ≡ true }
    requires small { length front.now < 2 ^ 32 - 1 }
    ensures { IsRead (file_command command.now) (map (λ p. told p) passes.old.items) (map (λ p. told p) passes.new.items) front.now result }
{
    if front.len() > longest_of(command.kind) {
        return Err(Fault::TextTooLong);
    }
    match command.kind {
        CommandKind::Run => run_replier(alloc, command.flags, command.form, front, passes),
        CommandKind::Exec => exec_replier(alloc, command.form, front),
        CommandKind::Compile
        | CommandKind::Pre
        | CommandKind::Check(_)
        | CommandKind::Prove
        | CommandKind::Emit(_)
        | CommandKind::Goals => { unreachable!() }
    }
}

// What answers lines for `run` of a source text.
fn run_replier(
    alloc: Global,
    flags: Flags,
    form: ReplyForm,
    text: &[u8],
    passes: &mut Vec<Box<dyn Pass>>,
) -> Result<Replier, Fault>
    requires short { length text.now ≤ text_limit }
    requires place { length text.now < 2 ^ 32 - 1 }
    ensures { (file : List ℕ) → IsVerdict
        (λ r. RepliesFor (the_run flags form file) (text.now ∷ []) (map (λ p. told p) passes.old.items) (map (λ p. told p) passes.new.items) (replier_of r))
        (IsRefusedRun text.now) result }
{
    match runner_of(alloc, flags.plain, text, passes) {
        Ok(runner) => Ok(Replier { runner, form }),
        Err(fault) => Err(fault),
    }
}

// What answers lines for `exec` of a target text.
fn exec_replier(alloc: Global, form: ReplyForm, text: &[u8]) -> Result<Replier, Fault>
    requires place { length text.now < 2 ^ 32 - 1 }
    ensures { (file : List ℕ) (given last : List Told) → IsVerdict
        (λ r. RepliesFor (the_exec form file) (text.now ∷ []) given last (replier_of r)) (IsRefusedTarget text.now) result }
{
    match read_target(alloc, text) {
        Ok(target) => Ok(target_replier(alloc, target, form)),
        Err(fault) => Err(fault),
    }
}
