//! The top call.
ghost use Rattle.std.specs.Prelude.{◌≡◌, ◌⊎◌, ◌≤◌, ◌<◌, ◌+◌, ◌-◌, ◌^◌, ◌∷◌, ℕ, List, [], Some, None, Err, false, length, map, string_bytes, IfSome, IsSomeAnd, IsErrOf, Contains};
ghost use Rattle.cf_io.specs.Causes.{Rose};
ghost use Rattle.cf_words.specs.declared.command.Flags.{Flags};
ghost use Rattle.cf_words.specs.declared.command.ReplyForm.{ReplyForm};
ghost use Rattle.cf_answer.specs.Commands.{names_of, reads_input, text_most};
ghost use Rattle.cf_answer.specs.Ends.{Answers, AnswersOn, Does, IsInOrder};
ghost use Rattle.cf_answer.specs.Limits.{edition_for};
ghost use Rattle.cf_answer.specs.Outside.{outside, streams};
ghost use Rattle.cf_answer.specs.Statuses.{status_of as the_status_of, IsEarly};
ghost use Rattle.cf_answer.specs.Written.{IsWrittenBy, line_of};
ghost use Rattle.cf_answer.specs.declared.fault.Fault.TheVariants as faults;
ghost use Rattle.cf_tree.specs.declared.base.Edition.TheVariants.{Two};
ghost use Rattle.cf_top.specs.Top.{Completes, TopAnswer};
ghost use Rattle.cf_words.specs.Commands.{command_on, file_command};
ghost use Rattle.cf_words.specs.Words.{command_of, may_be_read};

use cf_answer::{
    Ended, Fault, Status, longest_text, longest_written, run_source, run_target, status_of, tell,
    verify_files, write_blocks, write_checks, write_emitted, write_goals, write_help,
    write_preconditions, write_target, write_version, write_workload,
};
use cf_io::{FetchFault, Shelf, Sink, Source, read_front};
use cf_pass::Pass;
use cf_words::{Command, CommandKind, FileCommand, WordsFault, parse};
use std::alloc::Global;

/// Does all that the program does: it reads the words, the files and the input, and writes what the
/// command is to write. What a refusal writes goes to `err`.
///
/// `words` are those behind the program's name. `passes` rewrite what is compiled, each once and in
/// order, unless the words say `--plain`; they are dropped before the call ends, so what became of them is
/// told by `answer_words`, to which they are lent. The status says how it ended. docs/THEOREM.md says what
/// the contract promises, clause by clause.
pub fn comfusy<F: Shelf, I: Source, O: Sink, E: Sink>(
    alloc: Global,
    words: &[String],
    shelf: &mut F,
    input: &mut I,
    out: &mut O,
    err: &mut E,
    passes: Vec<Box<dyn Pass>>,
) -> Status
    // What was answered, what was read, what `out` and `err` took, which object failed, and what the passes told last.
    ensures tells { TopAnswer (command_of (map string_bytes words.now)) (map (λ p. told p) passes.items)
        (outside (F.seen shelf.old) (I.seen input.old) (O.seen out.old)) (outside (F.seen shelf.new) (I.seen input.new) (O.seen out.new))
        (E.seen err.old) (E.seen err.new) result }
    ensures usage { result ≡ Status.Usage → command_of (map string_bytes words.now) ≡ None }
    ensures no_command { command_of (map string_bytes words.now) ≡ None → (result ≡ Status.Usage) ⊎ (result ≡ Status.NoMemory) }
    // A word that is neither an operand nor a flag, or a flag that stands twice, is refused before memory is asked for, unless it is the one word of a question
    // about the program.
    ensures early { may_be_read (map string_bytes words.now) ≡ false → result ≡ Status.Usage }
    ensures untouched { command_of (map string_bytes words.now) ≡ None → (shelf.new ≡ shelf.old) × (input.new ≡ input.old) × (out.new ≡ out.old) }
    ensures file { result ≡ Status.File → IsSomeAnd (command_of (map string_bytes words.now))
        (λ c. (name : List ℕ) × Contains (names_of c) name × Rose ((F.seen shelf.old).faults name) ((F.seen shelf.new).faults name)) }
    ensures input { result ≡ Status.Input → Rose (I.seen input.old).faults (I.seen input.new).faults }
    ensures output { result ≡ Status.Output → Rose (O.seen out.old).faults (O.seen out.new).faults }
    // The status is that of the texts and the input, as far as they are told and no object failed, or memory ran out.
    ensures complete { IfSome (command_of (map string_bytes words.now))
        (λ c. Completes c (outside (F.seen shelf.old) (I.seen input.old) (O.seen out.old)) result) }
    ensures shelf { result ≡ Status.Usage → shelf.new ≡ shelf.old }
    ensures unread { IsEarly result → input.new ≡ input.old }
    ensures unasked { IfSome (command_of (map string_bytes words.now)) (λ c. reads_input c ≡ false → input.new ≡ input.old) }
    // A command that reads no file leaves the shelf.
    ensures unfetched { IfSome (command_of (map string_bytes words.now)) (λ c. names_of c ≡ [] → shelf.new ≡ shelf.old) }
    ensures unwritten { IsEarly result → out.new ≡ out.old }
    // A steps file is read only behind a source in which no rule is broken.
    ensures order { IfSome (command_of (map string_bytes words.now)) (λ c. IsInOrder c (F.seen shelf.old) (F.seen shelf.new) result) }
{
    let mut passes = passes;
    let ended = answer_words(alloc, words, shelf, input, out, &mut passes);
    let _ = tell(err, &ended);
    status_of(&ended.answer)
}

/// Does what the words ask for, and answers how it ended, with the message about a source that it
/// refused. It is all that `comfusy` does but for what goes to `err`, and the one place where it hands the
/// passes on. Since these are lent here, the contract tells what became of them: each was called once, by
/// the commands that call them, or none was.
pub fn answer_words<F: Shelf, I: Source, O: Sink>(
    alloc: Global,
    words: &[String],
    shelf: &mut F,
    input: &mut I,
    out: &mut O,
    passes: &mut Vec<Box<dyn Pass>>,
) -> Ended
    ensures answers { Answers (command_of (map string_bytes words.now)) (map (λ p. told p) passes.old.items) (map (λ p. told p) passes.new.items)
        (outside (F.seen shelf.old) (I.seen input.old) (O.seen out.old)) (outside (F.seen shelf.new) (I.seen input.new) (O.seen out.new)) result.answer }
    ensures written { IsWrittenBy (command_of (map string_bytes words.now)) (F.seen shelf.old).texts result.answer (line_of result) }
    ensures usage { IsErrOf result.answer Fault.Usage → command_of (map string_bytes words.now) ≡ None }
    ensures early { may_be_read (map string_bytes words.now) ≡ false → IsErrOf result.answer Fault.Usage }
    ensures untouched { command_of (map string_bytes words.now) ≡ None → (shelf.new ≡ shelf.old) × (input.new ≡ input.old) × (out.new ≡ out.old) }
    ensures shelf { IsErrOf result.answer Fault.Usage → shelf.new ≡ shelf.old }
    ensures unread { IsEarly (the_status_of result.answer) → input.new ≡ input.old }
    ensures unasked { IfSome (command_of (map string_bytes words.now)) (λ c. reads_input c ≡ false → input.new ≡ input.old) }
    ensures unfetched { IfSome (command_of (map string_bytes words.now)) (λ c. names_of c ≡ [] → shelf.new ≡ shelf.old) }
    ensures unwritten { IsEarly (the_status_of result.answer) → out.new ≡ out.old }
    ensures order { IfSome (command_of (map string_bytes words.now)) (λ c. IsInOrder c (F.seen shelf.old) (F.seen shelf.new) (the_status_of result.answer)) }
{
    match parse(alloc, words) {
        Ok(Command::OnFile(command)) => answer_file(alloc, &command, shelf, input, out, passes),
        Ok(Command::Verify { file, steps }) => verify_files(alloc, file, steps, shelf, out),
        Ok(Command::Gen(size)) => Ended::plain(write_workload(alloc, size, out, passes)),
        Ok(Command::Help) => Ended::plain(write_help(out)),
        Ok(Command::Version) => Ended::plain(write_version(out)),
        Err(WordsFault::Usage) => Ended::plain(Err(Fault::Usage)),
        Err(WordsFault::NoMemory) => Ended::plain(Err(Fault::NoMemory)),
    }
}

// Reads the file as far as it may be read, and does with it what the command asks.
fn answer_file<F: Shelf, I: Source, O: Sink>(
    alloc: Global,
    command: &FileCommand<'_>,
    shelf: &mut F,
    input: &mut I,
    out: &mut O,
    passes: &mut Vec<Box<dyn Pass>>,
) -> Ended
    ensures does { Does (file_command command.now)
        (map (λ p. told p) passes.old.items) (map (λ p. told p) passes.new.items)
        (outside (F.seen shelf.old) (I.seen input.old) (O.seen out.old)) (outside (F.seen shelf.new) (I.seen input.new) (O.seen out.new)) result.answer }
    ensures written { IsWrittenBy (Some (file_command command.now)) (F.seen shelf.old).texts result.answer
        (line_of result) }
    ensures usage { ¬ IsErrOf result.answer Fault.Usage }
    ensures unread { IsEarly (the_status_of result.answer) → input.new ≡ input.old }
    ensures unasked { reads_input (file_command command.now) ≡ false → input.new ≡ input.old }
    ensures unwritten { IsEarly (the_status_of result.answer) → out.new ≡ out.old }
{
    let limit = longest_of(command.kind);
    match read_front(alloc, shelf, command.file, limit + 1) {
        Ok(front) => {
            let answer = answer_front(alloc, command, &front, input, out, passes);
            Ended::on_file(alloc, command, &front, out, answer)
        }
        Err(FetchFault::Failed) => Ended::plain(Err(Fault::File)),
        Err(FetchFault::NoMemory) => Ended::plain(Err(Fault::NoMemory)),
    }
}

// Does what the command asks with the text of a file, as far as it was read.
fn answer_front<I: Source, O: Sink>(
    alloc: Global,
    command: &FileCommand<'_>,
    front: &[u8],
    input: &mut I,
    out: &mut O,
    passes: &mut Vec<Box<dyn Pass>>,
) -> Result<(), Fault>
    requires small { length front.now < 2 ^ 32 - 1 }
    ensures answers { length front.now ≤ text_most (file_command command.now) Two →
        AnswersOn (file_command command.now)
        (map (λ p. told p) passes.old.items) (map (λ p. told p) passes.new.items) (front.now ∷ [])
        (streams (I.seen input.old) (O.seen out.old)) (streams (I.seen input.new) (O.seen out.new)) result }
    ensures long { (length front.now ≤ text_most (file_command command.now) Two) ⊎
        ((text_most (file_command command.now) Two < length front.now) × (result ≡ Err faults.TextTooLong) ×
        (map (λ p. told p) passes.new.items ≡ map (λ p. told p) passes.old.items) × (input.new ≡ input.old) × (out.new ≡ out.old)) }
    ensures usage { ¬ IsErrOf result Fault.Usage }
    ensures unread { IsEarly (the_status_of result) → input.new ≡ input.old }
    ensures unasked { reads_input (file_command command.now) ≡ false → input.new ≡ input.old }
    ensures unwritten { IsEarly (the_status_of result) → out.new ≡ out.old }
{
    if front.len() > longest_of(command.kind) {
        return Err(Fault::TextTooLong);
    }
    answer_text(alloc, command, front, input, out, passes)
}

// The most bytes of a file that a command takes. Which edition a target is of is known only when it was read.
fn longest_of(kind: CommandKind<'_>) -> usize
    ensures is { (flags : Flags) (form : ReplyForm) (file : List ℕ) (files : List (List ℕ)) →
        result ≡ text_most (command_on kind.entry flags form file) (edition_for files) }
    ensures small { result < 2 ^ 31 }
{
    match kind {
        CommandKind::Exec => longest_written(),
        CommandKind::Compile
        | CommandKind::Run
        | CommandKind::Pre
        | CommandKind::Check(_)
        | CommandKind::Prove
        | CommandKind::Emit(_)
        | CommandKind::Goals => longest_text(),
    }
}

// Does with the text of a file what the command asks.
fn answer_text<I: Source, O: Sink>(
    alloc: Global,
    command: &FileCommand<'_>,
    text: &[u8],
    input: &mut I,
    out: &mut O,
    passes: &mut Vec<Box<dyn Pass>>,
) -> Result<(), Fault>
    requires short { length text.now ≤ text_most (file_command command.now) (edition_for (text.now ∷ [])) }
    requires small { length text.now < 2 ^ 31 }
    ensures answers { AnswersOn (file_command command.now)
        (map (λ p. told p) passes.old.items) (map (λ p. told p) passes.new.items) (text.now ∷ [])
        (streams (I.seen input.old) (O.seen out.old)) (streams (I.seen input.new) (O.seen out.new)) result }
    ensures unread { IsEarly (the_status_of result) → input.new ≡ input.old }
    ensures unasked { reads_input (file_command command.now) ≡ false → input.new ≡ input.old }
    ensures unwritten { IsEarly (the_status_of result) → out.new ≡ out.old }
{
    let flags = command.flags;
    match command.kind {
        CommandKind::Compile => write_target(alloc, flags, text, out, passes),
        CommandKind::Run => run_source(alloc, flags, command.form, text, input, out, passes),
        CommandKind::Pre => write_preconditions(alloc, text, out),
        CommandKind::Check(strictness) => {
            write_checks(alloc, strictness, command.file.as_bytes(), text, out)
        },
        CommandKind::Exec => run_target(alloc, command.form, text, input, out),
        CommandKind::Prove => write_blocks(alloc, text, out),
        CommandKind::Emit(emitting) => write_emitted(alloc, &emitting, text, out, passes),
        CommandKind::Goals => write_goals(alloc, text, out),
    }
}
