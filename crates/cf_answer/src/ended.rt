//! How a command ended, and what is written of it.
ghost use Rattle.std.specs.Prelude.{◌≡◌, ◌⊎◌, ◌≤◌, ◌<◌, ◌+◌, ◌-◌, ◌^◌, ℕ, true, List, [], Option, Some, None, Err, length, take};
ghost use Rattle.cf_answer.specs.declared.fault.Fault.TheVariants as faults;
ghost use Rattle.cf_answer.specs.Limits.{text_limit};
ghost use Rattle.cf_answer.specs.Commands.{text_most};
ghost use Rattle.cf_answer.specs.Outside.{AreTold};
ghost use Rattle.cf_answer.specs.Written.{IsOfText, IsWritten, IsWrittenBy, IsWrittenOf, front_of, line_of, linearity_of as the_linearity_of, source_of};
ghost use Rattle.cf_words.specs.Commands.{command_on, file_command};
ghost use Rattle.cf_words.specs.declared.command.Flags.{Flags};
ghost use Rattle.cf_words.specs.declared.command.ReplyForm.{ReplyForm};
ghost use Rattle.cf_lex.specs.Editions.{edition_of as the_edition_of};
ghost use Rattle.cf_tree.specs.declared.base.Edition.TheVariants.{Two, Three};

use crate::fault::Fault;
use crate::saying::{NamedSource, said};
use cf_io::Sink;
use cf_lex::edition_of;
use cf_program::Linearity;
use cf_tree::{Bytes, Edition, NoMemory};
use cf_words::{CommandKind, FileCommand};
use std::alloc::Global;

/// How a command ended, and the message about its source, where that is of edition 3 and refused.
#[derive(Drop)]
pub struct Ended {
    pub answer: Result<(), Fault>,
    pub message: Option<Bytes>,
}

impl Ended {
    /// An end of which its line is written.
    pub fn plain(answer: Result<(), Fault>) -> Ended
        ensures answer { result.answer ≡ answer }
        ensures message { result.message ≡ None }
    {
        Ended {
            answer,
            message: None,
        }
    }

    /// An end of which nothing is written.
    fn silent(alloc: Global, answer: Result<(), Fault>) -> Ended
        ensures answer { result.answer ≡ answer }
        ensures message { result.message ≡ Some [] }
    {
        Ended {
            answer,
            message: Some(Bytes {
                bytes: Vec::new(alloc),
            }),
        }
    }

    /// How a command ended that read so much of its file. Where there is no memory for the message about a
    /// source that it refused, it ended so. In edition 3 nothing is written of an output that failed because
    /// whoever reads it went away.
    pub fn on_file<O: Sink>(
        alloc: Global,
        command: &FileCommand<'_>,
        front: &[u8],
        out: &O,
        answer: Result<(), Fault>,
    ) -> Ended
        requires read { length front.now ≤ text_most (file_command command.now) Two + 1 }
        requires short { (answer ≡ Err faults.TextTooLong) ⊎
            (length front.now ≤ text_most (file_command command.now) Two) }
        ensures answer { (result.answer ≡ answer) ⊎ ((result.answer ≡ Err faults.NoMemory) × IsOfText answer) }
        ensures written { (texts : List ℕ → Option (List ℕ)) (whole : List ℕ) → AreTold (texts command.now.file.now) whole →
            front.now ≡ take (text_most (file_command command.now) Two + 1) whole →
            IsWrittenBy (Some (file_command command.now)) texts result.answer (line_of result) }
    {
        if is_deserted(out, front, &answer) {
            return Ended::silent(alloc, answer);
        }
        Ended::on_text(alloc, command, front, answer)
    }

    /// The same where an output that failed is told.
    pub fn on_text(
        alloc: Global,
        command: &FileCommand<'_>,
        front: &[u8],
        answer: Result<(), Fault>,
    ) -> Ended
        requires read { length front.now ≤ text_most (file_command command.now) Two + 1 }
        requires short { (answer ≡ Err faults.TextTooLong) ⊎
            (length front.now ≤ text_most (file_command command.now) Two) }
        ensures answer { (result.answer ≡ answer) ⊎ ((result.answer ≡ Err faults.NoMemory) × IsOfText answer) }
        ensures written { (texts : List ℕ → Option (List ℕ)) (whole : List ℕ) → AreTold (texts command.now.file.now) whole →
            front.now ≡ take (text_most (file_command command.now) Two + 1) whole →
            IsWrittenOf (source_of (file_command command.now))
            (the_linearity_of (file_command command.now)) texts result.answer (line_of result) }
    {
        let source = NamedSource {
            name: command.file.as_bytes(),
            text: front,
            how: linearity_of(command.kind),
        };
        match command.kind {
            CommandKind::Exec => Ended::plain(answer),
            CommandKind::Compile
            | CommandKind::Run
            | CommandKind::Pre
            | CommandKind::Check(_)
            | CommandKind::Prove
            | CommandKind::Emit(_)
            | CommandKind::Goals => Ended::on_source(alloc, &source, answer),
        }
    }

    /// How a command ended that read so much of this source text.
    pub(crate) fn on_source(
        alloc: Global,
        source: &NamedSource<'_>,
        answer: Result<(), Fault>,
    ) -> Ended
        requires read { length source.now.text.now ≤ text_limit + 1 }
        requires short { (answer ≡ Err faults.TextTooLong) ⊎ (length source.now.text.now ≤ text_limit) }
        ensures answer { (result.answer ≡ answer) ⊎ ((result.answer ≡ Err faults.NoMemory) × IsOfText answer) }
        ensures written { (whole : List ℕ) → source.now.text.now ≡ front_of whole →
            IsWritten source.now.how source.now.name.now whole result.answer (line_of result) }
    {
        match answer {
            Ok(()) => Ended::plain(Ok(())),
            Err(fault) => refused(alloc, source, fault),
        }
    }
}

// Whether the output failed because whoever reads it went away, for a text of edition 3.
fn is_deserted<O: Sink>(out: &O, text: &[u8], answer: &Result<(), Fault>) -> bool
    requires { length text.now < 2 ^ 32 - 1 }
    ensures { result ≡ true → (answer.now ≡ Err faults.Output) × (the_edition_of text.now ≡ Three) }
{
    match answer {
        Err(Fault::Output) => match edition_of(text) {
            Edition::Two => false,
            Edition::Three => out.has_lost_reader(),
        },
        Ok(()) | Err(_) => false,
    }
}

// Which relations are linear where a command refuses a source for its rules.
fn linearity_of(kind: CommandKind<'_>) -> Linearity
    ensures { (flags : Flags) (form : ReplyForm) (file : List ℕ) → result ≡ the_linearity_of (command_on kind.entry flags form file) }
{
    match kind {
        CommandKind::Run => Linearity::Late,
        CommandKind::Compile
        | CommandKind::Pre
        | CommandKind::Check(_)
        | CommandKind::Exec
        | CommandKind::Prove
        | CommandKind::Emit(_)
        | CommandKind::Goals => Linearity::Plain,
    }
}

// The end of a command that refused its source text, or failed otherwise.
fn refused(alloc: Global, source: &NamedSource<'_>, fault: Fault) -> Ended
    requires read { length source.now.text.now ≤ text_limit + 1 }
    requires short { (fault ≡ Fault.TextTooLong) ⊎ (length source.now.text.now ≤ text_limit) }
    ensures answer { (result.answer ≡ Err fault) ⊎ ((result.answer ≡ Err faults.NoMemory) × IsOfText (Err fault)) }
    ensures written { (whole : List ℕ) → source.now.text.now ≡ front_of whole →
        IsWritten source.now.how source.now.name.now whole result.answer (line_of result) }
{
    match edition_of(source.text) {
        Edition::Two => Ended::plain(Err(fault)),
        Edition::Three => refused_in_three(alloc, source, fault),
    }
}

// The same of a source of edition 3.
fn refused_in_three(alloc: Global, source: &NamedSource<'_>, fault: Fault) -> Ended
    requires read { length source.now.text.now ≤ text_limit + 1 }
    requires short { (fault ≡ Fault.TextTooLong) ⊎ (length source.now.text.now ≤ text_limit) }
    requires edition { the_edition_of source.now.text.now ≡ Three }
    ensures answer { (result.answer ≡ Err fault) ⊎ ((result.answer ≡ Err faults.NoMemory) × IsOfText (Err fault)) }
    ensures written { (whole : List ℕ) → source.now.text.now ≡ front_of whole →
        IsWritten source.now.how source.now.name.now whole result.answer (line_of result) }
{
    match said(alloc, source, &fault) {
        Ok(message) => Ended {
            answer: Err(fault),
            message,
        },
        Err(NoMemory) => Ended::plain(Err(Fault::NoMemory)),
    }
}
