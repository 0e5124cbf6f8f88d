//! Opening a program that C keeps.
ghost use Rattle.std.specs.Prelude.{◌≡◌, List, Option, Some, None, map, string_bytes, IfOk, OnErr, IsErrOf};
ghost use Rattle.cf_answer.specs.Statuses.{status_of as the_status_of};
ghost use Rattle.cf_answer.specs.Written.{line_of};
ghost use Rattle.cf_c.specs.Answered.{IsNoText, bytes_of};
ghost use Rattle.cf_c.specs.Lines.{IsOpenedBy, ended_by, held_by, kept_by, status_by};
ghost use Rattle.cf_io.specs.Seen.{ShelfSeen};
ghost use Rattle.cf_lines.specs.Opening.{IsOpening};
ghost use Rattle.cf_memory.specs.Files.{fresh_files};
ghost use Rattle.cf_memory.specs.Held.{growing_seen};
ghost use Rattle.cf_pass.specs.Passes.{Told};
ghost use Rattle.cf_top.specs.Top.{IsTold};
ghost use Rattle.cf_words.specs.Commands.{Command};
ghost use Rattle.cf_words.specs.Words.{command_of};

use crate::words::{Uncalled, Word, texts_of};
use cf_answer::{Ended, Replier, Status, status_of, tell};
use cf_lines::{Held, open_program};
use cf_memory::{File, Files, Growing};
use cf_pass::{DropArms, DropLets, DropNeeds, Fold, Pass};
use cf_tree::NoMemory;
use std::alloc::Global;

/// What became of words that were to be opened.
#[derive(Drop)]
pub enum Opened {
    /// What answers their lines.
    Program(Box<Replier>),
    /// It ended with this status, of which was told.
    Shut(Status),
}

// Opens these texts as words. Where memory runs out before, nothing is told.
fn open_on(
    alloc: Global,
    words: &[String],
    files: &[File<'_>],
    err: &mut Growing,
) -> Result<Opened, NoMemory>
    ensures opened { IfOk result (IsOpenedBy (command_of (map string_bytes words.now)) (fresh_files files.now) (growing_seen err.old) (growing_seen err.new)) }
    ensures err { OnErr result (err.new ≡ err.old) }
{
    let mut passes: Vec<Box<dyn Pass>> = Vec::new(alloc);
    passes.push(Box::new(alloc, Fold::new())?)?;
    passes.push(Box::new(alloc, DropNeeds::new())?)?;
    passes.push(Box::new(alloc, DropArms::new())?)?;
    passes.push(Box::new(alloc, DropLets::new())?)?;
    open_by(alloc, words, files, passes, err)
}

// Opens these texts as words, with these passes.
fn open_by(
    alloc: Global,
    words: &[String],
    files: &[File<'_>],
    passes: Vec<Box<dyn Pass>>,
    err: &mut Growing,
) -> Result<Opened, NoMemory>
    ensures opened { IfOk result (IsOpenedBy (command_of (map string_bytes words.now)) (fresh_files files.now) (growing_seen err.old) (growing_seen err.new)) }
    ensures err { OnErr result (err.new ≡ err.old) }
{
    let mut passes = passes;
    let mut shelf = Files::new(files);
    let opening = open_program(alloc, words, &mut shelf, &mut passes);
    conclude(alloc, opening, err)
}

// What became of a program that was to be opened; of one that is not, this is told.
fn conclude(
    alloc: Global,
    opening: Result<Replier, Ended>,
    err: &mut Growing,
) -> Result<Opened, NoMemory>
    ensures opened { (command : Option Command) (given last : List Told) (shelf after : ShelfSeen) → IsOpening command given last shelf after opening →
        IfOk result (IsOpenedBy command shelf (growing_seen err.old) (growing_seen err.new)) }
    ensures err { OnErr result (err.new ≡ err.old) }
{
    match opening {
        Ok(replier) => boxed(alloc, replier),
        Err(ended) => Ok(Opened::Shut(shut(err, ended))),
    }
}

// What answers lines, in a box.
fn boxed(alloc: Global, replier: Replier) -> Result<Opened, NoMemory>
    ensures { IfOk result (λ o. held_by o ≡ Some replier) }
{
    let program = Box::new(alloc, replier)?;
    Ok(Opened::Program(program))
}

// Tells how it ended, and answers with which status.
fn shut(err: &mut Growing, ended: Ended) -> Status
    ensures status { result ≡ the_status_of ended.answer }
    ensures told { IsTold (growing_seen err.old) (growing_seen err.new) (line_of ended) }
{
    let _ = tell(err, &ended);
    status_of(&ended.answer)
}

/// Opens these words, with the files that they may name.
///
/// # Errors
/// Where a word is no UTF-8, or where memory runs out before anything is told.
pub fn open_words(
    alloc: Global,
    words: &[Word<'_>],
    files: &[File<'_>],
    err: &mut Growing,
) -> Result<Opened, Uncalled>
    ensures opened { IfOk result (IsOpenedBy (command_of (bytes_of words.now)) (fresh_files files.now) (growing_seen err.old) (growing_seen err.new)) }
    ensures err { OnErr result (err.new ≡ err.old) }
    ensures no_text { IsErrOf result Uncalled.NoText → IsNoText (bytes_of words.now) }
{
    match texts_of(alloc, words) {
        Ok(texts) => match open_on(alloc, &texts, files, err) {
            Ok(opened) => Ok(opened),
            Err(NoMemory) => Err(Uncalled::NoMemory),
        },
        Err(fault) => Err(fault),
    }
}

// Keeps what was opened where nothing is kept, and says with which status it ended.
fn keep_opened(program: &mut Held, opened: Opened) -> Status
    requires { program.old.kept ≡ None }
    ensures status { result ≡ status_by opened }
    ensures kept { program.new.kept ≡ held_by opened }
{
    match opened {
        Opened::Program(replier) => {
            program.keep(replier);
            Status::Done
        }
        Opened::Shut(status) => status,
    }
}

/// Keeps what was opened, if anything was, and says how it ended. What was kept before is given back.
pub fn keep(
    alloc: Global,
    program: &mut Held,
    opened: Result<Opened, Uncalled>,
) -> Result<Status, Uncalled>
    ensures ended { result ≡ ended_by opened }
    ensures kept { program.new.kept ≡ kept_by opened }
{
    drop(program.take(alloc));
    match opened {
        Ok(opened) => Ok(keep_opened(program, opened)),
        Err(fault) => Err(fault),
    }
}
