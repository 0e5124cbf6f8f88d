//! The call of the program on objects in memory.
ghost use Rattle.std.specs.Prelude.{◌≡◌, map, string_bytes, IfOk, OnErr, IsErrOf};
ghost use Rattle.cf_answer.specs.Outside.{outside};
ghost use Rattle.cf_memory.specs.Files.{fresh_files};
ghost use Rattle.cf_memory.specs.Held.{fresh_text, growing_seen};
ghost use Rattle.cf_c.specs.Answered.{IsCalled, IsNoText, bytes_of};

use crate::words::{Uncalled, Word, texts_of};
use cf_memory::{File, Files, Growing, TextSource};
use cf_pass::{DropArms, DropLets, DropNeeds, Fold, Pass};
use cf_top::{Status, comfusy};
use cf_tree::NoMemory;
use std::alloc::Global;

// Calls the program on these texts as words. Where memory runs out before, nothing is written.
fn call_on(
    alloc: Global,
    words: &[String],
    files: &[File<'_>],
    input: &[u8],
    out: &mut Growing,
    err: &mut Growing,
) -> Result<Status, NoMemory>
    ensures called { IfOk result (λ status. IsCalled (map string_bytes words.now)
        (outside (fresh_files files.now) (fresh_text input.now) (growing_seen out.old))
        (growing_seen out.new) (growing_seen err.old) (growing_seen err.new) status) }
    ensures out { OnErr result (out.new ≡ out.old) }
    ensures err { OnErr result (err.new ≡ err.old) }
{
    let mut passes: Vec<Box<dyn Pass>> = Vec::new(alloc);
    passes.push(Box::new(alloc, Fold::new())?)?;
    passes.push(Box::new(alloc, DropNeeds::new())?)?;
    passes.push(Box::new(alloc, DropArms::new())?)?;
    passes.push(Box::new(alloc, DropLets::new())?)?;
    let mut shelf = Files::new(files);
    let mut source = TextSource::new(input);
    Ok(comfusy(alloc, words, &mut shelf, &mut source, out, err, passes))
}

/// Calls the program as `main` does, on these files and this input.
///
/// # Errors
/// Where a word is no UTF-8, or where memory runs out before the call. Then nothing is written.
pub fn call(
    alloc: Global,
    words: &[Word<'_>],
    files: &[File<'_>],
    input: &[u8],
    out: &mut Growing,
    err: &mut Growing,
) -> Result<Status, Uncalled>
    ensures called { IfOk result (λ status. IsCalled (bytes_of words.now) (outside (fresh_files files.now) (fresh_text input.now) (growing_seen out.old))
        (growing_seen out.new) (growing_seen err.old) (growing_seen err.new) status) }
    ensures out { OnErr result (out.new ≡ out.old) }
    ensures err { OnErr result (err.new ≡ err.old) }
    ensures no_text { IsErrOf result Uncalled.NoText → IsNoText (bytes_of words.now) }
{
    match texts_of(alloc, words) {
        Ok(texts) => match call_on(alloc, &texts, files, input, out, err) {
            Ok(status) => Ok(status),
            Err(NoMemory) => Err(Uncalled::NoMemory),
        },
        Err(fault) => Err(fault),
    }
}
