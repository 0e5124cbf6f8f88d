//! From the words to the command.
ghost use Rattle.std.specs.Prelude.{◌≡◌, false, IfOk, IsErrOf, map, string_bytes};
ghost use Rattle.cf_words.specs.Commands.{HasSize};
ghost use Rattle.cf_words.specs.Words.{WordsAnswer, command_of, command_parsed, may_be_parsed as may_be_parsed_as, may_be_read};

use crate::about::about;
use crate::command::Command;
use crate::fault::WordsFault;
use crate::matches::{command_found, matches_of};
use crate::tests::may_be_parsed;
use std::alloc::Global;

/// The command that the words behind the program's name are.
///
/// # Errors
/// `Usage` exactly where the words are no command, and before memory is asked for where one of them may
/// not be read; `NoMemory` where memory runs out, and where `emit` is asked for a language that is not
/// built yet.
pub fn parse<'a>(alloc: Global, words: &'a [String]) -> Result<Command<'a>, WordsFault>
    ensures answer { WordsAnswer (command_of (map string_bytes words.entry.now)) result }
    ensures size { IfOk result HasSize }
    ensures early { may_be_read (map string_bytes words.entry.now) ≡ false → IsErrOf result WordsFault.Usage }
{
    match about(words) {
        Some(command) => Ok(command),
        None => parse_command(alloc, words),
    }
}

// The same of words that say nothing about the program.
fn parse_command<'a>(alloc: Global, words: &'a [String]) -> Result<Command<'a>, WordsFault>
    ensures answer { WordsAnswer (command_parsed (map string_bytes words.entry.now)) result }
    ensures size { IfOk result HasSize }
    ensures early { may_be_parsed_as (map string_bytes words.entry.now) ≡ false → IsErrOf result WordsFault.Usage }
{
    if !may_be_parsed(words) {
        return Err(WordsFault::Usage);
    }
    let matches = matches_of(alloc, words)?;
    command_found(alloc, &matches)
}
