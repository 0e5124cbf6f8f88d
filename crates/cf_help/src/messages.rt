//! A message: the words behind the name of the file and the place, the line, the caret, the help.
ghost use Rattle.std.specs.Prelude.{◌≡◌, [], ◌∷◌, codes, decimal, IfOk};
ghost use Rattle.std.specs.List.{concat};
ghost use Rattle.cf_help.specs.Messages.{message as message_of, heading as heading_of, lines_at as lines_at_of, help_line as help_line_of};
ghost use Rattle.cf_help.specs.WordsView.{words_of};

use crate::lines::{shown, source_lines};
use crate::pieces::{joined, number_text};
use crate::words::FaultWords;
use cf_tree::{NoMemory, Place, Text};
use std::alloc::Global;

// The name of a file, and a place of it where there is one.
fn heading(alloc: Global, name: &[u8], place: Option<Place>) -> Result<Text, NoMemory>
    ensures { IfOk result (λ t. t ≡ heading_of name.now place) }
{
    let name = shown(alloc, name)?;
    match place {
        None => joined(alloc, &[&name.bytes, b": ".as_slice()]),
        Some(place) => placed(alloc, &name, place),
    }
}

// A name with a place.
fn placed(alloc: Global, name: &Text, place: Place) -> Result<Text, NoMemory>
    ensures { IfOk result (λ t. t ≡ concat (name.now ∷ codes ":" ∷ decimal place.line ∷ codes ":" ∷ decimal place.column ∷ codes ": " ∷ [])) }
{
    let line = number_text(alloc, place.line as u64)?;
    let column = number_text(alloc, place.column as u64)?;
    joined(
        alloc,
        &[
            &name.bytes,
            b":".as_slice(),
            &line.bytes,
            b":".as_slice(),
            &column.bytes,
            b": ".as_slice(),
        ],
    )
}

fn lines_at(alloc: Global, text: &[u8], place: Option<Place>) -> Result<Text, NoMemory>
    ensures { IfOk result (λ t. t ≡ lines_at_of text.now place) }
{
    match place {
        None => joined(alloc, &[]),
        Some(place) => source_lines(alloc, text, place),
    }
}

fn help_line(alloc: Global, help: &Option<Text>) -> Result<Text, NoMemory>
    ensures { IfOk result (λ t. t ≡ help_line_of help.now) }
{
    match help {
        None => joined(alloc, &[]),
        Some(help) => joined(
            alloc,
            &[b"help: ".as_slice(), &help.bytes, b"\n".as_slice()],
        ),
    }
}

/// The whole message about the text of a file of this name.
///
/// # Errors
/// Want of memory alone.
pub fn message(
    alloc: Global,
    name: &[u8],
    text: &[u8],
    place: Option<Place>,
    words: &FaultWords,
) -> Result<Text, NoMemory>
    ensures { IfOk result (λ m. m ≡ message_of name.now text.now place (words_of words.now)) }
{
    let head = heading(alloc, name, place)?;
    let lines = lines_at(alloc, text, place)?;
    let help = help_line(alloc, &words.help)?;
    joined(
        alloc,
        &[
            &head.bytes,
            &words.what.bytes,
            b"\n".as_slice(),
            &lines.bytes,
            &help.bytes,
        ],
    )
}
