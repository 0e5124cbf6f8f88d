//! Where the lines of `check` speak of.
ghost use Rattle.std.specs.Prelude.{◌≡◌, ◌++◌, ◌∷◌, [], ◌==◌, true, if◌then◌else◌, OnOk, map};
ghost use Rattle.cf_help.specs.Lines.{shown, shown_byte as the_shown_byte};
ghost use Rattle.cf_help.specs.Messages.{heading};
ghost use Rattle.cf_answer.specs.Fronts.{fronted, output_names as the_output_names, notes_at as the_notes, place_in, place_text, spot_at, written_in};
ghost use Rattle.cf_answer.specs.FrontView.{file_view, notes_view};

use cf_advice::{Or, Spot};
use cf_tree::{Edition, NoMemory, Place, Text, put_number};
use std::alloc::Global;

/// The source that is checked: its edition, the name of its file, and what stands at its numbers.
#[derive(Clone, Copy)]
pub struct File<'a> {
    pub edition: Edition,
    pub name: &'a [u8],
    pub spots: &'a [Spot],
}

/// What is noted of a choose: the names of its outputs, and the `||` of its relation under `&&` alone.
#[derive(Clone, Copy)]
pub(crate) struct Notes<'a> {
    pub(crate) outputs: &'a [Text],
    pub(crate) ors: &'a [Or],
}

// The place of a number.
fn place_of(file: &File<'_>, number: u32) -> Option<Place>
    ensures { result ≡ place_in (spot_at (file_view file.now) number) }
{
    match file.spots.get(number.saturating_sub(1) as usize) {
        Some(spot) => Some(spot.place),
        None => None,
    }
}

/// The names of the outputs of the choose of this number, or of the variables of the pattern.
pub(crate) fn output_names<'a>(file: &File<'a>, number: u32) -> &'a [Text]
    ensures { result.now ≡ the_output_names (file_view file.now) number }
{
    match file.spots.get(number.saturating_sub(1) as usize) {
        Some(spot) => &spot.outputs,
        None => &[],
    }
}

/// What is noted of the choose of this number.
pub(crate) fn notes_at<'a>(file: &File<'a>, number: u32) -> Notes<'a>
    ensures { notes_view result ≡ the_notes (file_view file.now) number }
{
    match file.spots.get(number.saturating_sub(1) as usize) {
        Some(spot) => Notes {
            outputs: &spot.outputs,
            ors: &spot.ors,
        },
        None => Notes {
            outputs: &[],
            ors: &[],
        },
    }
}

/// Adds lines about this number as they are written.
///
/// # Errors
/// `NoMemory` where memory ran out.
pub(crate) fn put_written(
    alloc: Global,
    text: &mut Vec<u8>,
    file: &File<'_>,
    number: u32,
    lines: &[u8],
) -> Result<(), NoMemory>
    ensures { OnOk result (text.new.items ≡ text.old.items ++ written_in (file_view file.now) number lines.now) }
{
    match file.edition {
        Edition::Two => {
            text.extend_from_slice(lines)?;
            Ok(())
        }
        Edition::Three => {
            let mut front = Vec::new(alloc);
            put_front(&mut front, file.name, place_of(file, number))?;
            put_fronted(text, &front, lines)
        }
    }
}

// ---- fronts
/// Adds the name of a file, as it is shown, and a place of it where there is one.
///
/// # Errors
/// `NoMemory` where memory ran out.
#[tactic(auto, using(crate::proofs::BesideLemmas::front_text))]
pub(crate) fn put_front(
    text: &mut Vec<u8>,
    name: &[u8],
    place: Option<Place>,
) -> Result<(), NoMemory>
    ensures { OnOk result (text.new.items ≡ text.old.items ++ heading name.now place) }
{
    put_shown(text, name)?;
    put_place(text, place)?;
    text.extend_from_slice(b": ".as_slice())?;
    Ok(())
}

fn put_place(text: &mut Vec<u8>, place: Option<Place>) -> Result<(), NoMemory>
    ensures { OnOk result (text.new.items ≡ text.old.items ++ place_text place) }
{
    match place {
        None => Ok(()),
        Some(place) => {
            text.push(b':')?;
            put_number(text, place.line)?;
            text.push(b':')?;
            put_number(text, place.column)?;
            Ok(())
        }
    }
}

fn put_shown(text: &mut Vec<u8>, name: &[u8]) -> Result<(), NoMemory>
    ensures { OnOk result (text.new.items ≡ text.old.items ++ shown name.now) }
{
    for byte in name {
        text.push(shown_byte(*byte))?;
    }
    Ok(())
}

// A byte as it is shown.
fn shown_byte(byte: u8) -> u8
    ensures { result ≡ the_shown_byte byte }
{
    if byte < 32 && byte != b'\t' || byte == 127 {
        b'?'
    } else {
        byte
    }
}

// ---- lines
// Adds lines with this before each.
#[tactic(auto, using(crate::proofs::FrontLaws::one_byte))]
fn put_fronted(text: &mut Vec<u8>, front: &[u8], lines: &[u8]) -> Result<(), NoMemory>
    ensures { OnOk result (text.new.items ≡ text.old.items ++ fronted front.now lines.now) }
{
    let mut begins = true;
    for byte in lines {
        put_byte(text, front, begins, *byte)?;
        begins = *byte == b'\n';
    }
    Ok(())
}

// Adds a byte, and before the first of a line its front.
fn put_byte(text: &mut Vec<u8>, front: &[u8], begins: bool, byte: u8) -> Result<(), NoMemory>
    ensures { OnOk result (text.new.items ≡ text.old.items ++ ((if begins then front.now else []) ++ byte ∷ [])) }
{
    if begins {
        text.extend_from_slice(front)?;
    }
    text.push(byte)?;
    Ok(())
}
