//! The lines of `check` beside its answers.
ghost use Rattle.std.specs.Prelude.{◌≡◌, ◌<◌, ◌-◌, ◌^◌, ◌++◌, [], true, if◌then◌else◌, IfOk, OnOk, length, map};
ghost use Rattle.cf_form.specs.ToldView.{told_branch};
ghost use Rattle.cf_answer.specs.Checking.{asked_view};
ghost use Rattle.cf_answer.specs.Checks.{AreBesideLines, AreUnboundedLines, AreUnreachedLines, tuples_line, unbounded_line, unreached_line, unused_line, unused_lines as the_unused_lines};
ghost use Rattle.cf_answer.specs.FrontView.{notes_view};
ghost use Rattle.cf_answer.specs.Tells.{TellsUnreached};

use crate::choose_line::put_head;
use crate::fronts::{Notes, put_front};
use crate::ors::or_lines;
use crate::told_check::{Asked, is_unbounded};
use cf_covers::is_out_of_reach;
use cf_form::Branch;
use cf_match::Class;
use cf_tree::{NoMemory, Param, Text, add_u32, put_number};
use std::alloc::Global;

/// Of so many arms of a match it is told which no number reaches.
const MOST_ARMS: usize = 256;

/// More search tuples than these are told.
const MANY_TUPLES: u64 = 10_000;

/// The lines on the outputs of a choose, where this is noted, and behind them those on its branches.
///
/// # Errors
/// `NoMemory` where memory ran out.
pub(crate) fn beside_lines(
    alloc: Global,
    asked: &Asked<'_>,
    branches: &[Branch],
    number: u32,
    notes: &Notes<'_>,
) -> Result<Vec<u8>, NoMemory>
    ensures { IfOk result (λ t. AreBesideLines (asked_view asked.now) (map told_branch branches.now) number (notes_view notes.now) t.items) }
{
    let mut lines = unbounded_lines(alloc, asked, branches, number, notes.outputs)?;
    let more = or_lines(alloc, asked, branches, number, notes.ors)?;
    lines.extend_from_slice(&more)?;
    Ok(lines)
}

// ---- outputs
/// The lines on the outputs of these names that nothing bounds.
///
/// # Errors
/// `NoMemory` where memory ran out.
pub(crate) fn unbounded_lines(
    alloc: Global,
    asked: &Asked<'_>,
    branches: &[Branch],
    number: u32,
    names: &[Text],
) -> Result<Vec<u8>, NoMemory>
    ensures { IfOk result (λ t. AreUnboundedLines (asked_view asked.now) (map told_branch branches.now) number names.now t.items) }
{
    let mut lines = Vec::new(alloc);
    let mut output: u32 = 0;
    let mut rest = names;
    while let Some((name, more)) = rest.split_first() {
        put_unbounded(
            &mut lines,
            is_unbounded(asked, branches, output),
            number,
            name,
        )?;
        output = add_u32(output, 1)?;
        rest = more;
    }
    Ok(lines)
}

// Adds the line on an output, if it is told.
fn put_unbounded(
    lines: &mut Vec<u8>,
    is_told: bool,
    number: u32,
    name: &Text,
) -> Result<(), NoMemory>
    ensures { OnOk result (lines.new.items ≡ lines.old.items ++ (if is_told then unbounded_line number name.now else [])) }
{
    if !is_told {
        return Ok(());
    }
    put_head(lines, b"choose ".as_slice(), number)?;
    lines.extend_from_slice(b"nothing bounds output ".as_slice())?;
    lines.extend_from_slice(&name.bytes)?;
    lines.push(b'\n')?;
    Ok(())
}

// ---- arms
/// The lines on arms of a match with these classes that no number reaches.
///
/// # Errors
/// `NoMemory` where memory ran out.
pub(crate) fn unreached_lines(
    alloc: Global,
    number: u32,
    classes: &[Class],
) -> Result<Vec<u8>, NoMemory>
    ensures { IfOk result (λ t. AreUnreachedLines number classes.now t.items) }
{
    let mut lines = Vec::new(alloc);
    let mut arm: usize = 0;
    let mut rest = classes;
    while let Some((class, more)) = rest.split_first() {
        put_unreached(&mut lines, is_unreached(classes, arm, *class), number, arm)?;
        arm += 1;
        rest = more;
    }
    Ok(lines)
}

// Whether each number of a class is in one of so many first ones.
fn is_unreached(classes: &[Class], arm: usize, class: Class) -> bool
    requires { arm < length classes.now }
    ensures { result ≡ true → TellsUnreached classes.now arm class }
{
    arm < MOST_ARMS && is_out_of_reach(&classes[..arm], class)
}

// Adds the line on an arm, if it is told.
fn put_unreached(
    lines: &mut Vec<u8>,
    is_told: bool,
    number: u32,
    arm: usize,
) -> Result<(), NoMemory>
    requires { arm < 2 ^ 64 - 1 }
    ensures { OnOk result (lines.new.items ≡ lines.old.items ++ (if is_told then unreached_line number arm else [])) }
{
    if !is_told {
        return Ok(());
    }
    put_head(lines, b"match ".as_slice(), number)?;
    lines.extend_from_slice(b"no number reaches arm ".as_slice())?;
    put_number(lines, arm + 1)?;
    lines.push(b'\n')?;
    Ok(())
}

// ---- tuples
/// Adds the line on search tuples, where there are many.
///
/// # Errors
/// `NoMemory` where memory ran out.
pub(crate) fn put_tuples(text: &mut Vec<u8>, number: u32, tuples: u64) -> Result<(), NoMemory>
    ensures { OnOk result (text.new.items ≡ text.old.items ++ tuples_line number tuples) }
{
    if tuples <= MANY_TUPLES {
        return Ok(());
    }
    put_head(text, b"choose ".as_slice(), number)?;
    text.extend_from_slice(b"a line may try ".as_slice())?;
    put_number(text, tuples)?;
    text.extend_from_slice(b" tuples\n".as_slice())?;
    Ok(())
}

// ---- parameters
/// The lines on parameters that stand nowhere in their functions, in a file of this name.
///
/// # Errors
/// `NoMemory` where memory ran out.
pub(crate) fn unused_lines(
    alloc: Global,
    name: &[u8],
    params: &[&Param],
) -> Result<Vec<u8>, NoMemory>
    ensures { IfOk result (λ t. t.items ≡ the_unused_lines name.now (map (λ p. p.now) params.now)) }
{
    let mut lines = Vec::new(alloc);
    for param in params {
        put_unused(&mut lines, name, param)?;
    }
    Ok(lines)
}

fn put_unused(lines: &mut Vec<u8>, name: &[u8], param: &Param) -> Result<(), NoMemory>
    ensures { OnOk result (lines.new.items ≡ lines.old.items ++ unused_line name.now param.now) }
{
    put_front(lines, name, Some(param.place))?;
    lines.extend_from_slice(b"nothing uses parameter ".as_slice())?;
    lines.extend_from_slice(&param.name.bytes)?;
    lines.push(b'\n')?;
    Ok(())
}
