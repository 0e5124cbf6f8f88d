//! The lines of the tallies of passes.
ghost use Rattle.std.specs.Prelude.{◌≡◌, ◌++◌, map, flat_map, IfOk, OnOk};
ghost use Rattle.cf_answer.specs.Passes.{tally_line, tally_text, closing_lines};

use cf_pass::Pass;
use cf_tree::{NoMemory, put_number};
use std::alloc::Global;

// Adds the line of a pass that tells this.
fn put_line(text: &mut Vec<u8>, name: &str, tally: u64) -> Result<(), NoMemory>
    ensures { OnOk result (text.new.items ≡ text.old.items ++ tally_text name.now tally) }
{
    text.extend_from_slice(b"# ")?;
    text.extend_from_slice(name.as_bytes())?;
    text.push(b' ')?;
    put_number(text, tally)?;
    text.push(b'\n')?;
    Ok(())
}

fn put_tally(pass: &Box<dyn Pass>, text: &mut Vec<u8>) -> Result<(), NoMemory>
    ensures { OnOk result (text.new.items ≡ text.old.items ++ tally_line (told pass.now)) }
{
    put_line(text, pass.name(), pass.tally())
}

fn put_tallies(passes: &[Box<dyn Pass>], text: &mut Vec<u8>) -> Result<(), NoMemory>
    ensures { OnOk result (text.new.items ≡ text.old.items ++ flat_map tally_line (map (λ p. told p) passes.now)) }
{
    for pass in passes {
        put_tally(pass, text)?;
    }
    Ok(())
}

/// Adds what is written behind all else: the tallies of the passes, a line each, if they are asked for.
pub fn put_closing(
    stats: bool,
    passes: &[Box<dyn Pass>],
    text: &mut Vec<u8>,
) -> Result<(), NoMemory>
    ensures { OnOk result (text.new.items ≡ text.old.items ++ closing_lines stats (map (λ p. told p) passes.now)) }
{
    if stats {
        put_tallies(passes, text)?;
    }
    Ok(())
}

/// What is written behind all else.
pub fn closing(alloc: Global, stats: bool, passes: &[Box<dyn Pass>]) -> Result<Vec<u8>, NoMemory>
    ensures { IfOk result (λ text. text.items ≡ closing_lines stats (map (λ p. told p) passes.now)) }
{
    let mut text = Vec::new(alloc);
    put_closing(stats, passes, &mut text)?;
    Ok(text)
}
