//! At which place a block gives a variable.
ghost use Rattle.std.specs.Prelude.{◌≡◌, IfOk, IfErr, drop};
ghost use Rattle.cf_tree.specs.CodeView.{code_tree, code_trees};
ghost use Rattle.cf_stmt.specs.BlockView.{block_tree};
ghost use Rattle.cf_print_shape.specs.Wishes.{given_at as place_given, is_level as has_level, place_among as place_amid, place_in as place_within};

use crate::reads::next_level;
use cf_print::next;
use cf_stmt::Block;
use cf_tree::{Code, NoMemory};

fn is_level(code: &Code, level: u32) -> bool
    ensures { result ≡ has_level (code_tree code.now) level }
{
    match code {
        Code::Var(y) => *y == level,
        _ => false,
    }
}

// The place of a variable among codes, of which the first has this place.
fn place_among(first: usize, codes: &[Code], level: u32) -> Result<Option<usize>, NoMemory>
    ensures { IfOk result (λ place. place ≡ place_amid first (code_trees codes.now) level) }
{
    let mut place = first;
    for code in codes {
        if is_level(code, level) {
            return Ok(Some(place));
        }
        place = next(place)?;
    }
    Ok(None)
}

fn place_in(first: usize, code: &Code, level: u32) -> Result<Option<usize>, NoMemory>
    ensures { IfOk result (λ place. place ≡ place_within first (code_tree code.now) level) }
{
    match code {
        Code::Tuple(parts) => place_among(first, parts, level),
        Code::Var(y) if *y == level => Ok(Some(first)),
        _ => Ok(None),
    }
}

/// The place at which a block gives a variable, where its first value has this place.
#[cycle(given_at)]
pub fn given_at(first: usize, block: &Block, level: u32) -> Result<Option<usize>, NoMemory>
    ensures { IfOk result (λ place. place ≡ place_given first (block_tree block.now) level) }
{
    match block {
        Block::Give(code) => place_in(first, code, level),
        Block::Bind(_, b) => given_at(first, b, level),
        Block::Part(_, b) => given_at(first, b, next_level(level)?),
        Block::Join(a, b) => match given_at(first, a, level)? {
            Some(place) => Ok(Some(place)),
            None => given_at(next(first)?, b, level),
        },
        Block::Test { yes, no, .. } => match given_at(first, yes, level)? {
            Some(place) => Ok(Some(place)),
            None => given_at(first, no, level),
        },
        Block::Stop(_) | Block::Leave | Block::Arm { .. } => Ok(None),
    }
}
