//! Which variables are read.
ghost use Rattle.std.specs.Prelude.{◌≡◌, OnOk, IfOk, suc};
ghost use Rattle.cf_tree.specs.CodeView.{code_tree, code_trees};
ghost use Rattle.cf_stmt.specs.BlockView.{block_tree};
ghost use Rattle.cf_print_shape.specs.Shapes.{all_read as read_in_some, block_reads as read_in_block, reads as read_in};

use crate::shape::gives;
use cf_stmt::Block;
use cf_tree::{Code, NoMemory};

/// The level behind a level.
///
/// # Errors
/// `NoMemory` behind the last level.
pub fn next_level(level: u32) -> Result<u32, NoMemory>
    ensures { IfOk result (λ next. next ≡ suc level) }
{
    match level.checked_add(1) {
        Some(next) => Ok(next),
        None => Err(NoMemory),
    }
}

/// Whether an expression reads the variable of a level.
#[cycle(reads)]
pub(crate) fn reads(level: u32, code: &Code) -> bool
    ensures { result ≡ read_in level (code_tree code.now) }
{
    match code {
        Code::Var(y) => *y == level,
        Code::SetOf(parts)
        | Code::Tuple(parts)
        | Code::Sum(parts)
        | Code::Min(parts)
        | Code::Max(parts)
        | Code::Union(parts)
        | Code::Inter(parts) => all_read(level, parts),
        Code::Neg(a)
        | Code::Not(a)
        | Code::Card(a)
        | Code::Div { of: a, .. }
        | Code::Mod { of: a, .. }
        | Code::Divides { of: a, .. } => reads(level, a),
        Code::Sub(a, b)
        | Code::Mul(a, b)
        | Code::And(a, b)
        | Code::Or(a, b)
        | Code::Diff(a, b)
        | Code::Subset(a, b)
        | Code::Compare {
            left: a,
            right: b,
            ..
        }
        | Code::Fresh { avoid: a, n: b } => reads(level, a) || reads(level, b),
        Code::Slice {
            set: a,
            from: b,
            n: c,
        }
        | Code::If {
            test: a,
            yes: b,
            no: c,
        } => reads(level, a) || reads(level, b) || reads(level, c),
        Code::Lit(_) | Code::Truth(_) | Code::Let { .. } | Code::Solve { .. } => false,
    }
}

#[cycle(reads)]
fn all_read(level: u32, codes: &[Code]) -> bool
    ensures { result ≡ read_in_some level (code_trees codes.now) }
{
    for code in codes {
        if reads(level, code) {
            return true;
        }
    }
    false
}

/// Whether a block reads the variable of a level, where it is reached.
///
/// # Errors
/// `NoMemory` behind the last level.
#[cycle(block_reads)]
pub fn block_reads(level: u32, block: &Block) -> Result<bool, NoMemory>
    ensures { IfOk result (λ is_read. is_read ≡ read_in_block level (block_tree block.now)) }
{
    match block {
        Block::Give(code) => Ok(reads(level, code)),
        Block::Stop(_) | Block::Leave => Ok(false),
        Block::Bind(a, b) | Block::Join(a, b) => {
            Ok(block_reads(level, a)? || (gives(a) && block_reads(level, b)?))
        }
        Block::Part(a, b) => {
            Ok(block_reads(level, a)? || (gives(a) && block_reads(next_level(level)?, b)?))
        }
        Block::Test { test, yes, no } => {
            Ok(
                block_reads(level, test)?
                    || (gives(test) && (block_reads(level, yes)? || block_reads(level, no)?)),
            )
        }
        Block::Arm { body, later, .. } => Ok(
            block_reads(level, body)? || block_reads(level, later)?,
        ),
    }
}
