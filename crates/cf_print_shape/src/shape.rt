//! What a block comes to, as its form shows.
ghost use Rattle.std.specs.Prelude.{◌≡◌};
ghost use Rattle.cf_stmt.specs.BlockView.{block_tree};
ghost use Rattle.cf_print_shape.specs.Shapes.{can_fall as falls, exit_of as the_exit_of, gives as gives_values, is_code as is_a_code, is_if as is_an_if, is_leave as leaves, is_none as none_at, is_plain as plain, is_straight as straight, leaves_at_ends as at_ends, number_at_once as the_number_at_once, number_of as the_number_of};

use crate::exit::Exit;
use cf_stmt::Block;

// At which choose a block has no solution when it has none at once, and 0 of any other.
fn number_at_once(block: &Block) -> u32
    ensures { result ≡ the_number_at_once (block_tree block.now) }
{
    match block {
        Block::Stop(number) => *number,
        Block::Give(_)
        | Block::Leave
        | Block::Bind(_, _)
        | Block::Part(_, _)
        | Block::Join(_, _)
        | Block::Test { .. }
        | Block::Arm { .. } => 0,
    }
}

/// The number of a block of arms, of whose last the lets and guards alone may be left, and 0 of any other.
#[cycle(number_of)]
pub fn number_of(block: &Block) -> u32
    ensures { result ≡ the_number_of (block_tree block.now) }
{
    match block {
        Block::Stop(number) => *number,
        Block::Arm { later, .. } => number_of(later),
        Block::Bind(_, later) | Block::Part(_, later) => number_of(later),
        Block::Test { no, .. } => number_at_once(no),
        Block::Give(_) | Block::Leave | Block::Join(_, _) => 0,
    }
}

/// The number of a block that has no solution.
pub fn is_none(block: &Block) -> Option<u32>
    ensures { result ≡ none_at (block_tree block.now) }
{
    match block {
        Block::Stop(number) => Some(*number),
        Block::Give(_)
        | Block::Leave
        | Block::Bind(_, _)
        | Block::Part(_, _)
        | Block::Join(_, _)
        | Block::Test { .. }
        | Block::Arm { .. } => None,
    }
}

/// Whether the block leaves the arm at once.
pub fn is_leave(block: &Block) -> bool
    ensures { result ≡ leaves (block_tree block.now) }
{
    match block {
        Block::Leave => true,
        Block::Give(_)
        | Block::Stop(_)
        | Block::Bind(_, _)
        | Block::Part(_, _)
        | Block::Join(_, _)
        | Block::Test { .. }
        | Block::Arm { .. } => false,
    }
}

// Whether the block gives the values of a code at once.
fn is_code(block: &Block) -> bool
    ensures { result ≡ is_a_code (block_tree block.now) }
{
    match block {
        Block::Give(_) => true,
        Block::Stop(_)
        | Block::Leave
        | Block::Bind(_, _)
        | Block::Part(_, _)
        | Block::Join(_, _)
        | Block::Test { .. }
        | Block::Arm { .. } => false,
    }
}

/// Whether all that the block declares stands within one `if`, behind which it leaves the arm.
pub fn is_if(block: &Block) -> bool
    ensures { result ≡ is_an_if (block_tree block.now) }
{
    match block {
        Block::Test { test, no, .. } => is_code(test) && is_leave(no),
        Block::Give(_)
        | Block::Stop(_)
        | Block::Leave
        | Block::Bind(_, _)
        | Block::Part(_, _)
        | Block::Join(_, _)
        | Block::Arm { .. } => false,
    }
}

/// What a block comes to that only leaves, where leaving the arm comes to `exit`.
pub fn exit_of(exit: Exit, block: &Block) -> Option<Exit>
    ensures { result ≡ the_exit_of exit (block_tree block.now) }
{
    match block {
        Block::Stop(number) => Some(Exit::Ends(*number)),
        Block::Leave => match exit {
            Exit::Falls => None,
            Exit::GoesOn => Some(Exit::GoesOn),
            Exit::Ends(number) => Some(Exit::Ends(number)),
        },
        Block::Give(_)
        | Block::Bind(_, _)
        | Block::Part(_, _)
        | Block::Join(_, _)
        | Block::Test { .. }
        | Block::Arm { .. } => None,
    }
}

/// Whether some way through the block gives values.
#[cycle(gives)]
pub fn gives(block: &Block) -> bool
    ensures { result ≡ gives_values (block_tree block.now) }
{
    match block {
        Block::Give(_) => true,
        Block::Stop(_) | Block::Leave => false,
        Block::Bind(a, b) | Block::Part(a, b) | Block::Join(a, b) => gives(a) && gives(b),
        Block::Test { test, yes, no } => gives(test) && (gives(yes) || gives(no)),
        Block::Arm { body, later, .. } => gives(body) || gives(later),
    }
}

/// Whether the block is left only where nothing of the arm would come behind, in an arm or not.
#[cycle(leaves_at_ends)]
pub fn leaves_at_ends(in_arm: bool, block: &Block) -> bool
    ensures { result ≡ at_ends in_arm (block_tree block.now) }
{
    match block {
        Block::Give(_) | Block::Stop(_) => true,
        Block::Leave => in_arm,
        Block::Bind(a, b) | Block::Part(a, b) => {
            leaves_at_ends(false, a) && leaves_at_ends(in_arm, b)
        }
        Block::Join(a, b) => leaves_at_ends(false, a) && leaves_at_ends(false, b),
        Block::Test { test, yes, no } => {
            leaves_at_ends(false, test)
                && (leaves_at_ends(in_arm, yes) && leaves_at_ends(in_arm, no))
        }
        Block::Arm { body, later, .. } => {
            leaves_at_ends(true, body) && leaves_at_ends(in_arm, later)
        }
    }
}

/// Whether the block gives values behind lets and guards alone.
#[cycle(is_straight)]
pub fn is_straight(exit: Exit, block: &Block) -> bool
    ensures { result ≡ straight exit (block_tree block.now) }
{
    match block {
        Block::Give(_) => true,
        Block::Bind(a, b) | Block::Part(a, b) | Block::Join(a, b) => {
            gives(a) && is_straight(exit, b)
        }
        Block::Test { test, yes, no } => {
            gives(test)
                && ((exit_of(exit, no).is_some() && is_straight(exit, yes))
                    || (exit_of(exit, yes).is_some() && is_straight(exit, no)))
        }
        Block::Arm {
            bounds,
            body,
            later,
        } => match is_none(later) {
            Some(number) => bounds.len() == 0 && is_straight(Exit::Ends(number), body),
            None => false,
        },
        Block::Stop(_) | Block::Leave => false,
    }
}

/// Whether what stands behind the block is reached where it is left.
#[cycle(can_fall)]
pub fn can_fall(block: &Block) -> bool
    ensures { result ≡ falls (block_tree block.now) }
{
    match block {
        Block::Leave => true,
        Block::Bind(_, b) | Block::Part(_, b) => can_fall(b),
        Block::Test { yes, no, .. } => can_fall(yes) || can_fall(no),
        Block::Arm { later, .. } => can_fall(later),
        Block::Give(_) | Block::Stop(_) | Block::Join(_, _) => false,
    }
}

/// Whether the values of the block need no statement.
#[cycle(is_plain)]
pub fn is_plain(block: &Block) -> bool
    ensures { result ≡ plain (block_tree block.now) }
{
    match block {
        Block::Give(_) => true,
        Block::Join(a, b) => is_plain(a) && is_plain(b),
        Block::Stop(_)
        | Block::Leave
        | Block::Bind(_, _)
        | Block::Part(_, _)
        | Block::Test { .. }
        | Block::Arm { .. } => false,
    }
}
