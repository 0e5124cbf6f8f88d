//! The chooses of which a block may tell that there is no solution.
ghost use Rattle.std.specs.Prelude.{◌≡◌, ◌++◌, ◌∷◌, [], codes, drop, nat_eq, true, IfOk, OnOk};
ghost use Rattle.std.specs.List.{list_any};
ghost use Rattle.cf_stmt.specs.BlockView.{block_tree};
ghost use Rattle.cf_print_shape.specs.Nones.{nones_of as all_nones, with_number as with_the_number};

use cf_stmt::Block;
use cf_tree::NoMemory;

fn stands_among(number: u32, numbers: &[u32]) -> bool
    ensures { result ≡ list_any (λ m. nat_eq number m) numbers.now }
{
    for other in numbers {
        if number == *other {
            return true;
        }
    }
    false
}

fn with_number(number: u32, numbers: Vec<u32>) -> Result<Vec<u32>, NoMemory>
    ensures { IfOk result (λ all. all.items ≡ with_the_number number numbers.items) }
{
    if stands_among(number, &numbers) {
        return Ok(numbers);
    }
    let mut all = numbers;
    all.push(number)?;
    Ok(all)
}

/// The chooses of which a block may tell that there is no solution, behind others.
#[cycle(nones_of)]
pub fn nones_of(block: &Block, numbers: Vec<u32>) -> Result<Vec<u32>, NoMemory>
    ensures { IfOk result (λ all. all.items ≡ all_nones (block_tree block.now) numbers.items) }
{
    match block {
        Block::Stop(number) => with_number(*number, numbers),
        Block::Give(_) | Block::Leave => Ok(numbers),
        Block::Bind(a, b)
        | Block::Part(a, b)
        | Block::Join(a, b)
        | Block::Arm {
            body: a,
            later: b,
            ..
        } => {
            let first = nones_of(a, numbers)?;
            nones_of(b, first)
        }
        Block::Test { test, yes, no } => {
            let first = nones_of(test, numbers)?;
            let second = nones_of(yes, first)?;
            nones_of(no, second)
        }
    }
}
