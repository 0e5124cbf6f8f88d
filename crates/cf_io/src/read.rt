//! Reading a text as far as it may be read.
ghost use Rattle.std.specs.Prelude.{◌≡◌, ◌⊎◌, ◌≤◌, ◌<◌, ◌+◌, ℕ, List, length, take, IfOk, IfSome, IsErrOf};
ghost use Rattle.cf_io.specs.Bytes.{TookFront};
ghost use Rattle.cf_io.specs.Causes.{Rose, one_more};

use crate::faults::{FetchFault, ReadFault};
use crate::traits::Shelf;
use std::alloc::Global;

const PIECE: usize = 4096;

/// Reads the first `most` bytes of the text under a name: all of it, where it has no more.
///
/// It fetches the text once, reads no byte behind these, and its end at most once.
pub fn read_front<F: Shelf>(
    alloc: Global,
    shelf: &mut F,
    name: &str,
    most: usize,
) -> Result<Vec<u8>, FetchFault>
    ensures front { IfOk result (λ bytes. IfSome ((F.seen shelf.old).texts name.now) (λ text. bytes.items ≡ take most text)) }
    ensures short { IfOk result (λ bytes. length bytes.items ≤ most) }
    ensures failed { IsErrOf result FetchFault.Failed → Rose ((F.seen shelf.old).faults name.now) ((F.seen shelf.new).faults name.now) }
    ensures most { ((F.seen shelf.new).left ≡ (F.seen shelf.old).left) ⊎
        TookFront most ((F.seen shelf.old).texts name.now) (F.seen shelf.new).left }
    ensures given { (F.seen shelf.new).given ≤ (F.seen shelf.old).given + most }
    ensures ends { (F.seen shelf.new).ends ≤ (F.seen shelf.old).ends + 1 }
    ensures texts { (other : List ℕ) → (F.seen shelf.new).texts other ≡ (F.seen shelf.old).texts other }
    ensures counts { (other : List ℕ) → (F.seen shelf.old).faults other ≤ (F.seen shelf.new).faults other }
    ensures same { ¬ IsErrOf result FetchFault.Failed → (other : List ℕ) → (F.seen shelf.new).faults other ≡ (F.seen shelf.old).faults other }
    ensures once { (other : List ℕ) → (F.seen shelf.new).faults other ≤ one_more ((F.seen shelf.old).faults other) }
    ensures asked { (F.seen shelf.new).fetches ≡ one_more (F.seen shelf.old).fetches }
{
    shelf.fetch(alloc, name)?;
    let mut bytes = Vec::new(alloc);
    let mut piece = [0u8; PIECE];
    'pieces: while bytes.len() < most {
        let room = (most - bytes.len()).min(PIECE);
        let count = shelf.read(&mut piece[..room])?;
        if count == 0 {
            return Ok(bytes);
        }
        bytes.extend_from_slice(&piece[..count])?;
    }
    Ok(bytes)
}

/// Reads the whole text under a name, where it has at most `limit` bytes.
///
/// It fetches the text once, and reads at most one byte more than the limit, and its end at most once.
pub fn read_text<F: Shelf>(
    alloc: Global,
    shelf: &mut F,
    name: &str,
    limit: usize,
) -> Result<Vec<u8>, ReadFault>
    ensures whole { IfOk result (λ bytes. IfSome ((F.seen shelf.old).texts name.now) (λ text. bytes.items ≡ text)) }
    ensures short { IfOk result (λ bytes. length bytes.items ≤ limit) }
    ensures long { IsErrOf result ReadFault.TooLong → IfSome ((F.seen shelf.old).texts name.now) (λ text. limit < length text) }
    ensures failed { IsErrOf result ReadFault.Failed → Rose ((F.seen shelf.old).faults name.now) ((F.seen shelf.new).faults name.now) }
    ensures most { ((F.seen shelf.new).left ≡ (F.seen shelf.old).left) ⊎
        TookFront (limit + 1) ((F.seen shelf.old).texts name.now) (F.seen shelf.new).left }
    ensures given { (F.seen shelf.new).given ≤ (F.seen shelf.old).given + (limit + 1) }
    ensures ends { (F.seen shelf.new).ends ≤ (F.seen shelf.old).ends + 1 }
    ensures texts { (other : List ℕ) → (F.seen shelf.new).texts other ≡ (F.seen shelf.old).texts other }
    ensures counts { (other : List ℕ) → (F.seen shelf.old).faults other ≤ (F.seen shelf.new).faults other }
    ensures same { ¬ IsErrOf result ReadFault.Failed → (other : List ℕ) → (F.seen shelf.new).faults other ≡ (F.seen shelf.old).faults other }
    ensures once { (other : List ℕ) → (F.seen shelf.new).faults other ≤ one_more ((F.seen shelf.old).faults other) }
    ensures asked { (F.seen shelf.new).fetches ≡ one_more (F.seen shelf.old).fetches }
{
    let front = read_front(alloc, shelf, name, limit.saturating_add(1))?;
    if front.len() > limit {
        return Err(ReadFault::TooLong);
    }
    Ok(front)
}
