//! What is handed back of the reply to a line.
ghost use Rattle.std.specs.Prelude.{◌≡◌, false, length, nat_le};
ghost use Rattle.std.specs.Result.{result_map_both};
ghost use Rattle.cf_c.specs.Answered.{IsFilled, called_code};
ghost use Rattle.cf_c.specs.Lines.{IsHandedBack};

use crate::code::{NO_MEMORY, TOO_SMALL, number_of};
use crate::put::{fits, put};
use cf_top::Status;
use cf_tree::NoMemory;

// Puts as many first bytes of the reply into `out` as fit, and answers whether these are all.
fn hand_over(reply: &[u8], out: &mut [u8], out_size: &mut usize) -> u32
    ensures filled { IsFilled out.old out.new out_size.new reply.now }
    ensures number { result ≡ called_code Status.Done false (nat_le (length reply.now) (length out.old)) }
{
    let is_whole = fits(reply, out);
    *out_size = put(reply, out);
    if is_whole {
        number_of(Status::Done)
    } else {
        TOO_SMALL
    }
}

/// Hands back the reply to a line, or none where memory ran out, and answers the number of it.
pub fn hand_back(replied: Result<Vec<u8>, NoMemory>, out: &mut [u8], out_size: &mut usize) -> u32
    ensures { IsHandedBack (result_map_both (λ t. t.items) (λ f. f) replied) out.old out.new out_size.new result }
{
    match replied {
        Ok(reply) => hand_over(&reply, out, out_size),
        Err(NoMemory) => {
            *out_size = 0;
            NO_MEMORY
        }
    }
}
