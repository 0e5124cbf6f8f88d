//! The number that a call answers.
ghost use Rattle.std.specs.Prelude.{◌≡◌};
ghost use Rattle.cf_answer.specs.Statuses.{code_of};
ghost use Rattle.cf_c.specs.Answered.{called_code, ended_code, has_failed as the_has_failed};
ghost use Rattle.cf_memory.specs.Held.{growing_seen};

use crate::words::Uncalled;
use cf_memory::Growing;
use cf_top::Status;

/// A buffer is too small. The program ends with no such status.
pub const TOO_SMALL: u32 = 1;

/// Memory ran out.
pub const NO_MEMORY: u32 = 12;

/// The number of a status.
pub fn number_of(status: Status) -> u32
    ensures { result ≡ code_of status }
{
    u32::from(status.code())
}

// The number of a call that ended with this status. What is written is held in memory: it is lost only where memory runs out.
fn code_of_called(status: Status, has_failed: bool, is_whole: bool) -> u32
    ensures { result ≡ called_code status has_failed is_whole }
{
    if has_failed {
        return NO_MEMORY;
    }
    match status {
        Status::Output => NO_MEMORY,
        _ => {
            if is_whole {
                number_of(status)
            } else {
                TOO_SMALL
            }
        }
    }
}

/// Whether memory ran out for one of the two.
pub fn has_failed(out: &Growing, err: &Growing) -> bool
    ensures { result ≡ the_has_failed (growing_seen out.now) (growing_seen err.now) }
{
    out.has_failed() || err.has_failed()
}

/// The number that a call answers which ended so: whether a sink failed, and whether all that was written fits the caller's
/// buffers.
pub fn code_for(ended: Result<Status, Uncalled>, has_failed: bool, is_whole: bool) -> u32
    ensures { result ≡ ended_code ended has_failed is_whole }
{
    match ended {
        Ok(status) => code_of_called(status, has_failed, is_whole),
        Err(Uncalled::NoText) => number_of(Status::Usage),
        Err(Uncalled::NoMemory) => NO_MEMORY,
    }
}
