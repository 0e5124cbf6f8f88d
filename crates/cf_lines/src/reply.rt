//! The reply to one line.
ghost use Rattle.std.specs.Prelude.{◌∷◌, [], IfOk};
ghost use Rattle.cf_answer.specs.Owed.{AreReplies};
ghost use Rattle.cf_answer.specs.Steps.{replier_of};

use cf_answer::{Replier, add_lent_reply};
use cf_tree::NoMemory;
use std::alloc::Global;

/// The reply to a line, which stands here without its line feed; the reply has one.
///
/// # Errors
/// Where memory ran out.
pub fn reply_to(alloc: Global, replier: &Replier, line: &[u8]) -> Result<Vec<u8>, NoMemory>
    ensures { IfOk result (λ text. AreReplies (replier_of replier.now) (line.now ∷ []) text.items) }
{
    let mut text = Vec::new(alloc);
    match add_lent_reply(alloc, replier, line, &mut text) {
        Ok(()) => Ok(text),
        Err(NoMemory) => Err(NoMemory),
    }
}
