//! From the text of a steps file to its blocks.
ghost use Rattle.std.specs.Prelude.{◌≡◌, ◌⊎◌, ◌≤◌, ◌<◌, ◌-◌, ◌^◌, length, IfOk, IfErr};
ghost use Rattle.cf_lex.specs.Tokens.{AreWithin, at_end};
ghost use Rattle.cf_tree.specs.declared.base.Edition.{Edition as TheEdition};
ghost use Rattle.cf_steps.specs.Blocks.{block_trees};
ghost use Rattle.cf_answer.specs.Limits.{of_target, most_of};
ghost use Rattle.cf_answer.specs.Sources.{HasTokens};
ghost use Rattle.cf_answer.specs.Steps.{IsVerdict};
ghost use Rattle.cf_answer.specs.Verifying.{AreMisspelled, AreReadFrom};

use crate::fault::{Fault, StepsFault};
use cf_lex::{LexFault, TokenList, tokens};
use cf_parse::ParseFault;
use cf_steps::{Blocks, steps};
use cf_tree::Edition;
use std::alloc::Global;

// The tokens of the text of a steps file.
fn lexed_steps(alloc: Global, text: &[u8]) -> Result<TokenList, Fault>
    requires place { length text.now < 2 ^ 32 - 1 }
    ensures tokens { IfOk result (λ list. (edition : TheEdition) → length text.now ≤ most_of (of_target edition) →
        HasTokens (of_target edition) text.now list.list.items list.end at_end) }
    ensures within { IfOk result (λ list. AreWithin (2 ^ 127 - 1) list.list.items) }
    ensures fault { IfErr result (λ f. (edition : TheEdition) → length text.now ≤ most_of (of_target edition) →
        AreMisspelled edition text.now f ⊎ (f ≡ Fault.NoMemory)) }
{
    match tokens(alloc, Edition::Two, text) {
        Ok(list) => Ok(list),
        Err(LexFault::BadByte(place)) => Err(Fault::Steps(StepsFault::BadByte(place))),
        Err(LexFault::NumberPast(place)) => Err(Fault::Steps(StepsFault::NumberPast(place))),
        Err(LexFault::NoMemory) => Err(Fault::NoMemory),
    }
}

/// The blocks that the text of a steps file spells for a source of this edition, or why the text is refused.
pub fn read_steps(alloc: Global, edition: Edition, text: &[u8]) -> Result<Blocks, Fault>
    requires short { length text.now ≤ most_of (of_target edition) }
    requires place { length text.now < 2 ^ 32 - 1 }
    ensures { IsVerdict (λ bs. AreReadFrom edition text.now (block_trees bs)) (AreMisspelled edition text.now) result }
{
    let list = lexed_steps(alloc, text)?;
    match steps(alloc, edition, &list) {
        Ok(found) => Ok(found),
        Err(ParseFault::Syntax(place)) => Err(Fault::Steps(StepsFault::Syntax(place))),
        Err(ParseFault::NoMemory) => Err(Fault::NoMemory),
    }
}
