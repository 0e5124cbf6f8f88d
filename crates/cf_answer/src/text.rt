//! The tokens of a text.
ghost use Rattle.std.specs.Prelude.{◌≡◌, ◌⊎◌, ◌≤◌, ◌<◌, ◌-◌, ◌^◌, length, IfOk, IfErr};
ghost use Rattle.cf_lex.specs.Editions.{edition_of};
ghost use Rattle.cf_lex.specs.Tokens.{AreWithin, at_end};
ghost use Rattle.cf_tree.specs.declared.base.Edition.TheVariants.{Two};
ghost use Rattle.cf_answer.specs.Limits.{TextKind, text_limit, of_target, tokens_of, most_of};
ghost use Rattle.cf_answer.specs.Refusals.{IsRefusedTarget};
ghost use Rattle.cf_answer.specs.Sources.{HasTokens};
ghost use Rattle.cf_answer.specs.Steps.{IsMisspelled};

use crate::fault::Fault;
use cf_lex::{LexFault, TokenList, tokens};
use cf_tree::Edition;
use std::alloc::Global;

/// The tokens of a text by an edition, or why the text is refused, whatever it is to spell. Targets
/// have those of language 2.
pub fn lexed(alloc: Global, edition: Edition, text: &[u8]) -> Result<TokenList, Fault>
    requires place { length text.now < 2 ^ 32 - 1 }
    ensures tokens { IfOk result (λ list. (kind : TextKind) → tokens_of kind ≡ edition → length text.now ≤ most_of kind →
        HasTokens kind text.now list.list.items list.end at_end) }
    ensures within { IfOk result (λ list. AreWithin (2 ^ 127 - 1) list.list.items) }
    ensures source { IfErr result (λ f. edition ≡ edition_of text.now → length text.now ≤ text_limit → IsMisspelled text.now f ⊎ (f ≡ Fault.NoMemory)) }
    ensures target { IfErr result (λ f. edition ≡ Two → length text.now ≤ most_of (of_target (edition_of text.now)) →
        IsRefusedTarget text.now f ⊎ (f ≡ Fault.NoMemory)) }
{
    match tokens(alloc, edition, text) {
        Ok(list) => Ok(list),
        Err(LexFault::BadByte(place)) => Err(Fault::BadByte(place)),
        Err(LexFault::NumberPast(place)) => Err(Fault::NumberPast(place)),
        Err(LexFault::NoMemory) => Err(Fault::NoMemory),
    }
}
