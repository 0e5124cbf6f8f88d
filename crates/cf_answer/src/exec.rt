//! `exec`: the replies of a target to the lines of the input.
ghost use Rattle.std.specs.Prelude.{◌≡◌, ◌≤◌, ◌<◌, ◌-◌, ◌^◌, ◌∷◌, [], List, ℕ, length};
ghost use Rattle.cf_pass.specs.Passes.{Told};
ghost use Rattle.cf_words.specs.Commands.{exec as the_exec};
ghost use Rattle.cf_answer.specs.Ends.{AnswersOn};
ghost use Rattle.cf_answer.specs.Outside.{streams};
ghost use Rattle.cf_answer.specs.Statuses.{status_of as the_status_of, IsEarly};
ghost use Rattle.cf_target.specs.Spelling.{target_tree};
ghost use Rattle.cf_lex.specs.Editions.{edition_of as the_edition_of};
ghost use Rattle.cf_answer.specs.Limits.{of_target, most_of};
ghost use Rattle.cf_answer.specs.Refusals.{IsRefusedTarget};
ghost use Rattle.cf_answer.specs.Sources.{IsTypedTarget};
ghost use Rattle.cf_answer.specs.Steps.{IsVerdict, replier_of};
ghost use Rattle.cf_answer.specs.Forms.{form_of};
ghost use Rattle.cf_answer.specs.Owed.{by_target};

use crate::answerer::{Answerer, Replier, Runner};
use crate::fault::Fault;
use crate::input::answer_by;
use crate::limits::longest_target;
use crate::text::lexed;
use cf_io::{Sink, Source};
use cf_lex::edition_of;
use cf_parse::{ParseFault, target};
use cf_tree::{Edition, Target};
use cf_type::{TargetFault, check_target};
use cf_words::ReplyForm;
use std::alloc::Global;

/// The well-typed target that a text spells.
///
/// # Errors
/// Why the text is refused (docs/FORMATS.md, 'Statuses'), or `NoMemory`.
pub fn read_target(alloc: Global, text: &[u8]) -> Result<Target, Fault>
    requires place { length text.now < 2 ^ 32 - 1 }
    ensures { IsVerdict (λ t. IsTypedTarget text.now (target_tree t)) (IsRefusedTarget text.now) result }
{
    let edition = edition_of(text);
    if text.len() > longest_target(edition) {
        return Err(Fault::TextTooLong);
    }
    spelled_target(alloc, edition, text)
}

// The same of a text that is within the limit of its edition.
fn spelled_target(alloc: Global, edition: Edition, text: &[u8]) -> Result<Target, Fault>
    requires edition { edition ≡ the_edition_of text.now }
    requires short { length text.now ≤ most_of (of_target (the_edition_of text.now)) }
    requires place { length text.now < 2 ^ 32 - 1 }
    ensures { IsVerdict (λ t. IsTypedTarget text.now (target_tree t)) (IsRefusedTarget text.now) result }
{
    let list = lexed(alloc, Edition::Two, text)?;
    match target(alloc, edition, &list) {
        Ok(raw) => match check_target(alloc, raw) {
            Ok(target) => Ok(target),
            Err(TargetFault::BadTarget) => Err(Fault::BadTarget),
            Err(TargetFault::NoMemory) => Err(Fault::NoMemory),
        },
        Err(ParseFault::Syntax(place)) => Err(Fault::Syntax(place)),
        Err(ParseFault::NoMemory) => Err(Fault::NoMemory),
    }
}

/// What answers lines by a target, which does not know how its results are named.
pub fn target_replier(alloc: Global, target: Target, form: ReplyForm) -> Replier
    ensures { replier_of result ≡ record { by = by_target target; form = form_of form [] } }
{
    Replier {
        runner: Runner {
            answerer: Answerer::Target(target),
            names: Vec::new(alloc),
        },
        form,
    }
}

/// Answers the input by the target that a text spells.
pub fn run_target<I: Source, O: Sink>(
    alloc: Global,
    form: ReplyForm,
    text: &[u8],
    input: &mut I,
    out: &mut O,
) -> Result<(), Fault>
    requires place { length text.now < 2 ^ 32 - 1 }
    ensures answers { (file : List ℕ) (given : List Told) → AnswersOn (the_exec form file) given given (text.now ∷ [])
        (streams (I.seen input.old) (O.seen out.old)) (streams (I.seen input.new) (O.seen out.new)) result }
    ensures unread { IsEarly (the_status_of result) → input.new ≡ input.old }
    ensures unwritten { IsEarly (the_status_of result) → out.new ≡ out.old }
{
    let target = read_target(alloc, text)?;
    let replier = target_replier(alloc, target, form);
    answer_by(alloc, edition_of(text), &replier, &[], input, out)
}
