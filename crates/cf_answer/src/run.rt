//! `run`: the replies of a source to the lines of the input.
ghost use Rattle.std.specs.Prelude.{◌≡◌, ◌≤◌, ◌<◌, ◌-◌, ◌^◌, ◌∷◌, [], List, ℕ, not, length, map, OnErr};
ghost use Rattle.cf_words.specs.Commands.{run as the_run};
ghost use Rattle.cf_answer.specs.Ends.{AnswersOn};
ghost use Rattle.cf_answer.specs.Limits.{text_limit};
ghost use Rattle.cf_answer.specs.Outside.{streams};
ghost use Rattle.cf_answer.specs.Refusals.{IsRefusedRun};
ghost use Rattle.cf_answer.specs.Statuses.{status_of as the_status_of, IsEarly};
ghost use Rattle.cf_answer.specs.Steps.{IsVerdict, IsNamedRunner};

use crate::answerer::{Replier, Runner};
use crate::fault::Fault;
use crate::input::answer_by;
use crate::source::runner;
use crate::tallies::closing;
use cf_io::{Sink, Source};
use cf_lex::edition_of;
use cf_pass::Pass;
use cf_words::{Flags, ReplyForm};
use std::alloc::Global;

/// What answers the lines for `run` of a source text, where a target is rewritten by the passes, or by
/// none if it is to be plain.
///
/// # Errors
/// Why the text is refused (docs/FORMATS.md, 'Statuses'), or `NoMemory`.
pub fn runner_of(
    alloc: Global,
    plain: bool,
    text: &[u8],
    passes: &mut Vec<Box<dyn Pass>>,
) -> Result<Runner, Fault>
    requires short { length text.now ≤ text_limit }
    requires place { length text.now < 2 ^ 32 - 1 }
    ensures verdict { IsVerdict (IsNamedRunner (not plain) text.now (map (λ p. told p) passes.old.items) (map (λ p. told p) passes.new.items))
        (IsRefusedRun text.now) result }
    ensures kept { OnErr result (map (λ p. told p) passes.new.items ≡ map (λ p. told p) passes.old.items) }
{
    if plain {
        return runner(alloc, text, &mut Vec::new(alloc));
    }
    runner(alloc, text, passes)
}

/// Answers the input by the target that a source text is compiled to, or by its late program.
pub fn run_source<I: Source, O: Sink>(
    alloc: Global,
    flags: Flags,
    form: ReplyForm,
    text: &[u8],
    input: &mut I,
    out: &mut O,
    passes: &mut Vec<Box<dyn Pass>>,
) -> Result<(), Fault>
    requires short { length text.now ≤ text_limit }
    requires place { length text.now < 2 ^ 32 - 1 }
    ensures answers { (file : List ℕ) →
        AnswersOn (the_run flags form file) (map (λ p. told p) passes.old.items) (map (λ p. told p) passes.new.items) (text.now ∷ [])
        (streams (I.seen input.old) (O.seen out.old)) (streams (I.seen input.new) (O.seen out.new)) result }
    ensures unread { IsEarly (the_status_of result) → input.new ≡ input.old }
    ensures unwritten { IsEarly (the_status_of result) → out.new ≡ out.old }
{
    let runner = runner_of(alloc, flags.plain, text, passes)?;
    let end = closing(alloc, flags.stats, passes)?;
    let replier = Replier { runner, form };
    answer_by(alloc, edition_of(text), &replier, &end, input, out)
}
