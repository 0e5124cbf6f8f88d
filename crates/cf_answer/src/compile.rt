//! `compile`: the printed target of a source.
ghost use Rattle.std.specs.Prelude.{◌≡◌, ◌≤◌, ◌<◌, ◌-◌, ◌^◌, ◌++◌, ◌∷◌, [], List, ℕ, not, length, map, IfOk, OnErr};
ghost use Rattle.cf_io.specs.Seen.{SourceSeen};
ghost use Rattle.cf_tree.specs.Spelled.{HasSpelling};
ghost use Rattle.cf_target.specs.Spelling.{target_tree};
ghost use Rattle.cf_emit.specs.Printed.{target_text};
ghost use Rattle.cf_emit.specs.ReadsBack.{ReadsBack};
ghost use Rattle.cf_words.specs.Commands.{compile as the_compile};
ghost use Rattle.cf_answer.specs.Ends.{AnswersOn};
ghost use Rattle.cf_answer.specs.Limits.{text_limit};
ghost use Rattle.cf_answer.specs.Outside.{streams};
ghost use Rattle.cf_answer.specs.Owed.{IsCompiledBy};
ghost use Rattle.cf_answer.specs.Passes.{closing_lines};
ghost use Rattle.cf_answer.specs.Refusals.{IsRefusedSource};
ghost use Rattle.cf_answer.specs.Statuses.{status_of as the_status_of, IsEarly};
ghost use Rattle.cf_answer.specs.Steps.{IsVerdict};

use crate::fault::Fault;
use crate::source::target_of_text;
use crate::tallies::put_closing;
use crate::write::write_printed;
use cf_emit::print;
use cf_io::Sink;
use cf_lex::edition_of;
use cf_pass::Pass;
use cf_tree::{Edition, NoMemory, Target};
use cf_words::Flags;
use std::alloc::Global;

// The target that a source text is compiled to by the passes, or by none if it is to be plain.
fn compiled(
    alloc: Global,
    plain: bool,
    text: &[u8],
    passes: &mut Vec<Box<dyn Pass>>,
) -> Result<Target, Fault>
    requires short { length text.now ≤ text_limit }
    requires place { length text.now < 2 ^ 32 - 1 }
    ensures verdict { IsVerdict (IsCompiledBy (not plain) text.now (map (λ p. told p) passes.old.items) (map (λ p. told p) passes.new.items))
        (IsRefusedSource text.now) result }
    ensures kept { OnErr result (map (λ p. told p) passes.new.items ≡ map (λ p. told p) passes.old.items) }
{
    if plain {
        return target_of_text(alloc, text, &mut Vec::new(alloc));
    }
    target_of_text(alloc, text, passes)
}

// The printed target of an edition, and what is written behind all else.
fn printed(
    alloc: Global,
    edition: Edition,
    target: &Target,
    stats: bool,
    passes: &[Box<dyn Pass>],
) -> Result<Vec<u8>, NoMemory>
    ensures text { IfOk result (λ text. text.items ≡ target_text edition target.now ++ closing_lines stats (map (λ p. told p) passes.now)) }
    ensures reads_back { IfOk result (λ text. HasSpelling target.now → ReadsBack edition (target_tree target.now) (target_text edition target.now)) }
{
    let mut text = print(alloc, edition, target)?;
    put_closing(stats, passes, &mut text)?;
    Ok(text)
}

/// Writes the target that a source text is compiled to, or nothing where that is past its limit.
pub fn write_target<O: Sink>(
    alloc: Global,
    flags: Flags,
    text: &[u8],
    out: &mut O,
    passes: &mut Vec<Box<dyn Pass>>,
) -> Result<(), Fault>
    requires short { length text.now ≤ text_limit }
    requires place { length text.now < 2 ^ 32 - 1 }
    ensures answers { (file : List ℕ) (input : SourceSeen) →
        AnswersOn (the_compile flags file) (map (λ p. told p) passes.old.items) (map (λ p. told p) passes.new.items) (text.now ∷ [])
        (streams input (O.seen out.old)) (streams input (O.seen out.new)) result }
    ensures unwritten { IsEarly (the_status_of result) → out.new ≡ out.old }
{
    let target = compiled(alloc, flags.plain, text, passes)?;
    let edition = edition_of(text);
    let text = printed(alloc, edition, &target, flags.stats, passes)?;
    write_printed(out, edition, &text)
}
