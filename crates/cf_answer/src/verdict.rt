//! The texts of verdicts.
ghost use Rattle.std.specs.Prelude.{◌≡◌, [], ◌++◌, get_or, OnOk};
ghost use Rattle.cf_tree.specs.Params.{names_of};
ghost use Rattle.cf_linear.specs.Reasons.{refusal_text};
ghost use Rattle.cf_eval.specs.Seen.{plain, plains};
ghost use Rattle.cf_answer.specs.Checks.{cover_text, doubt_text, existence_text, names_at, sample_text, setting_text, uniqueness_text};

use cf_eval::{Value, put_value, put_values};
use cf_linear::{Refusal, refusal_reason};
use cf_tree::{NoMemory, Param, put_number};
use cf_warn::{Cover, Doubt, ExistenceAnswer, UniquenessAnswer};
use itoa::Buffer;

// Adds the limit that is passed.
fn put_refusal(text: &mut Vec<u8>, refusal: &Refusal) -> Result<(), NoMemory>
    ensures { OnOk result (text.new.items ≡ text.old.items ++ refusal_text refusal.now) }
{
    let mut count = Buffer::new();
    let reason = refusal_reason(refusal, &mut count);
    text.extend_from_slice(reason.words)?;
    text.extend_from_slice(reason.gap)?;
    text.extend_from_slice(reason.count)?;
    Ok(())
}

// Adds why a question is not decided.
fn put_doubt(text: &mut Vec<u8>, doubt: &Doubt) -> Result<(), NoMemory>
    ensures { OnOk result (text.new.items ≡ text.old.items ++ doubt_text doubt.now) }
{
    match doubt {
        Doubt::Refused(refusal) => put_refusal(text, refusal),
        Doubt::Overflow => {
            text.extend_from_slice(b"overflow")?;
            Ok(())
        }
    }
}

/// The name of a level.
pub(crate) fn name_at(scope: &[Param], level: u32) -> &[u8]
    ensures { result.now ≡ get_or (names_of scope.now) level [] }
{
    match scope.get(level as usize) {
        Some(param) => &param.name.bytes,
        None => b"".as_slice(),
    }
}

// Adds a name with its value, and `before` before it.
fn put_setting(
    text: &mut Vec<u8>,
    before: &[u8],
    name: &[u8],
    value: &Value,
) -> Result<(), NoMemory>
    ensures { OnOk result (text.new.items ≡ text.old.items ++ setting_text before.now name.now (plain value.now)) }
{
    text.extend_from_slice(before)?;
    text.extend_from_slice(name)?;
    text.extend_from_slice(b" = ")?;
    put_value(text, value)?;
    Ok(())
}

// Adds the values of the parameters.
#[tactic(auto, using(crate::proofs::SampleLemmas::setting_more))]
fn put_sample(
    text: &mut Vec<u8>,
    scope: &[Param],
    levels: &[u32],
    sample: &[Value],
) -> Result<(), NoMemory>
    ensures { OnOk result (text.new.items ≡ text.old.items ++ sample_text (names_at (names_of scope.now) levels.now) (plains sample.now)) }
{
    let mut before = b" for ".as_slice();
    let mut rest = levels;
    let mut values = sample;
    'values: while let Some((value, more_values)) = values.split_first() {
        let Some((level, more_levels)) = rest.split_first() else {
            return Ok(());
        };
        put_setting(text, before, name_at(scope, *level), value)?;
        before = b", ".as_slice();
        rest = more_levels;
        values = more_values;
    }
    Ok(())
}

/// Adds whether outputs always exist. The variables in scope have these names, and the parameters these
/// levels.
pub fn put_existence(
    text: &mut Vec<u8>,
    scope: &[Param],
    levels: &[u32],
    answer: &ExistenceAnswer,
) -> Result<(), NoMemory>
    ensures { OnOk result (text.new.items ≡ text.old.items ++ existence_text (names_at (names_of scope.now) levels.now) answer.now) }
{
    match answer {
        ExistenceAnswer::Always => {
            text.extend_from_slice(b"outputs always")?;
            Ok(())
        }
        ExistenceAnswer::Missing(sample) => {
            text.extend_from_slice(b"no outputs")?;
            put_sample(text, scope, levels, sample)?;
            Ok(())
        }
        ExistenceAnswer::Undecided(doubt) => {
            text.extend_from_slice(b"existence undecided: ")?;
            put_doubt(text, doubt)?;
            Ok(())
        }
    }
}

/// Adds whether outputs are the only ones, for the same names and levels.
pub fn put_uniqueness(
    text: &mut Vec<u8>,
    scope: &[Param],
    levels: &[u32],
    answer: &UniquenessAnswer,
) -> Result<(), NoMemory>
    ensures { OnOk result (text.new.items ≡ text.old.items ++ uniqueness_text (names_at (names_of scope.now) levels.now) answer.now) }
{
    match answer {
        UniquenessAnswer::Unique => {
            text.extend_from_slice(b"outputs unique")?;
            Ok(())
        }
        UniquenessAnswer::Two {
            sample,
            first,
            second,
        } => {
            text.extend_from_slice(b"two outputs")?;
            put_sample(text, scope, levels, sample)?;
            text.extend_from_slice(b": ")?;
            put_values(text, first)?;
            text.extend_from_slice(b" and ")?;
            put_values(text, second)?;
            Ok(())
        }
        UniquenessAnswer::Undecided(doubt) => {
            text.extend_from_slice(b"uniqueness undecided: ")?;
            put_doubt(text, doubt)?;
            Ok(())
        }
    }
}

/// Adds whether the arms of a match cover all numbers.
pub fn put_cover(text: &mut Vec<u8>, answer: &Cover) -> Result<(), NoMemory>
    ensures { OnOk result (text.new.items ≡ text.old.items ++ cover_text answer.now) }
{
    match answer {
        Cover::All => {
            text.extend_from_slice(b"covers all numbers")?;
            Ok(())
        }
        Cover::Misses(number) => {
            text.extend_from_slice(b"misses ")?;
            put_number(text, *number)?;
            Ok(())
        }
        Cover::Undecided(doubt) => {
            text.extend_from_slice(b"coverage undecided: ")?;
            put_doubt(text, doubt)?;
            Ok(())
        }
    }
}
