//! The limits of texts.
ghost use Rattle.std.specs.Prelude.{◌≡◌, ◌<◌, ◌^◌};
ghost use Rattle.cf_answer.specs.Limits.{text_limit, written_limit, of_target, most_of};

use cf_tree::Edition;

/// The most bytes of a source text, and of a target or steps file of language 2.
pub const TEXT_LIMIT: usize = 1_048_576;

/// The most bytes of a target or steps file of edition 3.
pub const WRITTEN_LIMIT: usize = 67_108_864;

/// The most bytes of a source text, as a call, so that goals hold its name and not its numeral.
#[tactic(auto, unfolding(crate::specs::Limits::text_limit))]
pub fn longest_text() -> usize
    ensures is { result ≡ text_limit }
    ensures small { result < 2 ^ 31 }
{
    TEXT_LIMIT
}

/// The most bytes of a target or steps file of edition 3, as a call.
#[tactic(auto, unfolding(crate::specs::Limits::written_limit))]
pub fn longest_written() -> usize
    ensures is { result ≡ written_limit }
    ensures small { result < 2 ^ 31 }
{
    WRITTEN_LIMIT
}

/// The most bytes of a target or steps file of an edition.
pub fn longest_target(edition: Edition) -> usize
    ensures is { result ≡ most_of (of_target edition) }
    ensures small { result < 2 ^ 31 }
{
    match edition {
        Edition::Two => longest_text(),
        Edition::Three => longest_written(),
    }
}
