//! The limits of the input.
ghost use Rattle.std.specs.Prelude.{◌≡◌, ◌<◌, ◌^◌};
ghost use Rattle.cf_io.specs.Limits.{line_limit, input_limit};

/// The most bytes of a line, without its end.
pub const LINE_LIMIT: usize = 65_536;

/// The most bytes of the input.
pub const INPUT_LIMIT: usize = 16_777_216;

/// The most bytes of a line, as a call, so that goals hold its name and not its numeral.
#[tactic(auto, unfolding(crate::specs::Limits::line_limit))]
pub fn longest_line() -> usize
    ensures is { result ≡ line_limit }
    ensures small { result < 2 ^ 31 }
{
    LINE_LIMIT
}

/// The most bytes of the input, as a call.
#[tactic(auto, unfolding(crate::specs::Limits::input_limit))]
pub fn longest_input() -> usize
    ensures is { result ≡ input_limit }
    ensures small { result < 2 ^ 31 }
{
    INPUT_LIMIT
}
