//! Signs before the terms of a pattern.
ghost use Rattle.std.specs.Prelude.{◌≡◌, ◌≤ℤ◌, pos};
ghost use Rattle.cf_reader.specs.Answers.{FirstAnswer};
ghost use Rattle.cf_reader.specs.Readers.{at};
ghost use Rattle.cf_parse.specs.Spelling.{signed as signed_of, is_minus as is_minus_of};
ghost use Rattle.cf_parse.specs.Reading.{a_sign};

use cf_lex::{Token, TokenKind};
use cf_reader::{negated, spells};
use cf_tree::Place;

/// The sign before a term of a pattern. The first term may stand without one, as behind a plus.
#[derive(Clone, Copy)]
pub enum TermSign {
    Plus,
    Minus,
}

/// The number as the sign before it makes it.
pub fn signed(sign: TermSign, k: i128) -> i128
    requires { pos 0 ≤ℤ k }
    ensures { result ≡ signed_of sign k }
{
    match sign {
        TermSign::Plus => k,
        TermSign::Minus => negated(k),
    }
}

/// Whether it is a minus.
pub fn is_minus(sign: TermSign) -> bool
    ensures { result ≡ is_minus_of sign }
{
    match sign {
        TermSign::Plus => false,
        TermSign::Minus => true,
    }
}

/// The plus or the minus that stands first, with its place, and the tokens after it.
#[tactic(auto, unfolding(cf_reader::specs::Readers::at))]
pub fn after_term_sign(tokens: &[Token]) -> Option<((Place, TermSign), &[Token])>
    ensures { FirstAnswer (λ x. (x.0, x.1.now)) result (at a_sign tokens.now) }
{
    let (t, rest) = tokens.split_first()?;
    let TokenKind::Sign(sign) = &t.kind else {
        return None;
    };
    if spells(&sign.bytes, "+") {
        Some(((t.place, TermSign::Plus), rest))
    } else if spells(&sign.bytes, "-") {
        Some(((t.place, TermSign::Minus), rest))
    } else {
        None
    }
}
