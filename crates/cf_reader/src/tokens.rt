//! Tokens that stand first.
ghost use Rattle.std.specs.Prelude.{◌≡◌, ◌≤ℤ◌, neg_ℤ, pos, IfOk, IfSome, take, drop};
ghost use Rattle.std.specs.List.{list_any};
ghost use Rattle.std.specs.Str.{bytes_eq};
ghost use Rattle.cf_lex.specs.Words.{is_reserved as reserved, is_no_function as no_function, is_operation as operation_word, operation_words, reserved_words};
ghost use Rattle.cf_tree.specs.declared.base.Edition.TheVariants.{Two, Three};
ghost use Rattle.cf_lex.specs.declared.token.TokenKind.TheVariants.{Word, Sign};
ghost use Rattle.cf_reader.specs.Answers.{ReadAnswer, FirstAnswer};
ghost use Rattle.cf_reader.specs.Readers.{same_kind, is, a_name, a_function, a_literal, at, must};

use crate::read_stop::ReadStop;
use cf_lex::{Token, TokenKind};
use cf_tree::{Edition, Place, Text};
use std::alloc::Global;

/// Whether a word or sign is this text.
pub fn spells(word: &[u8], text: &str) -> bool
    ensures { result ≡ bytes_eq word.now text.now }
{
    word == text.as_bytes()
}

/// The place of the sign `sign`, if it stands first, and the tokens after it.
#[tactic(auto, unfolding(crate::specs::Readers::at))]
pub fn after_sign<'a>(sign: &str, tokens: &'a [Token]) -> Option<(Place, &'a [Token])>
    ensures { FirstAnswer (λ x. (x.0, x.1.now)) result (at (is (Sign sign.now)) tokens.now) }
{
    let (t, rest) = tokens.split_first()?;
    if is_sign(sign, &t.kind) {
        Some((t.place, rest))
    } else {
        None
    }
}

/// The place of the word `word`, if it stands first, and the tokens after it.
#[tactic(auto, unfolding(crate::specs::Readers::at))]
pub fn after_word<'a>(word: &str, tokens: &'a [Token]) -> Option<(Place, &'a [Token])>
    ensures { FirstAnswer (λ x. (x.0, x.1.now)) result (at (is (Word word.now)) tokens.now) }
{
    let (t, rest) = tokens.split_first()?;
    if is_word(word, &t.kind) {
        Some((t.place, rest))
    } else {
        None
    }
}

// Whether a token is the sign `sign`.
fn is_sign(sign: &str, kind: &TokenKind) -> bool
    ensures { result ≡ same_kind kind.now (Sign sign.now) }
{
    match kind {
        TokenKind::Literal(_) | TokenKind::Word(_) => false,
        TokenKind::Sign(s) => spells(&s.bytes, sign),
    }
}

// Whether a token is the word `word`.
fn is_word(word: &str, kind: &TokenKind) -> bool
    ensures { result ≡ same_kind kind.now (Word word.now) }
{
    match kind {
        TokenKind::Literal(_) | TokenKind::Sign(_) => false,
        TokenKind::Word(w) => spells(&w.bytes, word),
    }
}

/// The tokens after the sign `sign`, which has to stand first, and its place.
#[tactic(auto, unfolding(crate::specs::Readers::must))]
pub fn expect_sign<'a>(sign: &str, tokens: &'a [Token]) -> Result<(Place, &'a [Token]), ReadStop>
    ensures { ReadAnswer (λ x. (x.0, x.1.now)) result (must (is (Sign sign.now)) tokens.now) }
{
    after_sign(sign, tokens).ok_or(ReadStop::TokensLeft(tokens.len()))
}

/// The tokens after the word `word`, which has to stand first, and its place.
#[tactic(auto, unfolding(crate::specs::Readers::must))]
pub fn expect_word<'a>(word: &str, tokens: &'a [Token]) -> Result<(Place, &'a [Token]), ReadStop>
    ensures { ReadAnswer (λ x. (x.0, x.1.now)) result (must (is (Word word.now)) tokens.now) }
{
    after_word(word, tokens).ok_or(ReadStop::TokensLeft(tokens.len()))
}

/// A literal of at least `least` that stands first, with its place, and the tokens after it.
#[tactic(auto, unfolding(crate::specs::Readers::at))]
pub fn literal_at_least(least: i128, tokens: &[Token]) -> Option<((Place, i128), &[Token])>
    ensures value { FirstAnswer (λ x. (x.0, x.1.now)) result (at (a_literal least) tokens.now) }
    ensures least_in { IfSome result (λ x. least ≤ℤ x.0.1) }
{
    let (t, rest) = tokens.split_first()?;
    match &t.kind {
        TokenKind::Literal(n) if least <= *n => Some(((t.place, *n), rest)),
        _ => None,
    }
}

/// A literal of at least `least` that has to stand first, with its place, and the tokens after it.
#[tactic(auto, unfolding(crate::specs::Readers::must))]
pub fn expect_literal(least: i128, tokens: &[Token]) -> Result<((Place, i128), &[Token]), ReadStop>
    ensures value { ReadAnswer (λ x. (x.0, x.1.now)) result (must (a_literal least) tokens.now) }
    ensures least_in { IfOk result (λ x. least ≤ℤ x.0.1) }
{
    literal_at_least(least, tokens).ok_or(ReadStop::TokensLeft(tokens.len()))
}

/// The number of this size behind a minus.
pub fn negated(size: i128) -> i128
    requires { pos 0 ≤ℤ size }
    ensures { result ≡ neg_ℤ size }
{
    -size
}

// Whether a word is reserved.
#[tactic(auto, using(crate::proofs::Reserved::reserved_parts, crate::proofs::Reserved::reserved_halves))]
fn is_reserved(edition: Edition, word: &[u8]) -> bool
    ensures { result ≡ reserved edition word.now }
{
    match edition {
        Edition::Two => is_reserved_early(word) || is_reserved_amid(word) || is_reserved_late(word),
        Edition::Three => is_reserved_first(word) || is_reserved_last(word),
    }
}

/// Whether a name is an operation where a parenthesis follows: in edition 3 there are some.
pub fn is_operation(edition: Edition, word: &[u8]) -> bool
    ensures { result ≡ operation_word edition word.now }
{
    match edition {
        Edition::Two => false,
        Edition::Three => {
            spells(word, "card")
                || spells(word, "div")
                || spells(word, "mod")
                || spells(word, "abs")
                || spells(word, "min")
                || spells(word, "max")
        }
    }
}

// Whether a word names no function: an operation or a reserved word.
#[tactic(auto, using(crate::proofs::Reserved::function_parts))]
fn is_no_function(edition: Edition, word: &[u8]) -> bool
    ensures { result ≡ no_function edition word.now }
{
    is_operation(edition, word) || is_reserved(edition, word)
}

// Whether a word is one of the first twelve reserved words of language 2.
fn is_reserved_early(word: &[u8]) -> bool
    ensures { result ≡ list_any (λ r. bytes_eq word.now r) (take 12 (reserved_words Two)) }
{
    spells(word, "def")
        || spells(word, "let")
        || spells(word, "in")
        || spells(word, "if")
        || spells(word, "then")
        || spells(word, "else")
        || spells(word, "choose")
        || spells(word, "where")
        || spells(word, "int")
        || spells(word, "bool")
        || spells(word, "set")
        || spells(word, "true")
}

// Whether a word is one of the next twelve of language 2.
fn is_reserved_amid(word: &[u8]) -> bool
    ensures { result ≡ list_any (λ r. bytes_eq word.now r) (take 12 (drop 12 (reserved_words Two))) }
{
    spells(word, "false")
        || spells(word, "union")
        || spells(word, "inter")
        || spells(word, "diff")
        || spells(word, "subset")
        || spells(word, "divides")
        || spells(word, "card")
        || spells(word, "div")
        || spells(word, "mod")
        || spells(word, "solve")
        || spells(word, "arm")
        || spells(word, "need")
}

// Whether a word is one of the last ten of language 2.
fn is_reserved_late(word: &[u8]) -> bool
    ensures { result ≡ list_any (λ r. bytes_eq word.now r) (drop 24 (reserved_words Two)) }
{
    spells(word, "give")
        || spells(word, "min")
        || spells(word, "max")
        || spells(word, "slice")
        || spells(word, "fresh")
        || spells(word, "neg")
        || spells(word, "not")
        || spells(word, "abs")
        || spells(word, "match")
        || spells(word, "with")
}

// Whether a word is one of the first twelve reserved words of edition 3.
fn is_reserved_first(word: &[u8]) -> bool
    ensures { result ≡ list_any (λ r. bytes_eq word.now r) (take 12 (reserved_words Three)) }
{
    spells(word, "def")
        || spells(word, "const")
        || spells(word, "let")
        || spells(word, "in")
        || spells(word, "if")
        || spells(word, "then")
        || spells(word, "else")
        || spells(word, "choose")
        || spells(word, "given")
        || spells(word, "where")
        || spells(word, "minimise")
        || spells(word, "maximise")
}

// Whether a word is one of the last twelve of edition 3.
fn is_reserved_last(word: &[u8]) -> bool
    ensures { result ≡ list_any (λ r. bytes_eq word.now r) (drop 12 (reserved_words Three)) }
{
    spells(word, "int")
        || spells(word, "bool")
        || spells(word, "set")
        || spells(word, "true")
        || spells(word, "false")
        || spells(word, "union")
        || spells(word, "inter")
        || spells(word, "diff")
        || spells(word, "subset")
        || spells(word, "divides")
        || spells(word, "match")
        || spells(word, "with")
}

/// A name that has to stand first, with its place, and the tokens after it.
#[tactic(auto, unfolding(crate::specs::Readers::must, crate::specs::Readers::at))]
pub fn expect_name(
    alloc: Global,
    edition: Edition,
    tokens: &[Token],
) -> Result<((Place, Text), &[Token]), ReadStop>
    ensures { ReadAnswer (λ x. (x.0, x.1.now)) result (must (a_name edition) tokens.now) }
{
    let Some((t, rest)) = tokens.split_first() else {
        return Err(ReadStop::TokensLeft(0));
    };
    match &t.kind {
        TokenKind::Word(x) if !is_reserved(edition, &x.bytes) => Ok((
            (t.place, x.try_copy(alloc)?),
            rest,
        )),
        _ => Err(ReadStop::TokensLeft(tokens.len())),
    }
}

/// The name of a function, which has to stand first, with its place, and the tokens after it.
#[tactic(auto, unfolding(crate::specs::Readers::must, crate::specs::Readers::at))]
pub fn expect_function(
    alloc: Global,
    edition: Edition,
    tokens: &[Token],
) -> Result<((Place, Text), &[Token]), ReadStop>
    ensures { ReadAnswer (λ x. (x.0, x.1.now)) result (must (a_function edition) tokens.now) }
{
    let Some((t, rest)) = tokens.split_first() else {
        return Err(ReadStop::TokensLeft(0));
    };
    match &t.kind {
        TokenKind::Word(x) if !is_no_function(edition, &x.bytes) => Ok((
            (t.place, x.try_copy(alloc)?),
            rest,
        )),
        _ => Err(ReadStop::TokensLeft(tokens.len())),
    }
}
