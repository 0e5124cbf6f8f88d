//! Where reading stops.
ghost use Rattle.std.specs.Prelude.{◌≡◌, ◌≤◌, ◌<◌, ◌+◌, ◌^◌, Some, reverse, drop, length, IfOk, IfSome};
ghost use Rattle.cf_help.specs.Syntax.{first_of, second_of, section_words, is_some_word as is_some_word_of, section_of as section_of_kinds, is_section as is_section_of, closed_after as closed_after_of, before_open as before_open_of, is_in_list as is_in_list_of, before_list as before_list_of, is_behind_header as is_behind_header_of, count_before as count_before_of, kinds_of, stop_at as stop_at_of};
ghost use Rattle.cf_help.specs.StopView.{kind_seen, kinds_seen, text_seen, stop_of};

use crate::kinds::{either, is_sign, is_some_word, is_text, is_word, word_of};
use crate::lines::same_place;
use cf_lex::{Token, TokenKind};
use cf_tree::{NoMemory, Place};
use std::alloc::Global;

/// Where reading stops: the refused token, if it is not the end; the tokens before it, of which the
/// last stands first; and the next one.
#[derive(Drop)]
pub struct Stop<'a> {
    pub refused: Option<&'a TokenKind>,
    pub before: Vec<&'a TokenKind>,
    pub next: Option<&'a TokenKind>,
}

/// The first of these tokens.
pub fn first<'a>(kinds: &[&'a TokenKind]) -> Option<&'a TokenKind>
    ensures { kind_seen result ≡ first_of (kinds_seen kinds.now) }
{
    match kinds.split_first() {
        None => None,
        Some((kind, _)) => Some(*kind),
    }
}

/// The second of these tokens.
pub fn second<'a>(kinds: &[&'a TokenKind]) -> Option<&'a TokenKind>
    ensures { kind_seen result ≡ second_of (kinds_seen kinds.now) }
{
    match kinds.split_first() {
        None => None,
        Some((_, more)) => first(more),
    }
}

// Whether a word stands there with which a section begins.
fn is_section_word(kind: &TokenKind) -> bool
    ensures { result ≡ is_some_word_of section_words (Some kind.now) }
{
    is_some_word(
        &[
            b"where".as_slice(),
            b"given".as_slice(),
            b"def".as_slice(),
            b"const".as_slice(),
            b"minimise".as_slice(),
            b"maximise".as_slice(),
        ],
        Some(kind),
    )
}

// The word of the section before, of which the last token stands first.
fn section_of<'a>(before: &[&'a TokenKind]) -> Option<&'a [u8]>
    ensures { text_seen result ≡ section_of_kinds (kinds_seen before.now) }
{
    for kind in before {
        if is_section_word(*kind) {
            return word_of(Some(*kind));
        }
    }
    None
}

/// Whether the section before is one of this word.
pub fn is_section(word: &[u8], before: &[&TokenKind]) -> bool
    ensures { result ≡ is_section_of word.now (kinds_seen before.now) }
{
    is_text(word, section_of(before))
}

// How many tokens stand up to the innermost open parenthesis, the last one first.
fn count_to_open(before: &[&TokenKind]) -> usize
    ensures is { kinds_seen (drop result before.now) ≡ before_open_of 0 (kinds_seen before.now) }
    ensures size { result ≤ length before.now }
{
    let mut closed: usize = 0;
    let mut n = 0;
    'tokens: while n < before.len() {
        match closed_after(closed, before[n]) {
            None => return n + 1,
            Some(next) => {
                closed = next;
                n += 1;
            }
        }
    }
    n
}

// The tokens before the innermost open parenthesis, the last one first.
fn before_open<'a, 'k>(before: &'k [&'a TokenKind]) -> &'k [&'a TokenKind]
    ensures { kinds_seen result.now ≡ before_open_of 0 (kinds_seen before.now) }
{
    &before[count_to_open(before)..]
}

// How many closed parentheses are met with a token behind so many; none where it is the open one.
fn closed_after(closed: usize, kind: &TokenKind) -> Option<usize>
    requires { closed + 1 < 2 ^ 64 }
    ensures is { result ≡ closed_after_of closed kind.now }
    ensures size { IfSome result (λ next. next ≤ closed + 1) }
{
    if is_sign(b"(", Some(kind)) {
        if closed == 0 { None } else { Some(closed - 1) }
    } else if is_sign(b")", Some(kind)) {
        Some(closed + 1)
    } else {
        Some(closed)
    }
}

/// Whether the innermost open parenthesis before is that of a list of parameters or of outputs.
pub fn is_in_list(before: &[&TokenKind]) -> bool
    ensures { result ≡ is_in_list_of (kinds_seen before.now) }
{
    let outer = before_open(before);
    let outputs = is_word(b"choose", first(outer));
    either(outputs, is_word(b"def", second(outer)))
}

/// At a colon, the token before the innermost open parenthesis.
pub fn before_list<'a>(
    refused: Option<&TokenKind>,
    before: &[&'a TokenKind],
) -> Option<&'a TokenKind>
    ensures { kind_seen result ≡ before_list_of (kind_seen refused.entry) (kinds_seen before.now) }
{
    if is_sign(b":", refused) {
        first(before_open(before))
    } else {
        None
    }
}

/// Whether just the header stands before.
pub fn is_behind_header(before: &[&TokenKind]) -> bool
    ensures { result ≡ is_behind_header_of (kinds_seen before.now) }
{
    before.len() == 2
}

// How many tokens stand before a place.
fn count_before(tokens: &[Token], place: Place) -> usize
    ensures count { result ≡ count_before_of tokens.now place }
    ensures size { result ≤ length tokens.now }
{
    let mut n = 0;
    'tokens: while n < tokens.len() && !same_place(tokens[n].place, place) {
        n += 1;
    }
    n
}

// What these tokens are.
fn forwards<'a>(alloc: Global, tokens: &'a [Token]) -> Result<Vec<&'a TokenKind>, NoMemory>
    ensures { IfOk result (λ v. kinds_seen v.items ≡ kinds_of tokens.now) }
{
    let mut all = Vec::new(alloc);
    for token in tokens {
        all.push(&token.kind)?;
    }
    Ok(all)
}

// What these tokens are, the last one first.
#[tactic(auto, using(crate::proofs::StopLemmas::map_reverse))]
fn backwards<'a>(alloc: Global, tokens: &'a [Token]) -> Result<Vec<&'a TokenKind>, NoMemory>
    ensures { IfOk result (λ v. kinds_seen v.items ≡ reverse (kinds_of tokens.now)) }
{
    let mut all = forwards(alloc, tokens)?;
    all.reverse();
    Ok(all)
}

// The first of these tokens.
fn first_kind(tokens: &[Token]) -> Option<&TokenKind>
    ensures { kind_seen result ≡ first_of (kinds_of tokens.now) }
{
    match tokens.split_first() {
        None => None,
        Some((token, _)) => Some(&token.kind),
    }
}

// The second of these tokens.
fn second_kind(tokens: &[Token]) -> Option<&TokenKind>
    ensures { kind_seen result ≡ second_of (kinds_of tokens.now) }
{
    match tokens.split_first() {
        None => None,
        Some((_, more)) => first_kind(more),
    }
}

/// Where reading stops at a place, of the tokens of a text.
pub fn stop_at<'a>(alloc: Global, tokens: &'a [Token], place: Place) -> Result<Stop<'a>, NoMemory>
    ensures { IfOk result (λ s. stop_of s ≡ stop_at_of tokens.now place) }
{
    let count = count_before(tokens, place);
    let before = backwards(alloc, &tokens[..count])?;
    let after = &tokens[count..];
    Ok(Stop {
        refused: first_kind(after),
        before,
        next: second_kind(after),
    })
}
