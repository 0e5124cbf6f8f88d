//! Names of variables: which are free, and which one is taken.
ghost use Rattle.std.specs.Prelude.{◌≡◌, Some, slice_index_or, IfOk, option_map};
ghost use Rattle.std.specs.List.{list_all};
ghost use Rattle.cf_print.specs.Names.{begins as begins_with, candidate as nth_candidate, holds as holds_within, is_digit as digit, is_free as is_free_word, is_kept as is_kept_word, is_letter as letter_or_line, is_name as is_name_word, is_numbered as numbers_word, is_one_of as one_of, is_reserved as is_reserved_word, letter as letter_of_base, longer as longer_name, longest as longest_of, may_name as may_name_word, names_function as function_word, nth_name as nth, numbered as numbered_name, new_name as new_word, stands_among as stands_in, stands_in_names};

use crate::count::{next, sum_of};
use crate::pieces::put_repeated;
use cf_tree::{Base, NoMemory, Text, put_number};
use std::alloc::Global;

const UNDERSCORE: u8 = b'_';

// Whether a text begins with another.
pub(crate) fn begins(part: &[u8], text: &[u8]) -> bool
    ensures { result ≡ begins_with part.now text.now }
{
    if text.len() < part.len() {
        return false;
    }
    &text[..part.len()] == part
}

/// Whether a text holds another somewhere.
pub(crate) fn holds(part: &[u8], text: &[u8]) -> bool
    ensures { result ≡ holds_within part.now text.now }
{
    let mut rest = text;
    while let Some((_byte, more)) = rest.split_first() {
        if begins(part, rest) {
            return true;
        }
        rest = more;
    }
    begins(part, rest)
}

fn stands_among(alloc: Global, word: &[u8], words: &[u8]) -> Result<bool, NoMemory>
    ensures { IfOk result (λ stands. stands ≡ stands_in word.now words.now) }
{
    let mut spaced = Vec::from_slice(alloc, b" ")?;
    spaced.extend_from_slice(word)?;
    spaced.extend_from_slice(b" ")?;
    Ok(holds(&spaced, words))
}

fn is_one_of(word: &[u8], names: &[Text]) -> bool
    ensures { result ≡ one_of word.now names.now }
{
    for name in names {
        if word == name.bytes.as_slice() {
            return true;
        }
    }
    false
}

fn is_digit(byte: u8) -> bool
    ensures { result ≡ digit byte }
{
    b'0' <= byte && byte <= b'9'
}

fn is_letter(byte: u8) -> bool
    ensures { result ≡ letter_or_line byte }
{
    byte == UNDERSCORE || (b'A' <= byte && byte <= b'Z') || (b'a' <= byte && byte <= b'z')
}

fn are_of_names(bytes: &[u8]) -> bool
    ensures { result ≡ list_all stands_in_names bytes.now }
{
    for byte in bytes {
        if !stands_in_name(*byte) {
            return false;
        }
    }
    true
}

pub(crate) fn stands_in_name(byte: u8) -> bool
    ensures { result ≡ stands_in_names byte }
{
    is_letter(byte) || is_digit(byte)
}

fn is_name(word: &[u8]) -> bool
    ensures { result ≡ is_name_word word.now }
{
    match word {
        [] => false,
        [first, more @ ..] => is_letter(*first) && are_of_names(more),
    }
}

fn byte_at(word: &[u8], place: usize) -> u8
    ensures { result ≡ slice_index_or word.now place 0 }
{
    match word.get(place) {
        Some(byte) => *byte,
        None => 0,
    }
}

/// Whether a name is a word with a number behind it.
pub fn is_numbered(word: &[u8], name: &[u8]) -> bool
    ensures { result ≡ numbers_word word.now name.now }
{
    begins(word, name) && is_digit(byte_at(name, word.len()))
}

fn names_function(word: &[u8]) -> bool
    ensures { result ≡ function_word word.now }
{
    word == b"part".as_slice() || is_numbered(b"part_", word) || is_numbered(b"choose_", word)
}

// Whether a name is kept for functions, or is one of the language's own: it begins with an underscore.
fn is_kept(word: &[u8]) -> bool
    ensures { result ≡ is_kept_word word.now }
{
    names_function(word) || begins(b"_", word)
}

fn is_reserved(alloc: Global, words: &[u8], word: &[u8]) -> Result<bool, NoMemory>
    ensures { IfOk result (λ reserved. reserved ≡ is_reserved_word words.now word.now) }
{
    Ok(stands_among(alloc, word, words)? || is_kept(word))
}

/// Whether what is called from outside may have this name.
pub fn may_name(alloc: Global, words: &[u8], word: &[u8]) -> Result<bool, NoMemory>
    ensures { IfOk result (λ may. may ≡ may_name_word words.now word.now) }
{
    Ok(is_name(word) && !is_reserved(alloc, words, word)?)
}

fn is_free(alloc: Global, words: &[u8], taken: &[Text], word: &[u8]) -> Result<bool, NoMemory>
    ensures { IfOk result (λ free. free ≡ is_free_word words.now taken.now word.now) }
{
    Ok(!is_one_of(word, taken) && may_name(alloc, words, word)?)
}

fn candidate(alloc: Global, words: &[u8], wish: &[u8], k: usize) -> Result<Text, NoMemory>
    ensures { IfOk result (λ name. name ≡ nth_candidate words.now wish.now k) }
{
    let mut bytes = Vec::from_slice(alloc, wish)?;
    if k == 0 {
        return Ok(Text { bytes });
    }
    if is_reserved(alloc, words, wish)? {
        put_repeated(&mut bytes, b"_", k)?;
    } else {
        bytes.extend_from_slice(b"_")?;
        put_number(&mut bytes, next(k)?)?;
    }
    Ok(Text { bytes })
}

fn letter_of(base: Base) -> &'static [u8]
    ensures { result.now ≡ letter_of_base base }
{
    match base {
        Base::Int => b"n",
        Base::Bool => b"b",
        Base::Set => b"s",
    }
}

fn numbered(alloc: Global, base: Base, k: usize) -> Result<Text, NoMemory>
    ensures { IfOk result (λ name. name ≡ numbered_name base k) }
{
    let mut bytes = Vec::from_slice(alloc, letter_of(base))?;
    put_number(&mut bytes, next(k)?)?;
    Ok(Text { bytes })
}

// How long all names are together.
fn longest(names: &[Text]) -> Result<usize, NoMemory>
    ensures { IfOk result (λ n. n ≡ longest_of names.now) }
{
    let mut total: usize = 0;
    for name in names {
        total = sum_of(total, name.bytes.len())?;
    }
    Ok(total)
}

// A name that is longer than all that are taken and all words together.
fn longer(alloc: Global, words: &[u8], taken: &[Text]) -> Result<Text, NoMemory>
    ensures { IfOk result (λ name. name ≡ longer_name words.now taken.now) }
{
    let length = sum_of(words.len(), longest(taken)?)?;
    let mut bytes = Vec::from_slice(alloc, b"n")?;
    put_repeated(&mut bytes, b"_", next(length)?)?;
    Ok(Text { bytes })
}

// The k-th name that a wish asks for, which counts for none where it is kept.
fn wished_name(
    alloc: Global,
    words: &[u8],
    base: Base,
    wish: &[u8],
    k: usize,
) -> Result<Text, NoMemory>
    ensures { IfOk result (λ name. name ≡ nth words.now base (Some wish.now) k) }
{
    if is_kept(wish) {
        numbered(alloc, base, k)
    } else {
        candidate(alloc, words, wish, k)
    }
}

fn nth_name(
    alloc: Global,
    words: &[u8],
    base: Base,
    wish: Option<&[u8]>,
    k: usize,
) -> Result<Text, NoMemory>
    ensures { IfOk result (λ name. name ≡ nth words.now base (option_map (λ w. w.now) wish.entry) k) }
{
    match wish {
        Some(wish) => wished_name(alloc, words, base, wish, k),
        None => numbered(alloc, base, k),
    }
}

/// The name of a new variable, where these are taken: the one that is wished for, or else a letter with a number.
#[tactic(auto, using(crate::proofs::NameLaws::next_free, crate::proofs::NameLaws::none_free))]
pub fn new_name(
    alloc: Global,
    words: &[u8],
    taken: &[Text],
    base: Base,
    wish: Option<&[u8]>,
) -> Result<Text, NoMemory>
    ensures { IfOk result (λ name. name ≡ new_word words.now taken.now base (option_map (λ w. w.now) wish.entry)) }
{
    for k in 0..sum_of(taken.len(), 2)? {
        let name = nth_name(alloc, words, base, wish, k)?;
        if is_free(alloc, words, taken, &name.bytes)? {
            return Ok(name);
        }
    }
    longer(alloc, words, taken)
}
