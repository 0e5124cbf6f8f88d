//! Names that are like an unknown one.
ghost use Rattle.std.specs.Prelude.{◌≡◌, map, Some, IfOk};
ghost use Rattle.cf_help.specs.Syntax.{foreign_help as foreign_help_of};
ghost use Rattle.cf_help.specs.Faults.{unknown_words as unknown_words_of};
ghost use Rattle.cf_help.specs.Near.{differs_by_one as differs_by_one_of, is_near as is_near_of, first_near as first_near_of, did_you_mean as did_you_mean_of};
ghost use Rattle.cf_help.specs.Rows.{or_else as or_else_of};
ghost use Rattle.cf_help.specs.StopView.{text_seen};
ghost use Rattle.cf_help.specs.WordsView.{words_of};

use crate::kinds::either;
use crate::pieces::{help_text, in_quotes, joined};
use crate::syntax::foreign_help;
use crate::words::FaultWords;
use cf_tree::{NoMemory, Text};
use std::alloc::Global;

// Whether behind their common front one is the other but for one byte.
fn differs_by_one(x: &[u8], y: &[u8]) -> bool
    ensures { result ≡ differs_by_one_of x.now y.now }
{
    let mut left = x;
    let mut right = y;
    while let Some((a, more)) = left.split_first() {
        match right.split_first() {
            None => return more.is_empty(),
            Some((b, rest)) => {
                if *a != *b {
                    return either(more == rest, either(more == right, left == rest));
                }
                left = more;
                right = rest;
            }
        }
    }
    match right.split_first() {
        None => false,
        Some((_, rest)) => rest.is_empty(),
    }
}

// Whether a name becomes another by one byte, and both have two bytes or more.
fn is_near(x: &[u8], y: &[u8]) -> bool
    ensures { result ≡ is_near_of x.now y.now }
{
    2 <= x.len() && 2 <= y.len() && differs_by_one(x, y)
}

// The first candidate that is near.
fn first_near<'a>(name: &[u8], candidates: &[&'a [u8]]) -> Option<&'a [u8]>
    ensures { text_seen result ≡ first_near_of name.now (map (λ n. n.now) candidates.now) }
{
    for candidate in candidates {
        if is_near(name, *candidate) {
            return Some(*candidate);
        }
    }
    None
}

// A help that names a candidate.
fn did_you_mean(alloc: Global, name: &[u8]) -> Result<Text, NoMemory>
    ensures { IfOk result (λ t. Some t ≡ did_you_mean_of (Some name.now)) }
{
    let quoted = in_quotes(alloc, name)?;
    joined(
        alloc,
        &[b"did you mean ".as_slice(), &quoted.bytes, b"?".as_slice()],
    )
}

// The help of the near name, and else this one.
fn near_help(
    alloc: Global,
    near: Option<&[u8]>,
    otherwise: Option<&[u8]>,
) -> Result<Option<Text>, NoMemory>
    ensures { IfOk result (λ h. h ≡ or_else_of (did_you_mean_of (text_seen near.entry)) (text_seen otherwise.entry)) }
{
    match near {
        Some(name) => {
            let help = did_you_mean(alloc, name)?;
            Ok(Some(help))
        }
        None => help_text(alloc, otherwise),
    }
}

// The help for an unknown name: that of a word of another language, of a near name, or else this one.
fn unknown_help(
    alloc: Global,
    name: &[u8],
    candidates: &[&[u8]],
    otherwise: Option<&[u8]>,
) -> Result<Option<Text>, NoMemory>
    ensures { IfOk result (λ h. h ≡ or_else_of (foreign_help_of (Some name.now))
        (or_else_of (did_you_mean_of (first_near_of name.now (map (λ n. n.now) candidates.now))) (text_seen otherwise.entry))) }
{
    match foreign_help(Some(name)) {
        Some(help) => help_text(alloc, Some(help)),
        None => near_help(alloc, first_near(name, candidates), otherwise),
    }
}

/// What is told of an unknown name, where these may have been meant.
pub fn unknown_words(
    alloc: Global,
    name: &[u8],
    candidates: &[&[u8]],
    otherwise: Option<&[u8]>,
) -> Result<FaultWords, NoMemory>
    ensures { IfOk result (λ w. words_of w ≡ unknown_words_of name.now (map (λ n. n.now) candidates.now) (text_seen otherwise.entry)) }
{
    let quoted = in_quotes(alloc, name)?;
    let what = joined(alloc, &[b"unknown name: ".as_slice(), &quoted.bytes])?;
    let help = unknown_help(alloc, name, candidates, otherwise)?;
    Ok(FaultWords { what, help })
}
