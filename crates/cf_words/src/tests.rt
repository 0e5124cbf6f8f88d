//! The tests of words before they are parsed.
ghost use Rattle.std.specs.Prelude.{◌≡◌, ◌||◌, map, string_bytes};
ghost use Rattle.std.specs.List.{list_all};
ghost use Rattle.cf_words.specs.Words.{are_once as are_once_in, is_emit as is_emit_in, is_emit_flag, is_flag, is_operand, may_ask as may_ask_by, may_be_parsed as may_be_parsed_as, may_emit as may_emit_by, stands as stands_in, stands_twice as stands_twice_in};

use crate::word::{may_stand, may_stand_in_emit};

/// Each word is an operand or a flag, and no flag stands twice. `emit` has flags of its own.
pub(crate) fn may_be_parsed(words: &[String]) -> bool
    ensures { result ≡ may_be_parsed_as (map string_bytes words.now) }
{
    if is_emit(words) {
        may_emit(words)
    } else {
        may_ask(words)
    }
}

// The first word is `emit`.
fn is_emit(words: &[String]) -> bool
    ensures { result ≡ is_emit_in (map string_bytes words.now) }
{
    match words {
        [] => false,
        [first, ..] => first.as_str() == "emit",
    }
}

fn may_emit(words: &[String]) -> bool
    ensures { result ≡ may_emit_by (map string_bytes words.now) }
{
    each_may_stand_in_emit(words)
        && !(stands_twice(words, "--main") || stands_twice(words, "--name"))
}

fn may_ask(words: &[String]) -> bool
    ensures { result ≡ may_ask_by (map string_bytes words.now) }
{
    each_may_stand(words) && are_once(words)
}

fn each_may_stand_in_emit(words: &[String]) -> bool
    ensures { result ≡ list_all (λ w. is_emit_flag w || is_operand w) (map string_bytes words.now) }
{
    for word in words {
        if !may_stand_in_emit(word.as_str()) {
            return false;
        }
    }
    true
}

// No flag stands twice.
fn are_once(words: &[String]) -> bool
    ensures { result ≡ are_once_in (map string_bytes words.now) }
{
    !(stands_twice(words, "--plain")
        || stands_twice(words, "--stats")
        || stands_twice(words, "--key")
        || stands_twice(words, "--jsonl")
        || stands_twice(words, "--strict")
        || stands_twice(words, "--unique"))
}

fn each_may_stand(words: &[String]) -> bool
    ensures { result ≡ list_all (λ w. is_flag w || is_operand w) (map string_bytes words.now) }
{
    for word in words {
        if !may_stand(word.as_str()) {
            return false;
        }
    }
    true
}

fn stands_twice(words: &[String], word: &str) -> bool
    ensures { result ≡ stands_twice_in word.now (map string_bytes words.now) }
{
    let mut rest = words;
    'words: while let Some((first, more)) = rest.split_first() {
        if first.as_str() == word {
            return stands(more, word);
        }
        rest = more;
    }
    false
}

fn stands(words: &[String], word: &str) -> bool
    ensures { result ≡ stands_in word.now (map string_bytes words.now) }
{
    for other in words {
        if other.as_str() == word {
            return true;
        }
    }
    false
}
