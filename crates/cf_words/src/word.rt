//! What one word is.
ghost use Rattle.std.specs.Prelude.{◌≡◌, ◌||◌};
ghost use Rattle.cf_words.specs.Words.{is_emit_flag as is_emit_flag_word, is_flag as is_flag_word, is_name as is_name_word, is_operand as is_operand_word};

// One of the six flags.
fn is_flag(word: &str) -> bool
    ensures { result ≡ is_flag_word word.now }
{
    word == "--plain"
        || word == "--stats"
        || word == "--key"
        || word == "--jsonl"
        || word == "--strict"
        || word == "--unique"
}

// One of the two flags of `emit`.
fn is_emit_flag(word: &str) -> bool
    ensures { result ≡ is_emit_flag_word word.now }
{
    word == "--main" || word == "--name"
}

/// A word that is not empty and does not begin with a dash.
pub(crate) fn is_name(word: &[u8]) -> bool
    ensures { result ≡ is_name_word word.now }
{
    match word {
        [] => false,
        [first, ..] => *first != b'-',
    }
}

// A name, or the dash that stands for standard input.
fn is_operand(word: &str) -> bool
    ensures { result ≡ is_operand_word word.now }
{
    is_name(word.as_bytes()) || word == "-"
}

/// A flag or an operand.
pub(crate) fn may_stand(word: &str) -> bool
    ensures { result ≡ (is_flag_word word.now || is_operand_word word.now) }
{
    is_flag(word) || is_operand(word)
}

/// A flag of `emit` or an operand.
pub(crate) fn may_stand_in_emit(word: &str) -> bool
    ensures { result ≡ (is_emit_flag_word word.now || is_operand_word word.now) }
{
    is_emit_flag(word) || is_operand(word)
}
