//! What stands at a token.
ghost use Rattle.std.specs.Prelude.{if◌then◌else◌, ◌≡◌, Bool, not, ◌&&◌, ◌||◌, map, option_map, is_some, codes, Some};
ghost use Rattle.cf_lex.specs.Words.{operation_words, reserved_words};
ghost use Rattle.cf_tree.specs.declared.base.Edition.TheVariants.{Three};
ghost use Rattle.cf_help.specs.Syntax.{sign_of as sign_of_kind, word_of as word_of_kind, is_text as is_text_of, is_one_of as is_one_of_texts, is_other_than as is_other_than_texts, is_sign as is_sign_of, is_word as is_word_of, is_some_sign as is_some_sign_of, is_some_word as is_some_word_of, is_literal as is_literal_of, is_zero as is_zero_of, is_name as is_name_of, is_reserved_word as is_reserved_word_of, is_operation_word as is_operation_word_of, begins_with_line as begins_with_line_of, ends_value as ends_value_of, is_comparison as is_comparison_of, is_other_def as is_other_def_of, is_behind_binder as is_behind_binder_of, is_base_word as is_base_word_of};
ghost use Rattle.cf_help.specs.StopView.{kind_seen, text_seen};

use cf_lex::TokenKind;

/// Whether both hold.
pub fn both(a: bool, b: bool) -> bool
    ensures { result ≡ (a && b) }
{
    a && b
}

/// Whether one of two holds.
pub fn either(a: bool, b: bool) -> bool
    ensures { result ≡ (a || b) }
{
    a || b
}

/// Whether a word or a sign is this text.
pub fn is_text(text: &[u8], word: Option<&[u8]>) -> bool
    ensures { result ≡ is_text_of text.now (text_seen word.entry) }
{
    match word {
        None => false,
        Some(word) => word == text,
    }
}

fn is_among(texts: &[&[u8]], word: &[u8]) -> bool
    ensures { result ≡ is_one_of_texts (map (λ t. t.now) texts.now) (Some word.now) }
{
    for text in texts {
        if word == *text {
            return true;
        }
    }
    false
}

/// Whether a word or a sign is one of these texts.
pub fn is_one_of(texts: &[&[u8]], word: Option<&[u8]>) -> bool
    ensures { result ≡ is_one_of_texts (map (λ t. t.now) texts.now) (text_seen word.entry) }
{
    match word {
        None => false,
        Some(word) => is_among(texts, word),
    }
}

// Whether a word or a sign is none of these texts.
fn is_other_than(texts: &[&[u8]], word: Option<&[u8]>) -> bool
    ensures { result ≡ is_other_than_texts (map (λ t. t.now) texts.now) (text_seen word.entry) }
{
    match word {
        None => false,
        Some(word) => !is_among(texts, word),
    }
}

fn sign_in(kind: &TokenKind) -> Option<&[u8]>
    ensures { text_seen result ≡ sign_of_kind (Some kind.now) }
{
    match kind {
        TokenKind::Literal(_) | TokenKind::Word(_) => None,
        TokenKind::Sign(sign) => Some(&sign.bytes),
    }
}

/// The sign that stands there.
pub fn sign_of(kind: Option<&TokenKind>) -> Option<&[u8]>
    ensures { text_seen result ≡ sign_of_kind (kind_seen kind.entry) }
{
    match kind {
        None => None,
        Some(kind) => sign_in(kind),
    }
}

fn word_in(kind: &TokenKind) -> Option<&[u8]>
    ensures { text_seen result ≡ word_of_kind (Some kind.now) }
{
    match kind {
        TokenKind::Literal(_) | TokenKind::Sign(_) => None,
        TokenKind::Word(word) => Some(&word.bytes),
    }
}

/// The word that stands there.
pub fn word_of(kind: Option<&TokenKind>) -> Option<&[u8]>
    ensures { text_seen result ≡ word_of_kind (kind_seen kind.entry) }
{
    match kind {
        None => None,
        Some(kind) => word_in(kind),
    }
}

/// Whether this sign stands there.
pub fn is_sign(sign: &[u8], kind: Option<&TokenKind>) -> bool
    ensures { result ≡ is_sign_of sign.now (kind_seen kind.entry) }
{
    is_text(sign, sign_of(kind))
}

/// Whether this word stands there.
pub fn is_word(word: &[u8], kind: Option<&TokenKind>) -> bool
    ensures { result ≡ is_word_of word.now (kind_seen kind.entry) }
{
    is_text(word, word_of(kind))
}

/// Whether one of these signs stands there.
pub fn is_some_sign(signs: &[&[u8]], kind: Option<&TokenKind>) -> bool
    ensures { result ≡ is_some_sign_of (map (λ t. t.now) signs.now) (kind_seen kind.entry) }
{
    is_one_of(signs, sign_of(kind))
}

/// Whether one of these words stands there.
pub fn is_some_word(words: &[&[u8]], kind: Option<&TokenKind>) -> bool
    ensures { result ≡ is_some_word_of (map (λ t. t.now) words.now) (kind_seen kind.entry) }
{
    is_one_of(words, word_of(kind))
}

/// Whether it is the end of the text.
pub fn is_end(kind: Option<&TokenKind>) -> bool
    ensures { result ≡ not (is_some (kind_seen kind.entry)) }
{
    match kind {
        None => true,
        Some(_) => false,
    }
}

/// Whether a word stands there.
pub fn is_any_word(kind: Option<&TokenKind>) -> bool
    ensures { result ≡ is_some (word_of_kind (kind_seen kind.entry)) }
{
    stands(word_of(kind))
}

fn stands(word: Option<&[u8]>) -> bool
    ensures { result ≡ is_some (text_seen word.entry) }
{
    match word {
        None => false,
        Some(_) => true,
    }
}

fn is_literal_kind(kind: &TokenKind) -> bool
    ensures { result ≡ is_literal_of (Some kind.now) }
{
    match kind {
        TokenKind::Literal(_) => true,
        TokenKind::Word(_) | TokenKind::Sign(_) => false,
    }
}

/// Whether a literal stands there.
pub fn is_literal(kind: Option<&TokenKind>) -> bool
    ensures { result ≡ is_literal_of (kind_seen kind.entry) }
{
    match kind {
        None => false,
        Some(kind) => is_literal_kind(kind),
    }
}

fn is_zero_kind(kind: &TokenKind) -> bool
    ensures { result ≡ is_zero_of (Some kind.now) }
{
    match kind {
        TokenKind::Literal(number) => *number == 0,
        TokenKind::Word(_) | TokenKind::Sign(_) => false,
    }
}

/// Whether the literal 0 stands there.
pub fn is_zero(kind: Option<&TokenKind>) -> bool
    ensures { result ≡ is_zero_of (kind_seen kind.entry) }
{
    match kind {
        None => false,
        Some(kind) => is_zero_kind(kind),
    }
}

// Whether a word is reserved, or where `other` is asked, whether it is another one.
fn is_by_reserved(other: bool, word: Option<&[u8]>) -> bool
    ensures { result ≡ (if other then is_other_than_texts (reserved_words Three) (text_seen word.entry) else is_one_of_texts (reserved_words Three)
        (text_seen word.entry)) }
{
    let words = [
        b"def".as_slice(),
        b"const".as_slice(),
        b"let".as_slice(),
        b"in".as_slice(),
        b"if".as_slice(),
        b"then".as_slice(),
        b"else".as_slice(),
        b"choose".as_slice(),
        b"given".as_slice(),
        b"where".as_slice(),
        b"minimise".as_slice(),
        b"maximise".as_slice(),
        b"int".as_slice(),
        b"bool".as_slice(),
        b"set".as_slice(),
        b"true".as_slice(),
        b"false".as_slice(),
        b"union".as_slice(),
        b"inter".as_slice(),
        b"diff".as_slice(),
        b"subset".as_slice(),
        b"divides".as_slice(),
        b"match".as_slice(),
        b"with".as_slice(),
    ];
    if other {
        is_other_than(&words, word)
    } else {
        is_one_of(&words, word)
    }
}

/// Whether a name stands there.
pub fn is_name(kind: Option<&TokenKind>) -> bool
    ensures { result ≡ is_name_of (kind_seen kind.entry) }
{
    is_by_reserved(true, word_of(kind))
}

/// Whether a reserved word stands there.
pub fn is_reserved_word(kind: Option<&TokenKind>) -> bool
    ensures { result ≡ is_reserved_word_of (kind_seen kind.entry) }
{
    is_by_reserved(false, word_of(kind))
}

/// Whether the word of an operation stands there.
pub fn is_operation_word(kind: Option<&TokenKind>) -> bool
    ensures { result ≡ is_operation_word_of (kind_seen kind.entry) }
{
    is_some_word(
        &[
            b"card".as_slice(),
            b"div".as_slice(),
            b"mod".as_slice(),
            b"abs".as_slice(),
            b"min".as_slice(),
            b"max".as_slice(),
        ],
        kind,
    )
}

/// Whether a word begins with `_`.
pub fn begins_with_line(word: Option<&[u8]>) -> bool
    ensures { result ≡ begins_with_line_of (text_seen word.entry) }
{
    match word {
        None => false,
        Some(word) => first_is_line(word),
    }
}

fn first_is_line(word: &[u8]) -> bool
    ensures { result ≡ begins_with_line_of (Some word.now) }
{
    match word.split_first() {
        None => false,
        Some((byte, _)) => *byte == b'_',
    }
}

/// Whether a value ends there.
pub fn ends_value(kind: Option<&TokenKind>) -> bool
    ensures { result ≡ ends_value_of (kind_seen kind.entry) }
{
    let literal = is_literal(kind);
    let name = is_name(kind);
    let sign = is_some_sign(&[b")".as_slice(), b"}".as_slice()], kind);
    let truth = is_some_word(&[b"true".as_slice(), b"false".as_slice()], kind);
    either(literal, either(name, either(sign, truth)))
}

/// Whether a comparison stands there.
pub fn is_comparison(kind: Option<&TokenKind>) -> bool
    ensures { result ≡ is_comparison_of (kind_seen kind.entry) }
{
    let signs = [
        b"==".as_slice(),
        b"!=".as_slice(),
        b"<".as_slice(),
        b"<=".as_slice(),
        b">".as_slice(),
        b">=".as_slice(),
    ];
    let sign = is_some_sign(&signs, kind);
    either(sign, is_word(b"subset", kind))
}

/// Whether a word stands there by which other languages begin a function.
pub fn is_other_def(kind: Option<&TokenKind>) -> bool
    ensures { result ≡ is_other_def_of (kind_seen kind.entry) }
{
    is_some_word(
        &[
            b"fn".as_slice(),
            b"fun".as_slice(),
            b"func".as_slice(),
            b"function".as_slice(),
            b"proc".as_slice(),
            b"define".as_slice(),
        ],
        kind,
    )
}

/// Whether a word stands there behind which a name is bound.
pub fn is_behind_binder(kind: Option<&TokenKind>) -> bool
    ensures { result ≡ is_behind_binder_of (kind_seen kind.entry) }
{
    is_some_word(
        &[b"def".as_slice(), b"const".as_slice(), b"let".as_slice()],
        kind,
    )
}

/// Whether the word of a base stands there.
pub fn is_base_word(kind: Option<&TokenKind>) -> bool
    ensures { result ≡ is_base_word_of (kind_seen kind.entry) }
{
    is_some_word(
        &[b"int".as_slice(), b"bool".as_slice(), b"set".as_slice()],
        kind,
    )
}
