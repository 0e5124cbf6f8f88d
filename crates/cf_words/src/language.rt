//! The languages that programs are written in.
ghost use Rattle.std.specs.Prelude.{◌≡◌};
ghost use Rattle.cf_words.specs.Words.{language_of as the_language_of};

use cf_print::Language;

/// The language of a word, if it is that of one.
pub(crate) fn language_of(word: &str) -> Option<Language>
    ensures { result ≡ the_language_of word.now }
{
    if word == "c" {
        Some(Language::C)
    } else if word == "python" {
        Some(Language::Python)
    } else if word == "js" {
        Some(Language::JavaScript)
    } else if word == "rust" {
        Some(Language::Rust)
    } else {
        None
    }
}
