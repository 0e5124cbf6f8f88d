//! What a single word asks about the program.
ghost use Rattle.std.specs.Prelude.{◌≡◌, IfSome, map, option_map, string_bytes};
ghost use Rattle.cf_words.specs.Commands.{HasSize, plain_command};
ghost use Rattle.cf_words.specs.Words.{about as the_about, about_word as the_about_word};

use crate::command::Command;

/// The command of a single word that asks about the program.
pub(crate) fn about<'a>(words: &[String]) -> Option<Command<'a>>
    ensures command { option_map plain_command result ≡ the_about (map string_bytes words.now) }
    ensures size { IfSome result HasSize }
{
    match words {
        [word] => about_word(word.as_str()),
        [] => None,
        [_, _, ..] => None,
    }
}

fn about_word<'a>(word: &str) -> Option<Command<'a>>
    ensures command { option_map plain_command result ≡ the_about_word word.now }
    ensures size { IfSome result HasSize }
{
    if word == "--help" || word == "-h" {
        Some(Command::Help)
    } else if word == "--version" {
        Some(Command::Version)
    } else {
        None
    }
}
