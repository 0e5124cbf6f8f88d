//! The rows of the languages.
ghost use Rattle.std.specs.Prelude.{◌≡◌};
ghost use Rattle.cf_print_term.specs.Rows.{table_of as table};

use crate::table::{C, JAVASCRIPT, PYTHON, RUST, Table};
use cf_print::Language;

/// The expressions of a language.
pub fn table_of(language: Language) -> Table
    ensures { result ≡ table language }
{
    match language {
        Language::C => C,
        Language::Python => PYTHON,
        Language::JavaScript => JAVASCRIPT,
        Language::Rust => RUST,
    }
}
