//! Programs with sets, in a language that has none.
ghost use Rattle.std.specs.Prelude.{◌≡◌};
ghost use Rattle.cf_print_program.specs.EmissionView.{printing_of};
ghost use Rattle.cf_print_program.specs.Printed.{has_a_set as has_set_in, has_sets as has_sets_in, lacks_sets as lacks};

use crate::emission::Emission;
use cf_print::Language;
use cf_print_shape::{block_uses_sets, has_set};

/// Whether the language has no sets, and one stands in the program.
pub(crate) fn lacks_sets(emission: &Emission<'_>) -> bool
    ensures { result ≡ lacks (printing_of emission.now) }
{
    !has_sets(emission.language) && has_a_set(emission)
}

fn has_sets(language: Language) -> bool
    ensures { result ≡ has_sets_in language }
{
    match language {
        Language::C => false,
        Language::Python | Language::JavaScript | Language::Rust => true,
    }
}

fn has_a_set(emission: &Emission<'_>) -> bool
    ensures { result ≡ has_set_in (printing_of emission.now) }
{
    has_set(emission.params) || has_set(emission.results) || block_uses_sets(emission.body)
}
