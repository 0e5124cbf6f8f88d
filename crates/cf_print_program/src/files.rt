//! The file of a program, in each language.
ghost use Rattle.std.specs.Prelude.{◌≡◌, IfOk};
ghost use Rattle.cf_print_program.specs.Files.{file_of as file_for, opening_of as opening_for};

use cf_print::Language;
use cf_print_line::Called;
use cf_tree::{NoMemory, Text};
use std::alloc::Global;

/// The lines of the function that is called, before its first statement.
pub(crate) fn opening_of(
    alloc: Global,
    language: Language,
    is_filter: bool,
    function: &Called,
) -> Result<Text, NoMemory>
    ensures { IfOk result (λ t. t ≡ opening_for language is_filter function.now) }
{
    match language {
        Language::Python => cf_print_python::opening_of(alloc, function),
        Language::C => cf_print_c::opening_of(alloc, is_filter, function),
        Language::JavaScript => cf_print_js::opening_of(alloc, function),
        Language::Rust => cf_print_rust::opening_of(alloc, function),
    }
}

/// The file of a function, whose text this is with that of those before it.
pub(crate) fn file_of(
    alloc: Global,
    language: Language,
    has_main: bool,
    source: &[u8],
    function: &Called,
    functions: Vec<u8>,
) -> Result<Text, NoMemory>
    ensures { IfOk result (λ t. t ≡ file_for language has_main source.now function.now functions.items) }
{
    match language {
        Language::Python => {
            cf_print_python::file_of(alloc, has_main, source, function, functions)
        }
        Language::C => cf_print_c::file_of(alloc, has_main, source, function, functions),
        Language::JavaScript => cf_print_js::file_of(alloc, has_main, source, function, functions),
        Language::Rust => cf_print_rust::file_of(alloc, has_main, source, function, functions),
    }
}
