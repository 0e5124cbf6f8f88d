//! The function that is called.
ghost use Rattle.std.specs.Prelude.{◌≡◌, ◌++◌, ◌∷◌, [], codes, drop, nat_eq, true, IfOk, OnOk};
ghost use Rattle.cf_print.specs.declared.language.Language.TheVariants.{C};
ghost use Rattle.cf_print_line.specs.Called.{about_main as about_all, about_none as about_one, about_nones as about_all_nones, about_several as about_more, end_of as last_line};

use cf_print::{Language, joined_text, text_of_pieces};
use cf_tree::{Base, NoMemory, Text};
use itoa::Buffer;
use std::alloc::Global;
use std::marker::Model;

/// Before the number of the one choose that may have no solution.
pub const WHERE_NONE: &[u8] = b" exactly where no outputs satisfy the relation of choose ";

/// The same where there are several.
pub const WHERE_SEVERAL: &[u8] = b" where no outputs satisfy the relation of a choose.
";

/// The function that is called: its name, parameters and results, names for the results, and those of pointers to them.
#[derive(Drop)]
pub struct Called {
    pub name: Text,
    pub params: Vec<Text>,
    pub bases: Vec<Base>,
    pub results: Vec<Base>,
    pub result_names: Vec<Text>,
    pub pointers: Vec<Text>,
    /// Parameters and pointers that no statement names.
    pub unread: Vec<Text>,
    /// The chooses of which it may tell that there is no solution.
    pub nones: Vec<u32>,
}

impl Model for Called {
    ghost use Rattle.cf_print_line.specs.Called.{Called as CalledFunction};

    ghost Value = { CalledFunction };

    ghost view = { λ f. record {
      name = f.name;
      params = f.params.items;
      bases = f.bases.items;
      results = f.results.items;
      result_names = f.result_names.items;
      pointers = f.pointers.items;
      unread = f.unread.items;
      nones = f.nones.items;
    } };
}

/// What the function gives, by the names of its results where these are known.
pub fn about_main(alloc: Global, names: &[Text]) -> Result<Text, NoMemory>
    ensures { IfOk result (λ t. t ≡ about_all names.now) }
{
    if names.len() == 0 {
        return text_of_pieces(alloc, &[b"Gives what main does.".as_slice()]);
    }
    let all = joined_text(alloc, b", ", names)?;
    text_of_pieces(
        alloc,
        &[b"Gives ".as_slice(), all.bytes.as_slice(), b".".as_slice()],
    )
}

/// A line on where there is no solution, behind what stands before a line and how that outcome is told.
pub fn about_nones<'x>(
    alloc: Global,
    before: &'x [u8],
    outcome: &'x [u8],
    numbers: &[u32],
) -> Result<Text, NoMemory>
    ensures { IfOk result (λ t. t ≡ about_all_nones before.now outcome.now numbers.now) }
{
    match numbers {
        [] => Ok(Text {
            bytes: Vec::new(alloc),
        }),
        [number, more @ ..] => if more.len() == 0 {
            let mut buffer = Buffer::new();
            about_none(alloc, before, outcome, buffer.format(*number).as_bytes())
        } else {
            about_several(alloc, before, outcome)
        },
    }
}

fn about_none<'x>(
    alloc: Global,
    before: &'x [u8],
    outcome: &'x [u8],
    digits: &'x [u8],
) -> Result<Text, NoMemory>
    ensures { IfOk result (λ t. t ≡ about_one before.now outcome.now digits.now) }
{
    text_of_pieces(
        alloc,
        &[before, outcome, WHERE_NONE, digits, b".\n".as_slice()],
    )
}

fn about_several<'x>(alloc: Global, before: &'x [u8], outcome: &'x [u8]) -> Result<Text, NoMemory>
    ensures { IfOk result (λ t. t ≡ about_more before.now outcome.now) }
{
    text_of_pieces(alloc, &[before, outcome, WHERE_SEVERAL])
}

/// Its last line.
pub fn end_of(language: Language) -> &'static [u8]
    ensures { result.now ≡ last_line language }
{
    match language {
        Language::Python => b"",
        Language::C | Language::JavaScript | Language::Rust => b"}\n",
    }
}
