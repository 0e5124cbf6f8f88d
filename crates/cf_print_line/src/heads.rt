//! How functions begin and end.
ghost use Rattle.std.specs.Prelude.{◌≡◌, ◌++◌, ◌∷◌, [], codes, drop, IfOk, OnOk};
ghost use Rattle.cf_print.specs.Pieces.{joined};
ghost use Rattle.cf_print_line.specs.Heads.{about_part as about_the_part, all_base_texts as texts_of_bases, all_parameters as texts_of_all, head_text as text_of_head, head_with, lent_base_text as text_of_lent_base, opening_with as opening_by, parameter_text as text_of_parameter, parameter_texts as texts_of_parameters, part_closing as closing_of_part, part_opening as opening_of_part, pointer_text as text_of_pointer, pointer_texts as texts_of_pointers, results_text as text_of_results, results_with as tuple_of};

use crate::layout::base_text;
use cf_print::{Language, joined_text, text_of_pieces};
use cf_tree::{Base, NoMemory, Text};
use itoa::Buffer;
use std::alloc::Global;

/// Between the first line of a function of C and its first statement.
pub const C_BODY: &[u8] = b"
{
    bool past = false;
";

/// Between the parameters of a function of Rust and its results.
pub const MAY_FAIL: &[u8] = b") -> Result<";

/// From its results to its first statement.
pub const FAILURE: &[u8] = b", ComfusyError> {
";

// The base of what a function of Rust is given.
fn lent_base_text<'x>(base: Base) -> &'x [u8]
    ensures { result.now ≡ text_of_lent_base base }
{
    match base {
        Base::Set => b"&BTreeSet<i128>",
        Base::Int => b"i128",
        Base::Bool => b"bool",
    }
}

/// A parameter.
pub fn parameter_text(
    alloc: Global,
    language: Language,
    name: &[u8],
    base: Base,
) -> Result<Text, NoMemory>
    ensures { IfOk result (λ t. t ≡ text_of_parameter language name.now base) }
{
    match language {
        Language::Python => text_of_pieces(
            alloc,
            &[name, b": ".as_slice(), base_text(language, base)],
        ),
        Language::C => text_of_pieces(alloc, &[base_text(language, base), b" ".as_slice(), name]),
        Language::JavaScript => Ok(Text {
            bytes: Vec::from_slice(alloc, name)?,
        }),
        Language::Rust => text_of_pieces(alloc, &[name, b": ".as_slice(), lent_base_text(base)]),
    }
}

/// The parameters of a function.
pub(crate) fn parameter_texts(
    alloc: Global,
    language: Language,
    names: &[Text],
    bases: &[Base],
) -> Result<Vec<Text>, NoMemory>
    ensures { IfOk result (λ all. all.items ≡ texts_of_parameters language names.now bases.now) }
{
    let mut all = Vec::new(alloc);
    let mut left = bases;
    for name in names {
        match left.split_first() {
            None => return Ok(all),
            Some((base, more)) => {
                all.push(parameter_text(alloc, language, &name.bytes, *base)?)?;
                left = more;
            }
        }
    }
    Ok(all)
}

fn pointer_text(alloc: Global, name: &[u8], base: Base) -> Result<Text, NoMemory>
    ensures { IfOk result (λ t. t ≡ text_of_pointer name.now base) }
{
    text_of_pieces(
        alloc,
        &[base_text(Language::C, base), b" *".as_slice(), name],
    )
}

/// The pointers to the results of a function of C, behind its other parameters.
pub(crate) fn pointer_texts(
    alloc: Global,
    params: Vec<Text>,
    names: &[Text],
    bases: &[Base],
) -> Result<Vec<Text>, NoMemory>
    ensures { IfOk result (λ all. all.items ≡ params.items ++ texts_of_pointers names.now bases.now) }
{
    let mut all = params;
    let mut left = bases;
    for name in names {
        match left.split_first() {
            None => return Ok(all),
            Some((base, more)) => {
                all.push(pointer_text(alloc, &name.bytes, *base)?)?;
                left = more;
            }
        }
    }
    Ok(all)
}

fn all_base_texts(alloc: Global, language: Language, bases: &[Base]) -> Result<Vec<Text>, NoMemory>
    ensures { IfOk result (λ all. all.items ≡ texts_of_bases language bases.now) }
{
    let mut all = Vec::new(alloc);
    for base in bases {
        all.push(Text {
            bytes: Vec::from_slice(alloc, base_text(language, *base))?,
        })?;
    }
    Ok(all)
}

// Several results as a tuple.
fn results_with(alloc: Global, language: Language, all: &[u8]) -> Result<Text, NoMemory>
    ensures { IfOk result (λ t. t ≡ tuple_of language all.now) }
{
    match language {
        Language::Python | Language::C => text_of_pieces(
            alloc,
            &[b"tuple[".as_slice(), all, b"]".as_slice()],
        ),
        Language::JavaScript => text_of_pieces(alloc, &[b"[".as_slice(), all, b"]".as_slice()]),
        Language::Rust => text_of_pieces(alloc, &[b"(".as_slice(), all, b")".as_slice()]),
    }
}

fn several_results(alloc: Global, language: Language, bases: &[Base]) -> Result<Text, NoMemory>
    ensures { IfOk result (λ t. t ≡ tuple_of language (joined (codes ", ") (texts_of_bases language bases.now))) }
{
    let texts = all_base_texts(alloc, language, bases)?;
    let inner = joined_text(alloc, b", ", &texts)?;
    results_with(alloc, language, &inner.bytes)
}

/// What a function gives.
pub fn results_text(alloc: Global, language: Language, bases: &[Base]) -> Result<Text, NoMemory>
    ensures { IfOk result (λ t. t ≡ text_of_results language bases.now) }
{
    match bases {
        [] => results_with(alloc, language, &[]),
        [base, more @ ..] => if more.len() == 0 {
            Ok(Text {
                bytes: Vec::from_slice(alloc, base_text(language, *base))?,
            })
        } else {
            several_results(alloc, language, bases)
        },
    }
}

/// The first line of a function, from its name on.
pub fn head_text(
    alloc: Global,
    language: Language,
    name: &[u8],
    params: &[Text],
    results: &[Base],
) -> Result<Text, NoMemory>
    ensures { IfOk result (λ t. t ≡ text_of_head language name.now params.now results.now) }
{
    let params = joined_text(alloc, b", ", params)?;
    let results = results_text(alloc, language, results)?;
    head_of(alloc, language, name, &params.bytes, &results.bytes)
}

fn head_of<'x>(
    alloc: Global,
    language: Language,
    name: &'x [u8],
    params: &'x [u8],
    results: &'x [u8],
) -> Result<Text, NoMemory>
    ensures { IfOk result (λ t. t ≡ head_with language name.now params.now results.now) }
{
    match language {
        Language::Python => text_of_pieces(
            alloc,
            &[
                b"def ".as_slice(),
                name,
                b"(".as_slice(),
                params,
                b") -> ".as_slice(),
                results,
                b":\n".as_slice(),
            ],
        ),
        Language::C => text_of_pieces(
            alloc,
            &[
                b"int ".as_slice(),
                name,
                b"(".as_slice(),
                params,
                b")".as_slice(),
            ],
        ),
        Language::JavaScript => text_of_pieces(
            alloc,
            &[
                b"function ".as_slice(),
                name,
                b"(".as_slice(),
                params,
                b") {\n".as_slice(),
            ],
        ),
        Language::Rust => text_of_pieces(
            alloc,
            &[
                b"fn ".as_slice(),
                name,
                b"(".as_slice(),
                params,
                MAY_FAIL,
                results,
                FAILURE,
            ],
        ),
    }
}

fn about_part(alloc: Global, number: u32) -> Result<Text, NoMemory>
    ensures { IfOk result (λ t. t ≡ about_the_part number) }
{
    if number == 0 {
        return Ok(Text {
            bytes: Vec::from_slice(alloc, b"Gives a part of main.")?,
        });
    }
    let mut buffer = Buffer::new();
    let digits = buffer.format(number).as_bytes();
    text_of_pieces(
        alloc,
        &[
            b"Gives what choose ".as_slice(),
            digits,
            b" picks.".as_slice(),
        ],
    )
}

// The lines of a function before its first statement, by its head.
fn opening_with<'x>(
    alloc: Global,
    language: Language,
    head: &'x [u8],
    about: &'x [u8],
) -> Result<Text, NoMemory>
    ensures { IfOk result (λ t. t ≡ opening_by language about.now head.now) }
{
    match language {
        Language::Python => text_of_pieces(
            alloc,
            &[
                b"\n\n".as_slice(),
                head,
                b"    \"\"\"".as_slice(),
                about,
                b"\"\"\"\n".as_slice(),
            ],
        ),
        Language::C => text_of_pieces(
            alloc,
            &[
                b"/* ".as_slice(),
                about,
                b" */\nstatic ".as_slice(),
                head,
                C_BODY,
            ],
        ),
        Language::JavaScript => text_of_pieces(
            alloc,
            &[b"\n// ".as_slice(), about, b"\n".as_slice(), head],
        ),
        Language::Rust => text_of_pieces(
            alloc,
            &[b"\n/// ".as_slice(), about, b"\n".as_slice(), head],
        ),
    }
}

/// The lines of a function that is not called from outside, before its first statement.
pub fn part_opening(
    alloc: Global,
    language: Language,
    number: u32,
    name: &[u8],
    params: &[Text],
    results: &[Base],
) -> Result<Text, NoMemory>
    ensures { IfOk result (λ t. t ≡ opening_of_part language number name.now params.now results.now) }
{
    let about = about_part(alloc, number)?;
    let head = head_text(alloc, language, name, params, results)?;
    opening_with(alloc, language, &head.bytes, &about.bytes)
}

/// The parameters of a function, and in C the pointers to its results.
pub fn all_parameters(
    alloc: Global,
    language: Language,
    names: &[Text],
    bases: &[Base],
    pointers: &[Text],
    results: &[Base],
) -> Result<Vec<Text>, NoMemory>
    ensures { IfOk result (λ all. all.items ≡ texts_of_all language names.now bases.now pointers.now results.now) }
{
    let params = parameter_texts(alloc, language, names, bases)?;
    match language {
        Language::C => pointer_texts(alloc, params, pointers, results),
        Language::Python | Language::JavaScript | Language::Rust => Ok(params),
    }
}

/// The last line of such a function.
pub fn part_closing(language: Language) -> &'static [u8]
    ensures { result.now ≡ closing_of_part language }
{
    match language {
        Language::Python => b"",
        Language::C => b"}\n\n",
        Language::JavaScript | Language::Rust => b"}\n",
    }
}
