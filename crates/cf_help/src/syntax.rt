//! Words about places at which reading stops: the token, and the help of the first row of the table that fits.
ghost use Rattle.std.specs.Prelude.{◌≡◌, take, drop, ◌∷◌, [], ◌&&◌, ◌||◌, codes, is_some, IfOk};
ghost use Rattle.cf_help.specs.Messages.{syntax_words as syntax_words_of};
ghost use Rattle.cf_help.specs.Rows.{first_fitting as first_fitting_of, or_else as or_else_of};
ghost use Rattle.cf_help.specs.StopView.{kind_seen, kinds_seen, text_seen, stop_of};
ghost use Rattle.cf_help.specs.Syntax.{second_of, is_comparison as is_comparison_of, ends_value as ends_value_of, is_base_word as is_base_word_of, begins_with_line as begins_with_line_of, is_zero as is_zero_of, is_sign as is_sign_of, is_some_sign as is_some_sign_of, is_word as is_word_of, is_some_word as is_some_word_of, is_name as is_name_of, is_in_list as is_in_list_of, is_section as is_section_of, word_of as word_of_kind, foreign_help as foreign_help_of, foreign_at as foreign_at_of, reserved_text as reserved_text_of, operation_text as operation_text_of, rows_of_signs, rows_of_items, rows_of_lists, rows_of_values, is_behind_literal as is_behind_literal_of, syntax_help as syntax_help_of};
ghost use Rattle.cf_help.specs.WordsView.{words_of};

use crate::kinds::{
    begins_with_line, both, either, ends_value, is_any_word, is_base_word, is_behind_binder,
    is_comparison, is_end, is_literal, is_name, is_operation_word, is_other_def, is_reserved_word,
    is_sign, is_some_sign, is_some_word, is_text, is_word, is_zero, word_of,
};
use crate::lines::bytes_at;
use crate::pieces::{help_text, in_quotes, joined};
use crate::rows::{first_fitting, row};
use crate::stop::{
    Stop, before_list, first, is_behind_header, is_in_list, is_section, second, stop_at,
};
use crate::words::FaultWords;
use crate::written::found_token;
use cf_lex::{Token, TokenKind};
use cf_tree::{NoMemory, Place, Text};
use std::alloc::Global;

/// The help for a word of another language.
pub fn foreign_help(word: Option<&[u8]>) -> Option<&'static [u8]>
    ensures { text_seen result ≡ foreign_help_of (text_seen word.entry) }
{
    first_fitting(&[
        row(is_text(b"and", word), b"and is &&"),
        row(is_text(b"or", word), b"or is ||"),
        row(is_text(b"not", word), b"not is !"),
        row(is_text(b"implies", word), b"implication is ==>"),
        row(is_text(b"minimize", word), b"did you mean 'minimise'?"),
        row(is_text(b"maximize", word), b"did you mean 'maximise'?"),
        row(
            is_text(b"exists", word),
            b"an output behind ; is not given out: choose (x: int; k: int) where ..",
        ),
        row(is_text(b"forall", word), b"there is no forall"),
    ])
}

/// The first of two, where there is one.
pub fn or_else<'a>(help: Option<&'a [u8]>, other: Option<&'a [u8]>) -> Option<&'a [u8]>
    ensures { text_seen result ≡ or_else_of (text_seen help.entry) (text_seen other.entry) }
{
    match help {
        Some(help) => Some(help),
        None => other,
    }
}

fn foreign_at(refused: Option<&TokenKind>, before: &[&TokenKind]) -> Option<&'static [u8]>
    ensures { text_seen result ≡ foreign_at_of (kind_seen refused.entry) (kinds_seen before.now) }
{
    let here = foreign_help(word_of(refused));
    let one_before = foreign_help(word_of(first(before)));
    let list = foreign_help(word_of(before_list(refused, before)));
    or_else(here, or_else(one_before, list))
}

// A comparison behind a value.
fn is_chain(v: Option<&TokenKind>, p: Option<&TokenKind>) -> bool
    ensures { result ≡ (is_comparison_of (kind_seen v.entry) && ends_value_of (kind_seen p.entry)) }
{
    both(is_comparison(v), ends_value(p))
}

// Another sign for an implication.
fn is_arrow(v: Option<&TokenKind>, p: Option<&TokenKind>, n: Option<&TokenKind>) -> bool
    ensures { result ≡ ((is_sign_of (codes ">") (kind_seen v.entry) && is_some_sign_of (codes "=" ∷ codes "-" ∷ []) (kind_seen p.entry)) ||
        (is_sign_of (codes "=") (kind_seen v.entry) && is_sign_of (codes ">") (kind_seen n.entry))) }
{
    let here = both(
        is_sign(b">", v),
        is_some_sign(&[b"=".as_slice(), b"-".as_slice()], p),
    );
    either(here, both(is_sign(b"=", v), is_sign(b">", n)))
}

// Another sign for `!=`.
fn is_unequal(v: Option<&TokenKind>, p: Option<&TokenKind>) -> bool
    ensures { result ≡ (is_sign_of (codes ">") (kind_seen v.entry) && is_sign_of (codes "<") (kind_seen p.entry)) }
{
    both(is_sign(b">", v), is_sign(b"<", p))
}

// Another sign for `<=`.
fn is_at_most(v: Option<&TokenKind>, n: Option<&TokenKind>) -> bool
    ensures { result ≡ (is_sign_of (codes "=") (kind_seen v.entry) && is_sign_of (codes "<") (kind_seen n.entry)) }
{
    both(is_sign(b"=", v), is_sign(b"<", n))
}

// A function without a result type.
fn lacks_results(v: Option<&TokenKind>, p: Option<&TokenKind>, before: &[&TokenKind]) -> bool
    ensures { result ≡ (is_sign_of (codes "=") (kind_seen v.entry) &&
        (is_sign_of (codes ")") (kind_seen p.entry) && is_section_of (codes "def") (kinds_seen before.now))) }
{
    let listed = both(is_sign(b")", p), is_section(b"def", before));
    both(is_sign(b"=", v), listed)
}

// A `=` behind a value.
fn is_single(v: Option<&TokenKind>, p: Option<&TokenKind>) -> bool
    ensures { result ≡ (is_sign_of (codes "=") (kind_seen v.entry) && ends_value_of (kind_seen p.entry)) }
{
    both(is_sign(b"=", v), ends_value(p))
}

// The first rows: the end and comparisons.
fn of_chains(
    v: Option<&TokenKind>,
    p: Option<&TokenKind>,
    n: Option<&TokenKind>,
    before: &[&TokenKind],
) -> Option<&'static [u8]>
    ensures { text_seen result ≡ first_fitting_of (take 4 (rows_of_signs (kind_seen v.entry) (kind_seen p.entry) (kind_seen n.entry) (kinds_seen before.now))) }
{
    first_fitting(&[
        row(
            is_end(v),
            b"the text ends too early: a ), an else, an in or a body is missing",
        ),
        row(
            is_chain(v, p),
            b"a chain runs one way, of < <= == or of > >= ==; join others by &&",
        ),
        row(is_arrow(v, p, n), b"implication is ==>"),
        row(is_unequal(v, p), b"not equal is !="),
    ])
}

// The rows of `=`.
fn of_equals(
    v: Option<&TokenKind>,
    p: Option<&TokenKind>,
    n: Option<&TokenKind>,
    before: &[&TokenKind],
) -> Option<&'static [u8]>
    ensures { text_seen result ≡ first_fitting_of (drop 4 (rows_of_signs (kind_seen v.entry) (kind_seen p.entry) (kind_seen n.entry) (kinds_seen before.now))) }
{
    first_fitting(&[
        row(is_at_most(v, n), b"at most is <="),
        row(
            lacks_results(v, p, before),
            b"a function has a result type: def f(x: int): int = ..",
        ),
        row(
            is_single(v, p),
            b"a comparison is ==; = stands behind def, const and let",
        ),
    ])
}

#[tactic(auto, using(crate::proofs::RowSteps::split_rows))]
fn of_signs(
    v: Option<&TokenKind>,
    p: Option<&TokenKind>,
    n: Option<&TokenKind>,
    before: &[&TokenKind],
) -> Option<&'static [u8]>
    ensures { text_seen result ≡ first_fitting_of ((rows_of_signs (kind_seen v.entry) (kind_seen p.entry) (kind_seen n.entry) (kinds_seen before.now))) }
{
    or_else(of_chains(v, p, n, before), of_equals(v, p, n, before))
}

fn reserved_text(alloc: Global, word: Option<&[u8]>) -> Result<Text, NoMemory>
    ensures { IfOk result (λ t. t ≡ reserved_text_of (text_seen word.entry)) }
{
    match word {
        None => joined(alloc, &[]),
        Some(word) => {
            let quoted = in_quotes(alloc, word)?;
            joined(
                alloc,
                &[
                    &quoted.bytes,
                    b" is a reserved word; take another name".as_slice(),
                ],
            )
        }
    }
}

fn operation_text(alloc: Global, word: Option<&[u8]>) -> Result<Text, NoMemory>
    ensures { IfOk result (λ t. t ≡ operation_text_of (text_seen word.entry)) }
{
    match word {
        None => joined(alloc, &[]),
        Some(word) => {
            let quoted = in_quotes(alloc, word)?;
            joined(
                alloc,
                &[
                    &quoted.bytes,
                    b" is an operation; take another name".as_slice(),
                ],
            )
        }
    }
}

// The rows of functions, names and arms, of which two tell this text of a reserved word and that of
// an operation.
fn of_items<'a>(
    v: Option<&TokenKind>,
    p: Option<&TokenKind>,
    before: &[&TokenKind],
    reserved: &'a [u8],
    operation: &'a [u8],
) -> Option<&'a [u8]>
    ensures { reserved.now ≡ reserved_text_of (word_of_kind (kind_seen v.entry)) → operation.now ≡ operation_text_of (word_of_kind (kind_seen v.entry)) →
        text_seen result ≡ first_fitting_of (rows_of_items (kind_seen v.entry) (kind_seen p.entry) (kinds_seen before.now)) }
{
    let start = is_some_sign(&[b"-".as_slice(), b"(".as_slice()], v);
    let dashed = both(is_name(p), is_behind_binder(second(before)));
    let opened = is_some_sign(&[b"(".as_slice(), b",".as_slice(), b";".as_slice()], p);
    let bound = either(is_behind_binder(p), both(opened, is_in_list(before)));
    first_fitting(&[
        row(is_other_def(v), b"a function begins with def"),
        row(
            both(start, is_behind_header(before)),
            b"a comment begins with #",
        ),
        row(
            both(is_sign(b"-", v), dashed),
            b"a name is made of letters, digits and _",
        ),
        row(
            is_word(b"with", p),
            b"the arms stand in braces: match a with { 2 * i then i ; i then 0 }",
        ),
        row(both(is_reserved_word(v), bound), reserved),
        row(both(is_operation_word(v), is_word(b"def", p)), operation),
    ])
}

// A parenthesis in that of a type.
fn is_nested_type(v: Option<&TokenKind>, p: Option<&TokenKind>, before: &[&TokenKind]) -> bool
    ensures { result ≡ (is_sign_of (codes "(") (kind_seen v.entry) &&
        (is_sign_of (codes "(") (kind_seen p.entry) && is_sign_of (codes ":") (second_of (kinds_seen before.now)))) }
{
    let inner = both(is_sign(b"(", p), is_sign(b":", second(before)));
    both(is_sign(b"(", v), inner)
}

// Another word for a type.
fn is_other_type(v: Option<&TokenKind>, p: Option<&TokenKind>) -> bool
    ensures { result ≡ ((is_name_of (kind_seen v.entry) || is_sign_of (codes "(") (kind_seen v.entry)) && is_sign_of (codes ":") (kind_seen p.entry)) }
{
    let named = either(is_name(v), is_sign(b"(", v));
    both(named, is_sign(b":", p))
}

// No hidden outputs behind the `;`.
fn lacks_hidden(v: Option<&TokenKind>, p: Option<&TokenKind>, before: &[&TokenKind]) -> bool
    ensures { result ≡ (is_sign_of (codes ")") (kind_seen v.entry) && (is_sign_of (codes ";") (kind_seen p.entry) && is_in_list_of (kinds_seen before.now))) }
{
    let behind = both(is_sign(b";", p), is_in_list(before));
    both(is_sign(b")", v), behind)
}

// No outputs before the `;`.
fn lacks_outputs(v: Option<&TokenKind>, p: Option<&TokenKind>, before: &[&TokenKind]) -> bool
    ensures { result ≡ (is_sign_of (codes ";") (kind_seen v.entry) && (is_sign_of (codes "(") (kind_seen p.entry) && is_in_list_of (kinds_seen before.now))) }
{
    let behind = both(is_sign(b"(", p), is_in_list(before));
    both(is_sign(b";", v), behind)
}

// A name without a type in a list.
fn lacks_type(v: Option<&TokenKind>, p: Option<&TokenKind>, before: &[&TokenKind]) -> bool
    ensures { result ≡ (is_some_sign_of (codes ")" ∷ codes "," ∷ codes ";" ∷ []) (kind_seen v.entry) &&
        (is_name_of (kind_seen p.entry) && is_in_list_of (kinds_seen before.now))) }
{
    let ended = is_some_sign(&[b")".as_slice(), b",".as_slice(), b";".as_slice()], v);
    both(ended, both(is_name(p), is_in_list(before)))
}

// A type in a relation.
fn is_late_type(v: Option<&TokenKind>, before: &[&TokenKind]) -> bool
    ensures { result ≡ (is_sign_of (codes ":") (kind_seen v.entry) && is_section_of (codes "where") (kinds_seen before.now)) }
{
    both(is_sign(b":", v), is_section(b"where", before))
}

// Outputs without parentheses.
fn lacks_parentheses(v: Option<&TokenKind>, p: Option<&TokenKind>) -> bool
    ensures { result ≡ (is_some (word_of_kind (kind_seen v.entry)) && is_word_of (codes "choose") (kind_seen p.entry)) }
{
    both(is_any_word(v), is_word(b"choose", p))
}

// A membership in a relation.
fn is_membership(v: Option<&TokenKind>, before: &[&TokenKind]) -> bool
    ensures { result ≡ (is_word_of (codes "in") (kind_seen v.entry) && is_section_of (codes "where") (kinds_seen before.now)) }
{
    both(is_word(b"in", v), is_section(b"where", before))
}

// The rows of types.
fn of_types(
    v: Option<&TokenKind>,
    p: Option<&TokenKind>,
    before: &[&TokenKind],
) -> Option<&'static [u8]>
    ensures { text_seen result ≡ first_fitting_of (take 3 (rows_of_lists (kind_seen v.entry) (kind_seen p.entry) (kinds_seen before.now))) }
{
    first_fitting(&[
        row(
            is_nested_type(v, p, before),
            b"a tuple is flat: (int, int, int)",
        ),
        row(is_other_type(v, p), b"a type is int, bool or set"),
        row(
            lacks_hidden(v, p, before),
            b"hidden outputs stand behind the ;",
        ),
    ])
}

// The rows of lists.
fn of_parts(
    v: Option<&TokenKind>,
    p: Option<&TokenKind>,
    before: &[&TokenKind],
) -> Option<&'static [u8]>
    ensures { text_seen result ≡ first_fitting_of (take 3 (drop 3 (rows_of_lists (kind_seen v.entry) (kind_seen p.entry) (kinds_seen before.now)))) }
{
    first_fitting(&[
        row(
            lacks_outputs(v, p, before),
            b"an output stands before the ;",
        ),
        row(
            lacks_type(v, p, before),
            b"each parameter and output has a type: (x: int)",
        ),
        row(
            is_late_type(v, before),
            b"types stand in the list of outputs alone",
        ),
    ])
}

// The rows of outputs and members.
fn of_outputs(
    v: Option<&TokenKind>,
    p: Option<&TokenKind>,
    before: &[&TokenKind],
) -> Option<&'static [u8]>
    ensures { text_seen result ≡ first_fitting_of (drop 3 (drop 3 (rows_of_lists (kind_seen v.entry) (kind_seen p.entry) (kinds_seen before.now)))) }
{
    first_fitting(&[
        row(
            lacks_parentheses(v, p),
            b"the outputs stand in parentheses: choose (x: int) where ..",
        ),
        row(
            is_membership(v, before),
            b"there is no membership; sets have subset, inter and card",
        ),
        row(
            is_sign(b";", v),
            b"a ; stands only between outputs and hidden ones, and between arms",
        ),
    ])
}

#[tactic(auto, using(crate::proofs::RowSteps::split_rows))]
fn of_most_lists(
    v: Option<&TokenKind>,
    p: Option<&TokenKind>,
    before: &[&TokenKind],
) -> Option<&'static [u8]>
    ensures { text_seen result ≡ first_fitting_of (drop 3 (rows_of_lists (kind_seen v.entry) (kind_seen p.entry) (kinds_seen before.now))) }
{
    or_else(of_parts(v, p, before), of_outputs(v, p, before))
}

#[tactic(auto, using(crate::proofs::RowSteps::split_rows))]
fn of_lists(
    v: Option<&TokenKind>,
    p: Option<&TokenKind>,
    before: &[&TokenKind],
) -> Option<&'static [u8]>
    ensures { text_seen result ≡ first_fitting_of ((rows_of_lists (kind_seen v.entry) (kind_seen p.entry) (kinds_seen before.now))) }
{
    or_else(of_types(v, p, before), of_most_lists(v, p, before))
}

// Whether a name stands behind a literal that is not the header's.
fn is_behind_literal(v: Option<&TokenKind>, p: Option<&TokenKind>, before: &[&TokenKind]) -> bool
    ensures { result ≡ is_behind_literal_of (kind_seen v.entry) (kind_seen p.entry) (kinds_seen before.now) }
{
    let literal = is_literal(p);
    both(is_name(v), both(literal, !is_behind_header(before)))
}

// A body without a `=`.
fn lacks_equal(v: Option<&TokenKind>, p: Option<&TokenKind>) -> bool
    ensures { result ≡ (is_sign_of (codes "{") (kind_seen v.entry) && (is_base_word_of (kind_seen p.entry) || is_sign_of (codes ")") (kind_seen p.entry))) }
{
    let typed = either(is_base_word(p), is_sign(b")", p));
    both(is_sign(b"{", v), typed)
}

// Digits in groups.
fn is_grouped(v: Option<&TokenKind>, p: Option<&TokenKind>, before: &[&TokenKind]) -> bool
    ensures { result ≡ (is_behind_literal_of (kind_seen v.entry) (kind_seen p.entry) (kinds_seen before.now) && begins_with_line_of
        (word_of_kind (kind_seen v.entry))) }
{
    both(
        is_behind_literal(v, p, before),
        begins_with_line(word_of(v)),
    )
}

// A divisor of 0.
fn is_zero_divisor(v: Option<&TokenKind>, p: Option<&TokenKind>) -> bool
    ensures { result ≡ (is_zero_of (kind_seen v.entry) && is_sign_of (codes ",") (kind_seen p.entry)) }
{
    both(is_zero(v), is_sign(b",", p))
}

// A `divides` behind a value.
fn is_divided(v: Option<&TokenKind>, p: Option<&TokenKind>) -> bool
    ensures { result ≡ (is_word_of (codes "divides") (kind_seen v.entry) && ends_value_of (kind_seen p.entry)) }
{
    both(is_word(b"divides", v), ends_value(p))
}

// A `given` behind the relation.
fn is_late_given(v: Option<&TokenKind>, before: &[&TokenKind]) -> bool
    ensures { result ≡ (is_word_of (codes "given") (kind_seen v.entry) && is_section_of (codes "where") (kinds_seen before.now)) }
{
    both(is_word(b"given", v), is_section(b"where", before))
}

// The rows of braces and digits.
fn of_braces(
    v: Option<&TokenKind>,
    p: Option<&TokenKind>,
    before: &[&TokenKind],
) -> Option<&'static [u8]>
    ensures { text_seen result ≡ first_fitting_of (take 3 (rows_of_values (kind_seen v.entry) (kind_seen p.entry) (kinds_seen before.now))) }
{
    first_fitting(&[
        row(
            lacks_equal(v, p),
            b"a body stands behind =: def f(x: int): int = x",
        ),
        row(
            is_some_sign(&[b"[".as_slice(), b"]".as_slice()], v),
            b"there are no lists; a set is {1, 2}",
        ),
        row(is_grouped(v, p, before), b"digits are written without _"),
    ])
}

// The rows of products and divisors.
fn of_products(
    v: Option<&TokenKind>,
    p: Option<&TokenKind>,
    before: &[&TokenKind],
) -> Option<&'static [u8]>
    ensures { text_seen result ≡ first_fitting_of (take 3 (drop 3 (rows_of_values (kind_seen v.entry) (kind_seen p.entry) (kinds_seen before.now)))) }
{
    first_fitting(&[
        row(
            is_behind_literal(v, p, before),
            b"a product is written with *",
        ),
        row(is_zero_divisor(v, p), b"a divisor is at least 1"),
        row(
            is_divided(v, p),
            b"the left side of divides is a constant or a literal of at least 1",
        ),
    ])
}

// Whether a form stands inside an operation.
fn is_inside(v: Option<&TokenKind>) -> bool
    ensures { result ≡ is_some_word_of (codes "let" ∷ codes "if" ∷ codes "choose" ∷ codes "match" ∷ []) (kind_seen v.entry) }
{
    is_some_word(
        &[
            b"let".as_slice(),
            b"if".as_slice(),
            b"choose".as_slice(),
            b"match".as_slice(),
        ],
        v,
    )
}

// The rows of words that stand elsewhere.
fn of_words(
    v: Option<&TokenKind>,
    p: Option<&TokenKind>,
    before: &[&TokenKind],
) -> Option<&'static [u8]>
    ensures { text_seen result ≡ first_fitting_of (drop 3 (drop 3 (rows_of_values (kind_seen v.entry) (kind_seen p.entry) (kinds_seen before.now)))) }
{
    first_fitting(&[
        row(is_late_given(v, before), b"given stands before where"),
        row(is_word(b"const", v), b"const stands among the functions"),
        row(
            is_inside(v),
            b"it stands in parentheses inside an operation",
        ),
    ])
}

#[tactic(auto, using(crate::proofs::RowSteps::split_rows))]
fn of_most_values(
    v: Option<&TokenKind>,
    p: Option<&TokenKind>,
    before: &[&TokenKind],
) -> Option<&'static [u8]>
    ensures { text_seen result ≡ first_fitting_of (drop 3 (rows_of_values (kind_seen v.entry) (kind_seen p.entry) (kinds_seen before.now))) }
{
    or_else(of_products(v, p, before), of_words(v, p, before))
}

#[tactic(auto, using(crate::proofs::RowSteps::split_rows))]
fn of_values(
    v: Option<&TokenKind>,
    p: Option<&TokenKind>,
    before: &[&TokenKind],
) -> Option<&'static [u8]>
    ensures { text_seen result ≡ first_fitting_of ((rows_of_values (kind_seen v.entry) (kind_seen p.entry) (kinds_seen before.now))) }
{
    or_else(of_braces(v, p, before), of_most_values(v, p, before))
}

// The help of the rows of functions, names and arms, else of those behind them.
fn of_rest(
    alloc: Global,
    v: Option<&TokenKind>,
    p: Option<&TokenKind>,
    before: &[&TokenKind],
) -> Result<Option<Text>, NoMemory>
    ensures { IfOk result (λ h. h ≡ or_else_of (first_fitting_of (rows_of_items (kind_seen v.entry) (kind_seen p.entry) (kinds_seen before.now)))
        (or_else_of (first_fitting_of (rows_of_lists (kind_seen v.entry) (kind_seen p.entry) (kinds_seen before.now)))
        (first_fitting_of (rows_of_values (kind_seen v.entry) (kind_seen p.entry) (kinds_seen before.now))))) }
{
    let reserved = reserved_text(alloc, word_of(v))?;
    let operation = operation_text(alloc, word_of(v))?;
    let items = of_items(v, p, before, &reserved.bytes, &operation.bytes);
    let lists = of_lists(v, p, before);
    let values = of_values(v, p, before);
    help_text(alloc, or_else(items, or_else(lists, values)))
}

// The help of the first row that fits, of all.
fn syntax_help(alloc: Global, stop: &Stop) -> Result<Option<Text>, NoMemory>
    ensures { IfOk result (λ h. h ≡ syntax_help_of (stop_of stop.now)) }
{
    let p = first(&stop.before);
    let signs = of_signs(stop.refused, p, stop.next, &stop.before);
    match or_else(signs, foreign_at(stop.refused, &stop.before)) {
        Some(help) => help_text(alloc, Some(help)),
        None => of_rest(alloc, stop.refused, p, &stop.before),
    }
}

/// What is told where reading of a text with these tokens stops.
///
/// # Errors
/// Want of memory alone.
pub fn syntax_words(
    alloc: Global,
    text: &[u8],
    tokens: &[Token],
    place: Place,
) -> Result<FaultWords, NoMemory>
    ensures { IfOk result (λ w. words_of w ≡ syntax_words_of text.now tokens.now place) }
{
    let what = found_token(alloc, bytes_at(text, place))?;
    let stop = stop_at(alloc, tokens, place)?;
    let help = syntax_help(alloc, &stop)?;
    Ok(FaultWords { what, help })
}
