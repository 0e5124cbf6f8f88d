//! Statements of the languages, a line or two for each.
ghost use Rattle.std.specs.Prelude.{◌≡◌, ◌++◌, flat_map, OnOk};
ghost use Rattle.cf_print_line.specs.Layout.{base_text as base_word, comment_text, else_lines, end_lines, before_end as end_before, before_value as value_before, behind_end as end_behind, fall_lines, guard_end, guard_text, if_text, let_text, line, next_text as next_word, none_text, read_lines, scope_lines, search_below, search_text, step_of as step, unread_lines};

use cf_print::{Language, put_pieces, put_repeated};
use cf_tree::{Base, NoMemory};
use itoa::Buffer;

/// Before the value of a set in a variable of Rust.
pub const LENT: &[u8] = b": &BTreeSet<i128> = &";

/// Before the number at which a function of Rust has no solution.
pub const NO_SOLUTION: &[u8] = b"Err(ComfusyError::NoSolution(";

// What stands before a line in a block.
fn step_of(language: Language) -> &'static [u8]
    ensures { result.now ≡ step language }
{
    match language {
        Language::JavaScript => b"  ",
        Language::C | Language::Python | Language::Rust => b"    ",
    }
}

/// Puts a line of pieces.
pub fn put_line(
    out: &mut Vec<u8>,
    language: Language,
    depth: usize,
    pieces: &[&[u8]],
) -> Result<(), NoMemory>
    ensures { OnOk result (out.new.items ≡ out.old.items ++ line language depth (flat_map (λ piece. piece.now) pieces.now)) }
{
    put_repeated(out, step_of(language), depth)?;
    put_pieces(out, pieces)?;
    out.push(b'\n')?;
    Ok(())
}

/// Puts a line of these words.
pub fn put_words(
    out: &mut Vec<u8>,
    language: Language,
    depth: usize,
    words: &[u8],
) -> Result<(), NoMemory>
    ensures { OnOk result (out.new.items ≡ out.old.items ++ line language depth words.now) }
{
    put_repeated(out, step_of(language), depth)?;
    out.extend_from_slice(words)?;
    out.push(b'\n')?;
    Ok(())
}

/// The base of a value.
pub fn base_text<'x>(language: Language, base: Base) -> &'x [u8]
    ensures { result.now ≡ base_word language base }
{
    match language {
        Language::C => match base {
            Base::Bool => b"bool",
            Base::Int | Base::Set => b"whole",
        },
        Language::Python => match base {
            Base::Int => b"int",
            Base::Bool => b"bool",
            Base::Set => b"frozenset[int]",
        },
        Language::JavaScript => match base {
            Base::Int => b"bigint",
            Base::Bool => b"boolean",
            Base::Set => b"Set<bigint>",
        },
        Language::Rust => match base {
            Base::Int => b"i128",
            Base::Bool => b"bool",
            Base::Set => b"BTreeSet<i128>",
        },
    }
}

// What stands between a variable of Rust and its value.
fn before_value<'x>(is_small: bool, base: Base) -> &'x [u8]
    ensures { result.now ≡ value_before is_small base }
{
    match base {
        Base::Set => LENT,
        Base::Bool => b" = ",
        Base::Int => if is_small { b": i128 = " } else { b" = " },
    }
}

/// Puts a variable and its value, which may be made of numerals alone.
pub fn put_let<'x>(
    out: &mut Vec<u8>,
    language: Language,
    depth: usize,
    is_small: bool,
    base: Base,
    name: &'x [u8],
    value: &'x [u8],
) -> Result<(), NoMemory>
    ensures { OnOk result (out.new.items ≡ out.old.items ++ line language depth (let_text language is_small base name.now value.now)) }
{
    match language {
        Language::C => put_line(
            out,
            language,
            depth,
            &[
                base_text(language, base),
                b" ".as_slice(),
                name,
                b" = ".as_slice(),
                value,
                b";".as_slice(),
            ],
        ),
        Language::Python => put_line(out, language, depth, &[name, b" = ".as_slice(), value]),
        Language::JavaScript => put_line(
            out,
            language,
            depth,
            &[
                b"const ".as_slice(),
                name,
                b" = ".as_slice(),
                value,
                b";".as_slice(),
            ],
        ),
        Language::Rust => put_line(
            out,
            language,
            depth,
            &[
                b"let ".as_slice(),
                name,
                before_value(is_small, base),
                value,
                b";".as_slice(),
            ],
        ),
    }
}

/// Puts a comment.
pub fn put_comment(
    out: &mut Vec<u8>,
    language: Language,
    depth: usize,
    text: &[u8],
) -> Result<(), NoMemory>
    ensures { OnOk result (out.new.items ≡ out.old.items ++ line language depth (comment_text language text.now)) }
{
    match language {
        Language::Python => put_line(out, language, depth, &[b"# ".as_slice(), text]),
        Language::C | Language::JavaScript | Language::Rust => put_line(
            out,
            language,
            depth,
            &[b"// ".as_slice(), text],
        ),
    }
}

/// What stands before the value of a function of Rust: nothing before its last statement.
pub(crate) fn before_end<'x>(depth: usize) -> &'x [u8]
    ensures { result.now ≡ end_before depth }
{
    if depth == 1 { b"" } else { b"return " }
}

/// What stands behind it.
pub(crate) fn behind_end<'x>(depth: usize) -> &'x [u8]
    ensures { result.now ≡ end_behind depth }
{
    if depth == 1 { b"" } else { b";" }
}

/// Puts that there is no solution at a number.
pub fn put_none(
    out: &mut Vec<u8>,
    language: Language,
    depth: usize,
    number: u32,
) -> Result<(), NoMemory>
    ensures { OnOk result (out.new.items ≡ out.old.items ++ line language depth (none_text language depth number)) }
{
    let mut buffer = Buffer::new();
    let digits = buffer.format(number).as_bytes();
    match language {
        Language::C => put_line(
            out,
            language,
            depth,
            &[
                b"return past ? COMFUSY_OVERFLOW : ".as_slice(),
                digits,
                b";".as_slice(),
            ],
        ),
        Language::Python => put_line(
            out,
            language,
            depth,
            &[b"raise NoSolution(".as_slice(), digits, b")".as_slice()],
        ),
        Language::JavaScript => put_line(
            out,
            language,
            depth,
            &[
                b"throw new NoSolution(".as_slice(),
                digits,
                b");".as_slice(),
            ],
        ),
        Language::Rust => put_line(
            out,
            language,
            depth,
            &[
                before_end(depth),
                NO_SOLUTION,
                digits,
                b"))".as_slice(),
                behind_end(depth),
            ],
        ),
    }
}

/// Puts that the next round of a search comes.
pub fn put_next(out: &mut Vec<u8>, language: Language, depth: usize) -> Result<(), NoMemory>
    ensures { OnOk result (out.new.items ≡ out.old.items ++ line language depth (next_word language)) }
{
    match language {
        Language::Python => put_words(out, language, depth, b"continue"),
        Language::C | Language::JavaScript | Language::Rust => {
            put_words(out, language, depth, b"continue;")
        }
    }
}

/// Puts that what stands behind is next.
pub fn put_fall(out: &mut Vec<u8>, language: Language, depth: usize) -> Result<(), NoMemory>
    ensures { OnOk result (out.new.items ≡ out.old.items ++ fall_lines language depth) }
{
    match language {
        Language::Python => put_words(out, language, depth, b"pass"),
        Language::C | Language::JavaScript | Language::Rust => Ok(()),
    }
}

/// Puts a condition under which what follows stands deeper.
pub fn put_if(
    out: &mut Vec<u8>,
    language: Language,
    depth: usize,
    condition: &[u8],
) -> Result<(), NoMemory>
    ensures { OnOk result (out.new.items ≡ out.old.items ++ line language depth (if_text language condition.now)) }
{
    match language {
        Language::Python => put_line(
            out,
            language,
            depth,
            &[b"if ".as_slice(), condition, b":".as_slice()],
        ),
        Language::C | Language::JavaScript => put_line(
            out,
            language,
            depth,
            &[b"if (".as_slice(), condition, b") {".as_slice()],
        ),
        Language::Rust => put_line(
            out,
            language,
            depth,
            &[b"if ".as_slice(), condition, b" {".as_slice()],
        ),
    }
}

/// Puts a condition before one statement that leaves.
pub fn put_guard(
    out: &mut Vec<u8>,
    language: Language,
    depth: usize,
    condition: &[u8],
) -> Result<(), NoMemory>
    ensures { OnOk result (out.new.items ≡ out.old.items ++ line language depth (guard_text language condition.now)) }
{
    match language {
        Language::C => put_line(
            out,
            language,
            depth,
            &[b"if (".as_slice(), condition, b")".as_slice()],
        ),
        Language::Python | Language::JavaScript | Language::Rust => {
            put_if(out, language, depth, condition)
        }
    }
}

/// Puts the end of what stood deeper.
pub fn put_end(out: &mut Vec<u8>, language: Language, depth: usize) -> Result<(), NoMemory>
    ensures { OnOk result (out.new.items ≡ out.old.items ++ end_lines language depth) }
{
    match language {
        Language::Python => Ok(()),
        Language::C | Language::JavaScript | Language::Rust => {
            put_words(out, language, depth, b"}")
        }
    }
}

/// Puts the end of a guarded statement.
pub fn put_guard_end(out: &mut Vec<u8>, language: Language, depth: usize) -> Result<(), NoMemory>
    ensures { OnOk result (out.new.items ≡ out.old.items ++ guard_end language depth) }
{
    match language {
        Language::C => Ok(()),
        Language::Python | Language::JavaScript | Language::Rust => put_end(out, language, depth),
    }
}

/// Puts the line before the other side of a condition.
pub fn put_else(out: &mut Vec<u8>, language: Language, depth: usize) -> Result<(), NoMemory>
    ensures { OnOk result (out.new.items ≡ out.old.items ++ else_lines language depth) }
{
    match language {
        Language::Python => put_words(out, language, depth, b"else:"),
        Language::C | Language::JavaScript | Language::Rust => {
            put_words(out, language, depth, b"} else {")
        }
    }
}

/// Puts the line before an arm whose variables are its own.
pub fn put_scope(out: &mut Vec<u8>, language: Language, depth: usize) -> Result<(), NoMemory>
    ensures { OnOk result (out.new.items ≡ out.old.items ++ scope_lines language depth) }
{
    match language {
        Language::Python => Ok(()),
        Language::C | Language::JavaScript | Language::Rust => {
            put_words(out, language, depth, b"{")
        }
    }
}

/// Puts a search below a bound.
pub fn put_search(
    out: &mut Vec<u8>,
    language: Language,
    depth: usize,
    name: &[u8],
    bound: u32,
) -> Result<(), NoMemory>
    ensures { OnOk result (out.new.items ≡ out.old.items ++ line language depth (search_text language name.now bound)) }
{
    let mut buffer = Buffer::new();
    put_search_below(out, language, depth, name, buffer.format(bound).as_bytes())
}

fn put_search_below<'x>(
    out: &mut Vec<u8>,
    language: Language,
    depth: usize,
    name: &'x [u8],
    digits: &'x [u8],
) -> Result<(), NoMemory>
    ensures { OnOk result (out.new.items ≡ out.old.items ++ line language depth (search_below language name.now digits.now)) }
{
    match language {
        Language::C => put_line(
            out,
            language,
            depth,
            &[
                b"for (whole ".as_slice(),
                name,
                b" = 0; ".as_slice(),
                name,
                b" < ".as_slice(),
                digits,
                b"; ".as_slice(),
                name,
                b"++) {".as_slice(),
            ],
        ),
        Language::Python => put_line(
            out,
            language,
            depth,
            &[
                b"for ".as_slice(),
                name,
                b" in range(".as_slice(),
                digits,
                b"):".as_slice(),
            ],
        ),
        Language::JavaScript => put_line(
            out,
            language,
            depth,
            &[
                b"for (let ".as_slice(),
                name,
                b" = 0n; ".as_slice(),
                name,
                b" < ".as_slice(),
                digits,
                b"n; ".as_slice(),
                name,
                b"++) {".as_slice(),
            ],
        ),
        Language::Rust => put_line(
            out,
            language,
            depth,
            &[
                b"for ".as_slice(),
                name,
                b" in 0..".as_slice(),
                digits,
                b"_i128 {".as_slice(),
            ],
        ),
    }
}

/// Puts the name of a variable that no statement reads, so that compilers do not warn of it.
pub fn put_unread(
    out: &mut Vec<u8>,
    language: Language,
    depth: usize,
    name: &[u8],
) -> Result<(), NoMemory>
    ensures { OnOk result (out.new.items ≡ out.old.items ++ unread_lines language depth name.now) }
{
    match language {
        Language::C => put_line(
            out,
            language,
            depth,
            &[b"(void)".as_slice(), name, b";".as_slice()],
        ),
        Language::Python | Language::JavaScript | Language::Rust => Ok(()),
    }
}

/// The same where a variable may be read.
pub fn put_read(
    out: &mut Vec<u8>,
    language: Language,
    depth: usize,
    is_read: bool,
    name: &[u8],
) -> Result<(), NoMemory>
    ensures { OnOk result (out.new.items ≡ out.old.items ++ read_lines language depth is_read name.now) }
{
    if is_read {
        Ok(())
    } else {
        put_unread(out, language, depth, name)
    }
}
