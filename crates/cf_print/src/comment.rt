//! The source as a comment.
ghost use Rattle.std.specs.Prelude.{◌≡◌, ◌++◌, ◌∷◌, [], None, OnOk};
ghost use Rattle.cf_print.specs.Sources.{before_nothing as in_place_of_nothing, before_source as before_line, byte_text, is_kept_apart as kept_apart, last_ending as ending_of, last_or_blank as last_byte, line_ending as ending, line_opening as opening, shown as shown_byte, shown_behind as behind, shown_last, source_lines};

use crate::language::Language;
use cf_tree::NoMemory;

const NEW_LINE: u8 = b'\n';

const BLANK: u8 = b' ';

// A byte as it is shown.
fn shown(byte: u8) -> u8
    ensures { result ≡ shown_byte byte }
{
    if byte == b'\t' {
        BLANK
    } else if BLANK <= byte && byte < 127 {
        byte
    } else {
        b'?'
    }
}

// Whether a byte behind another would end or begin a comment of C, or end a trigraph.
fn is_kept_apart(last: u8, byte: u8) -> bool
    ensures { result ≡ kept_apart last byte }
{
    ((last == b'*' || last == b'?') && byte == b'/') || (last == b'/' && byte == b'*')
}

fn put_two(out: &mut Vec<u8>, first: u8, second: u8) -> Result<(), NoMemory>
    ensures { OnOk result (out.new.items ≡ out.old.items ++ (first ∷ second ∷ [])) }
{
    out.push(first)?;
    out.push(second)?;
    Ok(())
}

fn put_one(out: &mut Vec<u8>, byte: u8) -> Result<(), NoMemory>
    ensures { OnOk result (out.new.items ≡ out.old.items ++ (byte ∷ [])) }
{
    out.push(byte)?;
    Ok(())
}

// A shown byte behind another.
fn put_behind(out: &mut Vec<u8>, language: Language, last: u8, byte: u8) -> Result<(), NoMemory>
    ensures { OnOk result (out.new.items ≡ out.old.items ++ behind language last byte) }
{
    match language {
        Language::Python => if byte == b'"' || byte == b'\\' {
            put_two(out, b'\\', byte)
        } else {
            put_one(out, byte)
        },
        Language::C => if is_kept_apart(last, byte) {
            put_two(out, BLANK, byte)
        } else {
            put_one(out, byte)
        },
        Language::JavaScript | Language::Rust => put_one(out, byte),
    }
}

fn before_source(language: Language) -> &'static [u8]
    ensures { result.now ≡ before_line language }
{
    match language {
        Language::Python => b"    ",
        Language::C => b" *     ",
        Language::JavaScript | Language::Rust => b"//     ",
    }
}

fn before_nothing(language: Language) -> &'static [u8]
    ensures { result.now ≡ in_place_of_nothing language }
{
    match language {
        Language::Python => b"",
        Language::C => b" *",
        Language::JavaScript | Language::Rust => b"//",
    }
}

fn line_opening(language: Language, last: Option<u8>) -> &'static [u8]
    ensures { result.now ≡ opening language last }
{
    match last {
        None => before_source(language),
        Some(_) => b"",
    }
}

fn last_or_blank(last: Option<u8>) -> u8
    ensures { result ≡ last_byte last }
{
    match last {
        None => BLANK,
        Some(byte) => byte,
    }
}

fn put_line_ending(out: &mut Vec<u8>, language: Language, last: Option<u8>) -> Result<(), NoMemory>
    ensures { OnOk result (out.new.items ≡ out.old.items ++ ending language last) }
{
    match last {
        None => {
            out.extend_from_slice(before_nothing(language))?;
            put_one(out, NEW_LINE)
        }
        Some(_) => put_one(out, NEW_LINE),
    }
}

// A byte of the source, behind what was shown last in its line.
fn put_byte(
    out: &mut Vec<u8>,
    language: Language,
    last: Option<u8>,
    byte: u8,
) -> Result<(), NoMemory>
    ensures { OnOk result (out.new.items ≡ out.old.items ++ byte_text language last byte) }
{
    if byte == NEW_LINE {
        put_line_ending(out, language, last)
    } else {
        out.extend_from_slice(line_opening(language, last))?;
        put_behind(out, language, last_or_blank(last), shown(byte))
    }
}

// What the next byte stands behind.
fn last_of(byte: u8) -> Option<u8>
    ensures { result ≡ shown_last byte }
{
    if byte == NEW_LINE {
        None
    } else {
        Some(shown(byte))
    }
}

/// Puts the lines of a source.
pub(crate) fn put_source(
    out: &mut Vec<u8>,
    language: Language,
    source: &[u8],
) -> Result<(), NoMemory>
    ensures { OnOk result (out.new.items ≡ out.old.items ++ source_lines language None source.now) }
{
    let mut last = None;
    for byte in source {
        put_byte(out, language, last, *byte)?;
        last = last_of(*byte);
    }
    put_end(out, last)
}

// The end of a last line that has none.
fn put_end(out: &mut Vec<u8>, last: Option<u8>) -> Result<(), NoMemory>
    ensures { OnOk result (out.new.items ≡ out.old.items ++ ending_of last) }
{
    match last {
        None => Ok(()),
        Some(_) => put_one(out, NEW_LINE),
    }
}
