//! The top of a file: the source as a comment, and what each choose stands on.
ghost use Rattle.std.specs.Prelude.{◌≡◌, ◌++◌, false, not, nat_eq, OnOk};
ghost use Rattle.cf_print.specs.Sources.{shown as shown_byte};
ghost use Rattle.cf_smt.specs.Heads.{byte_text, head_text, last_ending as ending_of, line_ending as ending, line_opening as opening, source_lines};

use cf_tree::NoMemory;

const NEW_LINE: u8 = b'\n';

/// Before the source.
pub const BEFORE_SOURCE: &[u8] =
    b"; Written by Comfusy from this source; each (check-sat) is to answer unsat.
;
";

/// Behind the source: the logic, and the lesser and the greater of two numbers.
pub const BEHIND_SOURCE: &[u8] = b"
(set-logic ALL)
(define-fun least. ((a Int) (b Int)) Int (ite (<= a b) a b))
(define-fun greatest. ((a Int) (b Int)) Int (ite (>= a b) a b))
";

fn shown(byte: u8) -> u8
    ensures { result ≡ shown_byte byte }
{
    if byte == b'\t' {
        b' '
    } else if b' ' <= byte && byte < 127 {
        byte
    } else {
        b'?'
    }
}

fn line_opening(is_begun: bool) -> &'static [u8]
    ensures { result.now ≡ opening is_begun }
{
    if is_begun { b"" } else { b";     " }
}

fn line_ending(is_begun: bool) -> &'static [u8]
    ensures { result.now ≡ ending is_begun }
{
    if is_begun { b"\n" } else { b";\n" }
}

fn last_ending(is_begun: bool) -> &'static [u8]
    ensures { result.now ≡ ending_of is_begun }
{
    if is_begun { b"\n" } else { b"" }
}

// A byte of the source, where its line is begun or not.
fn put_byte(out: &mut Vec<u8>, is_begun: bool, byte: u8) -> Result<(), NoMemory>
    ensures { OnOk result (out.new.items ≡ out.old.items ++ byte_text is_begun byte) }
{
    if byte == NEW_LINE {
        out.extend_from_slice(line_ending(is_begun))?;
        Ok(())
    } else {
        out.extend_from_slice(line_opening(is_begun))?;
        out.push(shown(byte))?;
        Ok(())
    }
}

fn is_in_line(byte: u8) -> bool
    ensures { result ≡ not (nat_eq byte 10) }
{
    byte != NEW_LINE
}

fn put_source(out: &mut Vec<u8>, source: &[u8]) -> Result<(), NoMemory>
    ensures { OnOk result (out.new.items ≡ out.old.items ++ source_lines false source.now) }
{
    let mut is_begun = false;
    for byte in source {
        put_byte(out, is_begun, *byte)?;
        is_begun = is_in_line(*byte);
    }
    out.extend_from_slice(last_ending(is_begun))?;
    Ok(())
}

/// Puts the top of a file, behind which the text of each choose stands.
///
/// # Errors
/// `NoMemory` where memory ran out.
pub fn put_head(out: &mut Vec<u8>, source: &[u8]) -> Result<(), NoMemory>
    ensures { OnOk result (out.new.items ≡ out.old.items ++ head_text source.now) }
{
    out.extend_from_slice(BEFORE_SOURCE)?;
    put_source(out, source)?;
    out.extend_from_slice(BEHIND_SOURCE)?;
    Ok(())
}
