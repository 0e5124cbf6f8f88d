//! How values stand in a line, as a pattern.
ghost use Rattle.std.specs.Prelude.{◌≡◌, ◌++◌, codes, map, true, IfOk, OnOk};
ghost use Rattle.cf_print_line.specs.Patterns.{line_pattern as pattern_of, line_text as line_of};

use cf_print::{joined_text, text_of_pieces};
use cf_tree::{Base, NoMemory, Text};
use std::alloc::Global;

// How a value stands in a line, as a pattern.
fn pattern_of_base(base: Base) -> &'static [u8]
    ensures { result.now ≡ pattern_of base }
{
    match base {
        Base::Int => b"(-?[0-9]+)",
        Base::Bool => b"(true|false)",
        Base::Set => b"(\\{[ \\t]*(?:-?[0-9]+[ \\t]*(?:,[ \\t]*-?[0-9]+[ \\t]*)*)?\\})",
    }
}

fn patterns(alloc: Global, bases: &[Base]) -> Result<Vec<Text>, NoMemory>
    ensures { IfOk result (λ all. all.items ≡ map pattern_of bases.now) }
{
    let mut all = Vec::new(alloc);
    for base in bases {
        all.push(Text {
            bytes: Vec::from_slice(alloc, pattern_of_base(*base))?,
        })?;
    }
    Ok(all)
}

/// The pattern of a line that holds values of these bases.
pub fn line_text(alloc: Global, bases: &[Base]) -> Result<Text, NoMemory>
    ensures { IfOk result (λ t. t ≡ line_of bases.now) }
{
    if bases.len() == 0 {
        return Ok(Text {
            bytes: Vec::from_slice(alloc, b"[ \\t]*")?,
        });
    }
    let all = patterns(alloc, bases)?;
    let all = joined_text(alloc, b"[ \\t]+", &all)?;
    text_of_pieces(
        alloc,
        &[
            b"[ \\t]*".as_slice(),
            all.bytes.as_slice(),
            b"[ \\t]*".as_slice(),
        ],
    )
}
