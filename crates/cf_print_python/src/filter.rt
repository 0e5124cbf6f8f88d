//! What makes a file a filter of lines.
ghost use Rattle.std.specs.Prelude.{◌≡◌, ◌++◌, codes, map, true, IfOk, OnOk};
ghost use Rattle.cf_print_python.specs.Files.{filter, filter_by, reply as reply_of};

use crate::texts;
use cf_print::text_of_pieces;
use cf_print_line::{Called, line_text};
use cf_tree::{Base, NoMemory, Text};
use std::alloc::Global;

fn reply<'x>(bases: &[Base]) -> &'x [u8]
    ensures { result.now ≡ reply_of bases.now }
{
    if bases.len() == 1 {
        b"written(outcome)"
    } else {
        b"\" \".join(map(written, outcome))"
    }
}

/// What makes the file of a function one that answers lines.
pub(crate) fn filter_of(alloc: Global, function: &Called) -> Result<Text, NoMemory>
    ensures { IfOk result (λ t. t ≡ filter function.now) }
{
    let line = line_text(alloc, &function.bases)?;
    filter_with(
        alloc,
        &line.bytes,
        &function.name.bytes,
        reply(&function.results),
    )
}

#[tactic(auto, unfolding(crate::specs::Files::filter_by))]
fn filter_with<'x>(
    alloc: Global,
    line: &'x [u8],
    name: &'x [u8],
    reply: &'x [u8],
) -> Result<Text, NoMemory>
    ensures { IfOk result (λ t. t ≡ filter_by line.now name.now reply.now) }
{
    text_of_pieces(
        alloc,
        &[
            texts::FILTER,
            line,
            texts::REPLY,
            name,
            texts::OUTCOME,
            reply,
            texts::FILTER_MAIN,
        ],
    )
}
