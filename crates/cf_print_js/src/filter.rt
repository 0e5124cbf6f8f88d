//! What makes a file a filter of lines.
ghost use Rattle.std.specs.Prelude.{◌≡◌, ◌++◌, codes, map, true, IfOk, OnOk};
ghost use Rattle.cf_print_js.specs.Files.{filter, filter_by, reply as reply_of};

use crate::texts;
use cf_print::text_of_pieces;
use cf_print_line::{Called, line_text};
use cf_tree::{Base, NoMemory, Text};
use std::alloc::Global;

// The reply to the values of a line.
fn reply(alloc: Global, name: &[u8], bases: &[Base]) -> Result<Text, NoMemory>
    ensures { IfOk result (λ t. t ≡ reply_of name.now bases.now) }
{
    if bases.len() == 1 {
        text_of_pieces(
            alloc,
            &[b"written(".as_slice(), name, b"(...values))".as_slice()],
        )
    } else {
        text_of_pieces(
            alloc,
            &[name, b"(...values).map(written).join(\" \")".as_slice()],
        )
    }
}

/// What makes the file of a function one that answers lines.
pub(crate) fn filter_of(alloc: Global, function: &Called) -> Result<Text, NoMemory>
    ensures { IfOk result (λ t. t ≡ filter function.now) }
{
    let line = line_text(alloc, &function.bases)?;
    let reply = reply(alloc, &function.name.bytes, &function.results)?;
    filter_with(alloc, &line.bytes, &reply.bytes)
}

#[tactic(auto, unfolding(crate::specs::Files::filter_by))]
fn filter_with<'x>(alloc: Global, line: &'x [u8], reply: &'x [u8]) -> Result<Text, NoMemory>
    ensures { IfOk result (λ t. t ≡ filter_by line.now reply.now) }
{
    text_of_pieces(
        alloc,
        &[texts::FILTER, line, texts::REPLY, reply, texts::FILTER_MAIN],
    )
}
