//! Answering the lines that a piece of the input ends.
ghost use Rattle.std.specs.Prelude.{◌++◌, List, ℕ, Option, length, map, IfErr, OnOk, OnErr, IsErrOf};
ghost use Rattle.cf_io.specs.Cut.{told, line_of};
ghost use Rattle.cf_io.specs.Lines.{ended, lines as lines_of};
ghost use Rattle.cf_io.specs.Limits.{line_limit, IsWithin};
ghost use Rattle.cf_answer.specs.Outside.{Counts};
ghost use Rattle.cf_answer.specs.Steps.{replier_of, TookLines, TookSomeLines, IsAnswered, IsOutFault};

use crate::answerer::Replier;
use crate::fault::Fault;
use crate::reply::replies;
use crate::write::write_text;
use cf_io::{Cutter, Line, Sink};
use std::alloc::Global;

// Writes the replies to lines, and to those that end in the bytes behind them.
#[tactic(auto, using(crate::proofs::ReplyLemmas::took_some, crate::proofs::ReplyLemmas::took_none, crate::proofs::OutsideLemmas::no_fault))]
fn answer_lines<O: Sink>(
    alloc: Global,
    replier: &Replier,
    lines: &[Line],
    behind: &[u8],
    out: &mut O,
) -> Result<(), Fault>
    ensures all { OnOk result (TookLines (replier_of replier.now) (lines.now ++ map (line_of line_limit) (ended behind.now)) (O.seen out.old).held
        (O.seen out.new).held) }
    ensures some { TookSomeLines (replier_of replier.now) (lines.now ++ map (line_of line_limit) (ended behind.now)) (O.seen out.old).held
        (O.seen out.new).held }
    ensures fault { IfErr result IsOutFault }
    ensures count { Counts (IsErrOf result Fault.Output) (O.seen out.old).faults (O.seen out.new).faults }
{
    let text = replies(alloc, replier, lines, behind)?;
    write_text(out, &text)
}

/// Takes the next piece of the input, and answers the lines that it ends within the limit.
#[tactic(auto, using(crate::proofs::OutsideLemmas::no_fault))]
pub fn answer_piece<O: Sink>(
    alloc: Global,
    replier: &Replier,
    cutter: &mut Cutter,
    piece: &[u8],
    out: &mut O,
) -> Result<(), Fault>
    ensures all { OnOk result ((most : Option ℕ) (bytes : List ℕ) (first : Option (List ℕ)) →
        IsAnswered (replier_of replier.now) most cutter.old bytes first (O.seen out.old).held →
        IsAnswered (replier_of replier.now) most cutter.new (bytes ++ piece.now) first (O.seen out.new).held) }
    ensures some { OnErr result ((most : Option ℕ) (bytes : List ℕ) (first : Option (List ℕ)) →
        IsAnswered (replier_of replier.now) most cutter.old bytes first (O.seen out.old).held →
        TookSomeLines (replier_of replier.now) (told line_limit most (bytes ++ piece.now)) first (O.seen out.new).held) }
    ensures fault { IfErr result IsOutFault }
    ensures count { Counts (IsErrOf result Fault.Output) (O.seen out.old).faults (O.seen out.new).faults }
{
    let mut lines = Vec::new(alloc);
    let behind = cutter.feed_first(piece, &mut lines)?;
    answer_lines(alloc, replier, &lines, behind, out)
}

/// Answers the last line, where bytes stand after the last line feed.
#[tactic(auto, using(crate::proofs::OutsideLemmas::no_fault))]
pub fn answer_rest<O: Sink>(
    alloc: Global,
    replier: &Replier,
    cutter: Cutter,
    out: &mut O,
) -> Result<(), Fault>
    ensures all { OnOk result ((most : Option ℕ) (bytes : List ℕ) (first : Option (List ℕ)) →
        IsAnswered (replier_of replier.now) most cutter bytes first (O.seen out.old).held → IsWithin most (length bytes) →
        TookLines (replier_of replier.now) (map (line_of line_limit) (lines_of bytes)) first (O.seen out.new).held) }
    ensures some { (most : Option ℕ) (bytes : List ℕ) (first : Option (List ℕ)) →
        IsAnswered (replier_of replier.now) most cutter bytes first (O.seen out.old).held → IsWithin most (length bytes) →
        TookSomeLines (replier_of replier.now) (map (line_of line_limit) (lines_of bytes)) first (O.seen out.new).held }
    ensures fault { IfErr result IsOutFault }
    ensures count { Counts (IsErrOf result Fault.Output) (O.seen out.old).faults (O.seen out.new).faults }
{
    let mut lines = Vec::new(alloc);
    cutter.finish(&mut lines)?;
    answer_lines(alloc, replier, &lines, &[], out)
}
