//! Reading the input, and answering its lines as they come.
ghost use Rattle.std.specs.Prelude.{◌≡◌, ◌≤◌, ◌<◌, ◌+◌, ◌-◌, ◌^◌, ℕ, List, Option, Some, None, Err, length, IfOk, IfErr, OnErr, IsErrOf};
ghost use Rattle.std.specs.Io.KnownBytes.{IsAtEnd};
ghost use Rattle.cf_io.specs.Limits.{IsWithin};
ghost use Rattle.cf_answer.specs.Limits.{input_limit_of};
ghost use Rattle.cf_answer.specs.Outside.{Counts, one_past};
ghost use Rattle.cf_answer.specs.Steps.{replier_of, IsReadTo, RunsOn, RunsThrough};

use crate::answerer::Replier;
use crate::fault::Fault;
use crate::pieces::{answer_piece, answer_rest};
use crate::write::write_text;
use cf_io::{Cutter, Failed, Sink, Source, longest_input};
use cf_tree::Edition;
use std::alloc::Global;

// How many bytes are read at once.
const PIECE: usize = 4096;

// Reads the next bytes into the piece, and answers the lines that they end. How many bytes came; none
// is the end.
#[tactic(auto, using(crate::proofs::StepLemmas::read_next))]
fn answer_next<I: Source, O: Sink>(
    alloc: Global,
    replier: &Replier,
    cutter: &mut Cutter,
    input: &mut I,
    out: &mut O,
    piece: &mut [u8],
) -> Result<usize, Fault>
    requires some { 0 < length piece.old }
    ensures more { IfOk result (λ count. (most : Option ℕ) (left old : Option (List ℕ)) (total : ℕ) →
        IsReadTo (replier_of replier.now) most left (I.seen input.old).left cutter.old old (O.seen out.old).held total →
        IsReadTo (replier_of replier.now) most left (I.seen input.new).left cutter.new old (O.seen out.new).held (total + count)) }
    ensures bound { IfOk result (λ count. count ≤ length piece.old) }
    ensures ended { IfOk result (λ count. count ≡ 0 → IsAtEnd (I.seen input.new).left) }
    ensures fault { IfErr result (λ e. (most : Option ℕ) (left old : Option (List ℕ)) (total : ℕ) →
        IsReadTo (replier_of replier.now) most left (I.seen input.old).left cutter.old old (O.seen out.old).held total →
        IsWithin (one_past most) (total + length piece.old) →
        RunsOn (replier_of replier.now) most left (I.seen input.new).left old (O.seen out.new).held (Err e)) }
    ensures input { Counts (IsErrOf result Fault.Input) (I.seen input.old).faults (I.seen input.new).faults }
    ensures output { Counts (IsErrOf result Fault.Output) (O.seen out.old).faults (O.seen out.new).faults }
    ensures given { IfOk result (λ count. (I.seen input.new).given ≤ (I.seen input.old).given + count) }
    ensures on { IfOk result (λ count. 0 < count → (I.seen input.new).ends ≡ (I.seen input.old).ends) }
    ensures most { OnErr result ((I.seen input.new).given ≤ (I.seen input.old).given + length piece.old) }
    ensures ends { (I.seen input.new).ends ≤ (I.seen input.old).ends + 1 }
{
    let count = match input.read(piece) {
        Ok(count) => count,
        Err(Failed) => return Err(Fault::Input),
    };
    answer_piece(alloc, replier, cutter, &piece[..count], out)?;
    Ok(count)
}

// Reads the input to its end, its fault or one byte past its limit. The lines that a piece ends are
// answered before the next piece is read.
#[tactic(auto, using(crate::proofs::StepLemmas::read_none))]
fn answer_within<I: Source, O: Sink>(
    alloc: Global,
    replier: &Replier,
    limit: usize,
    input: &mut I,
    out: &mut O,
) -> Result<(), Fault>
    requires small { limit < 2 ^ 31 }
    ensures runs { RunsOn (replier_of replier.now) (Some limit) (I.seen input.old).left (I.seen input.new).left (O.seen out.old).held (O.seen out.new).held
        result }
    ensures input { Counts (IsErrOf result Fault.Input) (I.seen input.old).faults (I.seen input.new).faults }
    ensures output { Counts (IsErrOf result Fault.Output) (O.seen out.old).faults (O.seen out.new).faults }
    ensures given { (I.seen input.new).given ≤ (I.seen input.old).given + (limit + 1) }
    ensures ends { (I.seen input.new).ends ≤ (I.seen input.old).ends + 1 }
{
    let mut cutter = Cutter::new(alloc, Some(limit as u64));
    let mut piece = [0u8; PIECE];
    let mut total = 0usize;
    'pieces: while total <= limit {
        let room = (limit + 1 - total).min(PIECE);
        let count = answer_next(alloc, replier, &mut cutter, input, out, &mut piece[..room])?;
        if count == 0 {
            return answer_rest(alloc, replier, cutter, out);
        }
        total += count;
    }
    Err(Fault::InputTooLong)
}

// Reads an input without a limit to its end or its fault, and answers its lines in the same way. More
// pieces than can be counted are as many as no memory holds.
#[tactic(auto, using(crate::proofs::StepLemmas::read_none))]
fn answer_all<I: Source, O: Sink>(
    alloc: Global,
    replier: &Replier,
    input: &mut I,
    out: &mut O,
) -> Result<(), Fault>
    ensures runs { RunsOn (replier_of replier.now) None (I.seen input.old).left (I.seen input.new).left (O.seen out.old).held (O.seen out.new).held result }
    ensures input { Counts (IsErrOf result Fault.Input) (I.seen input.old).faults (I.seen input.new).faults }
    ensures output { Counts (IsErrOf result Fault.Output) (O.seen out.old).faults (O.seen out.new).faults }
    ensures ends { (I.seen input.new).ends ≤ (I.seen input.old).ends + 1 }
{
    let mut cutter = Cutter::new(alloc, None);
    let mut piece = [0u8; PIECE];
    'pieces: for _ in 0..u64::MAX {
        let count = answer_next(alloc, replier, &mut cutter, input, out, &mut piece)?;
        if count == 0 {
            return answer_rest(alloc, replier, cutter, out);
        }
    }
    Err(Fault::NoMemory)
}

// Reads the input of an edition as far as its limit lets it.
fn answer_input<I: Source, O: Sink>(
    alloc: Global,
    edition: Edition,
    replier: &Replier,
    input: &mut I,
    out: &mut O,
) -> Result<(), Fault>
    ensures runs { RunsOn (replier_of replier.now) (input_limit_of edition) (I.seen input.old).left (I.seen input.new).left (O.seen out.old).held
        (O.seen out.new).held result }
    ensures input { Counts (IsErrOf result Fault.Input) (I.seen input.old).faults (I.seen input.new).faults }
    ensures output { Counts (IsErrOf result Fault.Output) (O.seen out.old).faults (O.seen out.new).faults }
    ensures given { IsWithin (one_past (input_limit_of edition)) ((I.seen input.new).given - (I.seen input.old).given) }
    ensures ends { (I.seen input.new).ends ≤ (I.seen input.old).ends + 1 }
{
    match edition {
        Edition::Two => answer_within(alloc, replier, longest_input(), input, out),
        Edition::Three => answer_all(alloc, replier, input, out),
    }
}

/// Answers the input of an edition, and writes `end` behind the replies.
pub fn answer_by<I: Source, O: Sink>(
    alloc: Global,
    edition: Edition,
    replier: &Replier,
    end: &[u8],
    input: &mut I,
    out: &mut O,
) -> Result<(), Fault>
    ensures through { RunsThrough (replier_of replier.now) (input_limit_of edition) end.now (I.seen input.old).left (I.seen input.new).left
        (O.seen out.old).held (O.seen out.new).held result }
    ensures input { Counts (IsErrOf result Fault.Input) (I.seen input.old).faults (I.seen input.new).faults }
    ensures output { Counts (IsErrOf result Fault.Output) (O.seen out.old).faults (O.seen out.new).faults }
    ensures given { IsWithin (one_past (input_limit_of edition)) ((I.seen input.new).given - (I.seen input.old).given) }
    ensures ends { (I.seen input.new).ends ≤ (I.seen input.old).ends + 1 }
{
    answer_input(alloc, edition, replier, input, out)?;
    write_text(out, end)
}
