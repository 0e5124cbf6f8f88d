//! The lines of faults.
ghost use Rattle.std.specs.Prelude.{◌≡◌, codes, flat_map, OnOk, OnErr};
ghost use Rattle.std.specs.Io.KnownBytes.{Appends};
ghost use Rattle.cf_io.specs.Bytes.{TookPrefix};
ghost use Rattle.cf_io.specs.Causes.{one_more};
ghost use Rattle.cf_answer.specs.Lines.{line_text, Puts};
ghost use Rattle.cf_answer.specs.Texts.{answered_line, answers_line, answers_verb as the_answers_verb, place_line, place_line_behind, count_line, choose_line, rule_line};
ghost use Rattle.cf_answer.specs.Texts.{steps_line, rejected_line, fault_line, answer_line};
ghost use Rattle.cf_answer.specs.Written.{line_of};

use crate::ended::Ended;
use crate::fault::{Fault, StepsFault};
use crate::reason::rejection_reason;
use cf_cert::Why;
use cf_io::{Failed, Sink, write_all};
use cf_linear::{Refusal, refusal_reason};
use cf_program::TypeFault;
use cf_tree::Place;
use itoa::Buffer;

// What the line of a fault says.
#[derive(Clone, Copy)]
enum Line<'a> {
    Words(&'a [u8]),
    // Words about a place of a text, behind the head of the line.
    At {
        head: &'a [u8],
        place: Place,
        words: &'a [u8],
    },
    Count {
        name: &'a [u8],
        count: u64,
    },
    Choose {
        number: u32,
        refusal: Refusal,
    },
    Rejected {
        number: u32,
        case: u32,
        step: u32,
        why: Why,
    },
    // So many answers of `check` are so.
    Answers {
        count: u32,
        so: &'a [u8],
    },
}

fn at_place(place: &Place, words: &'static [u8]) -> Line<'static>
    ensures { line_text result ≡ place_line place.now words.now }
{
    Line::At {
        head: b"line ".as_slice(),
        place: *place,
        words,
    }
}

fn weight_line(weight: u64) -> Line<'static>
    ensures { line_text result ≡ count_line (codes "Weight") weight }
{
    Line::Count {
        name: b"Weight".as_slice(),
        count: weight,
    }
}

fn depth_line(depth: u64) -> Line<'static>
    ensures { line_text result ≡ count_line (codes "Depth") depth }
{
    Line::Count {
        name: b"Depth".as_slice(),
        count: depth,
    }
}

fn rule_line(fault: &TypeFault) -> Line<'static>
    ensures { line_text result ≡ rule_line fault.now }
{
    match fault {
        TypeFault::UnknownName(place) => at_place(place, b"unknown name".as_slice()),
        TypeFault::DuplicateName(place) => at_place(place, b"duplicate name".as_slice()),
        TypeFault::WrongCount(place) => at_place(place, b"wrong count".as_slice()),
        TypeFault::Mismatch(place) => at_place(place, b"type mismatch".as_slice()),
        TypeFault::NotConstant(place) => at_place(place, b"not constant".as_slice()),
        TypeFault::ConstantBelow(place) => at_place(place, b"constant below 1".as_slice()),
        TypeFault::ConstantPast(place) => at_place(place, b"constant past limit".as_slice()),
        TypeFault::CallsLater(place) => at_place(place, b"calls later function".as_slice()),
        TypeFault::NoMain => Line::Words(b"no main".as_slice()),
        TypeFault::NotLinear(place) => at_place(place, b"not linear".as_slice()),
        TypeFault::Weight(count) => weight_line(*count),
        TypeFault::Depth(count) => depth_line(*count),
        TypeFault::NoMemory => Line::Words(b"no memory".as_slice()),
    }
}

// Words about a place of the steps file.
fn at_steps_place(place: &Place, words: &'static [u8]) -> Line<'static>
    ensures { line_text result ≡ place_line_behind (codes "steps line ") place.now words.now }
{
    Line::At {
        head: b"steps line ".as_slice(),
        place: *place,
        words,
    }
}

fn steps_line(fault: &StepsFault) -> Line<'static>
    ensures { line_text result ≡ steps_line fault.now }
{
    match fault {
        StepsFault::TooLong => Line::Words(b"steps text too long".as_slice()),
        StepsFault::BadByte(place) => at_steps_place(place, b"bad byte".as_slice()),
        StepsFault::NumberPast(place) => at_steps_place(place, b"number past limit".as_slice()),
        StepsFault::Syntax(place) => at_steps_place(place, b"syntax".as_slice()),
    }
}

fn fault_line(fault: &Fault) -> Line<'static>
    ensures { line_text result ≡ fault_line fault.now }
{
    match fault {
        Fault::Usage => Line::Words(
            b"usage: comfusy compile|pre|check|run|exec|prove FILE, or comfusy emit LANG FILE, or comfusy verify FILE STEPS, or comfusy gen N, or comfusy --help".as_slice(),
        ),
        Fault::File => Line::Words(b"cannot read file".as_slice()),
        Fault::TextTooLong => Line::Words(b"text too long".as_slice()),
        Fault::BadByte(place) => at_place(place, b"bad byte".as_slice()),
        Fault::NumberPast(place) => at_place(place, b"number past limit".as_slice()),
        Fault::Syntax(place) => at_place(place, b"syntax".as_slice()),
        Fault::Rule(fault) => rule_line(fault),
        Fault::Choose { number, refusal } => Line::Choose {
            number: *number,
            refusal: *refusal,
        },
        Fault::Weight { weight, .. } => weight_line(*weight),
        Fault::Depth { depth, .. } => depth_line(*depth),
        Fault::NoSetsInC => Line::Words(b"no sets in c".as_slice()),
        Fault::NoSetsInSmt => Line::Words(b"no sets in smt".as_slice()),
        Fault::BadTarget => Line::Words(b"target not well typed".as_slice()),
        Fault::Steps(fault) => steps_line(fault),
        Fault::Rejected {
            number,
            case,
            step,
            why,
        } => Line::Rejected {
            number: *number,
            case: *case,
            step: *step,
            why: *why,
        },
        Fault::Input => Line::Words(b"cannot read input".as_slice()),
        Fault::Output => Line::Words(b"cannot write output".as_slice()),
        Fault::InputTooLong => Line::Words(b"input too long".as_slice()),
        Fault::OutputTooLong => Line::Words(b"text too long".as_slice()),
        Fault::AnswersNo(count) => Line::Answers {
            count: *count,
            so: b"no".as_slice(),
        },
        Fault::AnswersUndecided(count) => Line::Answers {
            count: *count,
            so: b"undecided".as_slice(),
        },
        Fault::NoMemory => Line::Words(b"no memory".as_slice()),
    }
}

// Writes the pieces of a line, one after the other.
#[tactic(auto, using(crate::proofs::CountLemmas::one_fault))]
fn put<E: Sink>(err: &mut E, pieces: &[&[u8]]) -> Result<(), Failed>
    ensures all { OnOk result (Appends (E.seen err.old).held (E.seen err.new).held (flat_map (λ piece. piece.now) pieces.now)) }
    ensures prefix { TookPrefix (E.seen err.old).held (E.seen err.new).held (flat_map (λ piece. piece.now) pieces.now) }
    ensures failed { OnErr result ((E.seen err.new).faults ≡ one_more (E.seen err.old).faults) }
    ensures same { OnOk result ((E.seen err.new).faults ≡ (E.seen err.old).faults) }
{
    for piece in pieces {
        write_all(err, piece)?;
    }
    Ok(())
}

// The same, as one fact.
fn put_pieces<E: Sink>(err: &mut E, pieces: &[&[u8]]) -> Result<(), Failed>
    ensures { Puts (flat_map (λ piece. piece.now) pieces.now) (E.seen err.old) (E.seen err.new) result }
{
    put(err, pieces)
}

fn put_place<E: Sink>(err: &mut E, head: &[u8], place: &Place, words: &[u8]) -> Result<(), Failed>
    ensures { Puts (place_line_behind head.now place.now words.now) (E.seen err.old) (E.seen err.new) result }
{
    let mut line = Buffer::new();
    let mut column = Buffer::new();
    let pieces = [
        head,
        line.format(place.line).as_bytes(),
        b" column ".as_slice(),
        column.format(place.column).as_bytes(),
        b": ".as_slice(),
        words,
        b"\n".as_slice(),
    ];
    put_pieces(err, &pieces)
}

fn put_count<E: Sink>(err: &mut E, name: &[u8], count: u64) -> Result<(), Failed>
    ensures { Puts (count_line name.now count) (E.seen err.old) (E.seen err.new) result }
{
    let mut number = Buffer::new();
    let pieces = [
        name,
        b" ".as_slice(),
        number.format(count).as_bytes(),
        b"\n".as_slice(),
    ];
    put_pieces(err, &pieces)
}

fn put_choose<E: Sink>(err: &mut E, number: u32, refusal: &Refusal) -> Result<(), Failed>
    ensures { Puts (choose_line number refusal.now) (E.seen err.old) (E.seen err.new) result }
{
    let mut choose = Buffer::new();
    let mut count = Buffer::new();
    let reason = refusal_reason(refusal, &mut count);
    let pieces = [
        b"choose ".as_slice(),
        choose.format(number).as_bytes(),
        b": ".as_slice(),
        reason.words,
        reason.gap,
        reason.count,
        b"\n".as_slice(),
    ];
    put_pieces(err, &pieces)
}

fn put_rejected<E: Sink>(
    err: &mut E,
    number: u32,
    case: u32,
    step: u32,
    why: &Why,
) -> Result<(), Failed>
    ensures { Puts (rejected_line number case step why.now) (E.seen err.old) (E.seen err.new) result }
{
    let mut choose = Buffer::new();
    let mut case_number = Buffer::new();
    let mut step_number = Buffer::new();
    let mut count = Buffer::new();
    let reason = rejection_reason(why, &mut count);
    let pieces = [
        b"choose ".as_slice(),
        choose.format(number).as_bytes(),
        b": rejected at case ".as_slice(),
        case_number.format(case).as_bytes(),
        b" step ".as_slice(),
        step_number.format(step).as_bytes(),
        b": ".as_slice(),
        reason.words,
        reason.gap,
        reason.count,
        b"\n".as_slice(),
    ];
    put_pieces(err, &pieces)
}

fn answers_verb<'x>(count: u32) -> &'x [u8]
    ensures { result.now ≡ the_answers_verb count }
{
    if count == 1 {
        b" answer is ".as_slice()
    } else {
        b" answers are ".as_slice()
    }
}

fn put_answers<E: Sink>(err: &mut E, count: u32, so: &[u8]) -> Result<(), Failed>
    ensures { Puts (answers_line count so.now) (E.seen err.old) (E.seen err.new) result }
{
    let mut number = Buffer::new();
    put_answered(
        err,
        number.format(count).as_bytes(),
        answers_verb(count),
        so,
    )
}

// What is lent stands in one array, so it is lent for one time.
fn put_answered<'x, E: Sink>(
    err: &mut E,
    count: &'x [u8],
    verb: &'x [u8],
    so: &'x [u8],
) -> Result<(), Failed>
    ensures { Puts (answered_line count.now verb.now so.now) (E.seen err.old) (E.seen err.new) result }
{
    let pieces = [b"check: ".as_slice(), count, verb, so, b"\n".as_slice()];
    put_pieces(err, &pieces)
}

fn put_line<E: Sink>(err: &mut E, line: &Line<'_>) -> Result<(), Failed>
    ensures { Puts (line_text line.now) (E.seen err.old) (E.seen err.new) result }
{
    match line {
        Line::Words(words) => put_pieces(err, &[*words, b"\n".as_slice()]),
        Line::At { head, place, words } => put_place(err, *head, place, *words),
        Line::Count { name, count } => put_count(err, *name, *count),
        Line::Choose { number, refusal } => put_choose(err, *number, refusal),
        Line::Rejected {
            number,
            case,
            step,
            why,
        } => put_rejected(err, *number, *case, *step, why),
        Line::Answers { count, so } => put_answers(err, *count, *so),
    }
}

// Writes the line of a fault, and nothing where there is none.
fn put_answer<E: Sink>(err: &mut E, answer: &Result<(), Fault>) -> Result<(), Failed>
    ensures { Puts (answer_line answer.now) (E.seen err.old) (E.seen err.new) result }
{
    match answer {
        Ok(()) => put_pieces(err, &[]),
        Err(fault) => put_line(err, &fault_line(fault)),
    }
}

/// Writes the message about a refused source, or the line of a fault, and nothing where there is none;
/// or the sink failed.
pub fn tell<E: Sink>(err: &mut E, ended: &Ended) -> Result<(), Failed>
    ensures all { OnOk result (Appends (E.seen err.old).held (E.seen err.new).held (line_of ended.now)) }
    ensures prefix { TookPrefix (E.seen err.old).held (E.seen err.new).held (line_of ended.now) }
    ensures failed { OnErr result ((E.seen err.new).faults ≡ one_more (E.seen err.old).faults) }
    ensures same { OnOk result ((E.seen err.new).faults ≡ (E.seen err.old).faults) }
{
    match &ended.message {
        Some(message) => put_pieces(err, &[&message.bytes]),
        None => put_answer(err, &ended.answer),
    }
}
