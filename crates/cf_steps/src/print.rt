//! Printed blocks.
ghost use Rattle.std.specs.Prelude.{◌≡◌, ◌++◌, [], ◌∷◌, codes, decimal, map, IfOk, OnOk};
ghost use Rattle.std.specs.Fmt.{signed_decimal};
ghost use Rattle.cf_tree.specs.declared.base.Edition.{Edition as TheEdition};
ghost use Rattle.cf_emit.specs.Printed.{line_end, more_texts};
ghost use Rattle.cf_tree.specs.DefView.{target_tree};
ghost use Rattle.cf_tree.specs.Spelled.{HasSpelling};
ghost use Rattle.cf_steps.specs.Printed.{side_text, act_text, acts_text, cases_text, named_text, head_text, block_text};
ghost use Rattle.cf_steps.specs.ReadsBack.{ReadsBack};
ghost use Rattle.cf_steps.specs.Spelled.{AreSpelledCases, IsSpelledHead};

use crate::block::NamedTruth;
use cf_elim::Act;
use cf_emit::print;
use cf_tree::{Edition, NoMemory, Target, put_number, put_truth};
use itoa::Integer;
use std::alloc::Global;

fn put_side(out: &mut Vec<u8>, lower: bool) -> Result<(), NoMemory>
    ensures { OnOk result (out.new.items ≡ out.old.items ++ side_text lower) }
{
    let word = if lower {
        b"lower".as_slice()
    } else {
        b"upper".as_slice()
    };
    out.extend_from_slice(word)?;
    Ok(())
}

// Some bytes and a number.
fn put_behind<I: Integer>(out: &mut Vec<u8>, before: &[u8], number: I) -> Result<(), NoMemory>
    ensures { OnOk result (out.new.items ≡ out.old.items ++ (before.now ++ I.text number)) }
{
    out.extend_from_slice(before)?;
    put_number(out, number)
}

// A space and a factor.
fn put_factor(out: &mut Vec<u8>, factor: &i128) -> Result<(), NoMemory>
    ensures { OnOk result (out.new.items ≡ out.old.items ++ (codes " " ++ signed_decimal factor.now)) }
{
    put_behind(out, b" ", *factor)
}

fn put_act(out: &mut Vec<u8>, act: &Act) -> Result<(), NoMemory>
    ensures { OnOk result (out.new.items ≡ out.old.items ++ act_text act.now) }
{
    match act {
        Act::Clean => {
            out.extend_from_slice(b"clean")?;
            Ok(())
        }
        Act::Mix { x, y, a, b, c, d } => {
            put_behind(out, b"mix ", *x)?;
            put_behind(out, b" ", *y)?;
            put_factor(out, a)?;
            put_factor(out, b)?;
            put_factor(out, c)?;
            put_factor(out, d)?;
            Ok(())
        }
        Act::Last(equation) => put_behind(out, b"last ", *equation),
        Act::Search { column, lower } => {
            put_behind(out, b"search ", *column)?;
            out.push(b' ')?;
            put_side(out, *lower)
        }
        Act::Drop(column) => put_behind(out, b"drop ", *column),
    }
}

// A line for each step.
fn put_acts(out: &mut Vec<u8>, acts: &[Act]) -> Result<(), NoMemory>
    ensures { OnOk result (out.new.items ≡ out.old.items ++ acts_text acts.now) }
{
    for act in acts {
        put_act(out, act)?;
        out.extend_from_slice(b";\n")?;
    }
    Ok(())
}

// The steps of each case.
fn put_cases(out: &mut Vec<u8>, cases: &[Vec<Act>]) -> Result<(), NoMemory>
    ensures { OnOk result (out.new.items ≡ out.old.items ++ cases_text (map (λ c. c.items) cases.now)) }
{
    for acts in cases {
        out.extend_from_slice(b"case {\n")?;
        put_acts(out, acts)?;
        out.extend_from_slice(b"}\n")?;
    }
    Ok(())
}

// A truth variable and its value.
fn put_named(out: &mut Vec<u8>, truth: &NamedTruth) -> Result<(), NoMemory>
    ensures { OnOk result (out.new.items ≡ out.old.items ++ named_text truth.now) }
{
    out.extend_from_slice(&truth.name.bytes)?;
    out.extend_from_slice(b" = ")?;
    put_truth(out, truth.value)
}

// Truth variables, a comma and a space before each.
fn put_more_named(out: &mut Vec<u8>, truths: &[NamedTruth]) -> Result<(), NoMemory>
    ensures { OnOk result (out.new.items ≡ out.old.items ++ more_texts (map named_text truths.now)) }
{
    for truth in truths {
        out.extend_from_slice(b", ")?;
        put_named(out, truth)?;
    }
    Ok(())
}

// The branch of a block.
fn put_head(out: &mut Vec<u8>, truths: &[NamedTruth]) -> Result<(), NoMemory>
    ensures { OnOk result (out.new.items ≡ out.old.items ++ head_text truths.now) }
{
    match truths.split_first() {
        None => Ok(()),
        Some((truth, more)) => {
            out.extend_from_slice(b" (")?;
            put_named(out, truth)?;
            put_more_named(out, more)?;
            out.push(b')')?;
            Ok(())
        }
    }
}

// The steps of a choose with this number in a branch.
fn put_steps(
    out: &mut Vec<u8>,
    number: u32,
    truths: &[NamedTruth],
    cases: &[Vec<Act>],
) -> Result<(), NoMemory>
    ensures { OnOk result (out.new.items ≡ out.old.items ++
        (codes "choose " ++ decimal number ++ head_text truths.now ++ codes " {" ++ line_end ++ cases_text (map (λ c. c.items) cases.now) ++ codes "}" ++ line_end)) }
{
    put_behind(out, b"choose ", number)?;
    put_head(out, truths)?;
    out.extend_from_slice(b" {\n")?;
    put_cases(out, cases)?;
    out.extend_from_slice(b"}\n")?;
    Ok(())
}

/// The printed form of the block of a choose: its number, the branch, the steps of its cases, and the
/// target that they lead to. Where its branch, its steps and its target have a spelling, the tokens of
/// this text spell this block, and nothing else.
///
/// # Errors
/// `NoMemory` where memory ran out.
pub fn print_block(
    alloc: Global,
    number: u32,
    truths: &[NamedTruth],
    cases: &[Vec<Act>],
    target: &Target,
) -> Result<Vec<u8>, NoMemory>
    ensures text { IfOk result (λ bytes. bytes.items ≡ block_text number truths.now (map (λ c. c.items) cases.now) target.now) }
    ensures reads_back { (edition : TheEdition) → IsSpelledHead edition truths.now → AreSpelledCases (map (λ c. c.items) cases.now) → HasSpelling target.now → IfOk result (λ bytes.
        ReadsBack edition (record { number = number; truths = truths.now; cases = map (λ c. c.items) cases.now; target = target_tree target.now } ∷ []) bytes.items) }
{
    let mut out = Vec::new(alloc);
    put_steps(&mut out, number, truths, cases)?;
    out.extend_from_slice(&print(alloc, Edition::Two, target)?)?;
    Ok(out)
}
