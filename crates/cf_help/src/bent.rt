//! What is told of a form that is not linear.
ghost use Rattle.std.specs.Prelude.{◌≡◌, ◌++◌, ◌∷◌, [], flat_map, map, true, false, codes, Some, None, IfOk, OnOk, if◌then◌else◌};
ghost use Rattle.std.specs.List.{concat};
ghost use Rattle.cf_tree.specs.RawView.{raw_tree, given_tree, aim_tree};
ghost use Rattle.cf_program.specs.Linear.{Found};
ghost use Rattle.cf_program.specs.Walk.{takes_inputs as takes_inputs_of};
ghost use Rattle.cf_help.specs.AskedView.{found_seen};
ghost use Rattle.cf_help.specs.BendView.{FoundAnswer, Tells, bend_seen, root_seen, within_calls};
ghost use Rattle.cf_help.specs.Faults.{words, call_text as call_text_of, cause_text as cause_text_of, cause_help as cause_help_of, call_help, bend_in, bend_words as bend_words_of, given_bend as given_bend_of, aim_bend as aim_bend_of, bend_at as bend_at_of};
ghost use Rattle.cf_help.specs.HeldView.{holder_seen};
ghost use Rattle.cf_help.specs.ScopeView.{around_of, bindings_seen};
ghost use Rattle.cf_help.specs.Rows.{or_else};
ghost use Rattle.cf_help.specs.StopView.{text_seen};
ghost use Rattle.cf_help.specs.WordsView.{words_of};

use crate::bend::{Bend, BendFault, Root};
use crate::held::{Held, Holder, all_known, in_choose};
use crate::linear::found_in;
use crate::lines::same_place;
use crate::pieces::{help_text, in_quotes, joined};
use crate::scope::{Around, Binding};
use crate::words::FaultWords;
use cf_program::Linearity;
use cf_tree::{NoMemory, Place, Raw, RawAim, RawGiven, RawNode, Text};
use std::alloc::Global;

fn root_text(root: Root) -> &'static [u8]
    ensures { result.now ≡ cause_text_of (root_seen root) }
{
    match root {
        Root::Choose => b"a choose".as_slice(),
        Root::Match => b"a match".as_slice(),
        Root::SetLiteral => b"a set literal".as_slice(),
        Root::Inputs => b"a product with inputs".as_slice(),
        Root::Unknowns => b"a product of two unknowns".as_slice(),
    }
}

#[tactic(auto, unfolding(crate::specs::Faults::call_text))]
fn call_text(alloc: Global, name: &Text) -> Result<Text, NoMemory>
    ensures { IfOk result (λ t. t ≡ call_text_of name.now) }
{
    let quoted = in_quotes(alloc, &name.bytes)?;
    joined(
        alloc,
        &[
            b"a call of ".as_slice(),
            &quoted.bytes,
            b", which holds ".as_slice(),
        ],
    )
}

// Puts the calls of these functions, the outermost first.
fn put_calls(alloc: Global, out: &mut Vec<u8>, names: &[Text]) -> Result<(), NoMemory>
    ensures { OnOk result (out.new.items ≡ out.old.items ++ flat_map call_text_of names.now) }
{
    for name in names {
        let text = call_text(alloc, name)?;
        out.extend_from_slice(&text.bytes)?;
    }
    Ok(())
}

// The cause of a bend, within the calls of these functions, the innermost first.
#[tactic(auto, using(crate::proofs::CauseLaws::cause_within))]
fn cause_text(alloc: Global, root: Root, names: Vec<Text>) -> Result<Text, NoMemory>
    ensures { IfOk result (λ t. t ≡ cause_text_of (within_calls (root_seen root) names.items)) }
{
    let mut outer = names;
    outer.reverse();
    let mut bytes = Vec::new(alloc);
    put_calls(alloc, &mut bytes, &outer)?;
    bytes.extend_from_slice(root_text(root))?;
    Ok(Text { bytes })
}

// The help of what a call holds: only a choose and a match have one.
fn bound_help(root: Root) -> Option<&'static [u8]>
    ensures { text_seen result ≡ call_help (root_seen root) }
{
    match root {
        Root::Choose | Root::Match => Some(b"bind it by let before the choose".as_slice()),
        Root::SetLiteral | Root::Inputs | Root::Unknowns => None,
    }
}

fn inputs_help(is_given: bool) -> Option<&'static [u8]>
    ensures { text_seen result ≡ (if is_given then None else Some (codes "comfusy run takes a product with inputs")) }
{
    if is_given {
        None
    } else {
        Some(b"comfusy run takes a product with inputs".as_slice())
    }
}

// The help of a form in the relation itself.
fn own_help(is_given: bool, root: Root) -> Option<&'static [u8]>
    ensures { text_seen result ≡ cause_help_of is_given (root_seen root) }
{
    match root {
        Root::Choose | Root::Match => bound_help(root),
        Root::SetLiteral => Some(b"only {} may stand in a relation".as_slice()),
        Root::Inputs => inputs_help(is_given),
        Root::Unknowns => None,
    }
}

#[tactic(auto, using(crate::proofs::CauseLaws::help_within))]
fn cause_help(is_given: bool, root: Root, names: &[Text]) -> Option<&'static [u8]>
    ensures { text_seen result ≡ cause_help_of is_given (within_calls (root_seen root) names.now) }
{
    match names.split_first() {
        None => own_help(is_given, root),
        Some(_) => bound_help(root),
    }
}

fn bend_there(alloc: Global, is_given: bool, bend: Bend) -> Result<FaultWords, NoMemory>
    ensures { IfOk result (λ w. words_of w ≡ words (codes "not linear: " ∷ cause_text_of (within_calls (root_seen bend.root) bend.names.items) ∷ [])
        (cause_help_of is_given (within_calls (root_seen bend.root) bend.names.items))) }
{
    let root = bend.root;
    let names = bend.names;
    let help = help_text(alloc, cause_help(is_given, root, &names))?;
    let cause = cause_text(alloc, root, names)?;
    let what = joined(alloc, &[b"not linear: ".as_slice(), &cause.bytes])?;
    Ok(FaultWords { what, help })
}

fn fault_words(
    alloc: Global,
    place: Place,
    is_given: bool,
    fault: BendFault,
) -> Result<Option<FaultWords>, NoMemory>
    ensures { (f : Found) → Tells fault f → IfOk result (λ o. found_seen o ≡ bend_words_of place is_given f) }
{
    match fault {
        BendFault::NoMemory => Err(NoMemory),
        BendFault::Bends(bend) => bend_words(alloc, place, is_given, bend),
    }
}

#[tactic(auto, unfolding(crate::specs::Faults::bend_words))]
fn bend_words(
    alloc: Global,
    place: Place,
    is_given: bool,
    bend: Bend,
) -> Result<Option<FaultWords>, NoMemory>
    ensures { IfOk result (λ o. found_seen o ≡ bend_words_of place is_given (bend_seen bend)) }
{
    if same_place(place, bend.place) {
        let words = bend_there(alloc, is_given, bend)?;
        Ok(Some(words))
    } else {
        Ok(None)
    }
}

#[tactic(auto, unfolding(crate::specs::Faults::bend_words))]
fn answer_words(
    alloc: Global,
    place: Place,
    is_given: bool,
    answer: Result<Vec<Held>, BendFault>,
) -> Result<Option<FaultWords>, NoMemory>
    ensures { (f : Found) → FoundAnswer answer f → IfOk result (λ o. found_seen o ≡ bend_words_of place is_given f) }
{
    match answer {
        Ok(_) => Ok(None),
        Err(fault) => fault_words(alloc, place, is_given, fault),
    }
}

fn found_words<'a>(
    alloc: Global,
    place: Place,
    is_given: bool,
    around: &Around<'a>,
    inputs: bool,
    holders: &[Holder<'a>],
    raw: &'a Raw,
) -> Result<Option<FaultWords>, NoMemory>
    ensures { IfOk result (λ o. found_seen o ≡ bend_in place is_given inputs (around_of around.now) (map holder_seen holders.now) (raw_tree raw.now)) }
{
    let answer = found_in(alloc, around.earlier, inputs, holders, raw);
    answer_words(alloc, place, is_given, answer)
}

fn given_bend<'a>(
    alloc: Global,
    place: Place,
    around: &Around<'a>,
    variables: &[Binding<'a>],
    given: &'a RawGiven,
) -> Result<Option<FaultWords>, NoMemory>
    ensures { IfOk result (λ o. found_seen o ≡ given_bend_of place (around_of around.now) (bindings_seen variables.now) (given_tree given.now)) }
{
    match given {
        RawGiven::Always => Ok(None),
        RawGiven::That { rel, .. } => {
            let holders = all_known(alloc, variables)?;
            found_words(alloc, place, true, around, false, &holders, rel)
        }
    }
}

fn takes_inputs(how: Linearity) -> bool
    ensures { result ≡ takes_inputs_of how }
{
    match how {
        Linearity::Plain => false,
        Linearity::Late => true,
    }
}

fn aim_bend<'a>(
    alloc: Global,
    how: Linearity,
    place: Place,
    around: &Around<'a>,
    holders: &[Holder<'a>],
    aim: &'a RawAim,
) -> Result<Option<FaultWords>, NoMemory>
    ensures { IfOk result (λ o. found_seen o ≡ aim_bend_of how place (around_of around.now) (map holder_seen holders.now) (aim_tree aim.now)) }
{
    match aim {
        RawAim::Any => Ok(None),
        RawAim::At { objective, .. } => found_words(
            alloc,
            place,
            false,
            around,
            takes_inputs(how),
            holders,
            objective,
        ),
    }
}

// Of the relation of a choose, else of its aim.
fn chosen_bend<'a>(
    alloc: Global,
    how: Linearity,
    place: Place,
    around: &Around<'a>,
    holders: &[Holder<'a>],
    rel: &'a Raw,
    aim: &'a RawAim,
) -> Result<Option<FaultWords>, NoMemory>
    ensures { IfOk result (λ o. found_seen o ≡ or_else
        (bend_in place false (takes_inputs_of how) (around_of around.now) (map holder_seen holders.now) (raw_tree rel.now))
        (aim_bend_of how place (around_of around.now) (map holder_seen holders.now) (aim_tree aim.now))) }
{
    match found_words(alloc, place, false, around, takes_inputs(how), holders, rel)? {
        Some(words) => Ok(Some(words)),
        None => aim_bend(alloc, how, place, around, holders, aim),
    }
}

/// What is told of the first form that is not linear, where it stands at a place, by the choose that
/// holds it.
pub fn bend_at<'a>(
    alloc: Global,
    how: Linearity,
    place: Place,
    around: &Around<'a>,
    variables: &[Binding<'a>],
    raw: &'a Raw,
) -> Result<Option<FaultWords>, NoMemory>
    ensures { IfOk result (λ o. found_seen o ≡ bend_at_of how place (around_of around.now) (bindings_seen variables.now) (raw_tree raw.now)) }
{
    match &raw.node {
        RawNode::Choose {
            outputs,
            hidden,
            given,
            rel,
            aim,
        } => match given_bend(alloc, place, around, variables, given)? {
            Some(words) => Ok(Some(words)),
            None => {
                let holders = in_choose(alloc, variables, outputs, hidden)?;
                chosen_bend(alloc, how, place, around, &holders, rel, aim)
            }
        },
        _ => Ok(None),
    }
}
