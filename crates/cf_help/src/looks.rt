//! What is seen at the place of a fault.
ghost use Rattle.std.specs.Prelude.{◌≡◌, ◌++◌, ◌∷◌, [], map, reverse, codes, decimal, Some, None, length, IfOk, OnOk, if◌then◌else◌};
ghost use Rattle.std.specs.List.{concat};
ghost use Rattle.cf_program.specs.Names.{is_among as is_among_names};
ghost use Rattle.cf_help.specs.Lines.{same_place as same_place_of};
ghost use Rattle.cf_help.specs.Near.{in_quotes as in_quotes_of};
ghost use Rattle.cf_tree.specs.RawView.{raw_tree, raw_trees};
ghost use Rattle.cf_help.specs.AskedView.{found_seen, look_of};
ghost use Rattle.cf_help.specs.ValuedView.{constant_seen};
ghost use Rattle.cf_help.specs.Faults.{words, number_help, below_words as below_words_of, below_named as below_named_of, unknown_words as unknown_words_of, variable_candidates as variable_candidates_of, function_candidates as function_candidates_of, given_help as given_help_of, number_words as number_words_of, unknown_at as unknown_at_of, duplicate_words as duplicate_words_of, binder_words as binder_words_of, count_at as count_at_of, later_at as later_at_of, variable_words as variable_words_of, params_of as params_of_def, raws_length};
ghost use Rattle.cf_help.specs.Rows.{or_else};
ghost use Rattle.cf_help.specs.ScopeView.{around_of, bindings_seen, defs_seen, def_seen};
ghost use Rattle.cf_help.specs.Spots.{bases_in as bases_in_of, function_of as function_of_name};
ghost use Rattle.cf_help.specs.StopView.{text_seen};
ghost use Rattle.cf_help.specs.WordsView.{words_of};

use crate::bases::{bases_in, function_of};
use crate::bent::bend_at;
use crate::clash::mismatch_at;
use crate::lines::same_place;
use crate::near::unknown_words;
use crate::numbers::is_among;
use crate::pieces::{in_quotes, joined, number_text, signed_text};
use crate::places::{binder_in, number_in};
use crate::scope::{Around, Binding};
use crate::valued::{Valued, value_of};
use crate::words::FaultWords;
use cf_program::{Linearity, TypeFault};
use cf_tree::{NoMemory, Place, Raw, RawDef, RawNode, Text};
use std::alloc::Global;

/// What is looked for: what is to be told of a fault, of an item that stands among these, where
/// relations are to be linear so, and these constants have values.
#[derive(Clone, Copy)]
pub struct Asked<'a> {
    pub alloc: Global,
    pub how: Linearity,
    pub values: &'a [Valued<'a>],
    pub fault: TypeFault,
    pub around: Around<'a>,
}

// The variables and the constants that an unknown name may have meant, the last one first.
#[tactic(auto, using(crate::proofs::StopLemmas::map_reverse))]
fn variable_candidates<'a>(
    alloc: Global,
    constants: &[&'a [u8]],
    variables: &[Binding<'a>],
) -> Result<Vec<&'a [u8]>, NoMemory>
    ensures { IfOk result (λ v. map (λ n. n.now) v.items ≡ variable_candidates_of (map (λ n. n.now) constants.now) (bindings_seen variables.now)) }
{
    let mut all = Vec::from_slice(alloc, constants)?;
    put_names(&mut all, variables)?;
    all.reverse();
    Ok(all)
}

fn put_names<'a>(all: &mut Vec<&'a [u8]>, variables: &[Binding<'a>]) -> Result<(), NoMemory>
    ensures { OnOk result (map (λ n. n.now) all.new.items ≡ map (λ n. n.now) all.old.items ++ map (λ v. v.name) (bindings_seen variables.now)) }
{
    for variable in variables {
        all.push(variable.name)?;
    }
    Ok(())
}

// The names of functions, the last one first.
#[tactic(auto, using(crate::proofs::StopLemmas::map_reverse))]
fn names_backwards<'a>(alloc: Global, defs: &[&'a RawDef]) -> Result<Vec<&'a [u8]>, NoMemory>
    ensures { IfOk result (λ v. map (λ n. n.now) v.items ≡ reverse (map (λ d. d.name) (defs_seen defs.now))) }
{
    let mut all = Vec::new(alloc);
    put_def_names(&mut all, defs)?;
    all.reverse();
    Ok(all)
}

fn put_def_names<'a>(all: &mut Vec<&'a [u8]>, defs: &[&'a RawDef]) -> Result<(), NoMemory>
    ensures { OnOk result (map (λ n. n.now) all.new.items ≡ map (λ n. n.now) all.old.items ++ map (λ d. d.name) (defs_seen defs.now)) }
{
    for def in defs {
        all.push(&def.name.bytes)?;
    }
    Ok(())
}

// The functions and the operations that an unknown name may have meant.
fn function_candidates<'a>(alloc: Global, earlier: &[&'a RawDef]) -> Result<Vec<&'a [u8]>, NoMemory>
    ensures { IfOk result (λ v. map (λ n. n.now) v.items ≡ function_candidates_of (defs_seen earlier.now)) }
{
    let mut all = names_backwards(alloc, earlier)?;
    all.extend_from_slice(&[
        b"card".as_slice(),
        b"div".as_slice(),
        b"mod".as_slice(),
        b"abs".as_slice(),
        b"min".as_slice(),
        b"max".as_slice(),
    ])?;
    Ok(all)
}

// The constants that an unknown name may have meant, the last one first.
#[tactic(auto, using(crate::proofs::StopLemmas::map_reverse))]
fn constant_candidates<'a>(alloc: Global, constants: &[&'a [u8]]) -> Result<Vec<&'a [u8]>, NoMemory>
    ensures { IfOk result (λ v. map (λ n. n.now) v.items ≡ reverse (map (λ n. n.now) constants.now)) }
{
    let mut all = Vec::from_slice(alloc, constants)?;
    all.reverse();
    Ok(all)
}

// Whether one of these variables has a name.
fn is_output(outs: &[Binding], name: &[u8]) -> bool
    ensures { result ≡ is_among_names (map (λ v. v.name) (bindings_seen outs.now)) name.now }
{
    for out in outs {
        let other = out.name;
        if other == name {
            return true;
        }
    }
    false
}

fn given_help(outs: &[Binding], name: &[u8]) -> Option<&'static [u8]>
    ensures { text_seen result ≡ given_help_of (bindings_seen outs.now) name.now }
{
    if is_output(outs, name) {
        Some(b"given speaks of the scope and not of the outputs".as_slice())
    } else {
        None
    }
}

fn unknown_number(
    alloc: Global,
    constants: &[&[u8]],
    name: Option<&[u8]>,
) -> Result<Option<FaultWords>, NoMemory>
    ensures { IfOk result (λ o. found_seen o ≡ number_words_of (map (λ n. n.now) constants.now) (text_seen name.entry)) }
{
    match name {
        None => Ok(None),
        Some(name) => {
            let candidates = constant_candidates(alloc, constants)?;
            let words = unknown_words(alloc, name, &candidates, None)?;
            Ok(Some(words))
        }
    }
}

#[tactic(auto, unfolding(crate::specs::ScopeView::around_of))]
fn unknown_variable(
    asked: &Asked,
    outs: &[Binding],
    variables: &[Binding],
    name: &[u8],
) -> Result<FaultWords, NoMemory>
    ensures { IfOk result (λ w. words_of w ≡ unknown_words_of name.now
        (variable_candidates_of (around_of asked.now.around).constants (bindings_seen variables.now))
        (given_help_of (bindings_seen outs.now) name.now)) }
{
    let candidates = variable_candidates(asked.alloc, asked.around.constants, variables)?;
    unknown_words(asked.alloc, name, &candidates, given_help(outs, name))
}

// These words, where they stand at the place: they are made there alone.
fn is_there(place: Place, raw: &Raw) -> bool
    ensures { result ≡ same_place_of place raw.now.place }
{
    same_place(place, raw.place)
}

// What is told of an unknown name at a place.
#[tactic(auto, unfolding(crate::specs::ScopeView::around_of))]
fn unknown_at(
    asked: &Asked,
    place: Place,
    outs: &[Binding],
    variables: &[Binding],
    raw: &Raw,
) -> Result<Option<FaultWords>, NoMemory>
    ensures { IfOk result (λ o. found_seen o
        ≡ unknown_at_of place (around_of asked.now.around) (bindings_seen outs.now) (bindings_seen variables.now) (raw_tree raw.now)) }
{
    match &raw.node {
        RawNode::Name(name) => if is_there(place, raw) {
            let words = unknown_variable(asked, outs, variables, &name.bytes)?;
            Ok(Some(words))
        } else {
            Ok(None)
        },
        RawNode::Call { name, .. } => if is_there(place, raw) {
            let words = unknown_function(asked, &name.bytes)?;
            Ok(Some(words))
        } else {
            Ok(None)
        },
        _ => unknown_number(asked.alloc, asked.around.constants, number_in(place, raw)),
    }
}

#[tactic(auto, unfolding(crate::specs::ScopeView::around_of))]
fn unknown_function(asked: &Asked, name: &[u8]) -> Result<FaultWords, NoMemory>
    ensures { IfOk result (λ w. words_of w ≡ unknown_words_of name.now (function_candidates_of (around_of asked.now.around).earlier) None) }
{
    let candidates = function_candidates(asked.alloc, asked.around.earlier)?;
    unknown_words(asked.alloc, name, &candidates, None)
}

/// What is told of a name that is bound twice.
pub fn duplicate_words(
    alloc: Global,
    name: &[u8],
    is_constant: bool,
) -> Result<FaultWords, NoMemory>
    ensures { IfOk result (λ w. words_of w ≡ duplicate_words_of name.now is_constant) }
{
    let quoted = in_quotes(alloc, name)?;
    let what = joined(alloc, &[b"duplicate name: ".as_slice(), &quoted.bytes])?;
    let help = constant_help(alloc, &quoted, is_constant)?;
    Ok(FaultWords { what, help })
}

fn constant_help(alloc: Global, quoted: &Text, is_constant: bool) -> Result<Option<Text>, NoMemory>
    ensures { IfOk result (λ h. h ≡ (if is_constant then Some (concat (quoted.now ∷ codes " is a constant" ∷ [])) else None)) }
{
    if is_constant {
        let help = joined(alloc, &[&quoted.bytes, b" is a constant".as_slice()])?;
        Ok(Some(help))
    } else {
        Ok(None)
    }
}

/// What is told of a binder of this name.
pub fn binder_words(
    alloc: Global,
    constants: &[&[u8]],
    name: Option<&[u8]>,
) -> Result<Option<FaultWords>, NoMemory>
    ensures { IfOk result (λ o. found_seen o ≡ binder_words_of (map (λ n. n.now) constants.now) (text_seen name.entry)) }
{
    match name {
        None => Ok(None),
        Some(name) => {
            let words = duplicate_words(alloc, name, is_among(constants, name))?;
            Ok(Some(words))
        }
    }
}

// How many parameters a function has.
fn param_count(def: Option<&RawDef>) -> u64
    ensures { result ≡ length (params_of_def (def_seen def.entry)) }
{
    match def {
        None => 0,
        Some(def) => def.params.len() as u64,
    }
}

#[tactic(auto, unfolding(crate::specs::ScopeView::around_of))]
fn asked_count(around: &Around, name: &[u8]) -> u64
    ensures { result ≡ length (params_of_def (function_of_name (around_of around.now).functions name.now)) }
{
    param_count(function_of(around.functions, name))
}

// How many arguments there are.
#[tactic(auto, using(crate::proofs::SeenSteps::raws_counted))]
fn arg_count(args: &[Raw]) -> u64
    ensures { result ≡ raws_length (raw_trees args.now) }
{
    args.len() as u64
}

fn call_count(asked: &Asked, name: &[u8], args: &[Raw]) -> Result<FaultWords, NoMemory>
    ensures { IfOk result (λ w. words_of w ≡ words (codes "wrong count: " ∷ in_quotes_of name.now ∷ codes " takes "
        ∷ decimal (length (params_of_def (function_of_name (around_of asked.now.around).functions name.now))) ∷ codes ", given "
        ∷ decimal (raws_length (raw_trees args.now)) ∷ []) None) }
{
    let quoted = in_quotes(asked.alloc, name)?;
    let takes = number_text(asked.alloc, asked_count(&asked.around, name))?;
    let given = number_text(asked.alloc, arg_count(args))?;
    let what = joined(
        asked.alloc,
        &[
            b"wrong count: ".as_slice(),
            &quoted.bytes,
            b" takes ".as_slice(),
            &takes.bytes,
            b", given ".as_slice(),
            &given.bytes,
        ],
    )?;
    Ok(FaultWords { what, help: None })
}

fn names_count(alloc: Global, names: u64, values: u64) -> Result<FaultWords, NoMemory>
    ensures { IfOk result (λ w. words_of w ≡ words (codes "wrong count: names " ∷ decimal names ∷ codes ", values " ∷ decimal values ∷ []) None) }
{
    let names = number_text(alloc, names)?;
    let values = number_text(alloc, values)?;
    let what = joined(
        alloc,
        &[
            b"wrong count: names ".as_slice(),
            &names.bytes,
            b", values ".as_slice(),
            &values.bytes,
        ],
    )?;
    Ok(FaultWords { what, help: None })
}

// Names for the parts of a value over these variables, which has another number of them.
fn let_count<'a>(
    asked: &Asked<'a>,
    variables: &[Binding<'a>],
    names: &[Text],
    value: &'a Raw,
) -> Result<FaultWords, NoMemory>
    ensures { IfOk result (λ w. words_of w ≡ words (codes "wrong count: names " ∷ decimal (length names.now) ∷ codes ", values "
        ∷ decimal (length (bases_in_of (around_of asked.now.around) (bindings_seen variables.now) (raw_tree value.now))) ∷ []) None) }
{
    let bases = bases_in(asked.alloc, &asked.around, variables, value)?;
    names_count(asked.alloc, names.len() as u64, bases.len() as u64)
}

// What is told of a wrong number of arguments or of names at a place.
fn count_at<'a>(
    asked: &Asked<'a>,
    place: Place,
    variables: &[Binding<'a>],
    raw: &'a Raw,
) -> Result<Option<FaultWords>, NoMemory>
    ensures { IfOk result (λ o. found_seen o ≡ count_at_of place (around_of asked.now.around) (bindings_seen variables.now) (raw_tree raw.now)) }
{
    match &raw.node {
        RawNode::Call { name, args } => if is_there(place, raw) {
            let words = call_count(asked, &name.bytes, args)?;
            Ok(Some(words))
        } else {
            Ok(None)
        },
        RawNode::Let { names, value, .. } => if is_there(place, raw) {
            let words = let_count(asked, variables, names, value)?;
            Ok(Some(words))
        } else {
            Ok(None)
        },
        _ => Ok(None),
    }
}

fn later_words(alloc: Global, name: &[u8]) -> Result<FaultWords, NoMemory>
    ensures { IfOk result (λ w. words_of w ≡ words (codes "calls later function: " ∷ in_quotes_of name.now ∷ [])
        (Some (codes "a function calls only functions that stand before it"))) }
{
    let quoted = in_quotes(alloc, name)?;
    let what = joined(
        alloc,
        &[b"calls later function: ".as_slice(), &quoted.bytes],
    )?;
    let help = Text::from_str(
        alloc,
        "a function calls only functions that stand before it",
    )?;
    Ok(FaultWords {
        what,
        help: Some(help),
    })
}

// What is told of a call of a later function at a place.
fn later_at(asked: &Asked, place: Place, raw: &Raw) -> Result<Option<FaultWords>, NoMemory>
    ensures { IfOk result (λ o. found_seen o ≡ later_at_of place (raw_tree raw.now)) }
{
    match &raw.node {
        RawNode::Call { name, .. } => if is_there(place, raw) {
            let words = later_words(asked.alloc, &name.bytes)?;
            Ok(Some(words))
        } else {
            Ok(None)
        },
        _ => Ok(None),
    }
}

fn variable_number(alloc: Global, name: &[u8]) -> Result<FaultWords, NoMemory>
    ensures { IfOk result (λ w. words_of w ≡ words (codes "not constant: " ∷ in_quotes_of name.now ∷ []) (Some number_help)) }
{
    let quoted = in_quotes(alloc, name)?;
    let what = joined(alloc, &[b"not constant: ".as_slice(), &quoted.bytes])?;
    let help = Text::from_str(alloc, "here stands a literal or a constant")?;
    Ok(FaultWords {
        what,
        help: Some(help),
    })
}

// What is told of a name in the place of a number, which is no constant.
fn variable_words(
    alloc: Global,
    constants: &[&[u8]],
    name: Option<&[u8]>,
) -> Result<Option<FaultWords>, NoMemory>
    ensures { IfOk result (λ o. found_seen o ≡ variable_words_of (map (λ n. n.now) constants.now) (text_seen name.entry)) }
{
    match name {
        None => Ok(None),
        Some(name) => if is_among(constants, name) {
            Ok(None)
        } else {
            let words = variable_number(alloc, name)?;
            Ok(Some(words))
        },
    }
}

// What is told of a constant below 1 of this name.
fn below_words(
    alloc: Global,
    values: &[Valued],
    name: Option<&[u8]>,
) -> Result<Option<FaultWords>, NoMemory>
    ensures { IfOk result (λ o. found_seen o ≡ below_named_of (map constant_seen values.now) (text_seen name.entry)) }
{
    match name {
        None => Ok(None),
        Some(name) => match value_of(values, name) {
            None => Ok(None),
            Some(value) => {
                let words = below_value(alloc, name, value)?;
                Ok(Some(words))
            }
        },
    }
}

fn below_value(alloc: Global, name: &[u8], value: i128) -> Result<FaultWords, NoMemory>
    ensures { IfOk result (λ w. Some (words_of w) ≡ below_words_of name.now (Some value)) }
{
    let quoted = in_quotes(alloc, name)?;
    let number = signed_text(alloc, value)?;
    let what = joined(
        alloc,
        &[
            b"constant below 1: ".as_slice(),
            &quoted.bytes,
            b" is ".as_slice(),
            &number.bytes,
        ],
    )?;
    Ok(FaultWords { what, help: None })
}

// What is seen at the place of the fault.
#[tactic(auto, unfolding(crate::specs::AskedView::look_of, crate::specs::ScopeView::around_of))]
fn seen<'a>(
    asked: &Asked<'a>,
    outs: &[Binding<'a>],
    variables: &[Binding<'a>],
    raw: &'a Raw,
) -> Result<Option<FaultWords>, NoMemory>
    ensures { IfOk result (λ o. found_seen o ≡ look_of asked.now (bindings_seen outs.now) (bindings_seen variables.now) (raw_tree raw.now)) }
{
    match asked.fault {
        TypeFault::UnknownName(place) => unknown_at(asked, place, outs, variables, raw),
        TypeFault::DuplicateName(place) => binder_words(
            asked.alloc,
            asked.around.constants,
            binder_in(place, raw),
        ),
        TypeFault::WrongCount(place) => count_at(asked, place, variables, raw),
        TypeFault::Mismatch(place) => mismatch_at(
            asked.alloc,
            place,
            &asked.around,
            variables,
            raw,
        ),
        TypeFault::NotConstant(place) => variable_words(
            asked.alloc,
            asked.around.constants,
            number_in(place, raw),
        ),
        TypeFault::ConstantBelow(place) => below_words(
            asked.alloc,
            asked.values,
            number_in(place, raw),
        ),
        TypeFault::CallsLater(place) => later_at(asked, place, raw),
        TypeFault::NotLinear(place) => bend_at(
            asked.alloc,
            asked.how,
            place,
            &asked.around,
            variables,
            raw,
        ),
        TypeFault::ConstantPast(_)
        | TypeFault::NoMain
        | TypeFault::Weight(_)
        | TypeFault::Depth(_)
        | TypeFault::NoMemory => Ok(None),
    }
}

/// Finds, where nothing is found yet, what is seen at one form.
#[tactic(auto, using(crate::proofs::SeenSteps::kept))]
pub fn look<'a>(
    asked: &Asked<'a>,
    outs: &[Binding<'a>],
    variables: &[Binding<'a>],
    raw: &'a Raw,
    found: &mut Option<FaultWords>,
) -> Result<(), NoMemory>
    ensures { OnOk result (found_seen found.new ≡ or_else (found_seen found.old)
        (look_of asked.now (bindings_seen outs.now) (bindings_seen variables.now) (raw_tree raw.now))) }
{
    match found {
        Some(_) => Ok(()),
        None => {
            *found = seen(asked, outs, variables, raw)?;
            Ok(())
        }
    }
}
