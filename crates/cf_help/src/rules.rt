//! Broken rules.
ghost use Rattle.std.specs.Prelude.{◌≡◌, [], map, Some, None, IfOk, OnOk, if◌then◌else◌};
ghost use Rattle.cf_tree.specs.DefView.{item_def, program_tree, raw_def_tree, raw_item_tree};
ghost use Rattle.cf_tree.specs.RawView.{raw_tree};
ghost use Rattle.cf_program.specs.Checked.{functions_of};
ghost use Rattle.cf_help.specs.AskedView.{found_seen};
ghost use Rattle.cf_help.specs.Faults.{values_for as values_for_of, rule_words as rule_words_of, seen_of_item, seen_before as seen_before_of, seen_behind as seen_behind_of, or_plain as or_plain_of, plain_words as plain_words_of, duplicate_words as duplicate_words_of, duplicate_item as duplicate_item_of};
ghost use Rattle.cf_help.specs.Rows.{or_else};
ghost use Rattle.cf_help.specs.ScopeView.{around_by, around_of, bindings_seen, defs_seen};
ghost use Rattle.cf_help.specs.Spots.{first_item, variables_of_item, expression_of as expression_of_item, constants_behind, earlier_behind};
ghost use Rattle.cf_help.specs.ValuedView.{constant_seen};
ghost use Rattle.cf_help.specs.WordsView.{words_of};

use crate::clash::item_mismatch;
use crate::lines::same_place;
use crate::looks::{Asked, binder_words, duplicate_words};
use crate::places::param_at;
use crate::plain::plain_words;
use crate::scope::{Around, Binding, with_params};
use crate::seen::first_in;
use crate::value::constants_in;
use crate::valued::Valued;
use crate::words::FaultWords;
use cf_program::{Linearity, TypeFault};
use cf_tree::{NoMemory, Place, Program, Raw, RawDef, RawItem};
use std::alloc::Global;

// The functions of a program, in the order of its text.
fn functions<'a>(alloc: Global, items: &'a [RawItem]) -> Result<Vec<&'a RawDef>, NoMemory>
    ensures { IfOk result (λ ds. defs_seen ds.items ≡ functions_of (map raw_item_tree items.now)) }
{
    let mut all = Vec::new(alloc);
    for item in items {
        match item {
            RawItem::Const(_) => (),
            RawItem::Def(def) => all.push(def)?,
        }
    }
    Ok(all)
}

// The values of constants, where a fault asks for them.
fn values_for<'a>(
    alloc: Global,
    fault: TypeFault,
    items: &'a [RawItem],
) -> Result<Vec<Valued<'a>>, NoMemory>
    ensures { IfOk result (λ vs. map constant_seen vs.items ≡ values_for_of fault (map raw_item_tree items.now)) }
{
    match fault {
        TypeFault::ConstantBelow(_) => constants_in(alloc, items),
        _ => Ok(Vec::new(alloc)),
    }
}

// The parameters of an item.
fn variables_of<'a>(alloc: Global, item: &'a RawItem) -> Result<Vec<Binding<'a>>, NoMemory>
    ensures { IfOk result (λ vs. bindings_seen vs.items ≡ variables_of_item (raw_item_tree item.now)) }
{
    match item {
        RawItem::Const(_) => Ok(Vec::new(alloc)),
        RawItem::Def(def) => with_params(alloc, &[], &def.params),
    }
}

// The expression of an item.
fn expression_of(item: &RawItem) -> &Raw
    ensures { raw_tree result.now ≡ expression_of_item (raw_item_tree item.now) }
{
    match item {
        RawItem::Const(constant) => &constant.value,
        RawItem::Def(def) => &def.body,
    }
}

// Words, where they stand at the place.
fn words_there(
    alloc: Global,
    there: bool,
    name: &[u8],
    is_constant: bool,
) -> Result<Option<FaultWords>, NoMemory>
    ensures { IfOk result (λ o. found_seen o ≡ (if there then Some (duplicate_words_of name.now is_constant) else None)) }
{
    if there {
        let words = duplicate_words(alloc, name, is_constant)?;
        Ok(Some(words))
    } else {
        Ok(None)
    }
}

// What is told of a function whose name, or that of a parameter, is bound twice.
#[tactic(auto, unfolding(crate::specs::ScopeView::around_of))]
fn duplicate_def(
    alloc: Global,
    place: Place,
    around: &Around,
    def: &RawDef,
) -> Result<Option<FaultWords>, NoMemory>
    ensures { IfOk result (λ o. found_seen o ≡ duplicate_item_of place (around_of around.now) (item_def (raw_def_tree def.now))) }
{
    match words_there(alloc, same_place(place, def.place), &def.name.bytes, false)? {
        Some(words) => Ok(Some(words)),
        None => binder_words(alloc, around.constants, param_at(place, &def.params)),
    }
}

// What is told of an item whose name, or that of a parameter, is bound twice.
fn duplicate_item(
    alloc: Global,
    place: Place,
    around: &Around,
    item: &RawItem,
) -> Result<Option<FaultWords>, NoMemory>
    ensures { IfOk result (λ o. found_seen o ≡ duplicate_item_of place (around_of around.now) (raw_item_tree item.now)) }
{
    match item {
        RawItem::Const(constant) => words_there(
            alloc,
            same_place(place, constant.place),
            &constant.name.bytes,
            true,
        ),
        RawItem::Def(def) => duplicate_def(alloc, place, around, def),
    }
}

// What is seen before the expression of an item.
#[tactic(auto, unfolding(crate::specs::Faults::seen_before))]
fn seen_before(asked: &Asked, item: &RawItem) -> Result<Option<FaultWords>, NoMemory>
    ensures { IfOk result (λ o. found_seen o ≡ seen_before_of asked.now.fault (around_of asked.now.around) (raw_item_tree item.now)) }
{
    match asked.fault {
        TypeFault::DuplicateName(place) => duplicate_item(asked.alloc, place, &asked.around, item),
        _ => Ok(None),
    }
}

// What is seen behind the expression of an item, over its parameters.
#[tactic(auto, unfolding(crate::specs::Faults::seen_behind))]
fn seen_behind<'a>(
    asked: &Asked<'a>,
    variables: &[Binding<'a>],
    item: &'a RawItem,
) -> Result<Option<FaultWords>, NoMemory>
    ensures { bindings_seen variables.now ≡ variables_of_item (raw_item_tree item.now) →
        IfOk result (λ o. found_seen o ≡ seen_behind_of asked.now.fault (around_of asked.now.around) (raw_item_tree item.now)) }
{
    match asked.fault {
        TypeFault::Mismatch(place) => {
            item_mismatch(asked.alloc, place, &asked.around, variables, item)
        }
        _ => Ok(None),
    }
}

// What is found, or else what is seen behind the expression.
fn or_behind<'a>(
    asked: &Asked<'a>,
    variables: &[Binding<'a>],
    item: &'a RawItem,
    found: Option<FaultWords>,
) -> Result<Option<FaultWords>, NoMemory>
    ensures { bindings_seen variables.now ≡ variables_of_item (raw_item_tree item.now) → IfOk result (λ o. found_seen o
        ≡ or_else (found_seen found) (seen_behind_of asked.now.fault (around_of asked.now.around) (raw_item_tree item.now))) }
{
    match found {
        Some(words) => Ok(Some(words)),
        None => seen_behind(asked, variables, item),
    }
}

// What is seen first of an item.
#[tactic(auto, using(crate::proofs::SeenSteps::two), unfolding(crate::specs::AskedView::look_of, crate::specs::Faults::seen_of_item))]
fn see_item<'a>(asked: &Asked<'a>, item: &'a RawItem) -> Result<Option<FaultWords>, NoMemory>
    ensures { IfOk result (λ o. found_seen o ≡ seen_of_item asked.now.how (map constant_seen asked.now.values.now) asked.now.fault
        (around_of asked.now.around) (raw_item_tree item.now)) }
{
    let mut found = seen_before(asked, item)?;
    let variables = variables_of(asked.alloc, item)?;
    first_in(asked, &[], &variables, expression_of(item), &mut found)?;
    or_behind(asked, &variables, item, found)
}

// Adds the name of a constant, or a function.
fn add_item<'a>(
    constants: &mut Vec<&'a [u8]>,
    earlier: &mut Vec<&'a RawDef>,
    item: &'a RawItem,
) -> Result<(), NoMemory>
    ensures constants { OnOk result (map (λ n. n.now) constants.new.items ≡ constants_behind (map (λ n. n.now) constants.old.items) (raw_item_tree item.now)) }
    ensures earlier { OnOk result (defs_seen earlier.new.items ≡ earlier_behind (defs_seen earlier.old.items) (raw_item_tree item.now)) }
{
    match item {
        RawItem::Const(constant) => constants.push(&constant.name.bytes)?,
        RawItem::Def(def) => earlier.push(def)?,
    }
    Ok(())
}

// What is seen of an item that stands among these.
#[tactic(auto, unfolding(crate::specs::ScopeView::around_of))]
fn see_among<'x>(
    alloc: Global,
    how: Linearity,
    fault: TypeFault,
    values: &'x [Valued<'x>],
    constants: &'x [&'x [u8]],
    earlier: &'x [&'x RawDef],
    functions: &'x [&'x RawDef],
    item: &'x RawItem,
) -> Result<Option<FaultWords>, NoMemory>
    ensures { IfOk result (λ o. found_seen o ≡ seen_of_item how (map constant_seen values.now) fault
        (around_by constants.now earlier.now (defs_seen functions.now)) (raw_item_tree item.now)) }
{
    let asked = Asked {
        alloc,
        how,
        values,
        fault,
        around: Around {
            constants,
            earlier,
            functions,
        },
    };
    see_item(&asked, item)
}

// What is seen first of these items.
fn see_items<'a>(
    alloc: Global,
    how: Linearity,
    fault: TypeFault,
    values: &[Valued<'a>],
    functions: &[&'a RawDef],
    items: &'a [RawItem],
) -> Result<Option<FaultWords>, NoMemory>
    ensures { IfOk result (λ o. found_seen o ≡ first_item (seen_of_item how (map constant_seen values.now) fault) (around_by [] [] (defs_seen functions.now))
        (map raw_item_tree items.now)) }
{
    let mut constants = Vec::new(alloc);
    let mut earlier = Vec::new(alloc);
    for item in items {
        match see_among(
            alloc,
            how,
            fault,
            &*values,
            &constants,
            &earlier,
            &*functions,
            &*item,
        )? {
            Some(words) => return Ok(Some(words)),
            None => {}
        }
        add_item(&mut constants, &mut earlier, item)?;
    }
    Ok(None)
}

// What is found, or what is told where nothing is.
fn or_plain(
    alloc: Global,
    found: Option<FaultWords>,
    fault: TypeFault,
) -> Result<FaultWords, NoMemory>
    ensures { IfOk result (λ w. words_of w ≡ or_plain_of (found_seen found) (plain_words_of fault)) }
{
    match found {
        Some(words) => Ok(words),
        None => plain_words(alloc, fault),
    }
}

/// What is told of the first rule that a program breaks, where its relations are to be linear so.
///
/// # Errors
/// Want of memory alone.
pub fn rule_words(
    alloc: Global,
    how: Linearity,
    items: &Program,
    fault: TypeFault,
) -> Result<FaultWords, NoMemory>
    ensures { IfOk result (λ w. words_of w ≡ rule_words_of how (program_tree items.now) fault) }
{
    let all = functions(alloc, &items.items)?;
    let values = values_for(alloc, fault, &items.items)?;
    let found = see_items(alloc, how, fault, &values, &all, &items.items)?;
    or_plain(alloc, found, fault)
}
