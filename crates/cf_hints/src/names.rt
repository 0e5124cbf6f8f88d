//! The names of a source.
use crate::met::{Met, meet, names_of};
use cf_print_block::Outputs;
use cf_print_program::Hints;
use cf_tree::{NoMemory, Program, RawDef, RawItem, RawNode, Text};
use std::alloc::Global;

/// The names of main's parameters, those of the outputs of each choose by its number, and those of main's results where
/// its body is one choose.
///
/// # Errors
/// `NoMemory` where memory ran out.
pub fn hints(alloc: Global, program: &Program) -> Result<Hints, NoMemory> {
    let outputs = outputs_in(alloc, &program.items)?;
    match main_in(&program.items) {
        Some(main) => Ok(Hints {
            params: names_of(alloc, &main.params)?,
            outputs,
            results: results_of(alloc, main)?,
        }),
        None => Ok(Hints {
            params: Vec::new(alloc),
            outputs,
            results: Vec::new(alloc),
        }),
    }
}

fn outputs_in(alloc: Global, items: &[RawItem]) -> Result<Vec<Outputs>, NoMemory> {
    let mut constants = Vec::new(alloc);
    let mut met = Met {
        numbers: 0,
        outputs: Vec::new(alloc),
    };
    for item in items {
        meet_item(alloc, &mut constants, item, &mut met)?;
    }
    Ok(met.outputs)
}

// Adds what a declaration has: the name of a constant, or the chooses of a function.
fn meet_item<'a>(
    alloc: Global,
    constants: &mut Vec<&'a [u8]>,
    item: &'a RawItem,
    met: &mut Met,
) -> Result<(), NoMemory> {
    match item {
        RawItem::Const(constant) => {
            constants.push(&constant.name.bytes)?;
            Ok(())
        }
        RawItem::Def(def) => meet(alloc, constants, &def.body, met),
    }
}

fn main_in(items: &[RawItem]) -> Option<&RawDef> {
    for item in items {
        match main_of(item) {
            Some(main) => return Some(main),
            None => {}
        }
    }
    None
}

fn main_of(item: &RawItem) -> Option<&RawDef> {
    match item {
        RawItem::Const(_) => None,
        RawItem::Def(def) => if def.name.bytes.as_slice() == b"main".as_slice() {
            Some(def)
        } else {
            None
        },
    }
}

fn results_of(alloc: Global, main: &RawDef) -> Result<Vec<Text>, NoMemory> {
    match &main.body.node {
        RawNode::Choose { outputs, .. } => names_of(alloc, outputs),
        _ => Ok(Vec::new(alloc)),
    }
}
