//! The names of the results of a source.
ghost use Rattle.std.specs.Prelude.{◌≡◌, ◌++◌, codes, map, IfOk};
ghost use Rattle.std.specs.Str.{bytes_eq};
ghost use Rattle.cf_tree.specs.DefView.{program_tree, raw_item_tree};
ghost use Rattle.cf_tree.specs.Params.{names_of};
ghost use Rattle.cf_tree.specs.RawView.{raw_tree};
ghost use Rattle.cf_answer.specs.ResultNames.{is_main as the_is_main, item_names as the_item_names, output_names as the_output_names, result_names as the_result_names};

use cf_tree::{NoMemory, Param, Program, Raw, RawItem, RawNode, Text};
use std::alloc::Global;

fn param_names(alloc: Global, params: &[Param]) -> Result<Vec<Text>, NoMemory>
    ensures { IfOk result (λ names. names.items ≡ names_of params.now) }
{
    let mut names = Vec::new(alloc);
    for param in params {
        names.push(param.name.try_copy(alloc)?)?;
    }
    Ok(names)
}

// The names of the outputs of an expression that is one choose; none of any other.
fn output_names(alloc: Global, body: &Raw) -> Result<Vec<Text>, NoMemory>
    ensures { IfOk result (λ names. names.items ≡ the_output_names (raw_tree body.now)) }
{
    match &body.node {
        RawNode::Choose { outputs, .. } => param_names(alloc, outputs),
        _ => Ok(Vec::new(alloc)),
    }
}

fn is_main(item: &RawItem) -> bool
    ensures { result ≡ the_is_main (raw_item_tree item.now) }
{
    match item {
        RawItem::Const(_) => false,
        RawItem::Def(def) => def.name.bytes.as_slice() == b"main".as_slice(),
    }
}

fn item_names(alloc: Global, item: &RawItem) -> Result<Vec<Text>, NoMemory>
    ensures { IfOk result (λ names. names.items ≡ the_item_names (raw_item_tree item.now)) }
{
    match item {
        RawItem::Const(_) => Ok(Vec::new(alloc)),
        RawItem::Def(def) => output_names(alloc, &def.body),
    }
}

fn names_among(alloc: Global, items: &[RawItem]) -> Result<Vec<Text>, NoMemory>
    ensures { IfOk result (λ names. names.items ≡ the_result_names (map raw_item_tree items.now)) }
{
    let mut rest = items;
    'items: while let Some((item, more)) = rest.split_first() {
        if is_main(item) {
            return item_names(alloc, item);
        }
        rest = more;
    }
    Ok(Vec::new(alloc))
}

/// The names of the outputs of main, where its body is one choose; none else.
pub fn result_names(alloc: Global, program: &Program) -> Result<Vec<Text>, NoMemory>
    ensures { IfOk result (λ names. names.items ≡ the_result_names (program_tree program.now)) }
{
    names_among(alloc, &program.items)
}
