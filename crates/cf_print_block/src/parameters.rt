//! Parameters of functions, whose names differ from each other.
ghost use Rattle.std.specs.Prelude.{◌≡◌, IfOk};
ghost use Rattle.cf_print.specs.Names.{is_one_of as one_of};
ghost use Rattle.cf_print_block.specs.Statements.{parameters_of as parameters_for, with_parameter as one_more};

use cf_tree::{Base, NoMemory, Text};
use std::alloc::Global;
use std::marker::Model;

/// Names of parameters and their bases.
#[derive(Drop)]
pub(crate) struct Parameters {
    pub names: Vec<Text>,
    pub bases: Vec<Base>,
}

impl Model for Parameters {
    ghost use Rattle.cf_print_block.specs.Statements.{Parameters as NamesAndBases};

    ghost Value = { NamesAndBases };

    ghost view = { λ p. record {
      names = p.names.items;
      bases = p.bases.items;
    } };
}

fn is_one_of(name: &[u8], names: &[Text]) -> bool
    ensures { result ≡ one_of name.now names.now }
{
    for other in names {
        if name == other.bytes.as_slice() {
            return true;
        }
    }
    false
}

// One more behind them, where its name is none of theirs.
fn with_parameter(
    alloc: Global,
    parameters: Parameters,
    name: &Text,
    base: Base,
) -> Result<Parameters, NoMemory>
    ensures { IfOk result (λ p. p ≡ one_more name.now base parameters) }
{
    let mut parameters = parameters;
    if is_one_of(&name.bytes, &parameters.names) {
        return Ok(parameters);
    }
    parameters.names.push(name.try_copy(alloc)?)?;
    parameters.bases.push(base)?;
    Ok(parameters)
}

/// Parameters for variables of these names and bases, one for all that have one name.
pub(crate) fn parameters_of(
    alloc: Global,
    names: &[Text],
    bases: &[Base],
) -> Result<Parameters, NoMemory>
    ensures { IfOk result (λ p. p ≡ parameters_for names.now bases.now) }
{
    let mut parameters = Parameters {
        names: Vec::new(alloc),
        bases: Vec::new(alloc),
    };
    let mut left = bases;
    for name in names {
        match left.split_first() {
            None => return Ok(parameters),
            Some((base, more)) => {
                parameters = with_parameter(alloc, parameters, name, *base)?;
                left = more;
            }
        }
    }
    Ok(parameters)
}
