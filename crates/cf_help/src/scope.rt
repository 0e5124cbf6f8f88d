//! What is in scope.
ghost use Rattle.std.specs.Prelude.{◌≡◌, ◌++◌, ◌∷◌, [], map, IfOk, OnOk, if◌then◌else◌};
ghost use Rattle.std.specs.Str.{bytes_eq};
ghost use Rattle.cf_tree.specs.declared.base.Base.TheVariants.{Int};
ghost use Rattle.cf_tree.specs.RawView.{part_trees};
ghost use Rattle.cf_help.specs.ScopeView.{binding_seen, bindings_seen};
ghost use Rattle.cf_help.specs.Spots.{bindings, named_bases, matched_value, pattern_variables, base_of_name as base_of_name_in};

use crate::numbers::is_variable;
use cf_tree::{Base, NoMemory, Param, Part, RawDef, Text};
use std::alloc::Global;

/// A variable: its name and its base.
#[derive(Clone, Copy)]
pub struct Binding<'a> {
    pub name: &'a [u8],
    pub base: Base,
}

/// What an item stands among: the names of the constants and the functions before it, in the order
/// of the text; and all functions.
#[derive(Clone, Copy)]
pub struct Around<'a> {
    pub constants: &'a [&'a [u8]],
    pub earlier: &'a [&'a RawDef],
    pub functions: &'a [&'a RawDef],
}

// Adds parameters or outputs.
fn put_params<'a>(all: &mut Vec<Binding<'a>>, params: &'a [Param]) -> Result<(), NoMemory>
    ensures { OnOk result (bindings_seen all.new.items ≡ bindings_seen all.old.items ++ bindings params.now) }
{
    for param in params {
        all.push(Binding {
            name: &param.name.bytes,
            base: param.base,
        })?;
    }
    Ok(())
}

/// These variables, and behind them parameters.
pub fn with_params<'a>(
    alloc: Global,
    variables: &[Binding<'a>],
    params: &'a [Param],
) -> Result<Vec<Binding<'a>>, NoMemory>
    ensures { IfOk result (λ vs. bindings_seen vs.items ≡ bindings_seen variables.now ++ bindings params.now) }
{
    let mut all = Vec::from_slice(alloc, variables)?;
    put_params(&mut all, params)?;
    Ok(all)
}

/// These variables, and behind them outputs and hidden ones.
pub fn with_outputs<'a>(
    alloc: Global,
    variables: &[Binding<'a>],
    outputs: &'a [Param],
    hidden: &'a [Param],
) -> Result<Vec<Binding<'a>>, NoMemory>
    ensures { IfOk result (λ vs. bindings_seen vs.items ≡ bindings_seen variables.now ++ bindings outputs.now ++ bindings hidden.now) }
{
    let mut all = Vec::from_slice(alloc, variables)?;
    put_params(&mut all, outputs)?;
    put_params(&mut all, hidden)?;
    Ok(all)
}

/// These variables, and behind them names for parts of these bases.
pub fn with_names<'a>(
    alloc: Global,
    variables: &[Binding<'a>],
    names: &'a [Text],
    bases: &[Base],
) -> Result<Vec<Binding<'a>>, NoMemory>
    ensures { IfOk result (λ vs. bindings_seen vs.items ≡ bindings_seen variables.now ++ named_bases names.now bases.now) }
{
    let mut all = Vec::from_slice(alloc, variables)?;
    let mut rest = bases;
    for name in names {
        match rest.split_first() {
            None => return Ok(all),
            Some((base, more)) => {
                all.push(Binding {
                    name: &name.bytes,
                    base: *base,
                })?;
                rest = more;
            }
        }
    }
    Ok(all)
}

/// These variables, and behind them the value that is matched.
pub fn with_matched<'a>(
    alloc: Global,
    variables: &[Binding<'a>],
) -> Result<Vec<Binding<'a>>, NoMemory>
    ensures { IfOk result (λ vs. bindings_seen vs.items ≡ bindings_seen variables.now ++ matched_value) }
{
    let mut all = Vec::from_slice(alloc, variables)?;
    all.push(Binding {
        name: b"match".as_slice(),
        base: Base::Int,
    })?;
    Ok(all)
}

// Adds a variable, where it is one.
fn put_if<'a>(all: &mut Vec<Binding<'a>>, wanted: bool, name: &'a [u8]) -> Result<(), NoMemory>
    ensures { OnOk result (bindings_seen all.new.items ≡
        (if wanted then bindings_seen all.old.items ++ record { name = name.now; base = Int } ∷ [] else bindings_seen all.old.items)) }
{
    if wanted {
        all.push(Binding {
            name,
            base: Base::Int,
        })?;
    }
    Ok(())
}

/// These variables, and behind them those of a pattern.
pub fn with_pattern<'a>(
    alloc: Global,
    constants: &[&[u8]],
    variables: &[Binding<'a>],
    parts: &'a [Part],
) -> Result<Vec<Binding<'a>>, NoMemory>
    ensures { IfOk result (λ vs. bindings_seen vs.items
        ≡ bindings_seen variables.now ++ pattern_variables (map (λ n. n.now) constants.now) (part_trees parts.now)) }
{
    let mut all = Vec::from_slice(alloc, variables)?;
    for part in parts {
        put_if(&mut all, is_variable(constants, part), &part.name.bytes)?;
    }
    Ok(all)
}

// The base of the variable where it has this name, and else this one.
fn where_named(variable: &Binding, name: &[u8], base: Base) -> Base
    ensures { result ≡ (if bytes_eq variable.now.name.now name.now then variable.now.base else base) }
{
    let named = variable.name;
    if named == name { variable.base } else { base }
}

/// The base of the last of these variables with this name, and else that of a constant.
pub fn base_of_name(variables: &[Binding], name: &[u8]) -> Base
    ensures { result ≡ base_of_name_in (bindings_seen variables.now) name.now }
{
    let mut base = Base::Int;
    for variable in variables {
        base = where_named(variable, name, base);
    }
    base
}
