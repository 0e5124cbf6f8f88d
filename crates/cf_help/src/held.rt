//! What the values in a relation hold, and which operations on them are linear.
ghost use Rattle.std.specs.Prelude.{◌≡◌, ◌++◌, ◌∷◌, [], map, IfOk, OnOk, if◌then◌else◌};
ghost use Rattle.std.specs.Str.{bytes_eq};
ghost use Rattle.cf_tree.specs.RawView.{raw_trees};
ghost use Rattle.cf_tree.specs.Params.{names_of};
ghost use Rattle.cf_program.specs.Linear.{most as most_by, most_of as most_in, both_hold as both_held, held_of as held_by, holders as holders_of, all_hold, product_with_inputs as product_with_inputs_of, product as product_of, operation_found, set_found};
ghost use Rattle.cf_help.specs.Faults.{known, in_relation};
ghost use Rattle.cf_help.specs.ScopeView.{bindings_seen};
ghost use Rattle.cf_help.specs.HeldView.{held_seen, holder_seen};
ghost use Rattle.cf_help.specs.BendView.{FoundAnswer};

use crate::bend::{BendFault, Root, bent};
use crate::scope::Binding;
use cf_tree::{BinOp, NoMemory, Param, Place, Raw, Text, without};
use std::alloc::Global;

/// What a value holds: no variable, `card`, `div` or `mod`; of these only inputs; or more.
#[derive(Clone, Copy)]
pub enum Held {
    Constant,
    Known,
    Unknown,
}

/// A variable with what its value holds.
#[derive(Clone, Copy)]
pub struct Holder<'a> {
    pub name: &'a [u8],
    pub held: Held,
}

// What two values hold together.
fn most(a: Held, b: Held) -> Held
    ensures { held_seen result ≡ most_by (held_seen a) (held_seen b) }
{
    match a {
        Held::Constant => b,
        Held::Known => match b {
            Held::Constant | Held::Known => Held::Known,
            Held::Unknown => Held::Unknown,
        },
        Held::Unknown => Held::Unknown,
    }
}

/// What these hold together.
#[tactic(auto, using(crate::proofs::FoundSteps::most_assoc, crate::proofs::FoundSteps::most_constant))]
pub fn most_of(held: &[Held]) -> Held
    ensures { held_seen result ≡ most_in (map held_seen held.now) }
{
    let mut all = Held::Constant;
    for part in held {
        all = most(all, *part);
    }
    all
}

/// The one part that holds this.
pub fn one_part(alloc: Global, held: Held) -> Result<Vec<Held>, NoMemory>
    ensures { IfOk result (λ hs. map held_seen hs.items ≡ held_seen held ∷ []) }
{
    let mut parts = Vec::new(alloc);
    parts.push(held)?;
    Ok(parts)
}

/// What two values hold together, part by part.
pub fn both_hold(alloc: Global, left: &[Held], right: &[Held]) -> Result<Vec<Held>, NoMemory>
    ensures { IfOk result (λ hs. map held_seen hs.items ≡ both_held (map held_seen left.now) (map held_seen right.now)) }
{
    let mut parts = Vec::new(alloc);
    let mut rest = right;
    for a in left {
        match rest.split_first() {
            None => return Ok(parts),
            Some((b, more)) => {
                parts.push(most(*a, *b))?;
                rest = more;
            }
        }
    }
    Ok(parts)
}

// What the variable holds where it has this name, and else this.
fn where_named(holder: &Holder, name: &[u8], held: Held) -> Held
    ensures { held_seen result ≡ if bytes_eq holder.now.name.now name.now then held_seen holder.now.held else held_seen held }
{
    let named = holder.name;
    if named == name { holder.held } else { held }
}

/// What a name holds: that of the last of these variables with this name, and else a constant.
pub fn held_by_name(holders: &[Holder], name: &[u8]) -> Held
    ensures { held_seen result ≡ held_by (map holder_seen holders.now) name.now }
{
    let mut held = Held::Constant;
    for holder in holders {
        held = where_named(holder, name, held);
    }
    held
}

/// These variables, and behind them names for parts that hold these.
pub fn with_names<'a>(
    alloc: Global,
    holders: &[Holder<'a>],
    names: &'a [Text],
    parts: &[Held],
) -> Result<Vec<Holder<'a>>, NoMemory>
    ensures { IfOk result (λ vs. map holder_seen vs.items ≡ map holder_seen holders.now ++ holders_of names.now (map held_seen parts.now)) }
{
    let mut all = Vec::from_slice(alloc, holders)?;
    let mut rest = parts;
    for name in names {
        match rest.split_first() {
            None => return Ok(all),
            Some((held, more)) => {
                all.push(Holder {
                    name: &name.bytes,
                    held: *held,
                })?;
                rest = more;
            }
        }
    }
    Ok(all)
}

/// Parameters for arguments that hold these.
pub fn of_params<'a>(
    alloc: Global,
    params: &'a [Param],
    parts: &[Held],
) -> Result<Vec<Holder<'a>>, NoMemory>
    ensures { IfOk result (λ vs. map holder_seen vs.items ≡ holders_of (names_of params.now) (map held_seen parts.now)) }
{
    let mut all = Vec::new(alloc);
    let mut rest = parts;
    for param in params {
        match rest.split_first() {
            None => return Ok(all),
            Some((held, more)) => {
                all.push(Holder {
                    name: &param.name.bytes,
                    held: *held,
                })?;
                rest = more;
            }
        }
    }
    Ok(all)
}

// Adds variables, of which each holds this.
fn add_all<'a>(all: &mut Vec<Holder<'a>>, params: &'a [Param], held: Held) -> Result<(), NoMemory>
    ensures { OnOk result (map holder_seen all.new.items ≡ map holder_seen all.old.items ++ all_hold (held_seen held) params.now) }
{
    for param in params {
        all.push(Holder {
            name: &param.name.bytes,
            held,
        })?;
    }
    Ok(())
}

// Adds variables, which are known.
fn put_known<'a>(all: &mut Vec<Holder<'a>>, variables: &[Binding<'a>]) -> Result<(), NoMemory>
    ensures { OnOk result (map holder_seen all.new.items ≡ map holder_seen all.old.items ++ known (bindings_seen variables.now)) }
{
    for variable in variables {
        all.push(Holder {
            name: variable.name,
            held: Held::Known,
        })?;
    }
    Ok(())
}

/// These variables, which are known.
pub fn all_known<'a>(alloc: Global, variables: &[Binding<'a>]) -> Result<Vec<Holder<'a>>, NoMemory>
    ensures { IfOk result (λ vs. map holder_seen vs.items ≡ known (bindings_seen variables.now)) }
{
    let mut all = Vec::new(alloc);
    put_known(&mut all, variables)?;
    Ok(all)
}

/// The scope of a choose, its outputs and its hidden ones.
pub fn in_choose<'a>(
    alloc: Global,
    variables: &[Binding<'a>],
    outputs: &'a [Param],
    hidden: &'a [Param],
) -> Result<Vec<Holder<'a>>, NoMemory>
    ensures { IfOk result (λ vs. map holder_seen vs.items ≡ in_relation (bindings_seen variables.now) outputs.now hidden.now) }
{
    let mut all = Vec::new(alloc);
    put_known(&mut all, variables)?;
    add_all(&mut all, outputs, Held::Unknown)?;
    add_all(&mut all, hidden, Held::Unknown)?;
    Ok(all)
}

// A product with inputs at this place, whether or not one may stand there.
fn product_with_inputs(
    alloc: Global,
    inputs: bool,
    place: Place,
    held: Held,
) -> Result<Vec<Held>, BendFault>
    ensures { FoundAnswer result (product_with_inputs_of inputs place (held_seen held)) }
{
    if inputs {
        Ok(one_part(alloc, held)?)
    } else {
        Err(bent(alloc, place, Root::Inputs))
    }
}

// A product at this place.
fn product(
    alloc: Global,
    inputs: bool,
    place: Place,
    a: Held,
    b: Held,
) -> Result<Vec<Held>, BendFault>
    ensures { FoundAnswer result (product_of inputs place (held_seen a) (held_seen b)) }
{
    match a {
        Held::Constant => Ok(one_part(alloc, b)?),
        Held::Known => match b {
            Held::Constant => Ok(one_part(alloc, Held::Known)?),
            Held::Known => product_with_inputs(alloc, inputs, place, Held::Known),
            Held::Unknown => product_with_inputs(alloc, inputs, place, Held::Unknown),
        },
        Held::Unknown => match b {
            Held::Constant => Ok(one_part(alloc, Held::Unknown)?),
            Held::Known => product_with_inputs(alloc, inputs, place, Held::Unknown),
            Held::Unknown => Err(bent(alloc, place, Root::Unknowns)),
        },
    }
}

/// An operation at this place, whose sides hold these.
pub fn operation(
    alloc: Global,
    inputs: bool,
    op: BinOp,
    place: Place,
    left: &[Held],
    right: &[Held],
) -> Result<Vec<Held>, BendFault>
    ensures { FoundAnswer result (operation_found inputs op place (most_in (map held_seen left.now)) (most_in (map held_seen right.now))) }
{
    let a = most_of(left);
    let b = most_of(right);
    match op {
        BinOp::Mul => product(alloc, inputs, place, a, b),
        _ => Ok(one_part(alloc, most(a, b))?),
    }
}

/// A set form at this place, whose elements hold these. Only the one without elements is linear.
pub fn set_form(
    alloc: Global,
    place: Place,
    elements: &[Raw],
    held: Vec<Held>,
) -> Result<Vec<Held>, BendFault>
    ensures { FoundAnswer result (set_found place (raw_trees elements.now) (map held_seen held.items)) }
{
    match elements.split_first() {
        None => Ok(one_part(alloc, Held::Constant)?),
        Some(_) => Err(without(held, bent(alloc, place, Root::SetLiteral))),
    }
}
