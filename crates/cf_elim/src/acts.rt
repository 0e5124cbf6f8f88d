//! The steps of an elimination, written down.
ghost use Rattle.std.specs.Prelude.{◌≡◌, ◌≢◌, ◌<◌, ◌∷◌, [], length, pos, OnOk};
ghost use Rattle.cf_linear.specs.Rows.{entry};
ghost use Rattle.cf_linear.specs.Views.{system_of};
ghost use Rattle.cf_bounds.specs.Picking.{pick_of};
ghost use Rattle.cf_equation.specs.Equations.{first_of, first_present, present_of};
ghost use Rattle.cf_elim.specs.Acts.{IsSpelledAct, AreAdded, IsMerge, equation_acts, bound_acts};

use crate::act::Act;
use cf_bounds::Pick;
use cf_equation::Present;
use cf_linear::{System, factors};
use cf_tree::NoMemory;

// Adds a step.
pub(crate) fn put(acts: &mut Vec<Act>, act: Act) -> Result<(), NoMemory>
    requires { IsSpelledAct act }
    ensures { OnOk result (AreAdded acts.old.items (act ∷ []) acts.new.items) }
{
    acts.push(act)?;
    Ok(())
}

// Adds the step with the first equation, whose first unknowns were found: a Merge of two, or its end.
pub(crate) fn put_equation(
    acts: &mut Vec<Act>,
    system: &System,
    found: Present,
) -> Result<(), NoMemory>
    requires some { 0 < length system.now.equations.items }
    requires found { found ≡ present_of (first_present (system_of system.now)) }
    ensures { OnOk result (AreAdded acts.old.items (equation_acts (first_of (system_of system.now)) (first_present (system_of system.now))) acts.new.items) }
{
    match found {
        Present::Nothing => Ok(()),
        Present::One(_) => put(acts, Act::Last(0)),
        Present::Several(x, y) => put(acts, merge(system, x, y)),
    }
}

// The Merge of two unknowns of the first equation.
fn merge(system: &System, x: u32, y: u32) -> Act
    requires some { 0 < length system.now.equations.items }
    requires first { entry (first_of (system_of system.now)) x ≢ pos 0 }
    requires second { entry (first_of (system_of system.now)) y ≢ pos 0 }
    ensures { IsMerge (first_of (system_of system.now)) x y result }
{
    let first = &system.equations[0];
    let factors = factors(first.entry(x), first.entry(y));
    Act::Mix {
        x,
        y,
        a: factors.s,
        b: factors.m,
        c: factors.t,
        d: factors.n,
    }
}

// Adds the search of the picked unknown, where its product is above 1, and its drop.
pub(crate) fn put_bound(acts: &mut Vec<Act>, pick: &Pick) -> Result<(), NoMemory>
    ensures { OnOk result (AreAdded acts.old.items (bound_acts (pick_of pick.now)) acts.new.items) }
{
    if pick.product > 1 {
        put_search(acts, pick.unknown, pick.lower)?;
    }
    put_drop(acts, pick.unknown)
}

fn put_search(acts: &mut Vec<Act>, column: u32, lower: bool) -> Result<(), NoMemory>
    ensures { OnOk result (AreAdded acts.old.items (Act.Search column lower ∷ []) acts.new.items) }
{
    put(acts, Act::Search { column, lower })
}

fn put_drop(acts: &mut Vec<Act>, column: u32) -> Result<(), NoMemory>
    ensures { OnOk result (AreAdded acts.old.items (Act.Drop column ∷ []) acts.new.items) }
{
    put(acts, Act::Drop(column))
}
