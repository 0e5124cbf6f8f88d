//! Lists of columns and rows.
ghost use Rattle.std.specs.Prelude.{◌≡◌, ◌++◌, ◌∷◌, [], if◌then◌else◌, IfOk, OnOk};
ghost use Rattle.cf_linear.specs.Views.{system_of};
ghost use Rattle.cf_bounds.specs.Dropping.{without_inequalities};

use cf_linear::{Row, System};
use cf_tree::NoMemory;
use std::alloc::Global;

// The first columns and then the second.
pub(crate) fn joined_columns(first: Vec<u32>, second: &[u32]) -> Result<Vec<u32>, NoMemory>
    ensures { IfOk result (λ all. all.items ≡ first.items ++ second.now) }
{
    let mut all = first;
    all.extend_from_slice(second)?;
    Ok(all)
}

// The first rows and then the second.
pub(crate) fn joined_rows(first: Vec<Row>, second: Vec<Row>) -> Result<Vec<Row>, NoMemory>
    ensures { IfOk result (λ all. all.items ≡ first.items ++ second.items) }
{
    let mut all = first;
    let mut more = second;
    all.append(&mut more)?;
    Ok(all)
}

// The system without its inequalities, and these.
pub(crate) fn split_system(alloc: Global, system: System) -> (System, Vec<Row>)
    ensures rest { system_of result.0 ≡ without_inequalities (system_of system) }
    ensures next { result.0.next ≡ system.next }
    ensures rows { result.1.items ≡ system.inequalities.items }
{
    let rest = System {
        known: system.known,
        unknown: system.unknown,
        next: system.next,
        equations: system.equations,
        inequalities: Vec::new(alloc),
        needs: system.needs,
    };
    (rest, system.inequalities)
}

// Adds the row to the end, if it is wanted.
pub(crate) fn add_row(out: &mut Vec<Row>, row: Row, wanted: bool) -> Result<(), NoMemory>
    ensures { OnOk result (out.new.items ≡ out.old.items ++ (if wanted then row ∷ [] else [])) }
{
    if wanted {
        out.push(row)?;
    }
    Ok(())
}

// Adds a copy of the row to the end, if it is wanted.
pub(crate) fn add_copy(
    alloc: Global,
    out: &mut Vec<Row>,
    row: &Row,
    wanted: bool,
) -> Result<(), NoMemory>
    ensures { OnOk result (out.new.items ≡ out.old.items ++ (if wanted then row.now ∷ [] else [])) }
{
    if wanted {
        out.push(row.try_copy(alloc)?)?;
    }
    Ok(())
}
