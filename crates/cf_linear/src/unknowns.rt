//! The unknowns of a system in a table.
ghost use Rattle.std.specs.Prelude.{◌≡◌, ◌++◌, ◌∷◌, [], ◌==◌, not, filter, if◌then◌else◌, IfOk, OnOk};
ghost use Rattle.cf_linear.specs.Steps.{has_column};
ghost use Rattle.cf_linear.specs.Unknowns.{HaveSame, with_column};

use cf_tree::NoMemory;
use indexmap::IndexSet;
use std::alloc::Global;
use std::marker::Model;

/// Columns, of which each is found at once. Contracts see a list of them.
#[derive(Drop)]
pub struct Unknowns {
    columns: IndexSet<u32>,
}

impl Model for Unknowns {
    ghost use Rattle.std.specs.Prelude.{ℕ, List};

    ghost Value = { List ℕ };

    ghost view = { λ u. u.columns.keys };
}

impl Unknowns {
    /// A table of these columns.
    ///
    /// # Errors
    /// `NoMemory` where memory ran out.
    #[tactic(auto, using(crate::proofs::UnknownLemmas::same_start, crate::proofs::UnknownLemmas::same_next, crate::proofs::UnknownLemmas::same_end))]
    pub fn of(alloc: Global, columns: &[u32]) -> Result<Unknowns, NoMemory>
        ensures { IfOk result (λ u. HaveSame u columns.now) }
    {
        let mut unknowns = Unknowns {
            columns: IndexSet::new(alloc),
        };
        for column in columns {
            unknowns.add(*column)?;
        }
        Ok(unknowns)
    }

    // Adds the column, unless it is there.
    fn add(&mut self, column: u32) -> Result<(), NoMemory>
        ensures { OnOk result (self.new ≡ with_column self.old column) }
    {
        self.columns.insert(column)?;
        Ok(())
    }

    /// Whether the column is one of them.
    pub fn has(&self, column: u32) -> bool
        ensures { result ≡ has_column self.now column }
    {
        self.columns.contains(&column)
    }
}

/// The unknowns but this one.
///
/// # Errors
/// `NoMemory` where memory ran out.
pub fn others(alloc: Global, unknowns: &[u32], unknown: u32) -> Result<Vec<u32>, NoMemory>
    ensures { IfOk result (λ v. v.items ≡ filter (λ w. not (w == unknown)) unknowns.now) }
{
    let mut out = Vec::new(alloc);
    for w in unknowns {
        add_column(&mut out, *w, *w != unknown)?;
    }
    Ok(out)
}

// Adds the column to the end, if it is wanted.
fn add_column(out: &mut Vec<u32>, column: u32, wanted: bool) -> Result<(), NoMemory>
    ensures { OnOk result (out.new.items ≡ out.old.items ++ (if wanted then column ∷ [] else [])) }
{
    if wanted {
        out.push(column)?;
    }
    Ok(())
}
