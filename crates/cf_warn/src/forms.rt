//! The number forms of known columns.
ghost use Rattle.std.specs.Prelude.{◌≡◌, ◌<◌, IfOk, OnOk, map};
ghost use Rattle.cf_tree.specs.Meaning.{count_below, tuple_at};
ghost use Rattle.cf_tree.specs.RelView.{term_tree};
ghost use Rattle.cf_linear.specs.Views.{bound_of};
ghost use Rattle.cf_warn.specs.Missing.{with_form, search_forms};
ghost use Rattle.cf_warn.specs.Writing.{bounds_in, listed, made_form, first_of, forms_of};

use crate::tuples::tuples_below;
use cf_linear::Search;
use cf_tree::{NoMemory, Term, to_u32};
use indexmap::IndexMap;
use std::alloc::Global;

// What a column that a case makes is in the question: the value of its search, or the variable of its let.
#[derive(Clone, Copy, Debug, PartialEq, Eq)]
pub(crate) enum Made {
    Search(u32),
    Let(u32),
}

// The forms of the known columns of a choose by column, and what the columns are that its case makes.
#[derive(Drop)]
pub(crate) struct Forms {
    pub(crate) first: Vec<Term>,
    pub(crate) made: IndexMap<u32, Made>,
}

impl Forms {
    // The forms of the columns of a choose.
    pub(crate) fn new(alloc: Global, first: Vec<Term>) -> Forms
        ensures first { result.first ≡ first }
    {
        Forms {
            first,
            made: IndexMap::new(alloc),
        }
    }

    // The form of a column.
    pub(crate) fn of(&self, alloc: Global, column: u32) -> Result<Term, NoMemory>
        ensures { IfOk result (λ t. term_tree t ≡ forms_of self.now column) }
    {
        match self.made.get(&column) {
            Some(made) => Ok(form(*made)),
            None => first_form(alloc, &self.first, column),
        }
    }

    // The column is this, and other columns keep their forms.
    pub(crate) fn name(&mut self, column: u32, made: Made) -> Result<(), NoMemory>
        ensures forms { OnOk result (forms_of self.new ≡ with_form (forms_of self.old) column (made_form made)) }
        ensures first { OnOk result (self.new.first ≡ self.old.first) }
    {
        self.made.insert(column, made)?;
        Ok(())
    }

    // The columns of the choose, and the search columns with the values of the tuple of that number.
    pub(crate) fn search(&mut self, bounds: &[Search], number: u64) -> Result<(), NoMemory>
        requires { number < count_below (bounds_in bounds.now) }
        ensures forms { OnOk result (forms_of self.new ≡ search_forms (first_of self.old) (map bound_of bounds.now) (tuple_at (bounds_in bounds.now) number)) }
        ensures first { OnOk result (self.new.first ≡ self.old.first) }
    {
        self.made.clear();
        let mut rest = bounds;
        let mut left = number;
        while let Some((search, more)) = rest.split_first() {
            let below = tuples_below(more)?;
            self.name(
                search.column,
                Made::Search(to_u32((left / below) as usize)?),
            )?;
            left = left % below;
            rest = more;
        }
        Ok(())
    }
}

// The form of a column that a case makes.
fn form(made: Made) -> Term
    ensures { term_tree result ≡ made_form made }
{
    match made {
        Made::Search(k) => Term::Lit(i128::from(k)),
        Made::Let(level) => Term::Var(level),
    }
}

// The form at the column, 0 where there is none.
fn first_form(alloc: Global, first: &[Term], column: u32) -> Result<Term, NoMemory>
    ensures { IfOk result (λ t. term_tree t ≡ listed (map term_tree first.now) column) }
{
    match first.get(column as usize) {
        Some(term) => term.try_copy(alloc),
        None => Ok(Term::Lit(0)),
    }
}
