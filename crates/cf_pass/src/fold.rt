//! The pass that replaces forms of literals by their values.
ghost use Rattle.std.specs.Prelude.{◌≡◌, ◌<◌, ◌≤◌, ◌+◌, ◌^◌, OnOk, true};
ghost use Rattle.cf_tree.specs.CodeView.{code_tree};
ghost use Rattle.cf_tree.specs.RelSize.{capped};
ghost use Rattle.cf_pass.specs.Folding.{fold_form, fold_units};
ghost use Rattle.cf_pass.specs.Improves.{Improves};
ghost use Rattle.cf_pass.specs.Rewritten.{rewritten, units_of};

use crate::folded::folded;
use crate::pass::Pass;
use crate::rule::Rule;
use crate::walk::rewrite_each;
use cf_tree::{Code, NoMemory};
use std::alloc::Global;

/// Replaces, parts first, each form of literals by its value, where no number met in it passes `2^127 - 1`. Such a form
/// is a sum, a difference, a product, a negation, a quotient, a remainder, a least or greatest of numbers, a comparison,
/// a test of divisibility, or an `&&`, `||` or `!`. One replaced form is one unit.
#[derive(Drop)]
pub struct Fold {
    forms: Forms,
    turns: u64,
    whole: bool,
    ghost counted: { turns < 2 ^ 64 },
}

// Replaces a form of literals by its value, and counts it.
#[derive(Drop)]
struct Forms {
    tally: u64,
    ghost counted: { tally < 2 ^ 64 },
}

impl Fold {
    /// The pass with tally 0.
    pub fn new() -> Fold
        ensures tally { result.forms.tally ≡ 0 }
        ensures turns { result.turns ≡ 0 }
        ensures whole { result.whole ≡ true }
    {
        Fold {
            forms: Forms { tally: 0 },
            turns: 0,
            whole: true,
        }
    }
}

impl Pass for Fold {
    ghost use Rattle.std.specs.Prelude.{◌≡◌, ◌≤◌, ◌+◌, codes, OnOk, is_ok};
    ghost use Rattle.cf_tree.specs.CodeView.{code_tree};
    ghost use Rattle.cf_tree.specs.RelSize.{capped};
    ghost use Rattle.cf_pass.specs.Folding.{fold_form, fold_units};
    ghost use Rattle.cf_pass.specs.Improves.{Improves, IsTypedBehind};
    ghost use Rattle.cf_pass.specs.Rewritten.{rewritten, units_of};

    ghost told = { λ p. record {
      name = codes "fold";
      tally = p.forms.tally;
      turns = p.turns;
      makes = λ outside c. rewritten (λ n d. fold_form d) outside c;
      whole = p.whole;
    } };

    fn name(&self) -> &str {
        "fold"
    }

    fn tally(&self) -> u64 {
        self.forms.tally
    }

    fn rewrite(&mut self, alloc: Global, outside: u32, code: &mut Code) -> Result<(), NoMemory>
        requires typed { IsTypedBehind outside (code_tree code.old) }
        ensures code { Improves outside (code_tree code.old) (code_tree code.new) }
        ensures name { codes "fold" ≡ codes "fold" }
        ensures tally { self.old.forms.tally ≤ self.new.forms.tally }
        ensures turns { self.new.turns ≡ capped (self.old.turns + 1) }
        ensures whole { self.new.whole ≡ is_ok result }
        ensures made { OnOk result (code_tree code.new ≡ rewritten (λ n c. fold_form c) outside (code_tree code.old)) }
        ensures units { OnOk result (self.new.forms.tally ≡ capped
            (self.old.forms.tally + units_of (λ n c. fold_form c) (λ n c. fold_units c) outside (code_tree code.old))) }
    {
        self.turns = self.turns.saturating_add(1);
        let done = rewrite_forms(alloc, &mut self.forms, outside, code);
        self.whole = done.is_ok();
        done
    }
}

// Each form of literals of the code is replaced, and counted.
fn rewrite_forms(
    alloc: Global,
    forms: &mut Forms,
    outside: u32,
    code: &mut Code,
) -> Result<(), NoMemory>
    ensures improves { Improves outside (code_tree code.old) (code_tree code.new) }
    ensures tally { forms.old.tally ≤ forms.new.tally }
    ensures code { OnOk result (code_tree code.new ≡ rewritten (λ n c. fold_form c) outside (code_tree code.old)) }
    ensures units { OnOk result (forms.new.tally ≡ capped (forms.old.tally + units_of (λ n c. fold_form c) (λ n c. fold_units c) outside (code_tree code.old))) }
{
    rewrite_each(alloc, forms, outside, code)
}

impl Rule for Forms {
    ghost tally = { λ r. r.tally };

    ghost made = { λ n c. fold_form c };

    ghost units = { λ n c. fold_units c };

    fn apply(&mut self, _alloc: Global, _outside: u32, code: &mut Code) -> Result<(), NoMemory> {
        self.tally = self.tally.saturating_add(put_value(code));
        Ok(())
    }
}

// Puts the value in the place of a form that is folded, and answers how many forms that are: one, or none.
#[tactic(auto, using(crate::proofs::FoldLemmas::fold_some, crate::proofs::FoldLemmas::fold_none, crate::proofs::FoldLemmas::units_some, crate::proofs::FoldLemmas::units_none))]
fn put_value(code: &mut Code) -> u64
    ensures code { code_tree code.new ≡ fold_form (code_tree code.old) }
    ensures folded { result ≡ fold_units (code_tree code.old) }
{
    match folded(code) {
        Some(value) => {
            put(code, value.code());
            1
        }
        None => 0,
    }
}

// for the proof: what stood in the place is dropped by one call
fn put<T: Drop>(place: &mut T, value: T)
    ensures { place.new ≡ value }
{
    *place = value;
}
