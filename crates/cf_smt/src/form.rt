//! What has a form in SMT-LIB: numbers and truth values alone.
ghost use Rattle.std.specs.Prelude.{◌≡◌};
ghost use Rattle.cf_tree.specs.CodeView.{code_tree, code_trees, item_tree, item_trees, arm_tree, arm_trees};
ghost use Rattle.cf_tree.specs.RelView.{term_tree, rel_tree};
ghost use Rattle.cf_smt.specs.Forms.{arm_has_form as arm_with_form, arms_have_forms as arms_with_forms, has_form as with_form, have_forms as with_forms, item_has_form as item_with_form, items_have_forms as items_with_forms, rel_has_form as rel_with_form, term_has_form as term_with_form};

use cf_tree::{Arm, Code, Item, Rel, Term, code_leaf, term_over_one};

fn term_has_form(term: &Term) -> bool
    ensures { result ≡ term_with_form (term_tree term.now) }
{
    match term {
        Term::Lit(_) | Term::Var(_) => true,
        Term::Card(_) => false,
        term_over_one!(a) => term_has_form(a),
        Term::Add(a, b) | Term::Sub(a, b) | Term::Mul(a, b) => {
            term_has_form(a) && term_has_form(b)
        }
    }
}

/// Whether no set stands in a relation.
pub(crate) fn rel_has_form(rel: &Rel) -> bool
    ensures { result ≡ rel_with_form (rel_tree rel.now) }
{
    match rel {
        Rel::True | Rel::False => true,
        Rel::Compare { left, right, .. } => term_has_form(left) && term_has_form(right),
        Rel::SameSet(_, _) | Rel::OtherSet(_, _) | Rel::Subset(_, _) => false,
        Rel::Divides { of, .. } => term_has_form(of),
        Rel::And(a, b) | Rel::Or(a, b) => rel_has_form(a) && rel_has_form(b),
        Rel::Not(a) => rel_has_form(a),
    }
}

// Whether a code has a form.
#[cycle(forms)]
fn has_form(code: &Code) -> bool
    ensures { result ≡ with_form (code_tree code.now) }
{
    match code {
        code_leaf!() => true,
        Code::SetOf(_)
        | Code::Tuple(_)
        | Code::Union(_)
        | Code::Inter(_)
        | Code::Diff(_, _)
        | Code::Subset(_, _)
        | Code::Card(_)
        | Code::Slice { .. }
        | Code::Fresh { .. }
        | Code::Solve { .. } => false,
        Code::Sum(parts) | Code::Min(parts) | Code::Max(parts) => have_forms(parts),
        Code::Neg(a)
        | Code::Not(a)
        | Code::Div { of: a, .. }
        | Code::Mod { of: a, .. }
        | Code::Divides { of: a, .. } => has_form(a),
        Code::Sub(a, b)
        | Code::Mul(a, b)
        | Code::And(a, b)
        | Code::Or(a, b)
        | Code::Compare {
            left: a,
            right: b,
            ..
        } => has_form(a) && has_form(b),
        Code::If { test, yes, no } => has_form(test) && (has_form(yes) && has_form(no)),
        Code::Let {
            count,
            value,
            body,
            ..
        } => *count == 1 && (has_form(value) && has_form(body)),
    }
}

#[cycle(forms)]
fn have_forms(codes: &[Code]) -> bool
    ensures { result ≡ with_forms (code_trees codes.now) }
{
    for code in codes {
        if !has_form(code) {
            return false;
        }
    }
    true
}

fn item_has_form(item: &Item) -> bool
    ensures { result ≡ item_with_form (item_tree item.now) }
{
    match item {
        Item::Let(code) => has_form(code),
        Item::Need(code) => has_form(code),
    }
}

fn items_have_forms(items: &[Item]) -> bool
    ensures { result ≡ items_with_forms (item_trees items.now) }
{
    for item in items {
        if !item_has_form(item) {
            return false;
        }
    }
    true
}

fn arm_has_form(arm: &Arm) -> bool
    ensures { result ≡ arm_with_form (arm_tree arm.now) }
{
    items_have_forms(&arm.items) && have_forms(&arm.gives)
}

/// Whether all codes of some arms have forms.
pub(crate) fn arms_have_forms(arms: &[Arm]) -> bool
    ensures { result ≡ arms_with_forms (arm_trees arms.now) }
{
    for arm in arms {
        if !arm_has_form(arm) {
            return false;
        }
    }
    true
}
