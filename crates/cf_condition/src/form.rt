//! What target code stands for, as a form of a relation.
ghost use Rattle.std.specs.Prelude.{◌≡◌, ◌<◌, map, pos, true, false, length, IfOk};
ghost use Rattle.cf_tree.specs.RelTree.{term_lit, rel_true, rel_false};
ghost use Rattle.cf_tree.specs.RelView.{set_tree, term_tree, rel_tree};
ghost use Rattle.cf_condition.specs.Forms.{number_form, set_form, truth_form, negated as negated_form, counted as counted_form, divided as divided_form, left_by as left_form, multiple as multiple_form, if_set as set_alone, opposite as opposite_form, form_at as the_form_at, form_for as the_form_for, scope_forms as the_scope_forms, truth_rel, is_written as is_written_form};
ghost use Rattle.cf_condition.specs.FormView.{form_tree};

use cf_tree::{Base, NoMemory, Rel, SetTerm, Term};
use std::alloc::Global;

/// A number form, a set form or a relation over the variables of a scope; or nothing that the language can write.
#[derive(Drop)]
pub(crate) enum Form {
    Number(Box<Term>),
    Set(Box<SetTerm>),
    Truth(Box<Rel>),
    Unwritten,
}

/// A number form.
pub(crate) fn number(alloc: Global, term: Term) -> Result<Form, NoMemory>
    ensures { IfOk result (λ f. form_tree f ≡ number_form (term_tree term)) }
{
    Ok(Form::Number(Box::new(alloc, term)?))
}

/// A set form.
pub(crate) fn set(alloc: Global, set: SetTerm) -> Result<Form, NoMemory>
    ensures { IfOk result (λ f. form_tree f ≡ set_form (set_tree set)) }
{
    Ok(Form::Set(Box::new(alloc, set)?))
}

/// A relation.
pub(crate) fn truth(alloc: Global, rel: Rel) -> Result<Form, NoMemory>
    ensures { IfOk result (λ f. form_tree f ≡ truth_form (rel_tree rel)) }
{
    Ok(Form::Truth(Box::new(alloc, rel)?))
}

/// A truth value.
pub(crate) fn decided(alloc: Global, holds: bool) -> Result<Form, NoMemory>
    ensures { IfOk result (λ f. form_tree f ≡ truth_form (truth_rel holds)) }
{
    truth(alloc, if holds { Rel::True } else { Rel::False })
}

impl Form {
    /// An equal form.
    pub(crate) fn try_copy(&self, alloc: Global) -> Result<Form, NoMemory>
        ensures { IfOk result (λ new. form_tree new ≡ form_tree self.now) }
    {
        match self {
            Form::Number(term) => number(alloc, term.try_copy(alloc)?),
            Form::Set(of) => set(alloc, of.try_copy(alloc)?),
            Form::Truth(rel) => truth(alloc, rel.try_copy(alloc)?),
            Form::Unwritten => Ok(Form::Unwritten),
        }
    }

    /// Whether the language can write the form.
    pub(crate) fn is_written(&self) -> bool
        ensures { result ≡ is_written_form (form_tree self.now) }
    {
        match self {
            Form::Unwritten => false,
            _ => true,
        }
    }

    /// The number with its sign turned.
    pub(crate) fn negated(self, alloc: Global) -> Result<Form, NoMemory>
        ensures { IfOk result (λ f. form_tree f ≡ negated_form (form_tree self)) }
    {
        match self {
            Form::Number(of) => number(alloc, Term::Neg(of)),
            _ => Ok(Form::Unwritten),
        }
    }

    /// How many elements the set has.
    pub(crate) fn counted(self, alloc: Global) -> Result<Form, NoMemory>
        ensures { IfOk result (λ f. form_tree f ≡ counted_form (form_tree self)) }
    {
        match self {
            Form::Set(of) => number(alloc, Term::Card(of)),
            _ => Ok(Form::Unwritten),
        }
    }

    /// The form, where it is a set.
    pub(crate) fn if_set(self) -> Form
        ensures { form_tree result ≡ set_alone (form_tree self) }
    {
        match self {
            Form::Set(of) => Form::Set(of),
            _ => Form::Unwritten,
        }
    }

    /// The number divided by k and rounded down.
    pub(crate) fn divided(self, alloc: Global, k: i128) -> Result<Form, NoMemory>
        ensures { IfOk result (λ f. form_tree f ≡ divided_form (form_tree self) k) }
    {
        match self {
            Form::Number(of) if k >= 1 => number(alloc, Term::Div(of, k)),
            _ => Ok(Form::Unwritten),
        }
    }

    /// What division of the number by k leaves.
    pub(crate) fn left_by(self, alloc: Global, k: i128) -> Result<Form, NoMemory>
        ensures { IfOk result (λ f. form_tree f ≡ left_form (form_tree self) k) }
    {
        match self {
            Form::Number(of) if k >= 1 => number(alloc, Term::Mod(of, k)),
            _ => Ok(Form::Unwritten),
        }
    }

    /// Whether k divides the number.
    pub(crate) fn multiple(self, alloc: Global, k: i128) -> Result<Form, NoMemory>
        ensures { IfOk result (λ f. form_tree f ≡ multiple_form (form_tree self) k) }
    {
        match self {
            Form::Number(of) if k >= 1 => truth(alloc, Rel::Divides { k, of }),
            _ => Ok(Form::Unwritten),
        }
    }

    /// Whether the relation does not hold.
    pub(crate) fn opposite(self, alloc: Global) -> Result<Form, NoMemory>
        ensures { IfOk result (λ f. form_tree f ≡ opposite_form (form_tree self)) }
    {
        match self {
            Form::Truth(of) => truth(alloc, Rel::Not(of)),
            _ => Ok(Form::Unwritten),
        }
    }
}

/// What the variable with a level stands for, where the variables stand for these forms.
pub(crate) fn form_at(alloc: Global, forms: &[Form], level: u32) -> Result<Form, NoMemory>
    ensures { IfOk result (λ f. form_tree f ≡ the_form_at (map form_tree forms.now) level) }
{
    match forms.get(level as usize) {
        Some(form) => form.try_copy(alloc),
        None => Ok(Form::Unwritten),
    }
}

// The variable of the scope with a level, which has this base.
fn form_for(alloc: Global, base: Base, level: u32) -> Result<Form, NoMemory>
    ensures { IfOk result (λ f. form_tree f ≡ the_form_for base level) }
{
    match base {
        Base::Int => number(alloc, Term::Var(level)),
        Base::Set => set(alloc, SetTerm::Var(level)),
        Base::Bool => Ok(Form::Unwritten),
    }
}

/// The variables of a scope, by level.
pub(crate) fn scope_forms(alloc: Global, scope: &[Base]) -> Result<Vec<Form>, NoMemory>
    requires { length scope.now < 4294967296 }
    ensures { IfOk result (λ forms. map form_tree forms.items ≡ the_scope_forms 0 scope.now) }
{
    let mut forms = Vec::new(alloc);
    for i in 0..scope.len() {
        forms.push(form_for(alloc, scope[i], i as u32)?)?;
    }
    Ok(forms)
}
