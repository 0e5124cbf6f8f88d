//! The forms of expressions, made of their parts.
ghost use Rattle.std.specs.Prelude.{◌≡◌, ◌+◌, ◌++◌, ◌∷◌, [], ℕ, map, true, false, Some, Ok, IfOk, IfErr, OnOk};
ghost use Rattle.cf_tree.specs.ExprView.{expr_tree, match_arm_tree};
ghost use Rattle.cf_tree.specs.RelView.{rel_tree};
ghost use Rattle.cf_tree.specs.DefView.{raw_def_tree};
ghost use Rattle.cf_tree.specs.ExprTree.{exprs_of, match_arm, match_arms_of, expr_call, expr_choose, expr_match, expr_lit, expr_truth};
ghost use Rattle.cf_tree.specs.RelTree.{term_lit};
ghost use Rattle.cf_tree.specs.declared.base.Base.TheVariants.{Int as int, Bool as truth_base};
ghost use Rattle.cf_tree.specs.RawView.{raw_tree, number_tree};
ghost use Rattle.cf_type.specs.FormParts.{over_one as over_one_of, over_number as over_number_of, over_row as over_row_of, tree_over as tree_over_of, tree_with as tree_with_of, extreme_of};
ghost use Rattle.cf_type.specs.FormView.{form_of, forms_of, arms_of, given_form_of, aim_form_of, pattern_of, summand_of, reading_of, callee_seen, context_of};
ghost use Rattle.cf_program.specs.CheckAnswers.{CheckAnswer};
ghost use Rattle.cf_program.specs.Then.{◌>>=◌ as chained};
ghost use Rattle.cf_tree.specs.Params.{bases_of};
ghost use Rattle.cf_program.specs.Reading.{term as a_term, truth_reading, not_linear_at as not_linear_at_of};
ghost use Rattle.cf_program.specs.Walk.{where_no_fault, is_one, form as form_is, no_forms as no_forms_of, with_form as with_form_of, no_arms as no_arms_of, name_form, binary_form, set_reading as set_reading_of, set_form, extreme_form, chain_form, tuple_form, call_form, if_form, let_form, choose_form, choose_part, choose_where_form, match_form, linear as linear_of, arm_number, after_arm, with_arm, divisor_in};
ghost use Rattle.cf_tree.specs.Typing.{one as one_base};

use crate::context::Context;
use crate::form::{AimForm, Arms, Form, Forms, GivenForm, Pattern, Reading, Summand};
use crate::memory::{in_box, push};
use crate::number::divisor;
use crate::reading::Operation;
use crate::scope::Scope;
use crate::{bases, reading};
use cf_program::{TypeFault, Variable};
use cf_tree::{
    Base, BinOp, Expr, MatchArm, NoMemory, Number, Order, Param, Place, Raw, RawDef, RawNode, Rel,
    Sense, SetTerm, Term, Text, add_u32, same_bases, to_u32, without,
};
use std::alloc::Global;

/// Where a `choose` or a `match` stands, and its number.
#[derive(Clone, Copy)]
pub struct Site {
    pub place: Place,
    pub number: u32,
}

// The expression of these bases, this tree and this reading.
fn boxed(
    alloc: Global,
    bases: Vec<Base>,
    tree: Expr,
    reading: Reading,
    next: u32,
) -> Result<Form, TypeFault>
    ensures { CheckAnswer form_of result (form_is bases.items (expr_tree tree) (reading_of reading) next) }
{
    match in_box(alloc, tree) {
        Ok(tree) => Ok(Form {
            bases,
            tree,
            reading,
            next,
        }),
        Err(_) => Err(without(bases, without(reading, TypeFault::NoMemory))),
    }
}

// The expression of this tree and reading, which has one base.
fn made(
    alloc: Global,
    base: Base,
    tree: Expr,
    reading: Reading,
    next: u32,
) -> Result<Form, TypeFault>
    ensures { CheckAnswer form_of result (form_is (one_base base) (expr_tree tree) (reading_of reading) next) }
{
    match bases::one(alloc, base) {
        Ok(bases) => boxed(alloc, bases, tree, reading, next),
        Err(_) => Err(without(tree, without(reading, TypeFault::NoMemory))),
    }
}

/// A literal.
pub fn literal(alloc: Global, k: i128, next: u32) -> Result<Form, TypeFault>
    ensures { CheckAnswer form_of result (form_is (one_base int) (expr_lit k) (a_term (term_lit k)) next) }
{
    let reading = Reading::Term(in_box(alloc, Term::Lit(k))?);
    made(alloc, Base::Int, Expr::Lit(k), reading, next)
}

/// `true` or `false`.
pub fn truth(alloc: Global, t: bool, next: u32) -> Result<Form, TypeFault>
    ensures { CheckAnswer form_of result (form_is (one_base truth_base) (expr_truth t) (truth_reading t) next) }
{
    let reading = reading::of_truth(alloc, t)?;
    made(alloc, Base::Bool, Expr::Truth(t), reading, next)
}

/// What a name stands for, by the variable and the constant of that name.
pub fn named(
    alloc: Global,
    place: Place,
    next: u32,
    variable: Option<Variable>,
    constant: Option<i128>,
) -> Result<Form, TypeFault>
    ensures { CheckAnswer form_of result (name_form place next variable constant) }
{
    match variable {
        Some(v) => {
            let reading = reading::of_variable(alloc, place, v)?;
            made(alloc, v.base, Expr::Var(v.level), reading, next)
        }
        None => match constant {
            Some(k) => literal(alloc, k, next),
            None => Err(TypeFault::UnknownName(place)),
        },
    }
}

// What a set form is as a part of a relation.
fn set_reading(
    alloc: Global,
    place: Place,
    first_nonlinear: Option<Place>,
    trees: &[Expr],
) -> Result<Reading, NoMemory>
    ensures { IfOk result (λ r. reading_of r ≡ set_reading_of place first_nonlinear (map expr_tree trees.now)) }
{
    match trees.split_first() {
        None => Ok(Reading::Set(in_box(alloc, SetTerm::Empty)?)),
        Some(_) => Ok(reading::not_linear_at(first_nonlinear, place)),
    }
}

/// The set of these elements.
pub fn set(alloc: Global, place: Place, parts: Forms) -> Result<Form, TypeFault>
    ensures { CheckAnswer form_of result (set_form place (forms_of parts)) }
{
    if !bases::all_are(Base::Int, &parts.bases) {
        drop(parts);
        return Err(TypeFault::Mismatch(place));
    }
    let Forms {
        bases,
        trees,
        first_nonlinear,
        next,
    } = parts;
    drop(bases);
    let reading = set_reading(alloc, place, first_nonlinear, &trees)?;
    made(alloc, Base::Set, Expr::SetOf(trees), reading, next)
}

// The tree of the least or the greatest of these parts.
fn extreme_tree(sense: Sense, parts: Vec<Expr>) -> Expr
    ensures { expr_tree result ≡ extreme_of sense (exprs_of (map expr_tree parts.items)) }
{
    match sense {
        Sense::Least => Expr::Min(parts),
        Sense::Greatest => Expr::Max(parts),
    }
}

/// The least or the greatest of these parts.
pub fn extreme(alloc: Global, sense: Sense, place: Place, parts: Forms) -> Result<Form, TypeFault>
    ensures { CheckAnswer form_of result (extreme_form place (extreme_of sense) (forms_of parts)) }
{
    if !bases::all_are(Base::Int, &parts.bases) {
        drop(parts);
        return Err(TypeFault::Mismatch(place));
    }
    let Forms {
        bases,
        trees,
        first_nonlinear,
        next,
    } = parts;
    drop(bases);
    let reading = reading::not_linear_at(first_nonlinear, place);
    made(alloc, Base::Int, extreme_tree(sense, trees), reading, next)
}

/// The chain of these parts, with these orders between them, each at its place.
pub fn chain(
    alloc: Global,
    place: Place,
    orders: &[Order],
    places: &[Place],
    parts: Forms,
) -> Result<Form, TypeFault>
    ensures { CheckAnswer form_of result (chain_form place orders.now places.now (forms_of parts)) }
{
    if let Some(fault) = bases::odd_link(&parts.bases, places) {
        return Err(without(parts, fault));
    }
    let Forms {
        bases,
        trees,
        first_nonlinear,
        next,
    } = parts;
    drop(bases);
    match Vec::from_slice(alloc, orders) {
        Ok(orders) => {
            let reading = reading::not_linear_at(first_nonlinear, place);
            let tree = Expr::Chain {
                orders,
                parts: trees,
            };
            made(alloc, Base::Bool, tree, reading, next)
        }
        Err(_) => Err(without(trees, TypeFault::NoMemory)),
    }
}

/// The tuple of these parts.
pub fn tuple(alloc: Global, place: Place, parts: Forms) -> Result<Form, TypeFault>
    ensures { CheckAnswer form_of result (tuple_form place (forms_of parts)) }
{
    if !bases::all_are_single(&parts.bases) {
        drop(parts);
        return Err(TypeFault::Mismatch(place));
    }
    let Forms {
        bases,
        trees,
        first_nonlinear,
        next,
    } = parts;
    let all = bases::joined(alloc, &bases);
    drop(bases);
    match all {
        Ok(all) => {
            let reading = reading::not_linear_at(first_nonlinear, place);
            boxed(alloc, all, Expr::Tuple(trees), reading, next)
        }
        Err(_) => Err(without(trees, TypeFault::NoMemory)),
    }
}

// What stands under an operator, without its bases.
#[derive(Drop)]
struct Operand {
    tree: Box<Expr>,
    reading: Reading,
    next: u32,
}

// The operand, where it has this one base.
fn operand_at(place: Place, base: Base, part: Form) -> Result<Operand, TypeFault>
    ensures fault { IfErr result (λ f. (f ≡ TypeFault.Mismatch place) × (is_one base part.bases.items ≡ false)) }
    ensures base { IfOk result (λ o. is_one base part.bases.items ≡ true) }
    ensures same { IfOk result (λ o. (expr_tree o.tree.value ≡ expr_tree part.tree.value) × (reading_of o.reading ≡ reading_of part.reading) ×
        (o.next ≡ part.next)) }
{
    if !bases::is_one(base, &part.bases) {
        drop(part);
        return Err(TypeFault::Mismatch(place));
    }
    let Form {
        bases,
        tree,
        reading,
        next,
    } = part;
    drop(bases);
    Ok(Operand {
        tree,
        reading,
        next,
    })
}

// The tree of the form over this one part; any other form is its part.
fn tree_over(raw: &Raw, part: Box<Expr>) -> Expr
    ensures { expr_tree result ≡ tree_over_of (raw_tree raw.now) (expr_tree part.value) }
{
    match &raw.node {
        RawNode::Neg(_) => Expr::Neg(part),
        RawNode::Not(_) => Expr::Not(part),
        RawNode::Abs(_) => Expr::Abs(part),
        RawNode::Card(_) => Expr::Card(part),
        _ => Box::into_inner(part),
    }
}

// The tree of the form over this one part and a number; any other form is its part.
fn tree_with(raw: &Raw, k: i128, part: Box<Expr>) -> Expr
    ensures { expr_tree result ≡ tree_with_of (raw_tree raw.now) k (expr_tree part.value) }
{
    match &raw.node {
        RawNode::Divides { .. } => Expr::Divides { k, of: part },
        RawNode::Div { .. } => Expr::Div { of: part, k },
        RawNode::Mod { .. } => Expr::Mod { of: part, k },
        _ => Box::into_inner(part),
    }
}

/// The form over this one part.
pub fn over_one(alloc: Global, raw: &Raw, part: Form) -> Result<Form, TypeFault>
    ensures { CheckAnswer form_of result (over_one_of raw.now.place (raw_tree raw.now) (form_of part)) }
{
    let Operand {
        tree,
        reading,
        next,
    } = operand_at(raw.place, bases::asked(raw), part)?;
    let reading = reading::over_one(alloc, raw, reading)?;
    made(
        alloc,
        bases::given(raw),
        tree_over(raw, tree),
        reading,
        next,
    )
}

/// The form over this one part and a number.
pub fn over_number(alloc: Global, raw: &Raw, k: i128, part: Form) -> Result<Form, TypeFault>
    ensures { CheckAnswer form_of result (over_number_of raw.now.place (raw_tree raw.now) k (form_of part)) }
{
    let Operand {
        tree,
        reading,
        next,
    } = operand_at(raw.place, Base::Int, part)?;
    let reading = reading::over_number(alloc, raw, k, reading)?;
    made(
        alloc,
        bases::given(raw),
        tree_with(raw, k, tree),
        reading,
        next,
    )
}

/// The form over this one part and the number behind it.
pub fn with_number(
    context: &Context,
    scope: &Scope,
    raw: &Raw,
    number: &Number,
    part: Form,
) -> Result<Form, TypeFault>
    ensures { CheckAnswer form_of result (chained (divisor_in (context_of context.now) scope.now (number_tree number.now)) (λ k.
        over_number_of raw.now.place (raw_tree raw.now) k (form_of part))) }
{
    match divisor(context, scope, number) {
        Ok(k) => over_number(context.alloc, raw, k, part),
        Err(fault) => Err(without(part, fault)),
    }
}

/// The form with these parts in a row: a set, the least or the greatest, a call or a tuple.
pub fn over_row(context: &Context, raw: &Raw, parts: Forms) -> Result<Form, TypeFault>
    ensures { CheckAnswer form_of result (over_row_of (context_of context.now) raw.now.place (raw_tree raw.now) (forms_of parts)) }
{
    match &raw.node {
        RawNode::SetOf(_) => set(context.alloc, raw.place, parts),
        RawNode::Min(_) => extreme(context.alloc, Sense::Least, raw.place, parts),
        RawNode::Max(_) => extreme(context.alloc, Sense::Greatest, raw.place, parts),
        RawNode::Call { name, .. } => call(context, raw.place, name, parts),
        _ => tuple(context.alloc, raw.place, parts),
    }
}

/// An operation with two sides.
#[tactic(auto, unfolding(crate::specs::FormView::context_of))]
pub fn binary(
    context: &Context,
    place: Place,
    op: BinOp,
    left: Form,
    right: Form,
) -> Result<Form, TypeFault>
    ensures { CheckAnswer form_of result (binary_form (context_of context.now).known place op (form_of left) (form_of right)) }
{
    if !bases::sides_fit(op, &left.bases, &right.bases) {
        drop(left);
        drop(right);
        return Err(TypeFault::Mismatch(place));
    }
    let Form {
        bases: left_bases,
        tree: left_tree,
        reading: left_reading,
        next: _,
    } = left;
    let Form {
        bases: right_bases,
        tree: right_tree,
        reading: right_reading,
        next,
    } = right;
    drop(left_bases);
    drop(right_bases);
    let operation = Operation {
        op,
        place,
        known: context.known,
    };
    let reading = reading::of_binary(context.alloc, operation, left_reading, right_reading)?;
    let tree = Expr::Binary {
        op,
        left: left_tree,
        right: right_tree,
    };
    made(context.alloc, bases::result_of(op), tree, reading, next)
}

// The call of the function of that number, which has these results.
fn called(
    alloc: Global,
    place: Place,
    number: u32,
    results: &[Base],
    args: Forms,
) -> Result<Form, TypeFault>
    ensures { CheckAnswer form_of result (form_is results.now (expr_call number (exprs_of (forms_of args).trees))
        (not_linear_at_of (forms_of args).first_nonlinear place) (forms_of args).next) }
{
    let Forms {
        bases,
        trees,
        first_nonlinear,
        next,
    } = args;
    drop(bases);
    match Vec::from_slice(alloc, results) {
        Ok(results) => {
            let tree = Expr::Call {
                def: number,
                args: trees,
            };
            let reading = reading::not_linear_at(first_nonlinear, place);
            boxed(alloc, results, tree, reading, next)
        }
        Err(_) => Err(without(trees, TypeFault::NoMemory)),
    }
}

// Why these arguments are not those of a call of this function.
fn call_fault(place: Place, def: &RawDef, is_earlier: bool, args: &Forms) -> Option<TypeFault>
    ensures { (number : ℕ) → call_form place (Some (callee_seen number (raw_def_tree def.now) is_earlier)) (forms_of args.now) ≡
        where_no_fault result (form_is def.now.results.items (expr_call number (exprs_of (forms_of args.now).trees))
        (not_linear_at_of (forms_of args.now).first_nonlinear place) (forms_of args.now).next) }
{
    if args.bases.len() != def.params.len() {
        return Some(TypeFault::WrongCount(place));
    }
    if !bases::are_asked(&args.bases, &def.params) {
        return Some(TypeFault::Mismatch(place));
    }
    if !is_earlier {
        return Some(TypeFault::CallsLater(place));
    }
    None
}

/// The call of the function of that name.
#[tactic(auto, unfolding(crate::specs::FormView::context_of))]
pub fn call(context: &Context, place: Place, name: &Text, args: Forms) -> Result<Form, TypeFault>
    ensures { CheckAnswer form_of result (call_form place ((context_of context.now).calls name.now) (forms_of args)) }
{
    let Some((number, def, is_earlier)) = context.callees.find(context.number, name) else {
        return Err(without(args, TypeFault::UnknownName(place)));
    };
    match call_fault(place, def, is_earlier, &args) {
        None => called(context.alloc, place, number, &def.results, args),
        Some(fault) => Err(without(args, fault)),
    }
}

/// The tree alone.
pub fn bare(form: Form) -> Box<Expr>
    ensures { expr_tree result.value ≡ (form_of form).tree }
{
    let Form {
        bases,
        tree,
        reading,
        next: _,
    } = form;
    drop(bases);
    drop(reading);
    tree
}

/// An `if`.
pub fn choice(
    alloc: Global,
    place: Place,
    test: Form,
    yes: Form,
    no: Form,
) -> Result<Form, TypeFault>
    ensures { CheckAnswer form_of result (if_form place (form_of test) (form_of yes) (form_of no)) }
{
    if !bases::is_one(Base::Bool, &test.bases) || !same_bases(&yes.bases, &no.bases) {
        drop(test);
        drop(yes);
        drop(no);
        return Err(TypeFault::Mismatch(place));
    }
    let in_yes = reading::earlier_nonlinear(
        reading::first_nonlinear(&yes.reading),
        reading::first_nonlinear(&no.reading),
    );
    let first_nonlinear = reading::earlier_nonlinear(
        reading::first_nonlinear(&test.reading),
        in_yes,
    );
    let next = no.next;
    let test = bare(test);
    let no = bare(no);
    let Form {
        bases,
        tree: yes,
        reading,
        next: _,
    } = yes;
    drop(reading);
    let reading = reading::not_linear_at(first_nonlinear, place);
    boxed(alloc, bases, Expr::If { test, yes, no }, reading, next)
}

/// A `let` of so many names.
pub fn binding(
    alloc: Global,
    place: Place,
    count: usize,
    value: Form,
    body: Form,
) -> Result<Form, TypeFault>
    ensures { CheckAnswer form_of result (let_form place count (form_of value) (form_of body)) }
{
    let count = match to_u32(count) {
        Ok(count) => count,
        Err(_) => return Err(without(value, without(body, TypeFault::NoMemory))),
    };
    let first_nonlinear = reading::earlier_nonlinear(
        reading::first_nonlinear(&value.reading),
        reading::first_nonlinear(&body.reading),
    );
    let value = bare(value);
    let Form {
        bases,
        tree: body,
        reading,
        next,
    } = body;
    drop(reading);
    let tree = Expr::Let { count, value, body };
    let reading = reading::not_linear_at(first_nonlinear, place);
    boxed(alloc, bases, tree, reading, next)
}

// The relation that was read, where it is linear.
fn linear(place: Place, reading: Reading) -> Result<Box<Rel>, TypeFault>
    ensures { CheckAnswer (λ r. rel_tree r.value) result (linear_of place (reading_of reading)) }
{
    match reading {
        Reading::Relation(rel) => Ok(rel),
        Reading::Term(t) => Err(without(t, TypeFault::NotLinear(place))),
        Reading::Set(s) => Err(without(s, TypeFault::NotLinear(place))),
        Reading::NotLinear(first) => Err(TypeFault::NotLinear(first)),
    }
}

// The `choose` of that number and these outputs over a linear relation, and the bases of its outputs.
fn choose_tree(
    alloc: Global,
    number: u32,
    scope: &Scope,
    outputs: &[Param],
    rel: Box<Rel>,
) -> Result<(Vec<Base>, Box<Expr>), NoMemory>
    ensures { IfOk result (λ r. (r.0.items ≡ bases_of outputs.now) ×
        (expr_tree r.1.value ≡ expr_choose number scope.now (bases_of outputs.now) (rel_tree rel.value))) }
{
    let bases = cf_tree::bases(alloc, outputs)?;
    let tree = Expr::Choose {
        number,
        scope: scope.copied(alloc)?,
        outputs: cf_tree::bases(alloc, outputs)?,
        rel: Box::into_inner(rel),
    };
    Ok((bases, Box::new(alloc, tree)?))
}

/// The `choose` of these outputs, where these variables are in scope.
pub fn choose(
    alloc: Global,
    site: Site,
    scope: &Scope,
    outputs: &[Param],
    rel: Form,
) -> Result<Form, TypeFault>
    ensures { CheckAnswer form_of result (choose_form site.place site.number scope.now outputs.now (form_of rel)) }
{
    let Operand {
        tree,
        reading,
        next,
    } = operand_at(site.place, Base::Bool, rel)?;
    drop(tree);
    let rel = linear(site.place, reading)?;
    let (bases, tree) = choose_tree(alloc, site.number, scope, outputs, rel)?;
    Ok(Form {
        bases,
        tree,
        reading: Reading::NotLinear(site.place),
        next,
    })
}

/// The parts of a `choose` of edition 3: what is given, its relation, and its objective.
#[derive(Drop)]
pub struct Chosen {
    pub given: GivenForm,
    pub rel: Form,
    pub aim: AimForm,
}

// What a `choose` of edition 3 has besides its parts: the bases of its outputs, its scope, and once
// more the bases of its outputs and those of its hidden ones.
#[derive(Drop)]
struct Frame {
    bases: Vec<Base>,
    scope: Vec<Param>,
    outputs: Vec<Base>,
    hidden: Vec<Base>,
}

fn framed(
    alloc: Global,
    scope: &Scope,
    outputs: &[Param],
    hidden: &[Param],
) -> Result<Frame, NoMemory>
    ensures { IfOk result (λ f. (f.bases.items ≡ bases_of outputs.now) × (f.scope.items ≡ scope.now) × (f.outputs.items ≡ bases_of outputs.now) ×
        (f.hidden.items ≡ bases_of hidden.now)) }
{
    Ok(Frame {
        bases: cf_tree::bases(alloc, outputs)?,
        scope: scope.copied(alloc)?,
        outputs: cf_tree::bases(alloc, outputs)?,
        hidden: cf_tree::bases(alloc, hidden)?,
    })
}

/// The `choose` of edition 3 with these outputs and hidden ones, made of its parts, where these
/// variables are in scope.
pub fn choose_where(
    alloc: Global,
    site: Site,
    scope: &Scope,
    outputs: &[Param],
    hidden: &[Param],
    parts: Chosen,
) -> Result<Form, TypeFault>
    ensures { CheckAnswer form_of result (choose_where_form site.place site.number scope.now outputs.now hidden.now (given_form_of parts.given).tree
        (form_of parts.rel).tree (aim_form_of parts.aim)) }
{
    let Frame {
        bases,
        scope,
        outputs,
        hidden,
    } = match framed(alloc, scope, outputs, hidden) {
        Ok(frame) => frame,
        Err(_) => return Err(without(parts, TypeFault::NoMemory)),
    };
    let Chosen { given, rel, aim } = parts;
    let AimForm { tree: aim, next } = aim;
    let tree = Expr::ChooseWhere {
        number: site.number,
        scope,
        outputs,
        hidden,
        given: given.tree,
        rel: bare(rel),
        aim,
    };
    boxed(alloc, bases, tree, Reading::NotLinear(site.place), next)
}

/// The `choose` as a part of the relation around it, where its own relation was read as a part of
/// that one.
pub fn part(place: Place, chosen: Form, inner: Form) -> Form
    ensures { Ok (form_of result) ≡ choose_part place (form_of chosen) (form_of inner) }
{
    let first = reading::first_nonlinear(&inner.reading);
    drop(inner);
    let Form {
        bases,
        tree,
        reading,
        next,
    } = chosen;
    drop(reading);
    Form {
        bases,
        tree,
        reading: reading::not_linear_at(first, place),
        next,
    }
}

/// No expressions, before those that are numbered from `next` on.
pub fn no_forms(alloc: Global, next: u32) -> Forms
    ensures { forms_of result ≡ no_forms_of next }
{
    Forms {
        bases: Vec::new(alloc),
        trees: Vec::new(alloc),
        first_nonlinear: None,
        next,
    }
}

/// Adds an expression.
pub fn add_form(forms: &mut Forms, form: Form) -> Result<(), NoMemory>
    ensures { OnOk result (forms_of forms.new ≡ with_form_of (forms_of forms.old) (form_of form)) }
{
    let Form {
        bases,
        tree,
        reading,
        next,
    } = form;
    let first = reading::first_nonlinear(&reading);
    drop(reading);
    forms.bases.push(bases)?;
    push(&mut forms.trees, Box::into_inner(tree))?;
    forms.first_nonlinear = reading::earlier_nonlinear(forms.first_nonlinear, first);
    forms.next = next;
    Ok(())
}

/// No arms, before those that are numbered from `next` on.
pub fn no_arms(alloc: Global, next: u32) -> Arms
    ensures { arms_of result ≡ no_arms_of next }
{
    Arms {
        bases: Vec::new(alloc),
        trees: Vec::new(alloc),
        first_nonlinear: None,
        next,
    }
}

// The number of an arm: the next one where it has variables, and else 0.
fn number_of(next: u32, summands: &[Summand]) -> u32
    ensures { result ≡ arm_number next (map summand_of summands.now) }
{
    if summands.is_empty() { 0 } else { next }
}

/// The number after that of an arm.
pub fn after_arm_number(next: u32, summands: &[Summand]) -> Result<u32, NoMemory>
    ensures { IfOk result (λ n. n ≡ after_arm next (map summand_of summands.now)) }
{
    if summands.is_empty() {
        Ok(next)
    } else {
        add_u32(next, 1)
    }
}

// Adds the factor of a variable of a pattern.
fn push_factor(factors: &mut Vec<i128>, summand: &Summand) -> Result<(), NoMemory>
    ensures { OnOk result (factors.new.items ≡ factors.old.items ++ summand.now.factor ∷ []) }
{
    factors.push(summand.factor)?;
    Ok(())
}

// The factors of a pattern.
fn factors_of(alloc: Global, summands: &[Summand]) -> Result<Vec<i128>, NoMemory>
    ensures { IfOk result (λ fs. fs.items ≡ map (λ x. x.factor) (map summand_of summands.now)) }
{
    let mut all = Vec::new(alloc);
    for summand in summands {
        push_factor(&mut all, summand)?;
    }
    Ok(all)
}

// The arm with this pattern and this body, where `next` is the next number.
fn arm_of(
    alloc: Global,
    next: u32,
    pattern: &Pattern,
    body: Box<Expr>,
) -> Result<MatchArm, NoMemory>
    ensures { IfOk result (λ a. match_arm_tree a ≡
        match_arm (arm_number next (pattern_of pattern.now).summands) (map (λ x. x.factor) (pattern_of pattern.now).summands) pattern.now.constant
        (expr_tree body.value)) }
{
    match factors_of(alloc, &pattern.summands) {
        Ok(factors) => Ok(MatchArm {
            number: number_of(next, &pattern.summands),
            factors,
            constant: pattern.constant,
            body: Box::into_inner(body),
        }),
        Err(fault) => Err(without(body, fault)),
    }
}

/// Adds an arm with its body.
pub fn add_arm(
    alloc: Global,
    arms: &mut Arms,
    pattern: &Pattern,
    body: Form,
) -> Result<(), NoMemory>
    ensures { OnOk result (arms_of arms.new ≡ with_arm (arms_of arms.old) (pattern_of pattern.now) (form_of body)) }
{
    let Form {
        bases,
        tree,
        reading,
        next,
    } = body;
    let first = reading::first_nonlinear(&reading);
    drop(reading);
    arms.bases.push(bases)?;
    let arm = arm_of(alloc, arms.next, pattern, tree)?;
    push(&mut arms.trees, arm)?;
    arms.first_nonlinear = reading::earlier_nonlinear(arms.first_nonlinear, first);
    arms.next = next;
    Ok(())
}

// The `match` of that number over these parts.
fn match_tree(
    alloc: Global,
    number: u32,
    scope: &Scope,
    of: Box<Expr>,
    arms: Vec<MatchArm>,
) -> Result<Expr, NoMemory>
    ensures { IfOk result (λ e. expr_tree e ≡ expr_match number scope.now (expr_tree of.value) (match_arms_of (map match_arm_tree arms.items))) }
{
    match scope.copied(alloc) {
        Ok(scope) => Ok(Expr::Match {
            number,
            scope,
            of,
            arms,
        }),
        Err(fault) => Err(without(of, without(arms, fault))),
    }
}

/// The `match`, where these variables are in scope, and last the matched value.
pub fn matching(
    alloc: Global,
    site: Site,
    scope: &Scope,
    value: Form,
    arms: Arms,
) -> Result<Form, TypeFault>
    ensures { CheckAnswer form_of result (match_form site.place site.number scope.now (form_of value) (arms_of arms)) }
{
    if !bases::is_one(Base::Int, &value.bases) || !bases::all_same(&arms.bases) {
        return Err(without(value, without(arms, TypeFault::Mismatch(site.place))));
    }
    let Arms {
        bases,
        trees,
        first_nonlinear,
        next,
    } = arms;
    let all = bases::first(alloc, &bases);
    drop(bases);
    let first = reading::earlier_nonlinear(
        reading::first_nonlinear(&value.reading),
        first_nonlinear,
    );
    let tree = match_tree(alloc, site.number, scope, bare(value), trees)?;
    let reading = reading::not_linear_at(first, site.place);
    match all {
        Ok(all) => boxed(alloc, all, tree, reading, next),
        Err(_) => Err(without(tree, TypeFault::NoMemory)),
    }
}
