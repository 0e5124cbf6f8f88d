//! The rules over a program.
ghost use Rattle.std.specs.Prelude.{◌≡◌, ◌≤◌, ℕ, [], length, map, take, codes, Ok, IfOk, OnOk};
ghost use Rattle.std.specs.Str.{bytes_eq};
ghost use Rattle.cf_tree.specs.DefView.{program_tree, raw_def_tree, raw_item_tree, def_tree, DefTree};
ghost use Rattle.cf_tree.specs.declared.base.Edition.TheVariants.{Two, Three};
ghost use Rattle.cf_tree.specs.RawTree.{place_of};
ghost use Rattle.cf_tree.specs.RawView.{raw_tree};
ghost use Rattle.cf_program.specs.Checked.{checked, functions_of, walk_const as walk_const_of, walk_def as walk_def_of, walk_items as walk_items_of, main_from, with_main, size_fault as size_fault_of, def_form};
ghost use Rattle.cf_program.specs.declared.fault.TypeFault.TheVariants.{Mismatch, Weight, Depth};
ghost use Rattle.cf_program.specs.declared.linearity.Linearity.TheVariants.{Plain, Late as late};
ghost use Rattle.cf_type.specs.FormView.{form_of};
ghost use Rattle.cf_type.specs.Valued.{constants_of};
ghost use Rattle.cf_type.specs.Walked.{functions_in, first_fault, with_constant, const_form, walk_item as walk_item_of};
ghost use Rattle.cf_type.specs.WalkedView.{walked_of};
ghost use Rattle.cf_program.specs.DistinctNames.{IsDistinctlyNamed};
ghost use Rattle.cf_program.specs.CheckAnswers.{CheckAnswer};
ghost use Rattle.cf_program.specs.Then.{◌>>=◌ as chained};
ghost use Rattle.cf_tree.specs.Bases.{same_bases as same_bases_of};
ghost use Rattle.cf_program.specs.LateLinear.{IsLinearBy};
ghost use Rattle.cf_program.specs.Size.{weights, depths};
ghost use Rattle.cf_program.specs.Source.{IsSpelledProgram};
ghost use Rattle.cf_program.specs.Typed.{typed_tree};
ghost use Rattle.cf_program.specs.TypedProgram.{IsProgramBy};
ghost use Rattle.cf_program.specs.TypedSource.{IsSourceBy};
ghost use Rattle.cf_program.specs.Walk.{where_kept};

use crate::bases::is_one;
use crate::build::bare;
use crate::callees::Callees;
use crate::constants::Constants;
use crate::context::Context;
use crate::form::Form;
use crate::memory::push;
use crate::names::repeated_param;
use crate::scope::Scope;
use crate::value::value;
use crate::walk::walk;
use cf_program::{
    Late, LateSource, Linearity, Source, TypeFault, Typed, TypedDefs, first_too_deep,
    first_too_heavy,
};
use cf_tree::{
    Base, Def, Edition, NoMemory, Program, RawConst, RawDef, RawItem, Text, copy_params,
    same_bases, to_u32, without,
};
use std::alloc::Global;

/// The program of language 2 with its names turned into levels and its chooses numbered from 1 in
/// the order of the text. The tree is one that its source grammar spells.
///
/// # Errors
/// The first rule that the program breaks in the order of its text, where parts come before the
/// whole; then a missing `main`, then weights, then depths (docs/LANGUAGE.md). Want of memory also
/// where functions, levels or chooses are more than a `u32` counts.
pub fn check(alloc: Global, program: &Program) -> Result<Typed, TypeFault>
    requires { IsSpelledProgram Two (program_tree program.now) }
    ensures gives { CheckAnswer typed_tree result (checked Two Plain (program_tree program.now)) }
    ensures named { OnOk result (IsDistinctlyNamed (functions_of (program_tree program.now))) }
{
    Ok(Typed::new(check_by(alloc, Linearity::Plain, program)?))
}

/// As `check`, for a program that is solved where the numbers in the scope of each `choose` are
/// known: a product in its relation may have a side of literals and of these numbers.
///
/// # Errors
/// As those of `check`. `NotLinear` comes where a form in a relation is not linear so.
pub fn check_late(alloc: Global, program: &Program) -> Result<Late, TypeFault>
    requires { IsSpelledProgram Two (program_tree program.now) }
    ensures gives { CheckAnswer typed_tree result (checked Two late (program_tree program.now)) }
    ensures named { OnOk result (IsDistinctlyNamed (functions_of (program_tree program.now))) }
{
    Ok(Late::new(check_by(alloc, Linearity::Late, program)?))
}

/// The program of edition 3 with its names turned into levels and its chooses numbered from 1 in the
/// order of the text, before it has the forms of language 2. The tree is one that its grammar spells.
///
/// # Errors
/// The first rule that the program breaks in the order of its text, where parts come before the
/// whole; then a missing `main`. Want of memory as of `check`.
pub fn check_source(alloc: Global, program: &Program) -> Result<Source, TypeFault>
    requires { IsSpelledProgram Three (program_tree program.now) }
    ensures { CheckAnswer typed_tree result (checked Three Plain (program_tree program.now)) }
{
    Ok(Source::new(source_by(alloc, Linearity::Plain, program)?))
}

/// As `check_source`, for a program that is solved where the numbers in the scope of each `choose`
/// are known: a product in its relation or objective may have a side of these numbers.
///
/// # Errors
/// As those of `check_source`. `NotLinear` comes where a form in a relation is not linear so.
pub fn check_late_source(alloc: Global, program: &Program) -> Result<LateSource, TypeFault>
    requires { IsSpelledProgram Three (program_tree program.now) }
    ensures { CheckAnswer typed_tree result (checked Three late (program_tree program.now)) }
{
    Ok(LateSource::new(source_by(alloc, Linearity::Late, program)?))
}

// The program of edition 3 with levels, where relations are linear so.
#[tactic(auto, using(crate::proofs::CheckLemmas::source_fails, crate::proofs::CheckLemmas::source_goes_on, crate::proofs::CheckLemmas::source_is))]
fn source_by(alloc: Global, how: Linearity, program: &Program) -> Result<TypedDefs, TypeFault>
    requires { IsSpelledProgram Three (program_tree program.now) }
    ensures gives { CheckAnswer typed_tree result (checked Three how (program_tree program.now)) }
    ensures typed { IfOk result (λ t. IsSourceBy how (map def_tree t.defs.items) t.main) }
{
    match with_levels(alloc, Edition::Three, how, program) {
        Ok(source) => Ok(source),
        Err(fault) => Err(fault),
    }
}

// The program of language 2 with levels, where relations are linear so.
#[tactic(auto, using(crate::proofs::CheckLemmas::fails_is, crate::proofs::CheckLemmas::named_is, crate::proofs::CheckLemmas::typed_is, crate::proofs::CheckLemmas::check_fails, crate::proofs::CheckLemmas::check_passes, crate::proofs::CheckLemmas::check_keeps))]
fn check_by(alloc: Global, how: Linearity, program: &Program) -> Result<TypedDefs, TypeFault>
    requires { IsSpelledProgram Two (program_tree program.now) }
    ensures gives { CheckAnswer typed_tree result (checked Two how (program_tree program.now)) }
    ensures named { OnOk result (IsDistinctlyNamed (functions_of (program_tree program.now))) }
    ensures typed { IfOk result (λ t. IsProgramBy (IsLinearBy how) (map def_tree t.defs.items) t.main) }
{
    let typed = with_levels(alloc, Edition::Two, how, program)?;
    match size_fault(alloc, &typed.defs) {
        Ok(None) => Ok(typed),
        Ok(Some(fault)) => Err(without(typed, fault)),
        Err(_) => Err(without(typed, TypeFault::NoMemory)),
    }
}

// The program with levels, whatever its size.
#[tactic(auto, using(crate::proofs::CheckLemmas::fails_is, crate::proofs::WalkSteps::fails_then))]
fn with_levels(
    alloc: Global,
    edition: Edition,
    how: Linearity,
    program: &Program,
) -> Result<TypedDefs, TypeFault>
    ensures { CheckAnswer typed_tree result
        (chained (walk_items_of edition how (functions_of (program_tree program.now)) [] [] [] 1 (program_tree program.now))
        (λ defs. with_main defs (main_from 0 (functions_of (program_tree program.now))))) }
{
    let functions = functions(alloc, &program.items)?;
    let callees = Callees::new(alloc, &functions)?;
    let setting = Setting {
        alloc,
        edition,
        how,
        callees: &callees,
    };
    let defs = walk_items(&setting, &program.items)?;
    match find_main(&functions) {
        Ok(Some(main)) => Ok(TypedDefs { defs, main }),
        Ok(None) => Err(without(defs, TypeFault::NoMain)),
        Err(_) => Err(without(defs, TypeFault::NoMemory)),
    }
}

// The fault of the first weight that passes the limit, or else of the first depth.
fn size_fault(alloc: Global, defs: &[Def]) -> Result<Option<TypeFault>, NoMemory>
    ensures { IfOk result (λ o. o ≡ first_fault (size_fault_of 1000000 Weight (weights (map def_tree defs.now)))
        (size_fault_of 200 Depth (depths (map def_tree defs.now)))) }
{
    match first_too_heavy(alloc, defs)? {
        Some(passed) => Ok(Some(TypeFault::Weight(passed.size))),
        None => depth_fault(alloc, defs),
    }
}

// The fault of the first depth that passes the limit.
fn depth_fault(alloc: Global, defs: &[Def]) -> Result<Option<TypeFault>, NoMemory>
    ensures { IfOk result (λ o. o ≡ size_fault_of 200 Depth (depths (map def_tree defs.now))) }
{
    match first_too_deep(alloc, defs)? {
        Some(passed) => Ok(Some(TypeFault::Depth(passed.size))),
        None => Ok(None),
    }
}

// The functions of a program, in the order of its text.
fn functions<'a>(alloc: Global, items: &'a [RawItem]) -> Result<Vec<&'a RawDef>, NoMemory>
    ensures { IfOk result (λ ds. map (λ d. d.now) ds.items ≡ functions_in items.now) }
{
    let mut all = Vec::new(alloc);
    for item in items {
        match item {
            RawItem::Const(_) => (),
            RawItem::Def(def) => all.push(def)?,
        }
    }
    Ok(all)
}

// What all declarations of a program are walked under.
#[derive(Drop)]
struct Setting<'a> {
    alloc: Global,
    edition: Edition,
    how: Linearity,
    callees: &'a Callees<'a>,
}

/// What is known behind some declarations: the constants, the functions with levels, and the next
/// number of a choose.
#[derive(Drop)]
pub(crate) struct Walked {
    pub(crate) constants: Constants,
    pub(crate) defs: Vec<Def>,
    pub(crate) next: u32,
}

// The function with its body.
fn with_body(alloc: Global, def: &RawDef, body: Form) -> Result<Def, NoMemory>
    ensures { IfOk result (λ d. def_tree d ≡ def_form (raw_def_tree def.now) (form_of body)) }
{
    let tree = bare(body);
    let name = def.name.try_copy(alloc)?;
    let params = copy_params(alloc, &def.params)?;
    let results = Vec::from_slice(alloc, &def.results)?;
    Ok(Def {
        name,
        params,
        results,
        body: Box::into_inner(tree),
    })
}

// The function with its body and the next number of a choose, where the body gives its results.
fn closed(alloc: Global, def: &RawDef, body: Form) -> Result<(Def, u32), TypeFault>
    ensures { CheckAnswer {Y = DefTree × ℕ} (λ r. (def_tree r.0, r.1)) result
        (where_kept (same_bases_of (form_of body).bases def.now.results.items) (Mismatch (place_of (raw_tree def.now.body)))
        (Ok (def_form (raw_def_tree def.now) (form_of body), (form_of body).next))) }
{
    if !same_bases(&body.bases, &def.results) {
        drop(body);
        return Err(TypeFault::Mismatch(def.body.place));
    }
    let next = body.next;
    Ok((with_body(alloc, def, body)?, next))
}

// A function in its context, and the next number of a choose after it.
#[tactic(auto, using(crate::proofs::WalkSteps::fails_then, crate::proofs::WalkSteps::goes_on))]
fn walk_def(context: &Context, def: &RawDef, next: u32) -> Result<(Def, u32), TypeFault>
    requires within { context.now.number ≤ length context.now.callees.now }
    requires unknown { context.now.known ≡ 0 }
    ensures { CheckAnswer {Y = DefTree × ℕ} (λ r. (def_tree r.0, r.1)) result
        (walk_def_of context.now.edition context.now.how (map raw_def_tree context.now.callees.now) (constants_of context.now.constants.now)
        (map raw_def_tree (take context.now.number context.now.callees.now)) next (raw_def_tree def.now)) }
{
    let alloc = context.alloc;
    let before = context.number as usize;
    if context.callees.is_named_before(before, &def.name) {
        return Err(TypeFault::DuplicateName(def.place));
    }
    if let Some(place) = repeated_param(context, &def.params)? {
        return Err(TypeFault::DuplicateName(place));
    }
    let mut scope = Scope::new(alloc);
    scope.enter(alloc, &def.params)?;
    let body = walk(context, &mut scope, next, &def.body)?;
    drop(scope);
    closed(alloc, def, body)
}

// The value of a constant over the form of its expression.
#[tactic(auto, using(crate::proofs::ConstSteps::shown_then))]
fn valued(context: &Context, constant: &RawConst, form: Form) -> Result<i128, TypeFault>
    ensures { CheckAnswer (λ k. with_constant (constants_of context.now.constants.now) constant.now.name k) result
        (const_form (constants_of context.now.constants.now) constant.now.name (raw_tree constant.now.value) (form_of form)) }
{
    if !is_one(Base::Int, &form.bases) {
        return Err(without(form, TypeFault::Mismatch(constant.value.place)));
    }
    drop(form);
    value(context.alloc, context.constants, &constant.value)
}

// The value of a constant in its context.
fn walk_const(context: &Context, constant: &RawConst, next: u32) -> Result<i128, TypeFault>
    requires within { context.now.number ≤ length context.now.callees.now }
    requires unknown { context.now.known ≡ 0 }
    ensures { CheckAnswer (λ k. with_constant (constants_of context.now.constants.now) constant.now.name k) result
        (walk_const_of context.now.edition context.now.how (map raw_def_tree context.now.callees.now) (constants_of context.now.constants.now)
        (map raw_def_tree (take context.now.number context.now.callees.now)) next constant.now.place constant.now.name (raw_tree constant.now.value)) }
{
    if context.constants.is_named(&constant.name) {
        return Err(TypeFault::DuplicateName(constant.place));
    }
    let mut scope = Scope::new(context.alloc);
    let form = walk(context, &mut scope, next, &constant.value)?;
    drop(scope);
    valued(context, constant, form)
}

// A declaration behind those that were walked.
fn add_item(setting: &Setting, walked: &mut Walked, item: &RawItem) -> Result<(), TypeFault>
    requires { length walked.now.defs.items ≤ length setting.now.callees.now }
    ensures { CheckAnswer (λ _. walked_of walked.new) result (walk_item_of setting.now.edition setting.now.how (map raw_def_tree setting.now.callees.now)
        (map raw_def_tree (take (length walked.old.defs.items) setting.now.callees.now)) (walked_of walked.old) (raw_item_tree item.now)) }
{
    let context = Context {
        alloc: setting.alloc,
        edition: setting.edition,
        callees: setting.callees,
        constants: &walked.constants,
        number: to_u32(walked.defs.len())?,
        how: setting.how,
        known: 0,
    };
    match item {
        RawItem::Const(constant) => {
            let value = walk_const(&context, constant, walked.next)?;
            let constants = &mut walked.constants;
            constants.add(setting.alloc, &constant.name, value)?;
            Ok(())
        }
        RawItem::Def(def) => {
            let (tree, next) = walk_def(&context, def, walked.next)?;
            push(&mut walked.defs, tree)?;
            walked.next = next;
            Ok(())
        }
    }
}

// The functions with levels, in the order of the text.
fn walk_items(setting: &Setting, items: &[RawItem]) -> Result<Vec<Def>, TypeFault>
    requires { setting.now.callees.now ≡ functions_in items.now }
    ensures { CheckAnswer (λ ds. map def_tree ds.items) result (walk_items_of setting.now.edition setting.now.how
        (functions_of (map raw_item_tree items.now)) [] [] [] 1 (map raw_item_tree items.now)) }
{
    let mut walked = Walked {
        constants: Constants::new(setting.alloc),
        defs: Vec::new(setting.alloc),
        next: 1,
    };
    for item in items {
        match add_item(setting, &mut walked, item) {
            Ok(()) => (),
            Err(fault) => return Err(without(walked, fault)),
        }
    }
    Ok(walked.defs)
}

// Whether a name is `main`.
fn is_main(name: &Text) -> bool
    ensures { result ≡ bytes_eq name.now (codes "main") }
{
    name.bytes.as_slice() == b"main".as_slice()
}

// The number of the first function that is named `main`.
fn find_main(defs: &[&RawDef]) -> Result<Option<u32>, NoMemory>
    ensures { IfOk result (λ o. o ≡ main_from 0 (map raw_def_tree (map (λ d. d.now) defs.now))) }
{
    for i in 0..defs.len() {
        if is_main(&defs[i].name) {
            return Ok(Some(to_u32(i)?));
        }
    }
    Ok(None)
}
