//! Codes as lists of marks, by which they are compared.
ghost use Rattle.std.specs.Prelude.{◌≡◌, ◌↔◌, ◌++◌, ◌∷◌, [], true, OnOk, IfOk};
ghost use Rattle.cf_tree.specs.CodeTree.{code_solve};
ghost use Rattle.cf_tree.specs.CodeView.{code_tree, code_trees, item_tree, item_trees, arm_tree, arm_trees};
ghost use Rattle.cf_cert.specs.Marks.{code_marks, parts_marks, codes_marks, bounds_marks, item_marks, items_marks, arm_marks, arms_marks};

use cf_tree::{
    Arm, Code, Item, NoMemory, Order, code_leaf, code_over_list, code_over_one, code_over_three,
    code_over_two,
};
use std::alloc::Global;

// A form of code with all that it holds but its parts, or what stands between parts.
#[derive(Clone, Copy, PartialEq)]
pub(crate) enum Mark {
    Form(Form),
    Lit(i128),
    Truth(bool),
    Var(u32),
    Div(i128),
    Mod(i128),
    Compare(Order),
    Divides(i128),
    Let(u32, u32),
    Solve(u32),
    /// Another bound of an arm.
    Bound(u32),
}

// A form that holds nothing but its parts, or the place of a part.
#[derive(Clone, Copy, PartialEq)]
pub(crate) enum Form {
    SetOf,
    Tuple,
    Sum,
    Sub,
    Mul,
    Neg,
    Min,
    Max,
    And,
    Or,
    Not,
    Union,
    Inter,
    Diff,
    Subset,
    Card,
    Slice,
    Fresh,
    If,
    /// Another let of an arm.
    LetItem,
    /// Another need of an arm.
    NeedItem,
    /// Another part or arm.
    More,
    /// The end of a list.
    End,
}

/// Whether the code is the `solve` of that number with these arms.
///
/// # Errors
/// `NoMemory` where memory ran out.
pub fn is_solve(alloc: Global, code: &Code, number: u32, arms: &[Arm]) -> Result<bool, NoMemory>
    ensures { IfOk result (λ b. (b ≡ true) ↔ (code_tree code.now ≡ code_solve number (arm_trees arms.now))) }
{
    let mut found = Vec::new(alloc);
    put_code(&mut found, code)?;
    let mut made = Vec::new(alloc);
    put_solve(&mut made, number, arms)?;
    Ok(same_marks(&found, &made))
}

// Puts the marks of a `solve` at the end.
fn put_solve(out: &mut Vec<Mark>, number: u32, arms: &[Arm]) -> Result<(), NoMemory>
    ensures { OnOk result (out.new.items ≡ out.old.items ++ code_marks (code_solve number (arm_trees arms.now))) }
{
    out.push(Mark::Solve(number))?;
    put_arms(out, arms)?;
    Ok(())
}

// Whether both lists have the same marks.
fn same_marks(left: &[Mark], right: &[Mark]) -> bool
    ensures { (result ≡ true) ↔ (left.now ≡ right.now) }
{
    left == right
}

// The mark before those of a code's parts.
fn head_mark(code: &Code) -> Mark
    ensures { code_marks (code_tree code.now) ≡ result ∷ parts_marks (code_tree code.now) }
{
    match code {
        Code::Lit(k) => Mark::Lit(*k),
        Code::Truth(t) => Mark::Truth(*t),
        Code::Var(x) => Mark::Var(*x),
        Code::SetOf(_) => Mark::Form(Form::SetOf),
        Code::Tuple(_) => Mark::Form(Form::Tuple),
        Code::Sum(_) => Mark::Form(Form::Sum),
        Code::Sub(_, _) => Mark::Form(Form::Sub),
        Code::Mul(_, _) => Mark::Form(Form::Mul),
        Code::Neg(_) => Mark::Form(Form::Neg),
        Code::Div { k, .. } => Mark::Div(*k),
        Code::Mod { k, .. } => Mark::Mod(*k),
        Code::Min(_) => Mark::Form(Form::Min),
        Code::Max(_) => Mark::Form(Form::Max),
        Code::Compare { order, .. } => Mark::Compare(*order),
        Code::Divides { k, .. } => Mark::Divides(*k),
        Code::And(_, _) => Mark::Form(Form::And),
        Code::Or(_, _) => Mark::Form(Form::Or),
        Code::Not(_) => Mark::Form(Form::Not),
        Code::Union(_) => Mark::Form(Form::Union),
        Code::Inter(_) => Mark::Form(Form::Inter),
        Code::Diff(_, _) => Mark::Form(Form::Diff),
        Code::Subset(_, _) => Mark::Form(Form::Subset),
        Code::Card(_) => Mark::Form(Form::Card),
        Code::Slice { .. } => Mark::Form(Form::Slice),
        Code::Fresh { .. } => Mark::Form(Form::Fresh),
        Code::If { .. } => Mark::Form(Form::If),
        Code::Let { first, count, .. } => Mark::Let(*first, *count),
        Code::Solve { number, .. } => Mark::Solve(*number),
    }
}

// Puts the marks of a code at the end.
#[cycle(put_code)]
fn put_code(out: &mut Vec<Mark>, code: &Code) -> Result<(), NoMemory>
    ensures { OnOk result (out.new.items ≡ out.old.items ++ code_marks (code_tree code.now)) }
{
    out.push(head_mark(code))?;
    put_parts(out, code)?;
    Ok(())
}

// Puts the marks of a code's parts at the end.
#[cycle(put_code)]
fn put_parts(out: &mut Vec<Mark>, code: &Code) -> Result<(), NoMemory>
    ensures { OnOk result (out.new.items ≡ out.old.items ++ parts_marks (code_tree code.now)) }
{
    match code {
        code_leaf!() => Ok(()),
        code_over_list!(parts) => put_codes(out, parts),
        code_over_one!(a) => put_code(out, a),
        code_over_two!(a, b) => {
            put_code(out, a)?;
            put_code(out, b)?;
            Ok(())
        }
        code_over_three!(a, b, c) => {
            put_code(out, a)?;
            put_code(out, b)?;
            put_code(out, c)?;
            Ok(())
        }
        Code::Solve { arms, .. } => put_arms(out, arms),
    }
}

// A mark and the code behind it.
#[cycle(put_code)]
fn put_one(out: &mut Vec<Mark>, mark: Mark, code: &Code) -> Result<(), NoMemory>
    ensures { OnOk result (out.new.items ≡ out.old.items ++ (mark ∷ code_marks (code_tree code.now))) }
{
    out.push(mark)?;
    put_code(out, code)?;
    Ok(())
}

// Codes, up to the end of their list.
#[cycle(put_code)]
fn put_codes(out: &mut Vec<Mark>, codes: &[Code]) -> Result<(), NoMemory>
    ensures { OnOk result (out.new.items ≡ out.old.items ++ codes_marks (code_trees codes.now)) }
{
    for code in codes {
        put_one(out, Mark::Form(Form::More), code)?;
    }
    out.push(Mark::Form(Form::End))?;
    Ok(())
}

#[cycle(put_code)]
fn put_item(out: &mut Vec<Mark>, item: &Item) -> Result<(), NoMemory>
    ensures { OnOk result (out.new.items ≡ out.old.items ++ item_marks (item_tree item.now)) }
{
    match item {
        Item::Let(code) => put_one(out, Mark::Form(Form::LetItem), code),
        Item::Need(code) => put_one(out, Mark::Form(Form::NeedItem), code),
    }
}

// Lets and needs, up to the end of their list.
#[cycle(put_code)]
fn put_items(out: &mut Vec<Mark>, items: &[Item]) -> Result<(), NoMemory>
    ensures { OnOk result (out.new.items ≡ out.old.items ++ items_marks (item_trees items.now)) }
{
    for item in items {
        put_item(out, item)?;
    }
    out.push(Mark::Form(Form::End))?;
    Ok(())
}

#[cycle(put_code)]
fn put_arm(out: &mut Vec<Mark>, arm: &Arm) -> Result<(), NoMemory>
    ensures { OnOk result (out.new.items ≡ out.old.items ++ arm_marks (arm_tree arm.now)) }
{
    put_bounds(out, &arm.bounds)?;
    put_items(out, &arm.items)?;
    put_codes(out, &arm.gives)?;
    Ok(())
}

// Arms, up to the end of their list.
#[cycle(put_code)]
fn put_arms(out: &mut Vec<Mark>, arms: &[Arm]) -> Result<(), NoMemory>
    ensures { OnOk result (out.new.items ≡ out.old.items ++ arms_marks (arm_trees arms.now)) }
{
    for arm in arms {
        out.push(Mark::Form(Form::More))?;
        put_arm(out, arm)?;
    }
    out.push(Mark::Form(Form::End))?;
    Ok(())
}

// Bounds, up to the end of their list.
fn put_bounds(out: &mut Vec<Mark>, bounds: &[u32]) -> Result<(), NoMemory>
    ensures { OnOk result (out.new.items ≡ out.old.items ++ bounds_marks bounds.now) }
{
    for bound in bounds {
        out.push(Mark::Bound(*bound))?;
    }
    out.push(Mark::Form(Form::End))?;
    Ok(())
}
