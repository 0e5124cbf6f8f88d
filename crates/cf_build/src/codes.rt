//! The code of source expressions, in which calls are unfolded.

ghost use Rattle.std.specs.Prelude.{◌≡◌, ◌+◌, ◌<◌, ◌^◌, ◌∷◌, [], All, IfOk, map, length};
ghost use Rattle.cf_tree.specs.CodeTree.{code_max, code_neg, code_var};
ghost use Rattle.cf_tree.specs.CodeView.{code_tree, code_trees};
ghost use Rattle.cf_tree.specs.DefView.{def_tree};
ghost use Rattle.cf_tree.specs.ExprView.{expr_tree, expr_trees};
ghost use Rattle.cf_tree.specs.ChooseView.{choose_tree};
ghost use Rattle.cf_build.specs.Chooses.{solve_of};
ghost use Rattle.cf_build.specs.Codes.{two, over_list, over_one, binary_code, joined_code, call_code, called, code_among, codes_among, codes_behind};
ghost use Rattle.cf_build.specs.Known.{IsKnown, AreKnown, AreAllKnown};
ghost use Rattle.cf_shift.specs.Shifted.{shifted, HasLevels, HaveLevels, IsLevelled, AreLevelled};

use crate::choose_codes::ChooseCodes;
use cf_shift::{first_level, shift};
use cf_tree::{BinOp, Choose, Code, Def, Expr, NoMemory, add_u32, to_u32};
use std::alloc::Global;

// What the expressions of a function stand among: the functions before it, the codes of all
// chooses, and how many variables of the callers stand before its own.
#[derive(Drop)]
struct Around<'a> {
    alloc: Global,
    before: &'a [Def],
    solves: &'a ChooseCodes,
    by: u32,
}

// The code of main behind its parameters.
pub(crate) fn main_code(
    alloc: Global,
    defs: &[Def],
    main: u32,
    solves: &ChooseCodes,
) -> Result<Code, NoMemory>
    requires { All (λ d. AreKnown solves.now.codes.items (expr_tree d.body)) defs.now }
    ensures code { IfOk result (λ c. code_tree c ≡ called (codes_behind solve_of [] (map def_tree defs.now)) main) }
    ensures levels { IfOk result (λ c. HasLevels (code_tree c)) }
{
    let around = Around {
        alloc,
        before: defs,
        solves,
        by: 0,
    };
    callee(&around, main, 0)
}

// The code of an expression behind n variables of its function.
#[cycle(code)]
fn code(around: &Around, expr: &Expr, n: u32) -> Result<Code, NoMemory>
    requires here { AreKnown around.now.solves.now.codes.items (expr_tree expr.now) }
    requires before { All (λ d. AreKnown around.now.solves.now.codes.items (expr_tree d.body)) around.now.before.now }
    ensures { IfOk result (λ c. IsLevelled (code_among (map def_tree around.now.before.now)
        around.now.by n (expr_tree expr.now)) (code_tree c)) }
{
    match expr {
        Expr::Lit(k) => Ok(Code::Lit(*k)),
        Expr::Truth(t) => Ok(Code::Truth(*t)),
        Expr::Var(x) => Ok(Code::Var(add_u32(around.by, *x)?)),
        Expr::SetOf(parts) | Expr::Tuple(parts) => {
            let parts = all(around, parts, n)?;
            Ok(over_list(expr, parts))
        }
        Expr::Neg(a)
        | Expr::Not(a)
        | Expr::Card(a)
        | Expr::Divides { of: a, .. }
        | Expr::Div { of: a, .. }
        | Expr::Mod { of: a, .. } => {
            let part = boxed(around, a, n)?;
            Ok(over_one(expr, part))
        }
        Expr::Abs(a) => {
            let first = add_u32(around.by, n)?;
            Ok(Code::Let {
                first,
                count: 1,
                value: boxed(around, a, n)?,
                body: greater(around.alloc, first)?,
            })
        }
        Expr::Binary { op, left, right } => binary(
            around.alloc,
            *op,
            boxed(around, left, n)?,
            boxed(around, right, n)?,
        ),
        Expr::If { test, yes, no } => Ok(Code::If {
            test: boxed(around, test, n)?,
            yes: boxed(around, yes, n)?,
            no: boxed(around, no, n)?,
        }),
        Expr::Call { def, args } => call(
            around.alloc,
            add_u32(around.by, n)?,
            all(around, args, n)?,
            callee(around, *def, n)?,
        ),
        Expr::Let { count, value, body } => Ok(Code::Let {
            first: first_level(around.by, n, *count)?,
            count: *count,
            value: boxed(around, value, n)?,
            body: boxed(around, body, add_u32(n, *count)?)?,
        }),
        Expr::Choose {
            number,
            scope,
            outputs,
            rel,
        } => solve(
            around,
            &Choose {
                number: *number,
                scope,
                outputs,
                rel,
            },
        ),
        // for the proof: none of these stands in a program that is built
        Expr::Chain { .. }
        | Expr::Min(_)
        | Expr::Max(_)
        | Expr::ChooseWhere { .. }
        | Expr::Match { .. } => Ok(Code::Tuple(Vec::new(around.alloc))),
    }
}

#[cycle(code)]
fn boxed(around: &Around, expr: &Expr, n: u32) -> Result<Box<Code>, NoMemory>
    requires here { AreKnown around.now.solves.now.codes.items (expr_tree expr.now) }
    requires before { All (λ d. AreKnown around.now.solves.now.codes.items (expr_tree d.body)) around.now.before.now }
    ensures { IfOk result (λ c. IsLevelled (code_among (map def_tree around.now.before.now)
        around.now.by n (expr_tree expr.now)) (code_tree c.value)) }
{
    Ok(Box::new(around.alloc, code(around, expr, n)?)?)
}

#[cycle(code)]
fn all(around: &Around, exprs: &[Expr], n: u32) -> Result<Vec<Code>, NoMemory>
    requires here { AreAllKnown around.now.solves.now.codes.items (expr_trees exprs.now) }
    requires before { All (λ d. AreKnown around.now.solves.now.codes.items (expr_tree d.body)) around.now.before.now }
    ensures { IfOk result (λ cs. AreLevelled (codes_among (map def_tree around.now.before.now)
        around.now.by n (expr_trees exprs.now)) (code_trees cs.items)) }
{
    let mut all = Vec::new(around.alloc);
    for expr in exprs {
        all.push(code(around, expr, n)?)?;
    }
    Ok(all)
}

// The body of function number `number`, called behind n variables.
#[cycle(code)]
fn callee(around: &Around, number: u32, n: u32) -> Result<Code, NoMemory>
    requires { All (λ d. AreKnown around.now.solves.now.codes.items (expr_tree d.body)) around.now.before.now }
    ensures { IfOk result (λ c. IsLevelled (shifted (around.now.by + n)
        (called (codes_behind solve_of [] (map def_tree around.now.before.now)) number)) (code_tree c)) }
{
    match around.before.get(number as usize) {
        Some(def) => {
            let inside = Around {
                alloc: around.alloc,
                before: &around.before[..number as usize],
                solves: around.solves,
                by: add_u32(around.by, n)?,
            };
            code(&inside, &def.body, to_u32(def.params.len())?)
        }
        None => Ok(Code::Tuple(Vec::new(around.alloc))),
    }
}

// The code of a set of these codes, or of a tuple.
fn over_list(expr: &Expr, parts: Vec<Code>) -> Code
    requires { HaveLevels (code_trees parts.items) }
    ensures { IsLevelled (over_list (expr_tree expr.now) (code_trees parts.items)) (code_tree result) }
{
    match expr {
        Expr::SetOf(_) => Code::SetOf(parts),
        _ => Code::Tuple(parts),
    }
}

// The code of a form with one part, which has this code.
fn over_one(expr: &Expr, a: Box<Code>) -> Code
    requires { HasLevels (code_tree a.value) }
    ensures { IsLevelled (over_one (expr_tree expr.now) (code_tree a.value)) (code_tree result) }
{
    match expr {
        Expr::Neg(_) => Code::Neg(a),
        Expr::Not(_) => Code::Not(a),
        Expr::Card(_) => Code::Card(a),
        Expr::Divides { k, .. } => Code::Divides { k: *k, of: a },
        Expr::Div { k, .. } => Code::Div { of: a, k: *k },
        Expr::Mod { k, .. } => Code::Mod { of: a, k: *k },
        _ => Box::into_inner(a),
    }
}

// The greater of the number of level n and its negative.
fn greater(alloc: Global, n: u32) -> Result<Box<Code>, NoMemory>
    ensures { IfOk result (λ c. IsLevelled (code_max (two (code_var n) (code_neg (code_var n)))) (code_tree c.value)) }
{
    let negative = Code::Neg(Box::new(alloc, Code::Var(n))?);
    let parts = pair(alloc, Code::Var(n), negative)?;
    Ok(Box::new(alloc, Code::Max(parts))?)
}

fn pair<T: Drop>(alloc: Global, a: T, b: T) -> Result<Vec<T>, NoMemory>
    ensures { IfOk result (λ cs. cs.items ≡ a ∷ b ∷ []) }
{
    let mut parts = Vec::with_capacity(alloc, 2)?;
    parts.push(a)?;
    parts.push(b)?;
    Ok(parts)
}

// The code of an operation with two sides.
fn binary(alloc: Global, op: BinOp, a: Box<Code>, b: Box<Code>) -> Result<Code, NoMemory>
    requires left { HasLevels (code_tree a.value) }
    requires right { HasLevels (code_tree b.value) }
    ensures { IfOk result (λ c. IsLevelled (binary_code op (code_tree a.value) (code_tree b.value)) (code_tree c)) }
{
    match op {
        BinOp::Add => Ok(Code::Sum(pair(alloc, Box::into_inner(a), Box::into_inner(b))?)),
        BinOp::Sub => Ok(Code::Sub(a, b)),
        BinOp::Mul => Ok(Code::Mul(a, b)),
        BinOp::And => Ok(Code::And(a, b)),
        BinOp::Or => Ok(Code::Or(a, b)),
        BinOp::Union => Ok(Code::Union(pair(alloc, Box::into_inner(a), Box::into_inner(b))?)),
        BinOp::Inter => Ok(Code::Inter(pair(alloc, Box::into_inner(a), Box::into_inner(b))?)),
        BinOp::Diff => Ok(Code::Diff(a, b)),
        BinOp::Subset => Ok(Code::Subset(a, b)),
        BinOp::Implies => Ok(Code::If {
            test: a,
            yes: b,
            no: Box::new(alloc, Code::Truth(true))?,
        }),
        BinOp::Compare(order) => Ok(Code::Compare {
            order,
            left: a,
            right: b,
        }),
    }
}

// A called body, whose arguments take the levels from n on.
fn call(alloc: Global, n: u32, args: Vec<Code>, body: Code) -> Result<Code, NoMemory>
    requires args { HaveLevels (code_trees args.items) }
    requires body { HasLevels (code_tree body) }
    ensures code { IfOk result (λ c. code_tree c ≡ call_code n (code_trees args.items) (code_tree body)) }
    ensures levels { IfOk result (λ c. HasLevels (code_tree c)) }
{
    if args.is_empty() {
        return Ok(body);
    }
    let body = Box::new(alloc, body)?;
    let count = count_of(&args, n)?;
    let value = Box::new(alloc, joined(args))?;
    Ok(Code::Let {
        first: n,
        count,
        value,
        body,
    })
}

// How many arguments there are, which take the levels from n on.
fn count_of(args: &[Code], n: u32) -> Result<u32, NoMemory>
    ensures { IfOk result (λ count. (count ≡ length args.now) × (n + count < 2 ^ 32)) }
{
    let count = to_u32(args.len())?;
    add_u32(n, count)?;
    Ok(count)
}

// One code alone, or several as a tuple.
fn joined(mut codes: Vec<Code>) -> Code
    requires { HaveLevels (code_trees codes.items) }
    ensures code { code_tree result ≡ joined_code (code_trees codes.items) }
    ensures levels { HasLevels (code_tree result) }
{
    if codes.len() != 1 {
        return Code::Tuple(codes);
    }
    match codes.pop() {
        Some(code) => code,
        None => Code::Tuple(codes),
    }
}

// The `solve` of a choose behind the variables of the callers.
fn solve(around: &Around, choose: &Choose<'_>) -> Result<Code, NoMemory>
    requires { IsKnown around.now.solves.now.codes.items (choose_tree choose.now) }
    ensures { IfOk result (λ c. IsLevelled (shifted around.now.by (solve_of (choose_tree choose.now))) (code_tree c)) }
{
    let code = around.solves.find(around.alloc, choose)?;
    shift(around.alloc, code, around.by)
}
