//! The chooses of a program.
ghost use Rattle.std.specs.Prelude.{◌≡◌, ◌++◌, IfOk, OnOk, map, All};
ghost use Rattle.cf_tree.specs.ChooseView.{choose_tree};
ghost use Rattle.cf_tree.specs.DefView.{def_tree};
ghost use Rattle.cf_tree.specs.ExprView.{expr_tree, expr_trees};
ghost use Rattle.cf_program.specs.NoForm.{HasNoForm, HaveNoForm};
ghost use Rattle.cf_program.specs.NoMatch.{HasNoMatch, HaveNoMatch};
ghost use Rattle.cf_build.specs.Chooses.{chooses_in, chooses_in_all, all_chooses, by_number};
ghost use Rattle.cf_build.specs.Solves.{chooses_of, IsTypedChoose};
ghost use Rattle.std.specs.List.Sorted.{IsNonDecreasing, IsNonDecreasingBy, IsPermutation, IsStableByKey};
ghost use Rattle.std.specs.Ordering.{nat_cmp};

use cf_program::Typed;
use cf_tree::{
    Choose, Def, Expr, NoMemory, expr_leaf, expr_over_list, expr_over_one, expr_over_two,
};
use std::alloc::Global;

/// The chooses of a program without matches in the order of their numbers, those of one number in
/// the order of the text.
pub fn numbered<'a>(alloc: Global, typed: &'a Typed) -> Result<Vec<Choose<'a>>, NoMemory>
    requires { All (λ d. HasNoMatch (expr_tree d.body)) typed.now.defs.items }
    ensures chooses { IfOk result (λ chooses. map choose_tree chooses.items ≡ by_number (all_chooses (map def_tree typed.now.defs.items))) }
    ensures typed { IfOk result (λ chooses. All (λ c. IsTypedChoose (choose_tree c)) chooses.items) }
    ensures rising { IfOk result (λ chooses. IsNonDecreasing (map (λ c. c.number) chooses.items)) }
{
    let mut chooses = collect(alloc, typed.defs())?;
    sort(&mut chooses)?;
    Ok(chooses)
}

// Puts chooses in the order of their numbers, and leaves those of one number in their order.
fn sort(chooses: &mut Vec<Choose<'_>>) -> Result<(), NoMemory>
    ensures order { OnOk result (IsNonDecreasingBy (λ c. c.number) chooses.new.items) }
    ensures same { IsPermutation chooses.old.items chooses.new.items }
    ensures stable { IsStableByKey (λ c. c.number) nat_cmp chooses.old.items chooses.new.items }
{
    chooses.sort_by_key(|choose| choose.number)?;
    Ok(())
}

// The chooses of all functions, in the order of the text.
fn collect<'a>(alloc: Global, defs: &'a [Def]) -> Result<Vec<Choose<'a>>, NoMemory>
    requires no_match { All (λ d. HasNoMatch (expr_tree d.body)) defs.now }
    requires no_form { All (λ d. HasNoForm (expr_tree d.body)) defs.now }
    ensures { IfOk result (λ chooses. map choose_tree chooses.items ≡ chooses_of (map def_tree defs.now)) }
{
    let mut chooses = Vec::new(alloc);
    for def in defs {
        collect_expr(&def.body, &mut chooses)?;
    }
    Ok(chooses)
}

// The chooses of the expression, behind those found before.
#[cycle(collect)]
#[tactic(auto, using(crate::proofs::ChooseLists::choose_lists))]
fn collect_expr<'a>(expr: &'a Expr, chooses: &mut Vec<Choose<'a>>) -> Result<(), NoMemory>
    requires no_match { HasNoMatch (expr_tree expr.now) }
    requires no_form { HasNoForm (expr_tree expr.now) }
    ensures { OnOk result (map choose_tree chooses.new.items ≡ map choose_tree chooses.old.items ++ chooses_in (expr_tree expr.now)) }
{
    match expr {
        expr_leaf!() => Ok(()),
        expr_over_list!(parts) => collect_all(parts, chooses),
        expr_over_one!(a) => collect_expr(a, chooses),
        expr_over_two!(a, b) => {
            collect_expr(a, chooses)?;
            collect_expr(b, chooses)?;
            Ok(())
        }
        Expr::If { test, yes, no } => {
            collect_expr(test, chooses)?;
            collect_expr(yes, chooses)?;
            collect_expr(no, chooses)?;
            Ok(())
        }
        Expr::Choose {
            number,
            scope,
            outputs,
            rel,
        } => {
            chooses.push(Choose {
                number: *number,
                scope,
                outputs,
                rel,
            })?;
            Ok(())
        }
        Expr::Chain { .. } | Expr::ChooseWhere { .. } | Expr::Match { .. } => unreachable!(),
    }
}

#[cycle(collect)]
#[tactic(auto, using(crate::proofs::ChooseLists::choose_lists, crate::proofs::LoopSteps::none_at, crate::proofs::LoopSteps::formed_at))]
fn collect_all<'a>(exprs: &'a [Expr], chooses: &mut Vec<Choose<'a>>) -> Result<(), NoMemory>
    requires no_match { HaveNoMatch (expr_trees exprs.now) }
    requires no_form { HaveNoForm (expr_trees exprs.now) }
    ensures { OnOk result (map choose_tree chooses.new.items ≡ map choose_tree chooses.old.items ++ chooses_in_all (expr_trees exprs.now)) }
{
    for expr in exprs {
        collect_expr(expr, chooses)?;
    }
    Ok(())
}
