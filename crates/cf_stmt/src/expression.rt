//! Which codes are expressions, and plain.
ghost use Rattle.std.specs.Prelude.{◌≡◌, ◌≤◌};
ghost use Rattle.cf_tree.specs.CodeTree.{code_and, code_size};
ghost use Rattle.cf_tree.specs.CodeView.{code_tree, code_trees};
ghost use Rattle.cf_tree.specs.RelSize.{capped};
ghost use Rattle.cf_stmt.specs.Expressions.{is_expression, are_expressions};
ghost use Rattle.cf_stmt.specs.Made.{stay};
ghost use Rattle.cf_stmt.specs.Fitting.{fits, fit_together};

use cf_shift::code_over_operands;
use cf_tree::{Code, code_leaf, code_over_list, code_over_one, code_over_three};

/// The greatest depth of an expression in a block: compilers limit how deep parentheses nest.
pub const DEEPEST: u64 = 30;

/// The greatest number of nodes of tests that are put into one.
pub(crate) const LARGEST_TEST: u64 = 16;

// Whether no let, no solve and no tuple is in it.
#[cycle(expression)]
fn is_expression(code: &Code) -> bool
    ensures { result ≡ is_expression (code_tree code.now) }
{
    match code {
        code_leaf!() => true,
        Code::Tuple(_) => false,
        Code::SetOf(parts)
        | Code::Sum(parts)
        | Code::Min(parts)
        | Code::Max(parts)
        | Code::Union(parts)
        | Code::Inter(parts) => are_expressions(parts),
        code_over_one!(a) => is_expression(a),
        code_over_operands!(a, b) => is_expression(a) && is_expression(b),
        code_over_three!(a, b, c) => is_expression(a) && is_expression(b) && is_expression(c),
        Code::Let { .. } | Code::Solve { .. } => false,
    }
}

#[cycle(expression)]
fn are_expressions(codes: &[Code]) -> bool
    ensures { result ≡ are_expressions (code_trees codes.now) }
{
    for code in codes {
        if !is_expression(code) {
            return false;
        }
    }
    true
}

// Whether it is an expression that may stand in so many others.
pub(crate) fn fits(code: &Code, others: u64) -> bool
    requires { others ≤ 1 }
    ensures { result ≡ fits others (code_tree code.now) }
{
    is_expression(code) && code.depth() <= DEEPEST - others
}

// Whether each is plain.
pub(crate) fn all_fit(codes: &[Code], others: u64) -> bool
    requires { others ≤ 1 }
    ensures { result ≡ stay (fits others) (code_trees codes.now) }
{
    for code in codes {
        if !fits(code, others) {
            return false;
        }
    }
    true
}

// Whether both fit in one test.
pub(crate) fn fit_together(a: &Code, b: &Code) -> bool
    ensures { result ≡ fit_together (code_tree a.now) (code_tree b.now) }
{
    fits(a, 1) && fits(b, 1) && size_of_both(a, b) <= LARGEST_TEST
}

fn size_of_both(a: &Code, b: &Code) -> u64
    ensures { result ≡ capped (code_size (code_and (code_tree a.now) (code_tree b.now))) }
{
    a.size().saturating_add(b.size()).saturating_add(1)
}
