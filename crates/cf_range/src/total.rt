//! Codes that can be evaluated anywhere, any number of times.
ghost use Rattle.std.specs.Prelude.{◌≡◌};
ghost use Rattle.cf_tree.specs.CodeView.{code_tree, code_trees};
ghost use Rattle.cf_range.specs.Total.{is_total, are_total};

use crate::codes::may_pass;
use crate::range::Range;
use cf_tree::Code;

/// Whether no operation in the code may pass, and it has no let and no solve: wherever the variables lie in their ranges it then gives
/// values, and meets no number past the limit.
#[cycle(total)]
pub fn is_total(ranges: &[Range], code: &Code) -> bool
    ensures { result ≡ is_total ranges.now (code_tree code.now) }
{
    match code {
        Code::Lit(_) => !may_pass(ranges, code),
        Code::Truth(_) | Code::Var(_) => true,
        Code::Sum(parts) => !may_pass(ranges, code) && are_total(ranges, parts),
        Code::SetOf(parts)
        | Code::Tuple(parts)
        | Code::Min(parts)
        | Code::Max(parts)
        | Code::Union(parts)
        | Code::Inter(parts) => are_total(ranges, parts),
        Code::Sub(a, b) | Code::Mul(a, b) => !may_pass(ranges, code)
            && is_total(ranges, a)
            && is_total(ranges, b),
        Code::Mod { of, .. } => !may_pass(ranges, code) && is_total(ranges, of),
        Code::Neg(of) | Code::Div { of, .. } | Code::Divides { of, .. } | Code::Not(of) => is_total(
            ranges, of,
        ),
        Code::Compare {
            left: a,
            right: b,
            ..
        }
        | Code::And(a, b)
        | Code::Or(a, b)
        | Code::Diff(a, b)
        | Code::Subset(a, b) => is_total(ranges, a) && is_total(ranges, b),
        Code::Slice {
            set: a,
            from: b,
            n: c,
        }
        | Code::If {
            test: a,
            yes: b,
            no: c,
        } => { is_total(ranges, a) && is_total(ranges, b) && is_total(ranges, c) }
        Code::Card(_) | Code::Fresh { .. } | Code::Let { .. } | Code::Solve { .. } => false,
    }
}

#[cycle(total)]
fn are_total(ranges: &[Range], parts: &[Code]) -> bool
    ensures { result ≡ are_total ranges.now (code_trees parts.now) }
{
    for part in parts {
        if !is_total(ranges, part) {
            return false;
        }
    }
    true
}
