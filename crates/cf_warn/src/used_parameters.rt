//! The parameters of a choose.
ghost use Rattle.std.specs.Prelude.{◌≡◌, ◌<◌, IfOk, filter, map, length, All};
ghost use Rattle.std.specs.List.{range_with_len};
ghost use Rattle.cf_tree.specs.RelView.{rel_tree};
ghost use Rattle.cf_linear.specs.Layout.{has_level};
ghost use Rattle.cf_linear.specs.Views.{plain_layout};
ghost use Rattle.cf_warn.specs.Questions.{base_at, parameters};
ghost use Rattle.cf_warn.specs.Writing.{is_parameter};

use cf_choose::Solved;
use cf_linear::{Layout, place};
use cf_setwit::push_if;
use cf_tree::{Base, NoMemory};
use std::alloc::Global;

/// The parameters of a choose: the levels of the variables in scope that occur in its relation, rising.
///
/// # Errors
/// `NoMemory` where memory ran out.
pub fn parameters(alloc: Global, solved: &Solved) -> Result<Vec<u32>, NoMemory>
    ensures { IfOk result (λ v. v.items ≡ parameters solved.now.scope.items (rel_tree solved.now.rel)) }
{
    listed(alloc, solved.layout())
}

// The levels of the parameters of a layout.
fn listed(alloc: Global, layout: &Layout) -> Result<Vec<u32>, NoMemory>
    ensures { IfOk result (λ v. v.items ≡ filter (is_parameter (plain_layout layout.now)) (range_with_len 0 layout.now.scope)) }
{
    let mut params = Vec::new(alloc);
    for x in 0..layout.scope {
        push_if(&mut params, is_parameter(layout, x), x)?;
    }
    Ok(params)
}

fn is_parameter(layout: &Layout, x: u32) -> bool
    ensures { result ≡ is_parameter (plain_layout layout.now) x }
{
    has_level(x, &layout.numbers) || has_level(x, &layout.inputs)
}

fn has_level(x: u32, levels: &[u32]) -> bool
    ensures { result ≡ has_level levels.now x }
{
    place(x, levels) < levels.len()
}

// The bases of the levels.
pub(crate) fn bases_at(alloc: Global, scope: &[Base], levels: &[u32]) -> Result<Vec<Base>, NoMemory>
    requires { All (λ x. x < length scope.now) levels.now }
    ensures { IfOk result (λ bases. bases.items ≡ map (base_at scope.now) levels.now) }
{
    let mut bases = Vec::new(alloc);
    for x in levels {
        bases.push(scope[*x as usize])?;
    }
    Ok(bases)
}
