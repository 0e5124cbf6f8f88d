//! The rows of an atom in one of its cases.
ghost use Rattle.std.specs.Prelude.{◌≡◌, ◌+◌, ◌<◌, ◌≤◌, ◌^◌, [], IfOk};
ghost use Rattle.cf_tree.specs.RelTree.{rel_divides};
ghost use Rattle.cf_tree.specs.RelView.{term_tree};
ghost use Rattle.cf_tree.specs.Relation.{IsLinearTerm, IsDivisor};
ghost use Rattle.cf_linear.specs.declared.refusal.TheConstants.{MOST_SETS};
ghost use Rattle.cf_linear.specs.Layout.{set_count, first_free};
ghost use Rattle.cf_linear.specs.Written.{IsPlaced, quotient_count};
ghost use Rattle.cf_linear.specs.Views.{plain_layout};
ghost use Rattle.cf_linear.specs.Cases.{negation_normal, normal_atom, atom_compare};
ghost use Rattle.cf_cases.specs.Picking.{case_by};
ghost use Rattle.cf_cases.specs.SystemBuilders.{rows_of, with_rows, with_case, false_rows, BuilderAnswer};

use crate::counting::order_ways;
use crate::signs::{abs_count, signs_of, signs_of_two, way_of};
use crate::system_builder::{SystemBuilder, add_divided, add_false, add_written};
use cf_linear::{Layout, RowFault, row_of};
use cf_tree::{Order, Term};

/// Adds the rows of the case with this index of a comparison.
///
/// # Errors
/// `Past` where an entry passes the limit, `NoMemory` where memory ran out.
pub fn add_compare(
    order: Order,
    left: &Term,
    right: &Term,
    index: u128,
    layout: &Layout,
    builder: &mut SystemBuilder,
) -> Result<(), RowFault>
    requires left { IsPlaced (plain_layout layout.now) (term_tree left.now) }
    requires left_linear { IsLinearTerm (term_tree left.now) }
    requires right { IsPlaced (plain_layout layout.now) (term_tree right.now) }
    requires right_linear { IsLinearTerm (term_tree right.now) }
    requires small { index < 2 ^ 64 }
    requires sets { set_count (plain_layout layout.now) ≤ MOST_SETS }
    requires above { first_free (plain_layout layout.now) ≤ builder.old.next }
    requires room { builder.old.next + quotient_count (term_tree left.now) + quotient_count (term_tree right.now) < 2 ^ 32 }
    ensures gives { BuilderAnswer (with_case (plain_layout layout.now) (rows_of builder.old)
        (case_by (normal_atom (atom_compare order (term_tree left.now) (term_tree right.now))) index)) builder.new result }
    ensures next { IfOk result (λ _. builder.new.next ≡ builder.old.next + quotient_count (term_tree left.now) + quotient_count (term_tree right.now)) }
{
    let signs = signs_of_two(builder.alloc, left, right, index / order_ways(order))?;
    let (left_signs, right_signs) = signs.split_at(abs_count(left)?);
    let first = row_of(builder.alloc, left, layout, left_signs, builder.next)?;
    let second = row_of(builder.alloc, right, layout, right_signs, first.next)?;
    add_written(way_of(order, index), &first, &second, builder)
}

/// Adds the rows of the case with this index of the atom that `k` divides the form, where `holds`, or
/// that it does not.
///
/// # Errors
/// `Past` where an entry passes the limit, `NoMemory` where memory ran out.
pub fn add_divides(
    holds: bool,
    k: &i128,
    of: &Term,
    index: u128,
    layout: &Layout,
    builder: &mut SystemBuilder,
) -> Result<(), RowFault>
    requires divisor { IsDivisor k.now }
    requires placed { IsPlaced (plain_layout layout.now) (term_tree of.now) }
    requires linear { IsLinearTerm (term_tree of.now) }
    requires small { index < 2 ^ 64 }
    requires sets { set_count (plain_layout layout.now) ≤ MOST_SETS }
    requires above { first_free (plain_layout layout.now) ≤ builder.old.next }
    requires room { builder.old.next + quotient_count (term_tree of.now) + 1 < 2 ^ 32 }
    ensures gives { BuilderAnswer (with_case (plain_layout layout.now) (rows_of builder.old)
        (case_by (negation_normal holds (rel_divides k.now (term_tree of.now))) index)) builder.new result }
    ensures next { IfOk result (λ _. builder.new.next ≡ builder.old.next + quotient_count (term_tree of.now) + 1) }
{
    let signs = signs_of(builder.alloc, of, index)?;
    let written = row_of(builder.alloc, of, layout, &signs, builder.next)?;
    add_divided(holds, k, &written, builder)
}

/// Adds the rows of true, where `holds`, or of false.
///
/// # Errors
/// `NoMemory` where memory ran out.
pub fn add_constant(holds: bool, builder: &mut SystemBuilder) -> Result<(), RowFault>
    ensures gives { BuilderAnswer (with_rows (rows_of builder.old) [] (false_rows holds)) builder.new result }
    ensures next { IfOk result (λ _. builder.new.next ≡ builder.old.next) }
{
    if !holds {
        add_false(builder)?;
    }
    Ok(())
}
