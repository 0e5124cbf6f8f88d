//! Printed preconditions.
ghost use Rattle.std.specs.Prelude.{◌≡◌, ◌++◌, codes, decimal, IfOk, OnOk};
ghost use Rattle.cf_emit.specs.Printed.{line_end, listed, pre_arm_text, pre_arms_text, pre_text};
ghost use Rattle.cf_tree.specs.CodeView.{arm_tree, arm_trees};
ghost use Rattle.cf_tree.specs.DefView.{pre_tree};

use crate::code::{put_items, put_searches};
use crate::list::put_names;
use cf_tree::{Arm, NoMemory, Pre, Text, put_number};
use std::alloc::Global;

/// The printed form of the precondition of a choose with this number, where the variables in scope
/// have these names, by level.
pub fn print_pre(alloc: Global, number: u32, names: &[Text], pre: &Pre) -> Result<Vec<u8>, NoMemory>
    ensures { IfOk result (λ bytes. bytes.items ≡ pre_text number names.now (pre_tree pre.now)) }
{
    let mut out = Vec::new(alloc);
    put_head(&mut out, number, names)?;
    put_arms(&mut out, &pre.arms)?;
    out.extend_from_slice(b"}\n")?;
    Ok(out)
}

// The first line.
fn put_head(out: &mut Vec<u8>, number: u32, names: &[Text]) -> Result<(), NoMemory>
    ensures { OnOk result (out.new.items ≡ out.old.items ++ (codes "pre " ++ decimal number ++ codes " (" ++ listed names.now ++ codes ") {" ++ line_end)) }
{
    out.extend_from_slice(b"pre ")?;
    put_number(out, number)?;
    out.extend_from_slice(b" (")?;
    put_names(out, names)?;
    out.extend_from_slice(b") {\n")?;
    Ok(())
}

fn put_arms(out: &mut Vec<u8>, arms: &[Arm]) -> Result<(), NoMemory>
    ensures { OnOk result (out.new.items ≡ out.old.items ++ pre_arms_text (arm_trees arms.now)) }
{
    for arm in arms {
        put_arm(out, arm)?;
    }
    Ok(())
}

fn put_arm(out: &mut Vec<u8>, arm: &Arm) -> Result<(), NoMemory>
    ensures { OnOk result (out.new.items ≡ out.old.items ++ pre_arm_text (arm_tree arm.now)) }
{
    put_searches(out, &arm.bounds)?;
    put_items(out, &arm.items)?;
    out.extend_from_slice(b"}\n")?;
    Ok(())
}
