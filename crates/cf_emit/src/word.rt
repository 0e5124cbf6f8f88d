//! The words of printed code.
ghost use Rattle.std.specs.Prelude.{◌≡◌, ◌++◌, ◌≤◌, ◌^◌, OnOk};
ghost use Rattle.cf_emit.specs.Printed.{base_text, more_variables, order_text, variable_text, variables_text};

use cf_tree::{Base, NoMemory, Order, put_number};

/// Puts the word of a base at the end.
pub(crate) fn put_base(out: &mut Vec<u8>, base: Base) -> Result<(), NoMemory>
    ensures { OnOk result (out.new.items ≡ out.old.items ++ base_text base) }
{
    match base {
        Base::Int => out.extend_from_slice(b"int")?,
        Base::Bool => out.extend_from_slice(b"bool")?,
        Base::Set => out.extend_from_slice(b"set")?,
    }
    Ok(())
}

/// Puts the sign of a comparison, with spaces around it, at the end.
pub(crate) fn put_order(out: &mut Vec<u8>, order: Order) -> Result<(), NoMemory>
    ensures { OnOk result (out.new.items ≡ out.old.items ++ order_text order) }
{
    match order {
        Order::Eq => out.extend_from_slice(b" == ")?,
        Order::Ne => out.extend_from_slice(b" != ")?,
        Order::Lt => out.extend_from_slice(b" < ")?,
        Order::Le => out.extend_from_slice(b" <= ")?,
        Order::Gt => out.extend_from_slice(b" > ")?,
        Order::Ge => out.extend_from_slice(b" >= ")?,
    }
    Ok(())
}

/// Puts the name of a level at the end.
pub(crate) fn put_variable(out: &mut Vec<u8>, level: u64) -> Result<(), NoMemory>
    ensures { OnOk result (out.new.items ≡ out.old.items ++ variable_text level) }
{
    out.push(b'v')?;
    put_number(out, level)
}

// As many variables from a level on, a comma and a space before each.
fn put_more_variables(out: &mut Vec<u8>, first: u64, count: u32) -> Result<(), NoMemory>
    requires { first ≤ 2 ^ 32 }
    ensures { OnOk result (out.new.items ≡ out.old.items ++ more_variables first count) }
{
    for i in 0..count {
        out.extend_from_slice(b", ")?;
        put_variable(out, first + i as u64)?;
    }
    Ok(())
}

// Two or more variables of a let.
#[tactic(auto, using(crate::proofs::Variables::several_put))]
fn put_several(out: &mut Vec<u8>, first: u32, count: u32) -> Result<(), NoMemory>
    requires { 2 ≤ count }
    ensures { OnOk result (out.new.items ≡ out.old.items ++ variables_text first count) }
{
    out.push(b'(')?;
    put_variable(out, u64::from(first))?;
    put_more_variables(out, u64::from(first) + 1, count - 1)?;
    out.push(b')')?;
    Ok(())
}

/// The variables of a let, as many as `count`, from a level on.
pub(crate) fn put_variables(out: &mut Vec<u8>, first: u32, count: u32) -> Result<(), NoMemory>
    ensures { OnOk result (out.new.items ≡ out.old.items ++ variables_text first count) }
{
    if count == 0 {
        out.extend_from_slice(b"()")?;
        Ok(())
    } else if count == 1 {
        put_variable(out, u64::from(first))
    } else {
        put_several(out, first, count)
    }
}
