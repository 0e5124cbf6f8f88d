//! The words and signs of printed relations.
ghost use Rattle.std.specs.Prelude.{◌≡◌, ◌++◌, OnOk};
ghost use Rattle.cf_tree.specs.RelView.{set_tree, term_tree};
ghost use Rattle.cf_emit.specs.Printed.{order_text};
ghost use Rattle.cf_relation_text.specs.RelationText.{name_of, set_sign, term_sign, byte_if};

use cf_tree::{NoMemory, Order, SetTerm, Term, Text};

/// Puts the sign of a comparison, with spaces around it, at the end.
pub(crate) fn put_order(out: &mut Vec<u8>, order: Order) -> Result<(), NoMemory>
    ensures { OnOk result (out.new.items ≡ out.old.items ++ order_text order) }
{
    match order {
        Order::Eq => out.extend_from_slice(b" == ")?,
        Order::Ne => out.extend_from_slice(b" != ")?,
        Order::Lt => out.extend_from_slice(b" < ")?,
        Order::Le => out.extend_from_slice(b" <= ")?,
        Order::Gt => out.extend_from_slice(b" > ")?,
        Order::Ge => out.extend_from_slice(b" >= ")?,
    }
    Ok(())
}

/// Puts the name of the variable with a level at the end.
pub(crate) fn put_name(out: &mut Vec<u8>, names: &[Text], level: u32) -> Result<(), NoMemory>
    ensures { OnOk result (out.new.items ≡ out.old.items ++ name_of names.now level) }
{
    match names.get(level as usize) {
        Some(name) => {
            out.extend_from_slice(&name.bytes)?;
            Ok(())
        }
        None => Ok(()),
    }
}

/// Puts what stands between the two parts of a set form.
pub(crate) fn put_set_sign(out: &mut Vec<u8>, set: &SetTerm) -> Result<(), NoMemory>
    ensures { OnOk result (out.new.items ≡ out.old.items ++ set_sign (set_tree set.now)) }
{
    match set {
        SetTerm::Union(_, _) => out.extend_from_slice(b" union ")?,
        SetTerm::Inter(_, _) => out.extend_from_slice(b" inter ")?,
        SetTerm::Diff(_, _) => out.extend_from_slice(b" diff ")?,
        SetTerm::Empty | SetTerm::Var(_) => {}
    }
    Ok(())
}

/// Puts what stands between the two parts of a number form.
pub(crate) fn put_term_sign(out: &mut Vec<u8>, term: &Term) -> Result<(), NoMemory>
    ensures { OnOk result (out.new.items ≡ out.old.items ++ term_sign (term_tree term.now)) }
{
    match term {
        Term::Add(_, _) => out.extend_from_slice(b" + ")?,
        Term::Sub(_, _) => out.extend_from_slice(b" - ")?,
        Term::Mul(_, _) => out.extend_from_slice(b" * ")?,
        Term::Lit(_)
        | Term::Var(_)
        | Term::Card(_)
        | Term::Neg(_)
        | Term::Div(_, _)
        | Term::Mod(_, _)
        | Term::Abs(_) => {}
    }
    Ok(())
}

/// Puts a byte, where it is wanted, at the end.
pub(crate) fn put_if(out: &mut Vec<u8>, byte: u8, wanted: bool) -> Result<(), NoMemory>
    ensures { OnOk result (out.new.items ≡ out.old.items ++ byte_if byte wanted) }
{
    if wanted {
        out.push(byte)?;
    }
    Ok(())
}
