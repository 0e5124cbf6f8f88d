//! Sets on a line.
ghost use Rattle.std.specs.Prelude.{◌≡◌, ◌+◌, ◌^◌, ◌<◌, ◌≤◌, [], ◌==◌, length, All, OnOk, IfOk};
ghost use Rattle.std.specs.List.{prefix_len, slice_split};
ghost use Rattle.cf_num.specs.Limit.{IsWithin};
ghost use Rattle.cf_eval.specs.Reading.{added, item_at, items_from, body_at, braces_at, is_before_brace, set_at, set_read, ReadAnswer};
ghost use Rattle.cf_eval.specs.Seen.{plain, IsFit};

use crate::fault::LineFault;
use crate::number::item;
use crate::runs::{behind, brace_at, comma_at, is_blank};
use crate::value::Value;
use cf_set::Set;
use std::alloc::Global;

fn add_item(items: &mut Vec<i128>, text: &[u8], limit: u128) -> Result<(), LineFault>
    requires { limit < 2 ^ 127 }
    ensures added { ReadAnswer (λ _. items.new.items) result (added items.old.items (item_at limit text.now)) }
    ensures fits { OnOk result (All IsWithin items.old.items → All IsWithin items.new.items) }
{
    match item(text, limit) {
        None => Err(LineFault::BadInput),
        Some(z) => {
            items.push(z)?;
            Ok(())
        }
    }
}

/// The numbers between the commas.
fn items(alloc: Global, body: &[u8], limit: u128) -> Result<Vec<i128>, LineFault>
    requires { limit < 2 ^ 127 }
    ensures value { ReadAnswer (λ v. v.items) result (items_from limit (slice_split (λ b. b == 44) body.now) []) }
    ensures fits { IfOk result (λ v. All IsWithin v.items) }
{
    let mut items = Vec::new(alloc);
    let mut rest = body;
    'items: loop {
        let n = comma_at(rest);
        add_item(&mut items, &rest[..n], limit)?;
        if rest.len() <= n {
            return Ok(items);
        }
        rest = behind(rest, n);
    }
}

fn body(alloc: Global, text: &[u8], limit: u128) -> Result<Vec<i128>, LineFault>
    requires { limit < 2 ^ 127 }
    ensures value { ReadAnswer (λ v. v.items) result (body_at limit text.now) }
    ensures fits { IfOk result (λ v. All IsWithin v.items) }
{
    if is_blank(text) {
        Ok(Vec::new(alloc))
    } else {
        items(alloc, text, limit)
    }
}

// The set whose elements stand in the text, and the rest.
fn elements<'a>(
    alloc: Global,
    text: &[u8],
    rest: &'a [u8],
    limit: u128,
) -> Result<(Value, &'a [u8]), LineFault>
    requires { limit < 2 ^ 127 }
    ensures value { ReadAnswer (λ x. (plain x.0, x.1.now)) result (set_read rest.now (body_at limit text.now)) }
    ensures fits { IfOk result (λ x. IsFit x.0) }
{
    let items = body(alloc, text, limit)?;
    let set = Set::from_list(alloc, &items)?;
    Ok((Value::Elements(set), rest))
}

// The set whose elements stand in a text up to its closing brace, and the rest.
fn closed(alloc: Global, text: &[u8], limit: u128) -> Result<(Value, &[u8]), LineFault>
    requires { limit < 2 ^ 127 }
    ensures value { ReadAnswer (λ x. (plain x.0, x.1.now)) result (braces_at limit (prefix_len is_before_brace text.now) text.now) }
    ensures fits { IfOk result (λ x. IsFit x.0) }
{
    let n = brace_at(text);
    if n < text.len() {
        elements(alloc, &text[..n], behind(text, n), limit)
    } else {
        Err(LineFault::BadInput)
    }
}

/// The set at the front of a text, and the rest.
pub(crate) fn set(alloc: Global, text: &[u8], limit: u128) -> Result<(Value, &[u8]), LineFault>
    requires { limit < 2 ^ 127 }
    ensures value { ReadAnswer (λ x. (plain x.0, x.1.now)) result (set_at limit text.now) }
    ensures fits { IfOk result (λ x. IsFit x.0) }
{
    match text {
        [b'{', inside @ ..] => closed(alloc, inside, limit),
        _ => Err(LineFault::BadInput),
    }
}
