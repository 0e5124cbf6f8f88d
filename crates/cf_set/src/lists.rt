// Strictly rising lists of numbers.
ghost use Rattle.std.specs.Prelude.{◌≡◌, ◌<◌, ◌≤◌, min, drop, length, ◌∷◌, [], ◌++◌, ◌^◌, cond, IfOk, OnOk, pos};
ghost use Rattle.cf_set.specs.Fresh.{cmp_first};
ghost use Rattle.cf_tree.specs.Numbers.{count_of};
ghost use Rattle.cf_tree.specs.Values.{same_list};
ghost use Rattle.cf_tree.specs.Sets.{IsRising, AreWithin, has, set_union, set_of, set_inter, set_diff, is_subset, set_slice, set_fresh};

use cf_tree::NoMemory;
use std::alloc::Global;
use std::cmp::Ordering;

// The items in order, each once.
pub fn sorted(alloc: Global, items: &[i128]) -> Result<Vec<i128>, NoMemory>
    ensures { IfOk result (λ v. v.items ≡ set_of items.now) }
{
    let mut all = Vec::from_slice(alloc, items)?;
    all.sort_unstable();
    all.dedup();
    Ok(all)
}

pub fn has(items: &[i128], x: &i128) -> bool
    requires { IsRising items.now }
    ensures { result ≡ has items.now x.now }
{
    items.binary_search(x).is_ok()
}

pub fn union(alloc: Global, a: &[i128], b: &[i128]) -> Result<Vec<i128>, NoMemory>
    requires a_rises { IsRising a.now }
    requires b_rises { IsRising b.now }
    requires a_within { AreWithin a.now }
    requires b_within { AreWithin b.now }
    ensures { IfOk result (λ v. v.items ≡ set_union a.now b.now) }
{
    let mut out = Vec::new(alloc);
    let mut i: usize = 0;
    let mut j: usize = 0;
    while i < a.len() && j < b.len() {
        if a[i] < b[j] {
            out.push(a[i])?;
            i += 1;
        } else if b[j] < a[i] {
            out.push(b[j])?;
            j += 1;
        } else {
            out.push(a[i])?;
            i += 1;
            j += 1;
        }
    }
    out.extend_from_slice(&a[i..])?;
    out.extend_from_slice(&b[j..])?;
    Ok(out)
}

// Adds the number where it is wanted.
fn push_if(out: &mut Vec<i128>, x: &i128, wanted: bool) -> Result<(), NoMemory>
    ensures { OnOk result (out.new.items ≡ out.old.items ++ cond wanted (x.now ∷ []) []) }
{
    if wanted {
        out.push(*x)?;
    }
    Ok(())
}

pub fn inter(alloc: Global, a: &[i128], b: &[i128]) -> Result<Vec<i128>, NoMemory>
    requires { IsRising b.now }
    ensures { IfOk result (λ v. v.items ≡ set_inter a.now b.now) }
{
    let mut out = Vec::new(alloc);
    for x in a {
        let wanted = has(b, x);
        push_if(&mut out, x, wanted)?;
    }
    Ok(out)
}

pub fn diff(alloc: Global, a: &[i128], b: &[i128]) -> Result<Vec<i128>, NoMemory>
    requires { IsRising b.now }
    ensures { IfOk result (λ v. v.items ≡ set_diff a.now b.now) }
{
    let mut out = Vec::new(alloc);
    for x in a {
        let wanted = !has(b, x);
        push_if(&mut out, x, wanted)?;
    }
    Ok(out)
}

// The number as a count, and `most` where it is greater.
fn count_up_to(n: i128, most: usize) -> usize
    ensures { result ≡ min (count_of n) most }
{
    if n <= 0 {
        0
    } else if n < most as i128 {
        n as usize
    } else {
        most
    }
}

pub fn slice(alloc: Global, items: &[i128], from: i128, n: i128) -> Result<Vec<i128>, NoMemory>
    ensures { IfOk result (λ v. v.items ≡ set_slice items.now (count_of from) (count_of n)) }
{
    let start = count_up_to(from, items.len());
    let rest = &items[start..];
    let size = count_up_to(n, rest.len());
    Ok(Vec::from_slice(alloc, &rest[..size])?)
}

pub fn subset(a: &[i128], b: &[i128]) -> bool
    requires { IsRising b.now }
    ensures { result ≡ is_subset a.now b.now }
{
    for x in a {
        if !has(b, x) {
            return false;
        }
    }
    true
}

pub fn same(a: &[i128], b: &[i128]) -> bool
    ensures { result ≡ same_list a.now b.now }
{
    a == b
}

// Room for as many numbers. A count that no vector holds is want of memory.
fn room_for(alloc: Global, n: i128) -> Result<Vec<i128>, NoMemory>
    ensures empty { IfOk result (λ v. v.items ≡ []) }
    ensures size { OnOk result (count_of n < 2 ^ 64) }
{
    if n <= 0 {
        return Ok(Vec::new(alloc));
    }
    match usize::try_from(n) {
        Ok(size) => Ok(Vec::with_capacity(alloc, size)?),
        Err(_) => Err(NoMemory),
    }
}

// How the first of the items stands to x; where there is none, as a greater one.
fn cmp_first(items: &[i128], x: i128) -> Ordering
    ensures { result ≡ cmp_first items.now x }
{
    match items.first() {
        Some(y) => y.cmp(&x),
        None => Ordering::Greater,
    }
}

fn without_first(items: &[i128]) -> &[i128]
    requires { 1 ≤ length items.now }
    ensures { result.now ≡ drop 1 items.now }
{
    &items[1..]
}

// The numbers from 0 upwards are tried beside the rising list, of which `rest` is what is not passed yet.
pub fn fresh(alloc: Global, avoid: &[i128], n: i128) -> Result<Vec<i128>, NoMemory>
    requires rises { IsRising avoid.now }
    requires size { length avoid.now < 2 ^ 64 }
    ensures value { IfOk result (λ v. v.items ≡ set_fresh avoid.now (count_of n)) }
    ensures fits { IfOk result (λ v. AreWithin v.items) }
{
    let mut out = room_for(alloc, n)?;
    let mut rest = avoid;
    let mut next: i128 = 0;
    while (out.len() as i128) < n {
        match cmp_first(rest, next) {
            Ordering::Less => rest = without_first(rest),
            Ordering::Equal => {
                rest = without_first(rest);
                next += 1;
            }
            Ordering::Greater => {
                out.push(next)?;
                next += 1;
            }
        }
    }
    Ok(out)
}
