//! The texts of printed Rust that are the same in each file.

/// What is told of overflow, up to the first line.
pub const PAST: &[u8] = b"/// `Overflow` where a number is past MAX.
pub ";

/// The type of sets.
pub const SETS: &[u8] = b"use std::collections::BTreeSet;
";

/// What takes sets that are lent and sets that are given.
pub const LENT: &[u8] = b"use std::borrow::Borrow;
";

/// Why there are no outputs.
pub const ERROR: &[u8] = b"
/// Why there are no outputs.
#[allow(dead_code)]
#[derive(Clone, Copy, Debug, PartialEq, Eq)]
pub enum ComfusyError {
    /// No outputs satisfy the relation of this choose.
    NoSolution(u32),
    /// A number is past 2^127 - 1 in absolute value.
    Overflow,
}

impl std::fmt::Display for ComfusyError {
    fn fmt(&self, f: &mut std::fmt::Formatter<'_>) -> std::fmt::Result {
        match self {
            ComfusyError::NoSolution(choose) => write!(f, \"no solution at choose {choose}\"),
            ComfusyError::Overflow => write!(f, \"overflow\"),
        }
    }
}

impl std::error::Error for ComfusyError {}
";

/// The check of a number.
pub const FIT: &[u8] = b"
/// The number, where it is at most 2^127 - 1 in absolute value.
fn fit(number: Option<i128>) -> Result<i128, ComfusyError> {
    number
        .filter(|&n| n != i128::MIN)
        .ok_or(ComfusyError::Overflow)
}
";

/// A sum.
pub const ADD: &[u8] = b"
fn add(a: i128, b: i128) -> Result<i128, ComfusyError> {
    fit(a.checked_add(b))
}
";

/// A difference.
pub const SUB: &[u8] = b"
fn sub(a: i128, b: i128) -> Result<i128, ComfusyError> {
    fit(a.checked_sub(b))
}
";

/// A product.
pub const MUL: &[u8] = b"
fn mul(a: i128, b: i128) -> Result<i128, ComfusyError> {
    fit(a.checked_mul(b))
}
";

/// The sum of three numbers or more.
pub const SUM_OF: &[u8] = b"
/// The sum of the parts, where it is at most 2^127 - 1 in absolute value on its way from left to right.
fn sum_of(parts: &[i128]) -> Result<i128, ComfusyError> {
    parts.iter().try_fold(0, |sum, part| add(sum, *part))
}
";

/// The union of sets.
pub const UNION: &[u8] = b"
fn union(a: impl Borrow<BTreeSet<i128>>, b: impl Borrow<BTreeSet<i128>>) -> BTreeSet<i128> {
    a.borrow() | b.borrow()
}
";

/// The intersection of sets.
pub const INTER: &[u8] = b"
fn inter(a: impl Borrow<BTreeSet<i128>>, b: impl Borrow<BTreeSet<i128>>) -> BTreeSet<i128> {
    a.borrow() & b.borrow()
}
";

/// The difference of sets.
pub const DIFF: &[u8] = b"
fn diff(a: impl Borrow<BTreeSet<i128>>, b: impl Borrow<BTreeSet<i128>>) -> BTreeSet<i128> {
    a.borrow() - b.borrow()
}
";

/// Whether a set lies in another.
pub const SUBSET: &[u8] = b"
fn subset(a: impl Borrow<BTreeSet<i128>>, b: impl Borrow<BTreeSet<i128>>) -> bool {
    a.borrow().is_subset(b.borrow())
}
";

/// Whether two sets are the same.
pub const SAME: &[u8] = b"
fn same(a: impl Borrow<BTreeSet<i128>>, b: impl Borrow<BTreeSet<i128>>) -> bool {
    a.borrow() == b.borrow()
}
";

/// How many elements a set has.
pub const CARD: &[u8] = b"
fn card(items: impl Borrow<BTreeSet<i128>>) -> i128 {
    items.borrow().len() as i128
}
";

/// A slice of a set.
pub const SLICE: &[u8] = b"
/// The elements at the places start .. start + count - 1 of the rising list.
fn cut(items: impl Borrow<BTreeSet<i128>>, start: i128, count: i128) -> BTreeSet<i128> {
    let place = |n: i128| usize::try_from(n.max(0)).unwrap_or(usize::MAX);
    items
        .borrow()
        .iter()
        .skip(place(start))
        .take(place(count))
        .copied()
        .collect()
}
";

/// Numbers that are not in a set.
pub const FRESH: &[u8] = b"
/// The least numbers from 0 upwards that are not in the set.
fn fresh(items: impl Borrow<BTreeSet<i128>>, count: i128) -> BTreeSet<i128> {
    let count = usize::try_from(count.max(0)).unwrap_or(usize::MAX);
    let items = items.borrow();
    (0..).filter(|n| !items.contains(n)).take(count).collect()
}
";

/// Behind a parameter that is a number, where it is checked.
pub const FITS: &[u8] = b"))?;
";

/// Between a parameter that is a set and the check of its elements.
pub const EACH_ITEM: &[u8] = b" {
        fit(Some(*item))?;
    }
";

/// How a filter reads values and writes them, up to those of a line.
pub const FILTER: &[u8] = b"
/// What stands in a line, and in a reply.
trait Value: Sized {
    fn read(line: &mut &[u8]) -> Option<Self>;
    fn written(&self) -> String;
}

/// White space, and whether there was some.
fn white(line: &mut &[u8]) -> bool {
    let count = line
        .iter()
        .take_while(|b| **b == b' ' || **b == b'\\t')
        .count();
    *line = &line[count..];
    count > 0
}

fn word(line: &mut &[u8], word: &[u8]) -> bool {
    let rest = line.strip_prefix(word);
    *line = rest.unwrap_or(line);
    rest.is_some()
}

impl Value for i128 {
    fn read(line: &mut &[u8]) -> Option<Self> {
        let is_negative = word(line, b\"-\");
        let count = line.iter().take_while(|b| b.is_ascii_digit()).count();
        let (digits, rest) = line.split_at(count);
        let (first, more) = digits.split_first()?;
        let start = i128::from(first - b'0');
        let value = more.iter().try_fold(start, |value, digit| {
            value.checked_mul(10)?.checked_add(i128::from(digit - b'0'))
        })?;
        *line = rest;
        Some(if is_negative { -value } else { value })
    }

    fn written(&self) -> String {
        self.to_string()
    }
}

impl Value for bool {
    fn read(line: &mut &[u8]) -> Option<Self> {
        if word(line, b\"true\") {
            return Some(true);
        }
        word(line, b\"false\").then_some(false)
    }

    fn written(&self) -> String {
        self.to_string()
    }
}

impl Value for BTreeSet<i128> {
    fn read(line: &mut &[u8]) -> Option<Self> {
        let mut items = BTreeSet::new();
        if !word(line, b\"{\") {
            return None;
        }
        white(line);
        if word(line, b\"}\") {
            return Some(items);
        }
        loop {
            white(line);
            items.insert(Value::read(line)?);
            white(line);
            if word(line, b\"}\") {
                return Some(items);
            }
            if !word(line, b\",\") {
                return None;
            }
        }
    }

    fn written(&self) -> String {
        let items: Vec<String> = self.iter().map(i128::to_string).collect();
        format!(\"{{{}}}\", items.join(\",\"))
    }
}

/// The next value of a line: white space may stand before the first, and has to stand before each other.
#[allow(dead_code)]
fn value<T: Value>(line: &mut &[u8], is_first: bool) -> Option<T> {
    let is_behind_white = white(line);
    if !is_first && !is_behind_white {
        return None;
    }
    T::read(line)
}

fn replied(line: &[u8]) -> Option<String> {
    let mut rest = line;
    let values = (";

/// Behind the values of a line.
pub const REPLY: &[u8] = b");
    white(&mut rest);
    if !rest.is_empty() {
        return None;
    }
    Some(match ";

/// From the call to what a reply holds.
pub const WRITTEN: &[u8] = b" {
        Ok(outputs) => ";

/// Behind several outputs.
pub const JOINED: &[u8] = b"].join(\" \")";

/// Behind what a reply holds.
pub const FILTER_MAIN: &[u8] = b",
        Err(fault) => fault.to_string(),
    })
}

fn reply(line: &[u8]) -> String {
    if line.len() > 65536 {
        return \"line too long\".to_string();
    }
    let spelled = line.strip_suffix(b\"\\r\").unwrap_or(line);
    replied(spelled).unwrap_or_else(|| \"bad input\".to_string())
}

fn main() -> std::io::Result<()> {
    use std::io::{BufRead, Write};
    let mut input = std::io::stdin().lock();
    let mut output = std::io::BufWriter::new(std::io::stdout().lock());
    let mut line = Vec::new();
    while input.read_until(b'\\n', &mut line)? > 0 {
        let text = reply(line.strip_suffix(b\"\\n\").unwrap_or(&line));
        writeln!(output, \"{text}\")?;
        line.clear();
    }
    output.flush()
}
";
