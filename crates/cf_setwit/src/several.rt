//! One code alone, or several together.
ghost use Rattle.std.specs.Prelude.{◌≡◌, map};
ghost use Rattle.cf_tree.specs.CodeView.{code_tree};
ghost use Rattle.cf_linear.specs.Arm.{sum_of, inter_of_all, union_of_all};

use cf_tree::Code;

/// One code alone, or the sum of several, and 0 for none.
pub fn sum_of(codes: Vec<Code>) -> Code
    ensures { code_tree result ≡ sum_of (map code_tree codes.items) }
{
    let mut codes = codes;
    if codes.len() > 1 {
        return Code::Sum(codes);
    }
    match codes.pop() {
        Some(code) => code,
        None => Code::Lit(0),
    }
}

/// One code alone, or what several have in common, and the empty set for none.
pub fn inter_of_all(codes: Vec<Code>) -> Code
    ensures { code_tree result ≡ inter_of_all (map code_tree codes.items) }
{
    let mut codes = codes;
    if codes.len() > 1 {
        return Code::Inter(codes);
    }
    match codes.pop() {
        Some(code) => code,
        None => Code::SetOf(codes),
    }
}

/// One code alone, or the union of several, and the empty set for none.
pub fn union_of_all(codes: Vec<Code>) -> Code
    ensures { code_tree result ≡ union_of_all (map code_tree codes.items) }
{
    let mut codes = codes;
    if codes.len() > 1 {
        return Code::Union(codes);
    }
    match codes.pop() {
        Some(code) => code,
        None => Code::SetOf(codes),
    }
}
