//! Parts of codes.
ghost use Rattle.std.specs.Prelude.{◌≡◌, codes, nat_eq, nat_le, ◌||◌};
ghost use Rattle.cf_lex.specs.declared.token.TokenKind.TheVariants.{Sign};
ghost use Rattle.cf_tree.specs.CodeTree.{code_depth};
ghost use Rattle.cf_tree.specs.CodeView.{code_tree};
ghost use Rattle.cf_reader.specs.Answers.{ReadAnswer, FirstAnswer};
ghost use Rattle.cf_reader.specs.Readers.{at, bind, is, must, pure};
ghost use Rattle.cf_target.specs.Reading.{lone_literal as lone_literal_of, divides_by as divides_by_of, negative_of};

use cf_lex::Token;
use cf_reader::{ReadStop, after_word, expect_literal, expect_sign, negated};
use cf_tree::{Code, without};

// Whether the depth of a code is at most `n`.
fn is_within(code: &Code, n: u32) -> bool
    ensures { result ≡ nat_le (code_depth (code_tree code.now)) n }
{
    code.depth() <= u64::from(n)
}

/// Whether an operation may follow a first part of depth at most `m`, where its parts may have
/// depth `n`.
pub fn may_operate(m: u32, n: u32, first: &Code) -> bool
    ensures { result ≡ (nat_eq m n || nat_le (code_depth (code_tree first.now)) n) }
{
    m == n || is_within(first, n)
}

// A literal that stands alone.
fn lone_literal(code: &Code) -> Option<i128>
    ensures { result ≡ lone_literal_of (code_tree code.now) }
{
    match code {
        Code::Lit(k) => Some(*k),
        _ => None,
    }
}

/// The literal of at least 1 that `left` is, if the word `divides` stands first, and the tokens
/// after it; the part may have depth `n`.
#[tactic(auto, unfolding(cf_reader::specs::Readers::at, crate::specs::Reading::divides_by))]
pub fn divides_by<'a>(n: u32, left: &Code, tokens: &'a [Token]) -> Option<(i128, &'a [Token])>
    ensures { FirstAnswer (λ x. (x.0, x.1.now)) result (at (divides_by_of n (code_tree left.now)) tokens.now) }
{
    let k = lone_literal(left)?;
    let (_, rest) = after_word("divides", tokens)?;
    if 1 <= k && 1 <= n {
        Some((k, rest))
    } else {
        None
    }
}

/// Behind a minus.
#[tactic(auto, unfolding(cf_reader::specs::Readers::bind, cf_reader::specs::Readers::pure, crate::specs::Reading::negative_of))]
pub fn negative(tokens: &[Token]) -> Result<(Code, &[Token]), ReadStop>
    ensures { ReadAnswer (λ x. (code_tree x.0, x.1.now)) result (negative_of tokens.now) }
{
    let ((_, k), rest) = expect_literal(1, tokens)?;
    Ok((Code::Lit(negated(k)), rest))
}

/// The code, where a closing parenthesis stands behind it, and the tokens after it.
#[tactic(auto, unfolding(cf_reader::specs::Readers::bind, cf_reader::specs::Readers::pure))]
pub fn closed(code: Code, tokens: &[Token]) -> Result<(Code, &[Token]), ReadStop>
    ensures { ReadAnswer (λ x. (code_tree x.0, x.1.now)) result (bind (must (is (Sign (codes ")")))) (λ p. pure (code_tree code)) tokens.now) }
{
    match expect_sign(")", tokens) {
        Ok((_, rest)) => Ok((code, rest)),
        Err(stop) => Err(without(code, stop)),
    }
}
