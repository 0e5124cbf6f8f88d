//! Tiers of the grammar.

/// How tightly a form binds, from the loosest to the tightest.
#[derive(Clone, Copy)]
pub enum Tier {
    /// Any expression.
    Whole,
    /// Joined by `==>`, which groups to the right.
    Imps,
    /// Joined by `||`.
    Ors,
    /// Joined by `&&`.
    Ands,
    /// At most one comparison, a chain of them, or `divides`.
    Cmps,
    /// Joined by `+`, `-`, `union` or `diff`.
    Sums,
    /// Joined by `*` or `inter`.
    Muls,
    /// Behind signs, or by itself.
    Unary,
}
