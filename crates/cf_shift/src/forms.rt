//! A pattern that stands for all forms of one shape, as those of `cf_tree`.

/// Code over two operands, which is code over two parts but for `Let`.
#[macro_export]
macro_rules! code_over_operands {
    ($a:ident, $b:ident) => {
        cf_tree::Code::Sub($a, $b)
            | cf_tree::Code::Mul($a, $b)
            | cf_tree::Code::And($a, $b)
            | cf_tree::Code::Or($a, $b)
            | cf_tree::Code::Diff($a, $b)
            | cf_tree::Code::Subset($a, $b)
            | cf_tree::Code::Compare { left: $a, right: $b, .. }
            | cf_tree::Code::Fresh { avoid: $a, n: $b }
    };
}
