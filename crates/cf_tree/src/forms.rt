//! Patterns that stand for all forms of one shape.

/// Code with no parts.
#[macro_export]
macro_rules! code_leaf {
    () => {
        $crate::Code::Lit(_) | $crate::Code::Truth(_) | $crate::Code::Var(_)
    };
}

/// Code over a list of parts.
#[macro_export]
macro_rules! code_over_list {
    ($parts:ident) => {
        $crate::Code::SetOf($parts)
            | $crate::Code::Tuple($parts)
            | $crate::Code::Sum($parts)
            | $crate::Code::Min($parts)
            | $crate::Code::Max($parts)
            | $crate::Code::Union($parts)
            | $crate::Code::Inter($parts)
    };
}

/// Code over one part.
#[macro_export]
macro_rules! code_over_one {
    ($a:ident) => {
        $crate::Code::Neg($a)
            | $crate::Code::Not($a)
            | $crate::Code::Card($a)
            | $crate::Code::Div { of: $a, .. }
            | $crate::Code::Mod { of: $a, .. }
            | $crate::Code::Divides { of: $a, .. }
    };
}

/// Code over two parts, among them `Let`.
#[macro_export]
macro_rules! code_over_two {
    ($a:ident, $b:ident) => {
        $crate::Code::Sub($a, $b)
            | $crate::Code::Mul($a, $b)
            | $crate::Code::And($a, $b)
            | $crate::Code::Or($a, $b)
            | $crate::Code::Diff($a, $b)
            | $crate::Code::Subset($a, $b)
            | $crate::Code::Compare { left: $a, right: $b, .. }
            | $crate::Code::Fresh { avoid: $a, n: $b }
            | $crate::Code::Let { value: $a, body: $b, .. }
    };
}

/// Code over three parts.
#[macro_export]
macro_rules! code_over_three {
    ($a:ident, $b:ident, $c:ident) => {
        $crate::Code::Slice { set: $a, from: $b, n: $c }
            | $crate::Code::If { test: $a, yes: $b, no: $c }
    };
}

/// An expression with no parts.
#[macro_export]
macro_rules! expr_leaf {
    () => {
        $crate::Expr::Lit(_) | $crate::Expr::Truth(_) | $crate::Expr::Var(_)
    };
}

/// An expression over a list of parts, among them `Call` and not `Chain`.
#[macro_export]
macro_rules! expr_over_list {
    ($parts:ident) => {
        $crate::Expr::SetOf($parts)
            | $crate::Expr::Tuple($parts)
            | $crate::Expr::Min($parts)
            | $crate::Expr::Max($parts)
            | $crate::Expr::Call { args: $parts, .. }
    };
}

/// An expression over one part.
#[macro_export]
macro_rules! expr_over_one {
    ($a:ident) => {
        $crate::Expr::Neg($a)
            | $crate::Expr::Not($a)
            | $crate::Expr::Abs($a)
            | $crate::Expr::Card($a)
            | $crate::Expr::Divides { of: $a, .. }
            | $crate::Expr::Div { of: $a, .. }
            | $crate::Expr::Mod { of: $a, .. }
    };
}

/// An expression over two parts, among them `Let`.
#[macro_export]
macro_rules! expr_over_two {
    ($a:ident, $b:ident) => {
        $crate::Expr::Binary { left: $a, right: $b, .. }
            | $crate::Expr::Let { value: $a, body: $b, .. }
    };
}

/// A form as it is read, with no parts.
#[macro_export]
macro_rules! raw_leaf {
    () => {
        $crate::RawNode::Lit(_) | $crate::RawNode::Truth(_) | $crate::RawNode::Name(_)
    };
}

/// A form as it is read, over a list of parts, among them `Call` and not `Chain`.
#[macro_export]
macro_rules! raw_over_list {
    ($parts:ident) => {
        $crate::RawNode::SetOf($parts)
            | $crate::RawNode::Tuple($parts)
            | $crate::RawNode::Min($parts)
            | $crate::RawNode::Max($parts)
            | $crate::RawNode::Call { args: $parts, .. }
    };
}

/// A form as it is read, over one part, among them not `Group`.
#[macro_export]
macro_rules! raw_over_one {
    ($a:ident) => {
        $crate::RawNode::Neg($a)
            | $crate::RawNode::Not($a)
            | $crate::RawNode::Abs($a)
            | $crate::RawNode::Card($a)
    };
}

/// A form as it is read, over one part and a number.
#[macro_export]
macro_rules! raw_over_number {
    ($a:ident) => {
        $crate::RawNode::Divides { of: $a, .. }
            | $crate::RawNode::Div { of: $a, .. }
            | $crate::RawNode::Mod { of: $a, .. }
    };
}

/// A form as it is read, over two parts, among them `Let`.
#[macro_export]
macro_rules! raw_over_two {
    ($a:ident, $b:ident) => {
        $crate::RawNode::Binary { left: $a, right: $b, .. }
            | $crate::RawNode::Let { value: $a, body: $b, .. }
    };
}

/// A number form over one number form.
#[macro_export]
macro_rules! term_over_one {
    ($a:ident) => {
        $crate::Term::Neg($a)
            | $crate::Term::Div($a, _)
            | $crate::Term::Mod($a, _)
            | $crate::Term::Abs($a)
    };
}
