//! The languages in which programs are printed.

/// A language in which programs are printed.
#[derive(Clone, Copy, Debug, PartialEq, Eq)]
pub enum Language {
    C,
    Python,
    JavaScript,
    Rust,
}
