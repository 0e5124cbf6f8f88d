//! What printed expressions have in common, whatever is printed.
ghost use Rattle.cf_print_term.specs.Reading.{TextsReadBack};

/// The text of each term is that of tokens in which one reader finds the term again.
pub fn texts_read_back()
    ensures { TextsReadBack }
{}
