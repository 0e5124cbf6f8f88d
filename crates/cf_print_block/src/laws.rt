//! What holds of the functions for parts of every program.
ghost use Rattle.cf_print_block.specs.Statements.{ParametersDiffer};

/// The parameters of a function for a part of a program differ from each other.
pub fn parameters_differ()
    ensures { ParametersDiffer }
{}
