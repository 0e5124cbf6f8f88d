//! What holds of the names in every printed program.
#![tactic(auto)]

ghost use Rattle.cf_print_scopes.specs.Files.{NamesOfFilesDiffer};
ghost use Rattle.cf_print_scopes.specs.Scopes.{NamesDiffer};

/// The names in one scope of the statements of a block differ from each other, and none of them is reserved.
pub fn names_differ()
    ensures { NamesDiffer }
{}

/// In each function of a file the names in one scope differ from each other, and none of them is reserved.
pub fn names_of_files_differ()
    ensures { NamesOfFilesDiffer }
{}
