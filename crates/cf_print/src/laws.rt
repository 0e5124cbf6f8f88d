//! What printed programs have in common, whatever is printed.
ghost use Rattle.cf_print.specs.Names.{NamesAreFree};

/// No new name is taken or reserved.
pub fn names_are_free()
    ensures { NamesAreFree }
{}
