//! Relations and their cases.
ghost use Rattle.cf_cases.specs.Laws.{HeldByCases};

/// For all values of parameters and outputs a relation without sets holds exactly where the first system of one of its cases is
/// satisfied at these values for some quotients.
pub fn held_by_cases()
    ensures { HeldByCases }
{}
