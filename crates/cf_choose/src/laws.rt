//! Laws of chooses that no limit refuses.
ghost use Rattle.cf_choose.specs.Laws.{ArmsSolveAll, ArmsAreTyped, ArmsHaveSpelling};

/// The arms of the definition solve each typed and linear relation that no limit refuses: their needs hold somewhere exactly where some
/// outputs satisfy it, and what they give are such outputs. They are well typed and, over fewer than 2^31 variables, have a spelling.
pub fn arms_solve()
    ensures solve { ArmsSolveAll }
    ensures typed { ArmsAreTyped }
    ensures spelled { ArmsHaveSpelling }
{}
