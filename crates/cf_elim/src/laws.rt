//! Laws of whole eliminations.
ghost use Rattle.cf_elim.specs.Laws.{RunsEnd};

/// The elimination of each system whose unknowns are all different comes to an end of its own: what `run` computes is a trace up to
/// its end, and no refusal stands for steps that were left out.
pub fn runs_end()
    ensures { RunsEnd }
{}
