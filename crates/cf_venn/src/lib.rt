//! The sets of a layout and the counts of their regions: each leads to the other.
#![tactic(auto)]

ghost use Rattle.cf_venn.specs.Codes.{FreshCodeMeans, GivesMean, RegionCodesMean, SetCodesMean};
ghost use Rattle.cf_venn.specs.Forms.{FreshCodeFits, RegionCodesFit, SetCodesFit};
ghost use Rattle.cf_venn.specs.Laws.{CountsHaveSets, FreshIsOutside, HeldByCounts, OutputsHaveCounts, SetsHaveCounts, SolvedByCounts};
ghost use Rattle.cf_venn.specs.Lets.{ParametersKnown, RegionLetsLead};
ghost use Rattle.cf_venn.specs.Relations.{HoldsByCounts};

/// Where a relation is solved over counts of regions in the place of sets, nothing is lost: sets have counts, and counts have sets.
pub fn sets_and_counts()
    ensures counts { SetsHaveCounts }
    ensures sets { CountsHaveSets }
    ensures held { HeldByCounts }
    ensures solved { SolvedByCounts }
{}

/// At the values of its parameters and outputs a relation holds exactly where it holds over the numbers and the counts of the regions.
pub fn relation_over_counts()
    ensures { HoldsByCounts }
{}

/// For all counts that are consistent with the input sets, the output sets that are made of them have exactly these counts, and fresh numbers
/// stand in no input set.
pub fn sets_with_counts()
    ensures counts { OutputsHaveCounts }
    ensures fresh { FreshIsOutside }
{}

/// The codes of an arm compute the regions of the inputs, the fresh numbers and the output sets, and so what is made from the counts.
pub fn codes_mean_sets()
    ensures regions { RegionCodesMean }
    ensures lets { RegionLetsLead }
    ensures known { ParametersKnown }
    ensures fresh { FreshCodeMeans }
    ensures pieces { SetCodesMean }
    ensures outputs { GivesMean }
{}

/// These codes are well typed, spelled and not deep.
pub fn codes_have_forms()
    ensures regions { RegionCodesFit }
    ensures fresh { FreshCodeFits }
    ensures pieces { SetCodesFit }
{}
