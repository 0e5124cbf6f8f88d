//! What a certificate promises.
ghost use Rattle.cf_cert.specs.Laws.{CertifiedMeans, CertifiedIsTyped, CertifiedWithoutFault, OneVerdict, SpelledIsWithin};

/// The target of a block that certifies a choose means, in each environment of the choose's scope,
/// values that satisfy its relation, or that there are none exactly where there are none, and it is well
/// typed. Such a block has no fault, and blocks have one verdict. The numbers of steps that a steps file
/// spells are within the limit of numbers.
#[tactic(auto, using(crate::proofs::CertifiedArms::certified_means, crate::proofs::JudgeLaws::certified_without_fault, crate::proofs::JudgeLaws::one_verdict, crate::proofs::SpelledLaws::spelled_within))]
pub fn certificates_hold()
    ensures means { CertifiedMeans }
    ensures typed { CertifiedIsTyped }
    ensures faultless { CertifiedWithoutFault }
    ensures one { OneVerdict }
    ensures spelled { SpelledIsWithin }
{}
