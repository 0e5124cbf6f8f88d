//! What the steps of traces certify.
ghost use Rattle.cf_prove.specs.Laws.{TracedCertifies};

/// The steps of the traces of a choose that no limit refuses certify it.
pub fn traces_certify()
    ensures { TracedCertifies }
{}
