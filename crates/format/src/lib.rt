// The format of the export book: what its text means, and what can be said of every text.
#![tactic(auto)]

ghost use Rattle.format.specs.Format.{AdmittedIsLawful};

// The theorems on the format.
pub fn theorems()
    ensures lawful { AdmittedIsLawful }
{}
