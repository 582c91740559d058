// The worked samples, as one theorem on a contract.
ghost use Rattle.checker.specs.Samples.{SamplesHold};

// Every row of the table of samples holds of the definitions that the contracts cite.
pub fn samples_hold()
    ensures { SamplesHold }
{}
