//! What holds of every run.
ghost use Rattle.model.specs.Runs.{GrantedSuffice, GrantedTaken, NewRuns};

/// Of any calls, refused ones among them, the granted ones suffice: alone and in order they lead to the same end
/// and each is granted again, and as a list of steps they are taken whole.
pub fn granted_steps_suffice()
    ensures calls { GrantedSuffice }
    ensures bytes { GrantedTaken }
    ensures runs { NewRuns }
{}
