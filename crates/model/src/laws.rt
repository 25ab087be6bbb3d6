//! What is proved of the definitions themselves.
ghost use Rattle.model.specs.Examples.{SmallTables};
ghost use Rattle.model.specs.Encoding.{EncodedIsReadBack, ReadIsEncodedBack};
ghost use Rattle.model.specs.Sanity.{OtherThreadsStay, RefusedStepsLeaveTheRun, LimitsOnlyRefuse, SoundStays, DrainsKeepLooks, RoundsAreStretches};

/// What is encoded is read back, and what is read is encoded back: a table and its program say the same.
#[tactic(auto, using(crate::proofs::ReadBack::encoded_is_read_back, crate::proofs::EncodedBack::read_is_encoded_back))]
pub fn coding_is_exact()
    ensures encoded { EncodedIsReadBack }
    ensures read { ReadIsEncodedBack }
{}

/// The worked examples: every line follows from the definitions.
#[tactic(auto, using(crate::proofs::Examples::small_tables_lem))]
pub fn small_tables()
    ensures { SmallTables }
{}

/// A step granted to one thread leaves every other thread as it was.
#[tactic(auto, using(crate::proofs::PlainLaws::other_threads_stay_lem))]
pub fn other_threads_stay()
    ensures { OtherThreadsStay }
{}

/// A refused step leaves the run as it was.
#[tactic(auto, using(crate::proofs::PlainLaws::refused_steps_leave_the_run_lem))]
pub fn refused_steps_leave_the_run()
    ensures { RefusedStepsLeaveTheRun }
{}

/// A limit of depth only refuses: what is accepted with it is accepted without it, with the same end.
pub fn limits_only_refuse()
    ensures { LimitsOnlyRefuse }
{}

/// A cleared memory is sound, and every call that changes a memory leaves a sound one sound.
#[tactic(auto, using(crate::proofs::MemoryLaws::sound_stays))]
pub fn memories_stay_sound()
    ensures { SoundStays }
{}

/// A drain keeps what its thread looks up.
#[tactic(auto, using(crate::proofs::MemoryLaws::drains_keep_looks_lem))]
pub fn drains_keep_looks()
    ensures { DrainsKeepLooks }
{}

/// A thread's rounds are the longest stretches of neighbouring lines of that thread.
#[tactic(auto, using(crate::proofs::Stretches::rounds_are_stretches_lem))]
pub fn rounds_are_stretches()
    ensures { RoundsAreStretches }
{}
