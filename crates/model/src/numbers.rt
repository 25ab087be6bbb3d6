//! A number that names nothing, and a test that refuses.
ghost use Rattle.std.specs.Prelude.{◌≡◌};
ghost use Rattle.model.specs.Steps.{demand};

/// A number that names no value of the type that was asked for.
#[derive(Clone, Copy, Debug, PartialEq, Eq)]
pub struct Unknown(pub u8);

/// Goes on if the test holds, refuses by the fault otherwise.
pub fn require<E: Drop>(test: bool, fault: E) -> Result<(), E>
    ensures { result ≡ demand test fault }
{
    if test { Ok(()) } else { Err(fault) }
}
