// Why there is no record.
use cpog::refusal::Refusal;
use std::alloc::AllocError;
use std::error::Error;
use std::fmt;

#[derive(Clone, Copy, PartialEq, Eq, Debug)]
pub enum Failure {
    // The check of the procedure was refused.
    Unchecked(Refusal),
    NoMemory,
}

impl From<Refusal> for Failure {
    ghost use Rattle.std.specs.Prelude.{◌≡◌};
    ghost use Rattle.report.specs.declared.failure.Failure.TheVariants.{Unchecked};

    ghost from_gives = { λ refusal failure. failure ≡ Unchecked refusal };

    fn from(refusal: Refusal) -> Self {
        Self::Unchecked(refusal)
    }
}

impl From<AllocError> for Failure {
    ghost use Rattle.std.specs.Prelude.{◌≡◌};
    ghost use Rattle.report.specs.declared.failure.Failure.TheVariants.{NoMemory};

    ghost from_gives = { λ _ failure. failure ≡ NoMemory };

    fn from(_lack: AllocError) -> Self {
        Self::NoMemory
    }
}

impl fmt::Display for Failure {
    ghost use Rattle.std.specs.Prelude.{Some};
    ghost use Rattle.report.specs.Failures.{message};

    ghost output = { λ failure. Some (message failure) };

    fn fmt<W: fmt::Write>(&self, f: &mut fmt::Formatter<W>) -> fmt::Result {
        match self {
            Failure::Unchecked(refusal) => write!(f, "the check was refused: {}", refusal.number()),
            Failure::NoMemory => write!(f, "no memory left"),
        }
    }
}

impl Error for Failure {}
