ghost use Rattle.std.specs.Prelude.{◌≡◌};

use fta_outside::WriteError;
use plain_values::{Name, Refusal, Stop};
use std::alloc::{AllocError, AllocFailed};

/// How a run ended.
#[derive(Drop)]
pub enum Status {
    /// All input was read and all output was taken.
    Done,
    /// All input was read and all output was taken, and it tells of a requirement that is not met.
    Unmet,
    /// The words give no command.
    Usage,
    /// The words or the texts are refused.
    Refused(Refusal),
    /// The target of a tree holds under no event at all (true), or fails under all of them (false), so it has no tree.
    Constant(bool),
    /// An event of a tree has no rate, where each must have one: the name of the first such event.
    Unrated(Name),
    /// A page token names another input: the digits of its key, and those of the key of what the words ask for.
    StaleToken { token: [u8; 64], input: [u8; 64] },
    /// The file word of this number, counted from 0, could not be read.
    ReadFault(u32),
    /// A write to the output failed.
    WriteFault,
    /// The chosen report of this place in the handed-in list, counted from 0, failed.
    ReportFault(u32),
    /// Memory was wanting.
    Memory,
}

impl Status {
    ghost use Rattle.phases.specs.inner.Status.{exit_number};

    /// The number with which the program ends.
    pub fn exit(&self) -> u8
        ensures { result ≡ exit_number self.now }
    {
        match self {
            Status::Done => 0,
            Status::Usage => 1,
            Status::Refused(_) => 2,
            Status::StaleToken { .. } => 2,
            Status::Unrated(_) => 2,
            Status::Constant(_) => 3,
            Status::ReadFault(_) => 4,
            Status::WriteFault => 5,
            Status::ReportFault(_) => 6,
            Status::Memory => 7,
            Status::Unmet => 8,
        }
    }
}

impl From<AllocError> for Status {
    ghost use Rattle.phases.specs.declared.status.Status.TheVariants.{Memory};

    ghost from_gives = { λ _ status. status ≡ Memory };

    fn from(_error: AllocError) -> Status {
        Status::Memory
    }
}

impl<T: Drop> From<AllocFailed<T>> for Status {
    ghost use Rattle.phases.specs.declared.status.Status.TheVariants.{Memory};

    ghost from_gives = { λ _ status. status ≡ Memory };

    fn from(_error: AllocFailed<T>) -> Status {
        Status::Memory
    }
}

impl From<WriteError> for Status {
    ghost use Rattle.phases.specs.inner.Stopped.{status_of_write};

    ghost from_gives = { λ error status. status ≡ status_of_write error };

    fn from(error: WriteError) -> Status {
        match error {
            WriteError::Failed => Status::WriteFault,
            WriteError::Memory => Status::Memory,
        }
    }
}

impl From<Refusal> for Status {
    ghost use Rattle.phases.specs.declared.status.Status.TheVariants.{Refused};

    ghost from_gives = { λ refusal status. status ≡ Refused refusal };

    fn from(refusal: Refusal) -> Status {
        Status::Refused(refusal)
    }
}

impl From<Stop> for Status {
    ghost use Rattle.phases.specs.inner.Stopped.{status_of};

    ghost from_gives = { λ stop status. status ≡ status_of stop };

    fn from(stop: Stop) -> Status {
        match stop {
            Stop::Refused(refusal) => Status::Refused(refusal),
            Stop::Memory => Status::Memory,
        }
    }
}
