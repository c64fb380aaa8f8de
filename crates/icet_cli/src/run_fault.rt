use crate::status::Status;
use icet_base::{NoMemory as WantOfMemory, ReadFault, WriteFault};
use icet_jobs::JobFault;
use icet_scene::SceneFault;
use std::alloc::AllocError;

/// Why a run ended without its whole text.
#[derive(Clone, Copy, Debug, PartialEq, Eq)]
pub enum RunFault {
    /// The words are no command.
    Words,
    /// The source failed.
    Read,
    /// The source's bytes are no scene.
    Scene(SceneFault),
    /// The sink failed.
    Write,
    /// Memory was wanted and not there.
    NoMemory,
}

impl RunFault {
    ghost use Rattle.std.specs.Prelude.{◌≡◌};
    ghost use Rattle.icet_cli.specs.FaultNotes.{status_of};

    /// The status that a run with this fault ends with.
    pub fn status(self) -> Status
        ensures { result ≡ status_of self }
    {
        match self {
            RunFault::Words => Status::WordsRefused,
            RunFault::Read => Status::ReadFault,
            RunFault::Scene(_) => Status::SceneRefused,
            RunFault::Write => Status::WriteFault,
            RunFault::NoMemory => Status::NoMemory,
        }
    }
}

impl From<ReadFault> for RunFault {
    ghost use Rattle.std.specs.Prelude.{◌≡◌};
    ghost use Rattle.icet_cli.specs.declared.run_fault.RunFault.TheVariants.{Read};

    ghost from_gives = { λ _ e. e ≡ Read };

    fn from(_fault: ReadFault) -> RunFault {
        RunFault::Read
    }
}

impl From<SceneFault> for RunFault {
    ghost use Rattle.std.specs.Prelude.{◌≡◌};
    ghost use Rattle.icet_cli.specs.FaultNotes.{of_scene};

    ghost from_gives = { λ fault e. e ≡ of_scene fault };

    fn from(fault: SceneFault) -> RunFault {
        match fault {
            SceneFault::NoMemory => RunFault::NoMemory,
            other => RunFault::Scene(other),
        }
    }
}

impl From<JobFault> for RunFault {
    ghost use Rattle.std.specs.Prelude.{◌≡◌};
    ghost use Rattle.icet_cli.specs.FaultNotes.{of_job};

    ghost from_gives = { λ fault e. e ≡ of_job fault };

    fn from(fault: JobFault) -> RunFault {
        match fault {
            JobFault::Write => RunFault::Write,
            JobFault::NoMemory => RunFault::NoMemory,
        }
    }
}

impl From<WriteFault> for RunFault {
    ghost use Rattle.std.specs.Prelude.{◌≡◌};
    ghost use Rattle.icet_cli.specs.declared.run_fault.RunFault.TheVariants.{Write};

    ghost from_gives = { λ _ e. e ≡ Write };

    fn from(_fault: WriteFault) -> RunFault {
        RunFault::Write
    }
}

impl From<WantOfMemory> for RunFault {
    ghost use Rattle.std.specs.Prelude.{◌≡◌};
    ghost use Rattle.icet_cli.specs.declared.run_fault.RunFault.TheVariants.{NoMemory};

    ghost from_gives = { λ _ e. e ≡ NoMemory };

    fn from(_want: WantOfMemory) -> RunFault {
        RunFault::NoMemory
    }
}

impl From<AllocError> for RunFault {
    ghost use Rattle.std.specs.Prelude.{◌≡◌};
    ghost use Rattle.icet_cli.specs.declared.run_fault.RunFault.TheVariants.{NoMemory};

    ghost from_gives = { λ _ e. e ≡ NoMemory };

    fn from(_error: AllocError) -> RunFault {
        RunFault::NoMemory
    }
}
