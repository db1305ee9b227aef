// How the program ends.
ghost use Rattle.std.specs.Prelude.{◌≡◌};
ghost use Rattle.std.specs.Process.{exit_status};
ghost use Rattle.ap_base.specs.Codes.{code_of};

use ap_base::Status;
use std::marker::Model;
use std::process::{ExitCode, Termination};

/// The end of a run of the program, by its status. `run` alone answers one, and `main` can return it: the program
/// then ends with the status's code.
#[derive(Debug, Drop)]
pub struct Ended {
    status: Status,
}

impl Model for Ended {
    ghost use Rattle.ap_base.specs.declared.status.Status.{Status};

    ghost Value = { Status };

    ghost view = { λ s. s.status };
}

impl Ended {
    /// The end of a run with this status.
    pub(crate) fn new(status: Status) -> Ended
        ensures { result ≡ status }
    {
        Ended { status }
    }
}

impl Termination for Ended {
    /// The exit status is the code of the run's status.
    fn report<R: Eprint>(self, _rt: &R) -> ExitCode
        ensures { exit_status result ≡ code_of self }
    {
        ExitCode::from(self.status.code())
    }
}
