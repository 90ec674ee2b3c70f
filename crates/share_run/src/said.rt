//! What the program says on standard error, and the exit status that goes with it.
ghost use Rattle.std.specs.Prelude.{◌≡◌};
ghost use Rattle.std.specs.IoError.{error_kind};
ghost use Rattle.std.specs.Process.{exit_status};
ghost use Rattle.share_run.specs.Status.{status_number};

use crate::ShareStatus;
use std::io::{self, Eprint, ErrorKind};
use std::process::ExitCode;

/// The exit status of a command that ended so.
pub fn exit_with(status: ShareStatus) -> ExitCode
    ensures { exit_status result ≡ status_number status }
{
    ExitCode::from(status.number())
}

/// Says why a command ends so.
pub fn ends<R: Eprint>(rt: &R, status: ShareStatus, path: &str, why: &str) -> ExitCode
    ensures { exit_status result ≡ status_number status }
{
    let _said = eprintln!(rt; "clay_shares: {path}: {why}");
    exit_with(status)
}

/// Says that memory was short.
pub fn ends_short<R: Eprint>(rt: &R, path: &str) -> ExitCode
    ensures { exit_status result ≡ status_number ShareStatus.OutOfMemory }
{
    ends(
        rt,
        ShareStatus::OutOfMemory,
        path,
        "there was not enough memory",
    )
}

/// Says that a call of the system failed at a path, and ends with the status, or as out of memory where that was why.
pub fn fails<R: Eprint>(rt: &R, status: ShareStatus, path: &str, error: &io::Error) -> ExitCode
    ensures short { error_kind error.now ≡ ErrorKind.OutOfMemory → exit_status result ≡ status_number ShareStatus.OutOfMemory }
    ensures other { (error_kind error.now ≡ ErrorKind.OutOfMemory → ⊥) → exit_status result ≡ status_number status }
{
    if error.kind() == ErrorKind::OutOfMemory {
        return ends_short(rt, path);
    }
    let _said = eprintln!(rt; "clay_shares: {path}: {error}");
    exit_with(status)
}
