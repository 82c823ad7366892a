// The runner with an exit status: 0, or 1 where a file or the report failed.
#![tactic(auto)]

ghost use Rattle.std.specs.Prelude.{pos};
ghost use Rattle.std.specs.Process.{exit_status};
ghost use Rattle.files.specs.Status.{Status};

use std::process::ExitCode;
use std::rt::Files;

// Reads the two files, runs the calls and prints the report, and ends with 0, or with 1 if a file or the report failed.
fn run<R: Files + Print + Eprint>(rt: &R) -> ExitCode
    ensures { Status (pos (exit_status result)) }
{
    ExitCode::from(files::sinewhopa_files(rt) as u8)
}

fn main(rt: HostRuntime) -> ExitCode {
    run(&rt)
}
