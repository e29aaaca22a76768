// What a program does around its own step.
ghost use Rattle.std.specs.Prelude.{◌≡◌, is_ok, if◌then◌else◌};
ghost use Rattle.std.specs.Process.{exit_status};

use crate::failure::Failure;
use crate::input::arguments;
use std::fmt::Display;
use std::process::ExitCode;

// Takes the step with the words of the command line, or prints the usage line where `--help` alone is asked.
pub fn run_program<E: Display + Drop, F: FnOnce(&HostRuntime, &[String]) -> Result<(), E>>(
    rt: &HostRuntime,
    usage: &'static str,
    step: F,
) -> ExitCode
    requires { F.IsAlwaysCallable step }
{
    match arguments(rt, usage) {
        Ok(words) if is_help(&words) => told(rt, rt.println(usage).map_err(Failure::from)),
        Ok(words) => told(rt, step(rt, &words)),
        Err(failure) => told(rt, Err(failure)),
    }
}

fn is_help(words: &[String]) -> bool {
    matches!(words, [word] if word.as_str() == "--help")
}

// The status of a program that ended so. Why it failed is told on standard error, in one line.
fn told<E: Display + Drop>(rt: &HostRuntime, ended: Result<(), E>) -> ExitCode
    ensures { exit_status result ≡ (if is_ok ended then 0 else 1) }
{
    match ended {
        Ok(()) => ExitCode::SUCCESS,
        Err(failure) => {
            let _ = rt.eprintln(&failure);
            ExitCode::FAILURE
        }
    }
}
