//! Answers the commands of standard input on standard output. Status 0 means that each line was a command.
#![tactic(auto)]

use app_console::{End, Noted, RunFault, run};
use std::process::ExitCode;

fn main(rt: HostRuntime) -> ExitCode {
    let mut reader = Noted::new(rt.stdin());
    let mut writer = Noted::new(rt.stdout());
    match run(rt.alloc(), &mut reader, &mut writer) {
        Ok(End::Clean) => ExitCode::SUCCESS,
        Ok(End::BadLine(_)) | Err(RunFault::Write) => ExitCode::FAILURE,
        Err(fault) => {
            let _ = eprintln!(rt; "{fault}");
            ExitCode::FAILURE
        }
    }
}
