// The year program.
#![tactic(auto)]

use std::process::ExitCode;
use year::Year;

fn main(rt: HostRuntime) -> ExitCode {
    match console::run_until_used_up::<_, _, Year>(&mut rt.stdin(), &mut rt.stdout()) {
        Ok(()) => ExitCode::SUCCESS,
        Err(e) => {
            let _ = eprintln!(rt; "months: {e}");
            ExitCode::FAILURE
        }
    }
}
