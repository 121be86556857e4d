// The trace program: a table and choice lines on standard input, the trace of their steps on standard output. Where one of them fails it says so on standard
// error and ends with 1, and a failed read leaves no output at all.
#![tactic(auto)]

use std::process::ExitCode;
use streams::trace_all;

fn main(rt: HostRuntime) -> ExitCode {
    match trace_all(&mut rt.stdin(), &mut rt.stdout()) {
        Ok(()) => ExitCode::SUCCESS,
        Err(failure) => {
            let _ = eprintln!(rt; "trace: {failure}");
            ExitCode::FAILURE
        }
    }
}
