//! Runs a script of commands on two empty lists of numbers, and prints the reply to each command.
#![tactic(auto)]

use std::process::ExitCode;
use vecscript::script::script;

fn main(rt: HostRuntime) -> ExitCode {
    let status = script(
        rt.alloc(),
        &mut rt.stdin(),
        &mut rt.stdout(),
        &mut rt.stderr(),
    );
    ExitCode::from(status)
}
