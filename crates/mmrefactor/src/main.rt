//! mmrefactor: edits a Metamath library by scripts, and prints it. All that it does is in the library `program`.
#![tactic(auto)]

use std::io::IsTerminal;
use std::process::ExitCode;

fn main(rt: HostRuntime) -> ExitCode {
    ExitCode::from(program::run(&rt, rt.stderr().is_terminal()))
}
