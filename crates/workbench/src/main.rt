//! workbench: the tables that the gate compares, and what is measured. It is one program, since a program is built twice whatever it does.
//!
//! Without words it answers the tables of its standard input. A line `%% NAME` begins a table, which goes up to the next such line:
//! `sessions`, `words` (runs over words that meet), `machine` (schedules of the pure machine), `files` (a disk that fails), `commands`
//! (command lines, on the files of `data` and on those that its rows write), `measures` (measurements, for what they print besides their
//! times). The crates `trials`, `wordrows`, `machinerows` and `diskrows` and the module `lines` say what stands in each. The tables
//! `calls on values`, `calls on cells`, `calls on sessions` and `calls with memory refused` name functions of `calls`, each of which makes
//! calls that no row makes: what is printed is the name where all is answered as is wanted. (Those of the last are answered so with memory,
//! too: `tools/refuse-memory` refuses it to them.)
//! What is printed was worked out by hand, and stands in `stdout`.
//!
//! With words it measures: `workbench cells|check|words|sessions|meets|all WORD..`, for the programs of `benches/`.
#![tactic(auto)]

mod lines;
mod making;
mod tables;

use crate::lines::mode_of;
use crate::lines::stage::Stage;
use crate::tables::{begin_step, do_step, measure_given, next_step, print_status, read_lines};
use std::process::ExitCode;

fn main(rt: HostRuntime) -> ExitCode {
    if let Some(ending) = measure_given(&rt) {
        return ending.status();
    }
    let mut lines = Vec::new(rt.alloc());
    let mut is_done = read_lines(&rt, &mut lines).is_ok();
    let mut rest = lines.as_slice();
    let mut name = "";
    // Each step has a line at least. What starts threads by a runtime of its own stands here: the language has that of no other function.
    for _ in 0..lines.len() {
        let Some((step, behind)) = next_step(name, rest) else {
            break;
        };
        name = step.name;
        rest = behind;
        is_done = is_done
            && begin_step(&rt, step)
            && match mode_of(step.row) {
                Some(mode) => {
                    let stage = Stage::new(&rt, mode, step.row);
                    print_status(&rt, program::run_over(&rt, &stage, stage.is_terminal()))
                }
                None => do_step(&rt, step).is_ok(),
            };
    }
    if is_done {
        ExitCode::SUCCESS
    } else {
        ExitCode::from(1)
    }
}
