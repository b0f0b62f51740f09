//! Calls that no row makes: the crate has nothing else.
//!
//! What a contract says holds of every call, so few calls are left: frames, substitution, lines of assertions, copies, and scripts of one
//! editor; bodies in words and libraries in cells, by their layout, and which cells a command reads and writes; an export to a writer
//! that fails; workers on threads, and gates that wait; and each call whose only error is want of memory, once with ample memory, since
//! no clause says that memory is there. Texts, runs of scripts and replays are command lines of `workbench`, runs that meet on one thread
//! rows of `wordrows`, and what sessions do on one thread is in rows of `trials`, all of which cost no proof. What calls answer where
//! memory is refused is in `memory` and `again`, for `tools/refuse-memory`.
#![tactic(auto)]

// for all
mod same;
mod samples;
mod sessions;

// on values
mod copies;
mod editing;
mod values;

// on cells
mod bodies;
mod exporting;
mod noting;
mod running;

// on sessions
mod gates;
mod meeting;
mod whole;

// with memory refused
mod again;
mod memory;

use std::alloc::AllocGlobal;
use std::random::RandomSource;
use std::sync::Wait;
use std::test::Fail;
use std::thread::Threads;

/// The calls on frames, substitution, lines of assertions, copies, and scripts of one editor.
fn make_on_values(
    rt: &(impl AllocGlobal + RandomSource + Threads + Sync),
    name: &str,
) -> Result<bool, Fail> {
    match name {
        "a_rule_has_its_frame" => values::has_frame(rt),
        "a_line_is_read_and_written" => values::is_read_and_written(rt),
        "a_variable_is_replaced" => values::is_replaced(rt.alloc()),
        "a_prelude_and_a_theorem_are_copied" => values::are_copied(rt),
        "one_editor_runs_scripts" => editing::are_scripts_run(rt),
        "each_command_is_copied" => copies::are_commands_copied(rt),
        "each_reply_and_the_library_behind_it_are_copied" => copies::are_replies_copied(rt),
        _ => Err(Fail::from("there are no calls of this name")),
    }
}

/// The calls on bodies, cells and commands over them, and on an export.
fn make_on_cells(
    rt: &(impl AllocGlobal + RandomSource + Threads + Sync),
    name: &str,
) -> Result<bool, Fail> {
    match name {
        "labels_and_proofs_are_words" => bodies::are_words(rt.alloc()).map_err(Fail::from),
        "statements_are_words" => bodies::are_statements_words(rt),
        "nothing_is_called_behind_an_error" => exporting::calls_nothing_behind(rt),
        "a_writer_fails_at_each_of_its_calls" => exporting::fails_at_each_call(rt),
        "two_renamings_have_no_cell_in_common" => noting::are_renamings_apart(rt),
        _ => running::make(rt, name),
    }
}

/// The calls on sessions: on threads and with gates. It may wait.
fn make_on_sessions(
    rt: &(impl AllocGlobal + RandomSource + Threads + Wait + Sync),
    name: &str,
) -> Result<bool, Fail> {
    match name {
        "conflicted_tries_take_no_further_word" => meeting::took_no_further_word(rt),
        "a_library_is_opened_edited_and_exported" => whole::is_one_library(rt),
        _ => gates::make(rt, name),
    }
}

/// Makes the calls of this name, on one of the subjects of which there are tables, and is an error where an answer isn't the wanted one.
/// It may wait.
///
/// # Errors
///
/// What was wanted, want of memory, or that there is no such name.
pub fn make(
    rt: &(impl AllocGlobal + RandomSource + Threads + Wait + Sync),
    subject: &[u8],
    name: &str,
) -> Result<(), Fail> {
    let is_so = if subject == b"calls on values".as_slice() {
        make_on_values(rt, name)
    } else if subject == b"calls on cells".as_slice() {
        make_on_cells(rt, name)
    } else if subject == b"calls with memory refused".as_slice() {
        memory::make(rt, name)
    } else {
        make_on_sessions(rt, name)
    };
    match is_so {
        Ok(true) => Ok(()),
        Ok(false) => Err(Fail::from("each answer is the wanted one")),
        Err(fail) => Err(fail),
    }
}
