//! The table of schedules: what the pure machine of Transactional Locking II (`tlcore`) makes of events in a given order.
//!
//! The lines stand in the `stdin` of `workbench`, and what was worked out by hand from the machine's rules in its `stdout`: each line
//! again, and behind a colon its answer. No contract of the machine says that memory is there, so that one which always answers want of
//! it would be proved: the gate runs it by this table.
//!
//! | The line | It means | It is answered |
//! |---|---|---|
//! | `# ..`, and an empty line | says something to the reader | nothing |
//! | `open seats SEATS values V..` | a world of cells with these values, and of so many idle seats | the world |
//! | `run EVENT; EVENT; ..` | a schedule, from that world on, up to its first event that isn't lawful | `took N`, and the world after it |
//! | `step EVENT` | one event, by itself | the world after it, or `not lawful` |
//! | `value SEAT CELL` | what the seat's last run has read of a cell | that value, or `none` |
//!
//! An event is `S begins`, `S looks C`, `S loads C`, `S relooks C`, `S takes C V`, `S draws`, `S checks C`, `S stores C` or
//! `S releases C`: a seat, one of its actions, and the cell and the value that it is about. Seats and cells count from 0.
//!
//! A world is shown as `clock N cells LOCK:VALUE.. entries STATUS.. conflicted SEAT..`: the two words of each cell, how each entry of the
//! history stands (`open`, `done` or `void`), and the seats whose last run met a conflict.
//!
//! A line that is none of these is answered `cannot do this line`, and changes nothing. The first world has no cell and no seat.
#![tactic(auto)]

mod event;
mod line;
mod print;

pub use crate::line::answer_schedules;
