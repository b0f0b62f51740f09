//! The table of files on a disk in memory that fails: what stands there behind a text that was to be put in place.
//!
//! The lines stand in the `stdin` of `workbench`, and what was worked out by hand in its `stdout`: each line again, and behind a colon its
//! answer. `outside` proves which deeds are done on any disk, in which order; here a disk does them, and the deed K fails, from 1 on, or
//! each from K on.
//!
//! | The line | The text `new` |
//! |---|---|
//! | `# ..`, and an empty line | (says something to the reader) |
//! | `replace at K`, `replace from K` | is put in place of what `set.mm` has, which is `old` |
//! | `write at K`, `write from K` | is written to `set.mm` |
//! | `create at K`, `create from K` | is written to `out.mm`, where nothing is |
//! | `deny at K`, `deny from K` | is written to `set.mm`, in a folder that allows no new file |
//!
//! A word behind K names the kind of the errors, `denied` or `absent`; without it the disk is full.
//!
//! It is answered `done` or `refused`, then each file with its text, and where it is refused, what is said of that. A new file that is left
//! and told stands behind `left`.
#![tactic(auto)]

mod disk;
mod line;

pub use crate::line::answer_files;
