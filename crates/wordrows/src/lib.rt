//! The table of runs that meet: lines that passes do in turn over words, on one thread, and what each line is answered.
//!
//! The lines stand in the `stdin` of `workbench`, and what was worked out by hand from the definitions in its `stdout`: each line again,
//! and behind a colon its answer. The gate runs that program over the one and compares what it prints with the other, so that a line costs
//! no proof. What lines are answered with is written by [`Written`], as `trials` does too.
//!
//! | The line | It means |
//! |---|---|
//! | `# ..`, and an empty line | says something to the reader, and is not answered |
//! | `open room ROOM passes PASSES plain values V.. store W..` | opens words: cells of these values, and a store that begins with these |
//! | `open room ROOM passes PASSES named values V.. store W..` | the same, but the cells hold 0 or words that name ranges of the store |
//! | `A begins writing`, `A begins reading` | the pass A begins a run |
//! | `A reads CELL`, `A writes CELL VALUE`, `A forgets` | its run reads a cell; keeps a value for a cell that it has read; throws away what
//! it kept |
//! | `A names CELL START LENGTH` | its run keeps the word that names this range, which the pass has staged or read or learnt of |
//! | `A stages W..`, `A loads START LENGTH INDEX` | its run stages these words; loads a word of such a range |
//! | `A commits NOTE`, `A leaves` | its run ends |
//! | `A learns B` | the pass A learns of the pass B, both at rest |
//! | `close A B ..` | ends the words and all runs, with these passes, which are at rest |
//!
//! Words are opened in place of those that were open. Passes are called A to Z, or 0, 1, 2 and so on. Of a verb the first letter counts,
//! and how many numbers stand behind it.
//!
//! A line that is none of these, or that the pass can't do now, is answered `cannot do this line`, and changes nothing but
//! that a line that begins with `close` ends the words.
#![tactic(auto)]

mod acting;
mod block;
mod line;
mod print;
mod running;
mod seat;
mod written;

pub use crate::block::answer_table;
pub use crate::written::Written;
