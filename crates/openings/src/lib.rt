//! What words that hold a library may be opened with: laws that join running words and plain cells. `lawful` says which openings of words
//! are well and which transactions on them are lawful; `plaincells` opens a database in cells of its own. What such cells hold opens words
//! well. And cells of zeros show a library without assertions: so no lawful transaction shows an assertion that it didn't read. Laws
//! alone, no running code.
#![tactic(auto)]

mod laws;

pub use laws::{opened_cells_open_well, unread_is_unlawful};
