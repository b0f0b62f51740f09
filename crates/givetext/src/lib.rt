//! What the program prints where the edits of a history are given back into the source that a library was taken of: the source with these
//! edits, or a line that says why not.
#![tactic(auto)]

mod again;
mod answering;
mod call;
mod drafting;
mod looking;
mod refusal;
mod refusing;
mod standing;

pub use answering::{Paths, Returned, answer_give};
pub use drafting::{Draft, EditedLibrary, Replayed, draft_edits};
pub use looking::{look_at_draft, read_draft};
pub use refusal::Refusal;
pub use refusing::refusal_text;
