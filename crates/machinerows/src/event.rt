//! How events are read.

use std::alloc::{AllocError, Global};
use tlcore::Action;

/// What stands in front of the first blank of a text, and behind it.
pub(crate) fn cut(text: &str) -> (&str, &str) {
    text.split_once(' ').unwrap_or((text, ""))
}

/// The action of a verb, with the cell and the value that it is about.
fn action_of(verb: &str, cell: Option<usize>, value: Option<u64>) -> Option<Action> {
    match (verb, cell, value) {
        ("begins", None, None) => Some(Action::Begin),
        ("looks", Some(cell), None) => Some(Action::Look(cell)),
        ("loads", Some(cell), None) => Some(Action::Load(cell)),
        ("relooks", Some(cell), None) => Some(Action::Relook(cell)),
        ("takes", Some(cell), Some(value)) => Some(Action::Take(cell, value)),
        ("draws", None, None) => Some(Action::Draw),
        ("checks", Some(cell), None) => Some(Action::Check(cell)),
        ("stores", Some(cell), None) => Some(Action::Store(cell)),
        ("releases", Some(cell), None) => Some(Action::Release(cell)),
        _ => None,
    }
}

/// The event that a text says: a seat and its action. None of a text that says none.
pub(crate) fn event_of(text: &str) -> Option<(usize, Action)> {
    let (seat, behind) = cut(text);
    let (verb, operands) = cut(behind);
    let (cell, value) = cut(operands);
    let seat = seat.parse::<usize>().ok()?;
    let action = action_of(verb, cell.parse::<usize>().ok(), value.parse::<u64>().ok())?;
    Some((seat, action))
}

/// The events that a text says, with `; ` between each two. None where one of them says none.
pub(crate) fn read_events(
    alloc: Global,
    text: &str,
) -> Result<Option<Vec<(usize, Action)>>, AllocError> {
    let mut events = Vec::new(alloc);
    for text in text.split("; ") {
        let Some(event) = event_of(text) else {
            return Ok(None);
        };
        events.push(event)?;
    }
    Ok(Some(events))
}
