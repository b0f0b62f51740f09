//! The sessions of a library at their places, from 0.

ghost use Rattle.std.specs.Prelude.{◌≡◌, ◌+◌, ◌<◌, ◌≤◌, length, All};
ghost use Rattle.transaction.specs.Members.{IsSessionOf};

use transaction::{Library, Session};
use wordrows::Written;

/// The most sessions that a library has.
const MOST_SESSIONS: usize = 64;

/// The place of a session, from 0, by its name: `A` to `Z` are the first 26, and `1` to `64` are all.
pub fn place_of(name: &str) -> Option<usize> {
    match name.as_bytes() {
        [letter @ b'A'..=b'Z'] => Some((*letter - b'A') as usize),
        _ => name.parse::<usize>().ok()?.checked_sub(1),
    }
}

/// Which of so many sessions are named. None where a name is that of no session.
pub fn named(names: &str, count: usize) -> Option<[bool; MOST_SESSIONS]> {
    let mut is_named = [false; MOST_SESSIONS];
    for name in names.split_terminator(' ') {
        let place = place_of(name)?;
        if place >= count {
            return None;
        }
        *is_named.get_mut(place)? = true;
    }
    Some(is_named)
}

/// Takes the session at a place out; those behind it move up.
fn take(library: &Library, sessions: &mut Vec<Session>, place: usize) -> Session
    requires place { place < length sessions.old.items }
    requires own { All (IsSessionOf library.now) sessions.old.items }
    ensures own { IsSessionOf library.now result }
    ensures others { All (IsSessionOf library.now) sessions.new.items }
    ensures one_less { length sessions.new.items + 1 ≡ length sessions.old.items }
{
    let _ = library;
    sessions.remove(place)
}

/// Puts a session in at a place; those from there on move back. It is gone where memory runs out.
fn put_back(
    out: &mut Written,
    library: &Library,
    sessions: &mut Vec<Session>,
    place: usize,
    session: Session,
)
    requires place { place ≤ length sessions.old.items }
    requires own { IsSessionOf library.now session }
    requires others { All (IsSessionOf library.now) sessions.old.items }
    ensures { All (IsSessionOf library.now) sessions.new.items }
{
    let _ = library;
    if sessions.insert(place, session).is_err() {
        out.is_short = true;
    }
}

/// Tells the session at one place what the one of another name has seen, and writes `learnt`; false where there are no two such sessions.
pub fn learn(
    out: &mut Written,
    library: &Library,
    sessions: &mut Vec<Session>,
    place: usize,
    other: &str,
) -> bool
    requires { All (IsSessionOf library.now) sessions.old.items }
    ensures { All (IsSessionOf library.now) sessions.new.items }
{
    let Some(other) = place_of(other) else {
        return false;
    };
    if place == other || place >= sessions.len() || other >= sessions.len() {
        return false;
    }
    let mut told = take(library, sessions, other);
    let place = if other < place { place - 1 } else { place };
    sessions[place].learn(library, &mut told);
    put_back(out, library, sessions, other, told);
    out.put(b"learnt\n");
    true
}

/// Leaves out the sessions that aren't named.
pub fn leave_others(library: &Library, sessions: &mut Vec<Session>, is_named: &[bool])
    requires { All (IsSessionOf library.now) sessions.old.items }
    ensures { All (IsSessionOf library.now) sessions.new.items }
{
    for place in (0..sessions.len()).rev() {
        if is_named.get(place) != Some(&true) {
            let _ = take(library, sessions, place);
        }
    }
}
