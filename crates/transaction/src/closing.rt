//! Ends libraries.

ghost use Rattle.std.specs.Prelude.{◌≡◌, All, IfOk, length, min};
ghost use Rattle.tlwords.specs.Callers.{SitsAt};
ghost use Rattle.tlwords.specs.Closing.{ClosesAll};
ghost use Rattle.lawful.specs.Lawful.{library_terms};
ghost use Rattle.transaction.specs.Members.{IsSessionOf};
ghost use Rattle.transaction.specs.Closings.{IsClosed, AreTaken, words_given};

use crate::outcome::Record;
use crate::running::Library;
use crate::session::Session;
use lawful::{Given, LibraryLaw};
use mmsyntax::Prelude;
use std::alloc::{AllocError, Global};
use tlwords::{ClosedWords, Pass, Words, close, close_taken};

/// A library at its end: no session can change it any more.
#[derive(Drop)]
pub struct ClosedLibrary {
    /// The prelude of its assertions.
    pub prelude: Prelude,
    /// How many slots it has; and, for contracts alone, the database that it was opened from.
    pub given: Given,
    /// Its words: of the store all of them (`Library::close`), or those up to the tail (`Library::close_taken`).
    pub words: ClosedWords,
    /// The records of each session that was handed in, in order.
    pub records: Vec<Vec<Record>>,
}

/// Which words of its store a library gives at its end.
#[derive(Clone, Copy)]
enum StoreWords {
    Whole,
    UpToTail,
}

impl Library {
    /// Ends the library, and the sessions of it that are handed in, none too, and gives all its words. What each of them has seen grows
    /// into the one history that the words show. A lock that is held is that of a session that is not handed in, in the middle of a run:
    /// so where all sessions are handed in, none is; and then the clock is how many numbers they drew.
    ///
    /// # Errors
    ///
    /// Want of memory. The library and the sessions are gone then.
    pub fn close(self, alloc: Global, sessions: Vec<Session>) -> Result<ClosedLibrary, AllocError>
        requires { All (IsSessionOf self) sessions.items }
        ensures closed { IfOk result (λ made. IsClosed self sessions.items made) }
        ensures store { IfOk result (λ made. length made.words.store.items ≡ self.words.room) }
    {
        end(alloc, self, sessions, StoreWords::Whole)
    }

    /// Ends the library as `close` does, and gives of its store the words up to the tail alone, so that what it costs doesn't go by the
    /// room.
    ///
    /// # Errors
    ///
    /// Want of memory. The library and the sessions are gone then.
    pub fn close_taken(
        self,
        alloc: Global,
        sessions: Vec<Session>,
    ) -> Result<ClosedLibrary, AllocError>
        requires { All (IsSessionOf self) sessions.items }
        ensures closed { IfOk result (λ made. IsClosed self sessions.items made) }
        ensures store { IfOk result (λ made. length made.words.store.items ≡ min made.words.tail self.words.room) }
    {
        end(alloc, self, sessions, StoreWords::UpToTail)
    }
}

/// Ends a library, and the sessions of it that are handed in, and gives these words of its store.
fn end(
    alloc: Global,
    library: Library,
    sessions: Vec<Session>,
    store: StoreWords,
) -> Result<ClosedLibrary, AllocError>
    requires { All (IsSessionOf library) sessions.items }
    ensures closed { IfOk result (λ made. IsClosed library sessions.items made) }
    ensures store { IfOk result (λ made. length made.words.store.items ≡ words_given store made.words.tail library.words.room) }
{
    let (passes, records) = take_all(alloc, sessions)?;
    let (prelude, given, words) = library.into_parts();
    Ok(ClosedLibrary {
        prelude,
        given,
        words: end_words(alloc, words, passes, store)?,
        records,
    })
}

/// Ends words, and these passes of them, and gives these words of the store.
fn end_words(
    alloc: Global,
    words: Words<LibraryLaw>,
    passes: Vec<Pass<LibraryLaw>>,
    store: StoreWords,
) -> Result<ClosedWords, AllocError>
    requires { All (λ p. SitsAt words p) passes.items }
    ensures closes { IfOk result (λ c. ClosesAll library_terms words.table.shared.key.setting.value
        words.table.shared.key.values.value.items words.table.shared.key.store.value.items words.table.shared.key.sessions passes.items c) }
    ensures store { IfOk result (λ c. (c.room ≡ words.room) × (length c.store.items ≡ words_given store c.tail words.room)) }
{
    match store {
        StoreWords::Whole => close(alloc, words, passes),
        StoreWords::UpToTail => close_taken(alloc, words, passes),
    }
}

/// The passes of sessions, and their records, in order.
fn take_all(
    alloc: Global,
    sessions: Vec<Session>,
) -> Result<(Vec<Pass<LibraryLaw>>, Vec<Vec<Record>>), AllocError>
    ensures { IfOk result (λ made. AreTaken sessions.items made.0.items made.1.items) }
{
    let mut passes = Vec::with_capacity(alloc, sessions.len())?;
    let mut records = Vec::with_capacity(alloc, sessions.len())?;
    for session in sessions {
        let (pass, own) = session.into_parts();
        passes.push_reserved(pass);
        records.push_reserved(own);
    }
    Ok((passes, records))
}
