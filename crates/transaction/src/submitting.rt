//! Tries transactions until they meet no conflict.

ghost use Rattle.std.specs.Prelude.{◌≡◌, All};
ghost use Rattle.library.specs.Fitting.{CommandFits};
ghost use Rattle.lawful.specs.Lawful.{setting_given};
ghost use Rattle.transaction.specs.Members.{IsSessionOf};
ghost use Rattle.transaction.specs.Attempts.{Submits};

use crate::outcome::Outcome;
use crate::running::Library;
use crate::session::Session;
use crossbeam_utils::Backoff;
use library::Transaction;
use std::alloc::Global;
use std::sync::Wait;

impl Session {
    /// Tries a transaction, as `attempt` does, until the outcome is no conflict: it is that of the last try, by what the session was when
    /// that one began. It may wait forever.
    pub fn submit<R: Wait>(
        &mut self,
        rt: &R,
        alloc: Global,
        library: &Library,
        commands: &Transaction,
    ) -> Outcome
        requires own { IsSessionOf library.now self.old }
        requires fit { All (CommandFits (setting_given library.now.given).prelude) commands.now }
        ensures { Submits commands.now self.old self.new result }
    {
        let backoff = Backoff::new();
        for _ in rt.forever() {
            let outcome = self.attempt(alloc, library, commands);
            let Outcome::Conflict { .. } = outcome else {
                return outcome;
            };
            backoff.snooze();
        }
        unreachable!()
    }
}
