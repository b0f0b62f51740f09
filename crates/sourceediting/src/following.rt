//! The assertions of a library behind the edits of a history, and their labels in the source.

ghost use Rattle.std.specs.Prelude.{◌≡◌, ◌++◌, ◌∷◌, [], map, filter, filter_map, length, IfOk, OnOk};
ghost use Rattle.std.specs.Option.{option_map};
ghost use Rattle.std.specs.Str.{bytes_eq};
ghost use mathlib.Core.Bool.{not};
ghost use Rattle.source.specs.Scopes.{Assertion, is_in};
ghost use Rattle.source.specs.Views.{seen_words, seen_pairs};
ghost use Rattle.taking.specs.Reasons.{Choice};
ghost use Rattle.sourceediting.specs.Following.{renamed, ranked, source_of, added, behind, behind_all, all_commands, opening, label_then};
ghost use Rattle.sourceediting.specs.Following.{change_of, changes_of};
ghost use Rattle.sourceediting.specs.Reproved.{now_of};
ghost use Rattle.sourceediting.specs.Written.{moved_from};
ghost use Rattle.sourceediting.specs.Views.{seen_followed, seen_living, seen_following};

use library::{Command, Entry};
use mmsyntax::Database;
use source::Declared;
use std::alloc::{AllocError, Global};

/// An assertion of a library.
#[derive(Clone, Copy)]
pub struct Followed<'h> {
    /// Its label in the source: none of one that was added.
    pub source: Option<&'h [u8]>,
    /// Its label when it came in.
    pub first: &'h [u8],
    /// Its label now.
    pub now: &'h [u8],
    /// Whether it was given another rank.
    pub moved: bool,
}

impl<'h> Followed<'h> {
    /// Behind the rename of an assertion.
    fn renamed(mut self, old: &[u8], new: &'h [u8]) -> Followed<'h>
        ensures { seen_followed result ≡ renamed old.now new.now (seen_followed self.entry) }
    {
        if self.now == old {
            self.now = new;
        }
        self
    }

    /// Behind the move of an assertion.
    fn ranked(mut self, label: &[u8]) -> Followed<'h>
        ensures { seen_followed result ≡ ranked label.now (seen_followed self.entry) }
    {
        if self.now == label {
            self.moved = true;
        }
        self
    }

    /// Whether its label changed.
    pub fn is_renamed(&self) -> bool
        ensures { result ≡ not (bytes_eq self.entry.now.now.now self.entry.now.first.now) }
    {
        self.now != self.first
    }

    /// Its label in the source then.
    pub fn label_then(&self) -> &'h [u8]
        ensures { result.now ≡ label_then (seen_followed self.entry.now) }
    {
        match self.source {
            Some(label) if !self.is_renamed() => label,
            _ => self.now,
        }
    }

    /// The label of the source that changes, with its new one.
    fn change(&self) -> Option<(&'h [u8], &'h [u8])>
        ensures { option_map (λ p. (p.0.now, p.1.now)) result
            ≡ change_of (seen_followed self.entry.now) (seen_followed self.entry.now).source }
    {
        match self.source {
            Some(label) if self.is_renamed() => Some((label, self.now)),
            _ => None,
        }
    }
}

impl<'h> Followed<'h> {
    /// Its label in the source, if it was moved.
    pub(crate) fn moved_from(&self) -> Option<&'h [u8]>
        ensures { option_map (λ w. w.now) result ≡ moved_from (seen_followed self.entry.now) }
    {
        if self.moved { self.source } else { None }
    }

    /// Its label in the source: none of one that was added.
    pub(crate) fn source_label(&self) -> Option<&'h [u8]>
        ensures { option_map (λ w. w.now) result ≡ (seen_followed self.entry.now).source }
    {
        self.source
    }

    /// The label that it had in the library at the opening, with its label now: none of one that was added.
    pub(crate) fn change_in_library(&self) -> Option<(&'h [u8], &'h [u8])>
        ensures { option_map (λ p. (p.0.now, p.1.now)) result
            ≡ now_of (seen_followed self.entry.now) (seen_followed self.entry.now).source }
    {
        match self.source {
            Some(_) => Some((self.first, self.now)),
            None => None,
        }
    }
}

/// What becomes of the assertions of a library.
#[derive(Drop)]
pub struct Following<'h> {
    /// Those that live: first those of the opening, in their order.
    pub living: Vec<Followed<'h>>,
    /// The labels in the source of those that were deleted.
    pub gone: Vec<&'h [u8]>,
}

/// The assertions of a library as it was taken: they are the chosen ones, in their order.
fn opened<'h, 'a: 'h, D: Declared<'a>>(
    alloc: Global,
    declared: &D,
    chosen: &[bool],
    database: &'h Database,
) -> Result<Vec<Followed<'h>>, AllocError>
    requires { length chosen.now ≡ length (D.scope declared.now).assertions }
    ensures { (choice : Choice) → map (λ (x : Assertion). is_in choice.chosen x.label) (D.scope declared.now).assertions ≡ chosen.now
        → IfOk result (λ made. seen_living made.items ≡ (opening (D.scope declared.now) choice database.now).living) }
{
    let mut living = Vec::new(alloc);
    let assertions = database.assertions();
    for place in 0..declared.assertions() {
        if chosen[place] {
            let Some(label) = declared.label(place) else {
                unreachable!()
            };
            let Some(assertion) = assertions.get(living.len()) else {
                return Ok(living);
            };
            let first = assertion.label.as_slice();
            living.push(Followed {
                source: Some(label),
                first,
                now: first,
                moved: false,
            })?;
        }
    }
    Ok(living)
}

/// A library as it was taken: of each assertion of the source, whether it was chosen.
///
/// # Errors
///
/// Want of memory.
pub fn opening_of<'h, 'a: 'h, D: Declared<'a>>(
    alloc: Global,
    declared: &D,
    chosen: &[bool],
    database: &'h Database,
) -> Result<Following<'h>, AllocError>
    requires { length chosen.now ≡ length (D.scope declared.now).assertions }
    ensures { (choice : Choice) → map (λ (x : Assertion). is_in choice.chosen x.label) (D.scope declared.now).assertions ≡ chosen.now
        → IfOk result (λ made. seen_following made ≡ opening (D.scope declared.now) choice database.now) }
{
    Ok(Following {
        living: opened(alloc, declared, chosen, database)?,
        gone: Vec::new(alloc),
    })
}

/// Assertions behind a rename.
fn rename<'h>(living: &mut [Followed<'h>], old: &[u8], new: &'h [u8])
    ensures { seen_living living.new ≡ map (renamed old.now new.now) (seen_living living.old) }
{
    for followed in living.iter_mut() {
        *followed = followed.renamed(old, new);
    }
}

/// Assertions behind a move.
fn rank(living: &mut [Followed<'_>], label: &[u8])
    ensures { seen_living living.new ≡ map (ranked label.now) (seen_living living.old) }
{
    for followed in living.iter_mut() {
        *followed = followed.ranked(label);
    }
}

/// The assertions that are left behind a deletion. The label in the source of what is deleted goes behind those that are gone.
fn delete<'h>(
    alloc: Global,
    living: &[Followed<'h>],
    gone: &mut Vec<&'h [u8]>,
    label: &[u8],
) -> Result<Vec<Followed<'h>>, AllocError>
    ensures left { IfOk result (λ left. seen_living left.items ≡ filter (λ x. not (bytes_eq x.now label.now)) (seen_living living.now)) }
    ensures gone { OnOk result (seen_words gone.new.items
        ≡ seen_words gone.old.items ++ filter_map (source_of label.now) (seen_living living.now)) }
{
    let mut left = Vec::with_capacity(alloc, living.len())?;
    for followed in living {
        if followed.now != label {
            left.push(*followed)?;
        } else if let Some(source) = followed.source {
            gone.push(source)?;
        }
    }
    Ok(left)
}

impl<'h> Following<'h> {
    /// One is added.
    fn add(&mut self, label: &'h [u8]) -> Result<(), AllocError>
        ensures { OnOk result (seen_following self.new
            ≡ record (seen_following self.old) { living = (seen_following self.old).living ++ added label.now ∷ [] }) }
    {
        self.living.push(Followed {
            source: None,
            first: label,
            now: label,
            moved: false,
        })?;
        Ok(())
    }

    /// Behind a command.
    fn take(&mut self, alloc: Global, command: &'h Command) -> Result<(), AllocError>
        ensures { OnOk result (seen_following self.new ≡ behind command.now (seen_following self.old)) }
    {
        match command {
            Command::Add { assertion, .. } => self.add(assertion.label.as_slice())?,
            Command::Rename { old, new } => rename(
                self.living.as_mut_slice(),
                old.as_slice(),
                new.as_slice(),
            ),
            Command::Move { label, .. } => rank(self.living.as_mut_slice(), label.as_slice()),
            Command::Delete { label } => {
                self.living = delete(
                    alloc,
                    self.living.as_slice(),
                    &mut self.gone,
                    label.as_slice(),
                )?;
            }
            Command::Reprove { .. }
            | Command::Replace { .. }
            | Command::Show { .. }
            | Command::List => {}
        }
        Ok(())
    }

    /// Behind the commands of a transaction.
    fn take_all(&mut self, alloc: Global, commands: &'h [Command]) -> Result<(), AllocError>
        ensures { OnOk result (seen_following self.new ≡ behind_all commands.now (seen_following self.old)) }
    {
        for command in commands {
            self.take(alloc, command)?;
        }
        Ok(())
    }

    /// Behind a history.
    ///
    /// # Errors
    ///
    /// Want of memory.
    pub fn follow(&mut self, alloc: Global, entries: &'h [Entry]) -> Result<(), AllocError>
        ensures { OnOk result (seen_following self.new ≡ behind_all (all_commands entries.now) (seen_following self.old)) }
    {
        for entry in entries {
            if let Entry::Done { commands, .. } = entry {
                self.take_all(alloc, commands.as_slice())?;
            }
        }
        Ok(())
    }

    /// The labels of the source that change, with their new ones.
    ///
    /// # Errors
    ///
    /// Want of memory.
    pub fn changes(&self, alloc: Global) -> Result<Vec<(&'h [u8], &'h [u8])>, AllocError>
        ensures { IfOk result (λ made. seen_pairs made.items ≡ changes_of (seen_following self.now)) }
    {
        let mut changes = Vec::new(alloc);
        for followed in self.living.as_slice() {
            if let Some(change) = followed.change() {
                changes.push(change)?;
            }
        }
        Ok(changes)
    }

    /// The labels of those that live in the source then.
    ///
    /// # Errors
    ///
    /// Want of memory.
    pub fn labels_then(&self, alloc: Global) -> Result<Vec<&'h [u8]>, AllocError>
        ensures { IfOk result (λ made. seen_words made.items ≡ map label_then (seen_following self.now).living) }
    {
        let mut labels = Vec::new(alloc);
        for followed in self.living.as_slice() {
            labels.push(followed.label_then())?;
        }
        Ok(labels)
    }
}
