//! Commands, one by one: each is done, or refused by the first test that fails.

ghost use Rattle.std.specs.Prelude.{◌≡◌, ℕ, All, Contains, None, Some, Err, IfErr, IfOk, OnOk, set};
ghost use Rattle.std.specs.List.Sorted.{IsStrictlyIncreasing};
ghost use Rattle.mmsyntax.specs.declared.statement.Kind.TheVariants.{Theorem};
ghost use Rattle.library.specs.declared.command.Command.TheVariants as command;
ghost use Rattle.library.specs.Edits.{proof_tests, label_tests, add_tests, replace_tests, citers, with_proof, with_rank};
ghost use Rattle.library.specs.Fitting.{CommandFits};
ghost use Rattle.library.specs.Library.{Verifies, label_of};
ghost use Rattle.library.specs.declared.library.Ranked.{Ranked};
ghost use Rattle.catalog.specs.Entries.{StandsIn};
ghost use Rattle.catalog.specs.Citers.{Covers, HasAllCiters, IsCiter};
ghost use Rattle.catalog.specs.Places.{StandsAt};
ghost use Rattle.catalog.specs.Changes.{citing, changed_at, changed_all};
ghost use Rattle.history.specs.Drafts.{now_in, KeepsStart, Takes, TakesAll};
ghost use Rattle.history.specs.Refusals.{first_reason};
ghost use Rattle.history.specs.OneChanged.{ChangesOne};
ghost use Rattle.history.specs.declared.editor.ApplyError.TheVariants as error;

use super::Draft;
use crate::editor::ApplyError;
use catalog::{
    Lower, cites, cites_not_below, cites_unknown, count_citers, entry_at, find_entry, find_label,
    has_citer_below, has_clash, list_lines, proof_fault, recited, relabelled, reproved,
};
use library::{Command, Ranked, Reason, Refused, Reply, is_alike};
use mmframes::frame_of;
use mmsyntax::{Assertion, Kind, Label, Proof, Sequence, is_lawful_label};
use std::alloc::{AllocError, Global};

impl Draft {
    /// The places among which are all whose proof cites the assertion at a place.
    fn citers_of(&self, place: usize) -> &[usize]
        requires { (e : Ranked) × StandsIn self.now.entries place e }
        ensures ascending { IsStrictlyIncreasing result.now }
        ensures listed { (q : ℕ) → Contains result.now q → IsCiter self.now.citers place q }
        ensures all { (e : Ranked) → StandsIn self.now.entries place e → HasAllCiters self.now.entries (label_of e) result.now }
    {
        self.citers[place].as_slice()
    }

    /// The number of assertions whose proof cites the one with a label, which stands at a place.
    fn count_citers(&self, place: usize, label: &[u8]) -> usize
        requires { StandsAt self.now.entries label.now place }
        ensures { result ≡ citers (now_in self.now) label.now }
    {
        count_citers(self.entries.as_slice(), self.citers_of(place), label)
    }

    /// The reason for which the proof of a theorem of this rank is refused.
    fn refuse_proof(
        &self,
        alloc: Global,
        rank: u32,
        assertion: &Assertion,
    ) -> Result<Option<Reason>, AllocError>
        requires { assertion.now.kind ≡ Theorem }
        ensures { IfOk result (λ found. found ≡ first_reason (proof_tests self.now.setting (now_in self.now) rank assertion.now)) }
    {
        let entries = self.entries.as_slice();
        let steps = &assertion.proof;
        if cites_unknown(entries, &self.places, steps) {
            return Ok(Some(Reason::CitesUnknown));
        }
        if cites_not_below(entries, &self.places, rank, steps) {
            return Ok(Some(Reason::CitedNotLower));
        }
        let lower = Lower {
            prelude: &self.prelude,
            entries,
            frames: self.frames.as_slice(),
            places: &self.places,
            rank,
        };
        let fault = proof_fault(alloc, &lower, assertion)?;
        match fault {
            Some(fault) => Ok(Some(Reason::ProofFails(fault))),
            None => Ok(None),
        }
    }

    /// The reason for which an assertion may not have a label. The one with the label `own`, if there is one, may clash with it.
    fn refuse_label(&self, own: &[u8], label: &[u8]) -> Option<Reason>
        ensures { result ≡ first_reason (label_tests self.now.setting (now_in self.now) own.now label.now) }
    {
        let entries = self.entries.as_slice();
        if !is_lawful_label(&self.prelude, label) {
            return Some(Reason::BadLabel);
        }
        if find_label(entries, &self.places, label).is_some() {
            return Some(Reason::LabelTaken);
        }
        if has_clash(entries, &self.places, &self.trunks, own, label) {
            return Some(Reason::LabelClashes);
        }
        None
    }

    /// The reason for which adding an assertion with this rank is refused.
    fn refuse_add(
        &self,
        alloc: Global,
        rank: u32,
        assertion: &Assertion,
    ) -> Result<Option<Reason>, AllocError>
        ensures { IfOk result (λ found. found ≡ first_reason (add_tests self.now.setting (now_in self.now) rank assertion.now)) }
    {
        let label = assertion.label.as_slice();
        if rank == 0 {
            return Ok(Some(Reason::BadRank));
        }
        // No assertion has the label where it is tested what it clashes with, so this leaves none out.
        if let Some(reason) = self.refuse_label(label, label) {
            return Ok(Some(reason));
        }
        if let Kind::Axiom = assertion.kind {
            return Ok(Some(Reason::AxiomNotAllowed));
        }
        if let Some(reason) = self.refuse_proof(alloc, rank, assertion)? {
            return Ok(Some(reason));
        }
        if self.count >= self.slots {
            return Ok(Some(Reason::LibraryFull));
        }
        Ok(None)
    }

    fn add(
        &mut self,
        alloc: Global,
        index: usize,
        rank: u32,
        assertion: &Assertion,
    ) -> Result<Reply, ApplyError>
        requires { Verifies self.old.setting (now_in self.old) }
        ensures taken { Takes index self.old (command.Add rank assertion.now) result self.new }
        ensures kept { KeepsStart self.old self.new }
    {
        if let Some(reason) = self.refuse_add(alloc, rank, assertion)? {
            return Err(refused(index, reason));
        }
        let frame = frame_of(alloc, &self.prelude, assertion)?;
        let place = self.open_place(alloc, frame)?;
        self.cite(place, &assertion.proof)?;
        let assertion = assertion.copy(alloc)?;
        self.put(alloc, place, Ranked { rank, assertion })?;
        Ok(Reply::Done)
    }

    /// The place of the theorem with a label, and the theorem with another proof, which passed all tests.
    fn try_proof(
        &self,
        alloc: Global,
        index: usize,
        label: &Label,
        steps: &Proof,
    ) -> Result<(usize, Ranked), ApplyError>
        ensures refused { IfErr result (λ error. Takes index self.now (command.Reprove label.now steps.now) (Err error) self.now) }
        ensures passed { IfOk result (λ made.
            ChangesOne self.now (command.Reprove label.now steps.now) (with_proof steps.now) made.0 made.1) }
    {
        let Some((place, entry)) = find_entry(
            self.entries.as_slice(),
            &self.places,
            label.as_slice(),
        ) else {
            return Err(refused(index, Reason::UnknownLabel));
        };
        if let Kind::Axiom = entry.assertion.kind {
            return Err(refused(index, Reason::NotATheorem));
        }
        let proof = steps.copy(alloc)?;
        let new = reproved(alloc, entry, proof)?;
        if let Some(reason) = self.refuse_proof(alloc, new.rank, &new.assertion)? {
            drop(new);
            return Err(refused(index, reason));
        }
        Ok((place, new))
    }

    fn reprove(
        &mut self,
        alloc: Global,
        index: usize,
        label: &Label,
        steps: &Proof,
    ) -> Result<Reply, ApplyError>
        ensures taken { Takes index self.old (command.Reprove label.now steps.now) result self.new }
        ensures kept { KeepsStart self.old self.new }
    {
        let (place, new) = self.try_proof(alloc, index, label, steps)?;
        self.cite(place, steps)?;
        self.replace(place, new)?;
        Ok(Reply::Done)
    }

    /// Replaces a label in the proof of the assertion at a place, if it has one. The place stands in the list of the one with the new
    /// label.
    fn recite(
        &mut self,
        alloc: Global,
        place: usize,
        old: &Label,
        new: &Label,
    ) -> Result<(), AllocError>
        requires { (p : ℕ) × StandsAt self.old.entries new.now p × IsCiter self.old.citers p place }
        ensures done { OnOk result (self.new.entries ≡ changed_at place (citing old.now new.now) self.old.entries) }
        ensures citers { OnOk result (self.new.citers ≡ self.old.citers) }
        ensures kept { KeepsStart self.old self.new }
    {
        let Some(entry) = entry_at(self.entries.as_slice(), place) else {
            return Ok(());
        };
        if !cites(entry, old.as_slice()) {
            return Ok(());
        }
        let recited = recited(alloc, entry, old.as_slice(), new)?;
        self.replace(place, recited)?;
        Ok(())
    }

    /// Replaces a label in every proof: in those at some places, which stand in the list of the assertion with the new label. After an
    /// error it is replaced in some of them.
    fn recite_all(
        &mut self,
        alloc: Global,
        citers: &[usize],
        old: &Label,
        new: &Label,
    ) -> Result<(), AllocError>
        requires ascending { IsStrictlyIncreasing citers.now }
        requires all { HasAllCiters self.old.entries old.now citers.now }
        requires listed { (p : ℕ) × StandsAt self.old.entries new.now p × ((q : ℕ) → Contains citers.now q → IsCiter self.old.citers p q) }
        ensures done { OnOk result (self.new.entries ≡ changed_all (citing old.now new.now) self.old.entries) }
        ensures kept { KeepsStart self.old self.new }
    {
        for place in citers {
            self.recite(alloc, *place, old, new)?;
        }
        Ok(())
    }

    fn rename(
        &mut self,
        alloc: Global,
        index: usize,
        old: &Label,
        new: &Label,
    ) -> Result<Reply, ApplyError>
        requires { Verifies self.old.setting (now_in self.old) }
        ensures taken { Takes index self.old (command.Rename old.now new.now) result self.new }
        ensures kept { KeepsStart self.old self.new }
    {
        let own = old.as_slice();
        let refusal = self.refuse_label(own, new.as_slice());
        let Some((place, entry)) = find_entry(self.entries.as_slice(), &self.places, own) else {
            return Err(refused(index, Reason::UnknownLabel));
        };
        if let Some(reason) = refusal {
            return Err(refused(index, reason));
        }
        let renamed = relabelled(alloc, entry, new)?;
        let citers = Vec::from_slice(alloc, self.citers_of(place))?;
        self.put(alloc, place, renamed)?;
        self.recite_all(alloc, citers.as_slice(), old, new)?;
        Ok(Reply::Done)
    }

    /// The place of the assertion that is to be cited in the place of another, in the proof of one; or the reason for which it isn't.
    fn find_replacement(&self, entry: &Ranked, old: &Label, new: &Label) -> Result<usize, Reason>
        ensures refused { IfErr result (λ reason.
            first_reason (replace_tests self.now.setting (now_in self.now) old.now new.now entry.now) ≡ Some reason) }
        ensures passed { OnOk result (first_reason (replace_tests self.now.setting (now_in self.now) old.now new.now entry.now) ≡ None) }
        ensures place { IfOk result (StandsAt self.now.entries new.now) }
    {
        let entries = self.entries.as_slice();
        let Some(cited) = find_label(entries, &self.places, old.as_slice()) else {
            return Err(Reason::UnknownLabel);
        };
        let Some((place, other)) = find_entry(entries, &self.places, new.as_slice()) else {
            return Err(Reason::UnknownLabel);
        };
        if let Kind::Axiom = entry.assertion.kind {
            return Err(Reason::NotATheorem);
        }
        if !is_alike(&self.frames[cited], &self.frames[place]) {
            return Err(Reason::NotAlike);
        }
        if entry.rank <= other.rank {
            return Err(Reason::CitedNotLower);
        }
        Ok(place)
    }

    fn replace_citation(
        &mut self,
        alloc: Global,
        index: usize,
        label: &Label,
        old: &Label,
        new: &Label,
    ) -> Result<Reply, ApplyError>
        ensures taken { Takes index self.old (command.Replace label.now old.now new.now) result self.new }
        ensures kept { KeepsStart self.old self.new }
    {
        let draft = &*self;
        let entries = draft.entries.as_slice();
        let Some((place, entry)) = find_entry(entries, &draft.places, label.as_slice()) else {
            return Err(refused(index, Reason::UnknownLabel));
        };
        let cited = match draft.find_replacement(entry, old, new) {
            Ok(cited) => cited,
            Err(reason) => return Err(refused(index, reason)),
        };
        self.list_citer(cited, place)?;
        self.recite(alloc, place, old, new)?;
        Ok(Reply::Done)
    }

    /// The place of the assertion with a label, and the assertion with another rank, which passed all tests.
    fn try_rank(
        &self,
        alloc: Global,
        index: usize,
        label: &Label,
        rank: u32,
    ) -> Result<(usize, Ranked), ApplyError>
        ensures refused { IfErr result (λ error. Takes index self.now (command.Move label.now rank) (Err error) self.now) }
        ensures passed { IfOk result (λ made. ChangesOne self.now (command.Move label.now rank) (with_rank rank) made.0 made.1) }
        ensures covered { IfOk result (λ made. Covers self.now.citers (set self.now.entries made.0 (Some made.1))) }
    {
        let entries = self.entries.as_slice();
        let Some((place, entry)) = find_entry(entries, &self.places, label.as_slice()) else {
            return Err(refused(index, Reason::UnknownLabel));
        };
        if rank == 0 {
            return Err(refused(index, Reason::BadRank));
        }
        if cites_not_below(entries, &self.places, rank, &entry.assertion.proof) {
            return Err(refused(index, Reason::CitedNotLower));
        }
        let citers = self.citers[place].as_slice();
        if has_citer_below(entries, citers, rank, label.as_slice()) {
            return Err(refused(index, Reason::CiterNotHigher));
        }
        let mut moved = entry.copy(alloc)?;
        moved.rank = rank;
        Ok((place, moved))
    }

    fn move_to(
        &mut self,
        alloc: Global,
        index: usize,
        label: &Label,
        rank: u32,
    ) -> Result<Reply, ApplyError>
        ensures taken { Takes index self.old (command.Move label.now rank) result self.new }
        ensures kept { KeepsStart self.old self.new }
    {
        let (place, moved) = self.try_rank(alloc, index, label, rank)?;
        self.replace(place, moved)?;
        Ok(Reply::Done)
    }

    fn delete(&mut self, index: usize, label: &Label) -> Result<Reply, ApplyError>
        ensures taken { Takes index self.old (command.Delete label.now) result self.new }
        ensures kept { KeepsStart self.old self.new }
    {
        let entries = self.entries.as_slice();
        let Some(place) = find_label(entries, &self.places, label.as_slice()) else {
            return Err(refused(index, Reason::UnknownLabel));
        };
        let citers = self.count_citers(place, label.as_slice());
        if citers > 0 {
            return Err(refused(index, Reason::StillCited(citers as u64)));
        }
        self.remove(place)?;
        Ok(Reply::Done)
    }

    fn show(&self, alloc: Global, index: usize, label: &Label) -> Result<Reply, ApplyError>
        ensures { Takes index self.now (command.Show label.now) result self.now }
    {
        let entries = self.entries.as_slice();
        let Some((place, entry)) = find_entry(entries, &self.places, label.as_slice()) else {
            return Err(refused(index, Reason::UnknownLabel));
        };
        let assertion = entry.assertion.copy(alloc)?;
        let citers = self.count_citers(place, label.as_slice());
        Ok(Reply::Shown {
            rank: entry.rank,
            citers: citers as u64,
            assertion,
        })
    }

    fn list(&self, alloc: Global) -> Result<Reply, ApplyError>
        ensures { (index : ℕ) → Takes index self.now command.List result self.now }
    {
        let lines = list_lines(alloc, self.entries.as_slice(), &self.places)?;
        Ok(Reply::Listed(lines))
    }

    fn take(&mut self, alloc: Global, index: usize, command: &Command) -> Result<Reply, ApplyError>
        requires { Verifies self.old.setting (now_in self.old) }
        ensures taken { Takes index self.old command.now result self.new }
        ensures kept { KeepsStart self.old self.new }
    {
        match command {
            Command::Add { rank, assertion } => self.add(alloc, index, *rank, assertion),
            Command::Reprove { label, steps } => self.reprove(alloc, index, label, steps),
            Command::Replace { label, old, new } => {
                self.replace_citation(alloc, index, label, old, new)
            }
            Command::Rename { old, new } => self.rename(alloc, index, old, new),
            Command::Move { label, rank } => self.move_to(alloc, index, label, *rank),
            Command::Delete { label } => self.delete(index, label),
            Command::Show { label } => self.show(alloc, index, label),
            Command::List => self.list(alloc),
        }
    }

    /// All commands in order, up to the first that is refused.
    pub fn take_all(
        &mut self,
        alloc: Global,
        commands: &[Command],
    ) -> Result<Sequence<Reply>, ApplyError>
        requires verifies { Verifies self.old.setting (now_in self.old) }
        requires fit { All (CommandFits self.old.setting.prelude) commands.now }
        ensures taken { TakesAll self.old commands.now result self.new }
        ensures kept { KeepsStart self.old self.new }
    {
        let mut replies = Vec::new(alloc);
        for (i, command) in commands.iter().enumerate() {
            let reply = self.take(alloc, i + 1, command)?;
            replies.push(reply).map_err(AllocError::from)?;
        }
        Ok(Sequence::from_vec(replies))
    }
}

/// The refusal of a command, by its number in the transaction, counted from 1.
fn refused(index: usize, reason: Reason) -> ApplyError
    ensures { result ≡ error.Refused (record { index = index; reason = reason }) }
{
    ApplyError::Refused(Refused { index, reason })
}
