//! What holds in every schedule, and of every event.
#![tactic(auto)]

ghost use Rattle.std.specs.Prelude.{ℕ, List};
ghost use Rattle.tlcore.specs.Schedules.{start};
ghost use Rattle.tlcore.specs.Opacity.{Always, NowAndLater, AtEachEvent};
ghost use Rattle.tlcore.specs.Opacity.{HistoryGrows, ReadsAreOne, DoneAreOne, WordsShow, StoresAreDone, HalvesWereWritten};
ghost use Rattle.tlcore.specs.Conflicts.{ConflictsHaveCause, HoldersHaveLocked};
ghost use Rattle.tlcore.specs.Invariant.{Invariant};
ghost use Rattle.tlcore.specs.Laws.{EachEventKeeps, BeginLeads, LookLeads, LoadLeads, RelookLeads, TakeLeads, DrawLeads};
ghost use Rattle.tlcore.specs.Laws.{CheckLeads, StoreLeads, ReleaseLeads, ReleaseFailedLeads, ReleaseVoidLeads, IdleSeatKeeps, HalvesAreWritten, OneStays};

/// What holds in every schedule, of any number of seats and cells, with entries settled in any order.
///
/// It does nothing: its contract is the theorem. A run has its place rv, and an entry its number, its reads and its writes,
/// from the draw on. Values are *one version* at k where each is that of its cell after the Done entries among the first k,
/// and no Open entry among them writes such a cell.
pub fn every_schedule()
    // The opening world meets the invariant, and each lawful event keeps it.
    ensures opening { (values : List ℕ) (seats : ℕ) → Invariant values (start values seats) }
    ensures each_event { EachEventKeeps }
    // An entry keeps its number, its reads and its writes, and once it is Done or Void it stays so.
    ensures history_grows { NowAndLater HistoryGrows }

    // (a) What each running seat has read is one version at its rv, now and later.
    ensures reads_are_one { NowAndLater ReadsAreOne }
    // (b) The reads of each Done entry n are one version at n - 1, now and later, also after an older entry becomes Done.
    ensures done_are_one { NowAndLater DoneAreOne }
    // (c) A free lock word is twice the number of the cell's last Done writer, and the value word is what that wrote. Each
    // cell that an Open entry will write is locked.
    ensures words_show { Always WordsShow }
    // (d) A Void entry has changed no value word.
    ensures stores_are_done { AtEachEvent StoresAreDone }

    // The half of each lock word, free or locked, is 0 or the number of a Done entry that writes the cell.
    ensures halves_were_written { Always HalvesWereWritten }
    // A run conflicts only where, after its Begin, another seat held or released the lock of a cell that it read or wrote.
    ensures conflicts_have_cause { ConflictsHaveCause }
    // Who holds a cell, and didn't some time before, has locked it since: its list of the cells that it has locked tells it.
    ensures holders_have_locked { HoldersHaveLocked }
{}

/// What each kind of event does to a world that meets the invariant: it is lawful under these premises, it leads to this world,
/// which meets the invariant too, and the history grows.
///
/// It does nothing: its contract is the laws, for whoever takes these steps on words of its own.
pub fn every_event()
    ensures begin { BeginLeads }
    ensures look { LookLeads }
    ensures load { LoadLeads }
    ensures relook { RelookLeads }
    ensures take { TakeLeads }
    ensures draw { DrawLeads }
    ensures check { CheckLeads }
    ensures store { StoreLeads }
    ensures release { ReleaseLeads }
    ensures release_failed { ReleaseFailedLeads }
    ensures release_void { ReleaseVoidLeads }

    // A world may gain an idle seat.
    ensures idle_seat { IdleSeatKeeps }
    // The half of each lock word is 0 or the number of a Done entry that writes the cell.
    ensures halves { HalvesAreWritten }
    // What is one version stays so while the history grows.
    ensures one_stays { OneStays }
{}
