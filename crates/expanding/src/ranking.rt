//! Where something is put in a source, as a rank of the library that is taken of it.

ghost use Rattle.std.specs.Prelude.{◌≡◌, ◌++◌, ◌≤◌, ◌∷◌, [], ℕ, Bool, None, IfOk, IfErr, OnOk, List, map, length, slice_get, slice_set, ◌<◌};
ghost use Rattle.mmtext.specs.Text.{Token as Word};
ghost use Rattle.mmtext.specs.Views.{seen};
ghost use Rattle.expanding.specs.Refusals.{IsUnranked};
ghost use Rattle.spreading.specs.Forms.{words_before_place, beginning_of};
ghost use Rattle.expanding.specs.Ranking.{IsRanked, gap_of_place, gap_of, taken_among, ranked_place, ranked_part, crowded_at, crowded_behind};
ghost use Rattle.expanding.specs.Views.{IsLaid, IsRanker, IsRankerOf, IsGiven, IsTooMany, with_gap, with_beginning, AreFronts};

use crate::laid::Laid;
use crate::unranked::Unranked;
use mmtext::Token;
use source::Declared;
use spreading::{is_behind, is_beside, part_length, split_place};
use std::alloc::{AllocError, Global};

/// The most that scripts may put at one place.
const MOST_BESIDE: usize = 99;

/// Gives ranks to what scripts put beside assertions of a source, of which a library is taken.
#[derive(Drop)]
pub struct Ranker {
    /// Of each front of the source's assertions, how many of it are taken.
    fronts: Vec<usize>,
    /// How many were put behind so many assertions of the library.
    counts: Vec<usize>,
}

/// Of each front of these flags, how many of it are set.
fn fronts_of(alloc: Global, flags: &[bool]) -> Result<Vec<usize>, AllocError>
    ensures { IfOk result (λ fronts. AreFronts flags.now fronts.items) }
{
    let mut count = 0;
    let mut fronts = vec![in alloc; 0]?;
    for flag in flags {
        count += usize::from(*flag);
        fronts.push(count)?;
    }
    Ok(fronts)
}

/// The place of a part that begins a transaction.
fn beginning_of(part: &[Token<'_>]) -> Option<usize>
    ensures { result ≡ beginning_of (map seen part.now) }
{
    let first = part.first()?;
    if first.text == b"begin".as_slice() {
        return Some(first.place);
    }
    None
}

impl Ranker {
    /// Before any script, over a library of the assertions of the source that are taken, as flags say of each.
    ///
    /// # Errors
    ///
    /// Want of memory.
    pub fn new(alloc: Global, flags: &[bool]) -> Result<Ranker, AllocError>
        ensures { IfOk result (IsRanker flags.now []) }
    {
        let fronts = fronts_of(alloc, flags)?;
        let taken = flags.iter().filter(|flag| **flag).count();
        let counts = vec![in alloc; 0; taken + 1]?;
        Ok(Ranker { fronts, counts })
    }

    /// How many are taken of so many assertions of the source, if it has so many.
    fn taken_of(&self, front: usize) -> Option<usize>
        ensures { result ≡ slice_get self.now.fronts.items front }
    {
        self.fronts.get(front).copied()
    }

    /// How many were put behind so many assertions of the library, if it has so many.
    fn many_at(&self, gap: usize) -> Option<usize>
        ensures { result ≡ slice_get self.now.counts.items gap }
    {
        self.counts.get(gap).copied()
    }

    /// Notes that so many were put behind so many assertions of the library.
    fn note(&mut self, gap: usize, many: usize)
        requires { gap < length self.old.counts.items }
        ensures fronts { self.new.fronts.items ≡ self.old.fronts.items }
        ensures counts { self.new.counts.items ≡ slice_set self.old.counts.items gap many }
    {
        self.counts[gap] = many;
    }

    /// How many assertions of the library stand in front of what two words put beside an assertion, if they do.
    fn gap_of<'a, D: Declared<'a>>(
        &self,
        declared: &D,
        how: Token<'_>,
        label: Token<'_>,
    ) -> Option<usize>
        ensures { (flags : List Bool) (earlier : List ℕ) → IsRankerOf (D.scope declared.now) flags earlier self.now
            → result ≡ gap_of_place (D.scope declared.now) flags (seen how.entry ∷ seen label.entry ∷ []) }
    {
        if !is_beside(how) {
            return None;
        }
        let place = declared.place_of(label.text)?;
        let front = place.checked_add(usize::from(is_behind(how)))?;
        self.taken_of(front)
    }

    /// One more is put behind so many assertions: its rank. None where as many were put there as may be.
    fn rank_at(&mut self, gap: usize) -> Option<u128>
        ensures { (flags : List Bool) (earlier : List ℕ) → IsRanker flags earlier self.old → gap ≤ taken_among flags (length flags)
            → IsGiven flags earlier gap result self.new }
    {
        let count = self.many_at(gap)?;
        if count >= MOST_BESIDE {
            return None;
        }
        self.note(gap, count + 1);
        Some(100 * gap as u128 + (count + 1) as u128)
    }

    /// Puts words that say where something is put, and those behind them, with a rank.
    fn put_place<'w, 'a, D: Declared<'a>>(
        &mut self,
        alloc: Global,
        declared: &D,
        words: &[Token<'w>],
        laid: &mut Laid,
    ) -> Result<(), Unranked<'w>>
        ensures laid { (flags : List Bool) (earlier : List ℕ) → IsRankerOf (D.scope declared.now) flags earlier self.old
            → OnOk result ((ts : List Word) → IsLaid ts laid.old
            → IsLaid (ts ++ ranked_place (D.scope declared.now) flags earlier (map seen words.now)) laid.new) }
        ensures beginnings { OnOk result (laid.new.beginnings.items ≡ laid.old.beginnings.items) }
        ensures uncrowded { (flags : List Bool) (earlier : List ℕ) → IsRankerOf (D.scope declared.now) flags earlier self.old
            → OnOk result (crowded_at earlier (gap_of_place (D.scope declared.now) flags (map seen words.now))
            (map seen words.now) ≡ None) }
        ensures ranker { (flags : List Bool) (earlier : List ℕ) → IsRankerOf (D.scope declared.now) flags earlier self.old
            → OnOk result (IsRankerOf (D.scope declared.now) flags
            (with_gap earlier (gap_of_place (D.scope declared.now) flags (map seen words.now))) self.new) }
        ensures crowded { (flags : List Bool) (earlier : List ℕ) → IsRankerOf (D.scope declared.now) flags earlier self.old
            → IfErr result (IsTooMany (crowded_at earlier (gap_of_place (D.scope declared.now) flags (map seen words.now))
            (map seen words.now))) }
    {
        let [how, label, others @ ..] = words else {
            laid.put_words(words)?;
            return Ok(());
        };
        let Some(gap) = self.gap_of(declared, *how, *label) else {
            laid.put_words(words)?;
            return Ok(());
        };
        let Some(rank) = self.rank_at(gap) else {
            return Err(Unranked::Crowded(*how));
        };
        laid.put_rank(alloc, rank, how.place)?;
        laid.put_words(others)?;
        Ok(())
    }

    /// Puts a part, with a rank where it puts something beside an assertion.
    fn put_part<'w, 'a, D: Declared<'a>>(
        &mut self,
        alloc: Global,
        declared: &D,
        part: &[Token<'w>],
        laid: &mut Laid,
    ) -> Result<(), Unranked<'w>>
        ensures laid { (flags : List Bool) (earlier : List ℕ) → IsRankerOf (D.scope declared.now) flags earlier self.old
            → OnOk result ((ts : List Word) → IsLaid ts laid.old
            → IsLaid (ts ++ ranked_part (D.scope declared.now) flags earlier (map seen part.now)) laid.new) }
        ensures beginnings { OnOk result (laid.new.beginnings.items
            ≡ with_beginning laid.old.beginnings.items (beginning_of (map seen part.now))) }
        ensures uncrowded { (flags : List Bool) (earlier : List ℕ) → IsRankerOf (D.scope declared.now) flags earlier self.old
            → OnOk result (crowded_behind (D.scope declared.now) flags earlier (map seen part.now)
            (words_before_place (map seen part.now)) ≡ None) }
        ensures ranker { (flags : List Bool) (earlier : List ℕ) → IsRankerOf (D.scope declared.now) flags earlier self.old
            → OnOk result (IsRankerOf (D.scope declared.now) flags
            (with_gap earlier (gap_of (D.scope declared.now) flags (map seen part.now))) self.new) }
        ensures crowded { (flags : List Bool) (earlier : List ℕ) → IsRankerOf (D.scope declared.now) flags earlier self.old
            → IfErr result (IsTooMany (crowded_behind (D.scope declared.now) flags earlier (map seen part.now)
            (words_before_place (map seen part.now)))) }
    {
        laid.begin_at(beginning_of(part))?;
        let (front, place) = split_place(part);
        laid.put_words(front)?;
        self.put_place(alloc, declared, place, laid)
    }

    /// The text of a script, of which these are the words by the source, with a rank for each `behind` and `before`: in front of what it
    /// puts stand the assertions of the library up to the one that it names, and what was put there before.
    ///
    /// # Errors
    ///
    /// The first word that puts something where 99 were put before; want of memory. No more scripts can be ranked then.
    pub fn rank<'w, 'a, D: Declared<'a>>(
        &mut self,
        alloc: Global,
        declared: &D,
        words: &[Token<'w>],
    ) -> Result<Laid, Unranked<'w>>
        ensures ranked { (flags : List Bool) (earlier : List ℕ) → IsRanker flags earlier self.old
            → length flags ≡ length (D.scope declared.now).assertions
            → IfOk result (λ laid. (out : List Word) × (gaps : List ℕ) × IsLaid out laid × IsRanker flags (earlier ++ gaps) self.new
            × IsRanked (D.scope declared.now) flags earlier (map seen words.now) out gaps laid.beginnings.items) }
        ensures crowded { (flags : List Bool) (earlier : List ℕ) → IsRanker flags earlier self.old
            → length flags ≡ length (D.scope declared.now).assertions
            → IfErr result (IsUnranked (D.scope declared.now) flags earlier (map seen words.now)) }
    {
        let mut laid = Laid::new(alloc);
        let mut at = 0;
        while at < words.len() {
            let rest = &words[at..];
            let part = &rest[..part_length(rest)];
            self.put_part(alloc, declared, part, &mut laid)?;
            at += part.len();
        }
        Ok(laid)
    }
}
