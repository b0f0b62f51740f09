//! Under which heading something is put in.

ghost use Rattle.std.specs.Prelude.{◌≡◌, ◌+◌, ◌≤◌, ◌<◌, ◌∷◌, ◌++◌, false, IfSome, IsTrue, List, ℕ, length, take, drop, Some, slice_get};
ghost use Rattle.std.specs.Prelude.{slice_range};
ghost use Rattle.std.specs.List.{list_any};
ghost use Rattle.source.specs.Scopes.{is_in};
ghost use Rattle.mmtext.specs.Comments.{words_of};
ghost use Rattle.mmtext.specs.Views.{seen};
ghost use Rattle.leaving.specs.Leaving.{IsBlock};
ghost use Rattle.items.specs.Items.{Item as Pieces, words, said, outside, pieces_of};
ghost use Rattle.items.specs.Reading.{AreFound, IsOfKind, Stands, tokens_at, end_of};
ghost use Rattle.arranging.specs.Parts.{Edited, known_labels, parts};
ghost use Rattle.arranging.specs.Sections.{IsUnder, IsAfter, IsBeforeFirst, IsInFront, IsAlone, NoHeading, heads, keeps, moves};
ghost use Rattle.arranging.specs.Sections.{is_list, declared, mentioned};
ghost use Rattle.arranging.specs.Places.{IsKnown, IsFirstKept, end_behind};

use crate::checking::{Checker, is_block};
use crate::coming::{Coming, Why};
use giving::LabelMap;
use items::{Item, Kind};
use leaving::{Fate, Part};
use mmtext::{Token, next_token};

/// Whether a heading is among these.
fn has_heading(parts: &[Part]) -> bool
    ensures { result ≡ list_any heads parts.now }
{
    parts.iter().any(|part| matches!(part, Part::Heading))
}

/// Whether an assertion that is put in elsewhere is among these.
fn has_moving(parts: &[Part]) -> bool
    ensures { result ≡ list_any moves parts.now }
{
    parts
        .iter()
        .any(|part| matches!(part, Part::Assertion(Fate::Moves)))
}

// ---- what keeps its place

/// Whether an item is an assertion of the library that keeps its place.
fn keeps(library: &LabelMap<'_>, moving: &LabelMap<'_>, item: Item<'_>) -> bool
    ensures { (e : Edited) (x : Pieces) → e.library ≡ known_labels library.now → e.moving ≡ known_labels moving.now
        → IsOfKind item.entry.kind x → result ≡ keeps e x }
{
    match item.kind {
        Kind::Assertion(label) => {
            library.text_for(label).is_some() && moving.text_for(label).is_none()
        }
        _ => false,
    }
}

/// How many items stand in front of the first assertion of the library that keeps its place, if one does.
pub(crate) fn first_kept(
    library: &LabelMap<'_>,
    moving: &LabelMap<'_>,
    items: &[Item<'_>],
) -> Option<usize>
    ensures { (e : Edited) (text : List ℕ) (old : List Pieces) → e.library ≡ known_labels library.now → e.moving ≡ known_labels moving.now
        → AreFound text 0 items.now old → IsFirstKept e old result }
{
    for (i, item) in items.iter().enumerate() {
        if keeps(library, moving, *item) {
            return Some(i);
        }
    }
    None
}

// ---- words

/// Whether a word is one of a text, among those from a place up to another.
fn is_word_between(text: &[u8], from: usize, end: usize, word: &[u8]) -> bool
    requires { from ≤ length text.now }
    ensures of_text { IsTrue result → IsTrue (is_in (words_of (tokens_at text.now from)) word.now) }
    ensures of_item { (x : Pieces) → Stands text.now from x end → IsTrue result → IsTrue (is_in (words x) word.now) }
{
    let mut at = from;
    while at < end {
        let Some(token) = next_token(text, at) else {
            return false;
        };
        if token.text == word {
            return true;
        }
        at = token.place + token.text.len();
    }
    false
}

/// The first word outside of comments, from a place outside of them up to another.
fn next_said(text: &[u8], from: usize, end: usize) -> Option<Token<'_>>
    requires { from ≤ length text.now }
    ensures within { IfSome result (λ t. t.place + length t.text.now ≤ length text.now) }
    ensures later { IfSome result (λ t. from < t.place + length t.text.now) }
    ensures said { IfSome result (λ t. (x : Pieces) → Stands text.now from x end
        → (y : Pieces) × Stands text.now (end_of (seen t)) y end × (outside false (words x) ≡ t.text.now ∷ outside false (words y))) }
{
    let mut at = from;
    let mut is_inside = false;
    while at < end {
        let token = next_token(text, at)?;
        at = token.place + token.text.len();
        if is_inside {
            is_inside = token.text != b"$)".as_slice();
        } else if token.text == b"$(".as_slice() {
            is_inside = true;
        } else {
            return Some(token);
        }
    }
    None
}

/// Whether a word is one of those outside of comments, from a place outside of them up to another.
fn is_said_between(text: &[u8], from: usize, end: usize, word: &[u8]) -> bool
    requires { from ≤ length text.now }
    ensures { (x : Pieces) → Stands text.now from x end → IsTrue result → IsTrue (is_in (outside false (words x)) word.now) }
{
    let mut at = from;
    while let Some(token) = next_said(text, at, end) {
        if token.text == word {
            return true;
        }
        at = token.place + token.text.len();
    }
    false
}

/// `$c` or `$v`.
fn is_list(word: &[u8]) -> bool
    ensures { result ≡ is_list word.now }
{
    word == b"$c".as_slice() || word == b"$v".as_slice()
}

/// Whether a word is one of those that a statement declares, from a place up to another, or its `$.`.
fn declares(text: &[u8], from: usize, end: usize, word: &[u8]) -> bool
    requires { from ≤ length text.now }
    ensures { (x : Pieces) → Stands text.now from x end → IsTrue result → IsTrue (is_in (declared (said x)) word.now) }
{
    let Some(first) = next_said(text, from, end) else {
        return false;
    };
    let behind = first.place + first.text.len();
    if is_list(first.text) {
        return is_said_between(text, behind, end, word);
    }
    let Some(second) = next_said(text, behind, end) else {
        return false;
    };
    if second.text != b"$f".as_slice() {
        return false;
    }
    if first.text == word {
        return true;
    }
    match next_said(text, second.place + second.text.len(), end) {
        Some(code) => is_said_between(text, code.place + code.text.len(), end, word),
        None => false,
    }
}

impl Checker<'_> {
    // ---- items

    /// Whether no heading stands among items, from a place up to another.
    fn is_section(&self, first: usize, end: usize) -> bool
        ensures same { (e : Edited) (source : List ℕ) (old : List Pieces) → IsKnown e source old self.now
            → IsTrue result → NoHeading e (slice_range old first end) }
        ensures ordered { IsTrue result → first ≤ end }
        ensures within { IsTrue result → end ≤ length self.now.parts.now }
    {
        match self.parts.get(first..end) {
            Some(section) => !has_heading(section),
            None => false,
        }
    }

    /// Whether an item stands in front of a place, without a heading between them.
    fn is_section_behind(&self, item: usize, place: usize) -> bool
        ensures { (e : Edited) (source : List ℕ) (old : List Pieces) → IsKnown e source old self.now → IsTrue result
            → (x : Pieces) × (section : List Pieces) × (slice_get old item ≡ Some x)
            × (take place old ≡ take item old ++ x ∷ section) × NoHeading e section }
    {
        item < place && self.is_section(item + 1, place)
    }

    /// Whether an item is an assertion of the library that keeps its place.
    fn keeps(&self, item: usize) -> bool
        ensures { (e : Edited) (source : List ℕ) (old : List Pieces) → IsKnown e source old self.now
            → IsTrue result → (x : Pieces) × (slice_get old item ≡ Some x) × IsTrue (keeps e x) }
    {
        match self.items.get(item) {
            Some(found) => keeps(self.library, self.moving, *found),
            None => false,
        }
    }

    /// The byte behind so many items.
    fn byte_behind(&self, count: usize) -> Option<usize>
        ensures is { IfSome result (λ at. (at ≡ end_behind 0 self.now.items.now count) × (count ≤ length self.now.items.now)) }
        ensures within { IfSome result (λ at. at ≤ length self.now.text.now) }
    {
        if count == 0 {
            return Some(0);
        }
        let end = self.items.get(count - 1)?.end;
        if end > self.text.len() {
            return None;
        }
        Some(end)
    }

    // ---- each of the reasons

    /// Whether something is put in behind an assertion of the library that keeps its place, without a heading between them.
    fn is_behind_kept(&self, item: usize, coming: Coming<'_>) -> bool
        ensures { (e : Edited) (source : List ℕ) (old : List Pieces) → IsKnown e source old self.now → IsTrue result
            → IsAfter e (take coming.entry.place old) coming.entry (drop coming.entry.place old) }
    {
        self.keeps(item) && self.is_section_behind(item, coming.place)
    }

    /// Whether an item declares a word.
    pub(crate) fn declares(&self, item: usize, word: &[u8]) -> bool
        ensures { (e : Edited) (source : List ℕ) (old : List Pieces) → IsKnown e source old self.now → IsTrue result
            → (x : Pieces) → slice_get old item ≡ Some x → IsTrue (is_in (declared (said x)) word.now) }
    {
        if item >= self.items.len() {
            return false;
        }
        match (self.byte_behind(item), self.byte_behind(item + 1)) {
            (Some(from), Some(end)) => declares(self.text, from, end, word),
            _ => false,
        }
    }

    /// Whether a word is one of those of items, from a place up to another.
    fn has_word(&self, first: usize, end: usize, word: &[u8]) -> bool
        ensures { (e : Edited) (source : List ℕ) (old : List Pieces) → IsKnown e source old self.now → IsTrue result
            → IsTrue (is_in (words (pieces_of (slice_range old first end))) word.now) }
    {
        if first > end {
            return false;
        }
        match (self.byte_behind(first), self.byte_behind(end)) {
            (Some(from), Some(to)) => is_word_between(self.text, from, to, word),
            _ => false,
        }
    }

    /// Whether a word is one of those of what is put in.
    pub(crate) fn mentions(&self, coming: Coming<'_>, word: &[u8]) -> bool
        ensures { (e : Edited) (source : List ℕ) (old : List Pieces) → IsKnown e source old self.now → IsTrue result
            → IsTrue (is_in (mentioned old coming.entry) word.now) }
    {
        is_word_between(coming.front, 0, coming.front.len(), word)
            || is_word_between(coming.back, 0, coming.back.len(), word)
            || self.has_word(coming.first, coming.end, word)
    }

    /// Whether something is put in behind what declares a word of it, or of what comes with a number and is put in at the same place,
    /// without a heading between them.
    fn is_behind_declared(
        &self,
        item: usize,
        word: &[u8],
        number: usize,
        coming: Coming<'_>,
        comings: &[Coming<'_>],
    ) -> bool
        ensures { (e : Edited) (source : List ℕ) (old : List Pieces) → IsKnown e source old self.now → e.comings ≡ comings.now
            → IsTrue result → IsAfter e (take coming.entry.place old) coming.entry (drop coming.entry.place old) }
    {
        let Some(beside) = comings.get(number) else {
            return false;
        };
        if beside.place != coming.place
            || !self.is_section_behind(item, coming.place)
            || word == b"$.".as_slice()
            || !self.declares(item, word)
        {
            return false;
        }
        self.mentions(*beside, word)
    }

    /// Whether no assertion of the library that keeps its place stands in front of a place.
    fn keeps_none_before(&self, place: usize) -> bool
        ensures { (e : Edited) (source : List ℕ) (old : List Pieces) → IsKnown e source old self.now → IsTrue result
            → list_any (keeps e) (take place old) ≡ false }
    {
        match self.first_kept {
            Some(first) => place <= first,
            None => true,
        }
    }

    /// Whether a place is in front of the first assertion of the library that keeps its place, without a heading between them.
    fn is_first(&self, place: usize, item: usize) -> bool
        ensures { (e : Edited) (source : List ℕ) (old : List Pieces) → IsKnown e source old self.now → IsTrue result
            → IsBeforeFirst e (take place old) (drop place old) }
    {
        if !self.keeps_none_before(place) || !self.is_section(place, item) {
            return false;
        }
        self.keeps(item)
    }

    /// Whether items are a block that an assertion leaves which is put in elsewhere.
    fn is_left_block(&self, first: usize, end: usize) -> bool
        ensures left { (e : Edited) (source : List ℕ) (old : List Pieces) → IsKnown e source old self.now → IsTrue result
            → IsBlock (parts e (slice_range old first end)) × IsTrue (list_any moves (parts e (slice_range old first end))) }
        ensures ordered { IsTrue result → first ≤ end }
    {
        match self.parts.get(first..end) {
            Some(block) => is_block(block) && has_moving(block),
            None => false,
        }
    }

    /// Whether a place is in front of a block that an assertion leaves which is put in elsewhere, without a heading between them.
    fn is_in_front(&self, place: usize, first: usize, end: usize) -> bool
        ensures { (e : Edited) (source : List ℕ) (old : List Pieces) → IsKnown e source old self.now → IsTrue result
            → IsInFront e (drop place old) }
    {
        self.is_section(place, first) && self.is_left_block(first, end)
    }

    /// Whether no assertion of the library keeps its place.
    fn keeps_none(&self) -> bool
        ensures { (e : Edited) (source : List ℕ) (old : List Pieces) → IsKnown e source old self.now → IsTrue result
            → IsAlone e old }
    {
        self.first_kept.is_none()
    }

    /// Whether something is put in under the heading of what it follows.
    pub(crate) fn is_under(&self, coming: Coming<'_>, comings: &[Coming<'_>]) -> bool
        ensures { (e : Edited) (source : List ℕ) (old : List Pieces) → IsKnown e source old self.now → e.comings ≡ comings.now
            → IsTrue result → IsUnder e (take coming.entry.place old) coming.entry (drop coming.entry.place old) }
    {
        match coming.why {
            Why::Behind(item) => self.is_behind_kept(item, coming),
            Why::Declared(item, word, number) => {
                self.is_behind_declared(item, word, number, coming, comings)
            }
            Why::First(item) => self.is_first(coming.place, item),
            Why::Block(first, end) => self.is_in_front(coming.place, first, end),
            Why::Alone => self.keeps_none(),
        }
    }
}
