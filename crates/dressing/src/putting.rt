//! Items as they read dressed.

ghost use Rattle.std.specs.Prelude.{◌≡◌, ◌≤◌, ◌<◌, ◌++◌, [], None, codes, false, length, IsTrue, OnOk};
ghost use Rattle.std.specs.Option.{option_map};
ghost use Rattle.items.specs.Items.{Item as Pieces};
ghost use Rattle.items.specs.Machine.{IsPut};
ghost use Rattle.items.specs.Reading.{IsItemAt, IsOfKind, Stands};
ghost use Rattle.dressing.specs.Described.{line_begin, space_with, with_comment};
ghost use Rattle.dressing.specs.Dressed.{ReadsDressed, given_for};
ghost use Rattle.dressing.specs.Putting.{opens_behind, proof_behind, put_from, word_then};

use commentwords::changed;
use giving::LabelMap;
use items::{Item, Kind};
use mmtext::next_token;
use std::alloc::AllocError;

/// In what a source is dressed.
#[derive(Drop)]
pub(crate) struct Dressing<'d> {
    /// The texts of given proofs, by the labels of their theorems.
    pub proofs: LabelMap<'d>,
    /// The labels of `$e` that change.
    pub labels: LabelMap<'d>,
    /// Whether there are none.
    pub keeps_labels: bool,
    /// Comments, by the labels of the assertions in front of which they stand.
    pub descriptions: LabelMap<'d>,
}

/// A line feed, and what stands behind the last one of some white space, if it has one.
fn line_begin(space: &[u8]) -> &[u8]
    ensures { result.now ≡ line_begin space.now }
{
    match space.iter().rposition(|byte| *byte == b'\n') {
        Some(last) => &space[last..],
        None => b"\n".as_slice(),
    }
}

/// Puts the white space in front of a word, with a comment behind it, if there is one.
fn put_space(out: &mut Vec<u8>, comment: Option<&[u8]>, space: &[u8]) -> Result<(), AllocError>
    ensures { OnOk result (out.new.items ≡ out.old.items ++ space_with (option_map (λ c. c.now) comment.entry) space.now) }
{
    out.extend_from_slice(space)?;
    let Some(comment) = comment else {
        return Ok(());
    };
    out.extend_from_slice(comment)?;
    out.extend_from_slice(line_begin(space))
}

/// A word as it reads then, where a comment is open or not.
fn word_then<'w>(labels: &'w LabelMap<'_>, is_open: bool, word: &'w [u8]) -> &'w [u8]
    ensures { result.now ≡ word_then labels.now is_open word.now }
{
    if is_open || word == b"$(".as_slice() {
        return word;
    }
    changed(labels, word)
}

/// Whether a comment is open behind a word, where one is open before it or not.
fn opens_behind(is_open: bool, word: &[u8]) -> bool
    ensures { result ≡ opens_behind is_open word.now }
{
    if is_open {
        word != b"$)".as_slice()
    } else {
        word == b"$(".as_slice()
    }
}

/// A given proof, if it stands right behind a word.
fn proof_behind<'p>(proof: Option<&'p [u8]>, is_open: bool, word: &[u8]) -> Option<&'p [u8]>
    ensures { option_map (λ p. p.now) result ≡ proof_behind (option_map (λ p. p.now) proof.entry) is_open word.now }
{
    if is_open || word != b"$=".as_slice() {
        return None;
    }
    proof
}

/// Puts a proof, and the end of its theorem.
fn put_proof(out: &mut Vec<u8>, proof: &[u8]) -> Result<(), AllocError>
    ensures { OnOk result (out.new.items ≡ out.old.items ++ (proof.now ++ codes "$.")) }
{
    out.extend_from_slice(proof)?;
    out.extend_from_slice(b"$.")
}

/// What an assertion is dressed in.
#[derive(Clone, Copy)]
struct Attire<'d> {
    /// The comment in front of it.
    comment: Option<&'d [u8]>,
    /// The text of its proof.
    proof: Option<&'d [u8]>,
}

impl<'d> Attire<'d> {
    /// Whether it is nothing.
    fn is_nothing(self) -> bool
        ensures comment { IsTrue result → self.entry.comment ≡ None }
        ensures proof { IsTrue result → self.entry.proof ≡ None }
    {
        self.comment.is_none() && self.proof.is_none()
    }
}

/// Puts an item that stands in a text from a byte up to another, with changed labels, and so dressed.
fn put_words<'w>(
    out: &mut Vec<u8>,
    labels: &'w LabelMap<'_>,
    attire: Attire<'_>,
    text: &'w [u8],
    from: usize,
    end: usize,
) -> Result<(), AllocError>
    requires order { from ≤ end }
    requires within { end ≤ length text.now }
    ensures { OnOk result ((x : Pieces) → Stands text.now from x end → out.new.items ≡ out.old.items
        ++ put_from labels.now (option_map (λ p. p.now) attire.entry.proof) false
        (with_comment (option_map (λ c. c.now) attire.entry.comment) x)) }
{
    let mut comment = attire.comment;
    let mut is_open = false;
    let mut at = from;
    while at < end {
        let Some(token) = next_token(text, at) else {
            return Ok(());
        };
        put_space(out, comment, &text[at..token.place])?;
        out.extend_from_slice(word_then(labels, is_open, token.text))?;
        if let Some(proof) = proof_behind(attire.proof, is_open, token.text) {
            return put_proof(out, proof);
        }
        comment = None;
        is_open = opens_behind(is_open, token.text);
        at = token.place + token.text.len();
    }
    Ok(())
}

/// What an item is dressed in, by its label, which only an assertion has.
fn attire_of<'d>(dressing: &Dressing<'d>, item: Item<'_>) -> Attire<'d>
    ensures comment { (x : Pieces) → IsOfKind item.entry.kind x
        → option_map (λ c. c.now) result.comment ≡ given_for dressing.now.descriptions x }
    ensures proof { (x : Pieces) → IsOfKind item.entry.kind x
        → option_map (λ p. p.now) result.proof ≡ given_for dressing.now.proofs x }
{
    match item.kind {
        Kind::Assertion(label) => Attire {
            comment: dressing.descriptions.text_for(label),
            proof: dressing.proofs.text_for(label),
        },
        _ => Attire {
            comment: None,
            proof: None,
        },
    }
}

/// Puts an item that begins behind a byte of a text, as it is dressed: as it stands there, if nothing of it changes.
pub(crate) fn put_item(
    out: &mut Vec<u8>,
    dressing: &Dressing<'_>,
    text: &[u8],
    from: usize,
    item: Item<'_>,
) -> Result<(), AllocError>
    requires keeps { IsTrue dressing.now.keeps_labels → dressing.now.labels ≡ [] }
    requires order { from < item.end }
    requires within { item.end ≤ length text.now }
    ensures { let d = dressing.now in OnOk result ((is : IsItemAt text.now from item.entry)
        → IsPut out.old.items out.new.items (ReadsDressed d.proofs d.labels d.descriptions is.item)) }
{
    let attire = attire_of(dressing, item);
    if dressing.keeps_labels && attire.is_nothing() {
        return out.extend_from_slice(&text[from..item.end]);
    }
    put_words(out, &dressing.labels, attire, text, from, item.end)
}
