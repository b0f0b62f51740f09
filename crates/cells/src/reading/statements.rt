//! Reads statements back from slots, and frames.

ghost use Rattle.std.specs.Prelude.{◌≡◌, ◌<◌, IfOk, IfErr};
ghost use Rattle.mmframes.specs.Frames.{frame};
ghost use Rattle.bodystore.specs.Bodies.{kind_word, statement_of};
ghost use Rattle.cells.specs.Sight.{IsCaused, Looks, ReadsWithin};
ghost use Rattle.cells.specs.Slots.{statement_cell};
ghost use Rattle.cells.specs.Lookups.{ForEachHeld};

use crate::cells::Cells;
use crate::halt::Halt;
use crate::places::statement_cell;
use crate::words::{first_word, words_of};
use bodystore::{Statement, decode_statement};
use mmframes::frame_of;
use mmsyntax::{Frame, Kind, Label, Prelude, Proof};
use std::alloc::Global;

/// The kind of the assertion in the slot. It reads one word of its statement.
///
/// # Errors
///
/// The run halts.
pub fn kind<C: Cells>(cells: &mut C, slot: usize) -> Result<Kind, Halt>
    requires { slot < (C.sight cells.old).setting.slots }
    ensures looks { Looks (C.sight cells.old) (C.sight cells.new) }
    ensures ok { IfOk result (λ made. ForEachHeld (C.sight cells.new) slot (λ st lib e. made ≡ e.assertion.kind)) }
    ensures halts { IfErr result (IsCaused (C.sight cells.new)) }
    ensures reads { ReadsWithin (λ c. c ≡ statement_cell slot) (C.sight cells.old) (C.sight cells.new) }
{
    Ok(kind_of(first_word(cells, statement_cell(slot))?))
}

/// The kind that a word stands for.
fn kind_of(word: u64) -> Kind
    ensures { (k : _) → kind_word k ≡ word → result ≡ k }
{
    match word {
        0 => Kind::Axiom,
        _ => Kind::Theorem,
    }
}

/// The statement of the assertion in the slot: its kind, its pairs, its hypotheses and its symbols.
pub fn statement<C: Cells>(alloc: Global, cells: &mut C, slot: usize) -> Result<Statement, Halt>
    requires { slot < (C.sight cells.old).setting.slots }
    ensures looks { Looks (C.sight cells.old) (C.sight cells.new) }
    ensures ok { IfOk result (λ made. ForEachHeld (C.sight cells.new) slot (λ st lib e. made ≡ statement_of e.assertion)) }
    ensures halts { IfErr result (IsCaused (C.sight cells.new)) }
    ensures reads { ReadsWithin (λ c. c ≡ statement_cell slot) (C.sight cells.old) (C.sight cells.new) }
{
    let words = words_of(alloc, cells, statement_cell(slot))?;
    Ok(decode_statement(alloc, words.as_slice())?)
}

/// The frame of the assertion in the slot. It reads neither the label nor the proof.
pub fn frame<C: Cells>(
    alloc: Global,
    prelude: &Prelude,
    cells: &mut C,
    slot: usize,
) -> Result<Frame, Halt>
    requires { slot < (C.sight cells.old).setting.slots }
    ensures looks { Looks (C.sight cells.old) (C.sight cells.new) }
    ensures ok { IfOk result (λ made. ForEachHeld (C.sight cells.new) slot (λ st lib e. made ≡ frame prelude.now e.assertion)) }
    ensures halts { IfErr result (IsCaused (C.sight cells.new)) }
    ensures reads { ReadsWithin (λ c. c ≡ statement_cell slot) (C.sight cells.old) (C.sight cells.new) }
{
    let statement = statement(alloc, cells, slot)?;
    let bare = statement.into_assertion(Label::new(alloc), Proof::new(alloc));
    Ok(frame_of(alloc, prelude, &bare)?)
}
