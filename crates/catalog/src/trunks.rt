//! Which labels of the form `L.k` a library has: a map from L to them.

ghost use Rattle.std.specs.Prelude.{◌≡◌, ℕ, List, true, false, IfOk, OnOk};
ghost use Rattle.std.specs.Str.{bytes_eq};
ghost use Rattle.catalog.specs.Trunks.{lists, IsEntered, KeepsListed, KeepsOthers};

use mmsyntax::trunk;
use std::alloc::{AllocError, Global};
use std::collections::HashMap;
use std::hash::RandomState;

/// From L to the labels `L.k` that assertions have.
///
/// Labels that no assertion has any more may stand here, at the end of a transaction only where memory ran out.
pub type Trunks = HashMap<Vec<u8>, Vec<Vec<u8>>, RandomState>;

/// Puts a label into a list, unless it stands there.
fn enter_label(alloc: Global, list: &mut Vec<Vec<u8>>, label: &[u8]) -> Result<(), AllocError>
    ensures kept { (w : List ℕ) → lists list.old.items w ≡ true → lists list.new.items w ≡ true }
    ensures entered { OnOk result (lists list.new.items label.now ≡ true) }
{
    if list.iter().any(|dotted| dotted.as_slice() == label) {
        return Ok(());
    }
    let dotted = Vec::from_slice(alloc, label)?;
    list.push(dotted)?;
    Ok(())
}

/// A list of one label.
fn list_of_one(alloc: Global, label: &[u8]) -> Result<Vec<Vec<u8>>, AllocError>
    ensures { IfOk result (λ made. lists made.items label.now ≡ true) }
{
    let mut list = Vec::new(alloc);
    enter_label(alloc, &mut list, label)?;
    Ok(list)
}

/// Puts a label into the list of L, where it is `L.k`. After an error the lists have what they had.
///
/// # Errors
///
/// Want of memory.
pub fn enter_trunk(alloc: Global, trunks: &mut Trunks, label: &[u8]) -> Result<(), AllocError>
    ensures kept { KeepsListed trunks.old trunks.new }
    ensures entered { OnOk result (IsEntered trunks.new label.now) }
{
    let front = trunk(label);
    if front.len() == label.len() {
        return Ok(());
    }
    if let Some(list) = trunks.get_mut(front) {
        return enter_label(alloc, list, label);
    }
    let key = Vec::from_slice(alloc, front)?;
    let list = list_of_one(alloc, label)?;
    trunks.insert(key, list)?;
    Ok(())
}

/// Drops a label from a list.
fn drop_label(list: &mut Vec<Vec<u8>>, label: &[u8])
    ensures { (w : List ℕ) → bytes_eq label.now w ≡ false → lists list.old.items w ≡ true → lists list.new.items w ≡ true }
{
    list.retain(|dotted| dotted.as_slice() != label);
}

/// Drops the list of L, where it is empty.
fn drop_empty(trunks: &mut Trunks, front: &[u8])
    ensures { KeepsListed trunks.old trunks.new }
{
    let Some(list) = trunks.get(front) else {
        return;
    };
    if list.is_empty() {
        let _ = trunks.remove(front);
    }
}

/// Drops a label from the list of L, where it is `L.k`, and the list where no other stands in it. It takes no memory.
pub(crate) fn forget_trunk(trunks: &mut Trunks, label: &[u8])
    ensures { KeepsOthers trunks.old label.now trunks.new }
{
    let front = trunk(label);
    let Some(list) = trunks.get_mut(front) else {
        return;
    };
    drop_label(list, label);
    drop_empty(trunks, front);
}
