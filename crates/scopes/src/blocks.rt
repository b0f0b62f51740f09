//! Blocks that are opened and closed.

ghost use Rattle.std.specs.Prelude.{◌≡◌, OnOk, Some, None, true, false, if◌then◌else◌};
ghost use Rattle.source.specs.Scopes.{opened, closed};
ghost use Rattle.scopes.specs.Views.{kept_of, stand_of};
ghost use Rattle.scopes.specs.Sound.{IsSoundTables};

use crate::tables::{Block, Tables};
use std::alloc::AllocError;

/// A block is opened.
pub(crate) fn open_block(tables: &mut Tables<'_>) -> Result<(), AllocError>
    requires { IsSoundTables tables.old }
    ensures sound { OnOk result (IsSoundTables tables.new) }
    ensures stand { OnOk result (stand_of (kept_of tables.new) ≡ opened (stand_of (kept_of tables.old))) }
{
    let block = Block {
        constants: tables.constants.len(),
        variables: tables.variables.len(),
        active: tables.active.len(),
        apart: tables.last_apart,
        symbols: tables.symbols.len(),
        labels: tables.labels.len(),
        assertions: tables.assertions.len(),
    };
    tables.blocks.push(block)?;
    Ok(())
}

/// The block that is open is closed: whether there is one. What was active in it alone is taken off.
pub(crate) fn close_block(tables: &mut Tables<'_>) -> bool
    requires { IsSoundTables tables.old }
    ensures sound { IsSoundTables tables.new }
    ensures closed { closed (stand_of (kept_of tables.old)) ≡ (if result then Some (stand_of (kept_of tables.new)) else None) }
    ensures same { result ≡ false → kept_of tables.new ≡ kept_of tables.old }
{
    let Some(block) = tables.blocks.pop() else {
        return false;
    };
    tables.variables.truncate(block.variables);
    tables.active.truncate(block.active);
    tables.last_apart = block.apart;
    true
}
