//! Databases and scripts from files.

ghost use Rattle.std.specs.Prelude.{All, IfSome};
ghost use Rattle.library.specs.Fitting.{CommandFits};

use library::Script;
use mmstatement::{Database, Prelude, read_database};
use scripts::read_script;
use std::fs;
use std::hash::RandomState;
use std::rt::Files;

/// The slots of a library.
pub(crate) const SLOTS: usize = 4096;

/// The most words that a store has room for.
pub(crate) const ROOM: usize = 16_777_216;

/// The database in a file. None where there is none, or no memory.
pub(crate) fn read_db(
    rt: &(impl AllocGlobal + Files),
    keys: RandomState,
    path: &str,
) -> Option<Database> {
    let text = fs::read(rt, path).ok()?;
    read_database(rt.alloc(), keys, text.as_slice()).ok()
}

/// Puts the script in a file behind others. None where there is none, or no memory.
fn put_script(
    rt: &(impl AllocGlobal + Files),
    prelude: &Prelude,
    path: &str,
    scripts: &mut Vec<Script>,
) -> Option<()>
    requires { All (All (All (CommandFits prelude.now))) scripts.old.items }
    ensures { All (All (All (CommandFits prelude.now))) scripts.new.items }
{
    let text = fs::read(rt, path).ok()?;
    let script = read_script(rt.alloc(), prelude, text.as_slice()).ok()?;
    scripts.push(script).ok()
}

/// Puts the scripts in files behind others. None where one of the files has none, or there is no memory.
fn put_scripts(
    rt: &(impl AllocGlobal + Files),
    prelude: &Prelude,
    paths: &[String],
    scripts: &mut Vec<Script>,
) -> Option<()>
    requires { All (All (All (CommandFits prelude.now))) scripts.old.items }
    ensures { All (All (All (CommandFits prelude.now))) scripts.new.items }
{
    for path in paths {
        put_script(rt, prelude, path.as_str(), scripts)?;
    }
    Some(())
}

/// The scripts in files. None where one of them has none, or there is no memory.
pub(crate) fn read_scripts(
    rt: &(impl AllocGlobal + Files),
    prelude: &Prelude,
    paths: &[String],
) -> Option<Vec<Script>>
    ensures { IfSome result (λ v. All (All (All (CommandFits prelude.now))) v.items) }
{
    let mut scripts = Vec::new(rt.alloc());
    let are_read = put_scripts(rt, prelude, paths, &mut scripts).is_some();
    are_read.then_some(scripts)
}
