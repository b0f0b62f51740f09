//! The lines of replies.

ghost use Rattle.std.specs.Prelude.{◌≡◌, ◌++◌, true, OnOk};
ghost use Rattle.std.specs.List.{flat_map};
ghost use Rattle.mmsyntax.specs.Assertions.{Fits};
ghost use Rattle.library.specs.Fitting.{ReplyFits};
ghost use Rattle.historytext.specs.Layout.{set_in, line_text, reply_text};

use crate::numbers::put_number;
use library::{Line, Reply};
use mmsyntax::{Assertion, Kind, Prelude};
use mmwriter::{put_assertion, put_word};
use std::alloc::{AllocError, Global};

/// Lines, with four spaces before each.
fn put_set_in(out: &mut Vec<u8>, lines: &[u8]) -> Result<(), AllocError>
    ensures { OnOk result (out.new.items ≡ out.old.items ++ set_in true lines.now) }
{
    let mut begins = true;
    for byte in lines {
        if begins {
            out.extend_from_slice(b"    ")?;
        }
        out.push(*byte)?;
        begins = *byte == b'\n';
    }
    Ok(())
}

/// The line of an assertion: its rank, its label, `a` or `p`, and the number of its citers.
fn put_line(out: &mut Vec<u8>, line: &Line) -> Result<(), AllocError>
    ensures { OnOk result (out.new.items ≡ out.old.items ++ line_text line.now) }
{
    out.extend_from_slice(b"   ")?;
    put_number(out, line.rank as u64)?;
    put_word(out, line.label.as_slice())?;
    match line.kind {
        Kind::Axiom => put_word(out, b"a")?,
        Kind::Theorem => put_word(out, b"p")?,
    }
    put_number(out, line.citers)?;
    out.extend_from_slice(b"\n")
}

fn put_lines(out: &mut Vec<u8>, lines: &[Line]) -> Result<(), AllocError>
    ensures { OnOk result (out.new.items ≡ out.old.items ++ flat_map line_text lines.now) }
{
    for line in lines {
        put_line(out, line)?;
    }
    Ok(())
}

fn put_listed(out: &mut Vec<u8>, prelude: &Prelude, lines: &[Line]) -> Result<(), AllocError>
    ensures { OnOk result (out.new.items ≡ out.old.items ++ reply_text prelude.now (Reply.Listed lines.now)) }
{
    out.extend_from_slice(b"  listed")?;
    put_number(out, lines.len() as u64)?;
    out.push(b'\n')?;
    put_lines(out, lines)
}

/// A line for the rank and the number of citers, then the lines of the assertion.
fn put_shown(
    alloc: Global,
    out: &mut Vec<u8>,
    prelude: &Prelude,
    rank: u32,
    citers: u64,
    assertion: &Assertion,
) -> Result<(), AllocError>
    requires { Fits prelude.now assertion.now }
    ensures { OnOk result (out.new.items ≡ out.old.items ++ reply_text prelude.now (Reply.Shown rank citers assertion.now)) }
{
    out.extend_from_slice(b"  shown")?;
    put_number(out, rank as u64)?;
    put_number(out, citers)?;
    out.push(b'\n')?;
    let mut lines = Vec::new(alloc);
    put_assertion(&mut lines, prelude, assertion)?;
    put_set_in(out, lines.as_slice())
}

/// Puts the lines of a reply behind `out`: two spaces before the first, four before each other.
///
/// After an error nothing is promised of the bytes in `out`.
pub fn put_reply(
    alloc: Global,
    out: &mut Vec<u8>,
    prelude: &Prelude,
    reply: &Reply,
) -> Result<(), AllocError>
    requires { ReplyFits prelude.now reply.now }
    ensures { OnOk result (out.new.items ≡ out.old.items ++ reply_text prelude.now reply.now) }
{
    match reply {
        Reply::Done => out.extend_from_slice(b"  done\n"),
        Reply::Shown {
            rank,
            citers,
            assertion,
        } => put_shown(alloc, out, prelude, *rank, *citers, assertion),
        Reply::Listed(lines) => put_listed(out, prelude, lines.as_slice()),
    }
}
