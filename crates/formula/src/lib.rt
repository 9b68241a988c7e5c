// Formulas: read from bytes into the store of clauses, by document 01, section 3, and written out again.
//
// The way of the data: `opening` passes the comment lines and reads the line `p cnf V C`; `body` reads the clauses; `writer`
// (a crate of its own) writes them out. Room goes by what occurs in the text and not by what the header announces.
// The functions take a text and a place in it: `ReadsClause` and `ReadsBody` speak of places in the whole text, and what
// they say may not change.
// What is promised of unreadable bytes is only that they are found out, and of a store that is too short that it was.
#![tactic(auto)]

pub mod body;
mod opening;

ghost use Rattle.std.specs.Prelude.{◌≡◌, ◌+◌, ◌<◌, ◌≤◌, length, drop};
ghost use Rattle.rules.specs.Limits.{max_variable, max_clauses};
ghost use Rattle.rules.specs.Text.{tokens};
ghost use Rattle.writer.specs.Text.{Formed, formula_of};
ghost use Rattle.formula.specs.Reading.{Ended, Finishes, ReadsRest, Reads};
ghost use Rattle.formula.specs.Writing.{not_read, WritesStored, Writes};

use clauses::View;
pub use opening::Header;
use text::Token;

// The greatest variable, and the greatest number of clauses, by document 01, sections 2 and 3.
pub const MAX_VARIABLE: u64 = 16777215;

pub const MAX_CLAUSES: u64 = 16777215;

// Why reading stopped: what stands in the text is not readable, or one of the parts of the store is too short for it.
#[derive(Clone, Copy, PartialEq, Eq)]
pub enum Fault {
    Unreadable,
    TooShort,
}

// Where reading stopped, and why: the place in the text, how many literals were stored, and how many clauses were closed.
// (`steps::Stopped` has the same shape, but hints are counted there and clauses here: one struct would have names that fit neither.)
#[derive(Clone, Copy)]
pub struct Stopped {
    pub fault: Fault,
    pub at: usize,
    pub used: usize,
    pub closed: usize,
}

// A formula that lies in the store: V, the number of clauses, how many literals they have, and the greatest variable that
// occurs.
#[derive(Clone, Copy)]
pub struct Stored {
    pub vars: u64,
    pub clauses: usize,
    pub used: usize,
    pub top: u32,
}

// Whether no token is left from `at` on.
fn ended(s: &[u8], at: usize) -> bool
    ensures { Ended (tokens (drop at s.now)) result }
{
    matches!(text::token_at(s, at).token, Token::Nothing)
}

// All clauses are read, and these are their literals; behind the last one there have to be blanks alone.
fn finish(s: &[u8], next: usize, header: Header, lits: &[u32]) -> Result<Stored, Stopped>
    ensures { Finishes s.now next header.vars header.clauses lits.now result }
{
    if !ended(s, next) {
        return Err(Stopped {
            fault: Fault::Unreadable,
            at: next,
            used: lits.len(),
            closed: header.clauses,
        });
    }
    Ok(Stored {
        vars: header.vars,
        clauses: header.clauses,
        used: lits.len(),
        top: body::greatest_code(lits) / 2,
    })
}

// What stands behind the line `p cnf V C`, whose line feed is at `feed`.
fn read_rest(
    s: &[u8],
    feed: usize,
    header: Header,
    heads: &mut [u32],
    lits: &mut [u32],
) -> Result<Stored, Stopped>
    requires feed_in_bounds { feed ≤ length s.now }
    requires vars_le_max_variable { (header.vars ≤ max_variable) × (header.clauses ≤ max_clauses) }
    ensures { ReadsRest header.vars header.clauses s.now feed heads.old lits.old heads.new lits.new result }
{
    if heads.len() < 3 {
        return Err(Stopped {
            fault: Fault::TooShort,
            at: feed,
            used: 0,
            closed: 0,
        });
    }
    clauses::begin(heads);
    let at = opening::behind(s, feed);
    let done = body::read_clauses(s, at, header, heads, lits)?;
    finish(s, done.next, header, &lits[..done.used])
}

// Reads a formula into the store.
// (`heads` and `lits` stand apart: the C interface lends them as two slices, and `Reads` names both, before and after.)
pub fn read(formula: &[u8], heads: &mut [u32], lits: &mut [u32]) -> Result<Stored, Stopped>
    ensures { Reads formula.now heads.old lits.old heads.new lits.new result }
{
    let start = opening::after_comments(formula);
    let feed = opening::first(formula, start, b'\n');
    match opening::announced(&formula[start..feed]) {
        Some(header) => read_rest(formula, feed, header, heads, lits),
        None => Err(Stopped {
            fault: Fault::Unreadable,
            at: start,
            used: 0,
            closed: 0,
        }),
    }
}

// Why no formula was written: it is unreadable, the store is too short for it, or the output is.
#[derive(Clone, Copy, PartialEq, Eq)]
pub enum NotWritten {
    Unreadable { at: usize },
    StoreTooShort { at: usize },
    OutputTooShort,
}

impl From<Stopped> for NotWritten {
    ghost from_gives = { λ stop e. e ≡ not_read stop };

    fn from(stop: Stopped) -> NotWritten {
        match stop.fault {
            Fault::Unreadable => NotWritten::Unreadable { at: stop.at },
            Fault::TooShort => NotWritten::StoreTooShort { at: stop.at },
        }
    }
}

// The formula that lies in the store goes to the output, if it fits; else the output stays as it was. Returns how many bytes
// were written.
// (`Formed` is asked here and in `writer` and is no ghost field of `View`: other crates build views of stores that are not formed so.)
fn write_stored(view: View, vars: u64, out: &mut [u8]) -> Result<usize, NotWritten>
    requires { Formed view.heads.now view.lits.now view.n }
    ensures { WritesStored (formula_of view.entry.heads.now view.entry.lits.now view.entry.n vars) out.old out.new result }
{
    let length = writer::written_length(view, vars, out.len())
        .value
        .ok_or(NotWritten::OutputTooShort)?;
    writer::write_formula(view, vars, out);
    Ok(length)
}

// Reads a formula and writes it out: one clause to a line, no comments. Returns how many bytes were written.
pub fn write(
    formula: &[u8],
    heads: &mut [u32],
    lits: &mut [u32],
    out: &mut [u8],
) -> Result<usize, NotWritten>
    ensures { Writes formula.now heads.old lits.old out.old out.new result }
{
    let stored = read(formula, heads, lits)?;
    let view = View {
        heads,
        lits,
        guess: &[],
        n: stored.clauses,
    };
    write_stored(view, stored.vars, out)
}
