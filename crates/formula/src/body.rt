// What stands behind the line `p cnf V C`: the clauses, read into the store.
//
// The turns of a loop here can be told from what is returned: one for each literal that was stored or clause that was
// closed, and the bytes passed for the leaves below.
ghost use Rattle.std.specs.Prelude.{◌≡◌, ◌+◌, ◌*◌, ◌<◌, ◌≤◌, ◌^◌, length, []};
ghost use Rattle.rules.specs.Limits.{max_variable, max_clauses};
ghost use Rattle.clauses.specs.Store.{Holds};
ghost use Rattle.formula.specs.Body.{item_of, ReadsClause, Closes, ReadsBody, greatest};

use crate::opening::Header;
use crate::{Fault, Stopped};
use text::Token;

// What is said of a token that is neither a literal nor the 0 behind the last one.
#[derive(Clone, Copy, PartialEq, Eq)]
pub struct NoLiteral;

// What a token says in a clause over variables up to `vars`: the code of a literal, or `None` for the 0 at the end. Hints and
// ids of a proof have codes of the same kind.
pub fn item_of(t: Token, vars: u64) -> Result<Option<u32>, NoLiteral>
    requires { vars < 2 ^ 31 }
    ensures { result ≡ item_of vars t }
{
    match t {
        Token::Nought => Ok(None),
        Token::Plus(v) if v <= vars => Ok(Some((2 * v) as u32)),
        Token::Minus(v) if v <= vars => Ok(Some((2 * v + 1) as u32)),
        _ => Err(NoLiteral),
    }
}

// How far reading came: the place in the text behind what was read, and the end of the literals that were stored.
#[derive(Clone, Copy)]
pub struct Progress {
    pub next: usize,
    pub used: usize,
}

// The literals that follow, up to 0, go behind those that are stored; so many clauses were closed before.
// (The whole slice, and not what lies behind `used`: `ReadsClause` says of it what stays.)
pub fn read_clause(
    s: &[u8],
    from: Progress,
    vars: u64,
    lits: &mut [u32],
    closed: usize,
) -> Result<Progress, Stopped>
    requires at_in_bounds { from.next ≤ length s.now }
    requires used_in_bounds { from.used ≤ length lits.old }
    requires vars_le_max_variable { vars ≤ max_variable }
    ensures { ReadsClause vars s.now from.next lits.old from.used closed lits.new result }
{
    let mut i = from.next;
    let mut w = from.used;
    // A `for` would be no plainer: a turn moves on by a token, whose end is found as it is read, and the last one stores nothing.
    loop {
        let found = text::token_at(s, i);
        match item_of(found.token, vars) {
            Ok(Some(l)) => {
                if lits.len() <= w {
                    return Err(Stopped {
                        fault: Fault::TooShort,
                        at: i,
                        used: w,
                        closed,
                    });
                }
                lits[w] = l;
                w += 1;
                i = found.next;
            }
            Ok(None) => return Ok(Progress {
                next: found.next,
                used: w,
            }),
            Err(_) => return Err(Stopped {
                fault: Fault::Unreadable,
                at: i,
                used: w,
                closed,
            }),
        }
    }
}

// The clause that was read so far becomes the `k`-th, with the id k + 1, if there is room for it.
fn close(heads: &mut [u32], k: usize, clause: Progress) -> Result<(), Stopped>
    requires { k < max_clauses }
    ensures { Closes heads.old k clause heads.new result }
{
    if heads.len() <= 3 * k + 5 {
        return Err(Stopped {
            fault: Fault::TooShort,
            at: clause.next,
            used: clause.used,
            closed: k,
        });
    }
    clauses::append(heads, k, (k + 1) as u64, clause.used);
    Ok(())
}

// So many clauses from `at` on, over variables up to V, into an empty store.
pub fn read_clauses(
    s: &[u8],
    at: usize,
    header: Header,
    heads: &mut [u32],
    lits: &mut [u32],
) -> Result<Progress, Stopped>
    requires at_in_bounds { at ≤ length s.now }
    requires vars_le_max_variable { (header.vars ≤ max_variable) × (header.clauses ≤ max_clauses) }
    requires holds { Holds heads.old lits.old 0 0 0 [] }
    ensures { ReadsBody header.vars header.clauses s.now at heads.old lits.old heads.new lits.new result }
{
    let mut done = Progress { next: at, used: 0 };
    for k in 0..header.clauses {
        done = read_clause(s, done, header.vars, lits, k)?;
        close(heads, k, done)?;
    }
    Ok(done)
}

// The greatest of the numbers, or 0.
// (0 where there is none, and no Option: `greatest`, by which `Reads` says what is stored, has it so.)
pub fn greatest_code(lits: &[u32]) -> u32
    ensures { result ≡ greatest lits.now }
{
    let mut top: u32 = 0;
    for l in lits {
        top = top.max(*l);
    }
    top
}
