// Rule 3: hints, one by one.
//
// The turns are counted: one for each hint that is looked at, one for each halving of the search for its clause, and one for
// each literal of that clause. They are counted up to the greatest number, so that no slice can be too long.
//
// The place of a hint's clause is guessed two hints ahead and peeked at one hint ahead, before the clause of the hint in front of
// it is looked at. So the memory where the guess and the head stand is fetched while there is something else to do, and is there
// when it is needed. Neither takes a turn.
ghost use Rattle.std.specs.Prelude.{◌≡◌, ◌<◌, ◌^◌, map};
ghost use Rattle.clauses.specs.Codes.{half};
ghost use Rattle.clauses.specs.Store.{RoomFor, live_of};
ghost use Rattle.clauses.specs.Finding.{Peeks};
ghost use Rattle.assignment.specs.Lent.{Same};
ghost use Rattle.judge.specs.Hints.{Ready, Hints, Forcible, ForcesOne, TakesOne, Ahead, Takes};

use assignment::{Assignment, Look};
use clauses::{Timed, View};

// What taking hints comes to, one or all of them: what they force is true from now on; or the last of them is a conflict.
#[derive(Clone, Copy)]
pub enum Effect {
    Forced,
    Conflict,
}

// Why no further hint is taken: the clause of this hint is not live; it neither forces a literal nor is a conflict; or there is
// no room on the tape for what it forces.
#[derive(Clone, Copy)]
pub enum Fault {
    NotLive(u64),
    NotForced(u64),
    TooShort,
}

// What the clause `id` shows, behind a peek for it; or nothing, if it is not live.
// (`Peeks` is asked here and no type holds it: what was peeked is an `Option<usize>`, and the view and the id that it belongs to
// stand beside it.)
#[inline]
pub fn hint(view: View, peeked: Option<usize>, marks: &[u8], id: u64) -> Timed<Option<Look>>
    requires ready { Ready view.heads.now view.lits.now view.n marks.now }
    requires id_bound { id < 2 ^ 60 }
    requires peeked { Peeks view.heads.now view.n id peeked }
    ensures { Hints view.entry.heads.now view.entry.lits.now view.entry.n marks.now id result.value result.turns }
{
    let found = view.lookup_at(peeked, id);
    match found.value {
        Some(place) => {
            let clause = view.clause(place);
            let look = assignment::look_at(clause, marks);
            Timed {
                value: Some(look),
                turns: found.turns + clause.len() as u64,
            }
        }
        None => Timed {
            value: None,
            turns: found.turns,
        },
    }
}

// The same under an assignment. (Tried: `hint` with `a.marks` where `a` is written to behind it. The proof then knows no more of
// the marks than how many there are.)
#[inline]
fn hint_under(view: View, peeked: Option<usize>, a: &Assignment, id: u64) -> Timed<Option<Look>>
    requires ready { Ready view.heads.now view.lits.now view.n a.now.marks.now }
    requires id_bound { id < 2 ^ 60 }
    requires peeked { Peeks view.heads.now view.n id peeked }
    ensures { Hints view.entry.heads.now view.entry.lits.now view.entry.n a.now.marks.now id result.value result.turns }
{
    hint(view, peeked, a.marks, id)
}

// The literal `x`, which has no value, becomes true, if there is room on the tape.
#[inline]
fn force(a: &mut Assignment, x: u32) -> Result<Effect, Fault>
    requires { Forcible a.old.marks.now a.old.tape.now a.old.t x }
    ensures forces { ForcesOne a.old.marks.now a.old.tape.now a.old.t x a.new.marks.now a.new.tape.now result a.new.t }
    ensures same { Same a.old a.new }
{
    if a.tape.len() <= a.t {
        return Err(Fault::TooShort);
    }
    let back = clauses::opposite(x);
    a.falsify(back);
    Ok(Effect::Forced)
}

// Takes the hint `id`, behind a peek for it.
#[inline]
fn take_one(
    view: View,
    peeked: Option<usize>,
    a: &mut Assignment,
    id: u64,
) -> Timed<Result<Effect, Fault>>
    requires ready { Ready view.heads.now view.lits.now view.n a.old.marks.now }
    requires id_bound { id < 2 ^ 60 }
    requires peeked { Peeks view.heads.now view.n id peeked }
    ensures takes { TakesOne view.entry.heads.now view.entry.lits.now view.entry.n a.old.marks.now a.old.tape.now a.old.t id a.new.marks.now a.new.tape.now result.value a.new.t result.turns }
    ensures same { Same a.old a.new }
{
    let seen = hint_under(view, peeked, a, id);
    let value = match seen.value {
        None => Err(Fault::NotLive(id)),
        Some(Look::AllFalse) => Ok(Effect::Conflict),
        Some(Look::Forces(x)) => force(a, x),
        Some(Look::Neither) => Err(Fault::NotForced(id)),
    };
    Timed {
        value,
        turns: seen.turns + 1,
    }
}

// Where the clause of the `i`-th hint probably is; any place will do, as there is none behind the last hint.
#[inline]
fn guess_at(view: View, hints: &[u32], i: usize) -> usize {
    hints
        .get(i)
        .map_or(0, |hint| view.guessed(clauses::half(*hint)))
}

// The place of the clause of the `i`-th hint, if it is the one guessed. Behind the last hint there is nothing to peek at.
#[inline]
fn peek_at(view: View, guessed: usize, hints: &[u32], i: usize) -> Option<usize>
    requires { RoomFor view.heads.now view.n }
    ensures { Ahead view.entry.heads.now view.entry.n hints.now i result }
{
    view.peek(guessed, clauses::half(*hints.get(i)?))
}

// Takes the hints, one by one.
pub fn take_hints(view: View, a: &mut Assignment, hints: &[u32]) -> Timed<Result<Effect, Fault>>
    requires { Ready view.heads.now view.lits.now view.n a.old.marks.now }
    ensures takes { Takes (live_of view.entry.heads.now view.entry.lits.now view.entry.n) view.entry.n (map half hints.now) a.old.marks.now a.old.tape.now a.old.t a.new.marks.now a.new.tape.now result.value a.new.t result.turns }
    ensures same { Same a.old a.new }
{
    let mut turns: u64 = 0;
    let mut ahead = peek_at(view, guess_at(view, hints, 0), hints, 0);
    let mut near = guess_at(view, hints, 1);
    for (i, hint) in hints.iter().enumerate() {
        let id = clauses::half(*hint);
        let peeked = ahead;
        ahead = peek_at(view, near, hints, i + 1);
        near = guess_at(view, hints, i + 2);
        let taken = take_one(view, peeked, a, id);
        turns = clauses::plus(turns, taken.turns);
        if !matches!(taken.value, Ok(Effect::Forced)) {
            return Timed {
                value: taken.value,
                turns,
            };
        }
    }
    Timed {
        value: Ok(Effect::Forced),
        turns,
    }
}
