// Rule 4 of document 01, section 5, its first part: the groups of hints begin with exactly the ids of the live clauses that
// contain the opposite of p, each once, in increasing order. One walk over the store and over the hints finds that out. What the
// hints of a group do is not judged here, and nothing is promised of slices that hold no store.
// The hints stand beside a place in them, and are not cut: `GroupAt`, `NextGroup` and `Matches` count places from the first hint.
#![tactic(auto)]

ghost use Rattle.std.specs.Prelude.{◌≡◌, map, ◌+◌, ◌-◌, ◌/◌, ◌<◌, ◌≤◌, ◌^◌, length};
ghost use Rattle.rules.specs.Judging.{among};
ghost use Rattle.clauses.specs.Codes.{literal_of};
ghost use Rattle.clauses.specs.Moving.{Stored};
ghost use Rattle.clauses.specs.Store.{Placed};
ghost use Rattle.groups.specs.Matching.{NextGroup, GroupAt, Examined, TakesCase, literals_at, PassesCase, FinishesCase, Matches};

use clauses::{Timed, View};

// Whether the literal x is among those of a clause.
pub fn contains(clause: &[u32], x: u32) -> bool
    ensures { result ≡ among (literal_of x) (map literal_of clause.now) }
{
    clause.contains(&x)
}

// The first place from `from` on where a group begins, or the end.
// (A hint with which a group begins is told by its last bit, and not by an enum: the C interface lends a slice of `u32` for the hints.)
// (The end stands for no group, and no Option: `NextGroup`, which may not change, speaks of a place up to the end, where the
// hints are cut.)
pub fn next_group(hints: &[u32], from: usize) -> usize
    requires { from ≤ length hints.now }
    ensures { NextGroup hints.now from result }
{
    let rest = &hints[from..];
    from + rest
        .iter()
        .position(|hint| hint % 2 != 0)
        .unwrap_or(rest.len())
}

// Whether the k-th clause is live and contains the literal q. The literals of a deleted clause are not looked at; the turns are
// those of a live one's literals.
fn examine(view: View, k: usize, q: u32) -> Timed<bool>
    requires { Placed view.heads.now view.lits.now k }
    ensures { Examined view.entry.heads.now view.entry.lits.now k q result.value result.turns }
{
    if clauses::head_at(view.heads, k) % 2 != 0 {
        return Timed {
            value: false,
            turns: 0,
        };
    }
    let clause = view.clause(k);
    Timed {
        value: contains(clause, q),
        turns: clause.len() as u64,
    }
}

// The place of the group behind that at `at`, which must be the group of the clause `id`. On Err, the id at fault.
// (A bare id is the error, here and below: there is one ground, and the id is all that is to be said, so an enum would be no plainer.)
fn take_group(id: u64, hints: &[u32], at: usize) -> Result<usize, u64>
    requires { GroupAt hints.now at }
    ensures { TakesCase id hints.now at result }
{
    let Some(hint) = hints.get(at) else {
        return Err(id);
    };
    let d = clauses::half(*hint);
    if id != d {
        return Err(u64::min(id, d));
    }
    Ok(next_group(hints, at + 1))
}

// The k-th clause: if it is live and contains q, the next group must be its group. Comes to the place of the group behind, or to
// the id at fault. Counts a turn for the clause, for each literal of a live one, and for each hint that is passed.
fn pass(view: View, k: usize, hints: &[u32], at: usize, q: u32) -> Timed<Result<usize, u64>>
    requires placed { Placed view.heads.now view.lits.now k }
    requires group_at { GroupAt hints.now at }
    requires at_bound { 1 + literals_at view.heads.now k + (length hints.now - at) < 2 ^ 64 }
    ensures { PassesCase view.entry.heads.now view.entry.lits.now k hints.now at q result.turns result.value }
{
    let candidate = examine(view, k, q);
    let turns = 1 + candidate.turns;
    if !candidate.value {
        return Timed {
            value: Ok(at),
            turns,
        };
    }
    match take_group(clauses::head_at(view.heads, k) / 2, hints, at) {
        Ok(next) => Timed {
            value: Ok(next),
            turns: turns + (next - at) as u64,
        },
        Err(id) => Timed {
            value: Err(id),
            turns,
        },
    }
}

// Behind the last clause no group may be left. On Err, the id of the first that is.
fn finish(hints: &[u32], at: usize) -> Result<(), u64>
    requires { GroupAt hints.now at }
    ensures { FinishesCase hints.now at result }
{
    match hints.get(at) {
        Some(hint) => Err(clauses::half(*hint)),
        None => Ok(()),
    }
}

// Whether the groups of the hints, of which the first begins at `from`, are those of the live clauses that contain q. On Err, the
// id at fault. Counts a turn for each clause, for each literal of a live clause, and for each hint from `from` on that is passed.
pub fn match_groups(view: View, hints: &[u32], from: usize, q: u32) -> Timed<Result<(), u64>>
    requires stored { Stored view.heads.now view.lits.now view.n }
    requires next_group { NextGroup hints.now 0 from }
    ensures { Matches view.entry.heads.now view.entry.lits.now view.entry.n hints.now from q result.value result.turns }
{
    let mut at = from;
    let mut turns: u64 = 0;
    for k in 0..view.n {
        let passed = pass(view, k, hints, at, q);
        turns += passed.turns;
        match passed.value {
            Ok(next) => at = next,
            Err(id) => {
                return Timed {
                    value: Err(id),
                    turns,
                };
            }
        }
    }
    Timed {
        value: finish(hints, at),
        turns,
    }
}
