// Judging a deletion, document 01, section 5: the ids are taken in order, and each must be live. The clause that has an id is
// looked up in the store of live clauses and marked as deleted. It and its literals keep their room until the store is compacted;
// how much room that is, is counted here. Nothing is promised of heads that belong to no store.
#![tactic(auto)]

ghost use Rattle.std.specs.Prelude.{◌≡◌, ◌+◌, ◌-◌};
ghost use Rattle.clauses.specs.Store.{start_at, marked};
ghost use Rattle.deletion.specs.Deleting.{Headed, Removable, Deletable, DeletesOne, Deletes};

use clauses::{Timed, View};

// What a deletion came to: all ids were live; or this one was not. `dead` is one for each clause that was deleted before that and
// one for each of its literals, and `turns` how many turns the loops made, up to the greatest count.
// (A bare id is the error: there is one ground, and the id is all that is to be said, so an enum would be no plainer.)
#[derive(Clone, Copy)]
pub struct Deleted {
    pub outcome: Result<(), u64>,
    pub dead: usize,
    pub turns: u64,
}

// Deletes the `k`-th clause, which is live. Comes to one and the number of its literals.
fn remove(heads: &mut [u32], k: usize) -> usize
    requires { Removable heads.old k }
    ensures after { heads.new ≡ marked heads.old k }
    ensures count { result ≡ start_at heads.old (k + 1) - start_at heads.old k + 1 }
{
    let from = clauses::start_at(heads, k);
    let end = clauses::start_at(heads, k + 1);
    clauses::delete(heads, k);
    (end - from) + 1
}

// Deletes the clause `id`, and comes to one and the number of its literals; or to nothing, if it is not live.
// (No literals are lent, since a lookup reads none: one more struct within `View`, for the lookups alone, would be no plainer.)
fn delete_one(heads: &mut [u32], n: usize, guess: &[u32], id: u64) -> Timed<Option<usize>>
    requires { Deletable heads.old n id }
    ensures { DeletesOne heads.old n id heads.new result.value result.turns }
{
    let view = View {
        heads,
        lits: &[],
        guess,
        n,
    };
    let found = view.lookup(id);
    let turns = 1 + found.turns;
    match found.value {
        Some(place) => Timed {
            value: Some(remove(heads, place)),
            turns,
        },
        None => Timed { value: None, turns },
    }
}

// Deletes the clauses whose ids these stand for, in order, up to the first that is not live.
// (No `View`: the heads are lent to be written to, and the guesses are only read.)
pub fn delete_all(heads: &mut [u32], n: usize, guess: &[u32], ids: &[u32]) -> Deleted
    requires { Headed heads.old n }
    ensures { Deletes heads.old n ids.now heads.new result.outcome result.dead result.turns }
{
    let mut dead: usize = 0;
    let mut turns: u64 = 0;
    for code in ids {
        let id = clauses::half(*code);
        let taken = delete_one(heads, n, guess, id);
        turns = clauses::plus(turns, taken.turns);
        match taken.value {
            Some(more) => dead += more,
            None => {
                return Deleted {
                    outcome: Err(id),
                    dead,
                    turns,
                };
            }
        }
    }
    Deleted {
        outcome: Ok(()),
        dead,
        turns,
    }
}
