// Judging one addition: rules 1 to 5 of document 01, section 5, over the store of live clauses and an assignment as marks.
// Whatever the verdict, the marks are left as they were. Nothing is promised of slices that hold no store, nor of what is left
// on the tape. The turns of every loop, also of those of other crates, are counted, up to the greatest number, so that no
// slice can be too long.
// The view and the assignment go side by side, and no struct of both: one is read and the other written to, and `Fit` and
// `Ready`, which speak of both, are asked for by `judge_addition`, so that neither type can hold them.
#![tactic(auto)]

ghost use Rattle.std.specs.Prelude.{◌≡◌, ◌+◌, ◌/◌, ◌<◌, Ok, length, map, drop, slice_index};
ghost use Rattle.clauses.specs.Codes.{literal_of};
ghost use Rattle.assignment.specs.Lent.{Same};
ghost use Rattle.assignment.specs.Marks.{Marked};
ghost use Rattle.groups.specs.Matching.{GroupAt};
ghost use Rattle.judge.specs.Hints.{Ready};
ghost use Rattle.addition.specs.Verdicts.{failure_of, verdict_by, Fit};
ghost use Rattle.addition.specs.Addition.{live_in, ids_of, TriesHints, PlaceOf, JudgesGroup, JudgesGroups, JudgesRest, JudgesHints, Begun, JudgesBehind, Addable, JudgesClause, Judges};

use assignment::Assignment;
use clauses::{Timed, View};
use judge::falsifying::Obstacle;
use judge::hints::{Effect, Fault};

// Why an addition is refused, with the id, the hint or the group at fault: the id is not fresh; K holds opposites; a hint is not
// live; a hint is neither a conflict nor forces a literal; no conflict and K is empty; no conflict in the group of a clause;
// the groups are not those that they must be.
#[derive(Clone, Copy)]
pub enum Ground {
    IdNotFresh(u64),
    OppositeLiterals,
    HintNotLive(u64),
    HintNotForced(u64),
    NoConflict,
    GroupNoConflict(u64),
    GroupsDontMatch(u64),
}

// Why an addition is not accepted: it is refused, or there was no room on the tape.
#[derive(Clone, Copy)]
pub enum Failure {
    Refused(Ground),
    TooShort,
}

impl From<Fault> for Failure {
    ghost from_gives = { λ fault failure. failure ≡ failure_of fault };

    fn from(fault: Fault) -> Failure {
        match fault {
            Fault::NotLive(id) => Failure::Refused(Ground::HintNotLive(id)),
            Fault::NotForced(id) => Failure::Refused(Ground::HintNotForced(id)),
            Fault::TooShort => Failure::TooShort,
        }
    }
}

// An addition, or a part of it, is accepted, or why it is not; and the turns that it took.
pub type Judged = Timed<Result<(), Failure>>;

// The verdict on the hints of clause `d`'s group, by what taking them came to.
fn verdict_by(taken: Result<Effect, Fault>, d: u64) -> Result<(), Failure>
    ensures { result ≡ verdict_by taken d }
{
    match taken? {
        Effect::Conflict => Ok(()),
        Effect::Forced => Err(Failure::Refused(Ground::GroupNoConflict(d))),
    }
}

// Takes the hints of clause `d`'s group.
fn take_all(view: View, a: &mut Assignment, hints: &[u32], d: u64) -> Judged
    requires { Ready view.heads.now view.lits.now view.n a.old.marks.now }
    ensures judged { TriesHints (live_in view.entry) view.entry.n d (ids_of hints.now) (Ok tt) a.old.marks.now a.old.tape.now a.old.t a.new.marks.now a.new.tape.now result.value a.new.t result.turns }
    ensures same { Same a.old a.new }
{
    let taken = judge::hints::take_hints(view, a, hints);
    Timed {
        value: verdict_by(taken.value, d),
        turns: taken.turns,
    }
}

// The hints of clause `d`'s group, where making its other literals false came to this: they are looked at only if that was done.
fn try_hints(
    view: View,
    a: &mut Assignment,
    hints: &[u32],
    d: u64,
    fell: Result<(), Obstacle>,
) -> Judged
    requires { Ready view.heads.now view.lits.now view.n a.old.marks.now }
    ensures judged { TriesHints (live_in view.entry) view.entry.n d (ids_of hints.now) fell a.old.marks.now a.old.tape.now a.old.t a.new.marks.now a.new.tape.now result.value a.new.t result.turns }
    ensures same { Same a.old a.new }
{
    match fell {
        Ok(()) => take_all(view, a, hints, d),
        Err(Obstacle::SomeTrue) => Timed {
            value: Ok(()),
            turns: 0,
        },
        Err(Obstacle::TooShort) => Timed {
            value: Err(Failure::TooShort),
            turns: 0,
        },
    }
}

// The group of clause `d`, which stands at a place of the store: its literals other than `q` become false, its hints are taken,
// and all that is taken back.
fn judge_there(
    view: View,
    a: &mut Assignment,
    hints: &[u32],
    q: u32,
    d: u64,
    place: usize,
    turns: u64,
) -> Judged
    requires fit { Fit view.heads.now view.lits.now view.n a.old.marks.now }
    requires place_of { PlaceOf view.heads.now view.n d place }
    requires turns_bound { turns < 65 + length hints.now }
    ensures judged { JudgesGroup (live_in view.entry) view.entry.lits.now a.old.marks.now a.old.tape.now a.old.t q d (ids_of hints.now) turns a.new.marks.now a.new.tape.now result.value a.new.t result.turns }
    ensures same { Same a.old a.new }
{
    let start = a.t;
    let fell = judge::falsifying::falsify_others(a, view.clause(place), q);
    let tried = try_hints(view, a, hints, d, fell.value);
    let back = a.undo(start);
    // Only the hints can take more turns than can be counted: the others are few, or go with the places of a slice.
    let own = turns + fell.turns + 1 + back;
    Timed {
        value: tried.value,
        turns: clauses::plus(own, tried.turns),
    }
}

// One group: the code that begins it, and its hints. (That its clause is live is asked for before, in rule 4, but it is found
// out here too.)
fn judge_group(view: View, a: &mut Assignment, group: &[u32], q: u32) -> Judged
    requires fit { Fit view.heads.now view.lits.now view.n a.old.marks.now }
    requires begins { 0 < length group.now }
    ensures judged { JudgesGroup (live_in view.entry) view.entry.lits.now a.old.marks.now a.old.tape.now a.old.t q (slice_index group.now 0 / 2) (ids_of (drop 1 group.now)) (length group.now)
        a.new.marks.now a.new.tape.now result.value a.new.t result.turns }
    ensures same { Same a.old a.new }
{
    let d = clauses::half(group[0]);
    let found = view.lookup(d);
    let turns = found.turns + group.len() as u64;
    match found.value {
        Some(place) => judge_there(view, a, &group[1..], q, d, place, turns),
        None => Timed {
            value: Err(Failure::Refused(Ground::HintNotLive(d))),
            turns,
        },
    }
}

// The groups that these hints are, in order, behind so many turns. Each goes on from the same assignment.
fn judge_groups(view: View, a: &mut Assignment, hints: &[u32], q: u32, before: u64) -> Judged
    requires fit { Fit view.heads.now view.lits.now view.n a.old.marks.now }
    requires group_at { GroupAt hints.now 0 }
    ensures judged { JudgesGroups (live_in view.entry) view.entry.lits.now hints.now a.old.marks.now a.old.tape.now a.old.t q before a.new.marks.now a.new.tape.now result.value a.new.t result.turns }
    ensures same { Same a.old a.new }
{
    let mut turns = before;
    for group in hints.chunk_by(|_, code| *code % 2 == 0) {
        let judged = judge_group(view, a, group, q);
        turns = clauses::plus(turns, judged.turns);
        if judged.value.is_err() {
            return Timed {
                value: judged.value,
                turns,
            };
        }
    }
    Timed {
        value: Ok(()),
        turns,
    }
}

// Rules 4 and 5, where the hints of rule 3 ended with no conflict, behind so many turns; the hints are those from the first
// group on.
fn after_hints(view: View, clause: &[u32], a: &mut Assignment, hints: &[u32], before: u64) -> Judged
    requires fit { Fit view.heads.now view.lits.now view.n a.old.marks.now }
    requires known { Marked clause.now a.old.marks.now }
    requires group_at { GroupAt hints.now 0 }
    ensures judged { JudgesRest (live_in view.entry) view.entry.n view.entry.lits.now hints.now (map literal_of clause.now) a.old.marks.now a.old.tape.now a.old.t before a.new.marks.now a.new.tape.now result.value a.new.t result.turns }
    ensures same { Same a.old a.new }
{
    let Some(p) = clause.first() else {
        return Timed {
            value: Err(Failure::Refused(Ground::NoConflict)),
            turns: before,
        };
    };
    let q = clauses::opposite(*p);
    let matched = groups::match_groups(view, hints, 0, q);
    let turns = clauses::plus(before, matched.turns);
    match matched.value {
        Ok(()) => judge_groups(view, a, hints, q, turns),
        Err(id) => Timed {
            value: Err(Failure::Refused(Ground::GroupsDontMatch(id))),
            turns,
        },
    }
}

// Rules 3 to 5, where each literal of K is false, and nothing else, behind so many turns.
fn judge_hints(view: View, clause: &[u32], a: &mut Assignment, hints: &[u32], before: u64) -> Judged
    requires begun { Begun view.heads.now view.lits.now view.n a.old.marks.now (map literal_of clause.now) (Ok tt) }
    requires known { Marked clause.now a.old.marks.now }
    ensures judged { JudgesHints (live_in view.entry) view.entry.n view.entry.lits.now hints.now (map literal_of clause.now) a.old.marks.now a.old.tape.now a.old.t before a.new.marks.now a.new.tape.now result.value a.new.t result.turns }
    ensures same { Same a.old a.new }
{
    let (leading, behind) = hints.split_at(groups::next_group(hints, 0));
    let taken = judge::hints::take_hints(view, a, leading);
    let passed = clauses::plus(before, leading.len() as u64);
    let turns = clauses::plus(passed, taken.turns);
    match taken.value {
        Ok(Effect::Conflict) => Timed {
            value: Ok(()),
            turns,
        },
        Ok(Effect::Forced) => after_hints(view, clause, a, behind, turns),
        Err(fault) => Timed {
            value: Err(Failure::from(fault)),
            turns,
        },
    }
}

// Rules 3 to 5, where making the literals of K false came to this, behind so many turns.
fn judge_behind(
    view: View,
    clause: &[u32],
    a: &mut Assignment,
    hints: &[u32],
    fell: Result<(), Obstacle>,
    before: u64,
) -> Judged
    requires begun { Begun view.heads.now view.lits.now view.n a.old.marks.now (map literal_of clause.now) fell }
    requires known { Marked clause.now a.old.marks.now }
    ensures judged { JudgesBehind (live_in view.entry) view.entry.n view.entry.lits.now hints.now (map literal_of clause.now) fell a.old.marks.now a.old.tape.now a.old.t before a.new.marks.now a.new.tape.now result.value a.new.t result.turns }
    ensures same { Same a.old a.new }
{
    match fell {
        Ok(()) => judge_hints(view, clause, a, hints, before),
        Err(Obstacle::SomeTrue) => Timed {
            value: Err(Failure::Refused(Ground::OppositeLiterals)),
            turns: before,
        },
        Err(Obstacle::TooShort) => Timed {
            value: Err(Failure::TooShort),
            turns: before,
        },
    }
}

// All rules but the first half of rule 1, from marks that show nothing; what is marked on the way is taken back.
fn judge_clause(view: View, clause: &[u32], a: &mut Assignment, hints: &[u32]) -> Judged
    requires { Addable view.heads.now view.lits.now view.n clause.now a.old.marks.now }
    ensures judged { JudgesClause (live_in view.entry) view.entry.n view.entry.lits.now clause.now hints.now a.old.marks.now a.old.tape.now a.old.t a.new.marks.now a.new.tape.now result.value a.new.t result.turns }
    ensures same { Same a.old a.new }
{
    let start = a.t;
    let fell = judge::falsifying::falsify_clause(a, clause);
    let judged = judge_behind(view, clause, a, hints, fell.value, fell.turns + 1);
    let back = a.undo(start);
    Timed {
        value: judged.value,
        turns: clauses::plus(judged.turns, back),
    }
}

// Judges the addition under `id` of the clause K, whose literals are these, with these hints. `last` is the greatest of C and the ids
// added before.
pub fn judge_addition(
    view: View,
    clause: &[u32],
    a: &mut Assignment,
    hints: &[u32],
    last: u64,
    id: u64,
) -> Judged
    requires { Addable view.heads.now view.lits.now view.n clause.now a.old.marks.now }
    ensures judged { Judges (live_in view.entry) view.entry.n view.entry.lits.now clause.now hints.now last id a.old.marks.now a.old.tape.now a.old.t a.new.marks.now a.new.tape.now result.value a.new.t result.turns }
    ensures same { Same a.old a.new }
{
    if id <= last {
        return Timed {
            value: Err(Failure::Refused(Ground::IdNotFresh(id))),
            turns: 0,
        };
    }
    judge_clause(view, clause, a, hints)
}
