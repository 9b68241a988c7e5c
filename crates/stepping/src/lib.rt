// One step of a proof: read whole, judged, and the store brought up to date. An accepted clause becomes live; deleted clauses
// give their room back as soon as they have more of it than the live ones, so that the store follows the live clauses and not
// the length of the proof.
//
// The step's literals are read to behind those of the store, where they stay if it is accepted. Every turn is counted: for
// reading, one for each byte passed and one for each token; then what judging and giving room back took. A step that is not
// read to its end is charged twice for each byte that is left, since the word at fault is looked at twice.
// What a refused or unreadable step leaves in the work store is not promised to mean anything.
#![tactic(auto)]

ghost use Rattle.std.specs.Prelude.{◌≡◌, ◌+◌, ◌-◌, ◌*◌, ◌<◌, ◌≤◌, ◌^◌, length};
ghost use Rattle.clauses.specs.Store.{RoomFor};
ghost use Rattle.addition.specs.Addition.{all_turns};
ghost use Rattle.stepping.specs.Stepping.{failure_of, not_read, Lent, Spent, Accepts, Addable, Adds, Counted, GivesBack, Tight, Deletes, Keeps, TakesStep};

use addition::Ground;
use assignment::Assignment;
use clauses::{Timed, View};
use formula::Fault;
use steps::{Read, Step};

// The parts of the work store that a caller lends: `heads` and `lits` (the clauses), `hints` (the hints or ids of one step), `guess`
// (where clauses probably are), `marks` and `tape` (the assignment). A part that is only read is reborrowed as `&mut`, too, since a
// shared reborrow beside those of other fields has no rule yet. (A mark is a byte and no bool: the C interface lends bytes.)
#[derive(Drop)]
pub struct Work<'a> {
    pub heads: &'a mut [u32],
    pub lits: &'a mut [u32],
    pub hints: &'a mut [u32],
    pub guess: &'a mut [u32],
    pub marks: &'a mut [u8],
    pub tape: &'a mut [u32],
}

// What is known between two steps: how many clauses the store has, live or deleted; how many literals; the greatest of C and
// the ids added so far; and how much of the store belongs to deleted clauses, one for each clause and one for each literal.
// (How much of the slices is in use stands here, and no Vec: C lends the slices for the whole run, and there is no heap.)
#[derive(Clone, Copy)]
pub struct Between {
    pub n: usize,
    pub used: usize,
    pub last: u64,
    pub dead: usize,
}

// What a step comes to that is taken: the proof goes on; the empty clause was added; or there is no step left.
// (`Nothing` is a case and no Option round the two others: `TakeCase` promises something of its own of each of the three.)
#[derive(Clone, Copy)]
pub enum Progress {
    On(Between),
    Verified,
    Nothing,
}

// Why a step is refused: the ground of an addition's refusal; or the id of a deletion that is not live.
#[derive(Clone, Copy)]
pub enum Refusal {
    Addition(Ground),
    Deletion(u64),
}

// Why a step is not taken: it is refused; a part of the work store is too short; or the step is unreadable.
#[derive(Clone, Copy)]
pub enum Failure {
    Refused(Refusal),
    TooShort,
    Unreadable,
}

impl From<addition::Failure> for Failure {
    ghost from_gives = { λ why failure. failure ≡ failure_of why };

    fn from(why: addition::Failure) -> Failure {
        match why {
            addition::Failure::Refused(ground) => Failure::Refused(Refusal::Addition(ground)),
            addition::Failure::TooShort => Failure::TooShort,
        }
    }
}

impl From<Fault> for Failure {
    ghost from_gives = { λ fault failure. failure ≡ not_read fault };

    fn from(fault: Fault) -> Failure {
        match fault {
            Fault::Unreadable => Failure::Unreadable,
            Fault::TooShort => Failure::TooShort,
        }
    }
}

// What a step came to, the place behind it, and the turns that it took.
#[derive(Clone, Copy)]
pub struct Taken {
    pub outcome: Result<Progress, Failure>,
    pub next: usize,
    pub turns: u64,
}

// The turns of reading a step that passed so many bytes and stored so many literals, hints or ids (it has three tokens more), and
// of what came then.
// (Not the `reading` of `checker`, which counts a byte four times, and literals and clauses twice.)
fn reading(bytes: usize, codes: usize, more: u64) -> u64
    ensures { Spent bytes codes more result }
{
    let tokens = clauses::plus(codes as u64, 3);
    clauses::plus(clauses::plus(tokens, bytes as u64), more)
}

// The clause whose literals end at `end` was judged under `id`: if it was accepted, it becomes live, unless it is empty.
// (The parts that it changes alone, and no `Work`: what it leaves as it was need not be said.)
fn accept(
    judged: Result<(), addition::Failure>,
    heads: &mut [u32],
    guess: &mut [u32],
    b: Between,
    id: u64,
    end: usize,
) -> Result<Progress, Failure>
    requires room_for { RoomFor heads.old b.n }
    requires id_bound { id < 2 ^ 31 }
    ensures { Accepts judged heads.old b id end heads.new result }
{
    judged?;
    if end <= b.used {
        return Ok(Progress::Verified);
    }
    if heads.len() <= 3 * b.n + 5 {
        return Err(Failure::TooShort);
    }
    clauses::append(heads, b.n, id, end);
    clauses::note(guess, id, b.n);
    Ok(Progress::On(Between {
        n: b.n + 1,
        used: end,
        last: id,
        ..b
    }))
}

// Gives the room of deleted clauses back, if they have more than half of all.
// (The parts that it changes alone, as `accept`.)
fn give_back(heads: &mut [u32], lits: &mut [u32], guess: &mut [u32], b: Between) -> Timed<Between>
    requires { Counted heads.old lits.old b }
    ensures back { GivesBack heads.old lits.old b heads.new lits.new result.value }
    ensures turns { result.turns ≤ 2 * (b.n + b.used) }
{
    let half = (b.n + b.used) / 2;
    if b.dead <= half {
        return Timed { value: b, turns: 0 };
    }
    let left = clauses::compact(heads, lits, b.n);
    let noted = clauses::note_all(heads, left.n, guess);
    let after = Between {
        n: left.n,
        used: left.used,
        dead: 0,
        ..b
    };
    Timed {
        value: after,
        turns: clauses::plus(left.turns, noted),
    }
}

impl Work<'_> {
    // Judges the addition under `id` of the clause whose literals end at `end`, with the first `many` hints.
    fn add(
        &mut self,
        b: Between,
        id: u64,
        end: usize,
        many: usize,
    ) -> Timed<Result<Progress, Failure>>
        requires { Addable self.old.heads.now self.old.lits.now self.old.hints.now self.old.marks.now b id end many }
        ensures judged { Adds self.old.heads.now self.old.lits.now self.old.hints.now self.old.marks.now self.old.tape.now b id end many self.new.heads.now self.new.marks.now result.value }
        ensures turns { result.turns ≤ all_turns b.n end many }
        ensures lits { self.new.lits.now ≡ self.old.lits.now }
        ensures lent { Lent self.old self.new }
    {
        let lits: &[u32] = &mut *self.lits;
        let hints: &[u32] = &mut *self.hints;
        let view = View {
            heads: &mut *self.heads,
            lits: &lits[..end],
            guess: &mut *self.guess,
            n: b.n,
        };
        let mut assignment = Assignment {
            marks: &mut *self.marks,
            tape: &mut *self.tape,
            t: 0,
        };
        let judged = addition::judge_addition(
            view,
            &lits[b.used..end],
            &mut assignment,
            &hints[..many],
            b.last,
            id,
        );
        Timed {
            value: accept(judged.value, self.heads, self.guess, b, id, end),
            turns: judged.turns,
        }
    }
}

// Judges the deletion of the clauses that these ids stand for, and gives room back. (Tried: a method of `Work`. The proof did not close:
// how long a slice can be is known of a parameter, not of a field behind a reference, and the sum of what is dead rests on that.)
fn delete(
    heads: &mut [u32],
    lits: &mut [u32],
    ids: &[u32],
    guess: &mut [u32],
    b: Between,
) -> Timed<Result<Progress, Failure>>
    requires { Tight heads.old lits.old b }
    ensures judged { Deletes heads.old lits.old ids.now b heads.new lits.new result.value }
    ensures turns { result.turns ≤ 64 * length ids.now + 2 * (b.n + b.used) }
{
    let deleted = deletion::delete_all(heads, b.n, guess, ids);
    if let Err(id) = deleted.outcome {
        return Timed {
            value: Err(Failure::Refused(Refusal::Deletion(id))),
            turns: deleted.turns,
        };
    }
    let now = Between {
        dead: b.dead + deleted.dead,
        ..b
    };
    let back = give_back(heads, lits, guess, now);
    Timed {
        value: Ok(Progress::On(back.value)),
        turns: clauses::plus(deleted.turns, back.turns),
    }
}

impl Taken {
    // A step that was read up to `next`, where so many bytes were passed and so many codes stored.
    fn read(
        step: Timed<Result<Progress, Failure>>,
        next: usize,
        bytes: usize,
        codes: usize,
    ) -> Taken
        ensures outcome { result.outcome ≡ step.value }
        ensures next { result.next ≡ next }
        ensures turns { Spent bytes codes step.turns result.turns }
    {
        Taken {
            outcome: step.value,
            next,
            turns: reading(bytes, codes, step.turns),
        }
    }

    // A step that was not read to its end, where so many bytes are left and so many codes were stored.
    fn unread(outcome: Result<Progress, Failure>, next: usize, bytes: usize, codes: usize) -> Taken
        ensures outcome { result.outcome ≡ outcome }
        ensures next { result.next ≡ next }
        ensures turns { Spent bytes codes bytes result.turns }
    {
        let turns = bytes as u64;
        Taken::read(
            Timed {
                value: outcome,
                turns,
            },
            next,
            bytes,
            codes,
        )
    }
}

// Takes the step at `at`: reads it, judges it, and brings the store up to date.
// (The whole text and a place in it: `TakesStep` names the place and the one behind.)
pub fn take_step(proof: &[u8], at: usize, b: Between, work: &mut Work) -> Taken
    requires keeps { Keeps work.old.heads.now work.old.lits.now work.old.marks.now b }
    requires at_in_bounds { at ≤ length proof.now }
    ensures step { TakesStep proof.now at b work.old.heads.now work.old.lits.now work.old.hints.now work.old.marks.now work.old.tape.now work.new.heads.now work.new.lits.now work.new.marks.now result.outcome result.next result.turns }
    ensures lent { Lent work.old work.new }
{
    let bytes = proof.len() - at;
    let cells = work.marks.len();
    match steps::read_step(proof, at, b.used, cells, work.lits, work.hints) {
        Ok(Read { step, next }) => match step {
            Some(Step::Addition { id, end, many }) => {
                let codes = (end - b.used) + many;
                Taken::read(work.add(b, id, end, many), next, next - at, codes)
            }
            Some(Step::Deletion { many }) => {
                let hints: &[u32] = &mut *work.hints;
                let deleted = delete(work.heads, work.lits, &hints[..many], work.guess, b);
                Taken::read(deleted, next, next - at, many)
            }
            None => Taken::unread(Ok(Progress::Nothing), next, bytes, 0),
        },
        Err(stopped) => {
            let codes = (stopped.end - b.used) + stopped.many;
            Taken::unread(Err(Failure::from(stopped.fault)), stopped.at, bytes, codes)
        }
    }
}
