// The checker of document 01, and its front door: `check` answers for every two byte strings.
//
// The way of the data: the formula is read whole into the store (`formula`), then the proof is taken step by step (`running`,
// over `stepping`). The ground of a refusal is carried up to here and dropped, since document 01's answer has none.
// The work store comes in six parts, whose contents do not matter before and are not promised to mean anything after:
// `heads` and `lits` (the clauses), `hints` (the hints or ids of one step), `guess` (where clauses probably are; it may have any
// length, also 0), `marks` and `tape` (the assignment). specs/Promises.antt says how long each has to be.
#![tactic(auto)]

pub mod running;

ghost use Rattle.std.specs.Prelude.{◌≡◌, ◌+◌, ◌%◌, ◌≤◌, length};
ghost use Rattle.stepping.specs.Stepping.{Lent};
ghost use Rattle.checker.specs.Promises.{Exact, Means, Room, FollowsLive, time_bound, step_of};
ghost use Rattle.checker.specs.Running.{proof_turns};
ghost use Rattle.checker.specs.Answering.{answer_by, unread_by, Cells, Cleared, Charged, HasMarks, Begun, Answers, ChecksMarked};

use formula::{Fault, MAX_VARIABLE, Stored};
use running::{Finish, Stop};
pub use stepping::Work;
use stepping::{Between, Failure};

// The answers of document 01, section 1.
// (Refusals stand beside the others in one enum, and not in a Result: `Exact` and `Means`, which may not change, speak of these cases.)
#[derive(Clone, Copy)]
pub enum Answer {
    Verified { step: u64 },
    UnreadableFormula,
    UnreadableStep { step: u64 },
    Refused { step: u64 },
    Unfinished { steps: u64 },
    TooShort,
}

impl Answer {
    // The number of the step that an answer comes with, or 0.
    // (0 and no Option: `step_of` of specs/Promises, which may not change, has it so, and C is lent one number.)
    pub fn step(self) -> u64
        ensures { result ≡ step_of self }
    {
        match self {
            Answer::Verified { step }
            | Answer::UnreadableStep { step }
            | Answer::Refused { step }
            | Answer::Unfinished { steps: step } => step,
            Answer::UnreadableFormula | Answer::TooShort => 0,
        }
    }
}

// An answer, and the number of turns that the loops made for it.
// (No `Timed<Answer>`: this is the front door, whose callers and docs/STATEMENTS.md name its fields.)
#[derive(Clone, Copy)]
pub struct Checked {
    pub answer: Answer,
    pub turns: u64,
}

// By how the run ended: the ground of a refusal is dropped here.
impl From<Result<Finish, Stop>> for Answer {
    ghost from_gives = { λ ended answer. answer ≡ answer_by ended };

    fn from(ended: Result<Finish, Stop>) -> Answer {
        match ended {
            Ok(Finish::Verified { step }) => Answer::Verified { step },
            Ok(Finish::Unfinished { steps }) => Answer::Unfinished { steps },
            Err(Stop { step, why }) => match why {
                Failure::Refused(_) => Answer::Refused { step },
                Failure::TooShort => Answer::TooShort,
                Failure::Unreadable => Answer::UnreadableStep { step },
            },
        }
    }
}

// By why the formula was not read.
impl From<Fault> for Answer {
    ghost from_gives = { λ fault answer. answer ≡ unread_by fault };

    fn from(fault: Fault) -> Answer {
        match fault {
            Fault::Unreadable => Answer::UnreadableFormula,
            Fault::TooShort => Answer::TooShort,
        }
    }
}

// How many of so many marks are used: an even number of them, and no more than there are literals.
fn cells(marks: usize) -> usize
    ensures { Cells marks result }
{
    2 * (usize::min(marks, 2 * (MAX_VARIABLE as usize) + 2) / 2)
}

// No mark is set. Returns the turns, one for each.
fn clear(marks: &mut [u8]) -> u64
    ensures { Cleared marks.new × (result ≡ length marks.old) }
{
    marks.fill(0);
    marks.len() as u64
}

// The turns of reading a formula of so many bytes, of which so many literals and clauses were stored: a byte is passed up to four
// times, a literal is stored and looked at again, and a clause is read and closed.
// (Not the `reading` of `stepping`: there bytes and codes are counted once each, here bytes four times and the rest twice.)
fn reading(bytes: usize, used: usize, closed: usize) -> u64
    ensures { Charged bytes used closed result }
{
    let passed = (bytes as u64).saturating_mul(4);
    let stored = (used as u64).saturating_mul(2);
    let read = (closed as u64).saturating_mul(2);
    clauses::plus(clauses::plus(passed, stored), clauses::plus(read, 2))
}

// Whether each of so many literals has a mark, where `top` is the greatest variable in them.
fn has_marks(marks: usize, used: usize, top: u32) -> bool
    ensures { HasMarks marks used top result }
{
    used == 0 || 2 * (top as usize) + 1 < marks
}

// The formula lies in the store: its proof is checked, behind so many turns.
fn check_stored(proof: &[u8], work: &mut Work, stored: Stored, before: u64) -> Checked
    requires { Begun work.old.heads.now work.old.lits.now work.old.marks.now stored.clauses stored.used stored.top }
    ensures answer { Answers proof.now work.old.heads.now work.old.lits.now work.old.hints.now work.old.marks.now work.old.tape.now stored.clauses stored.used result.answer }
    ensures least { step_of result.answer ≤ result.turns }
    ensures most { result.turns ≤ before + stored.clauses + proof_turns proof.now (stored.clauses + stored.used) }
    ensures lent { Lent work.old work.new }
{
    if !has_marks(work.marks.len(), stored.used, stored.top) {
        return Checked {
            answer: Answer::TooShort,
            turns: before,
        };
    }
    let noted = clauses::note_all(&mut *work.heads, stored.clauses, work.guess);
    let first = Between {
        n: stored.clauses,
        used: stored.used,
        last: stored.clauses as u64,
        dead: 0,
    };
    let ran = running::run(proof, first, work);
    Checked {
        answer: Answer::from(ran.value),
        turns: clauses::plus(clauses::plus(before, noted), ran.turns),
    }
}

// As `check`, where there is an even number of marks, and no more than there are literals. (It takes the parts one by one. Tried: a
// `Work` whose marks are a part of another's. There is no proof of it: the borrow checker does not cover the form.)
fn check_marked(
    formula: &[u8],
    proof: &[u8],
    heads: &mut [u32],
    lits: &mut [u32],
    hints: &mut [u32],
    guess: &mut [u32],
    marks: &mut [u8],
    tape: &mut [u32],
) -> Checked
    requires { (length marks.old % 2 ≡ 0) × (length marks.old ≤ 33554432) }
    ensures { ChecksMarked formula.now proof.now heads.old lits.old hints.old marks.old tape.old result.answer result.turns }
{
    let cleared = clear(marks);
    let bytes = formula.len();
    match formula::read(formula, heads, lits) {
        Ok(stored) => {
            let turns = clauses::plus(cleared, reading(bytes, stored.used, stored.clauses));
            let mut work = Work {
                heads,
                lits,
                hints,
                guess,
                marks,
                tape,
            };
            check_stored(proof, &mut work, stored, turns)
        }
        Err(stopped) => Checked {
            answer: Answer::from(stopped.fault),
            turns: clauses::plus(cleared, reading(bytes, stopped.used, stopped.closed)),
        },
    }
}

// Checks a proof against a formula.
pub fn check(formula: &[u8], proof: &[u8], work: &mut Work) -> Checked
    ensures exact { Exact formula.now proof.now result.answer }
    ensures unsolvable { Means formula.now result.answer }
    ensures room { Room formula.now proof.now work.old.heads.now work.old.lits.now work.old.hints.now work.old.marks.now work.old.tape.now result.answer }
    ensures live { FollowsLive formula.now proof.now work.old.heads.now work.old.lits.now work.old.hints.now work.old.marks.now work.old.tape.now result.answer }
    ensures time { result.turns ≤ time_bound (length formula.now) (length proof.now) }
    ensures steps { step_of result.answer ≤ result.turns }
    ensures lent { Lent work.old work.new }
{
    let used = cells(work.marks.len());
    check_marked(
        formula,
        proof,
        work.heads,
        work.lits,
        work.hints,
        work.guess,
        &mut work.marks[..used],
        work.tape,
    )
}
