// The static library: the entry points of `checker` and `formula` under C names, for C, Rust or anything else that calls C.
// include/proofscale.h says what a caller has to keep to. Nothing is decided here: an answer becomes a number, and what comes with
// it goes to where the caller points.
#![tactic(auto)]

ghost use Rattle.std.specs.Prelude.{◌≡◌, ◌≤◌, length};
ghost use Rattle.checker.specs.Promises.{time_bound};
ghost use Rattle.proofscale.specs.Numbers.{number_of, ExactNumbers, MeansNumber, RoomNumber, LiveNumber, written_number, written_length, WritesNumbers};

use checker::{Answer, Work};
use formula::NotWritten;

// The number that document 01 gives an answer.
// (Numbers for kinds are the C interface's. No `From<Answer> for u64`: neither type is this crate's.)
fn number(a: Answer) -> u64
    ensures { result ≡ number_of a }
{
    match a {
        Answer::Verified { step } => 0,
        Answer::UnreadableFormula => 1,
        Answer::UnreadableStep { step } => 2,
        Answer::Refused { step } => 3,
        Answer::Unfinished { steps } => 4,
        Answer::TooShort => 5,
    }
}

// Checks a proof against a formula.
// (The parts apart: C lends them so.)
#[unsafe(no_mangle)]
pub extern "C" fn proofscale_check(
    formula: &[u8],
    proof: &[u8],
    heads: &mut [u32],
    lits: &mut [u32],
    hints: &mut [u32],
    guess: &mut [u32],
    marks: &mut [u8],
    tape: &mut [u32],
    step: &mut u64,
    turns: &mut u64,
) -> u64
    ensures exact { ExactNumbers formula.now proof.now result step.new }
    ensures unsolvable { MeansNumber formula.now result }
    ensures room { RoomNumber formula.now proof.now heads.old lits.old hints.old marks.old tape.old result }
    ensures live { LiveNumber formula.now proof.now heads.old lits.old hints.old marks.old tape.old result }
    ensures time { turns.new ≤ time_bound (length formula.now) (length proof.now) }
    ensures steps { step.new ≤ turns.new }
{
    let mut work = Work {
        heads,
        lits,
        hints,
        guess,
        marks,
        tape,
    };
    let checked = checker::check(formula, proof, &mut work);
    *step = checked.answer.step();
    *turns = checked.turns;
    number(checked.answer)
}

// The number of what writing came to: that of the answer, and 6 where the output is too short.
fn written_number(written: Result<usize, NotWritten>) -> u64
    ensures { result ≡ written_number written }
{
    match written {
        Ok(_) => 0,
        Err(NotWritten::Unreadable { at }) => 1,
        Err(NotWritten::StoreTooShort { at }) => 5,
        Err(NotWritten::OutputTooShort) => 6,
    }
}

// How many bytes were written, or the place in the formula where it stopped.
fn written_length(written: Result<usize, NotWritten>) -> u64
    ensures { result ≡ written_length written }
{
    match written {
        Ok(length) => length as u64,
        Err(NotWritten::Unreadable { at } | NotWritten::StoreTooShort { at }) => at as u64,
        Err(NotWritten::OutputTooShort) => 0,
    }
}

// Reads a formula and writes it out.
#[unsafe(no_mangle)]
pub extern "C" fn proofscale_write(
    formula: &[u8],
    heads: &mut [u32],
    lits: &mut [u32],
    out: &mut [u8],
    length: &mut u64,
) -> u64
    ensures { WritesNumbers formula.now heads.old lits.old out.old out.new result length.new }
{
    let written = formula::write(formula, heads, lits, out);
    *length = written_length(written);
    written_number(written)
}
