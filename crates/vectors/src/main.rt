// A program for the gate: checks each pair of files that its arguments name, and says whether the answer is the one that it
// should be. For the argument NAME it reads NAME.cnf (the formula), NAME.lrat (the proof) and NAME.answer (what document 01 says,
// as `0 4`: the answer and the step, or `1`: an answer without a step). What it prints is held to the file `stdout`.
//
// The cases s6-* and s7-* are those of document 01's sections 6 and 7. The answers in data/ come from a checker that was written
// from the document and docs/DECISIONS.md, in another language; they are for a store that is long enough.
#![tactic(auto)]

ghost use Rattle.std.specs.Prelude.{◌≤◌, length, IfOk};
ghost use Rattle.io.specs.Counts.{IsPrefixLen};

use checker::{Answer, Work};
use std::io::{Result, Write, writer};

// A pair of files, and what document 01 says of it.
#[derive(Clone, Copy)]
struct Case<'a> {
    formula: &'a [u8],
    proof: &'a [u8],
    expected: &'a [u8],
}

// Puts text behind the first n bytes of out, as far as there is room, and returns how many bytes there are then.
// (A buffer with a length and no String: the programs of the gate allocate nothing.)
fn append(out: &mut [u8], n: usize, text: &[u8]) -> usize
    ensures { IsPrefixLen result out.new }
{
    if out.len() < n {
        return 0;
    }
    let more = text.len().min(out.len() - n);
    out[n..n + more].copy_from_slice(&text[..more]);
    n + more
}

// Whether the answer with this number and this step is written as expected.
fn is_expected(number: &[u8], step: u64, expected: &[u8]) -> bool {
    let mut digits = [0; 20];
    let k = io::decimal(step, &mut digits);
    let mut text = [0; 40];
    let mut n = append(&mut text, 0, number);
    n = append(&mut text, n, b" ");
    n = append(&mut text, n, &digits[..k]);
    n = append(&mut text, n, b"\n");
    &text[..n] == expected
}

fn say_whether(rt: &HostRuntime, good: bool, expected: &[u8]) -> Result<()> {
    if good {
        return println!(rt; ", as expected");
    }
    print!(rt; ", DIFFERS from ")?;
    writer(rt).write_all(expected)
}

fn say_step(rt: &HostRuntime, number: &str, step: u64, expected: &[u8]) -> Result<()> {
    print!(rt; ": answer {number} step {step}")?;
    say_whether(rt, is_expected(number.as_bytes(), step, expected), expected)
}

// (No `Display`: the words are this program's own, held by its `stdout`.)
fn show(rt: &HostRuntime, a: Answer, expected: &[u8]) -> Result<()> {
    match a {
        Answer::Verified { step } => say_step(rt, "0", step, expected),
        Answer::UnreadableFormula => {
            print!(rt; ": answer 1")?;
            say_whether(rt, expected == b"1\n".as_slice(), expected)
        }
        Answer::UnreadableStep { step } => say_step(rt, "2", step, expected),
        Answer::Refused { step } => say_step(rt, "3", step, expected),
        Answer::Unfinished { steps } => say_step(rt, "4", steps, expected),
        Answer::TooShort => println!(rt; ": answer 5"),
    }
}

// Checks with this store, says what came of it, and that a step takes a turn at least.
fn show_checked(rt: &HostRuntime, case: Case, work: &mut Work) -> Result<()> {
    let r = checker::check(case.formula, case.proof, work);
    let a = r.answer;
    show(rt, a, case.expected)?;
    if r.turns < a.step() {
        return println!(rt; "    DIFFERS: fewer turns than steps");
    }
    Ok(())
}

// With a store that always does for two files of 4,096 bytes each with variables up to 2,047. What is in it before does not
// matter.
fn with_room(rt: &HostRuntime, case: Case) -> Result<()> {
    let mut work = Work {
        heads: &mut [4294967295; 12450],
        lits: &mut [1; 4200],
        hints: &mut [4294967295; 2100],
        guess: &mut [7; 600],
        marks: &mut [255; 4096],
        tape: &mut [3; 8300],
    };
    show_checked(rt, case, &mut work)
}

// With a store for two dozen short clauses with variables up to 9.
// (Beside `with_room`, and no function of sizes: what is in the store before differs, which is what `with_room` tries.)
fn with_little(rt: &HostRuntime, case: Case) -> Result<()> {
    print!(rt; "    with little room")?;
    let mut work = Work {
        heads: &mut [0; 78],
        lits: &mut [0; 64],
        hints: &mut [0; 24],
        guess: &mut [0; 5],
        marks: &mut [0; 20],
        tape: &mut [0; 64],
    };
    show_checked(rt, case, &mut work)
}

// With a store of which one part after the other is short, and the last time none. The parts are used again and again, whatever is
// left in them.
fn with_parts(rt: &HostRuntime, case: Case) -> Result<()> {
    let mut heads = [0; 78];
    let mut lits = [0; 64];
    let mut hints = [0; 24];
    let mut guess = [0; 5];
    let mut marks = [0; 20];
    let mut tape = [0; 64];
    let short = [
        "few heads",
        "few literals",
        "few hints",
        "no guesses",
        "few marks",
        "a short tape",
        "all of it",
    ];
    for (i, part) in short.iter().enumerate() {
        print!(rt; "with {part}")?;
        let mut work = Work {
            heads: &mut heads[..if i == 0 { 31 } else { 78 }],
            lits: &mut lits[..if i == 1 { 26 } else { 64 }],
            hints: &mut hints[..if i == 2 { 3 } else { 24 }],
            guess: &mut guess[..if i == 3 { 0 } else { 5 }],
            marks: &mut marks[..if i == 4 { 9 } else { 20 }],
            tape: &mut tape[..if i == 5 { 2 } else { 64 }],
        };
        show_checked(rt, case, &mut work)?;
    }
    Ok(())
}

// The file with this name and ending, or as much of it as there is room for.
fn read<'a>(rt: &HostRuntime, name: &[u8], ending: &[u8], buffer: &'a mut [u8]) -> Result<&'a [u8]>
    ensures { IfOk result (λ text. length text.now ≤ length buffer.old) }
{
    let mut path = [0; 4096];
    let m = append(&mut path, 0, name);
    let n = append(&mut path, m, ending);
    files::read(rt, &path[..n], buffer)
}

// (`parts` is a flag and no closure: there are two ways to run a case, and what they share is the reading alone.)
fn one(rt: &HostRuntime, name: &[u8], parts: bool) -> Result<()> {
    let mut formula = [0; 4096];
    let mut proof = [0; 4096];
    let mut expected = [0; 4096];
    let case = Case {
        formula: read(rt, name, b".cnf", &mut formula)?,
        proof: read(rt, name, b".lrat", &mut proof)?,
        expected: read(rt, name, b".answer", &mut expected)?,
    };
    if parts {
        return with_parts(rt, case);
    }
    writer(rt).write_all(name)?;
    with_room(rt, case)?;
    with_little(rt, case)
}

// Whether there is such an argument; if so, its pair is shown.
fn named(rt: &HostRuntime, i: usize, parts: bool) -> Result<bool> {
    let mut name = [0; 4096];
    let Some(name) = files::argument(rt, i, &mut name) else {
        return Ok(false);
    };
    one(rt, name, parts)?;
    Ok(true)
}

// All of them, and the first once more; with none at all, the empty name, of which there are no files.
fn main(rt: HostRuntime) -> Result<()> {
    for i in 1..usize::MAX {
        if !named(&rt, i, false)? {
            break;
        }
    }
    if !named(&rt, 1, true)? {
        return one(&rt, b"", true);
    }
    Ok(())
}
