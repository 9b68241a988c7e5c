// A program for the gate: reads each formula that its arguments name, says what it found, and writes it out. What it prints is
// held to the file `stdout`.
#![tactic(auto)]

use formula::{Fault, NotWritten, Stopped, Stored};
use std::io::{Write, writer};

// (No `Display`: the words are this program's own, held by its `stdout`.)
fn show_read(rt: &HostRuntime, r: Result<Stored, Stopped>) -> std::io::Result<()> {
    match r {
        Ok(
            Stored {
                vars,
                clauses,
                used,
                top,
            },
        ) => println!(rt; ": stored, V C literals greatest {vars} {clauses} {used} {top}"),
        Err(Stopped { fault, at, .. }) => match fault {
            Fault::Unreadable => println!(rt; ": unreadable from byte {at}"),
            Fault::TooShort => println!(rt; ": store too short at byte {at}"),
        },
    }
}

fn show_text(rt: &HostRuntime, length: usize, out: &[u8]) -> std::io::Result<()> {
    match out.get(..length) {
        Some(text) => writer(rt).write_all(text),
        None => Ok(()),
    }
}

// Nothing was written, and the output was empty before.
fn show_short(rt: &HostRuntime, out: &[u8]) -> std::io::Result<()> {
    match out.first() {
        None => Ok(()),
        Some(0) => println!(rt; "(output too short)"),
        Some(_) => println!(rt; "(output touched)"),
    }
}

fn show_written(rt: &HostRuntime, w: Result<usize, NotWritten>, out: &[u8]) -> std::io::Result<()> {
    match w {
        Ok(length) => show_text(rt, length, out),
        Err(NotWritten::Unreadable { .. }) => println!(rt; "(unreadable)"),
        Err(NotWritten::StoreTooShort { .. }) => println!(rt; "(store too short)"),
        Err(NotWritten::OutputTooShort) => show_short(rt, out),
    }
}

// Reads the formula into a store, and writes it to an output.
fn show(
    rt: &HostRuntime,
    text: &[u8],
    heads: &mut [u32],
    lits: &mut [u32],
    out: &mut [u8],
) -> std::io::Result<()> {
    show_read(rt, formula::read(text, heads, lits))?;
    let w = formula::write(text, heads, lits, out);
    show_written(rt, w, out)
}

// With a store and an output that always do for a file of 4,096 bytes.
fn with_room(rt: &HostRuntime, text: &[u8]) -> std::io::Result<()> {
    show(rt, text, &mut [0; 6150], &mut [0; 2050], &mut [0; 4200])
}

// With little of both: three clauses, six literals, thirty bytes.
fn with_little(rt: &HostRuntime, text: &[u8]) -> std::io::Result<()> {
    print!(rt; "with little room")?;
    show(rt, text, &mut [0; 12], &mut [0; 6], &mut [0; 30])
}

// Whether there is such an argument; if so, its formula is shown.
fn one(rt: &HostRuntime, i: usize) -> std::io::Result<bool> {
    let mut path = [0; 4096];
    let Some(path) = files::argument(rt, i, &mut path) else {
        return Ok(false);
    };
    let mut text = [0; 4096];
    let text = files::read(rt, path, &mut text)?;
    writer(rt).write_all(path)?;
    with_room(rt, text)?;
    with_little(rt, text)?;
    Ok(true)
}

fn main(rt: HostRuntime) -> std::io::Result<()> {
    for i in 1..usize::MAX {
        if !one(&rt, i)? {
            break;
        }
    }
    Ok(())
}
