// Writing a formula that lies in the store of clauses out as bytes, as `rules` defines it in `Written`: the line
// `p cnf V C`, then one clause to a line, no comments, single spaces.
//
// Each function that writes gets a slice, the place to write at and what to write, and says where the text ends. (`write_number`'s
// clause `Wrote out.old at ..` speaks of places in the whole slice, and may not change.) It asks for enough room: `written_length`
// finds out before anything is written how much that is, and stops as soon as it is too much.
// (`Formed` stands in four contracts and is no ghost field of `View`: other crates build views of stores that are not formed so.)
// Nothing is promised of a store that is not formed as `Formed` says, and nothing is said of whether the clauses' variables
// are at most `vars`.
//
// The turns of the loops are counted. A number of d digits counts as 2d of them where it is written, which is more than the d that
// `write_digits` makes, and as d of them where only its length is asked.
#![tactic(auto)]

ghost use Rattle.std.specs.Prelude.{◌≡◌, ◌∷◌, [], map, ◌+◌, ◌*◌, ◌<◌, ◌≤◌, ◌^◌, length};
ghost use Rattle.rules.specs.Written.{decimal, write_literal, write_clause, write_clauses};
ghost use Rattle.clauses.specs.Codes.{literal_of};
ghost use Rattle.clauses.specs.Store.{clauses_of};
ghost use Rattle.writer.specs.Text.{Sized, Room, Wrote, Formed, line_start, first_line, formula_of, length_of, WroteCounted, WroteFormula, LineDigits, Summed, Answers};

use clauses::{Timed, View};

// How many decimal digits a number has.
pub fn digits_in(v: u64) -> usize
    ensures { Sized (decimal v) result 20 }
{
    if v < 10 {
        return 1;
    }
    v.ilog10() as usize + 1
}

// The byte of one digit.
fn digit(x: u64) -> u8
    requires { x < 10 }
    ensures { result ≡ 48 + x }
{
    b'0' + x as u8
}

// Writes the digits of a number, from the last one on, into a slice that is as long as they are.
// (By hand and by no `write!`: the promise is `decimal` of document 01 to the byte, into a lent slice, and every turn is
// counted.)
fn write_digits(place: &mut [u8], v: u64)
    requires { length place.old ≡ length (decimal v) }
    ensures { place.new ≡ decimal v }
{
    let mut rest = v;
    for i in (0..place.len()).rev() {
        place[i] = digit(rest % 10);
        rest /= 10;
    }
}

// Writes one byte.
fn write_byte(out: &mut [u8], at: usize, b: u8) -> usize
    requires { at < length out.old }
    ensures { Wrote out.old at (b ∷ []) out.new result }
{
    out[at] = b;
    at + 1
}

// Writes a number in decimal.
pub fn write_number(out: &mut [u8], at: usize, v: u64) -> usize
    requires { Room out.old at (decimal v) }
    ensures { Wrote out.old at (decimal v) out.new result }
{
    // One digit takes no division: most variables of a small formula have no more.
    if v < 10 {
        return write_byte(out, at, digit(v));
    }
    let end = at + digits_in(v);
    write_digits(&mut out[at..end], v);
    end
}

// Writes a literal: a minus sign if it says that its variable is false, and the variable's number.
fn write_literal(out: &mut [u8], at: usize, code: u32) -> usize
    requires { Room out.old at (write_literal (literal_of code)) }
    ensures { Wrote out.old at (write_literal (literal_of code)) out.new result }
{
    let variable = u64::from(code / 2);
    if code % 2 == 0 {
        return write_number(out, at, variable);
    }
    let next = write_byte(out, at, b'-');
    write_number(out, next, variable)
}

// Writes a clause: each literal and a space, then `0` and a line feed. A literal counts as the loop's own turn and two for each
// of its bytes, as if a sign were a digit.
fn write_clause(out: &mut [u8], at: usize, clause: &[u32]) -> Timed<usize>
    requires { Room out.old at (write_clause (map literal_of clause.now)) }
    ensures { WroteCounted out.old at (write_clause (map literal_of clause.now)) out.new result.value 2 result.turns }
{
    let mut place = at;
    let mut turns: u64 = 0;
    for code in clause {
        let next = write_literal(out, place, *code);
        turns += 1 + 2 * (next - place) as u64;
        place = write_byte(out, next, b' ');
    }
    let zero = write_byte(out, place, b'0');
    let end = write_byte(out, zero, b'\n');
    Timed { value: end, turns }
}

// Writes the clauses of the store, one to a line.
fn write_clauses(view: View, out: &mut [u8], at: usize) -> Timed<usize>
    requires formed { Formed view.heads.now view.lits.now view.n }
    requires room { Room out.old at (write_clauses (clauses_of view.heads.now view.lits.now view.n)) }
    ensures { WroteCounted out.old at (write_clauses (clauses_of view.entry.heads.now view.entry.lits.now view.entry.n)) out.new result.value 0 result.turns }
{
    let mut place = at;
    let mut turns: u64 = 0;
    for done in 0..view.n {
        let line = write_clause(out, place, view.clause(done));
        place = line.value;
        turns += 1 + line.turns;
    }
    Timed {
        value: place,
        turns,
    }
}

// Writes what the first line begins with, `p cnf `.
fn write_line_start(out: &mut [u8]) -> usize
    requires { Room out.old 0 line_start }
    ensures { Wrote out.old 0 line_start out.new result }
{
    out[..6].copy_from_slice(b"p cnf ");
    6
}

// Writes the first line, `p cnf V C`.
fn write_first_line(out: &mut [u8], vars: u64, clauses: u64) -> Timed<usize>
    requires { Room out.old 0 (first_line vars clauses) }
    ensures { WroteCounted out.old 0 (first_line vars clauses) out.new result.value 6 result.turns }
{
    let first = write_line_start(out);
    let space = write_number(out, first, vars);
    let second = write_byte(out, space, b' ');
    let feed = write_number(out, second, clauses);
    let end = write_byte(out, feed, b'\n');
    let digits = (space - first) + (feed - second);
    Timed {
        value: end,
        turns: 2 * digits as u64,
    }
}

// Writes the formula that the store holds to the front of a slice.
pub fn write_formula(view: View, vars: u64, out: &mut [u8]) -> Timed<usize>
    requires formed { Formed view.heads.now view.lits.now view.n }
    requires vars_in_bounds { length_of view.heads.now view.lits.now view.n vars ≤ length out.old }
    ensures { WroteFormula (formula_of view.entry.heads.now view.entry.lits.now view.entry.n vars) out.old out.new result.value result.turns }
{
    let line = write_first_line(out, vars, view.n as u64);
    let rest = write_clauses(view, out, line.value);
    Timed {
        value: rest.value,
        turns: line.turns + rest.turns,
    }
}

// How many bytes a literal takes, written out.
fn literal_length(code: u32) -> usize
    ensures { Sized (write_literal (literal_of code)) result 21 }
{
    digits_in(u64::from(code / 2)) + (code % 2) as usize
}

// Adds the bytes of a clause to a length, if the sum is not above the room. A literal counts as the loop's own turn and one for
// each of its bytes, as if a sign were a digit.
fn add_clause(clause: &[u32], before: usize, room: usize) -> Timed<Option<usize>>
    requires { (before ≤ room) × (room < 2 ^ 63) }
    ensures { Summed before (before + length (write_clause (map literal_of clause.now))) room 2 result.value result.turns }
{
    let mut total = before;
    let mut turns: u64 = 0;
    for code in clause {
        let bytes = literal_length(*code) + 1;
        total += bytes;
        turns += bytes as u64;
        if room < total {
            return Timed { value: None, turns };
        }
    }
    total += 2;
    Timed {
        value: (total <= room).then_some(total),
        turns,
    }
}

// Adds the bytes of the clauses of the store to a length, if the sum is not above the room.
fn add_clauses(view: View, before: usize, room: usize) -> Timed<Option<usize>>
    requires formed { Formed view.heads.now view.lits.now view.n }
    requires before_le_room { (before ≤ room) × (room < 2 ^ 63) }
    ensures { Summed before (before + length (write_clauses (clauses_of view.entry.heads.now view.entry.lits.now view.entry.n))) room 0 result.value result.turns }
{
    let mut total = before;
    let mut turns: u64 = 0;
    for k in 0..view.n {
        let line = add_clause(view.clause(k), total, room);
        turns += 1 + line.turns;
        match line.value {
            Some(sum) => total = sum,
            None => return Timed { value: None, turns },
        }
    }
    Timed {
        value: Some(total),
        turns,
    }
}

// How many digits the first line has. It has eight bytes more: `p cnf `, a space and a line feed.
fn line_digits(vars: u64, clauses: u64) -> usize
    ensures { LineDigits vars clauses result }
{
    digits_in(vars) + digits_in(clauses)
}

// How many bytes `write_formula` needs for the formula that the store holds, if they fit into the room.
pub fn written_length(view: View, vars: u64, room: usize) -> Timed<Option<usize>>
    requires formed { Formed view.heads.now view.lits.now view.n }
    requires room_bound { room < 2 ^ 63 }
    ensures { Answers (length_of view.entry.heads.now view.entry.lits.now view.entry.n vars) room result.value result.turns }
{
    let digits = line_digits(vars, view.n as u64);
    let line = digits + 8;
    let spent = digits as u64;
    if room < line {
        return Timed {
            value: None,
            turns: spent,
        };
    }
    let sum = add_clauses(view, line, room);
    Timed {
        value: sum.value,
        turns: spent + sum.turns,
    }
}
