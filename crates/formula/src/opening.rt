// What stands before the clauses: comment lines, and the line `p cnf V C`.
//
// The search for a byte passes one with each turn, so the turns of a function here are the bytes that it passed, and one more for
// each comment line.
ghost use Rattle.std.specs.Prelude.{◌≡◌, ◌+◌, ◌<◌, ◌≤◌, length};
ghost use Rattle.rules.specs.Formula.{count, header};
ghost use Rattle.rules.specs.Text.{token};
ghost use Rattle.text.specs.Scan.{most};
ghost use Rattle.formula.specs.Opening.{AfterLine, AfterComments, FirstOf, FirstAt, Behind, counted, count_of, header_of};

use crate::{MAX_CLAUSES, MAX_VARIABLE};
use text::Token;

// The place of the first byte x, or the end.
// (The end stands for none, and no Option: what is cut there is all of the rest, and `FirstAt` has it so.)
fn place_of(s: &[u8], x: u8) -> usize
    ensures { FirstOf x s.now result }
{
    s.iter().position(|&b| b == x).unwrap_or(s.len())
}

// The first place from `at` on that has the byte x, or the end.
pub fn first(s: &[u8], at: usize, x: u8) -> usize
    requires { at ≤ length s.now }
    ensures { FirstAt x s.now at result }
{
    at + place_of(&s[at..], x)
}

// The place behind the byte at `place`, or the end.
pub fn behind(s: &[u8], place: usize) -> usize
    requires { place ≤ length s.now }
    ensures { Behind s.now place result }
{
    s.len().min(place + 1)
}

// The place behind the rest of a comment line, which goes on at `at`.
// (Tried: `behind(s, first(s, at, b'\n'))`. A file of lines of two bytes then takes 1.6 times the time: where the text ends is told from
// where a line ends without a branch, so that each line waits for the one before. A `match` on `position` took as much in a sketch in
// Rust.)
fn after_line(s: &[u8], at: usize) -> usize
    requires { at ≤ length s.now }
    ensures { AfterLine s.now at result }
{
    for i in at..s.len() {
        if s[i] == b'\n' {
            return i + 1;
        }
    }
    s.len()
}

// The place behind the comment lines.
pub fn after_comments(s: &[u8]) -> usize
    ensures { AfterComments s.now result }
{
    let mut at = 0;
    // A `for` would be no plainer: a turn passes a line, whose end is found as it is passed.
    while at < s.len() && s[at] == b'c' {
        at = after_line(s, at + 1);
    }
    at
}

// A token as a number from 0 to `limit`.
fn within(t: Token, limit: u64) -> Option<u64>
    ensures { result ≡ counted limit t }
{
    match t {
        Token::Nought => Some(0),
        Token::Plus(v) if v <= limit => Some(v),
        _ => None,
    }
}

// All of `s` as a number from 0 to `limit`.
fn count_of(s: &[u8], limit: u64) -> Option<u64>
    requires { limit < most }
    ensures { result ≡ count_of (count limit (token s.now)) }
{
    if text::is_blank(*s.first()?) {
        return None;
    }
    let word = text::token_at(s, 0);
    if word.next != s.len() {
        return None;
    }
    within(word.token, limit)
}

// V and C, as the line `p cnf V C` announces them.
#[derive(Clone, Copy)]
pub struct Header {
    pub vars: u64,
    pub clauses: usize,
}

// The line as `p cnf V C`.
pub fn announced(line: &[u8]) -> Option<Header>
    ensures { result ≡ header_of (header line.now) }
{
    let numbers = line.strip_prefix(b"p cnf ")?;
    let space = place_of(numbers, b' ');
    let vars = count_of(&numbers[..space], MAX_VARIABLE)?;
    let clauses = count_of(&numbers[behind(numbers, space)..], MAX_CLAUSES)?;
    Some(Header {
        vars,
        clauses: clauses as usize,
    })
}
