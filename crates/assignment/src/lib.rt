// The assignment of a judgement, as marks in a slice that the caller lends, and a tape of what was marked, to go back.
// specs/Marks.antt says which assignment marks show. Nothing is promised of a tape that is too short: the caller asks first.
#![tactic(auto)]

ghost use Rattle.std.specs.Prelude.{◌≡◌, ◌-◌, ◌<◌, ◌≤◌, min, length};
ghost use Rattle.assignment.specs.Marks.{Paired, Marked, Falsifies, Undoable, Undone};
ghost use Rattle.assignment.specs.Sight.{Counted, Latest, Behind, OneLooks, Looks};

// The marks, the tape, and how many numbers are on the tape.
// (Marks are bytes and the tape is a slice with a count: C lends both, and there is no heap for a Vec. That the marks are paired
// is no part of the type: `falsify` and `undo` never asked for it, and a type asks as a clause does.)
#[derive(Drop)]
pub struct Assignment<'a> {
    pub marks: &'a mut [u8],
    pub tape: &'a mut [u32],
    pub t: usize,
    ghost within: { t ≤ length tape.now },
}

// What a look at a clause shows: all its literals are false; all but one that has no value; or neither.
#[derive(Clone, Copy)]
pub enum Look {
    AllFalse,
    Forces(u32),
    Neither,
}

impl Assignment<'_> {
    ghost use Rattle.assignment.specs.Lent.{Same};

    // The literal `x` is false from now on; its number goes to the tape, unless it was false already.
    pub fn falsify(&mut self, x: u32)
        requires x_in_bounds { x < length self.old.marks.now }
        requires t_in_bounds { self.old.t < length self.old.tape.now }
        ensures falls { Falsifies self.old.marks.now self.old.tape.now self.old.t x self.new.marks.now self.new.tape.now self.new.t }
        ensures same { Same self.old self.new }
    {
        if self.marks[x as usize] != 0 {
            return;
        }
        self.marks[x as usize] = 1;
        self.tape[self.t] = x;
        self.t += 1;
    }

    // The marks of the numbers on the tape from `from` on are taken away, and the numbers too; none is, if there are no more than
    // `from`. Returns the turns.
    pub fn undo(&mut self, from: usize) -> u64
        requires { Undoable self.old.marks.now self.old.tape.now from self.old.t }
        ensures back { Undone self.old.marks.now self.old.tape.now from self.old.t self.new.marks.now }
        ensures tape { self.new.tape.now ≡ self.old.tape.now }
        ensures t { self.new.t ≡ min from self.old.t }
        ensures turns { result ≡ self.old.t - from }
        ensures same { Same self.old self.new }
    {
        let tape: &[u32] = &mut *self.tape;
        let turns = undo(self.marks, tape, from, self.t);
        self.t = usize::min(from, self.t);
        turns
    }
}

// The marks of the numbers on the tape from `from` up to `to` are taken away. Returns the turns.
// (It stands beside the method: it takes a tape that it only reads, where the method would ask for one to write to;
// docs/STATEMENTS.md names it.)
pub fn undo(marks: &mut [u8], tape: &[u32], from: usize, to: usize) -> u64
    requires { Undoable marks.old tape.now from to }
    ensures { Undone marks.old tape.now from to marks.new × (result ≡ to - from) }
{
    let mut turns: u64 = 0;
    for i in from..to {
        marks[tape[i] as usize] = 0;
        turns += 1;
    }
    turns
}

// 1 if a literal with this mark is not false and is another one than the last that was not, else 0.
fn counted(last: u32, x: u32, mark: u8) -> usize
    ensures { Counted last x mark result }
{
    (mark == 0 && x != last) as usize
}

// The last literal that is not false, with one literal more and its mark.
fn latest(last: u32, x: u32, mark: u8) -> u32
    ensures { Latest last x mark result }
{
    if mark == 0 { x } else { last }
}

// A literal that alone is not false: it is forced, unless it is true already.
fn only_one(x: u32, marks: &[u8]) -> Look
    requires paired { Paired marks.now }
    requires x_in_bounds { x < length marks.now }
    ensures { OneLooks x marks.now result }
{
    let back = clauses::opposite(x) as usize;
    if marks[back] == 0 {
        Look::Forces(x)
    } else {
        Look::Neither
    }
}

// The place behind `i`, or `i` again if that is the last one. (Tried: `min(i + 1, n - 1)`. Taking hints then has 2.5 percent
// more instructions, over 30,000 additions with deletions.)
fn behind(i: usize, n: usize) -> usize
    requires { i < n }
    ensures { Behind i n result }
{
    let next = i + 1;
    if next < n { next } else { i }
}

// Looks at a clause: all its literals are read, one turn for two of them. What is kept is the last literal that is not false, and how
// often one was met that is another than the last before it: never, once however often that one is written, or more often. At first
// the last is a number that no literal has. No branch is taken on a mark: which literals are false nobody can foretell. Nor is
// one on whether there is a second literal in the last turn: the first is read twice there, which tells nothing new.
// (Tried: a `for` over `clause.chunks(2)`. Taking hints then has 3.3 percent more instructions, measured as above.)
pub fn look_at(clause: &[u32], marks: &[u8]) -> Look
    requires paired { Paired marks.now }
    requires marked { Marked clause.now marks.now }
    ensures { Looks clause.now marks.now result }
{
    let mut others: usize = 0;
    let mut last: u32 = u32::MAX;
    for k in 0..(clause.len() + 1) / 2 {
        let i = 2 * k;
        let x = clause[i];
        let y = clause[behind(i, clause.len())];
        let mark = marks[x as usize];
        let other = marks[y as usize];
        let first = counted(last, x, mark);
        let middle = latest(last, x, mark);
        let second = counted(middle, y, other);
        others += first + second;
        last = latest(middle, y, other);
    }
    match others {
        0 => Look::AllFalse,
        1 => only_one(last, marks),
        _ => Look::Neither,
    }
}
