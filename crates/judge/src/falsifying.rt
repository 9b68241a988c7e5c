// Rules 1, 2 and 4: the literals of a clause become false, one by one, and it is found out whether that can be: whether one of
// them is true, or is the opposite of another.
//
// The turns of an answer are the literals that were passed. The loop made one for each, and one more for the literal at which it
// stopped, if it did.
ghost use Rattle.std.specs.Prelude.{◌≡◌, ◌<◌, ◌≤◌, map, length};
ghost use Rattle.rules.specs.Judging.{without};
ghost use Rattle.clauses.specs.Codes.{literal_of};
ghost use Rattle.assignment.specs.Lent.{Same};
ghost use Rattle.assignment.specs.Marks.{Paired, Marked};
ghost use Rattle.judge.specs.Falsifying.{FalsifiesOne, others_of, FalsifiesOthers, FalsifiesClause};

use assignment::Assignment;
use clauses::Timed;

// What stops the literals of a clause from becoming false: one of them is true, or was made true by its opposite; or there is no
// room on the tape.
#[derive(Clone, Copy)]
pub enum Obstacle {
    SomeTrue,
    TooShort,
}

// The literal `x` becomes false, unless it is `kept`.
fn falsify_one(a: &mut Assignment, x: u32, kept: Option<u32>) -> Result<(), Obstacle>
    requires paired { Paired a.old.marks.now }
    requires x_in_bounds { x < length a.old.marks.now }
    ensures falls { FalsifiesOne a.old.marks.now a.old.tape.now a.old.t x kept a.new.marks.now a.new.tape.now result a.new.t }
    ensures same { Same a.old a.new }
{
    if kept == Some(x) {
        return Ok(());
    }
    if a.marks[clauses::opposite(x) as usize] != 0 {
        return Err(Obstacle::SomeTrue);
    }
    if a.tape.len() <= a.t {
        return Err(Obstacle::TooShort);
    }
    a.falsify(x);
    Ok(())
}

// The literals of the clause other than `kept` become false. The turns are those of the literals that were passed.
fn falsify_all(a: &mut Assignment, clause: &[u32], kept: Option<u32>) -> Timed<Result<(), Obstacle>>
    requires paired { Paired a.old.marks.now }
    requires marked { Marked clause.now a.old.marks.now }
    ensures falls { FalsifiesOthers clause.now (others_of kept clause.now) a.old.marks.now a.old.tape.now a.old.t a.new.marks.now a.new.tape.now result.value a.new.t result.turns }
    ensures same { Same a.old a.new }
{
    for (passed, x) in clause.iter().enumerate() {
        if let Err(obstacle) = falsify_one(a, *x, kept) {
            return Timed {
                value: Err(obstacle),
                turns: passed as u64,
            };
        }
    }
    Timed {
        value: Ok(()),
        turns: clause.len() as u64,
    }
}

// The literals of the clause other than `q` become false. The turns are those of the literals that were passed.
pub fn falsify_others(a: &mut Assignment, clause: &[u32], q: u32) -> Timed<Result<(), Obstacle>>
    requires paired { Paired a.old.marks.now }
    requires marked { Marked clause.now a.old.marks.now }
    ensures falls { FalsifiesOthers clause.now (without (literal_of q) (map literal_of clause.now)) a.old.marks.now a.old.tape.now a.old.t a.new.marks.now a.new.tape.now result.value a.new.t result.turns }
    ensures same { Same a.old a.new }
{
    falsify_all(a, clause, Some(q))
}

// All literals of the clause become false. The turns are those of the literals that were passed.
pub fn falsify_clause(a: &mut Assignment, clause: &[u32]) -> Timed<Result<(), Obstacle>>
    requires paired { Paired a.old.marks.now }
    requires marked { Marked clause.now a.old.marks.now }
    ensures falls { FalsifiesClause clause.now a.old.marks.now a.old.tape.now a.old.t a.new.marks.now a.new.tape.now result.value a.new.t result.turns }
    ensures same { Same a.old a.new }
{
    falsify_all(a, clause, None)
}
