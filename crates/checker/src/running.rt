// The run over the steps of a proof, one after the other, up to the first that ends it.
ghost use Rattle.std.specs.Prelude.{◌≡◌, ◌≤◌};
ghost use Rattle.stepping.specs.Stepping.{Keeps, Lent};
ghost use Rattle.checker.specs.Running.{RunsTo, run_turns, steps_of};

use clauses::Timed;
use stepping::{Between, Failure, Progress, Work};

// How a run ends of which each step was taken: the empty clause was added at this step; or no step is left behind so many.
#[derive(Clone, Copy)]
pub enum Finish {
    Verified { step: u64 },
    Unfinished { steps: u64 },
}

// The step that was not taken, and why. A refusal has its ground.
#[derive(Clone, Copy)]
pub struct Stop {
    pub step: u64,
    pub why: Failure,
}

// Takes the steps of the proof, where `first` is known at the start.
pub fn run(proof: &[u8], first: Between, work: &mut Work) -> Timed<Result<Finish, Stop>>
    requires { Keeps work.old.heads.now work.old.lits.now work.old.marks.now first }
    ensures ended { RunsTo proof.now first work.old.heads.now work.old.lits.now work.old.hints.now work.old.marks.now work.old.tape.now result.value }
    ensures least { steps_of result.value ≤ result.turns }
    ensures most { result.turns ≤ run_turns proof.now first }
    ensures lent { Lent work.old work.new }
{
    let mut at = 0;
    let mut done: u64 = 0;
    let mut turns: u64 = 0;
    let mut known = first;
    // A `for` would be no plainer: a turn takes a step, and how many there are is known only behind the last. `done` is part of
    // the answer.
    loop {
        let taken = stepping::take_step(proof, at, known, work);
        turns = clauses::plus(turns, taken.turns);
        match taken.outcome {
            Ok(Progress::On(after)) => {
                known = after;
                at = taken.next;
                done += 1;
            }
            Ok(Progress::Verified) => {
                let value = Ok(Finish::Verified { step: done + 1 });
                return Timed { value, turns };
            }
            Ok(Progress::Nothing) => {
                let value = Ok(Finish::Unfinished { steps: done });
                return Timed { value, turns };
            }
            Err(why) => {
                let value = Err(Stop {
                    step: done + 1,
                    why,
                });
                return Timed { value, turns };
            }
        }
    }
}
