// Steps of a proof: read from bytes, by document 01, section 4.
//
// The way of the data: `text` finds the token at a place; `feeding` makes of it one piece more of a step; here is the loop over
// the two. Literals and hints that are short numbers, as nearly all are, are taken in a loop of their own (`along`), which does
// to the slices what `feeding` would have done. A step is read and not judged: nothing is promised of its ids, its literals or
// its hints but that they are what the text says. Of an unreadable step it is promised that it is found out, and of slices that
// are too short that they are; either way the first `used` of `lits` stay.
//
// The functions take a text and a place in it: `Along` and `ReadsStep` speak of places in the whole text, and what they
// say may not change.
//
// The turns of the two loops can be told from what is returned: one for each token taken (exactly, behind a whole step; up to
// two tokens more than there are codes, where it stopped), one more where it stopped or nothing was left, and the bytes passed
// for the leaves below. The look that ends `along` moves nothing on and is no turn; there is at most one for each token that is
// fed.
#![tactic(auto)]

pub mod feeding;

ghost use Rattle.std.specs.Prelude.{◌≡◌, ◌<◌, ◌≤◌, ◌^◌, length};
ghost use Rattle.steps.specs.Reading.{Along, GoesOnward, ReadsStep};

use feeding::{Fed, Kind, MAX_ID, Phase};
use formula::body::Progress;
use formula::{Fault, MAX_VARIABLE};
use text::{Scanned, Token};

// A step that was read: the id of an addition, the end of its literals and the number of its hints; or how many ids a deletion has.
#[derive(Clone, Copy)]
pub enum Step {
    Addition { id: u64, end: usize, many: usize },
    Deletion { many: usize },
}

// The step that was read, unless none is left, and the place behind it.
#[derive(Clone, Copy)]
pub struct Read {
    pub step: Option<Step>,
    pub next: usize,
}

// Why and where reading a step stopped, and what had been stored by then.
// (The shape of `formula::Stopped`, but hints are counted here and clauses there: one struct would have names that fit neither.)
#[derive(Clone, Copy)]
pub struct Stopped {
    pub fault: Fault,
    pub at: usize,
    pub end: usize,
    pub many: usize,
}

// Takes short numbers one after the other from `from` on, as long as their codes are below `limit` and there is room for them
// in the slice from `first` on. Nearly all tokens of a proof in use are taken here; whatever is not as expected is left to
// `feed`, which decides. (The whole slice and a place in it, and not what lies behind: a place is what the reader keeps. Two numbers
// come back, and not the second behind a `&mut`: that took a fiftieth more instructions where steps are short. It is made one with its
// callers: else steps with tabs or line feeds between their tokens take 1.2 times the time.)
#[inline(always)]
fn along(s: &[u8], from: usize, limit: u64, slots: &mut [u32], first: usize) -> Progress
    requires from_in_bounds { from ≤ length s.now }
    requires limit_bound { limit ≤ 2 ^ 32 }
    ensures { Along s.now from first limit slots.old slots.new result.next result.used }
{
    let mut next = from;
    for end in first..slots.len() {
        let r = text::short_at(s, next);
        let code = r / 16;
        if r == 0 || limit <= code {
            return Progress { next, used: end };
        }
        slots[end] = code as u32;
        next += (r % 16) as usize;
    }
    Progress {
        next,
        used: slots.len().max(first),
    }
}

// A reader that stands at `from` takes the literals or hints that follow there: the place behind them.
// (A match on the kind, as in `feed`: two kinds read on, three do nothing.)
fn go_on(
    s: &[u8],
    from: usize,
    cells: usize,
    lits: &mut [u32],
    hints: &mut [u32],
    phase: &mut Phase,
) -> usize
    requires { from ≤ length s.now }
    ensures { GoesOnward cells s.now from phase.old lits.old hints.old lits.new hints.new result phase.new }
{
    match phase.kind {
        Kind::Start | Kind::Body | Kind::Ids => from,
        Kind::Literals => {
            let limit = (cells as u64).min(2 * MAX_VARIABLE + 2);
            let passed = along(s, from, limit, lits, phase.end);
            phase.end = passed.used;
            passed.next
        }
        Kind::Hints => {
            let passed = along(s, from, 2 * MAX_ID + 2, hints, phase.many);
            phase.many = passed.used;
            passed.next
        }
    }
}

// The step at `at`. Its literals go behind the first `used` of `lits`, its hints or ids to the start of `hints`.
// The slices are lent out of a larger store of the caller's: a struct of them would have to be built anew for each step.
pub fn read_step(
    s: &[u8],
    at: usize,
    used: usize,
    cells: usize,
    lits: &mut [u32],
    hints: &mut [u32],
) -> Result<Read, Stopped>
    requires at_in_bounds { at ≤ length s.now }
    requires used_in_bounds { used ≤ length lits.old }
    ensures { ReadsStep cells s.now at used lits.old hints.old lits.new hints.new result }
{
    let mut i = at;
    let mut phase = Phase {
        kind: Kind::Start,
        id: 0,
        end: used,
        many: 0,
    };
    // A `for` would be no plainer: a turn goes on where the last token ended.
    loop {
        let Scanned { token, next } = text::token_at(s, i);
        match phase.feed(token, cells, lits, hints) {
            Ok(Fed::More(on)) => {
                phase = on;
                i = go_on(s, next, cells, lits, hints, &mut phase);
            }
            Ok(Fed::Addition { id, end, many }) => {
                let step = Some(Step::Addition { id, end, many });
                return Ok(Read { step, next });
            }
            Ok(Fed::Deletion { many }) => {
                let step = Some(Step::Deletion { many });
                return Ok(Read { step, next });
            }
            Err(fault) => {
                // A text that ends where a step was to begin has none left.
                if i == at && token == Token::Nothing {
                    return Ok(Read { step: None, next });
                }
                return Err(Stopped {
                    fault,
                    at: i,
                    end: phase.end,
                    many: phase.many,
                });
            }
        }
    }
}
