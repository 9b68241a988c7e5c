// A step of a proof, read token by token. The caller keeps what is known between two tokens, a `Phase`, so the tokens may come
// from a text, from a text in pieces, or from elsewhere.
//
// The literals go behind the first `used` of `lits`, and the hints, or the ids to delete, to the start of `hints`: a hint as
// twice the id of a clause to look at, plus 1 where the group of the clause begins; an id to delete as twice the id.
// (The last bit of a number tells hints apart, and no enum does: the C interface lends a slice of `u32` for them, and memory is fixed.)
// There is no loop here. A token that makes the step unreadable, or finds a slice full, changes nothing. What the slices have
// behind the last code is not promised to mean anything.
ghost use Rattle.std.specs.Prelude.{◌≡◌};
ghost use Rattle.rules.specs.Limits.{max_variable, max_id};
ghost use Rattle.formula.specs.Body.{item_of};
ghost use Rattle.steps.specs.Feeding.{id_within, id_item, Keeps, codes, FedBy, literal_fed, code_fed, FedStart, FedBody, Feeds};

use formula::body::NoLiteral;
use formula::{Fault, MAX_VARIABLE, body};
use text::Token;

// The greatest id that a step may name.
pub(crate) const MAX_ID: u64 = 268435455;

// The codes of hints and ids are all below this.
const CODES: usize = 4294967296;

// What is known of a step: nothing; its id; literals; hints; ids to delete.
// (The id stands beside the kind, 0 where none is known: `Stands` and `Midway`, by which `feed` promises, speak of both for every kind.)
#[derive(Clone, Copy)]
pub enum Kind {
    Start,
    Body,
    Literals,
    Hints,
    Ids,
}

// Where the reader of a step stands: its kind, the id, the place for the next literal and the place for the next hint.
#[derive(Clone, Copy)]
pub struct Phase {
    pub kind: Kind,
    pub id: u64,
    pub end: usize,
    pub many: usize,
}

// What a token came to, where the step is readable and there was room: more is to be read, or the step is whole.
// (The two last cases are `Step`'s, and no `Whole(Step)`: `Feeds` promises something of its own of each, and a case within a case
// would be no plainer.)
#[derive(Clone, Copy)]
pub enum Fed {
    More(Phase),
    Addition { id: u64, end: usize, many: usize },
    Deletion { many: usize },
}

// The id that a token says, if it says one.
fn id_within(t: Token) -> Option<u64>
    ensures { result ≡ id_within max_id t }
{
    match t {
        Token::Plus(v @ 1..=MAX_ID) => Some(v),
        _ => None,
    }
}

// An id to delete, or the 0 behind the last one.
fn id_item(t: Token) -> Result<Option<u32>, NoLiteral>
    ensures { result ≡ id_item max_id t }
{
    match t {
        Token::Minus(_) => Err(NoLiteral),
        _ => body::item_of(t, MAX_ID),
    }
}

// A number below `limit` goes to its place: the place behind it, or `None` for the 0 behind the last number.
fn keep(
    item: Result<Option<u32>, NoLiteral>,
    at: usize,
    limit: usize,
    slots: &mut [u32],
) -> Result<Option<usize>, Fault>
    ensures { Keeps item at limit slots.old slots.new result }
{
    match item {
        Ok(Some(code)) if (code as usize) < limit && at < slots.len() => {
            slots[at] = code;
            Ok(Some(at + 1))
        }
        Ok(Some(_)) => Err(Fault::TooShort),
        Ok(None) => Ok(None),
        Err(NoLiteral) => Err(Fault::Unreadable),
    }
}

impl Phase {
    // Where nothing is read: the id.
    fn feed_start(self, t: Token) -> Result<Fed, Fault>
        ensures { FedStart self t result }
    {
        let id = id_within(t).ok_or(Fault::Unreadable)?;
        Ok(Fed::More(Phase {
            kind: Kind::Body,
            id,
            many: 0,
            ..self
        }))
    }

    // A literal, or the 0 behind the literals.
    fn feed_literal(self, t: Token, cells: usize, lits: &mut [u32]) -> Result<Fed, Fault>
        ensures { FedBy (item_of max_variable t) self.end cells lits.old lits.new (literal_fed self) result }
    {
        let item = body::item_of(t, MAX_VARIABLE);
        let next = match keep(item, self.end, cells, lits)? {
            Some(end) => Phase {
                kind: Kind::Literals,
                end,
                many: 0,
                ..self
            },
            None => Phase {
                kind: Kind::Hints,
                many: 0,
                ..self
            },
        };
        Ok(Fed::More(next))
    }

    // Behind the id: the letter d, or the first of the literals.
    fn feed_body(self, t: Token, cells: usize, lits: &mut [u32]) -> Result<Fed, Fault>
        ensures { FedBody self t cells lits.old lits.new result }
    {
        if t == Token::LetterD {
            return Ok(Fed::More(Phase {
                kind: Kind::Ids,
                many: 0,
                ..self
            }));
        }
        self.feed_literal(t, cells, lits)
    }

    // A hint or an id to delete, or the 0 behind the last one, with which the step is `whole`.
    fn feed_code(
        self,
        item: Result<Option<u32>, NoLiteral>,
        whole: Fed,
        hints: &mut [u32],
    ) -> Result<Fed, Fault>
        ensures { FedBy item self.many codes hints.old hints.new (code_fed self whole) result }
    {
        Ok(match keep(item, self.many, CODES, hints)? {
            Some(many) => Fed::More(Phase { many, ..self }),
            None => whole,
        })
    }

    // One token more.
    // (A match and no closure: a phase is a plain value, kept between two tokens; a closure would be boxed there, and there is no heap.)
    pub fn feed(
        self,
        t: Token,
        cells: usize,
        lits: &mut [u32],
        hints: &mut [u32],
    ) -> Result<Fed, Fault>
        ensures { Feeds self t cells lits.old hints.old lits.new hints.new result }
    {
        let Phase {
            kind,
            id,
            end,
            many,
        } = self;
        match kind {
            Kind::Start => self.feed_start(t),
            Kind::Body => self.feed_body(t, cells, lits),
            Kind::Literals => self.feed_literal(t, cells, lits),
            Kind::Hints => self.feed_code(
                body::item_of(t, MAX_ID),
                Fed::Addition { id, end, many },
                hints,
            ),
            Kind::Ids => self.feed_code(id_item(t), Fed::Deletion { many }, hints),
        }
    }
}
