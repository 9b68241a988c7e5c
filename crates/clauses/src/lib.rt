// The store of live clauses, in two slices that the caller lends: how a clause is added, found by its id and deleted, and how
// deleted clauses give their room back. specs/Store.antt says which live clauses two slices hold. Nothing is promised of
// slices that hold no store; that what a function leaves is a store again is said by laws in proofs/, not by its contract.
// The slices are memory that is lent once, longer than what is in use, so how many clauses there are stands beside them.
#![tactic(auto)]

ghost use Rattle.std.specs.Prelude.{◌≡◌, ◌+◌, ◌-◌, ◌*◌, ◌/◌, ◌%◌, ◌^◌, ◌<◌, ◌≤◌, length, IfSome};
ghost use Rattle.clauses.specs.Codes.{opposite_code};
ghost use Rattle.clauses.specs.Counting.{Counts};
ghost use Rattle.std.proofs.Math.Seq.{slice};
ghost use Rattle.clauses.specs.Store.{id_at, start_at, RoomFor, Placed, written, marked};
ghost use Rattle.clauses.specs.Finding.{Searchable, Peeks, Finds, Halvings, AtMostHalvings, reached_by};
ghost use Rattle.clauses.specs.Moving.{Stored, Movable, OneMoved, AllMoved};

// A value, and the turns that it took or stands for.
#[derive(Clone, Copy)]
pub struct Timed<T> {
    pub value: T,
    pub turns: u64,
}

// The store as it is looked at: the first `n` clauses by their heads, the literals, and the table of guesses.
#[derive(Clone, Copy)]
pub struct View<'a> {
    pub heads: &'a [u32],
    pub lits: &'a [u32],
    pub guess: &'a [u32],
    pub n: usize,
}

// How many clauses and literals there are after the deleted ones went, and the turns that this took.
#[derive(Clone, Copy)]
pub struct Compacted {
    pub n: usize,
    pub used: usize,
    pub turns: u64,
}

// The id that a hint's or a deletion's code has.
// (A function, and no division at each call: `half` of specs/Codes is what it says, and `find` asks for the bound.)
pub fn half(x: u32) -> u64
    ensures { (result ≡ x / 2) × (result < 2 ^ 60) }
{
    u64::from(x / 2)
}

// Turns and more turns, up to the greatest count.
// (`saturating_add` under a name: `Counts`, by which every count of turns is promised, is its contract.)
#[inline]
pub fn plus(turns: u64, more: u64) -> u64
    ensures { Counts turns more result }
{
    turns.saturating_add(more)
}

// The opposite of a literal.
// (A literal is a number whose last bit is its sign, and no enum: `literal_of` and `opposite_code`, which may not change, have it
// so, and C lends numbers.)
#[tactic(auto, unfolding(crate::specs::Codes::opposite_code))]
pub fn opposite(l: u32) -> u32
    requires { l < 2 ^ 31 }
    ensures { result ≡ opposite_code l }
{
    if l % 2 == 0 { l + 1 } else { l - 1 }
}

// The head of the `k`-th clause: twice its id, plus 1 if it is deleted. (It is one number, no id with a flag: `Store` and `id_at`, which
// may not change, have it so.)
// (Three numbers of `heads` are a clause, and no struct: C lends a slice of `u32`, and `id_at`, `start_at` and `written`, which
// may not change, say which they are.)
pub fn head_at(heads: &[u32], k: usize) -> u64
    requires { 3 * k < length heads.now }
    ensures { result ≡ id_at heads.now k }
{
    u64::from(heads[3 * k])
}

// An index, of its rest and its quotient by 2 ^ 32.
fn join(low: u32, high: u32) -> usize
    ensures { result ≡ low + 4294967296 * high }
{
    low as usize + 4294967296 * high as usize
}

// Where the literals of the `k`-th clause begin.
#[tactic(auto, unfolding(crate::specs::Store::start_at))]
pub fn start_at(heads: &[u32], k: usize) -> usize
    requires { RoomFor heads.now k }
    ensures { result ≡ start_at heads.now k }
{
    join(heads[3 * k + 1], heads[3 * k + 2])
}

// 1 if `head` has an id of at most `id`, else 0. The difference stands for the test, so that no branch is taken on it.
// (Tried: `usize::from(head / 2 <= id)`, of which LLVM makes a branch: 5 percent more branches are foretold wrongly, over long proofs.)
#[tactic(auto, using(crate::proofs::Searching::reached_by_lem))]
fn reached(id: u64, head: u64) -> usize
    requires { id < 2 ^ 60 }
    ensures { result ≡ reached_by id head }
{
    let difference = 9223372036854775808 + id - head / 2;
    (difference / 9223372036854775808) as usize
}

// The place of the live clause `id` among the first `n`, by halving. (No search of std's: `Halvings` says how many turns there are,
// which std's contracts do not, and they look at each number of a slice, where the heads stand three apart.)
pub fn find(heads: &[u32], n: usize, id: u64) -> Timed<Option<usize>>
    requires { Searchable heads.now n id }
    ensures place { Finds heads.now n id result.value }
    ensures turns { Halvings n result.turns }
{
    let mut turns: u64 = 0;
    if n == 0 {
        return Timed { value: None, turns };
    }
    let mut base = 0;
    let mut span = n;
    while 1 < span {
        let half = span / 2;
        let middle = base + half;
        base += half * reached(id, head_at(heads, middle));
        span -= half;
        turns += 1;
    }
    let right = head_at(heads, base) == 2 * id;
    Timed {
        value: right.then_some(base),
        turns,
    }
}

// The greatest number of the form 2^k - 1 that is below `slots`.
fn mask(slots: usize) -> u64
    requires { 0 < slots }
    ensures { result < slots }
{
    (1 << slots.ilog2()) - 1
}

// Where the guess for `id` stands, if there is room for one. The first number of the table says how many of the bits of an id are
// not used at the upper end, so that the guesses for few clauses do not lie all over a long table; and the mask leaves a power of 2
// of the slots.
#[inline]
fn slot(guess: &[u32], id: u64) -> Option<usize>
    ensures { IfSome result (λ at. at < length guess.now) }
{
    if guess.len() < 2 {
        return None;
    }
    let bits = u64::MAX >> (guess[0] % 64);
    Some(1 + (id & bits & mask(guess.len() - 1)) as usize)
}

// How far a clause lies below the place that it would have if no id were left out and nothing had been given back. (A number
// that makes no sense does no harm: a guess is looked at before it is believed.)
fn below(id: u64, place: usize) -> usize {
    (id as usize).wrapping_sub(1).wrapping_sub(place)
}

// How far the clause `id` is guessed to lie below that place.
// (0 where there is no slot, and no Option: any guess will do.)
#[inline]
fn noted(guess: &[u32], id: u64) -> usize {
    match slot(guess, id) {
        Some(at) => guess[at] as usize,
        None => 0,
    }
}

impl<'a> View<'a> {
    // The literals of the `k`-th clause.
    #[inline]
    pub fn clause(self, k: usize) -> &'a [u32]
        requires { Placed self.heads.now self.lits.now k }
        ensures { result.now ≡ slice (start_at self.entry.heads.now k) (start_at self.entry.heads.now (k + 1)) self.entry.lits.now }
    {
        &self.lits[start_at(self.heads, k)..start_at(self.heads, k + 1)]
    }

    // The guess for `id`; any place will do. A table of zeros is right as long as no id is left out and no room was
    // given back.
    #[inline]
    pub fn guessed(self, id: u64) -> usize {
        below(id, noted(self.guess, id))
    }

    // The place of the live clause `id` if the guess for it is right. This is the first half of a `lookup`, of its own so that a
    // caller can make it ahead of time, and the memory where the clause's head stands is there once the rest is done.
    #[inline]
    pub fn peek(self, place: usize, id: u64) -> Option<usize>
        requires { RoomFor self.heads.now self.n × (id < 2 ^ 60) }
        ensures { Peeks self.entry.heads.now self.entry.n id result }
    {
        let right = place < self.n && head_at(self.heads, place) == 2 * id;
        right.then_some(place)
    }

    // As `find`, behind a `peek`. A right guess costs no turn.
    #[inline]
    pub fn lookup_at(self, peeked: Option<usize>, id: u64) -> Timed<Option<usize>>
        requires searchable { Searchable self.heads.now self.n id }
        requires peeked { Peeks self.heads.now self.n id peeked }
        ensures place { Finds self.entry.heads.now self.entry.n id result.value }
        ensures turns { AtMostHalvings self.entry.n result.turns }
    {
        match peeked {
            Some(place) => Timed {
                value: Some(place),
                turns: 0,
            },
            None => find(self.heads, self.n, id),
        }
    }

    // As `find`, with a guess first, which may be wrong.
    #[inline]
    pub fn lookup(self, id: u64) -> Timed<Option<usize>>
        requires { Searchable self.heads.now self.n id }
        ensures place { Finds self.entry.heads.now self.entry.n id result.value }
        ensures turns { AtMostHalvings self.entry.n result.turns }
    {
        self.lookup_at(self.peek(self.guessed(id), id), id)
    }
}

// The next guess for `id` is `place`, if there is room for a guess. What is right already is not written again, so that memory
// which the caller has not touched yet is not taken for it.
pub fn note(guess: &mut [u32], id: u64, place: usize)
    ensures { length guess.new ≡ length guess.old }
{
    let Some(at) = slot(guess, id) else {
        return;
    };
    let Ok(now) = u32::try_from(below(id, place)) else {
        return;
    };
    if guess[at] != now {
        guess[at] = now;
    }
}

// The table is used as far as `n` clauses ask for: 64 to 128 slots for each, so that few of the ids that follow take the slot of
// another one.
fn fit(guess: &mut [u32], n: usize)
    ensures { length guess.new ≡ length guess.old }
{
    if let Some(unused) = guess.first_mut() {
        *unused = n.leading_zeros().saturating_sub(6);
    }
}

// The next guess for each of the first `n` clauses is its place.
pub fn note_all(heads: &[u32], n: usize, guess: &mut [u32]) -> u64
    requires { RoomFor heads.now n }
    ensures turns { result ≡ n }
    ensures long { length guess.new ≡ length guess.old }
{
    fit(guess, n);
    let mut noted: u64 = 0;
    for place in 0..n {
        note(guess, head_at(heads, place) / 2, place);
        noted += 1;
    }
    noted
}

// The store becomes empty: its first clause, once there is one, begins where the literals do.
#[tactic(auto, unfolding(crate::specs::Store::start_at))]
pub fn begin(heads: &mut [u32])
    requires { RoomFor heads.old 0 }
    ensures begins { start_at heads.new 0 ≡ 0 }
    ensures long { length heads.new ≡ length heads.old }
{
    heads[1] = 0;
    heads[2] = 0;
}

// The head of the `n`-th clause, and where its literals end.
#[tactic(auto, unfolding(crate::specs::Store::written))]
fn write_head(heads: &mut [u32], n: usize, head: u32, end: usize)
    requires { RoomFor heads.old (n + 1) }
    ensures { heads.new ≡ written heads.old n head end }
{
    heads[3 * n] = head;
    heads[3 * n + 4] = (end % 4294967296) as u32;
    heads[3 * n + 5] = (end / 4294967296) as u32;
}

// The clause that ends at `end` becomes the `n`-th, under `id`.
pub fn append(heads: &mut [u32], n: usize, id: u64, end: usize)
    requires { RoomFor heads.old (n + 1) × (id < 2 ^ 31) }
    ensures { heads.new ≡ written heads.old n (2 * id) end }
{
    write_head(heads, n, (2 * id) as u32, end);
}

// The `k`-th clause, which is live, is deleted.
#[tactic(auto, unfolding(crate::specs::Store::marked))]
pub fn delete(heads: &mut [u32], k: usize)
    requires { (3 * k < length heads.old) × (id_at heads.old k % 2 ≡ 0) }
    ensures { heads.new ≡ marked heads.old k }
{
    heads[3 * k] += 1;
}

// The `k`-th clause moves down behind those that stay, if it is live.
// (No `View`, here and in `compact`: heads and literals are written to, and a `View` only reads.)
fn keep(heads: &mut [u32], lits: &mut [u32], k: usize, done: Compacted) -> Compacted
    requires { Movable heads.old lits.old k done.n done.used done.turns }
    ensures { OneMoved heads.old lits.old k done heads.new lits.new result }
{
    let head = heads[3 * k];
    if head % 2 != 0 {
        return done;
    }
    let from = start_at(heads, k);
    let end = start_at(heads, k + 1);
    lits.copy_within(from..end, done.used);
    let used = done.used + (end - from);
    write_head(heads, done.n, head, used);
    Compacted {
        n: done.n + 1,
        used,
        turns: done.turns + (end - from) as u64,
    }
}

// The live ones of the first `n` clauses move down, in order, and the deleted ones go.
pub fn compact(heads: &mut [u32], lits: &mut [u32], n: usize) -> Compacted
    requires { Stored heads.old lits.old n }
    ensures { AllMoved heads.old lits.old n heads.new lits.new result }
{
    let mut done = Compacted {
        n: 0,
        used: 0,
        turns: 0,
    };
    let mut passed: u64 = 0;
    for k in 0..n {
        done = keep(heads, lits, k, done);
        passed += 1;
    }
    done.turns += passed;
    done
}
