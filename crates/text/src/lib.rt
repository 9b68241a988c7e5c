// From bytes to tokens: blanks, numbers, and the token at a place of a text, by document 01, section 2.
//
// A number never wraps. Above 10^18, far beyond every limit of the document, it stays at 10^18, and a law in
// proofs/Tokens.antt says that no test of a limit can tell the difference. What a token may be used for is not decided here.
//
// Every loop here moves one byte on with each turn, so the turns are the bytes passed: `next - at`, and for a word that is no
// number up to twice that, since its end is looked for from its beginning. `short_at` and what it calls have no loop.
//
// A place travels beside the text, and no rest of it: `Scans at (drop at s)` and `Short`, which may not change, speak of places, and
// callers keep places, add to them and compare them.
#![tactic(auto)]

ghost use Rattle.std.specs.Prelude.{◌≡◌, ◌+◌, ◌*◌, ◌<◌, ◌≤◌, false, length, drop, slice_index, IfSome};
ghost use Rattle.rules.specs.Text.{is_blank, word};
ghost use Rattle.text.specs.Scan.{most, blanks, ends_word, Behind, Stops, Numbered, Ran, Positive, OneByte, Numeral, Guessing, Scans, Bytes, MovedUp, EachAtMost, Tells, said, Short};

// A number stays at this size if it is larger.
const MOST: u64 = 1_000_000_000_000_000_000;

// A token. A number is given by its size, at most 10^18. `Nothing` is the end of the text.
#[derive(Clone, Copy, PartialEq, Eq)]
pub enum Token {
    Nought,
    Plus(u64),
    Minus(u64),
    LetterD,
    Other,
    Nothing,
}

// A token, or the value of a number, and the place behind it.
#[derive(Clone, Copy)]
pub struct Scanned<T = Token> {
    pub token: T,
    pub next: usize,
}

// (Tried: `matches!` makes tab and line feed a range, and reading a formula then takes 4 percent more instructions.)
pub fn is_blank(b: u8) -> bool
    ensures { result ≡ is_blank b }
{
    b == b' ' || b == b'\t' || b == b'\r' || b == b'\n'
}

// The place behind the bytes from `from` on that pass the test, up to the first that does not. (Tried: with a `for`
// here, reading a formula takes 1.45 of the instructions, and 1.03 with one in `run`.)
fn behind<F: Fn(u8) -> bool>(s: &[u8], from: usize, passes: F) -> usize
    requires { F.IsAlwaysCallable passes }
    ensures { Behind (F.post passes) s.now from result }
{
    let mut i = from;
    while i < s.len() && passes(s[i]) {
        i += 1;
    }
    i
}

// The first place from `at` on that has no blank.
// (Its loop is not made one with those of who calls it: it finds no registers left there, and a run of blanks takes 1.3 times the
// time.)
#[inline(never)]
pub fn skip_blanks(s: &[u8], at: usize) -> usize
    ensures { result ≡ at + blanks (drop at s.now) }
{
    behind(s, at, is_blank)
}

// The place behind the word that goes on at `at`.
fn word_end(s: &[u8], at: usize) -> usize
    ensures { result ≡ at + length (word (drop at s.now)) }
{
    behind(s, at, |b| !is_blank(b))
}

// The first place from `from` on that has no digit.
fn skip_digits(s: &[u8], from: usize) -> usize
    ensures { Ran s.now most from most result }
{
    behind(s, from, |b| b.is_ascii_digit())
}

// Whether a word that reaches up to `at` ends there.
fn ends_word(s: &[u8], at: usize) -> bool
    ensures { result ≡ ends_word (drop at s.now) }
{
    s.get(at).is_none_or(|b| is_blank(*b))
}

// A number whose digits end at its place: it is one only if the word ends there, too.
fn finish(s: &[u8], n: Scanned<u64>) -> Option<Scanned<u64>>
    requires le_most { n.token ≤ most }
    requires stops { Stops s.now n.next }
    ensures { Numbered n.token n.next (drop n.next s.now) result }
{
    ends_word(s, n.next).then_some(n)
}

// A number that is above `MOST` already, and goes on at `from`.
fn long(s: &[u8], from: usize) -> Option<Scanned<u64>>
    ensures { Numbered most from (drop from s.now) result }
{
    let next = skip_digits(s, from);
    finish(s, Scanned { token: MOST, next })
}

// The digits from `from` on, behind a number that is `first` so far: up to the last one, or until it is above `MOST`. Nothing
// else is done here, so that the loop keeps all it needs in registers.
// (Tried: a `for`, as in `behind`. Reading a formula then takes 3 percent more instructions.)
fn run(s: &[u8], from: usize, first: u64) -> Scanned<u64>
    requires { first ≤ most }
    ensures { Ran s.now first from result.token result.next }
{
    let mut v = first;
    let mut i = from;
    while i < s.len() && s[i].is_ascii_digit() {
        v = v * 10 + u64::from(s[i] - b'0');
        i += 1;
        if v > MOST {
            break;
        }
    }
    Scanned { token: v, next: i }
}

// A number that is `first` so far, and goes on at `from`.
fn digits_from(s: &[u8], from: usize, first: u64) -> Option<Scanned<u64>>
    requires { first ≤ most }
    ensures { Numbered first from (drop from s.now) result }
{
    let n = run(s, from, first);
    if n.token > MOST {
        long(s, n.next)
    } else {
        finish(s, n)
    }
}

// The word at `at` as a positive number: digits without a leading zero.
fn positive(s: &[u8], at: usize) -> Option<Scanned<u64>>
    ensures { Positive at (drop at s.now) result }
{
    let b = *s.get(at)?;
    if !matches!(b, b'1'..=b'9') {
        return None;
    }
    digits_from(s, at + 1, u64::from(b - b'0'))
}

// A token of one byte at `at`, unless the word goes on.
fn one_byte(s: &[u8], at: usize, t: Token) -> Option<Scanned>
    requires { (at < length s.now) × OneByte (slice_index s.now at) t }
    ensures { Guessing at (drop at s.now) result }
{
    let next = at + 1;
    ends_word(s, next).then_some(Scanned { token: t, next })
}

// A number at `at`, with a sign or none before it.
fn signed(s: &[u8], at: usize) -> Option<Scanned>
    requires { (at < length s.now) × Numeral (slice_index s.now at) }
    ensures { Guessing at (drop at s.now) result }
{
    let negative = s[at] == b'-';
    let n = positive(s, at + usize::from(negative))?;
    let token = if negative {
        Token::Minus(n.token)
    } else {
        Token::Plus(n.token)
    };
    Some(Scanned {
        token,
        next: n.next,
    })
}

// The word at `at`, where there is no blank, as a token; none for another word, whose end is still to be found.
fn word_at(s: &[u8], at: usize) -> Option<Scanned>
    requires { (at < length s.now) × (is_blank (slice_index s.now at) ≡ false) }
    ensures { Guessing at (drop at s.now) result }
{
    match s[at] {
        b'0' => one_byte(s, at, Token::Nought),
        b'd' => one_byte(s, at, Token::LetterD),
        _ => signed(s, at),
    }
}

// The first token from `at` on, and the place behind it. The end of another word is found here and nowhere else: the code for it
// stands once, out of the way of the others.
pub fn token_at(s: &[u8], at: usize) -> Scanned
    ensures { Scans at (drop at s.now) result.token result.next }
{
    let p = skip_blanks(s, at);
    if s.len() <= p {
        return Scanned {
            token: Token::Nothing,
            next: p,
        };
    }
    word_at(s, p).unwrap_or_else(|| Scanned {
        token: Token::Other,
        next: word_end(s, p),
    })
}

// The first eight bytes from `at` on as one number, the first of them lowest; none if there are fewer.
fn eight(s: &[u8], at: usize) -> Option<u64>
    requires { at ≤ length s.now }
    ensures { IfSome result (λ w. Bytes s.now at 8 w) }
{
    let bytes = s[at..].first_chunk::<8>()?;
    Some(u64::from_le_bytes(*bytes))
}

// How many of eight bytes probably stand before the first space: before the first byte behind the lowest that has not the bit
// which all digits have and a space has not. Any number will do, since it is looked at whether there is a space.
fn before_space(w: u64) -> usize {
    let gaps = !w & 0x1010_1010_1010_1000;
    (gaps.trailing_zeros() / 8) as usize
}

// How far each of the lowest `n` bytes is above the digit 0, moved up so far that nothing is left of the other bytes. A sign is
// taken for a 0 in front of the number: it stands 3 below that digit.
fn worths(w: u64, sign: u64, n: usize) -> u64
    requires le_n { (1 ≤ n) × (n ≤ 7) }
    requires sign_bound { sign ≤ 1 }
    ensures { MovedUp w sign n result }
{
    let difference = w.wrapping_sub(0x3030_3030_3030_3030 - 3 * sign);
    difference << (64 - 8 * (n as u64))
}

// Whether each of the eight bytes is at most 9: neither it nor 6 more than it is 16 or more.
fn all_digits(d: u64) -> bool
    ensures { Tells result (EachAtMost 9 8 d) }
{
    d & 0xf0f0_f0f0_f0f0_f0f0 == 0 && (d + 0x0606_0606_0606_0606) & 0xf0f0_f0f0_f0f0_f0f0 == 0
}

// The number whose digits the eight bytes are, the lowest first: they are put together in pairs, and the pairs added up.
fn number_of(d: u64) -> u64
    requires { EachAtMost 9 8 d }
    ensures { (result ≡ said 8 0 d) × (result ≤ 99999999) }
{
    let pairs = d * 10 + d / 256;
    let upper = (pairs % 256) * 100 + pairs / 65536 % 256;
    let lower = (pairs / 4294967296 % 256) * 100 + pairs / 281474976710656 % 256;
    upper * 10000 + lower
}

// The same as `short_at`, or none.
#[inline(always)]
fn short(s: &[u8], at: usize) -> Option<u64>
    requires { at ≤ length s.now }
    ensures { IfSome result (λ r. Short at (drop at s.now) r) }
{
    if s.len() - at < 16 || s[at] != b' ' {
        return None;
    }
    let w = eight(s, at + 1)?;
    let n = before_space(w);
    if !matches!(n, 1..=7) || s[at + 1 + n] != b' ' {
        return None;
    }
    // A sign is added and not branched on, since signs are hard to foresee.
    let sign = u64::from(s[at + 1] == b'-');
    if !matches!(s[at + 1 + (sign as usize)], b'1'..=b'9') {
        return None;
    }
    let d = worths(w, sign, n);
    if !all_digits(d) {
        return None;
    }
    Some(number_of(d) * 32 + 16 * sign + (n + 1) as u64)
}

// The first token from `at` on, if it is a number of up to seven bytes with a space before and behind it, as nearly all are:
// 16 times its code, and how many bytes it takes with the space before it. 0 if it is not, or if the text is about to end.
// It is a single number, and no `Option`: `Short`, which may not change, speaks of one.
pub fn short_at(s: &[u8], at: usize) -> u64
    requires { at ≤ length s.now }
    ensures { Short at (drop at s.now) result }
{
    short(s, at).unwrap_or(0)
}
