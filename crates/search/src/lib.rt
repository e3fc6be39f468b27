// A search among serials that rise, by value: a text and a table are searched alike.
#![tactic(auto)]

ghost use Rattle.std.specs.Prelude.{◌≡◌, ◌≤◌, ◌<◌};
ghost use Rattle.search.specs.Search.{part_of};

use fields::Serial;

// The places from lo up to hi.
#[derive(Clone, Copy)]
pub struct Span {
    pub lo: usize,
    pub hi: usize,
}

// A serial that was met, and where.
#[derive(Clone, Copy)]
pub struct Near {
    pub place: usize,
    pub serial: Serial,
}

// Where the search for a serial ended, and what was asked of it. (In this order a copy of the place is one move.)
#[derive(Clone, Copy)]
pub struct Sought {
    pub near: Near,
    // A flag beside the place, and no Option of it: the next search begins there whatever was answered.
    pub yes: bool,
}

// Of a span, what is left to search for x once `there` was seen at place m.
pub fn part(s: Span, m: usize, there: Serial, x: Serial) -> Span
    requires { m < 9223372036854775808 }
    ensures { result ≡ part_of s m there.0 x.0 }
{
    if there.0 < x.0 {
        return Span {
            lo: m + 1,
            hi: s.hi,
        };
    }
    if there.0 == x.0 {
        return Span { lo: m, hi: m };
    }
    Span { lo: s.lo, hi: m }
}

// A place drawn into a span.
fn drawn(s: Span, place: usize) -> usize
    requires { s.lo < s.hi }
    ensures { (s.lo ≤ result) × (result < s.hi) }
{
    place.clamp(s.lo, s.hi - 1)
}

// Where x stands if serials rise by 1 between it and the one that was met, as they mostly do.
fn guess(n: Near, s: Span, x: Serial) -> usize
    requires { s.lo < s.hi }
    ensures { (s.lo ≤ result) × (result < s.hi) }
{
    let p = drawn(s, n.place);
    if n.serial.0 < x.0 {
        let up = (x.0 - n.serial.0) as usize;
        return p + up.min(s.hi - 1 - p);
    }
    let down = (n.serial.0 - x.0) as usize;
    p - down.min(p - s.lo)
}

// The place in the middle of a span.
pub fn middle(s: Span) -> usize
    requires { s.lo < s.hi }
    ensures { (s.lo ≤ result) × (result < s.hi) }
{
    s.lo + (s.hi - s.lo) / 2
}

// The place to look at next: guesses at first, then halves. After a guess x is no further from it than the two serials differ, so the
// second guess bounds what is left.
pub fn probe(looks: u8, n: Near, s: Span, x: Serial) -> usize
    requires { s.lo < s.hi }
    ensures { (s.lo ≤ result) × (result < s.hi) }
{
    if looks < GUESSES {
        return guess(n, s, x);
    }
    middle(s)
}

const GUESSES: u8 = 2;

// One look more, as far as they are counted.
pub fn counted(looks: u8) -> u8
    ensures { result ≤ 2 }
{
    looks.saturating_add(1).min(GUESSES)
}
