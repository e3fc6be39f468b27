// Lines of a text looked at for a residue: by halving where residues do not fall, and line by line.
ghost use Rattle.std.specs.Prelude.{◌≡◌, ◌-◌, ◌*◌, ◌≤◌, ◌<◌, length};
ghost use Rattle.keys.specs.Keys.{home_at};
ghost use Rattle.search.specs.Search.{Bracket};
ghost use Rattle.trail.specs.Trail.{Seen, Climbs, half_of};

use crate::sight;
use crate::sight::Sight;
use search::Span;

// What is left to search for the first line that is no less than x, once w was seen on line m.
fn half(s: Span, m: usize, w: u64, x: u64) -> Span
    requires { m < 9223372036854775808 }
    ensures { result ≡ half_of s m w x }
{
    if w < x {
        return Span { lo: m + 1, ..s };
    }
    Span { hi: m, ..s }
}

// The first of lines whose residues do not fall that is in the residue x or a higher one, or their end.
pub fn seek(text: &[u8], b: Span, x: u64) -> usize
    requires { (b.lo ≤ b.hi) × (81 * b.hi ≤ length text.now) × Climbs (home_at text.now) b.lo b.hi }
    ensures { Bracket (home_at text.now) b.lo b.hi x result result }
{
    let mut s = b;
    // `partition_point` is of slices: here a key is read from the text at each probe
    while s.lo < s.hi {
        let m = search::middle(s);
        s = half(s, m, keys::home(rows::piece_at(text, m)), x);
    }
    s.lo
}

// The residue of the line before q, if q is not the first line.
fn below(text: &[u8], lo: usize, q: usize) -> u64
    requires { 81 * q ≤ length text.now }
    ensures { (lo < q → result ≡ home_at text.now (q - 1)) × (q ≤ lo → result ≡ 0) }
{
    if lo < q {
        return keys::home(rows::piece_at(text, q - 1));
    }
    0
}

// The residue of line p, if p is not the end.
fn above(text: &[u8], p: usize, hi: usize) -> u64
    requires { 81 * hi ≤ length text.now }
    ensures { (p < hi → result ≡ home_at text.now p) × (hi ≤ p → result ≡ 18446744073709551615) }
{
    if p < hi {
        return keys::home(rows::piece_at(text, p));
    }
    sight::MOST
}

// Lines whose residues do not fall, looked at for the residue x.
fn ranked(text: &[u8], b: Span, x: u64) -> Sight
    requires lo_le_hi { (b.lo ≤ b.hi) × (81 * b.hi ≤ length text.now) × Climbs (home_at text.now) b.lo b.hi }
    requires x_bound { x < 18446744073709551615 }
    ensures { Seen (home_at text.now) b.lo b.hi result.from result.low x result.limit }
{
    let q = seek(text, b, x);
    let p = seek(text, b, x + 1);
    Sight {
        from: if q < p { q } else { b.hi },
        low: below(text, b.lo, q),
        limit: above(text, p, b.hi),
    }
}

// The lines from lo up to hi, looked through for the residue x.
fn passed(text: &[u8], lo: usize, hi: usize, x: u64) -> Sight
    requires { (lo ≤ hi) × (81 * hi ≤ length text.now) }
    ensures { Seen (home_at text.now) lo hi result.from result.low x result.limit }
{
    let mut from = hi;
    let mut low: u64 = 0;
    let mut limit = sight::MOST;
    for j in (lo..hi).rev() {
        let w = keys::home(rows::piece_at(text, j));
        from = if w == x { j } else { from };
        low = if w < x { low.max(w) } else { low };
        limit = if x < w { limit.min(w) } else { limit };
    }
    Sight { from, low, limit }
}

// The lines of the block b, whose residues do not fall before top, looked at for the residue x.
pub fn looked(text: &[u8], b: Span, top: usize, x: u64) -> Sight
    requires lo_le_top { (b.lo ≤ top) × (top ≤ b.hi) × (81 * b.hi ≤ length text.now) × Climbs (home_at text.now) b.lo top }
    requires x_bound { x < 18446744073709551615 }
    ensures { Seen (home_at text.now) b.lo b.hi result.from result.low x result.limit }
{
    let run = Span { lo: b.lo, hi: top };
    let a = ranked(text, run, x);
    let z = passed(text, top, b.hi, x);
    sight::joined(a, z, top)
}

// The first line before top that is in the residue x, or top.
pub fn nearest(text: &[u8], b: Span, top: usize, x: u64) -> usize
    requires { (b.lo ≤ top) × (top ≤ b.hi) × (81 * b.hi ≤ length text.now) × Climbs (home_at text.now) b.lo top }
    ensures { (result ≤ top) × Seen (home_at text.now) b.lo b.hi result x x x }
{
    let run = Span { lo: b.lo, hi: top };
    let q = seek(text, run, x);
    if q < top && keys::home(rows::piece_at(text, q)) == x {
        return q;
    }
    top
}
