// Where above a coordinate line its atom could stand again: what is known of the lines so far rules out most of them.
#![tactic(auto)]

mod cover;
mod looking;
mod sight;

ghost use Rattle.std.specs.Prelude.{◌≡◌, List, ℕ, ◌+◌, ◌*◌, ◌≤◌, ◌<◌, length};
ghost use Rattle.keys.specs.Keys.{home_at};
ghost use Rattle.ahead.specs.Ahead.{Clear};
ghost use Rattle.trail.specs.Trail.{Apart, Watched, Seen};
ghost use Rattle.search.specs.Search.{span, including};

use ahead::Ahead;
use search::Span;
use sight::Sight;

// What is known of the coordinate lines so far. Columns 22-27 of a line, as one number, are its residue here. No line before `from` is in
// the residue `key`, that of the last line; no line is in a residue between `low` and it, or between it and `limit`. Residues do not fall
// before the line `top`, nor rise above `peak` there.
#[derive(Clone, Copy)]
pub struct Watch {
    pub from: usize,
    pub top: usize,
    pub low: u64,
    pub key: u64,
    pub limit: u64,
    pub peak: u64,
    pub ahead: Ahead,
}

// The line from which on it has to be looked for, and what is known once the line is taken in.
#[derive(Clone, Copy)]
pub struct Step {
    pub start: usize,
    pub watch: Watch,
}

// A residue above the last one and below all that are above that: no line is in it.
fn risen(w: Watch, b: Span, x: u64) -> Watch
    requires { (w.key < x) × (x < w.limit) }
    ensures { (result.key ≡ x) × ((t : List ℕ) → b.lo ≤ b.hi → Watched t b w → Watched t b result) }
{
    Watch {
        from: b.hi,
        low: w.key,
        key: x,
        ..w
    }
}

// A residue below the last one and above all that are below that: no line is in it.
fn fallen(w: Watch, b: Span, x: u64) -> Watch
    requires { (w.low < x) × (x < w.key) }
    ensures { (result.key ≡ x) × ((t : List ℕ) → b.lo ≤ b.hi → Watched t b w → Watched t b result) }
{
    Watch {
        from: b.hi,
        key: x,
        limit: w.key,
        ..w
    }
}

// A residue that was looked for.
fn found(w: Watch, s: Sight, x: u64) -> Watch
    ensures { (result.key ≡ x) × ((t : List ℕ) (b : Span) → Seen (home_at t) b.lo b.hi s.from s.low x s.limit → Watched t b w → Watched t b result) }
{
    Watch {
        from: s.from,
        low: s.low,
        key: x,
        limit: s.limit,
        ..w
    }
}

// What a look ahead says is put in the place of what the last one said.
fn told(w: Watch, d: Ahead) -> Watch
    ensures { (result.key ≡ w.key) × (result.from ≡ w.from) × ((t : List ℕ) (b : Span) → Clear t d → Watched t b w → Watched t b result) }
{
    Watch { ahead: d, ..w }
}

// ---- when to look ahead: any answer would do, a poor one costs time alone
// Whether a look ahead told of few lines: then the next ones are likely to tell of no more, and lines are looked at one by one instead.
fn told_little(d: Ahead) -> bool {
    d.a < d.b && d.b <= d.c && d.c - d.b < LITTLE
}

const LITTLE: usize = 16;

// Whether the lines from `from` up to hi are many, and nothing spares a look at them for line i, the next one.
fn wanting(d: Ahead, from: usize, hi: usize, i: usize) -> bool
    requires { from ≤ hi }
{
    hi - from > cover::FEW
        && hi == i
        && !cover::covers(d, from, i)
        && !(told_little(d) && recent(d, hi))
}

// Whether the last look was at one of the last lines.
fn recent(d: Ahead, hi: usize) -> bool {
    d.b > hi || hi - d.b <= cover::FEW
}

// Where many lines from `from` on would have to be looked at for line i, those from a on are held against it and lines to come.
fn forearmed(text: &[u8], b: Span, w: Watch, i: usize, from: usize, a: usize) -> Watch
    requires { (from ≤ b.hi) × (a ≤ b.hi) × (81 * b.hi ≤ length text.now) × Watched text.now b w }
    ensures { (result.key ≡ w.key) × (result.from ≡ w.from) × Watched text.now b result }
{
    if wanting(w.ahead, from, b.hi, i) {
        return told(w, ahead::survey(text, a, b.hi));
    }
    w
}

// The residue x is looked for among all lines of the block. Only if that comes again soon, lines to come are looked at too.
fn sought(text: &[u8], b: Span, w: Watch, i: usize, x: u64) -> Watch
    requires lo_le_hi { (b.lo ≤ b.hi) × (81 * b.hi ≤ length text.now) × Watched text.now b w }
    requires x_bound { x < 18446744073709551615 }
    ensures { (result.key ≡ x) × Watched text.now b result }
{
    let s = looking::looked(text, b, w.top, x);
    let v = found(w, s, x);
    if s.from < w.top {
        return forearmed(text, b, v, i, s.from, b.lo);
    }
    if recent(w.ahead, b.hi) {
        return forearmed(text, b, v, i, w.top, w.top);
    }
    let none = Ahead {
        a: b.hi,
        b: b.hi,
        c: b.hi,
    };
    told(v, none)
}

// The residue x is looked for before the line `top` alone.
fn spared(text: &[u8], b: Span, w: Watch, i: usize, x: u64) -> Watch
    requires { (b.lo ≤ b.hi) × (81 * b.hi ≤ length text.now) × Watched text.now b w }
    ensures { (result.key ≡ x) × Watched text.now b result }
{
    let s = Sight {
        from: looking::nearest(text, b, w.top, x),
        low: x,
        limit: x,
    };
    forearmed(text, b, found(w, s, x), i, s.from, b.lo)
}

// What is known of the lines of the block, with the residue x of line i as the key.
fn attend(text: &[u8], b: Span, w: Watch, i: usize, x: u64) -> Watch
    requires { (b.lo ≤ b.hi) × (81 * b.hi ≤ length text.now) × Watched text.now b w }
    ensures { (result.key ≡ x) × Watched text.now b result }
{
    if x == w.key {
        return w;
    }
    if w.key < x && x < w.limit {
        return risen(w, b, x);
    }
    if w.low < x && x < w.key {
        return fallen(w, b, x);
    }
    if cover::covers(w.ahead, w.top, i) || x == sight::MOST {
        return spared(text, b, w, i, x);
    }
    sought(text, b, w, i, x)
}

// Where the lines of the block have to be looked at for line i, in the residue that is the key.
fn opened(text: &[u8], b: Span, w: Watch, i: usize) -> Step
    requires { (81 * b.hi ≤ length text.now) × (w.key ≡ home_at text.now i) × Watched text.now b w }
    ensures lo_le_start { (b.lo ≤ result.start) × (result.start ≤ b.hi) × Apart text.now b.lo result.start i }
    ensures key_value { (result.watch.key ≡ w.key) × Watched text.now b result.watch }
{
    if b.hi - w.from <= cover::FEW {
        return Step {
            start: w.from,
            watch: w,
        };
    }
    let watch = forearmed(text, b, w, i, w.from, w.from);
    Step {
        start: cover::beyond(watch.ahead, w.from, b.hi, i),
        watch,
    }
}

// Line i, in the residue that is the key, is taken in.
fn taken(b: Span, w: Watch, i: usize) -> Watch
    requires { i < 9223372036854775808 }
    ensures { (t : List ℕ) → b.lo ≤ b.hi → b.hi ≡ i → w.key ≡ home_at t i → Watched t b w → Watched t (span b.lo (i + 1)) result }
{
    if w.top == i && w.peak <= w.key {
        return Watch {
            top: i + 1,
            peak: w.key,
            ..w
        };
    }
    w
}

// Line i, in the residue x, is the first of its block.
fn first(w: Watch, i: usize, x: u64) -> Watch
    requires { i < 9223372036854775808 }
    ensures { (t : List ℕ) (b : Span) → x ≡ home_at t i → Watched t b w → Watched t (span i (i + 1)) result }
{
    Watch {
        from: i,
        top: i + 1,
        low: 0,
        key: x,
        limit: sight::MOST,
        peak: x,
        ahead: w.ahead,
    }
}

// What is known of line i, one of ATOM, HETATM or TER, where the block of such lines before it is b. The line is told by its index, and
// not by its piece, since what is known is of lines by index.
pub fn follow(text: &[u8], b: Span, w: Watch, i: usize) -> Step
    requires i_in_bounds { 81 * i + 81 ≤ length text.now }
    requires lo_le_hi { (b.lo ≤ b.hi) × (81 * b.hi ≤ length text.now) }
    requires watched { Watched text.now b w }
    ensures lo_le_start { (b.lo ≤ result.start) × (result.start ≤ b.hi) × Apart text.now b.lo result.start i }
    ensures watched_2 { (b.lo < b.hi → b.hi ≡ i) → Watched text.now (including b i) result.watch }
{
    let x = keys::home(rows::piece_at(text, i));
    if b.lo < b.hi {
        let Step { start, watch } = opened(text, b, attend(text, b, w, i, x), i);
        return Step {
            start,
            watch: taken(b, watch, i),
        };
    }
    Step {
        start: b.hi,
        watch: first(w, i, x),
    }
}

// Before the first coordinate line.
pub fn start() -> Watch
    ensures { (t : List ℕ) → Watched t (span 0 0) result }
{
    Watch {
        from: 0,
        top: 0,
        low: 0,
        key: 0,
        limit: 0,
        peak: 0,
        ahead: Ahead { a: 0, b: 0, c: 0 },
    }
}
