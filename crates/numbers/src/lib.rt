// Numbers in columns: blanks, perhaps a minus, digits, and where the field has decimals a point and those digits.
#![tactic(auto)]

ghost use Rattle.std.specs.Prelude.{◌≡◌, ◌+◌, ◌*◌, ◌^◌, ◌≤◌, ◌<◌, length, set};
ghost use Rattle.columns.specs.Columns.{Put};
ghost use Rattle.numbers.specs.Number.{given, number_of, digit_of, leader, render};
ghost use Rattle.numbers.specs.Runs.{value_of, dec_of, step_of, scan_of, taken_of, decimals_of, made_of};

// A number as it stands in its columns, counted in its last decimal.
#[derive(Clone, Copy, Debug, PartialEq, Eq)]
pub struct Decimal {
    pub minus: bool,
    pub mag: u64,
}

// The same while its columns are passed, without a branch: whether it is one so far stands beside it, and the definitions speak of both.
#[derive(Clone, Copy)]
pub struct Number {
    pub good: bool,
    pub minus: bool,
    pub mag: u64,
}

// What a byte counts as a digit, 0 where it is none.
fn value(b: u8) -> u64
    ensures { result ≡ value_of b }
{
    if ascii::is_digit(b) {
        (b - b'0') as u64
    } else {
        0
    }
}

// s times the number of n digits, each of four bits of w, by recursion on the falling length: ten times that of the digits but the
// last, and that. The call stands in a sum, and not under a product, so that the compiler makes a loop of it.
fn scaled(w: u64, n: usize, s: u64) -> u64
    requires { s * 10 ^ n ≤ 100000000 }
    ensures { result ≡ s * dec_of w n }
{
    if n == 0 {
        return 0;
    }
    let h = scaled(w / 16, n - 1, 10 * s);
    h + s * (w % 16)
}

fn digits(w: u64, n: usize) -> u64
    requires { n ≤ 8 }
    ensures { result ≡ dec_of w n }
{
    scaled(w, n, 1)
}

// Columns passed from the left: all blank; blank but perhaps for a minus at their end; a minus among them; ending in a digit;
// a number without a point; and what their digits are. (Flags beside the digits, so that no column needs a branch.)
#[derive(Clone, Copy)]
struct Scan {
    blank: bool,
    lead: bool,
    minus: bool,
    ends: bool,
    good: bool,
    code: u64,
}

fn step(s: Scan, b: u8) -> Scan
    requires { s.code ≤ 4294967296 }
    ensures { result ≡ step_of s b }
{
    let d = ascii::is_digit(b);
    let e = b == b' ';
    let m = b == b'-';
    let k = s.code != 0;
    Scan {
        blank: s.blank & e,
        lead: s.blank & (e | m),
        minus: m | s.minus,
        ends: d,
        good: d & ((s.ends & s.good & k) | (!s.ends & s.lead)),
        code: 16 * s.code + value(b),
    }
}

// n columns from `at`.
fn passed(line: &[u8], at: usize, n: usize) -> Scan
    requires { (at + n ≤ length line.now) × (at + n ≤ 80) × (n ≤ 8) }
    ensures { result ≡ scan_of line.now at n }
{
    let mut s = Scan {
        blank: true,
        lead: true,
        minus: false,
        ends: false,
        good: false,
        code: 0,
    };
    for i in 0..n {
        s = step(s, line[at + i]);
    }
    s
}

// One decimal more.
fn taken(h: Number, b: u8) -> Number
    requires { h.mag ≤ 4294967296 }
    ensures { result ≡ taken_of h b }
{
    Number {
        good: h.good & ascii::is_digit(b),
        minus: h.minus,
        mag: 16 * h.mag + value(b),
    }
}

// n decimals from `at`, after what h has.
fn tail(line: &[u8], at: usize, n: usize, k: usize, h: Number) -> Number
    requires { (at + n ≤ length line.now) × (at + n ≤ 80) × (n + k ≤ 8) × (h.mag < 16 ^ k) }
    ensures { result ≡ decimals_of line.now at h n }
{
    let mut t = h;
    for i in 0..n {
        t = taken(t, line[at + i]);
    }
    t
}

fn made(good: bool, minus: bool, mag: u64) -> Option<Decimal>
    ensures { result ≡ given (made_of good minus mag) }
{
    if good {
        Some(Decimal { minus, mag })
    } else {
        None
    }
}

// v with n zeros more.
fn raised(v: u64, n: usize) -> u64
    requires { v * 10 ^ n ≤ 20000000000000000 }
    ensures { result ≡ v * 10 ^ n }
{
    if n == 0 {
        return v;
    }
    raised(10 * v, n - 1)
}

// A number with w columns before the point and d decimals, each read by themselves, so that no more than eight digits are.
fn parts(line: &[u8], at: usize, w: usize, d: usize) -> Option<Decimal>
    requires { (at + w + 1 + d ≤ length line.now) × (at + w + 1 + d ≤ 80) × (w ≤ 8) × (d ≤ 8) }
    ensures { result ≡ given (number_of line.now at (w + 1 + d) (d + 1)) }
{
    let s = passed(line, at, w);
    let p = at + w;
    let good = s.good & (line[p] == b'.');
    let h = tail(
        line,
        p + 1,
        d,
        0,
        Number {
            good,
            minus: s.minus,
            mag: 0,
        },
    );
    let whole = raised(digits(s.code, w), d);
    let part = digits(h.mag, d);
    made(h.good, h.minus, whole + part)
}

// The number in n columns from `at`, if they hold one. e is 0 where no point is to come, else one more than the number of decimals.
pub fn read_number(line: &[u8], at: usize, n: usize, e: usize) -> Option<Decimal>
    requires { (at + n ≤ length line.now) × (at + n ≤ 80) × (n ≤ e + 8) × (e ≤ 9) }
    ensures { result ≡ given (number_of line.now at n e) }
{
    if n < e {
        return None;
    }
    let w = n - e;
    if 9 < n {
        return parts(line, at, w, e - 1);
    }
    let s = passed(line, at, w);
    if e == 0 {
        return made(s.good, s.minus, digits(s.code, w));
    }
    let p = at + w;
    let good = s.good & (line[p] == b'.');
    let h = tail(
        line,
        p + 1,
        e - 1,
        w,
        Number {
            good,
            minus: s.minus,
            mag: s.code,
        },
    );
    made(h.good, h.minus, digits(h.mag, n - 1))
}

fn put_digit(line: &mut [u8], i: usize, v: u64)
    requires { i < length line.old }
    ensures { line.new ≡ set line.old i (digit_of v) }
{
    line[i] = b'0' + (v % 10) as u8;
}

// Blanks in n columns, the last of which gives way to a minus.
fn put_leader(line: &mut [u8], at: usize, n: usize, minus: bool)
    requires { at + n ≤ length line.old }
    ensures { Put line.old at n (leader n minus) line.new }
{
    if n == 0 {
        return;
    }
    let m = n - 1;
    columns::put_blanks(line, at, m);
    if minus {
        line[at + m] = b'-';
        return;
    }
    line[at + m] = b' ';
}

// A number in n columns from `at`, with e as in `read_number`.
pub fn put_number(line: &mut [u8], at: usize, n: usize, e: usize, minus: bool, v: u64)
    requires { at + n ≤ length line.old }
    ensures { Put line.old at n (render n e minus v) line.new }
{
    if n == 0 {
        return;
    }
    let m = n - 1;
    if e == 1 {
        put_number(line, at, m, 0, minus, v);
        line[at + m] = b'.';
        return;
    }
    if e == 0 {
        if v < 10 {
            put_leader(line, at, m, minus);
            put_digit(line, at + m, v);
            return;
        }
        put_number(line, at, m, 0, minus, v / 10);
        put_digit(line, at + m, v);
        return;
    }
    put_number(line, at, m, e - 1, minus, v / 10);
    put_digit(line, at + m, v);
}
