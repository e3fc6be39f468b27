// Fields: numbers within their ranges, and names.
#![tactic(auto)]

ghost use Rattle.std.specs.Prelude.{◌≡◌, ◌+◌, ◌≤◌, ◌<◌, true, false, length, nat_abs};
ghost use Rattle.columns.specs.Columns.{Put};
ghost use Rattle.fields.specs.Field.{signed_of, is_neg, same_integer, read_in, ranged_number, signed_number, cap_of, ranged_of, spans_of};
ghost use Rattle.numbers.specs.Number.{render};

use columns::Column;

// Serials, residue numbers and fragment numbers are types of their own, so that none lands where another belongs.
#[repr(C)]
#[derive(Clone, Copy, Debug, PartialEq, Eq)]
pub struct Serial(pub u32);

#[repr(C)]
#[derive(Clone, Copy, Debug, PartialEq, Eq)]
pub struct ResidueNumber(pub i32);

#[repr(C)]
#[derive(Clone, Copy, Debug, PartialEq, Eq)]
pub struct FragmentNumber(pub u32);

// What stands for a point and two, three, five or six decimals in `read_number`.
pub const POINT_2: usize = 3;

pub const POINT_3: usize = 4;

pub const POINT_5: usize = 6;

pub const POINT_6: usize = 7;

fn joined(minus: bool, mag: u64) -> i32
    requires { mag ≤ 1000000000 }
    ensures { result ≡ signed_of minus mag }
{
    let x = mag as i32;
    if minus {
        return -x;
    }
    x
}

pub fn negative(z: i32) -> bool
    ensures { result ≡ is_neg z }
{
    z < 0
}

pub fn magnitude(z: i32) -> u64
    ensures { result ≡ nat_abs z }
{
    let w = z as i64;
    if w < 0 {
        return (-w) as u64;
    }
    w as u64
}

// The definitions compare sign and magnitude, the code 32 bits: this says that they agree.
pub fn same_integer(a: i32, b: i32) -> bool
    ensures { result ≡ same_integer a b }
{
    a == b
}

// A number from lo to hi, e as in `read_number`.
fn read_ranged(line: &[u8], at: usize, n: usize, e: usize, lo: u32, hi: u32) -> Result<u32, Column>
    requires { (at + n ≤ length line.now) × (at + n ≤ 80) × (n ≤ e + 8) × (e ≤ 9) }
    ensures { result ≡ read_in (ranged_number n e lo hi line.now at) }
{
    let wrong = Column((at + 1) as u32);
    let Some(d) = numbers::read_number(line, at, n, e) else {
        return Err(wrong);
    };
    if d.minus || d.mag < lo as u64 || (hi as u64) < d.mag {
        return Err(wrong);
    }
    Ok(d.mag as u32)
}

// Integer(n) from lo to hi.
pub fn read_whole(line: &[u8], at: usize, n: usize, lo: u32, hi: u32) -> Result<u32, Column>
    requires { (at + n ≤ length line.now) × (at + n ≤ 80) × (n ≤ 8) }
    ensures { result ≡ read_in (ranged_number n 0 lo hi line.now at) }
{
    read_ranged(line, at, n, 0, lo, hi)
}

// Real(n.d) from lo to hi.
pub fn read_whole_real(
    line: &[u8],
    at: usize,
    n: usize,
    d: usize,
    lo: u32,
    hi: u32,
) -> Result<u32, Column>
    requires { (at + n ≤ length line.now) × (at + n ≤ 80) × (n ≤ d + 9) × (d ≤ 8) × (d < n) }
    ensures { result ≡ read_in (ranged_number n (d + 1) lo hi line.now at) }
{
    read_ranged(line, at, n, d + 1, lo, hi)
}

// A number of either sign, e as in `read_number`. (Readers call it as it is: a function of its own for reals is not inlined as well.)
pub fn read_signed(line: &[u8], at: usize, n: usize, e: usize) -> Result<i32, Column>
    requires { (at + n ≤ length line.now) × (at + n ≤ 80) × (n ≤ e + 8) × (e ≤ 9) × (cap_of n e true ≤ 1000000000) × (cap_of n e false ≤ 1000000000) }
    ensures { result ≡ read_in (signed_number n e line.now at) }
{
    let wrong = Column((at + 1) as u32);
    let Some(d) = numbers::read_number(line, at, n, e) else {
        return Err(wrong);
    };
    if d.minus && d.mag == 0 {
        return Err(wrong);
    }
    Ok(joined(d.minus, d.mag))
}

// Integer(n) of either sign.
pub fn read_integer(line: &[u8], at: usize, n: usize) -> Result<i32, Column>
    requires { (at + n ≤ length line.now) × (at + n ≤ 80) × (n ≤ 8) × (cap_of n 0 true ≤ 1000000000) × (cap_of n 0 false ≤ 1000000000) }
    ensures { result ≡ read_in (signed_number n 0 line.now at) }
{
    read_signed(line, at, n, 0)
}

pub fn ranged(v: u32, lo: u32, hi: u32) -> bool
    ensures { result ≡ ranged_of lo hi v }
{
    lo <= v && v <= hi
}

pub fn spans(z: i32, low: u64, high: u64) -> bool
    ensures { result ≡ spans_of low high z }
{
    magnitude(z) <= if negative(z) { low } else { high }
}

pub fn put_whole(line: &mut [u8], at: usize, n: usize, v: u32)
    requires { at + n ≤ length line.old }
    ensures { Put line.old at n (render n 0 false v) line.new }
{
    numbers::put_number(line, at, n, 0, false, v as u64);
}

pub fn put_whole_real(line: &mut [u8], at: usize, n: usize, d: usize, v: u32)
    requires { (at + n ≤ length line.old) × (d < n) }
    ensures { Put line.old at n (render n (d + 1) false v) line.new }
{
    numbers::put_number(line, at, n, d + 1, false, v as u64);
}

// e as in `put_number`.
fn put_signed(line: &mut [u8], at: usize, n: usize, e: usize, z: i32)
    requires { at + n ≤ length line.old }
    ensures { Put line.old at n (render n e (is_neg z) (nat_abs z)) line.new }
{
    numbers::put_number(line, at, n, e, negative(z), magnitude(z));
}

pub fn put_integer(line: &mut [u8], at: usize, n: usize, z: i32)
    requires { at + n ≤ length line.old }
    ensures { Put line.old at n (render n 0 (is_neg z) (nat_abs z)) line.new }
{
    put_signed(line, at, n, 0, z);
}

pub fn put_real(line: &mut [u8], at: usize, n: usize, d: usize, z: i32)
    requires { (at + n ≤ length line.old) × (d < n) }
    ensures { Put line.old at n (render n (d + 1) (is_neg z) (nat_abs z)) line.new }
{
    put_signed(line, at, n, d + 1, z);
}
