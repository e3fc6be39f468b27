// The crystal frame: the SCALE rows of a text, and the fractional place of three coordinates.
#![tactic(auto)]

ghost use Rattle.std.specs.Prelude.{◌≡◌, ◌+◌, ◌*◌, ◌≤◌, length, nat_abs, ◌+ℤ◌, ◌*ℤ◌};
ghost use Rattle.refusals.specs.Numbers.{numbered};
ghost use Rattle.fields.specs.Field.{signed_of, is_neg};
ghost use Rattle.fractional.specs.Scale.{is_scale1, scale_at, IsRight, row_in, rows_at, Right, scale_of};
ghost use Rattle.fractional.specs.Place.{billionths, nearest, exact_of, near_of, place_of, fractional_of};

use coordinate::Position;
use kinds::Layout;
use refusals::Refusal;
use transform::Transform;

#[derive(Clone, Copy)]
pub struct Rows {
    pub x: Transform,
    pub y: Transform,
    pub z: Transform,
}

#[derive(Clone, Copy)]
pub struct Fraction {
    pub x: i64,
    pub y: i64,
    pub z: i64,
}

// Billionths, and the nearest hundred-thousandths.
#[derive(Clone, Copy)]
pub struct Fractional {
    pub exact: Fraction,
    pub near: Fraction,
}

// Whether a piece is named SCALE1.
fn is_scale1(piece: &[u8; 81]) -> bool
    ensures { result ≡ is_scale1 piece.now }
{
    words::word(piece, 0, 6) == kinds::SCALE1
}

// The index of the first line named SCALE1, or the number of whole lines.
fn scale_at(text: &[u8]) -> usize
    ensures { result ≡ scale_at text.now }
{
    let whole = text.len() / 81;
    // `position` takes a closure, a call for each line.
    for i in 0..whole {
        if is_scale1(rows::piece_at(text, i)) {
            return i;
        }
    }
    whole
}

// The numbers of a piece whose fields are right, as those of an accepted text are.
fn row_in(piece: &[u8; 81]) -> Transform
    requires { IsRight piece.now }
    ensures { result ≡ row_in piece.now }
{
    let line = piece[..80].as_array::<80>().unwrap();
    // Its clause says that no field is wrong.
    Transform::read(line).unwrap()
}

fn rows_at(text: &[u8], i: usize) -> Rows
    requires { (81 * i + 243 ≤ length text.now) × Right text.now i }
    ensures { result ≡ rows_at text.now i }
{
    Rows {
        x: row_in(rows::piece_at(text, i)),
        y: row_in(rows::piece_at(text, i + 1)),
        z: row_in(rows::piece_at(text, i + 2)),
    }
}

// The SCALE rows of a text: its own number, then 29 where it has none.
pub fn scale_of(text: &[u8]) -> Result<Rows, Refusal>
    ensures { numbered result ≡ scale_of text.now }
{
    if let Some(o) = gate::check(text).offence {
        return Err(o.refusal);
    }
    let i = scale_at(text);
    let last = i + 3;
    if last > text.len() / 81 {
        return Err(Refusal::Scale);
    }
    Ok(rows_at(text, i))
}

// The product of a number of a row and a coordinate.
fn times(a: i32, b: i32) -> i64
    requires { nat_abs b ≤ 9999999 }
    ensures { result ≡ a *ℤ b }
{
    let x = a as i64;
    let y = b as i64;
    x * y
}

fn sum_of(a: i64, b: i64, c: i64, d: i64) -> i64
    requires { (nat_abs a ≤ 50000000000000000) × (nat_abs b ≤ 50000000000000000) × (nat_abs c ≤ 50000000000000000) × (nat_abs d ≤ 50000000000000000) }
    ensures { result ≡ a +ℤ b +ℤ c +ℤ d }
{
    let x = a + b;
    let y = x + c;
    y + d
}

// A row times three coordinates and its shift, in billionths.
fn along(r: Transform, p: Position) -> i64
    requires { (nat_abs p.x ≤ 9999999) × (nat_abs p.y ≤ 9999999) × (nat_abs p.z ≤ 9999999) }
    ensures { result ≡ billionths r p }
{
    let x = times(r.by.x, p.x);
    let y = times(r.by.y, p.y);
    let z = times(r.by.z, p.z);
    let shift = times(r.shift, 10000);
    sum_of(x, y, z, shift)
}

fn size(z: i64) -> u64
    requires { nat_abs z ≤ 200000000000000000 }
    ensures { result ≡ nat_abs z }
{
    if z < 0 {
        return (-z) as u64;
    }
    z as u64
}

fn below(z: i64) -> bool
    ensures { result ≡ is_neg z }
{
    z < 0
}

fn signed(minus: bool, v: u64) -> i64
    requires { v ≤ 200000000000000000 }
    ensures { result ≡ signed_of minus v }
{
    let x = v as i64;
    if minus {
        return -x;
    }
    x
}

// The nearest hundred-thousandths, a half away from zero.
fn rounded(z: i64) -> i64
    requires { nat_abs z ≤ 200000000000000000 }
    ensures { result ≡ nearest z }
{
    let v = size(z);
    let minus = below(z);
    signed(minus, (v + 5000) / 10000)
}

fn exact_of(rows: Rows, p: Position) -> Fraction
    requires { (nat_abs p.x ≤ 9999999) × (nat_abs p.y ≤ 9999999) × (nat_abs p.z ≤ 9999999) }
    ensures { result ≡ exact_of rows p }
{
    Fraction {
        x: along(rows.x, p),
        y: along(rows.y, p),
        z: along(rows.z, p),
    }
}

fn near_of(f: Fraction) -> Fraction
    requires { (nat_abs f.x ≤ 200000000000000000) × (nat_abs f.y ≤ 200000000000000000) × (nat_abs f.z ≤ 200000000000000000) }
    ensures { result ≡ near_of f }
{
    Fraction {
        x: rounded(f.x),
        y: rounded(f.y),
        z: rounded(f.z),
    }
}

// The fractional place by any rows: 33 where a coordinate is out of its range.
pub fn place(rows: Rows, p: Position) -> Result<Fractional, Refusal>
    ensures { numbered result ≡ place_of rows p }
{
    if !coordinate::position_is_good(p) {
        return Err(Refusal::Position);
    }
    let exact = exact_of(rows, p);
    let near = near_of(exact);
    Ok(Fractional { exact, near })
}

// The fractional place by the rows of a text: its own number, then 29, 33.
pub fn fractional_of(text: &[u8], p: Position) -> Result<Fractional, Refusal>
    ensures { numbered result ≡ fractional_of text.now p }
{
    let rows = scale_of(text)?;
    place(rows, p)
}
