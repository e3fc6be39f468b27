// What C passes and is answered, by value: bytes and arrays for what the library says in enums and structs.
#![tactic(auto)]

ghost use Rattle.std.specs.Prelude.{◌≡◌};
ghost use Rattle.refusals.specs.Numbers.{number_in, numbered};
ghost use Rattle.table.specs.Table.{count_in};
ghost use Rattle.answers.specs.Boundary.{answered, aside_of, filled_answer, dot_answer, stroke_answer, frame_answer};
ghost use Rattle.answers.specs.Frame.{transform_answer, rows_from, position_from, scale_answer, place_answer};

use coordinate::Position;
use feed::{Ends, Extent, Point};
use fractional::{Fractional, Rows};
use refusals::Refusal;
use transform::{Coefficients, Transform};

// Whether an order's byte sets aside.
pub fn is_aside(aside: u8) -> bool
    ensures { result ≡ aside_of aside }
{
    aside != 0
}

// The number that is answered: 0 where nothing is refused.
pub fn number_of<T: Copy>(r: Result<T, Refusal>) -> u32
    ensures { result ≡ number_in r }
{
    match r {
        Ok(_) => 0,
        Err(r) => r.number() as u32,
    }
}

// The same; and what is counted, 0 where it is refused.
pub fn counted(r: Result<usize, Refusal>, count: &mut u64) -> u32
    ensures value { result ≡ number_in r }
    ensures count_after { count.new ≡ count_in r }
{
    *count = r.unwrap_or(0) as u64;
    number_of(r)
}

// What a line fills, a slot or a cell; a refused line leaves it as found.
pub fn put<T: Copy>(f: Result<T, Refusal>, out: &mut T) -> u32
    ensures { answered result out.new ≡ filled_answer (numbered f) out.old }
{
    // Lent, and not taken apart: a T that was moved out on this branch would be gone behind it.
    if let Ok(x) = &f {
        *out = *x;
    }
    number_of(f)
}

pub fn put_dot(d: Option<Point>, out: &mut [f64; 3]) -> u32
    ensures { answered result out.new ≡ dot_answer d out.old }
{
    match d {
        Some(p) => {
            *out = [p.x, p.y, p.z];
            1
        }
        None => 0,
    }
}

pub fn put_stroke(d: Option<Ends>, out: &mut [f64; 6]) -> u32
    ensures { answered result out.new ≡ stroke_answer d out.old }
{
    match d {
        Some(Ends { from, to }) => {
            *out = [from.x, from.y, from.z, to.x, to.y, to.z];
            1
        }
        None => 0,
    }
}

pub fn put_frame(f: Result<Extent, Refusal>, out: &mut [f64; 9]) -> u32
    ensures { answered result out.new ≡ frame_answer (numbered f) out.old }
{
    if let Ok(e) = f {
        *out = [e.lx, e.ly, e.lz, e.hx, e.hy, e.hz, e.mx, e.my, e.mz];
    }
    number_of(f)
}

pub fn put_transform(f: Result<(u8, Transform), Refusal>, out: &mut [i32; 5]) -> u32
    ensures { answered result out.new ≡ transform_answer (numbered f) out.old }
{
    if let Ok((n, t)) = f {
        *out = [t.by.x, t.by.y, t.by.z, t.shift, n as i32];
    }
    number_of(f)
}

pub fn position_from(at: &[i32; 3]) -> Position
    ensures { result ≡ position_from at.now }
{
    let [x, y, z] = *at;
    Position { x, y, z }
}

pub fn rows_from(rows: &[i32; 12]) -> Rows
    ensures { result ≡ rows_from rows.now }
{
    Rows {
        x: Transform {
            by: Coefficients {
                x: rows[0],
                y: rows[1],
                z: rows[2],
            },
            shift: rows[3],
        },
        y: Transform {
            by: Coefficients {
                x: rows[4],
                y: rows[5],
                z: rows[6],
            },
            shift: rows[7],
        },
        z: Transform {
            by: Coefficients {
                x: rows[8],
                y: rows[9],
                z: rows[10],
            },
            shift: rows[11],
        },
    }
}

pub fn put_scale(s: Result<Rows, Refusal>, out: &mut [i32; 12]) -> u32
    ensures { answered result out.new ≡ scale_answer (numbered s) out.old }
{
    if let Ok(Rows { x, y, z }) = s {
        *out = [
            x.by.x, x.by.y, x.by.z, x.shift, // the row of x
            y.by.x, y.by.y, y.by.z, y.shift, // of y
            z.by.x, z.by.y, z.by.z, z.shift, // of z
        ];
    }
    number_of(s)
}

pub fn put_place(p: Result<Fractional, Refusal>, out: &mut [i64; 6]) -> u32
    ensures { answered result out.new ≡ place_answer (numbered p) out.old }
{
    if let Ok(Fractional { exact, near }) = p {
        *out = [exact.x, exact.y, exact.z, near.x, near.y, near.z];
    }
    number_of(p)
}
