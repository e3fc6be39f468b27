// The feed to the renderer: a dot, a stroke and a frame, in doubles that are the thousandths exactly.
#![tactic(auto)]

mod doubles;
mod framing;

ghost use Rattle.std.specs.Prelude.{◌≡◌};
ghost use Rattle.refusals.specs.Numbers.{numbered};
ghost use Rattle.feed.specs.Feed.{is_drawn, point_of, dot_of, stroke_of};
ghost use Rattle.feed.specs.Frame.{frame_of};

use coordinate::Position;
pub use doubles::{exact, middle};
pub use framing::{frame_of, take_in};
use refusals::Refusal;
use slots::Slot;

// Coordinates in thousandths, as the renderer is handed them.
#[derive(Clone, Copy)]
pub struct Point {
    pub x: f64,
    pub y: f64,
    pub z: f64,
}

// The ends of a stroke, from the first atom to the second.
#[derive(Clone, Copy)]
pub struct Ends {
    pub from: Point,
    pub to: Point,
}

// Lowest and highest thousandths on one axis.
#[derive(Clone, Copy)]
pub struct Span {
    pub low: i32,
    pub high: i32,
}

// The spans of the atoms drawn so far.
#[derive(Clone, Copy)]
pub struct Bounds {
    pub x: Span,
    pub y: Span,
    pub z: Span,
}

// The frame: lowest, highest and middle on each axis.
#[repr(C)]
#[derive(Clone, Copy)]
pub struct Extent {
    pub lx: f64,
    pub ly: f64,
    pub lz: f64,
    pub hx: f64,
    pub hy: f64,
    pub hz: f64,
    pub mx: f64,
    pub my: f64,
    pub mz: f64,
}

const ATOM: u8 = 1;

const HETATM: u8 = 2;

const IN: u8 = 0;

fn exact_point(p: Position) -> Point
    ensures { result ≡ point_of p }
{
    Point {
        x: exact(p.x),
        y: exact(p.y),
        z: exact(p.z),
    }
}

// The dot of a slot, if it is drawn.
pub fn dot(s: Slot) -> Option<Point>
    ensures { result ≡ dot_of s }
{
    if is_drawn(s) {
        Some(exact_point(s.position))
    } else {
        None
    }
}

// The stroke between two slots, if both are drawn.
pub fn stroke(a: Slot, b: Slot) -> Option<Ends>
    ensures { result ≡ stroke_of a b }
{
    Some(Ends {
        from: dot(a)?,
        to: dot(b)?,
    })
}

// The frame of the drawn atoms of a table; 19 where there is none.
pub fn frame(table: &[Slot]) -> Result<Extent, Refusal>
    ensures { numbered result ≡ frame_of table.now }
{
    let mut b = None;
    for s in table {
        b = take_in(b, *s);
    }
    frame_of(b)
}

// Whether a slot is an atom that is in.
pub fn is_drawn(s: Slot) -> bool
    ensures { result ≡ is_drawn s }
{
    s.mark == IN && (s.kind == ATOM || s.kind == HETATM)
}
