// The bounds of the drawn atoms: whole thousandths in the walk, doubles once at its end.
ghost use Rattle.std.specs.Prelude.{◌≡◌};
ghost use Rattle.feed.specs.Frame.{at, widened, no_bounds, around, taken_in, extent_of, framed_of, lower, higher};
ghost use Rattle.refusals.specs.Numbers.{numbered};

use super::doubles::{exact, middle};
use super::{Bounds, Extent, Span, is_drawn};
use coordinate::Position;
use refusals::Refusal;
use slots::Slot;

// One turn of the walk: the bounds with a slot, if it is drawn.
pub fn take_in(b: Option<Bounds>, s: Slot) -> Option<Bounds>
    ensures { result ≡ taken_in b s }
{
    if is_drawn(s) {
        Some(reach(b, s.position))
    } else {
        b
    }
}

// The frame of the bounds at the end of the walk.
pub fn frame_of(b: Option<Bounds>) -> Result<Extent, Refusal>
    ensures { numbered result ≡ framed_of b }
{
    match b {
        Some(b) => Ok(extent(b)),
        None => Err(Refusal::Undrawn),
    }
}

fn reach(b: Option<Bounds>, p: Position) -> Bounds
    ensures { result ≡ around b p }
{
    match b {
        Some(b) => Bounds {
            x: widen(b.x, p.x),
            y: widen(b.y, p.y),
            z: widen(b.z, p.z),
        },
        None => Bounds {
            x: start(p.x),
            y: start(p.y),
            z: start(p.z),
        },
    }
}

fn start(n: i32) -> Span
    ensures { result ≡ at n }
{
    Span { low: n, high: n }
}

fn widen(s: Span, n: i32) -> Span
    ensures { result ≡ widened s n }
{
    Span {
        low: s.low.min(n),
        high: n.max(s.high),
    }
}

fn extent(b: Bounds) -> Extent
    ensures { result ≡ extent_of b }
{
    let Bounds { x, y, z } = b;
    Extent {
        lx: exact(x.low),
        ly: exact(y.low),
        lz: exact(z.low),
        hx: exact(x.high),
        hy: exact(y.high),
        hz: exact(z.high),
        mx: middle(x),
        my: middle(y),
        mz: middle(z),
    }
}
