// 5: the order of the lines: each kind has its place, and places never go back; models stand between MODEL and ENDMDL.
ghost use Rattle.std.specs.Prelude.{◌≡◌};
ghost use Rattle.places.specs.Places.{place_bad, fence_bad};

use super::Models;
use kinds::Kind;

// The place of the coordinate lines.
const COORDINATES: u8 = 18;

// Wrong place or repeated.
pub fn place_bad(last: u8, k: Kind) -> bool
    ensures { result ≡ place_bad last k }
{
    let r = kinds::row_of(k);
    !((r.low <= last) & (last <= r.high))
}

// At odds with the models.
pub fn fence_bad(last: u8, m: Models, k: Kind) -> bool
    ensures { result ≡ fence_bad last m k }
{
    match k {
        Kind::Model => m.inside | ((last == COORDINATES) & !m.past),
        Kind::Endmdl => !m.inside,
        _ if kinds::row_of(k).slot => m.past & !m.inside,
        _ => m.inside,
    }
}
