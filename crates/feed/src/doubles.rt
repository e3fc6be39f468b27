// Thousandths as doubles: nothing is rounded.
ghost use Rattle.std.specs.Prelude.{◌≡◌};
ghost use Rattle.feed.specs.Exact.{whole};
ghost use Rattle.feed.specs.Frame.{middle_of};

use super::Span;

pub fn exact(n: i32) -> f64
    ensures { result ≡ whole n }
{
    n as f64
}

// Two lossless casts, one exact sum, one exact halving: no sum of two i32 can wrap here.
pub fn middle(s: Span) -> f64
    ensures { result ≡ middle_of s }
{
    (exact(s.low) + exact(s.high)) * 0.5
}
