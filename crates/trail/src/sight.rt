// A look at lines for a residue, by value: where it may stand first, and the residues next to it.
ghost use Rattle.std.specs.Prelude.{◌≡◌, ℕ, ◌≤◌, ◌<◌};
ghost use Rattle.trail.specs.Trail.{Seen};

// Of some lines: none before `from` is in the residue, and none in a residue between `low` and it, or between it and `limit`.
#[derive(Clone, Copy)]
pub struct Sight {
    pub from: usize,
    pub low: u64,
    pub limit: u64,
}

// No residue has a number as high as this.
pub const MOST: u64 = u64::MAX;

// What is known of lines that end at `top`, and what is known of those from there on, of both.
pub fn joined(a: Sight, b: Sight, top: usize) -> Sight
    ensures { (W : ℕ → ℕ) (lo hi x : ℕ) → Seen W lo top a.from a.low x a.limit → Seen W top hi b.from b.low x b.limit → Seen W lo hi result.from result.low x result.limit }
{
    Sight {
        from: if a.from < top { a.from } else { b.from },
        low: a.low.max(b.low),
        limit: a.limit.min(b.limit),
    }
}
