// Which model a line leaves.
ghost use Rattle.std.specs.Prelude.{◌≡◌};
ghost use Rattle.table.specs.Table.{model_after, model_next};

use facets::Fence;
use pieces::Line;

fn model_after(m: u32, e: Option<Fence>) -> u32
    ensures { result ≡ model_after m e }
{
    match e {
        Some(Fence::Opens(n)) => n,
        Some(Fence::Shuts) => 0,
        None => m,
    }
}

// MODEL begins its own, and after ENDMDL there is none.
pub fn model_next(m: u32, l: Line) -> u32
    ensures { result ≡ model_next m l }
{
    model_after(m, facets::fence_in(l))
}
