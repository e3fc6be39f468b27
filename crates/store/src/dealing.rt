// The lines of a text dealt out: to the saved entry, or to the tray.
ghost use Rattle.std.specs.Prelude.{◌≡◌, ◌*◌, ◌≤◌, length};
ghost use Rattle.table.specs.Table.{over};
ghost use Rattle.table.specs.Deal.{output_of};
ghost use Rattle.store.specs.Judged.{Dealable, share_of};

use super::Held;
use super::seeking::{slot_at, stays};
use fields::Serial;
use search::Near;
use slots::Slot;

// How many bytes the lines that stay have, or those that go and what stands in both.
pub fn size_of(h: Held, saving: bool) -> usize
    requires kept_le_lines { (h.kept ≤ h.lines) × (h.fences ≤ h.kept) }
    requires lines_bound { 81 * h.lines ≤ 9223372036854775807 }
    ensures { result ≡ 81 * share_of h saving }
{
    if saving {
        return 81 * h.kept;
    }
    81 * (h.lines - h.kept + h.fences)
}

// Writes the lines that stay, or those that go, one after the other.
pub fn write_all(text: &[u8], table: &[Slot], out: &mut [u8], saving: bool)
    requires dealable { Dealable text.now table.now }
    requires table_in_bounds { length (output_of saving text.now table.now) ≤ length out.old }
    ensures { out.new ≡ over (output_of saving text.now table.now) out.old }
{
    let mut k: usize = 0;
    let mut at: usize = 0;
    let mut past = false;
    let mut q = places::no_counts();
    let mut near = Near {
        place: 0,
        serial: Serial(0),
    };
    for i in 0..rows::count(text) {
        let piece = rows::piece_at(text, i);
        let l = pieces::line_of(piece);
        let here = slot_at(table, k);
        let stay = stays(table, k, near, here, l);
        near = stay.near;
        at = writing::put_share(piece, l, saving, stay.yes, q, out, at);
        q = writing::count_line(stay.yes, past, q, l);
        past = writing::past_next(past, l);
        k += marks::one_of(l);
    }
}
