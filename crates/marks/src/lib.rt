// What one slot and one line are to each other, by value.
#![tactic(auto)]

mod counting;
mod models;

ghost use Rattle.std.specs.Prelude.{◌≡◌, not, eqb};
ghost use Rattle.facets.specs.Facets.{spot_in};
ghost use Rattle.slots.specs.Slots.{SmallSpot, mark_aside, with_mark};
ghost use Rattle.table.specs.Table.{fits as fits_of, mark_byte};

pub use counting::{one_if, one_of};
pub use models::model_next;
use pieces::Line;
use slots::Slot;

// Whether a slot fits a line of a model.
pub fn fits(s: Slot, model: u32, l: Line) -> bool
    requires { SmallSpot (spot_in l) }
    ensures { result ≡ fits_of s model l }
{
    if facets::is_coord(l) {
        return (s.mark <= slots::MARK_ASIDE) & slots::same_slot(s, slots::line_slot(model, l));
    }
    true
}

// Whether the line whose slot this is stays.
pub fn is_kept(s: Slot) -> bool
    ensures { result ≡ not (eqb s.mark mark_aside) }
{
    s.mark != slots::MARK_ASIDE
}

// The mark that an order sets, as the byte of the layout that C has; `aside` is data of the order, as the definitions have it.
pub fn mark_byte(aside: bool) -> u8
    ensures { result ≡ mark_byte aside }
{
    if aside {
        return slots::MARK_ASIDE;
    }
    slots::MARK_IN
}

// The slot with the mark that a byte asks for: 0 in, any other aside.
pub fn mark_as(s: Slot, byte: u8) -> Slot
    ensures { result ≡ with_mark s (mark_byte (not (eqb byte 0))) }
{
    slots::with_mark(s, mark_byte(byte != 0))
}
