// A text with a lent table of slots: loading, orders, saving and the tray. The text and the table are judged anew at each call.
#![tactic(auto)]

mod dealing;
mod marking;
mod seeking;
mod survey;

ghost use Rattle.std.specs.Prelude.{◌≡◌, ◌+◌, ◌≤◌, length, set, IfOk};
ghost use Rattle.ascii.specs.Tests.{pick};
ghost use Rattle.refusals.specs.Numbers.{number_in};
ghost use Rattle.facets.specs.Facets.{spot_in, is_coord};
ghost use Rattle.slots.specs.Slots.{SmallSpot, line_slot};
ghost use Rattle.table.specs.Table.{told, count_in, one_of, load_of, table_of, order_of, fragments_of, arrange_of};
ghost use Rattle.table.specs.Deal.{put_of, save_of, tray_of};
ghost use Rattle.store.specs.Judged.{Belongs};

use dealing::{size_of, write_all};
use fields::FragmentNumber;
use fragments::FromLast;
use marking::{mark_all, mark_each, mark_of, number_all, tail_of};
use pieces::Line;
use refusals::Refusal;
use slots::Slot;
use survey::{count_slots, look_over};

// What one pass over a good text says of it and of a table: how many slots it needs, whether the table's slots fit it, how many lines stay, how
// many are MODEL and ENDMDL, and how many there are.
#[derive(Clone, Copy)]
pub struct Findings {
    pub need: usize,
    pub fits: bool,
    pub kept: usize,
    pub fences: usize,
    pub lines: usize,
}

// A good text with a table that belongs to it: how many slots, fragments, lines that stay, MODEL and ENDMDL lines and lines there are.
#[derive(Clone, Copy)]
pub struct Held {
    pub need: usize,
    pub fragments: u64,
    pub kept: usize,
    pub fences: usize,
    pub lines: usize,
}

// Fills the table from the text, and tells how many slots it has: 1-12, 13.
pub fn load(text: &[u8], table: &mut [Slot]) -> Result<usize, Refusal>
    ensures { told (number_in result) (count_in result) table.new ≡ load_of text.now table.old }
{
    let n = count_slots(text)?;
    if table.len() < n {
        return Err(Refusal::Slots);
    }
    let mut k: usize = 0;
    let mut model: u32 = 0;
    for i in 0..rows::count(text) {
        let l = rows::line_at(text, i);
        k = put_slot(table, k, model, l);
        model = marks::model_next(model, l);
    }
    Ok(n)
}

// The slot of a line that has one is stored; where the next one goes.
fn put_slot(table: &mut [Slot], k: usize, model: u32, l: Line) -> usize
    requires l_in_bounds { k + one_of l ≤ length table.old }
    requires small_spot { SmallSpot (spot_in l) }
    ensures value { result ≡ k + one_of l }
    ensures table_after { table.new ≡ pick (is_coord l) (set table.old k (line_slot model l)) table.old }
{
    if facets::is_coord(l) {
        table[k] = slots::line_slot(model, l);
        k + 1
    } else {
        k
    }
}

// The text and the table judged together: 1-12, 13, 18.
fn judge(text: &[u8], table: &[Slot]) -> Result<Held, Refusal>
    ensures number_value { number_in result ≡ table_of text.now table.now }
    ensures belongs { IfOk result (λ h. Belongs text.now table.now h) }
{
    let Findings {
        need,
        fits,
        kept,
        fences,
        lines,
    } = look_over(text, table)?;
    if table.len() < need {
        return Err(Refusal::Slots);
    }
    if !fits {
        return Err(Refusal::Table);
    }
    let t = tail_of(&table[..need]);
    if !t.agree {
        return Err(Refusal::Table);
    }
    Ok(Held {
        need,
        fragments: t.count,
        kept,
        fences,
        lines,
    })
}

// Sets a fragment aside, or puts it back: 1-12, 13, 18, 15, 16. `aside` is data of the order, as the definitions have it.
pub fn order(
    text: &[u8],
    table: &mut [Slot],
    fragment: FragmentNumber,
    aside: bool,
) -> Result<(), Refusal>
    ensures { told (number_in result) 0 table.new ≡ order_of text.now table.old fragment aside }
{
    let Held {
        need,
        fragments,
        ..
    } = judge(text, table)?;
    let f = fragment.0 as u64;
    // Two tests, as there are two beliefs to refuse: that there is a fragment 0, and that there is one past the last.
    if f == 0 {
        return Err(Refusal::Fragment);
    }
    if fragments < f {
        return Err(Refusal::Fragment);
    }
    let b = FromLast(fragments + 1 - f);
    let m = marks::mark_byte(aside);
    if mark_of(&table[..need], b) == m {
        return Err(Refusal::Marked);
    }
    mark_all(&mut table[..need], b, m);
    Ok(())
}

// Sets aside or puts back every fragment at once, by a byte for each: 1-12, 13, 18, 15.
pub fn arrange(text: &[u8], table: &mut [Slot], aside: &[u8]) -> Result<(), Refusal>
    ensures { told (number_in result) 0 table.new ≡ arrange_of text.now table.old aside.now }
{
    let h = judge(text, table)?;
    if aside.len() as u64 != h.fragments {
        return Err(Refusal::Fragment);
    }
    mark_each(&mut table[..h.need], aside);
    Ok(())
}

// Tells of each slot that the text needs the number of its fragment, and how many they are: 1-12, 13, 18, 17.
pub fn fragments_of(text: &[u8], table: &[Slot], out: &mut [u32]) -> Result<usize, Refusal>
    ensures { told (number_in result) (count_in result) out.new ≡ fragments_of text.now table.now out.old }
{
    let h = judge(text, table)?;
    if out.len() < h.need {
        return Err(Refusal::Room);
    }
    number_all(&table[..h.need], h.fragments, out);
    Ok(h.need)
}

// The saved entry, or the tray. `saving` is data, as the definitions have it: one walk over the lines does both.
fn deal(text: &[u8], table: &[Slot], out: &mut [u8], saving: bool) -> Result<usize, Refusal>
    ensures { told (number_in result) (count_in result) out.new ≡ put_of saving text.now table.now out.old }
{
    let h = judge(text, table)?;
    let n = size_of(h, saving);
    if out.len() < n {
        return Err(Refusal::Room);
    }
    write_all(text, table, out, saving);
    Ok(n)
}

// Writes the text without what is set aside, MASTER recounted, and tells how many bytes: 1-12, 13, 18, 17.
pub fn save(text: &[u8], table: &[Slot], out: &mut [u8]) -> Result<usize, Refusal>
    ensures { told (number_in result) (count_in result) out.new ≡ save_of text.now table.now out.old }
{
    deal(text, table, out, true)
}

// Writes the lines that saving drops, in order, and tells how many bytes: 1-12, 13, 18, 17.
pub fn tray(text: &[u8], table: &[Slot], out: &mut [u8]) -> Result<usize, Refusal>
    ensures { told (number_in result) (count_in result) out.new ≡ tray_of text.now table.now out.old }
{
    deal(text, table, out, false)
}
