// One pass over the text: its check, and with each good line the slot that the table has for it.
ghost use Rattle.std.specs.Prelude.{◌≡◌, length, IfOk};
ghost use Rattle.refusals.specs.Numbers.{number_in};
ghost use Rattle.gate.specs.Gate.{check_of};
ghost use Rattle.table.specs.Table.{loaded_of};
ghost use Rattle.store.specs.Judged.{Surveyed};

use super::Findings;
use super::seeking::{slot_at, stays_if};
use fields::Serial;
use refusals::Refusal;
use search::Near;
use slots::Slot;

// The check of the text, and what it says of the table.
pub fn look_over(text: &[u8], table: &[Slot]) -> Result<Findings, Refusal>
    ensures number_value { number_in result ≡ (check_of text.now).number }
    ensures surveyed { IfOk result (λ v. Surveyed text.now table.now v) }
{
    let lines = rows::count(text);
    let mut c = gate::start();
    let mut k: usize = 0;
    let mut model: u32 = 0;
    let mut fits = true;
    let mut kept: usize = 0;
    let mut fences: usize = 0;
    let mut near = Near {
        place: 0,
        serial: Serial(0),
    };
    for i in 0..lines {
        let l = rows::line_at(text, i);
        c = gate::turn(text, i, c, l)?;
        let here = slot_at(table, k);
        fits &= marks::fits(here, model, l);
        let stay = stays_if(fits, table, k, near, here, l);
        near = stay.near;
        kept += marks::one_if(stay.yes);
        fences += marks::one_if(facets::is_fence(l));
        model = marks::model_next(model, l);
        k += marks::one_of(l);
    }
    gate::ended(c.state)?;
    Ok(Findings {
        need: k,
        fits,
        kept,
        fences,
        lines,
    })
}

// The check of the text, and how many slots it needs.
pub fn count_slots(text: &[u8]) -> Result<usize, Refusal>
    ensures number_value { number_in result ≡ (check_of text.now).number }
    ensures need_value { IfOk result (λ n. n ≡ length (loaded_of text.now)) }
{
    let mut c = gate::start();
    let mut k: usize = 0;
    for i in 0..rows::count(text) {
        let l = rows::line_at(text, i);
        c = gate::turn(text, i, c, l)?;
        k += marks::one_of(l);
    }
    gate::ended(c.state)?;
    Ok(k)
}
