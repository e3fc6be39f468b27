// Fragments, from the last slot on.
#![tactic(auto)]

ghost use Rattle.std.specs.Prelude.{◌≡◌, ◌+◌, ◌≤◌, ◌<◌, eqb};
ghost use Rattle.ascii.specs.Tests.{pick};
ghost use Rattle.slots.specs.Slots.{with_mark};
ghost use Rattle.fragments.specs.Fragments.{is_ter, end_tail, joins as joinsOf, step_tail, turned};

use residue::Residue;
use slots::Slot;

// What a stretch of slots is to the slot before it: whether there is one, whether a TER is among those of the first one's model, the model, residue and mark of the first,
// how many fragments they are, and whether marks agree inside each. `some` is a flag and no Option around the rest: the definitions have it so, and theorems cite
// the other fields as they are where it is not set.
#[derive(Clone, Copy)]
pub struct Tail {
    pub some: bool,
    pub closed: bool,
    pub model: u32,
    pub residue: Residue,
    pub mark: u8,
    pub count: u64,
    pub agree: bool,
}

// The number of a fragment, counted from the last one as 1.
#[derive(Clone, Copy)]
pub struct FromLast(pub u64);

// Whether the slot is that of a TER line.
pub fn is_ter(s: Slot) -> bool
    ensures { result ≡ is_ter s }
{
    s.kind == slots::TER_KIND
}

// No slot.
pub fn end_tail() -> Tail
    ensures { result ≡ end_tail }
{
    Tail {
        some: false,
        closed: false,
        model: 0,
        residue: residue::no_residue(),
        mark: slots::MARK_IN,
        count: 0,
        agree: true,
    }
}

// Whether the slot is of one fragment with the first of those after it.
fn joins(s: Slot, t: Tail) -> bool
    ensures { result ≡ joinsOf s t }
{
    let same = residue::same_residue(slots::residue_of(s), t.residue);
    t.some & (s.model == t.model) & !is_ter(s) & (t.closed | same)
}

fn one_more_unless(j: bool, n: u64) -> u64
    requires { n < 9223372036854775808 }
    ensures { result ≡ pick j n (n + 1) }
{
    if j {
        return n;
    }
    n + 1
}

// The slots from s on, t being those after it.
pub fn step_tail(s: Slot, t: Tail) -> Tail
    requires { t.count < 9223372036854775808 }
    ensures { result ≡ step_tail s t }
{
    let j = joins(s, t);
    Tail {
        some: true,
        closed: is_ter(s) | ((s.model == t.model) & t.closed),
        model: s.model,
        residue: slots::residue_of(s),
        mark: s.mark,
        count: one_more_unless(j, t.count),
        agree: t.agree & (!j | (s.mark == t.mark)),
    }
}

// The mark of s where it begins fragment b, counted from the last one, else m.
pub fn pick_mark(t: Tail, s: Slot, b: FromLast, m: u8) -> u8
    ensures { result ≡ pick (eqb t.count b.0) s.mark m }
{
    if t.count == b.0 {
        return s.mark;
    }
    m
}

// The slot, marked m where it is of fragment b.
pub fn mark_slot(t: Tail, s: Slot, b: FromLast, m: u8) -> Slot
    ensures { result ≡ pick (eqb t.count b.0) (with_mark s m) s }
{
    if t.count == b.0 {
        return slots::with_mark(s, m);
    }
    s
}

// The number of the first slot's fragment, counted from the first one, where there are n. A plain count: it goes as it is into the numbers lent from C.
pub fn number_of(n: u64, t: Tail) -> u32
    requires { (t.count ≤ n + 1) × (n < 4294967295) }
    ensures { result ≡ turned n t.count }
{
    (n + 1 - t.count) as u32
}
