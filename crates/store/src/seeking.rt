// Looking for the atoms that a CONECT line names, in a lent table, model by model: where serials say, else by halving.
ghost use Rattle.std.specs.Prelude.{◌≡◌, true, ◌≤◌, ◌<◌, get_or, take};
ghost use Rattle.search.specs.Search.{Bracket};
ghost use Rattle.slots.specs.Slots.{no_slot};
ghost use Rattle.table.specs.Deal.{stands_in, partner_in, bond_in, stays as stays_of};
ghost use Rattle.store.specs.Judged.{rank_of, rank_at, Rises, StandsAs};

use conect::Conect;
use fields::Serial;
use pieces::Line;
use search::{Near, Sought, Span};
use slots::Slot;

// The slot with index k, and none past the end.
pub fn slot_at(table: &[Slot], k: usize) -> Slot
    ensures { result ≡ get_or table.now k no_slot }
{
    if k < table.len() {
        table[k]
    } else {
        slots::no_slot()
    }
}

// The number by which the slot is looked for.
fn rank_of(s: Slot) -> Serial
    ensures { result.0 ≡ rank_of s }
{
    if (s.model <= LAST_MODEL) & (s.serial.0 <= LAST_SERIAL) {
        return Serial(SERIALS * s.model + s.serial.0);
    }
    Serial(0)
}

const LAST_MODEL: u32 = 9999;

const LAST_SERIAL: u32 = 99999;

const SERIALS: u32 = 100000;

// The first of the slots up to hi whose rank is at least x, or hi. A while loop: a guess is tried first, and each rank is worked out where it is looked at, while
// `partition_point` halves a slice with no guess.
pub fn seek(table: &[Slot], hi: usize, near: Near, x: Serial) -> usize
    requires { hi < 9223372036854775808 }
    ensures { Rises table.now hi → Bracket (rank_at table.now) 0 hi x.0 result result }
{
    let mut s = Span { lo: 0, hi };
    let mut near = near;
    let mut looks: u8 = 0;
    while s.lo < s.hi {
        let m = search::probe(looks, near, s, x);
        let there = rank_of(slot_at(table, m));
        s = search::part(s, m, there, x);
        near = Near {
            place: m,
            serial: there,
        };
        looks = search::counted(looks);
    }
    s.lo
}

// Whether x is the serial of an atom of model m that is in, among the first k slots; and where it stands, if it does.
pub fn stands_in_model(table: &[Slot], k: usize, near: Near, m: u32, x: Serial) -> Sought
    requires k_bound { k < 9223372036854775808 }
    requires m_bound { (m ≤ 9999) × (x.0 ≤ 99999) }
    ensures { Rises table.now k → StandsAs table.now k m x.0 result.yes }
{
    let rank = Serial(SERIALS * m + x.0);
    let at = seek(table, k, near, rank);
    Sought {
        near: Near {
            place: at,
            serial: rank,
        },
        yes: (at < k) & bonds::is_in(x, slot_at(table, at)),
    }
}

// The model of a slot, as far as a line can have it.
fn model_of(s: Slot) -> u32
    ensures upper_bound { result ≤ 9999 }
    ensures value { s.model ≤ 9999 → result ≡ s.model }
{
    if s.model <= LAST_MODEL {
        return s.model;
    }
    LAST_MODEL
}

// Whether x is the serial of an atom that is in, among the first k slots, in whichever model; and where it stands in the first of these.
pub fn stands_in(table: &[Slot], k: usize, near: Near, x: Serial) -> Sought
    requires { k < 9223372036854775808 }
    ensures { Rises table.now k → result.yes ≡ stands_in (take k table.now) x.0 }
{
    if x.0 > LAST_SERIAL {
        return Sought { near, yes: false };
    }
    if k == 0 {
        return Sought { near, yes: false };
    }
    let first = slot_at(table, 0);
    let last = slot_at(table, k - 1);
    for m in model_of(first)..=model_of(last) {
        let e = stands_in_model(table, k, near, m, x);
        if e.yes {
            return e;
        }
    }
    Sought { near, yes: false }
}

// Whether a partner on a CONECT line is blank or an atom that is in.
pub fn partner_in(table: &[Slot], k: usize, near: Near, x: Serial) -> bool
    requires { k < 9223372036854775808 }
    ensures { Rises table.now k → result ≡ partner_in (take k table.now) x.0 }
{
    if x.0 == 0 {
        return true;
    }
    stands_in(table, k, near, x).yes
}

// Whether each number on a CONECT line is the serial of an atom that is in, and where the line's own atom stands.
pub fn bond_in(table: &[Slot], k: usize, near: Near, c: Conect) -> Sought
    requires { k < 9223372036854775808 }
    ensures { Rises table.now k → result.yes ≡ bond_in (take k table.now) c }
{
    let Sought { near, yes } = stands_in(table, k, near, c.serial);
    Sought {
        near,
        yes: yes
            & partner_in(table, k, near, c.a)
            & partner_in(table, k, near, c.b)
            & partner_in(table, k, near, c.c)
            & partner_in(table, k, near, c.d),
    }
}

// Whether a line stays, k slots standing before it, and `here` after these; and where the last CONECT line's atom stands.
pub fn stays(table: &[Slot], k: usize, near: Near, here: Slot, l: Line) -> Sought
    requires k_bound { k < 9223372036854775808 }
    requires here_value { here ≡ get_or table.now k no_slot }
    ensures { Rises table.now k → result.yes ≡ stays_of table.now k l }
{
    if facets::is_coord(l) {
        return Sought {
            near,
            yes: marks::is_kept(here),
        };
    }
    if bonds::is_conect(l) {
        return bond_in(table, k, near, bonds::conect_in(l));
    }
    Sought { near, yes: true }
}

// The same, asked only of a table that fits so far: the slots of another may name models without end.
pub fn stays_if(fit: bool, table: &[Slot], k: usize, near: Near, here: Slot, l: Line) -> Sought
    requires k_bound { k < 9223372036854775808 }
    requires here_value { here ≡ get_or table.now k no_slot }
    ensures { fit ≡ true → Rises table.now k → result.yes ≡ stays_of table.now k l }
{
    if fit {
        return stays(table, k, near, here, l);
    }
    Sought { near, yes: true }
}
