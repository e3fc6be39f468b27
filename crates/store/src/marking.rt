// Fragments of a lent table, from the last slot on.
ghost use Rattle.std.specs.Prelude.{◌≡◌, ◌++◌, ◌≤◌, ◌<◌, length, drop};
ghost use Rattle.fragments.specs.Fragments.{tail_of, mark_of, marked, marked_by, numbered};
ghost use Rattle.table.specs.Table.{mark_at};

use fragments::{FromLast, Tail};
use slots::Slot;

// What the slots of a table are together.
pub fn tail_of(table: &[Slot]) -> Tail
    ensures value { result ≡ tail_of table.now }
    ensures count_in_bounds { result.count ≤ length table.now }
{
    let mut t = fragments::end_tail();
    for k in (0..table.len()).rev() {
        t = fragments::step_tail(table[k], t);
    }
    t
}

// The mark of fragment b, counted from the last one.
pub fn mark_of(table: &[Slot], b: FromLast) -> u8
    ensures { result ≡ mark_of b.0 table.now }
{
    let mut t = fragments::end_tail();
    let mut m: u8 = 0;
    for k in (0..table.len()).rev() {
        let s = table[k];
        t = fragments::step_tail(s, t);
        m = fragments::pick_mark(t, s, b, m);
    }
    m
}

// Fragment b, counted from the last one, is marked m.
pub fn mark_all(table: &mut [Slot], b: FromLast, m: u8)
    ensures { table.new ≡ marked b.0 m table.old }
{
    let mut t = fragments::end_tail();
    for k in (0..table.len()).rev() {
        let s = table[k];
        t = fragments::step_tail(s, t);
        table[k] = fragments::mark_slot(t, s, b, m);
    }
}

// Each fragment is marked as its byte asks, from the first one on.
pub fn mark_each(table: &mut [Slot], aside: &[u8])
    requires { (tail_of table.old).count ≡ length aside.now }
    ensures { table.new ≡ marked_by (mark_at aside.now) table.old }
{
    let mut t = fragments::end_tail();
    for k in (0..table.len()).rev() {
        let s = table[k];
        t = fragments::step_tail(s, t);
        let at = aside.len() - t.count as usize;
        table[k] = marks::mark_as(s, aside[at]);
    }
}

// The number of each slot's fragment, where there are n.
pub fn number_all(table: &[Slot], n: u64, out: &mut [u32])
    requires table_bound { ((tail_of table.now).count ≤ n) × (n < 4294967295) }
    requires table_in_bounds { length table.now ≤ length out.old }
    ensures { out.new ≡ numbered n table.now ++ drop (length table.now) out.old }
{
    let mut t = fragments::end_tail();
    for k in (0..table.len()).rev() {
        t = fragments::step_tail(table[k], t);
        out[k] = fragments::number_of(n, t);
    }
}
