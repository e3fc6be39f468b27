// CONECT lines: whether a line is one, the numbers on it, and whether a slot is an atom that one of these names.
#![tactic(auto)]

ghost use Rattle.std.specs.Prelude.{◌≡◌};
ghost use Rattle.table.specs.Deal.{is_in};
ghost use Rattle.bonds.specs.Bonds.{is_conect, conect_in};

use conect::Conect;
use fields::Serial;
use pieces::Line;
use slots::Slot;

// Whether the line is a CONECT line.
pub fn is_conect(l: Line) -> bool
    ensures { result ≡ is_conect l }
{
    facets::bond_in(l).is_some()
}

// The numbers on a CONECT line; zeros on another.
pub fn conect_in(l: Line) -> Conect
    ensures { result ≡ conect_in l }
{
    facets::bond_in(l).unwrap_or(Conect {
        serial: Serial(0),
        a: Serial(0),
        b: Serial(0),
        c: Serial(0),
        d: Serial(0),
    })
}

// The serial of the slot.
pub fn serial_of(s: Slot) -> Serial
    ensures { result ≡ s.serial }
{
    s.serial
}

// Whether the slot is the atom with serial n, and not set aside.
pub fn is_in(n: Serial, s: Slot) -> bool
    ensures { result ≡ is_in n.0 s }
{
    (s.mark != slots::MARK_ASIDE) & !fragments::is_ter(s) & (s.serial == n)
}
