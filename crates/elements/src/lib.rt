// The elements by their symbols in two columns.
#![tactic(auto)]

mod table;

ghost use Rattle.std.specs.Prelude.{◌≡◌, ◌+◌, ◌≤◌, length};
ghost use Rattle.fields.specs.Format.{read_of};
ghost use Rattle.names.specs.Names.{name_f};
ghost use Rattle.elements.specs.Elements.{index_of, atomic_of, is_element, usual_of};

use columns::Column;
use table::ELEMENTS;

// The index of a pair in the table, 702 where it is no such pair.
fn index_of(p: [u8; 2]) -> usize
    ensures { result ≡ index_of p }
{
    let [a, b] = p;
    if ascii::is_upper(b) {
        if a == b' ' {
            return (b - b'A') as usize;
        }
        if ascii::is_upper(a) {
            return 26 * ((a - b'@') as usize) + (b - b'A') as usize;
        }
        return 702;
    }
    702
}

// The atomic number, 0 for no element. (An entry of the table as it stands: no number of a refusal.)
pub fn atomic(p: [u8; 2]) -> u8
    ensures { result ≡ atomic_of p }
{
    let i = index_of(p);
    if i < 702 {
        return ELEMENTS[i];
    }
    0
}

// The elements of nearly all atoms, without the table, which each call that reads it stores anew.
fn usual(p: [u8; 2]) -> bool
    ensures { result ≡ usual_of p }
{
    let [a, b] = p;
    (a == b' ')
        & (((b == b'C') | ((b == b'N') | (b == b'O')))
            | ((b == b'H') | ((b == b'S') | (b == b'P'))))
}

// Whether a pair is the symbol of an element.
pub fn is_element(p: [u8; 2]) -> bool
    ensures { result ≡ is_element p }
{
    usual(p) || 0 < atomic(p)
}

// The element in two columns where it is one, else their first column.
pub fn read_element(line: &[u8], at: usize) -> Result<[u8; 2], Column>
    requires { (at + 2 ≤ length line.now) × (at + 2 ≤ 80) }
    ensures { result ≡ read_of (name_f 2 is_element) line.now at }
{
    let p = names::read(line, at);
    columns::judged(p, is_element(p), at)
}
