// Names: bytes of certain classes, alone or a few together.
#![tactic(auto)]

mod readers;

ghost use Rattle.std.specs.Prelude.{◌≡◌, ◌+◌, ◌≤◌, length};
ghost use Rattle.columns.specs.Columns.{Put};
ghost use Rattle.names.specs.Names.{name_at, is_blank, is_chain, is_insertion, is_alternate, is_filled, is_column, is_name_byte, right_three, is_residue, is_identifier, is_charge, padded_two, padded_three, is_free, is_full, is_atom_name, is_bond_name};

pub use readers::{
    read_alternate, read_atom, read_bond, read_chain, read_charge, read_free, read_identifier,
    read_insertion, read_residue,
};

// The bytes of N columns from `at`.
pub fn read<const N: usize>(line: &[u8], at: usize) -> [u8; N]
    requires { at + N ≤ length line.now }
    ensures { result ≡ name_at N line.now at }
{
    let mut name = [0; N];
    name.copy_from_slice(&line[at..at + N]);
    name
}

// A name into N columns from `at`.
pub fn put<const N: usize>(line: &mut [u8], at: usize, name: [u8; N])
    requires { at + N ≤ length line.old }
    ensures { Put line.old at N (name_at N name.entry 0) line.new }
{
    line[at..at + N].copy_from_slice(&name);
}

pub fn is_blank(b: u8) -> bool
    ensures { result ≡ is_blank b }
{
    b == b' '
}

// A letter of either case, or a digit.
pub fn is_chain(b: u8) -> bool
    ensures { result ≡ is_chain b }
{
    ascii::is_code(b) | ascii::within(b, b'a', b'z')
}

// Blank, or A-Z.
pub fn is_insertion(b: u8) -> bool
    ensures { result ≡ is_insertion b }
{
    is_blank(b) | ascii::is_upper(b)
}

// Blank, A-Z or 0-9.
pub fn is_alternate(b: u8) -> bool
    ensures { result ≡ is_alternate b }
{
    is_blank(b) | ascii::is_code(b)
}

fn is_filled(b: u8) -> bool
    ensures { result ≡ is_filled b }
{
    ascii::within(b, b'!', b'~')
}

fn is_column(b: u8) -> bool
    ensures { result ≡ is_column b }
{
    ascii::within(b, b' ', b'~')
}

// A-Z, 0-9, ' or *.
fn is_name_byte(b: u8) -> bool
    ensures { result ≡ is_name_byte b }
{
    ascii::is_code(b) | ((b == b'\'') | (b == b'*'))
}

// One to three bytes of a class, right-justified: of each, whether it is of the class, and of the first two, whether they are blank.
fn right_three(a: bool, b: bool, c: bool, no_a: bool, no_b: bool) -> bool
    ensures { result ≡ right_three a b c no_a no_b }
{
    c & ((b & (a | no_a)) | (no_b & no_a))
}

// 1 to 3 of A-Z and 0-9, right-justified.
pub fn is_residue(n: [u8; 3]) -> bool
    ensures { result ≡ is_residue n }
{
    let [a, b, c] = n;
    right_three(
        ascii::is_code(a),
        ascii::is_code(b),
        ascii::is_code(c),
        is_blank(a),
        is_blank(b),
    )
}

// 1 to 3 bytes that are not blank, right-justified.
pub fn is_identifier(n: [u8; 3]) -> bool
    ensures { result ≡ is_identifier n }
{
    let [a, b, c] = n;
    right_three(
        is_filled(a),
        is_filled(b),
        is_filled(c),
        is_blank(a),
        is_blank(b),
    )
}

// Blank, or 1-9 followed by + or -.
pub fn is_charge(p: [u8; 2]) -> bool
    ensures { result ≡ is_charge p }
{
    let [a, b] = p;
    (is_blank(a) & is_blank(b)) | (ascii::within(a, b'1', b'9') & ((b == b'+') | (b == b'-')))
}

// Name characters, then blanks.
fn padded_two(c: u8, d: u8) -> bool
    ensures { result ≡ padded_two c d }
{
    (is_name_byte(c) & (is_name_byte(d) | is_blank(d))) | (is_blank(c) & is_blank(d))
}

fn padded_three(b: u8, c: u8, d: u8) -> bool
    ensures { result ≡ padded_three b c d }
{
    (is_name_byte(b) & padded_two(c, d)) | (is_blank(b) & (is_blank(c) & is_blank(d)))
}

// Columns of which each may hold anything.
pub fn is_free<const N: usize>(name: [u8; N]) -> bool
    ensures { result ≡ is_free N name.entry }
{
    columns::is_clean(&name, 0, N)
}

// Name characters in all four columns.
pub fn is_full(n: [u8; 4]) -> bool
    ensures { result ≡ is_full n }
{
    let [a, b, c, d] = n;
    is_name_byte(a) & is_name_byte(b) & (is_name_byte(c) & is_name_byte(d))
}

// The first two columns of an atom's name are judged with the element: here only that they are columns at all.
pub fn is_atom_name(n: [u8; 4]) -> bool
    ensures { result ≡ is_atom_name n }
{
    let [a, b, c, d] = n;
    is_column(a) & is_column(b) & padded_two(c, d)
}

// At most one blank, then one or more name characters, then blanks.
pub fn is_bond_name(n: [u8; 4]) -> bool
    ensures { result ≡ is_bond_name n }
{
    let [a, b, c, d] = n;
    (is_name_byte(a) & padded_three(b, c, d)) | (is_blank(a) & (is_name_byte(b) & padded_two(c, d)))
}
