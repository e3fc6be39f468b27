// Fields that hold names: what they hold where they are right, else their first column.
ghost use Rattle.std.specs.Prelude.{◌≡◌, ◌+◌, ◌≤◌, ◌<◌, length};
ghost use Rattle.fields.specs.Format.{byte_f, read_of};
ghost use Rattle.names.specs.Names.{name_f, is_chain, is_insertion, is_alternate, is_free, is_residue, is_identifier, is_atom_name, is_bond_name, is_charge};

use super::{
    is_alternate, is_atom_name, is_bond_name, is_chain, is_charge, is_free, is_identifier,
    is_insertion, is_residue, read,
};
use columns::{Column, judged};

// The name of a residue.
pub fn read_residue(line: &[u8], at: usize) -> Result<[u8; 3], Column>
    requires { (at + 3 ≤ length line.now) × (at + 3 ≤ 80) }
    ensures { result ≡ read_of (name_f 3 is_residue) line.now at }
{
    let name = read(line, at);
    judged(name, is_residue(name), at)
}

// The identifier of a helix or a sheet.
pub fn read_identifier(line: &[u8], at: usize) -> Result<[u8; 3], Column>
    requires { (at + 3 ≤ length line.now) × (at + 3 ≤ 80) }
    ensures { result ≡ read_of (name_f 3 is_identifier) line.now at }
{
    let name = read(line, at);
    judged(name, is_identifier(name), at)
}

// The name of an atom.
pub fn read_atom(line: &[u8], at: usize) -> Result<[u8; 4], Column>
    requires { (at + 4 ≤ length line.now) × (at + 4 ≤ 80) }
    ensures { result ≡ read_of (name_f 4 is_atom_name) line.now at }
{
    let name = read(line, at);
    judged(name, is_atom_name(name), at)
}

// The name of an atom that a sheet is registered by.
pub fn read_bond(line: &[u8], at: usize) -> Result<[u8; 4], Column>
    requires { (at + 4 ≤ length line.now) × (at + 4 ≤ 80) }
    ensures { result ≡ read_of (name_f 4 is_bond_name) line.now at }
{
    let name = read(line, at);
    judged(name, is_bond_name(name), at)
}

// A charge.
pub fn read_charge(line: &[u8], at: usize) -> Result<[u8; 2], Column>
    requires { (at + 2 ≤ length line.now) × (at + 2 ≤ 80) }
    ensures { result ≡ read_of (name_f 2 is_charge) line.now at }
{
    let name = read(line, at);
    judged(name, is_charge(name), at)
}

// N columns that may hold anything.
pub fn read_free<const N: usize>(line: &[u8], at: usize) -> Result<[u8; N], Column>
    requires { (at + N ≤ length line.now) × (at + N < 80) }
    ensures { result ≡ read_of (name_f N (is_free N)) line.now at }
{
    let name = read(line, at);
    judged(name, is_free(name), at)
}

// A chain.
pub fn read_chain(line: &[u8], at: usize) -> Result<u8, Column>
    requires { (at + 1 ≤ length line.now) × (at + 1 ≤ 80) }
    ensures { result ≡ read_of (byte_f is_chain) line.now at }
{
    judged(line[at], is_chain(line[at]), at)
}

// An insertion code.
pub fn read_insertion(line: &[u8], at: usize) -> Result<u8, Column>
    requires { (at + 1 ≤ length line.now) × (at + 1 ≤ 80) }
    ensures { result ≡ read_of (byte_f is_insertion) line.now at }
{
    judged(line[at], is_insertion(line[at]), at)
}

// An alternate letter.
pub fn read_alternate(line: &[u8], at: usize) -> Result<u8, Column>
    requires { (at + 1 ≤ length line.now) × (at + 1 ≤ 80) }
    ensures { result ≡ read_of (byte_f is_alternate) line.now at }
{
    judged(line[at], is_alternate(line[at]), at)
}
