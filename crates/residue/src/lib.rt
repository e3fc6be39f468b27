// A residue: name, a blank, chain, number, insertion code. In HELIX a blank stands between chain and number: `gap` is 1 there, else 0.
#![tactic(auto)]

ghost use Rattle.std.specs.Prelude.{◌≡◌, ◌+◌, ◌≤◌, ◌<◌, length};
ghost use Rattle.columns.specs.Columns.{Put};
ghost use Rattle.fields.specs.Format.{read_of};
ghost use Rattle.residue.specs.Residues.{no_residue, same_residue, residue_f};

use columns::Column;
use fields::ResidueNumber;

#[derive(Clone, Copy, Debug, PartialEq, Eq)]
pub struct Residue {
    pub name: [u8; 3],
    pub chain: u8,
    pub number: ResidueNumber,
    pub insertion: u8,
}

pub fn no_residue() -> Residue
    ensures { result ≡ no_residue }
{
    Residue {
        name: [0; 3],
        chain: 0,
        number: ResidueNumber(0),
        insertion: 0,
    }
}

// Equal residue name, chain, number and insertion code. (A name for `==`: theorems cite this function.)
pub fn same_residue(a: Residue, b: Residue) -> bool
    ensures { result ≡ same_residue a b }
{
    a == b
}

pub fn read_residue(line: &[u8], at: usize, gap: usize) -> Result<Residue, Column>
    requires { (at + (10 + gap) ≤ length line.now) × (at + (10 + gap) ≤ 80) }
    ensures { result ≡ read_of (residue_f gap) line.now at }
{
    let p = at + 3;
    let q = p + 1;
    let u = q + 1;
    let s = u + gap;
    let t = s + 4;
    let name = names::read_residue(line, at)?;
    columns::gap(line, p, 1)?;
    let chain = names::read_chain(line, q)?;
    columns::gap(line, u, gap)?;
    let number = fields::read_integer(line, s, 4)?;
    let insertion = names::read_insertion(line, t)?;
    Ok(Residue {
        name,
        chain,
        number: ResidueNumber(number),
        insertion,
    })
}

// Whether each field of a residue is within its range.
pub fn is_good(r: Residue) -> bool
    ensures { result ≡ (residue_f 0).ok r }
{
    names::is_residue(r.name)
        & names::is_chain(r.chain)
        & fields::spans(r.number.0, 999, 9999)
        & names::is_insertion(r.insertion)
}

pub fn put_residue(line: &mut [u8], at: usize, gap: usize, r: Residue)
    requires { at + (10 + gap) ≤ length line.old }
    ensures { Put line.old at (10 + gap) ((residue_f gap).text r) line.new }
{
    let p = at + 3;
    let q = p + 1;
    let u = q + 1;
    let s = u + gap;
    let t = s + 4;
    names::put(line, at, r.name);
    columns::put_blanks(line, p, 1);
    columns::put_one(line, q, r.chain);
    columns::put_blanks(line, u, gap);
    fields::put_integer(line, s, 4, r.number.0);
    columns::put_one(line, t, r.insertion);
}
