// The kinds of line, by their names in columns 1 to 6: one table of all that the rules say of each.
#![tactic(auto)]

mod layout;

ghost use Rattle.std.specs.Prelude.{true, false, ◌≡◌};
ghost use Rattle.kinds.specs.Kinds.{row_with, row_of, is_named, kind_named, kind_of};

pub use layout::{Layout, write};

#[derive(Clone, Copy)]
pub enum Kind {
    Header,
    Title,
    Compnd,
    Source,
    Keywds,
    Expdta,
    Author,
    Revdat,
    Jrnl,
    Remark,
    Seqres,
    Het,
    Helix,
    Sheet,
    Cryst1,
    Origx1,
    Origx2,
    Origx3,
    Scale1,
    Scale2,
    Scale3,
    Atom,
    Hetatm,
    Ter,
    Conect,
    Master,
    End,
    Unknown,
    Model,
    Endmdl,
}

// What the rules say of a kind.
#[derive(Clone, Copy)]
pub struct Row {
    // Its name as one number.
    pub name: u64,
    // It may follow the places low to high, and is itself the place here.
    pub low: u8,
    pub high: u8,
    pub here: u8,
    // Which of the nine counts of MASTER it is counted in, 0 for none.
    pub count: u8,
    // Its columns 7-80 are read.
    pub typed: bool,
    // It has a slot.
    pub slot: bool,
}

// Each name as one number: its six bytes to the base 256.
pub const HEADER: u64 = 0x484541444552;

pub const TITLE: u64 = 0x5449544c4520;

pub const COMPND: u64 = 0x434f4d504e44;

pub const SOURCE: u64 = 0x534f55524345;

pub const KEYWDS: u64 = 0x4b4559574453;

pub const EXPDTA: u64 = 0x455850445441;

pub const AUTHOR: u64 = 0x415554484f52;

pub const REVDAT: u64 = 0x524556444154;

pub const JRNL: u64 = 0x4a524e4c2020;

pub const REMARK: u64 = 0x52454d41524b;

pub const SEQRES: u64 = 0x534551524553;

pub const HET: u64 = 0x484554202020;

pub const HELIX: u64 = 0x48454c495820;

pub const SHEET: u64 = 0x534845455420;

pub const CRYST1: u64 = 0x435259535431;

pub const ORIGX1: u64 = 0x4f5249475831;

pub const ORIGX2: u64 = 0x4f5249475832;

pub const ORIGX3: u64 = 0x4f5249475833;

pub const SCALE1: u64 = 0x5343414c4531;

pub const SCALE2: u64 = 0x5343414c4532;

pub const SCALE3: u64 = 0x5343414c4533;

pub const ATOM: u64 = 0x41544f4d2020;

pub const HETATM: u64 = 0x48455441544d;

pub const TER: u64 = 0x544552202020;

pub const CONECT: u64 = 0x434f4e454354;

pub const MASTER: u64 = 0x4d4153544552;

pub const END: u64 = 0x454e44202020;

pub const MODEL: u64 = 0x4d4f44454c20;

pub const ENDMDL: u64 = 0x454e444d444c;

// Columns 7-80 are free.
fn carried(name: u64, low: u8, high: u8, here: u8, count: u8) -> Row
    ensures { result ≡ row_with false false name low high here count }
{
    Row {
        name,
        low,
        high,
        here,
        count,
        typed: false,
        slot: false,
    }
}

// Columns 7-80 are read.
fn typed(name: u64, low: u8, high: u8, here: u8, count: u8) -> Row
    ensures { result ≡ row_with true false name low high here count }
{
    Row {
        name,
        low,
        high,
        here,
        count,
        typed: true,
        slot: false,
    }
}

// They are read, and the line has a slot.
fn slotted(name: u64, low: u8, high: u8, here: u8, count: u8) -> Row
    ensures { result ≡ row_with true true name low high here count }
{
    Row {
        name,
        low,
        high,
        here,
        count,
        typed: true,
        slot: true,
    }
}

// What the rules say of a kind: its name, the places that it may follow, its own place, and its count.
pub fn row_of(k: Kind) -> Row
    ensures { result ≡ row_of k }
{
    match k {
        Kind::Header => carried(HEADER, 0, 0, 1, 0),
        Kind::Title => carried(TITLE, 1, 2, 2, 0),
        Kind::Compnd => carried(COMPND, 1, 3, 3, 0),
        Kind::Source => carried(SOURCE, 1, 4, 4, 0),
        Kind::Keywds => carried(KEYWDS, 1, 5, 5, 0),
        Kind::Expdta => carried(EXPDTA, 1, 6, 6, 0),
        Kind::Author => carried(AUTHOR, 1, 7, 7, 0),
        Kind::Revdat => carried(REVDAT, 1, 8, 8, 0),
        Kind::Jrnl => carried(JRNL, 1, 9, 9, 0),
        Kind::Remark => carried(REMARK, 1, 10, 10, 1),
        Kind::Seqres => carried(SEQRES, 1, 11, 11, 9),
        Kind::Het => carried(HET, 1, 12, 12, 2),
        Kind::Helix => typed(HELIX, 1, 13, 13, 3),
        Kind::Sheet => typed(SHEET, 1, 14, 14, 4),
        Kind::Cryst1 => typed(CRYST1, 1, 14, 15, 0),
        Kind::Origx1 => typed(ORIGX1, 1, 15, 22, 5),
        Kind::Origx2 => typed(ORIGX2, 22, 22, 23, 5),
        Kind::Origx3 => typed(ORIGX3, 23, 23, 16, 5),
        Kind::Scale1 => typed(SCALE1, 1, 16, 24, 5),
        Kind::Scale2 => typed(SCALE2, 24, 24, 25, 5),
        Kind::Scale3 => typed(SCALE3, 25, 25, 17, 5),
        Kind::Atom => slotted(ATOM, 1, 18, 18, 6),
        Kind::Hetatm => slotted(HETATM, 1, 18, 18, 6),
        Kind::Ter => slotted(TER, 1, 18, 18, 7),
        Kind::Conect => typed(CONECT, 1, 19, 19, 8),
        Kind::Master => typed(MASTER, 1, 19, 20, 0),
        Kind::End => typed(END, 20, 20, 21, 0),
        Kind::Unknown => carried(0, 1, 0, 0, 0),
        Kind::Model => typed(MODEL, 1, 18, 18, 0),
        Kind::Endmdl => typed(ENDMDL, 1, 18, 18, 0),
    }
}

// A kind that has a place: not an unknown name.
pub fn is_named(k: Kind) -> bool
    ensures { result ≡ is_named k }
{
    0 < row_of(k).here
}

// The kind of line that has the name n.
pub fn kind_named(n: u64) -> Kind
    ensures { result ≡ kind_named n }
{
    match n {
        HEADER => Kind::Header,
        TITLE => Kind::Title,
        COMPND => Kind::Compnd,
        SOURCE => Kind::Source,
        KEYWDS => Kind::Keywds,
        EXPDTA => Kind::Expdta,
        AUTHOR => Kind::Author,
        REVDAT => Kind::Revdat,
        JRNL => Kind::Jrnl,
        REMARK => Kind::Remark,
        SEQRES => Kind::Seqres,
        HET => Kind::Het,
        HELIX => Kind::Helix,
        SHEET => Kind::Sheet,
        CRYST1 => Kind::Cryst1,
        ORIGX1 => Kind::Origx1,
        ORIGX2 => Kind::Origx2,
        ORIGX3 => Kind::Origx3,
        SCALE1 => Kind::Scale1,
        SCALE2 => Kind::Scale2,
        SCALE3 => Kind::Scale3,
        ATOM => Kind::Atom,
        HETATM => Kind::Hetatm,
        TER => Kind::Ter,
        CONECT => Kind::Conect,
        MASTER => Kind::Master,
        END => Kind::End,
        MODEL => Kind::Model,
        ENDMDL => Kind::Endmdl,
        _ => Kind::Unknown,
    }
}

// The kind of a line: a line under six bytes has no name.
pub fn kind_of(line: &[u8]) -> Kind
    ensures { result ≡ kind_of line.now }
{
    if line.len() < 6 {
        return Kind::Unknown;
    }
    kind_named(words::word(line, 0, 6))
}
