// Where each kind of line may stand, and which of MASTER's counts it is counted in.
#![tactic(auto)]

mod counting;
mod order;

pub use counting::{count_at, count_by, count_of, no_counts, raise, same_counts};
pub use order::{fence_bad, place_bad};

// Where the models stand: whether one is open, whether the first is past, and the number of the last MODEL line.
#[derive(Clone, Copy)]
pub struct Models {
    pub inside: bool,
    pub past: bool,
    pub number: u32,
}

// One of the nine counts of MASTER, each with its number.
#[derive(Clone, Copy, Debug, PartialEq, Eq)]
pub enum Count {
    Remark = 1,
    Het,
    Helix,
    Sheet,
    Xform,
    Coord,
    Ter,
    Conect,
    Seq,
}

// The nine counts of MASTER, without the limit of its columns. (Not `Tally` over wider numbers: C is passed that, so it has no type parameter.)
#[derive(Clone, Copy)]
pub struct Counts {
    pub remark: u64,
    pub het: u64,
    pub helix: u64,
    pub sheet: u64,
    pub xform: u64,
    pub coord: u64,
    pub ter: u64,
    pub conect: u64,
    pub seq: u64,
}
