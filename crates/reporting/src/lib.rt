// The report on a text, and the lines that it is printed as.
#![tactic(auto)]

ghost use Rattle.std.specs.Prelude.{◌<◌, ◌≡◌, length, ◌≤◌, take};
ghost use Rattle.gate.specs.Gate.{told_by, ColumnTold};
ghost use Rattle.reporting.specs.Report.{report_of, numbers_of, plain_numbers_of, keys, key_of};

use gate::{Offence, Verdict};
use refusals::Refusal;

// The lines of the report.
pub const LINES: usize = 13;

// 20 above 65,529 bytes, and all other values 0; else the answer of the check.
pub fn report_on(text: &[u8]) -> Verdict
    ensures numbers { told_by result ≡ report_of text.now }
    ensures column { ColumnTold result.offence }
{
    if 65529 < text.len() {
        return Verdict {
            offence: Some(Offence {
                refusal: Refusal::Size,
                line: 0,
                column: None,
            }),
            good: 0,
            counts: places::no_counts(),
        };
    }
    gate::check(text)
}

// Number, offending line, column, good lines, then the nine counts.
pub fn numbers(v: Verdict) -> [u64; LINES]
    ensures { result ≡ numbers_of (told_by v) }
{
    let Verdict {
        good,
        counts: c,
        ..
    } = v;
    [
        v.number() as u64,
        v.line(),
        v.column() as u64,
        good,
        c.remark,
        c.het,
        c.helix,
        c.sheet,
        c.xform,
        c.coord,
        c.ter,
        c.conect,
        c.seq,
    ]
}

// The same without the column.
pub fn plain_numbers(v: Verdict) -> [u64; 12]
    ensures { result ≡ plain_numbers_of (told_by v) }
{
    let [
        number,
        line,
        _,
        good,
        remark,
        het,
        helix,
        sheet,
        xform,
        coord,
        ter,
        conect,
        seq,
    ] = numbers(v);
    [
        number, line, good, remark, het, helix, sheet, xform, coord, ter, conect, seq,
    ]
}

const KEYS: [&str; LINES] = [
    "verdict=", "line=", "column=", "lines=", "remark=", "het=", "helix=", "sheet=", "xform=",
    "coord=", "ter=", "conect=", "seq=",
];

// What stands before the number with index i.
pub fn key(i: usize) -> &'static str
    requires { i < length keys }
    ensures { result.now ≡ key_of i }
{
    KEYS[i]
}
