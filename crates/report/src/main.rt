// Reads standard input and prints the report on it: key=value lines.
#![tactic(auto)]

ghost use Rattle.std.specs.Prelude.{◌<◌, [], length, slice_index_or, OnOk};
ghost use Rattle.std.specs.Io.KnownBytes.{Appends};
ghost use Rattle.reporting.specs.Report.{keys};
ghost use Rattle.gate.specs.Gate.{told_by};
ghost use Rattle.report.specs.Printed.{line_of, printed};

use gate::Verdict;
use reporting::LINES;
use std::io;
use std::io::{BufWriter, Read, Write};

// More bytes than are judged, so that an input that is too long is seen.
const MOST_READ: u64 = 65536;

fn print_line<W: Write>(to: &mut W, i: usize, number: u64) -> io::Result<()>
    requires { i < length keys }
    ensures { OnOk result (Appends (W.contents to.old) (W.contents to.new) (line_of (slice_index_or keys i []) number)) }
{
    let key = reporting::key(i);
    writeln!(to, "{key}{number}")
}

fn print_report<W: Write>(to: &mut W, v: Verdict) -> io::Result<()>
    ensures { OnOk result (Appends (W.contents to.old) (W.contents to.new) (printed (told_by v))) }
{
    let numbers = reporting::numbers(v);
    for i in 0..LINES {
        print_line(to, i, numbers[i])?;
    }
    Ok(())
}

fn main(rt: HostRuntime) -> io::Result<()> {
    let mut text = Vec::new(rt.alloc());
    rt.reader().take(MOST_READ).read_to_end(&mut text)?;
    let mut to = BufWriter::new(rt.alloc(), io::writer(&rt))?;
    print_report(&mut to, reporting::report_on(&text))?;
    to.flush()
}
