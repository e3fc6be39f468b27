// A sitting at the station: an entry from standard input is loaded, drawn, parted, saved and put together again. Every answer is printed, those to what
// has to be refused too.
#![tactic(auto)]

ghost use Rattle.std.specs.Prelude.{◌≤◌};

use feed::Extent;
use fields::FragmentNumber;
use master::Tally;
use refusals::Refusal;
use slots::Slot;
use std::io;
use std::io::{BufWriter, Read, Write};

// The most bytes of an entry that are read.
const MOST_READ: u64 = 65536;

// The bytes that what is saved, and the tray, have room for.
const ROOM: usize = 65536;

fn say(to: &mut impl Write, text: &[u8]) -> io::Result<()> {
    to.write_all(text)
}

fn put(to: &mut impl Write, n: u64) -> io::Result<()> {
    write!(to, " {n}")
}

fn print_number(to: &mut impl Write, n: u32) -> io::Result<()> {
    put(to, n as u64)?;
    say(to, b"\n")
}

// The number, and how many slots or bytes were written.
fn print_outcome(to: &mut impl Write, o: Result<usize, Refusal>) -> io::Result<()> {
    put(to, answers::number_of(o) as u64)?;
    put(to, o.unwrap_or(0) as u64)?;
    say(to, b"\n")
}

// The first n bytes, if there are as many.
fn print_first(to: &mut impl Write, out: &[u8], n: usize) -> io::Result<()> {
    if out.len() < n {
        return Ok(());
    }
    say(to, &out[..n])
}

// The same, and the bytes.
fn print_written(to: &mut impl Write, o: Result<usize, Refusal>, out: &[u8]) -> io::Result<()> {
    print_outcome(to, o)?;
    match o {
        Ok(n) => print_first(to, out, n),
        Err(_) => Ok(()),
    }
}

// ---- the tally
// A tally in which one count is full.
fn nearly_full() -> Tally {
    Tally {
        remark: 0,
        het: 0,
        helix: 0,
        sheet: 0,
        xform: 0,
        coord: 7,
        ter: 99999,
        conect: 0,
        seq: 0,
    }
}

fn count(to: &mut impl Write, t: Tally, line: &[u8], past: bool) -> io::Result<Tally> {
    let c = tally::tally_after(t, line, past);
    let u = c.unwrap_or(t);
    say(to, b"tally")?;
    put(to, answers::number_of(c) as u64)?;
    put(to, u.coord as u64)?;
    put(to, u.ter as u64)?;
    say(to, b"\n")?;
    Ok(u)
}

// A line whose count is full, one that has no name, one that is counted, one that is not once the first model is past, and one that MASTER does
// not count.
fn count_lines(to: &mut impl Write) -> io::Result<()> {
    let t = nearly_full();
    let u = count(to, t, b"TER   ", false)?;
    let v = count(to, u, b"TER", false)?;
    let w = count(to, v, b"HETATM", false)?;
    let x = count(to, w, b"HETATM", true)?;
    count(to, x, b"ENDMDL", false)?;
    Ok(())
}

// ---- a stage of the sitting
// What a stage has told: of loading, of two orders, of the frame, of whether slots 2 and 3 are drawn, of saving and of the tray.
#[derive(Clone, Copy)]
struct Told {
    load: Result<usize, Refusal>,
    first: Result<(), Refusal>,
    second: Result<(), Refusal>,
    looks: Looks,
    save: Result<usize, Refusal>,
    tray: Result<usize, Refusal>,
}

#[derive(Clone, Copy)]
struct Looks {
    frame: u32,
    dot: bool,
    stroke: bool,
}

fn look(f: Result<Extent, Refusal>, a: Slot, b: Slot) -> Looks {
    Looks {
        frame: answers::number_of(f),
        dot: feed::dot(a).is_some(),
        stroke: feed::stroke(a, b).is_some(),
    }
}

// Into the first slots of a table that has as many.
fn load(text: &[u8], table: &mut [Slot], room: usize) -> Result<usize, Refusal> {
    if table.len() < room {
        return Ok(0);
    }
    store::load(text, &mut table[..room])
}

// A slot of no text, where there is one.
fn spoil(table: &mut [Slot], k: usize) {
    if k < table.len() {
        table[k] = slots::no_slot();
    }
}

fn view(table: &[Slot]) -> Looks {
    if table.len() < 4 {
        return Looks {
            frame: 0,
            dot: false,
            stroke: false,
        };
    }
    look(feed::frame(table), table[2], table[3])
}

// An entry loaded into some of eight slots, a fragment set aside, another order, a slot spoiled; then the table is looked at and kept.
fn stage(text: &[u8], out: &mut [u8], set: &mut [u8], k: u8) -> Told {
    let mut table = [slots::no_slot(); 8];
    let load = load(text, &mut table, slots_at(k));
    let first = store::order(text, &mut table, first_at(k), true);
    let second = store::order(text, &mut table, second_at(k), k < 6);
    spoil(&mut table, spoiled_at(k));
    Told {
        load,
        first,
        second,
        looks: view(&table),
        save: store::save(text, &table, out),
        tray: store::tray(text, &table, set),
    }
}

// ---- the stages
// Each stage does again what was done before it, and prints what is new: 0 and 1 load, into no slot and into enough; 2 to 4 set fragments aside: one, which then is there
// already, and a ninth, which there is not; 6 puts the one back; in 8 a slot is spoiled. The table is kept after 4, 6 and 8, first without room and then with room.
const STAGES: u8 = 10;

fn slots_at(k: u8) -> usize {
    if k == 0 {
        return 0;
    }
    8
}

fn first_at(k: u8) -> FragmentNumber {
    if k < 2 {
        return FragmentNumber(9);
    }
    FragmentNumber(2)
}

fn second_at(k: u8) -> FragmentNumber {
    match k {
        3 | 6 | 7 | 8 | 9 => FragmentNumber(2),
        _ => FragmentNumber(9),
    }
}

fn spoiled_at(k: u8) -> usize {
    if k < 8 {
        return 8;
    }
    0
}

fn bytes_at(k: u8, n: usize) -> usize
    ensures { result ≤ n }
{
    match k {
        4 | 6 | 8 => 0,
        _ => n,
    }
}

fn print_load(to: &mut impl Write, k: u8, o: Result<usize, Refusal>) -> io::Result<()> {
    if k < 2 {
        say(to, b"load")?;
        print_outcome(to, o)?;
    }
    Ok(())
}

fn print_order(to: &mut impl Write, f: FragmentNumber, o: Result<(), Refusal>) -> io::Result<()> {
    put(to, f.0 as u64)?;
    say(to, b":")?;
    print_number(to, answers::number_of(o))
}

fn print_orders(
    to: &mut impl Write,
    k: u8,
    first: Result<(), Refusal>,
    second: Result<(), Refusal>,
) -> io::Result<()> {
    match k {
        2 => {
            say(to, b"set aside")?;
            print_order(to, first_at(k), first)
        }
        3 | 4 => {
            say(to, b"set aside")?;
            print_order(to, second_at(k), second)
        }
        6 => {
            say(to, b"put back")?;
            print_order(to, second_at(k), second)
        }
        _ => Ok(()),
    }
}

fn print_drawn(to: &mut impl Write, drawn: bool, what: &[u8]) -> io::Result<()> {
    if drawn {
        say(to, what)
    } else {
        say(to, b"nothing to draw\n")
    }
}

fn print_looks(to: &mut impl Write, k: u8, l: Looks) -> io::Result<()> {
    match k {
        0 | 1 | 4 => {
            say(to, b"frame")?;
            print_number(to, l.frame)?;
            print_drawn(to, l.dot, b"dot\n")?;
            print_drawn(to, l.stroke, b"stroke\n")
        }
        _ => Ok(()),
    }
}

fn print_save(to: &mut impl Write, k: u8, o: Result<usize, Refusal>, out: &[u8]) -> io::Result<()> {
    if 3 < k {
        say(to, b"save")?;
        print_written(to, o, out)?;
    }
    Ok(())
}

fn print_tray(to: &mut impl Write, k: u8, o: Result<usize, Refusal>, set: &[u8]) -> io::Result<()> {
    match k {
        5 | 7 | 9 => {
            say(to, b"tray")?;
            print_written(to, o, set)
        }
        _ => Ok(()),
    }
}

fn go_on(
    to: &mut impl Write,
    text: &[u8],
    out: &mut [u8],
    set: &mut [u8],
    k: u8,
) -> io::Result<()> {
    let n = bytes_at(k, out.len());
    let t = stage(text, &mut out[..n], set, k);
    print_load(to, k, t.load)?;
    print_orders(to, k, t.first, t.second)?;
    print_looks(to, k, t.looks)?;
    print_save(to, k, t.save, out)?;
    print_tray(to, k, t.tray, set)
}

fn sit(to: &mut impl Write, text: &[u8], out: &mut [u8], set: &mut [u8]) -> io::Result<()> {
    for k in 0..STAGES {
        go_on(to, text, out, set, k)?;
    }
    Ok(())
}

fn main(rt: HostRuntime) -> io::Result<()> {
    let mut text = Vec::new(rt.alloc());
    rt.reader().take(MOST_READ).read_to_end(&mut text)?;
    let mut out = vec![in rt.alloc(); 0; ROOM]?;
    let mut set = vec![in rt.alloc(); 0; ROOM]?;
    let mut to = BufWriter::new(rt.alloc(), io::writer(&rt))?;
    sit(&mut to, &text, &mut out, &mut set)?;
    count_lines(&mut to)?;
    to.flush()
}
