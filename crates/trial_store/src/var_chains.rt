// Long chains of Vars and rings of them, up to as many cells as a store may use: a chain that ends is
// accepted whichever way it leads, and a ring is refused however long the way to it is.
ghost use Rattle.std.specs.Prelude.{◌*◌, ◌<◌};
ghost use Rattle.store.specs.Store.{limit};

use crate::room::append;
use std::{fmt, io};
use store::LIMIT;
use trial::{FIXNUM, Lent, Outcome, VAR, Words, check, rise};

// Each cell behind one, up to another, names the one before it.
fn fall(cells: &mut [u64; LIMIT], from: usize, to: usize)
    requires { to < limit }
{
    for i in from..to {
        cells[i + 1] = VAR + i as u64;
    }
}

// From 1 to 2 n, then 2, then 2 n - 1, and so on, to the cell n + 1, which is left to the caller.
fn swing(cells: &mut [u64; LIMIT], n: usize)
    requires { 2 * n < limit }
{
    for i in 1..n {
        cells[i] = VAR + (2 * n + 1 - i) as u64;
        cells[2 * n + 1 - i] = VAR + (i + 1) as u64;
    }
    cells[n] = VAR + (n + 1) as u64;
}

// Rings and chains of 2 to 4,094 cells.
pub fn rings(rt: &impl Print) -> io::Result<()> {
    let mut cells = [0; LIMIT];
    rise(&mut cells, VAR, 1, 2);
    cells[2] = VAR + 1;
    println!(rt; "a ring of 2: {}", check(&cells, 3))?;
    rise(&mut cells, VAR, 1, 3);
    cells[3] = VAR + 1;
    println!(rt; "a ring of 3: {}", check(&cells, 4))?;
    rise(&mut cells, VAR, 1, 4094);
    cells[4094] = VAR + 1;
    println!(rt; "a ring of 4,094: {}", check(&cells, 4095))?;
    cells[4094] = VAR + 4094;
    println!(rt;
        "a self-reference at the end of a chain of 4,094: {}",
        check(&cells, 4095)
    )?;
    fall(&mut cells, 1, 4094);
    println!(rt;
        "a ring of 2 at the low end of 4,094 that fall: {}",
        check(&cells, 4095)
    )?;
    cells[1] = VAR + 1;
    println!(rt;
        "the same with a self-reference there: {}",
        check(&cells, 4095)
    )?;
    cells[1] = VAR + 4094;
    println!(rt; "a ring of 4,094 that fall: {}", check(&cells, 4095))
}

// Chains that come to a ring.
pub fn tails(rt: &impl Print) -> io::Result<()> {
    let mut cells = [0; LIMIT];
    rise(&mut cells, VAR, 1, 4095);
    cells[4095] = VAR + 4094;
    println!(rt; "a ring of 2 behind 4,093: {}", check(&cells, 4096))?;
    cells[4095] = VAR + 2000;
    println!(rt; "a ring of 2,096 behind 1,999: {}", check(&cells, 4096))?;
    cells[4095] = VAR + 2;
    println!(rt; "a ring of 4,094 behind one: {}", check(&cells, 4096))?;
    cells[2000] = VAR + 1;
    cells[4095] = VAR + 2001;
    println!(rt; "two rings: {}", check(&cells, 4096))?;
    cells[2000] = FIXNUM;
    println!(rt; "the second alone: {}", check(&cells, 4096))?;
    cells[2000] = VAR + 1;
    cells[4095] = FIXNUM;
    println!(rt; "the first alone: {}", check(&cells, 4096))?;
    cells[2000] = VAR + 3000;
    println!(rt; "neither, two chains into one: {}", check(&cells, 4096))?;
    cells[3000] = VAR + 10;
    println!(rt; "a ring over both: {}", check(&cells, 4096))
}

// A chain that leads up and down in turns.
pub fn turns(rt: &impl Print) -> io::Result<()> {
    let mut cells = [0; LIMIT];
    swing(&mut cells, 2047);
    cells[2048] = VAR + 2048;
    println!(rt; "4,094 up and down in turns: {}", check(&cells, 4095))?;
    cells[2048] = VAR + 1;
    println!(rt; "their end names the first: {}", check(&cells, 4095))?;
    cells[2048] = VAR + 2047;
    println!(rt; "their end names the one before: {}", check(&cells, 4095))
}

// A store as large as its tables may be small, and one cell more.
pub fn sizes(rt: &impl Print) -> io::Result<()> {
    let mut cells = [0; LIMIT];
    fall(&mut cells, 1, 2);
    cells[1] = VAR + 1;
    rise(&mut cells, VAR, 3, 255);
    cells[255] = VAR + 255;
    println!(rt;
        "256 cells, a chain that ends in the last: {}",
        check(&cells, 256)
    )?;
    cells[255] = VAR + 254;
    println!(rt; "256 cells, a ring of the last two: {}", check(&cells, 256))?;
    cells[255] = VAR + 256;
    cells[256] = VAR + 256;
    println!(rt;
        "257 cells, a chain that ends in the last: {}",
        check(&cells, 257)
    )?;
    cells[256] = VAR + 255;
    println!(rt; "257 cells, a ring of the last two: {}", check(&cells, 257))
}

// Appends behind two chains, one up from 1 to 1,000, one down from 2,000.
pub fn appends(rt: &impl Print) -> io::Result<()> {
    let mut cells = [0; LIMIT];
    rise(&mut cells, VAR, 1, 1000);
    cells[1000] = VAR + 1000;
    cells[1001] = VAR + 1001;
    fall(&mut cells, 1001, 2000);
    let first = append(cells, 2001, &[VAR + 1; 1000]);
    println!(rt; "1,000 Vars that name the first of a chain: {first}")?;
    let last = append(cells, 2001, &[VAR + 2000; 1000]);
    println!(rt; "1,000 Vars that name the last of a chain: {last}")?;
    let both = [VAR + 2002, VAR + 2003, VAR + 2003, VAR + 1];
    let both = append(cells, 2001, &both);
    println!(rt; "a chain up, and a Var that names an old one: {both}")?;
    let ring = [VAR + 1, VAR + 2003, VAR + 2004, VAR + 2002];
    println!(rt; "a ring behind them: {}", append(cells, 2001, &ring))?;
    let tail = [VAR + 2002, VAR + 2003, VAR + 2002, VAR + 2000];
    println!(rt; "a ring with a tail: {}", append(cells, 2001, &tail))
}

// What a rollback answered and left.
#[derive(Clone, Copy)]
struct Rolled {
    answer: Outcome<&'static str>,
    left: Lent<LIMIT, 3, 2>,
}

// The counts and three cells after the answer.
impl fmt::Display for Rolled {
    fn fmt<W: fmt::Write>(&self, f: &mut fmt::Formatter<W>) -> fmt::Result {
        let Rolled { answer, left } = self;
        writeln!(
            f,
            "{answer}, top {}, trail count {}",
            left.top, left.trailed
        )?;
        let some = [left.cells[1], left.cells[2047], left.cells[4094]];
        write!(f, "  cells 1, 2047 and 4094{}", Words(&some))
    }
}

// Rolls a chain with these trail entries back to a mark with this top and no entry.
fn roll(cells: [u64; LIMIT], entries: [u64; 2], at_top: u64) -> Rolled {
    let mut left = Lent::of(cells, 4095)
        .trailing(&entries)
        .marking(&[at_top, 0]);
    Rolled {
        answer: left.rollback(1),
        left,
    }
}

// Rollbacks that cut a chain, or unbind a part of it.
pub fn rollbacks(rt: &impl Print) -> io::Result<()> {
    let mut cells = [0; LIMIT];
    swing(&mut cells, 2047);
    cells[2048] = VAR + 2048;
    let half = roll(cells, [1, 4094], 2048);
    println!(rt; "rollback that drops half of a chain: {half}")?;
    let two = roll(half.left.cells, [1, 4094], 4095);
    println!(rt; "rollback that unbinds two of it: {two}")?;
    rise(&mut cells, VAR, 1, 4094);
    cells[4094] = VAR + 4094;
    let both = roll(cells, [1, 2047], 2048);
    println!(rt; "rollback that drops half, and unbinds what named it: {both}")
}
