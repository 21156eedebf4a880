// Stores as large as they get, where a walk of each path, or a search along each chain, would never
// end: endless lists, doubling terms, overlapping pairs, chains of Vars and long lists.
ghost use Rattle.std.specs.Prelude.{◌+◌, ◌*◌, ◌<◌};
ghost use Rattle.store.specs.Store.{limit};

use crate::calls::Call::{Checked, Plain};
use crate::calls::{Call, Made};
use std::io;
use store::LIMIT;
use trial::{A, B, LIS, Lent, NIL, Numbers, STR, VAR, Words, doubled, rise};

// Twelve words for each cell that a store may use.
const WORDS: usize = 12 * LIMIT;

type Heap<const ENTRIES: usize> = Lent<LIMIT, ENTRIES, 0>;

// One call with no entry on the trail.
fn unify<const ENTRIES: usize>(heap: &mut Heap<ENTRIES>, call: Call) -> Made {
    heap.trail.fill(0);
    heap.trailed = 0;
    call.made(heap, &mut [7; WORDS])
}

// A list of `n` unbound variables from cell `at` on; its last tail is left to the caller.
fn variables_at(cells: &mut [u64; LIMIT], at: usize, n: usize)
    requires { at + 2 * n < limit }
{
    for p in (at..at + 2 * n).step_by(2) {
        cells[p] = VAR + p as u64;
        cells[p + 1] = LIS + (p + 2) as u64;
    }
}

// Cells 1 and 2 are endless lists of 7 and of 11 variables.
fn endless(cells: &mut [u64; LIMIT]) {
    cells[1] = LIS + 3;
    cells[2] = LIS + 17;
    variables_at(cells, 3, 7);
    cells[16] = LIS + 3;
    variables_at(cells, 17, 11);
    cells[38] = LIS + 17;
}

// One call on the endless lists, and the trail after it.
fn periodic(rt: &impl Print, name: &str, heap: &mut Heap<18>, call: Call) -> io::Result<()> {
    println!(rt; "{name}, {}", unify(heap, call))?;
    println!(rt; "  trail{}", Numbers(&heap.trail))
}

// Two endless lists of different lengths.
pub fn periods(rt: &impl Print) -> io::Result<()> {
    let mut heap = Heap::<18>::of([0; LIMIT], 39);
    endless(&mut heap.cells);
    periodic(rt, "endless lists of 7 and 11", &mut heap, Checked(1, 2))?;
    periodic(rt, "endless lists of 7 and 11", &mut heap, Plain(1, 2))?;
    println!(rt; "  cells{}", Words(&heap.cells[..39]))?;
    endless(&mut heap.cells);
    periodic(rt, "endless lists of 7 and 11", &mut heap, Plain(2, 1))?;
    endless(&mut heap.cells);
    heap.cells[9] = A;
    heap.cells[27] = B;
    let name = "an a in one and a b in the other";
    periodic(rt, name, &mut heap, Plain(1, 2))?;
    println!(rt; "  cells{}", Words(&heap.cells[..39]))
}

// Cells 1 and 2 are doubling terms of 600 levels; the second ends in this word.
fn two_doubled(cells: &mut [u64; LIMIT], end: u64) {
    cells[1] = STR + 3;
    cells[2] = STR + 1804;
    doubled(cells, 3, 600, A);
    doubled(cells, 1804, 600, end);
}

// The second term ends in an unbound variable, at 3604.
fn open_doubled(cells: &mut [u64; LIMIT]) {
    two_doubled(cells, VAR + 3604);
    cells[3602] = VAR + 3604;
    cells[3603] = VAR + 3604;
}

// One call on the doubling terms, with the trail and the last cell after it.
fn levels(rt: &impl Print, name: &str, heap: &mut Heap<1>, call: Call) -> io::Result<()> {
    println!(rt; "{name}, {}", unify(heap, call))?;
    println!(rt; "  trail{}", Numbers(&heap.trail))?;
    println!(rt; "  cell 3604{}", Words(&heap.cells[3604..3605]))
}

// Two terms of 600 levels with 2 to the 600 paths each.
pub fn doubling(rt: &impl Print) -> io::Result<()> {
    let mut heap = Heap::<1>::of([0; LIMIT], 3605);
    two_doubled(&mut heap.cells, A);
    levels(rt, "doubling terms of 600 levels", &mut heap, Plain(1, 2))?;
    levels(rt, "doubling terms of 600 levels", &mut heap, Checked(2, 1))?;
    two_doubled(&mut heap.cells, B);
    levels(rt, "ending in a and in b", &mut heap, Plain(1, 2))?;
    levels(rt, "ending in a and in b", &mut heap, Checked(2, 1))?;
    open_doubled(&mut heap.cells);
    levels(rt, "ending in a and in a variable", &mut heap, Plain(1, 2))?;
    open_doubled(&mut heap.cells);
    levels(
        rt,
        "ending in a and in a variable",
        &mut heap,
        Checked(2, 1),
    )
}

// Each cell names the pair of the two cells behind it; with as many trail entries as cells.
pub fn overlapping(rt: &impl Print) -> io::Result<()> {
    let mut heap = Heap::<LIMIT>::of([0; LIMIT], 4002);
    rise(&mut heap.cells, LIS, 1, 4000);
    heap.cells[4000] = LIS + 1;
    heap.cells[4001] = LIS + 2;
    println!(rt; "a ring of 4,000 pairs, {}", unify(&mut heap, Plain(1, 2)))?;
    println!(rt; "a ring of 4,000 pairs, {}", unify(&mut heap, Plain(2, 1)))?;
    println!(rt;
        "a ring of 4,000 pairs, {}",
        unify(&mut heap, Plain(1, 2000))
    )?;
    println!(rt;
        "a ring of 4,000 pairs, {}",
        unify(&mut heap, Checked(1, 2))
    )?;
    heap.cells[4000] = A;
    heap.cells[4001] = A;
    println!(rt; "4,000 pairs, no ring, {}", unify(&mut heap, Plain(1, 2)))?;
    println!(rt; "4,000 pairs, no ring, {}", unify(&mut heap, Checked(2, 1)))?;
    println!(rt; "4,000 pairs, no ring, {}", unify(&mut heap, Checked(1, 1)))
}

// One call on a chain of 4,000 Vars, with the trail and the last cells after it.
fn chain(rt: &impl Print, name: &str, heap: &mut Heap<2>, call: Call) -> io::Result<()> {
    println!(rt; "{name}, {}", unify(heap, call))?;
    println!(rt; "  trail{}", Numbers(&heap.trail))?;
    println!(rt; "  cells 4000 and 4001{}", Words(&heap.cells[4000..4002]))
}

// A long chain of Vars against another cell.
pub fn chains(rt: &impl Print) -> io::Result<()> {
    let mut heap = Heap::<2>::of([0; LIMIT], 4002);
    rise(&mut heap.cells, VAR, 1, 4000);
    heap.cells[4000] = VAR + 4000;
    heap.cells[4001] = VAR + 4001;
    let name = "a chain of 4,000 Vars and another";
    chain(rt, name, &mut heap, Plain(1, 4001))?;
    heap.cells[4001] = A;
    chain(
        rt,
        "a chain of 4,000 Vars and a",
        &mut heap,
        Checked(4001, 1),
    )
}

// A list of 2,000 variables at 1, and its own tail at 2.
fn shifted(cells: &mut [u64; LIMIT], end: u64) {
    cells[1] = LIS + 3;
    cells[2] = LIS + 5;
    variables_at(cells, 3, 2000);
    cells[4002] = end;
}

// One call on the list and its tail, with the ends of the trail and of the list after it.
fn list(rt: &impl Print, name: &str, heap: &mut Heap<2001>, call: Call) -> io::Result<()> {
    println!(rt; "{name}, {}", unify(heap, call))?;
    println!(rt; "  entries 1 to 3{}", Numbers(&heap.trail[..3]))?;
    println!(rt; "  entries 1998 to 2001{}", Numbers(&heap.trail[1997..]))?;
    println!(rt; "  cells 3 to 8{}", Words(&heap.cells[3..9]))?;
    println!(rt; "  cells 4000 to 4002{}", Words(&heap.cells[4000..4003]))
}

// A long list against its own tail.
pub fn lists(rt: &impl Print) -> io::Result<()> {
    let mut heap = Heap::<2001>::of([0; LIMIT], 4003);
    shifted(&mut heap.cells, NIL);
    let name = "a list of 2,000 variables and its tail";
    list(rt, name, &mut heap, Plain(1, 2))?;
    list(rt, name, &mut heap, Checked(2, 1))?;
    shifted(&mut heap.cells, VAR + 4002);
    list(rt, "the same with an open end", &mut heap, Checked(1, 2))?;
    list(rt, "the same with an open end", &mut heap, Plain(2, 1))
}
