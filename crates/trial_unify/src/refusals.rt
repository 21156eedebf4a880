// Each refusal, with a store that just misses being accepted; several at once; and the words after it.
use crate::calls::Call::{Checked, Plain};
use std::io;
use trial::{A, F_2, G_1, HEAP_B, LIS, Lent, Outcome, STR, VAR};

// Both kinds of call, and the words after both.
fn both<const CELLS: usize, const ENTRIES: usize>(
    rt: &impl Print,
    name: &str,
    mut heap: Lent<CELLS, ENTRIES, 0>,
    work: &mut [u64],
    a: usize,
    b: usize,
) -> io::Result<()> {
    println!(rt; "{name}, {}", Checked(a, b).made(&mut heap, work))?;
    println!(rt; "{name}, {}\n{heap}", Plain(a, b).made(&mut heap, work))
}

// With a trail of two entries, none used, and work words enough.
fn cells_and_roots<const CELLS: usize>(
    rt: &impl Print,
    name: &str,
    heap: Lent<CELLS, 2, 0>,
    a: usize,
    b: usize,
) -> io::Result<()> {
    both(rt, name, heap, &mut [7; 61], a, b)
}

// Stores that are not well formed; refusal 1.
pub fn cells(rt: &impl Print) -> io::Result<()> {
    let ring = Lent::of([0, VAR + 2, VAR + 1], 3);
    cells_and_roots(rt, "Var 2, Var 1", ring, 1, 2)?;
    let short = Lent::of([0, STR + 2, F_2, A], 4);
    cells_and_roots(rt, "Str 2, f/2, a, top 4", short, 1, 3)?;
    let long = Lent::of([0, STR + 2, F_2, A, A], 5);
    cells_and_roots(rt, "Str 2, f/2, a, a, top 5", long, 1, 3)?;
    cells_and_roots(rt, "the same, top 4", Lent { top: 4, ..long }, 1, 3)
}

// One root twice, with more work words than four cells need.
fn twice<const ENTRIES: usize>(
    rt: &impl Print,
    name: &str,
    heap: Lent<4, ENTRIES, 0>,
) -> io::Result<()> {
    both(rt, name, heap, &mut [7; 49], 1, 1)
}

// Heap B with one root twice, and one mark of this top and no entry.
fn marked(top: u64) -> Outcome<&'static str> {
    let mut b = Lent::<4, 1, 2>::of(HEAP_B, 4).marking(&[top, 0]);
    Plain(1, 1).answer(&mut b, &mut [7; 49])
}

// Trails and marks that break a rule; refusal 2.
pub fn trails(rt: &impl Print) -> io::Result<()> {
    let b = Lent::<4, 2, 0>::of(HEAP_B, 4);
    twice(
        rt,
        "three entries in a trail of two",
        Lent { trailed: 3, ..b },
    )?;
    twice(rt, "an entry that names an unbound Var", b.trailing(&[3]))?;
    let behind = Lent { trail: [0, 1], ..b };
    twice(rt, "a word behind the entries", behind)?;
    println!(rt; "a mark above top: {}", marked(5))?;
    println!(rt; "a mark at top: {}", marked(4))
}

// Roots that are no cell of a term; refusal 3.
pub fn roots(rt: &impl Print) -> io::Result<()> {
    let b = Lent::of(HEAP_B, 4);
    cells_and_roots(rt, "heap B at 0", b, 0, 1)?;
    cells_and_roots(rt, "heap B at 0", b, 1, 0)?;
    cells_and_roots(rt, "heap B at its header", b, 2, 1)?;
    cells_and_roots(rt, "heap B at its header", b, 1, 2)?;
    cells_and_roots(rt, "heap B at top", b, 4, 1)?;
    cells_and_roots(rt, "heap B at top", b, 1, 4)
}

// Too few work words, refusal 4, and too little room on the trail, refusal 5.
pub fn rooms(rt: &impl Print) -> io::Result<()> {
    let b = Lent::<4, 1, 0>::of(HEAP_B, 4);
    both(rt, "47 work words for four cells", b, &mut [7; 47], 1, 1)?;
    both(rt, "48 work words for four cells", b, &mut [7; 48], 1, 1)?;
    // An atom beside two unbound Vars that it does not reach.
    let cells = [0, A, VAR + 2, VAR + 3];
    let one = Lent::<4, 1, 0>::of(cells, 4);
    twice(rt, "two unbound Vars, one entry", one)?;
    let two = Lent::<4, 2, 0>::of(cells, 4);
    twice(
        rt,
        "two unbound Vars, one free entry of two",
        two.trailing(&[1]),
    )?;
    twice(rt, "two unbound Vars, two free entries", two)
}

// Roots that reach a cycle; refusal 6 of the checked call.
pub fn cycles(rt: &impl Print) -> io::Result<()> {
    let second = Lent::of([0, A, STR + 3, G_1, STR + 3], 5);
    cells_and_roots(rt, "a and g(g(..))", second, 1, 2)?;
    cells_and_roots(rt, "a and g(g(..))", second, 2, 1)?;
    let elsewhere = Lent::of([0, A, LIS + 3, A, LIS + 3], 5);
    cells_and_roots(rt, "a and a, with a cycle elsewhere", elsewhere, 1, 3)
}

// With one trail entry and one work word.
fn scant<const CELLS: usize>(
    rt: &impl Print,
    name: &str,
    heap: Lent<CELLS, 1, 0>,
    a: usize,
    b: usize,
) -> io::Result<()> {
    both(rt, name, heap, &mut [7; 1], a, b)
}

// Where several hold, the lowest number.
pub fn lowest(rt: &impl Print) -> io::Result<()> {
    let ring = Lent::of([0, VAR + 2, VAR + 1], 3);
    scant(rt, "all from 1 to 4", Lent { trail: [3], ..ring }, 0, 0)?;
    let b = Lent::of(HEAP_B, 4);
    scant(rt, "all from 2 to 4", b.trailing(&[3]), 0, 0)?;
    let two = Lent::of([0, VAR + 1, VAR + 2], 3);
    scant(rt, "all from 3 to 5", two, 3, 1)?;
    scant(rt, "4 and 5", two, 1, 2)?;
    let cyclic = Lent::<6, 1, 0>::of([0, STR + 2, G_1, STR + 2, VAR + 4, VAR + 5], 6);
    both(rt, "5 and 6", cyclic, &mut [7; 73], 1, 1)
}
