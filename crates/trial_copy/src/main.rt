// Runs the copy on the bench heaps, on shared, overlapping and cyclic terms, with just enough room
// and with too little, and prints the answer, all cells and how much of the work buffer is 0.
#![tactic(auto)]

use std::{fmt, io};
use trial::{A, F_2, FIXNUM, G_1, HEAP_B, LIS, Lent, NIL, Outcome, STR, Told, VAR, Words, zeros};

// Cells with no trail.
type Heap<const CELLS: usize> = Lent<CELLS, 0, 0>;

// What a copy answered, the cells after it, and how many work words at the start are 0.
#[derive(Clone, Copy)]
struct Copied<const CELLS: usize> {
    answer: Outcome<Told<usize>>,
    heap: Heap<CELLS>,
    zeros: usize,
}

impl<const CELLS: usize> fmt::Display for Copied<CELLS> {
    fn fmt<W: fmt::Write>(&self, f: &mut fmt::Formatter<W>) -> fmt::Result {
        let Copied {
            answer,
            heap,
            zeros,
        } = self;
        writeln!(f, "{answer}, top {}, work words 0: {zeros}", heap.top)?;
        write!(f, "  cells{}", Words(&heap.cells))
    }
}

// Copies the term at the root.
fn copy_in<const CELLS: usize>(
    mut heap: Heap<CELLS>,
    work: &mut [u64],
    root: usize,
) -> Copied<CELLS> {
    let mut at = 0;
    let r = engine::trisculap_copy(&mut heap.cells, &mut heap.top, work, root, &mut at);
    Copied {
        answer: Outcome::of(r, Told("at", at)),
        heap,
        zeros: zeros(work),
    }
}

// With a work buffer of 120 words that are not 0.
fn copy_at<const CELLS: usize>(heap: Heap<CELLS>, root: usize) -> Copied<CELLS> {
    copy_in(heap, &mut [7; 120], root)
}

// The term at 1 of these cells, with 0 behind them.
fn copy<const CELLS: usize>(cells: &[u64]) -> Copied<CELLS> {
    copy_at(Lent::holding(cells), 1)
}

// The heaps of the bench.
fn bench_heaps(rt: &impl Print) -> io::Result<()> {
    println!(rt; "heap B at 1: {}", copy::<8>(&HEAP_B))?;
    let p10 = [0, STR + 2, F_2, LIS + 5, LIS + 5, A, NIL];
    println!(rt; "a pair shared by two arguments: {}", copy::<13>(&p10))?;
    let both = [0, LIS + 2, LIS + 4, STR + 4, A, NIL];
    println!(rt;
        "an atom cell that is a structure and a pair's first cell: {}",
        copy::<12>(&both)
    )
}

// Unbound, shared and bound variables.
fn variables(rt: &impl Print) -> io::Result<()> {
    let pair = [0, STR + 2, F_2, LIS + 5, LIS + 5, VAR + 5, VAR + 6];
    println!(rt; "a shared pair of two unbound cells: {}", copy::<13>(&pair))?;
    let twice = [0, STR + 2, F_2, VAR + 5, VAR + 5, VAR + 5];
    println!(rt; "a variable named twice: {}", copy::<11>(&twice))?;
    let chain = [0, VAR + 2, VAR + 3, VAR + 4, FIXNUM + 9];
    println!(rt; "a chain to a number: {}", copy::<7>(&chain))?;
    println!(rt; "an unbound variable: {}", copy::<4>(&[0, VAR + 1]))
}

// Terms without an end.
fn cyclic(rt: &impl Print) -> io::Result<()> {
    println!(rt; "g(g(g(..))): {}", copy::<8>(&[0, STR + 2, G_1, STR + 2]))?;
    println!(rt;
        "a list without an end: {}",
        copy::<8>(&[0, LIS + 2, A, LIS + 2])
    )?;
    println!(rt;
        "closed through a Var: {}",
        copy::<8>(&[0, STR + 2, G_1, VAR + 1])
    )
}

// Pairs and structures that share cells.
fn overlapping(rt: &impl Print) -> io::Result<()> {
    println!(rt;
        "pairs that overlap: {}",
        copy::<11>(&[0, LIS + 2, LIS + 3, A, NIL])
    )?;
    let arguments = [0, LIS + 3, F_2, STR + 2, A];
    println!(rt;
        "a pair in a structure's arguments: {}",
        copy::<11>(&arguments)
    )
}

// Just enough cells and work words, too few of each, and roots and stores that are refused.
fn rooms(rt: &impl Print) -> io::Result<()> {
    println!(rt; "just enough cells: {}", copy::<7>(&HEAP_B))?;
    println!(rt; "one cell short: {}", copy::<6>(&HEAP_B))?;
    let full = [0, STR + 2, G_1, VAR + 3, A, A, A];
    println!(rt; "just enough in a store nearly full: {}", copy::<10>(&full))?;
    let shared = [0, STR + 2, F_2, LIS + 5, LIS + 5, A, NIL];
    println!(rt; "a shared pair, one cell short: {}", copy::<12>(&shared))?;
    let b = Heap::<7>::holding(&HEAP_B);
    println!(rt; "just enough work words: {}", copy_in(b, &mut [7; 48], 1))?;
    println!(rt; "one work word short: {}", copy_in(b, &mut [7; 47], 1))?;
    println!(rt; "at 0: {}", copy_at(b, 0))?;
    println!(rt; "at a header: {}", copy_at(b, 2))?;
    println!(rt; "with top 3: {}", copy_at(Heap { top: 3, ..b }, 1))
}

fn main(rt: HostRuntime) -> io::Result<()> {
    bench_heaps(&rt)?;
    variables(&rt)?;
    cyclic(&rt)?;
    overlapping(&rt)?;
    rooms(&rt)
}
