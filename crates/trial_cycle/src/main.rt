// Runs the cycle verdict on cycles through each position, on shared and overlapping terms, and on
// stores as large as they get.
#![tactic(auto)]

ghost use Rattle.std.specs.Prelude.{◌+◌, ◌<◌};
ghost use Rattle.store.specs.Store.{limit};

use std::io;
use store::LIMIT;
use trial::{A, F_2, G_1, HEAP_B, LIS, NIL, STR, VAR, cyclic, doubled, rise};

const H_255: u64 = 0x1000_00FF_0000_0068;

// Structures, closed through each position or not.
fn structures(rt: &impl Print) -> io::Result<()> {
    println!(rt; "heap B at 1: {}", cyclic(&HEAP_B, 4, 1))?;
    println!(rt; "heap B at 3: {}", cyclic(&HEAP_B, 4, 3))?;
    let p2 = [0, STR + 2, G_1, STR + 2];
    println!(rt;
        "heap B with cell 3 bound to Str 2, at 1: {}",
        cyclic(&p2, 4, 1)
    )?;
    println!(rt; "the same at 3: {}", cyclic(&p2, 4, 3))?;
    println!(rt;
        "closed through a Var: {}",
        cyclic(&[0, STR + 2, G_1, VAR + 1], 4, 1)
    )?;
    let first = [0, STR + 2, F_2, STR + 2, A];
    println!(rt;
        "f/2 closed through its first argument: {}",
        cyclic(&first, 5, 1)
    )?;
    println!(rt; "its second argument: {}", cyclic(&first, 5, 4))?;
    let second = [0, STR + 2, F_2, A, STR + 2];
    println!(rt;
        "f/2 closed through its second argument: {}",
        cyclic(&second, 5, 1)
    )?;
    println!(rt; "a Str of arity 0: {}", cyclic(&[0, STR + 2, A], 3, 1))
}

// Lists and overlapping pairs, closed or not.
fn lists(rt: &impl Print) -> io::Result<()> {
    println!(rt;
        "a list of two: {}",
        cyclic(&[0, LIS + 2, A, LIS + 4, A, NIL], 6, 1)
    )?;
    let head = [0, LIS + 2, LIS + 2, NIL];
    println!(rt;
        "a pair closed through its first cell: {}",
        cyclic(&head, 4, 1)
    )?;
    let tail = [0, LIS + 2, A, LIS + 2];
    println!(rt;
        "a pair closed through its second cell: {}",
        cyclic(&tail, 4, 1)
    )?;
    let later = [0, LIS + 2, A, LIS + 4, A, LIS + 4];
    println!(rt; "a list that comes to a cycle: {}", cyclic(&later, 6, 1))?;
    println!(rt;
        "pairs that overlap: {}",
        cyclic(&[0, LIS + 2, LIS + 3, A, A], 5, 1)
    )?;
    println!(rt;
        "pairs that overlap, closed: {}",
        cyclic(&[0, LIS + 2, A, LIS + 1], 4, 1)
    )?;
    let apart = [0, LIS + 2, A, NIL, LIS + 4, NIL];
    println!(rt; "a cycle elsewhere in the store: {}", cyclic(&apart, 6, 1))?;
    println!(rt; "the same at the cycle: {}", cyclic(&apart, 6, 4))?;
    let shared = [0, STR + 2, F_2, LIS + 5, LIS + 5, A, NIL];
    println!(rt; "a pair shared by two arguments: {}", cyclic(&shared, 7, 1))
}

// Roots and stores that are refused.
fn refusals(rt: &impl Print) -> io::Result<()> {
    println!(rt; "heap B at 0: {}", cyclic(&HEAP_B, 4, 0))?;
    println!(rt; "heap B at its header: {}", cyclic(&HEAP_B, 4, 2))?;
    println!(rt; "heap B at top: {}", cyclic(&HEAP_B, 4, 4))?;
    println!(rt; "heap B with top 3: {}", cyclic(&HEAP_B, 3, 1))?;
    println!(rt; "Var 2, Var 1: {}", cyclic(&[0, VAR + 2, VAR + 1], 3, 1))
}

// A term of 600 levels with 2 to the 600 paths.
fn doubling(rt: &impl Print) -> io::Result<()> {
    let mut cells = [0; LIMIT];
    cells[1] = STR + 2;
    doubled(&mut cells, 2, 600, A);
    println!(rt;
        "a doubling term of 600 levels: {}",
        cyclic(&cells, 1803, 1)
    )?;
    cells[1802] = G_1;
    cells[1803] = STR + 2;
    println!(rt; "the same, closed at the end: {}", cyclic(&cells, 1804, 1))
}

// A long chain of Vars to its end.
fn chains(rt: &impl Print) -> io::Result<()> {
    let mut cells = [0; LIMIT];
    rise(&mut cells, VAR, 1, 4000);
    cells[4000] = VAR + 4000;
    println!(rt; "a chain of 4,000 Vars: {}", cyclic(&cells, 4001, 1))?;
    cells[4000] = STR + 4001;
    cells[4001] = G_1;
    cells[4002] = VAR + 1;
    println!(rt;
        "the same, closed through a structure: {}",
        cyclic(&cells, 4003, 1)
    )
}

// A chain to a structure in the last cells of as many as `top`, which closes it or not.
fn closed_at(rt: &impl Print, top: usize) -> io::Result<()>
    requires { (3 < top) × (top < limit) }
{
    let mut cells = [0; LIMIT];
    rise(&mut cells, VAR, 1, top - 3);
    cells[top - 3] = STR + (top - 2) as u64;
    cells[top - 2] = G_1;
    cells[top - 1] = VAR + 1;
    println!(rt;
        "{top} cells, closed at the last: {}",
        cyclic(&cells, top, 1)
    )?;
    cells[top - 1] = A;
    println!(rt; "the same, not closed: {}", cyclic(&cells, top, 1))
}

// Structures that share all their arguments.
fn wide(rt: &impl Print) -> io::Result<()> {
    let mut cells = [0; LIMIT];
    cells[1..3000].fill(STR + 3000);
    cells[3000] = H_255;
    cells[3001..3256].fill(A);
    println!(rt;
        "2,999 structures of one header of arity 255: {}",
        cyclic(&cells, 3256, 1)
    )?;
    cells[3255] = STR + 3000;
    println!(rt;
        "the same, closed through its last argument: {}",
        cyclic(&cells, 3256, 1)
    )
}

fn main(rt: HostRuntime) -> io::Result<()> {
    structures(&rt)?;
    lists(&rt)?;
    refusals(&rt)?;
    doubling(&rt)?;
    chains(&rt)?;
    closed_at(&rt, 256)?;
    closed_at(&rt, 257)?;
    wide(&rt)
}
