// Cells alone: the bench lines, each rule of a well-formed store, following, numbers.
use std::io;
use trial::{A, F_2, FIXNUM, G_1, HEAP_B, LIS, Outcome, STR, Told, VAR, Word, check};

// The stores of the bench that are accepted and refused.
pub fn bench_lines(rt: &impl Print) -> io::Result<()> {
    println!(rt; "Var 2, Var 1: {}", check(&[0, VAR + 2, VAR + 1], 3))?;
    println!(rt; "Str 2, f/2, a, top 4: {}", check(&[0, STR + 2, F_2, A], 4))?;
    let long = [0, STR + 2, F_2, A, A];
    println!(rt; "Str 2, f/2, a, a, top 5: {}", check(&long, 5))?;
    println!(rt; "the same, top 4: {}", check(&long, 4))?;
    println!(rt; "heap B, top 4: {}", check(&HEAP_B, 4))?;
    println!(rt; "heap B, top 0: {}", check(&HEAP_B, 0))?;
    println!(rt; "heap B, top 3: {}", check(&HEAP_B, 3))?;
    println!(rt; "heap B, top 5: {}", check(&HEAP_B, 5))?;
    println!(rt; "heap B, the largest top: {}", check(&HEAP_B, usize::MAX))
}

// The store check of all these cells.
fn whole(cells: &[u64]) -> Outcome<&'static str> {
    check(cells, cells.len())
}

// A store that breaks each rule, beside some that just keep it.
pub fn cell_rules(rt: &impl Print) -> io::Result<()> {
    println!(rt; "cell 0 not 0: {}", whole(&[VAR, A]))?;
    println!(rt; "a word past top: {}", check(&[0, A, A], 2))?;
    println!(rt; "Var 0: {}", whole(&[0, VAR]))?;
    println!(rt;
        "a Var that names a header: {}",
        whole(&[0, VAR + 2, G_1, A])
    )?;
    let no_atom = whole(&[0, STR + 2, A, STR + 1]);
    println!(rt; "Str that names an Atom of arity 0, Str that names a Str: {no_atom}")?;
    let atom = whole(&[0, STR + 2, A]);
    println!(rt; "Str that names an Atom of arity 0: {atom}")?;
    println!(rt; "Lis 2, a, a: {}", whole(&[0, LIS + 2, A, A]))?;
    println!(rt; "Lis 2, a: {}", whole(&[0, LIS + 2, A]))?;
    println!(rt;
        "pairs that overlap: {}",
        whole(&[0, LIS + 2, A, A, LIS + 3])
    )?;
    println!(rt; "a pair with a header: {}", whole(&[0, LIS + 2, A, G_1, A]))?;
    println!(rt; "a header in a run: {}", whole(&[0, F_2, G_1, A, A]))?;
    println!(rt; "mark bit set: {}", whole(&[0, A + 0x0100_0000_0000_0000]))?;
    println!(rt;
        "forwarding bit set: {}",
        whole(&[0, A + 0x0200_0000_0000_0000])
    )?;
    println!(rt;
        "bit 40 of an Atom set: {}",
        whole(&[0, A + 0x0000_0100_0000_0000])
    )
}

// The word at the end of the Vars from a cell.
fn follow(cells: &[u64], top: usize, at: usize) -> Outcome<Told<Word>> {
    let mut word = 0;
    let r = engine::trisculap_follow(cells, top, at, &mut word);
    Outcome::of(r, Told("word", Word(word)))
}

// Following from each kind of cell.
pub fn follows(rt: &impl Print) -> io::Result<()> {
    let cells = [0, VAR + 2, VAR + 3, VAR + 3, VAR + 5, FIXNUM + 7, G_1, A];
    println!(rt; "follow 1: {}", follow(&cells, 8, 1))?;
    println!(rt; "follow 3: {}", follow(&cells, 8, 3))?;
    println!(rt; "follow 4: {}", follow(&cells, 8, 4))?;
    println!(rt; "follow 0: {}", follow(&cells, 8, 0))?;
    println!(rt; "follow top: {}", follow(&cells, 8, 8))?;
    println!(rt; "follow a header: {}", follow(&cells, 8, 6))?;
    println!(rt;
        "follow in a store that is not well formed: {}",
        follow(&cells, 7, 1)
    )
}

// The cell of a number.
fn number(n: i64) -> Outcome<Told<Word>> {
    let mut word = 0;
    let r = engine::trisculap_number(n, &mut word);
    Outcome::of(r, Told("word", Word(word)))
}

// The least and the greatest number that has a cell, and the ones past them.
pub fn numbers(rt: &impl Print) -> io::Result<()> {
    println!(rt; "2^55 - 1: {}", number(0x007F_FFFF_FFFF_FFFF))?;
    println!(rt; "2^55: {}", number(0x0080_0000_0000_0000))?;
    println!(rt; "-2^55: {}", number(-0x0080_0000_0000_0000))?;
    println!(rt; "-2^55 - 1: {}", number(-0x0080_0000_0000_0001))?;
    println!(rt; "-1: {}", number(-1))?;
    println!(rt; "0: {}", number(0))
}
