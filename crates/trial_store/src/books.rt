// The rules of the trail and of the marks, on one store with a cell of each kind.
use std::io;
use trial::{A, FIXNUM, G_1, Outcome, STR, VAR};

// The store check with these trail entries and marks.
fn check(trail: &[u64], trailed: usize, marks: &[u64], marked: usize) -> Outcome<&'static str> {
    let cells = [0, VAR + 2, VAR + 2, A, STR + 5, G_1, FIXNUM + 1];
    let r = engine::trisculap_check(&cells, 7, trail, trailed, marks, marked);
    Outcome::of(r, "done")
}

// With this trail and no marks.
fn trail(words: &[u64], trailed: usize) -> Outcome<&'static str> {
    check(words, trailed, &[], 0)
}

// Trails that keep each rule, and that break it.
pub fn trails(rt: &impl Print) -> io::Result<()> {
    println!(rt; "trail empty: {}", trail(&[0, 0], 0))?;
    println!(rt; "trail of two bound cells: {}", trail(&[1, 3], 2))?;
    println!(rt; "trail entry twice: {}", trail(&[3, 3], 2))?;
    println!(rt; "trail entry twice, apart: {}", trail(&[1, 3, 1], 3))?;
    println!(rt; "trail entry 0: {}", trail(&[0, 0], 1))?;
    println!(rt; "trail entry at top: {}", trail(&[7, 0], 1))?;
    println!(rt; "trail entry of all bits: {}", trail(&[u64::MAX, 0], 1))?;
    println!(rt; "trail entry of an unbound Var: {}", trail(&[2, 0], 1))?;
    println!(rt; "trail entry of a header: {}", trail(&[5, 0], 1))?;
    println!(rt; "word past the trail count: {}", trail(&[1, 3], 1))?;
    println!(rt; "trail count past its length: {}", trail(&[1, 3], 3))?;
    println!(rt; "largest trail count: {}", trail(&[1, 3], usize::MAX))
}

// With two trail entries and these marks.
fn mark(words: &[u64], marked: usize) -> Outcome<&'static str> {
    check(&[1, 3], 2, words, marked)
}

// Marks that keep each rule, and that break it.
pub fn marks(rt: &impl Print) -> io::Result<()> {
    println!(rt; "no marks: {}", mark(&[0, 0], 0))?;
    println!(rt; "mark of the present counts: {}", mark(&[7, 2], 1))?;
    println!(rt; "marks that rise: {}", mark(&[3, 1, 7, 2], 2))?;
    println!(rt; "marks alike: {}", mark(&[3, 1, 3, 1], 2))?;
    println!(rt; "mark of 0: {}", mark(&[0, 0], 1))?;
    println!(rt; "mark tops that fall: {}", mark(&[5, 1, 3, 1], 2))?;
    println!(rt; "mark trail counts that fall: {}", mark(&[3, 2, 7, 1], 2))?;
    println!(rt; "mark above top: {}", mark(&[8, 2], 1))?;
    println!(rt; "mark above the trail count: {}", mark(&[7, 3], 1))?;
    println!(rt; "word past the marks: {}", mark(&[3, 1, 7, 2], 1))?;
    println!(rt; "spare mark word of 0: {}", mark(&[3, 1, 0], 1))?;
    println!(rt; "spare mark word of 1: {}", mark(&[3, 1, 1], 1))?;
    println!(rt; "two marks in three words: {}", mark(&[3, 1, 0], 2))?;
    println!(rt; "largest mark count: {}", mark(&[3, 1], usize::MAX))
}
