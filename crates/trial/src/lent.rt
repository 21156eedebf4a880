// The lent words, and calls on them.
use crate::print::{Numbers, Outcome, Told, Words};
use std::fmt;

// Words, and 0 behind them.
fn padded<const N: usize>(words: &[u64]) -> [u64; N] {
    let mut all = [0; N];
    for (x, w) in all.iter_mut().zip(words) {
        *x = *w;
    }
    all
}

// Cells, a trail and marks, with how much of each is used.
#[derive(Clone, Copy)]
pub struct Lent<const CELLS: usize, const ENTRIES: usize, const MARKS: usize> {
    pub cells: [u64; CELLS],
    pub top: usize,
    pub trail: [u64; ENTRIES],
    pub trailed: usize,
    pub marks: [u64; MARKS],
    pub marked: usize,
}

impl<const CELLS: usize, const ENTRIES: usize, const MARKS: usize> Lent<CELLS, ENTRIES, MARKS> {
    // These cells, with no trail entry and no mark.
    pub fn of(cells: [u64; CELLS], top: usize) -> Self {
        Lent {
            cells,
            top,
            trail: [0; ENTRIES],
            trailed: 0,
            marks: [0; MARKS],
            marked: 0,
        }
    }

    // Just these cells, and 0 behind them.
    pub fn holding(cells: &[u64]) -> Self {
        Lent::of(padded(cells), cells.len())
    }

    // With these trail entries instead.
    pub fn trailing(self, entries: &[u64]) -> Self {
        Lent {
            trail: padded(entries),
            trailed: entries.len(),
            ..self
        }
    }

    // With these marks instead, two words each.
    pub fn marking(self, marks: &[u64]) -> Self {
        Lent {
            marks: padded(marks),
            marked: marks.len() / 2,
            ..self
        }
    }

    // Appends words; tells where the first stands.
    pub fn append(&mut self, words: &[u64]) -> Outcome<Told<usize>> {
        let mut at = 0;
        let r = engine::trisculap_append(
            &mut self.cells,
            &mut self.top,
            &self.trail,
            self.trailed,
            &self.marks,
            self.marked,
            words,
            &mut at,
        );
        Outcome::of(r, Told("at", at))
    }

    // Sets a mark; tells its number.
    pub fn mark(&mut self) -> Outcome<Told<usize>> {
        let mut number = 0;
        let r = engine::trisculap_mark(
            &self.cells,
            self.top,
            &self.trail,
            self.trailed,
            &mut self.marks,
            &mut self.marked,
            &mut number,
        );
        Outcome::of(r, Told("mark", number))
    }

    // Drops the marks above `k`.
    pub fn cut(&mut self, k: usize) -> Outcome<&'static str> {
        let r = engine::trisculap_cut(
            &self.cells,
            self.top,
            &self.trail,
            self.trailed,
            &mut self.marks,
            &mut self.marked,
            k,
        );
        Outcome::of(r, "done")
    }

    // Rolls back to mark `k`.
    pub fn rollback(&mut self, k: usize) -> Outcome<&'static str> {
        let r = engine::trisculap_rollback(
            &mut self.cells,
            &mut self.top,
            &mut self.trail,
            &mut self.trailed,
            &mut self.marks,
            &mut self.marked,
            k,
        );
        Outcome::of(r, "done")
    }
}

// All cells and all trail entries.
impl<const CELLS: usize, const ENTRIES: usize, const MARKS: usize> fmt::Display
    for Lent<CELLS, ENTRIES, MARKS> {
    fn fmt<W: fmt::Write>(&self, f: &mut fmt::Formatter<W>) -> fmt::Result {
        writeln!(f, "  cells{}", Words(&self.cells))?;
        write!(f, "  trail{}", Numbers(&self.trail))
    }
}

// The store check, with no trail and no marks.
pub fn check(cells: &[u64], top: usize) -> Outcome<&'static str> {
    let r = engine::trisculap_check(cells, top, &[], 0, &[], 0);
    Outcome::of(r, "done")
}

// The cycle verdict.
pub fn cyclic(cells: &[u64], top: usize, root: usize) -> Outcome<&'static str> {
    let mut yes = 0;
    let r = engine::trisculap_cyclic(cells, top, root, &mut yes);
    Outcome::of(r, if yes == 1 { "cyclic" } else { "not cyclic" })
}
