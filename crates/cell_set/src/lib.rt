// A set of cells: a table with a bit for each, in words of 64. A cell whose bit is 1 is in the set.
#![tactic(auto)]

ghost use Rattle.std.specs.Prelude.{◌≡◌, ◌*◌, ◌<◌, eqb, length, replicate};
ghost use Rattle.cell_set.specs.Table.{bit_at, noting};

use std::marker::Model;

// Whether a cell is noted in a table, of any length that is enough.
pub fn is_noted(table: &[u64], i: usize) -> bool
    requires { i < 64 * length table.now }
    ensures { result ≡ eqb (bit_at table.now i) 1 }
{
    (table[i / 64] >> (i % 64)) & 1 == 1
}

// Notes a cell in it.
pub fn note(table: &mut [u64], i: usize)
    requires { i < 64 * length table.old }
    ensures { table.new ≡ noting table.old i }
{
    let bit: u64 = 1 << (i % 64);
    table[i / 64] |= bit;
}

// A set of the first 64 cells for each word. In a contract it is the list of its words.
#[derive(Drop)]
pub struct CellSet<const WORDS: usize> {
    table: [u64; WORDS],
}

impl<const WORDS: usize> Model for CellSet<WORDS> {
    ghost use Rattle.std.specs.Prelude.{List, ℕ};

    ghost Value = { List ℕ };

    ghost view = { λ s. s.table };
}

impl<const WORDS: usize> CellSet<WORDS> {
    // No cell is in it.
    pub fn new() -> Self
        ensures { result ≡ replicate WORDS 0 }
    {
        CellSet { table: [0; WORDS] }
    }

    // Whether a cell is in it.
    pub fn contains(&self, i: usize) -> bool
        requires { i < 64 * WORDS }
        ensures { result ≡ eqb (bit_at self.now i) 1 }
    {
        is_noted(&self.table, i)
    }

    // Puts a cell into it.
    pub fn insert(&mut self, i: usize)
        requires { i < 64 * WORDS }
        ensures { self.new ≡ noting self.old i }
    {
        note(&mut self.table, i)
    }
}
