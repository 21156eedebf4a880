// What the trial programs share: words to make stores of, the lent words with the calls on them, and
// how words and answers are printed. A trial program runs the calls on real words and prints what they
// answer and leave; its file `stdout` says what that must be.
#![tactic(auto)]

mod fills;
mod lent;
mod print;

pub use fills::{doubled, rise};
pub use lent::{Lent, check, cyclic};
pub use print::{Numbers, Outcome, Refused, Told, Word, Words, zeros};

// The words that the trials are made of: a tag to add a cell number to, and atoms with their arity.
pub const VAR: u64 = 0x0400_0000_0000_0000;

pub const STR: u64 = 0x0800_0000_0000_0000;

pub const LIS: u64 = 0x0C00_0000_0000_0000;

pub const FIXNUM: u64 = 0x1400_0000_0000_0000;

pub const A: u64 = 0x1000_0000_0000_0061;

pub const B: u64 = 0x1000_0000_0000_0062;

pub const NIL: u64 = 0x1000_0000_0011_0000;

pub const G_1: u64 = 0x1000_0001_0000_0067;

pub const F_2: u64 = 0x1000_0002_0000_0066;

// Heap B of the bench: g(X).
pub const HEAP_B: [u64; 4] = [0, STR + 2, G_1, VAR + 3];
