// Appending words at the end of a store's used cells.
#![tactic(auto)]

ghost use Rattle.std.specs.Prelude.{◌≡◌, length};
ghost use Rattle.trail.specs.State.{state_of, said_number};
ghost use Rattle.append.specs.Calls.{appending};

use cell::Refusal;
use store::{Cells, LIMIT};
use trail::State;

// The words of a slice into another of the same length. One by one: the library's copy of slices would ask
// the C library for `memmove`, which firmware may lack.
fn copy_words(to: &mut [u64], from: &[u64])
    requires { length to.old ≡ length from.now }
    ensures { to.new ≡ from.now }
{
    for (i, w) in from.iter().enumerate() {
        to[i] = *w;
    }
}

// Adds the words at `top` and answers the old `top`, where they stand; refusals 1, 2, 7 and 9.
#[tactic(auto, unfolding(crate::specs::Calls::appending))]
pub fn append(
    cells: &mut [u64],
    top: &mut usize,
    trail: &[u64],
    trailed: usize,
    marks: &[u64],
    marked: usize,
    words: &[u64],
) -> Result<usize, Refusal>
    ensures { (said_number result, state_of cells.new top.new trail.now trailed marks.now marked) ≡ appending (state_of cells.old top.old trail.now trailed marks.now marked) words.now }
{
    let t = *top;
    let lent = State {
        cells,
        top: t,
        trail,
        trailed,
        marks,
        marked,
    };
    lent.check()?;
    let n = words.len();
    if LIMIT.min(cells.len()) - t < n {
        return Err(Refusal::Room);
    }
    copy_words(&mut cells[t..t + n], words);
    let grown = Cells {
        words: cells,
        top: t + n,
    };
    if grown.good_from(t) {
        *top = t + n;
        return Ok(t);
    }
    store::zero_to(cells, t, t + n);
    Err(Refusal::Words)
}
