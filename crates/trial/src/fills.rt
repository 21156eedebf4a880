// Large terms, in as many cells as a store may use.
ghost use Rattle.std.specs.Prelude.{◌+◌, ◌*◌, ◌<◌};
ghost use Rattle.store.specs.Store.{limit};

use crate::{F_2, STR};
use store::LIMIT;

// Each cell from one to before another is a tag with the number of the next cell: by index, which is what
// is written.
pub fn rise(cells: &mut [u64; LIMIT], tag: u64, from: usize, to: usize)
    requires { to < limit }
{
    for i in from..to {
        cells[i] = tag | (i + 1) as u64;
    }
}

// Level k of f/2 has its header at `at` + 3k, and both arguments are a Str of the next level; behind
// the last is a word.
pub fn doubled(cells: &mut [u64; LIMIT], at: usize, levels: usize, end: u64)
    requires { at + 3 * levels < limit }
{
    for k in 0..levels {
        let h = at + 3 * k;
        let next = STR | (h + 3) as u64;
        cells[h..h + 3].copy_from_slice(&[F_2, next, next]);
    }
    cells[at + 3 * levels] = end;
}
