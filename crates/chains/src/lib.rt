// Following along chains of Vars with shortcuts: a part of the work buffer remembers, for each used
// cell, a cell further along its chain, so that many cells that lead into one long chain are followed
// in near-linear time in all. Also how many words of that buffer a call wants, and their clearing.
#![tactic(auto)]

ghost use Rattle.std.specs.Prelude.{◌≡◌, ◌<◌, ◌≤◌, length};
ghost use Rattle.store.specs.Store.{limit, end_of};
ghost use Rattle.chains.specs.Chains.{Chained, Onward, Hops, Hopped};
ghost use Rattle.chains.specs.Work.{work_need, cleared};

// Words of work buffer for each used cell.
pub const WORK_FACTOR: usize = 12;

// How many words of work buffer a call wants.
pub fn work_need(top: usize) -> usize
    requires { top ≤ limit }
    ensures { result ≡ work_need top }
{
    WORK_FACTOR * top
}

// The first `n` words become 0.
#[tactic(auto, unfolding(crate::specs::Work::cleared))]
pub fn clear(words: &mut [u64], n: usize)
    requires { n ≤ length words.old }
    ensures { words.new ≡ cleared n words.old }
{
    words[..n].fill(0);
}

// What is remembered of a cell, else one step along its Var. A cleared word, 0, remembers nothing.
fn onward(cells: &[u64], top: usize, hops: &[u64], i: usize) -> usize
    requires { Chained cells.now top × Hops cells.now top hops.now × (1 ≤ i) × (i < top) × (top ≤ length hops.now) }
    ensures { Onward cells.now i result }
{
    match hops[i] {
        0 => store::step_of(cells, i),
        far => far as usize,
    }
}

// The cell where following ends. On the way each second cell remembers the one two looks further.
pub fn end_by(cells: &[u64], top: usize, hops: &mut [u64], at: usize) -> usize
    requires { Chained cells.now top × Hops cells.now top hops.old × (1 ≤ at) × (at < top) × (top ≤ length hops.old) }
    ensures { (result ≡ end_of cells.now top at) × (1 ≤ result) × (result < top) × Hopped cells.now top hops.old hops.new }
{
    let mut cur = at;
    let mut next = onward(cells, top, hops, cur);
    while next != cur {
        let far = onward(cells, top, hops, next);
        hops[cur] = far as u64;
        cur = far;
        next = onward(cells, top, hops, far);
    }
    cur
}
