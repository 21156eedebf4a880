// Marks on a store: set one, roll back to one, cut those above one.
#![tactic(auto)]

ghost use Rattle.std.specs.Prelude.{◌≡◌, ◌-◌, ◌*◌, ◌<◌, ◌≤◌, length, IfOk};
ghost use Rattle.store.specs.Store.{limit};
ghost use Rattle.trail.specs.State.{state_of, said, said_number, answer_of};
ghost use Rattle.trail.specs.Seen.{Seen};
ghost use Rattle.trail.specs.Rules.{mark_width, mark_top, mark_trail};
ghost use Rattle.marks.specs.Unbind.{unbind, Names};
ghost use Rattle.marks.specs.Calls.{marking, cutting, lowered, roll_check, rolling};
ghost use Rattle.marks.specs.Left.{keeps_left, cells_left, trail_left, LeftGood, Lowers};

use cell::{Kind, Refusal};
use cell_set::CellSet;
use store::{Cells, SET};
use trail::{MARK_WIDTH, State};

// Sets a mark with the present counts and answers its number, from 1; refusals 1, 2 and 7.
#[tactic(auto, unfolding(crate::specs::Calls::marking))]
pub fn mark(
    cells: &[u64],
    top: usize,
    trail: &[u64],
    trailed: usize,
    marks: &mut [u64],
    marked: &mut usize,
) -> Result<usize, Refusal>
    ensures { (said_number result, state_of cells.now top trail.now trailed marks.new marked.new) ≡ marking (state_of cells.now top trail.now trailed marks.old marked.old) }
{
    let m = *marked;
    let lent = State {
        cells,
        top,
        trail,
        trailed,
        marks,
        marked: m,
    };
    lent.check()?;
    if marks.len() / MARK_WIDTH <= m {
        return Err(Refusal::Room);
    }
    // By index: of a slice that is lent as pairs the library does not say what it ends as.
    marks[MARK_WIDTH * m] = top as u64;
    marks[MARK_WIDTH * m + 1] = trailed as u64;
    *marked = m + 1;
    Ok(m + 1)
}

// Drops the marks above `k` and undoes nothing; refusals 1, 2 and 8.
#[tactic(auto, unfolding(crate::specs::Calls::cutting))]
pub fn cut(
    cells: &[u64],
    top: usize,
    trail: &[u64],
    trailed: usize,
    marks: &mut [u64],
    marked: &mut usize,
    k: usize,
) -> Result<(), Refusal>
    ensures { (said result, state_of cells.now top trail.now trailed marks.new marked.new) ≡ cutting (state_of cells.now top trail.now trailed marks.old marked.old) k }
{
    let m = *marked;
    let lent = State {
        cells,
        top,
        trail,
        trailed,
        marks,
        marked: m,
    };
    lent.check()?;
    if m < k {
        return Err(Refusal::Mark);
    }
    store::zero_to(marks, MARK_WIDTH * k, MARK_WIDTH * m);
    *marked = k;
    Ok(())
}

// The set of the cells that the trail names from a place to another.
fn note_named(trail: &[u64], from: usize, to: usize) -> CellSet<SET>
    requires { Names trail.now from to limit }
    ensures { Seen trail.now from result to }
{
    let mut freed = CellSet::<SET>::new();
    for e in &trail[from..to] {
        freed.insert(*e as usize);
    }
    freed
}

// Whether the cell at `i` keeps to its row in a store of these cells where those of the set are unbound.
#[tactic(auto, unfolding(crate::specs::Left::keeps_left, crate::specs::Left::row_left))]
fn keeps_left(cells: Cells, freed: &CellSet<SET>, i: usize) -> bool
    requires { i < cells.top }
    ensures { result ≡ keeps_left cells.entry.words.now freed.now cells.entry.top i }
{
    if freed.contains(i) {
        return true;
    }
    let t = cells.top;
    match store::kind_at(cells.words, i) {
        Kind::Var(v) => v < t,
        Kind::Str(f) => f < t && !freed.contains(f),
        Kind::Lis(l) => l < t - 1,
        Kind::Atom { arity, .. } => arity < t - i,
        Kind::Fixnum(_) => true,
        Kind::Bad => false,
    }
}

// Whether each used cell from 1 does.
fn cells_left(cells: Cells, freed: &CellSet<SET>) -> bool
    ensures { result ≡ cells_left cells.entry.words.now freed.now cells.entry.top }
{
    (1..cells.top).all(|i| keeps_left(cells, freed, i))
}

// Whether the first `c` entries of the trail name cells below `t`.
fn trail_left(trail: &[u64], c: usize, t: usize) -> bool
    requires { c ≤ length trail.now }
    ensures { result ≡ trail_left trail.now c t }
{
    trail[..c].iter().all(|e| *e < t as u64)
}

// The counts that a mark has recorded.
#[derive(Clone, Copy)]
struct Counts {
    top: usize,
    trailed: usize,
}

impl Counts {
    // Those of mark `k`.
    fn of_mark(marks: &[u64], k: usize) -> Counts
        requires { (1 ≤ k) × (mark_width * k ≤ length marks.now) }
        ensures { (result.top ≡ mark_top marks.now (k - 1)) × (result.trailed ≡ mark_trail marks.now (k - 1)) }
    {
        let (pairs, _) = marks.as_chunks::<MARK_WIDTH>();
        let [top, trailed] = pairs[k - 1];
        Counts {
            top: top as usize,
            trailed: trailed as usize,
        }
    }
}

// Whether what a rollback to these counts would leave keeps the rules.
#[tactic(auto, unfolding(crate::specs::Left::left_good))]
fn left_good(s: &State, at: Counts) -> bool
    requires { Lowers s.now.cells s.now.top s.now.trail s.now.trailed at.top at.trailed }
    ensures { LeftGood s.now.cells s.now.trail s.now.trailed at.top at.trailed result }
{
    let freed = note_named(s.trail, at.trailed, s.trailed);
    let cells = Cells {
        words: s.cells,
        top: at.top,
    };
    1 <= at.top && cells_left(cells, &freed) && trail_left(s.trail, at.trailed, at.top)
}

// The counts that a rollback to mark `k` goes back to, or why it is refused: 1, 2, 8 or 10.
#[tactic(auto, unfolding(crate::specs::Calls::roll_check))]
fn roll_check(s: &State, k: usize) -> Result<Counts, Refusal>
    ensures answer { answer_of result ≡ roll_check s.now k }
    ensures counts { IfOk result (λ c. (c.top ≡ mark_top s.now.marks (k - 1)) × (c.trailed ≡ mark_trail s.now.marks (k - 1))) }
{
    s.check()?;
    if !(1..=s.marked).contains(&k) {
        return Err(Refusal::Mark);
    }
    let at = Counts::of_mark(s.marks, k);
    if left_good(s, at) {
        Ok(at)
    } else {
        Err(Refusal::Left)
    }
}

// The cells that the trail names from a place to another are unbound again.
pub fn unbind(cells: &mut [u64], trail: &[u64], from: usize, to: usize)
    requires { Names trail.now from to (length cells.old) × Names trail.now from to limit }
    ensures { cells.new ≡ unbind trail.now from (to - from) cells.old }
{
    for e in &trail[from..to] {
        let e = *e as usize;
        cells[e] = cell::var_word(e);
    }
}

// The cells as they were with the counts of a mark.
fn lower(cells: &mut [u64], top: usize, trail: &[u64], trailed: usize, at: Counts)
    requires { Lowers cells.old top trail.now trailed at.top at.trailed }
    ensures { cells.new ≡ lowered cells.old trail.now trailed at.top at.trailed }
{
    unbind(cells, trail, at.trailed, trailed);
    store::zero_to(cells, at.top, top);
}

// Rolls back to mark `k`; refusals 1, 2, 8 and 10.
#[tactic(auto, unfolding(crate::specs::Calls::rolling))]
pub fn rollback(
    cells: &mut [u64],
    top: &mut usize,
    trail: &mut [u64],
    trailed: &mut usize,
    marks: &mut [u64],
    marked: &mut usize,
    k: usize,
) -> Result<(), Refusal>
    ensures { (said result, state_of cells.new top.new trail.new trailed.new marks.new marked.new) ≡ rolling (state_of cells.old top.old trail.old trailed.old marks.old marked.old) k }
{
    let p = *top;
    let q = *trailed;
    let m = *marked;
    let lent = State {
        cells,
        top: p,
        trail,
        trailed: q,
        marks,
        marked: m,
    };
    let at = roll_check(&lent, k)?;
    lower(cells, p, trail, q, at);
    store::zero_to(trail, at.trailed, q);
    store::zero_to(marks, MARK_WIDTH * k, MARK_WIDTH * m);
    *top = at.top;
    *trailed = at.trailed;
    *marked = k;
    Ok(())
}
