// The copy of a term into the free part of the store: new cells from `top` on, scanned upwards, with
// tables in the work buffer of what was copied already.
#![tactic(auto)]

ghost use Rattle.std.specs.Prelude.{◌≡◌, true, ℕ, ◌+◌, ◌<◌, ◌≤◌, leb, length, get_or, set};
ghost use Rattle.cell.specs.declared.Kind.TheVariants.{Var, Str, Lis};
ghost use Rattle.store.specs.Store.{limit, term_at, end_of};
ghost use Rattle.trail.specs.State.{said_number};
ghost use Rattle.append.specs.Calls.{room_for};
ghost use Rattle.cycle.specs.Kids.{arity_at};
ghost use Rattle.cycle.specs.Room.{room_of};
ghost use Rattle.chains.specs.Chains.{Chained, Hops};
ghost use Rattle.chains.specs.Work.{work_need, cleared};
ghost use Rattle.copy.specs.Rules.{copy_run, end_word, home, run, act, scanned, scan, copied};
ghost use Rattle.copy.specs.Calls.{lent, copying};
ghost use Rattle.copy.specs.Inv.{Given};
ghost use Rattle.copy.specs.Buffer.{hops_of, used_words, Kept};
ghost use Rattle.copy.specs.Asks.{Follows};
ghost use Rattle.copy.specs.Followed.{Ended, Followed};

use cell::{Cell, Kind, Refusal};
use store::{Cells, LIMIT, Store};

// A word into the free part of the cells, which begins at the old top.
fn put_at(cells: &mut [u64], top: usize, p: usize, w: u64)
    requires { (top ≤ p) × (p < length cells.old) }
    ensures { cells.new ≡ set cells.old p w }
{
    let free = &mut cells[top..];
    free[p - top] = w;
}

// The run of `n` old cells at `b` to the new cells at `to`. Word by word: most runs are too short to gain
// by the library's copies of slices.
fn copy_run(cells: &mut [u64], top: usize, b: usize, to: usize, n: usize)
    requires { (b + n ≤ top) × (top ≤ to) × (to + n ≤ length cells.old) }
    ensures { cells.new ≡ copy_run n cells.old b to }
{
    for k in 0..n {
        let w = cells[b + k];
        put_at(cells, top, to + k, w);
    }
}

// A copy that is being made: the new cells stand from `top` up to `end`. The work buffer holds three
// tables of what was copied, and behind them what is remembered of chains of Vars. Its words are lent
// by the C caller, so 0, not `None`, says that nothing is noted.
#[derive(Drop)]
struct Copier<'a> {
    cells: &'a mut [u64],
    work: &'a mut [u64],
    top: usize,
    end: usize,
    ghost low: { top ≤ end },
    ghost room: { end ≤ length cells.now },
    ghost high: { end ≤ limit },
    ghost wide: { used_words top ≤ length work.now },
}

impl Copier<'_> {
    ghost use Rattle.copy.specs.Copier.{Goes, state, tabled, CanRun, CanAct, Next};

    // A copy of the run of `n` old cells at `b` is added at the end, unless one is noted at `i`.
    fn add_run(&mut self, i: usize, b: usize, n: usize)
        requires { CanRun self.old i b n }
        ensures goes { Goes self.old self.new }
        ensures state { state self.new ≡ run (state self.old) i b n }
        ensures small { get_or self.new.work.now i 0 ≤ limit }
    {
        if self.work[i] == 0 {
            copy_run(self.cells, self.top, b, self.end, n);
            self.work[i] = self.end as u64;
            self.end += n;
        }
    }

    // A copy of the structure is added at the end, unless one is noted; only then is its arity read.
    fn add_structure(&mut self, f: usize)
        requires { CanRun self.old f f (1 + arity_at self.old.cells.now f) }
        ensures goes { Goes self.old self.new }
        ensures state { state self.new ≡ run (state self.old) f f (1 + arity_at self.old.cells.now f) }
        ensures small { get_or self.new.work.now f 0 ≤ limit }
    {
        if self.work[f] == 0 {
            // Lent as `&mut`, so that the proof knows that the call leaves them as they are.
            let cells = &mut *self.cells;
            let a = cycle::arity_at(cells, f);
            self.add_run(f, f, 1 + a);
        }
    }

    // The home of an unbound variable: `p`, unless one is noted at `at`.
    fn reinstantiate_var(&mut self, at: usize, p: usize) -> usize
        requires { (at < used_words self.old.top) × (p ≤ limit) × (get_or self.old.work.now at 0 ≤ limit) }
        ensures goes { Goes self.old self.new }
        ensures state { state self.new ≡ home (state self.old) at p }
        ensures noted { result ≡ get_or self.new.work.now at 0 }
        ensures small { result ≤ limit }
    {
        if self.work[at] == 0 {
            self.work[at] = p as u64;
        }
        self.work[at] as usize
    }

    // An unbound Var at the scanned cell `p` becomes one that names its home.
    fn copy_var(&mut self, p: usize, v: usize)
        requires { CanAct self.old p (Var v) }
        ensures goes { Goes self.old self.new }
        ensures state { (w : ℕ) → state self.new ≡ act self.old.top (state self.old) p w (Var v) }
    {
        let at = self.top + self.top + v;
        let h = self.reinstantiate_var(at, p);
        put_at(self.cells, self.top, p, Kind::Var(h).word());
    }

    // A Str at `p` names the copy of its functor cell and the arguments behind it.
    fn copy_structure(&mut self, p: usize, f: usize)
        requires { CanAct self.old p (Str f) }
        ensures goes { Goes self.old self.new }
        ensures state { (w : ℕ) → state self.new ≡ act self.old.top (state self.old) p w (Str f) }
    {
        self.add_structure(f);
        let g = self.work[f] as usize;
        put_at(self.cells, self.top, p, Kind::Str(g).word());
    }

    // A Lis at `p` names the copy of its pair.
    fn copy_list(&mut self, p: usize, l: usize)
        requires { CanAct self.old p (Lis l) }
        ensures goes { Goes self.old self.new }
        ensures state { (w : ℕ) → state self.new ≡ act self.old.top (state self.old) p w (Lis l) }
    {
        let i = self.top + l;
        self.add_run(i, l, 2);
        let m = self.work[i] as usize;
        put_at(self.cells, self.top, p, Kind::Lis(m).word());
    }

    // What the scanned cell `p` becomes, by the cell where following it ends.
    fn copy_cell(&mut self, p: usize, c: Cell)
        requires { Ended self.old.cells.now c.at c.kind × CanAct self.old p c.kind }
        ensures goes { Goes self.old self.new }
        ensures state { state self.new ≡ act self.old.top (state self.old) p (get_or self.old.cells.now c.at 0) c.kind }
    {
        match c.kind {
            Kind::Var(v) => self.copy_var(p, v),
            Kind::Str(f) => self.copy_structure(p, f),
            Kind::Lis(l) => self.copy_list(p, l),
            _ => {
                let w = self.cells[c.at];
                put_at(self.cells, self.top, p, w);
            }
        }
    }

    // Where following an old cell ends, with what is remembered behind the tables.
    fn end_from(&mut self, at: usize) -> usize
        requires { Chained self.old.cells.now self.old.top × Hops self.old.cells.now self.old.top (hops_of self.old.top self.old.work.now) × (1 ≤ at) × (at < self.old.top) }
        ensures goes { Goes self.old self.new }
        ensures untouched { (self.new.cells.now ≡ self.old.cells.now) × (self.new.end ≡ self.old.end) }
        ensures end { (result ≡ end_of self.old.cells.now self.old.top at) × (result < self.old.top) }
        ensures followed { Followed self.old.cells.now self.old.top self.old.work.now self.new.work.now }
    {
        let top = self.top;
        // Lent as `&mut`, so that the proof knows that the call leaves them as they are.
        let cells = &mut *self.cells;
        let hops = &mut self.work[top + top + top..];
        chains::end_by(cells, top, hops, at)
    }

    // The cell where following the scanned cell `p` ends.
    fn end_cell(&mut self, p: usize) -> Cell
        requires { (p < self.old.end) × Follows self.old.cells.now self.old.work.now self.old.top p }
        ensures goes { Goes self.old self.new }
        ensures untouched { (self.new.cells.now ≡ self.old.cells.now) × (self.new.end ≡ self.old.end) }
        ensures ended { Ended self.old.cells.now result.at result.kind }
        ensures word { get_or self.old.cells.now result.at 0 ≡ end_word self.old.cells.now self.old.top (get_or self.old.cells.now p 0) }
        ensures followed { Followed self.old.cells.now self.old.top self.old.work.now self.new.work.now }
    {
        let kind = Kind::from(self.cells[p]);
        match kind {
            Kind::Var(v) => {
                let at = self.end_from(v);
                Cell {
                    at,
                    kind: Kind::from(self.cells[at]),
                }
            }
            _ => Cell { at: p, kind },
        }
    }

    // One cell of the scan.
    fn scan_cell(&mut self, p: usize)
        requires { Next self.old p × (p < self.old.end) }
        ensures goes { Goes self.old self.new }
        ensures state { tabled self.new ≡ scanned self.old.top (tabled self.old) p }
        ensures next { Next self.new (p + 1) }
        ensures kept { Kept self.old.top self.old.work.now self.new.work.now }
    {
        let c = self.end_cell(p);
        self.copy_cell(p, c);
    }

    // The scan of the new cells, from the first on.
    fn copy_term_impl(&mut self)
        requires { (self.old.end ≡ self.old.top + 1) × Next self.old self.old.top }
        ensures goes { Goes self.old self.new }
        ensures state { tabled self.new ≡ scan self.old.top limit self.old.top (tabled self.old) }
        ensures kept { Kept self.old.top self.old.work.now self.new.work.now }
    {
        let mut p = self.top;
        // No range: a turn may add cells at the end.
        while p < self.end {
            self.scan_cell(p);
            p += 1;
        }
    }
}

// The copy, past the refusals: the words that it uses are cleared before it, and after it all that
// were asked for.
fn copy_root(cells: &mut [u64], work: &mut [u64], top: usize, root: usize) -> usize
    requires { Given cells.old top root × (work_need top ≤ length work.old) }
    ensures { (cells.new ≡ (copied cells.old top root).cells) × (result ≡ (copied cells.old top root).end) × (work.new ≡ cleared (work_need top) work.old) }
{
    chains::clear(work, top + top + top + top);
    let w = cells[root];
    put_at(cells, top, top, w);
    let mut copier = Copier {
        cells: &mut *cells,
        work: &mut *work,
        top,
        end: top + 1,
    };
    copier.copy_term_impl();
    let end = copier.end;
    chains::clear(work, chains::work_need(top));
    end
}

// How many cells more pass neither the limit nor the lent cells.
fn free_cells(cells: Cells) -> usize
    ensures { (result ≤ limit) × ((n : ℕ) → leb n result ≡ room_for cells.entry.words.now cells.entry.top n) }
{
    cells.words.len().min(LIMIT) - cells.top
}

// Whether there is room for the copy. Where there is for the most that any copy can need, what this
// one needs is not counted; with fewer than two cells free for three in use that is not tried.
fn copy_fits(store: Store, root: usize) -> bool
    requires { term_at store.cells.words.now store.cells.top root ≡ true }
    ensures { result ≡ room_for store.entry.cells.words.now store.entry.cells.top (room_of store.entry.cells.words.now store.entry.cells.top root) }
{
    let free = free_cells(store.cells);
    if 2 * store.cells.top <= 3 * free && cycle::most_room(store) <= free {
        return true;
    }
    cycle::room_within(store, root, free)
}

// Copies the term at `root` to the cells from `top` on and answers the old `top`; refusals 1, 3, 4
// and 7.
pub fn copy_term(
    cells: &mut [u64],
    top: &mut usize,
    work: &mut [u64],
    root: usize,
) -> Result<usize, Refusal>
    ensures { (said_number result, lent cells.new top.new work.new) ≡ copying (lent cells.old top.old work.old) root }
{
    let old_top = *top;
    let store = Store::new(cells, old_top)?;
    if !store.cells.term_at(root) {
        return Err(Refusal::Root);
    }
    if work.len() < chains::work_need(old_top) {
        return Err(Refusal::Work);
    }
    if !copy_fits(store, root) {
        return Err(Refusal::Room);
    }
    *top = copy_root(cells, work, old_top, root);
    Ok(old_top)
}
