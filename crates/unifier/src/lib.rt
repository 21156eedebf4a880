// Unification of two cells' terms, plain or with the occurs check, of any words, counts and roots: the
// refusals first, then one run, and after "no unifier" everything as it was.
#![tactic(auto)]

ghost use Rattle.std.specs.Prelude.{◌≡◌, true, not, ◌||◌, ℕ, ◌-◌, ◌<◌, ◌≤◌, leb, length, get_or, Ok};
ghost use Rattle.std.specs.List.{All, list_all, count_by, range_with_len};
ghost use Rattle.store.specs.Store.{limit, kind_at, term_at};
ghost use Rattle.store.specs.Zeros.{zeroed};
ghost use Rattle.trail.specs.Rules.{unbound_at};
ghost use Rattle.trail.specs.State.{state_of, said_yes};
ghost use Rattle.marks.specs.Unbind.{unbind, Names};
ghost use Rattle.cycle.specs.Verdict.{cyclic_at};
ghost use Rattle.unification.specs.Machine.{unified};
ghost use Rattle.unification.specs.Calls.{unbound, answered, check_by, call_by};
ghost use Rattle.unification.specs.Flat.{flat_kind};
ghost use Rattle.unify.specs.Internal.{lent};
ghost use Rattle.unifier.specs.Settling.{Passed};

use cell::{Kind, Refusal};
use store::{Cells, Store};
use trail::State;

// How many of the used cells are unbound Vars.
fn count_unbound(cells: Cells) -> usize
    ensures { result ≡ count_by (unbound_at cells.entry.words.now) (range_with_len 0 cells.entry.top) }
{
    // A loop, which the compiler makes of instructions for two words at once, as it does not of a filter.
    let mut n = 0;
    for i in 0..cells.top {
        if cells.words[i] == cell::var_word(i) {
            n += 1;
        }
    }
    n
}

// Whether the free trail entries are as many as the unbound Vars, which are counted only where there
// are fewer entries than used cells.
#[tactic(auto, using(crate::specs::Count::unbound_counted, crate::specs::Count::unbound_within))]
fn trail_room(cells: Cells, free: usize) -> bool
    ensures { result ≡ leb (unbound cells.entry.words.now cells.entry.top) free }
{
    cells.top <= free || count_unbound(cells) <= free
}

// Whether a call is refused: by 1, 2, 3, 4 or 5, or a checked one by 6.
#[tactic(auto, using(crate::specs::Checks::state_refuses))]
fn check(state: &State, work: &[u64], a: usize, b: usize, checked: bool) -> Result<(), Refusal>
    ensures { result ≡ check_by checked state.now work.now a b }
{
    let store = state.check()?;
    let cells = store.cells;
    if !cells.term_at(a) || !cells.term_at(b) {
        return Err(Refusal::Root);
    }
    if work.len() < chains::work_need(cells.top) {
        return Err(Refusal::Work);
    }
    if !trail_room(cells, state.trail.len() - state.trailed) {
        return Err(Refusal::TrailRoom);
    }
    if checked && cycle::either_cyclic(store, a, b) {
        return Err(Refusal::Cycle);
    }
    Ok(())
}

// Whether a cell holds neither a Str nor a Lis.
fn flat_at(cells: &[u64], i: usize) -> bool
    requires { i < length cells.now }
    ensures { result ≡ flat_kind (kind_at cells.now i) }
{
    !matches!(store::kind_at(cells, i), Kind::Str(_) | Kind::Lis(_))
}

// Whether no cell of these holds a Str or a Lis.
fn all_flat(cells: &[u64], named: &[u64]) -> bool
    requires { All (λ e. e < length cells.now) named.now }
    ensures { result ≡ list_all (λ e. flat_kind (kind_at cells.now e)) named.now }
{
    named.iter().all(|e| flat_at(cells, *e as usize))
}

// Whether a run that said yes has found a unifier: of a checked call, whether the root reaches no cycle
// after it. It did not before, so there is nothing to test where no variable was bound to a Str or a Lis.
fn accepted(store: Store, named: &[u64], root: usize, checked: bool) -> bool
    requires root { term_at store.cells.words.now store.cells.top root ≡ true }
    requires named { All (λ e. e < length store.cells.words.now) named.now }
    ensures { result ≡ (not checked || list_all (λ e. flat_kind (kind_at store.entry.cells.words.now e)) named.now || not (cyclic_at store.entry.cells.words.now store.entry.cells.top root)) }
{
    !checked || all_flat(store.cells.words, named) || !cycle::cyclic(store, root)
}

// The bindings that are trailed from a place to another are taken back.
fn undo(cells: &mut [u64], trail: &mut [u64], from: usize, to: usize)
    requires { Names trail.old from to (length cells.old) × Names trail.old from to limit × ((i : ℕ) → to ≤ i → get_or trail.old i 0 ≡ 0) }
    ensures { (cells.new ≡ unbind trail.old from (to - from) cells.old) × (trail.new ≡ zeroed from trail.old) }
{
    marks::unbind(cells, trail, from, to);
    store::zero_to(trail, from, to);
}

// Unification past the refusals: after a yes what the run has bound stays, and after a no it is
// taken back. The work buffer is cleared.
fn settle(
    cells: &mut [u64],
    top: usize,
    trail: &mut [u64],
    trailed: &mut usize,
    work: &mut [u64],
    a: usize,
    b: usize,
    checked: bool,
) -> bool
    requires { Passed checked (lent cells.old top trail.old trailed.old) work.old a b }
    ensures { (said_yes (Ok result), lent cells.new top trail.new trailed.new, work.new) ≡ answered (lent cells.old top trail.old trailed.old) work.old (unified checked (lent cells.old top trail.old trailed.old) a b) }
{
    let from = *trailed;
    let ok = unify::unify_internal(cells, top, trail, trailed, work, a, b);
    let to = *trailed;
    let n = chains::work_need(top);
    chains::clear(work, n);
    if ok {
        let cells = Cells { words: cells, top };
        if accepted(Store { cells }, &trail[from..to], a, checked) {
            return true;
        }
    }
    undo(cells, trail, from, to);
    *trailed = from;
    false
}

// Unifies the terms of the cells `a` and `b`, with the occurs check where the call is checked: whether
// there is a unifier; refusals 1, 2, 3, 4 and 5, and of a checked call 6. The buffers and the counts come
// one by one, as C lends them.
pub fn unify(
    cells: &mut [u64],
    top: usize,
    trail: &mut [u64],
    trailed: &mut usize,
    marks: &[u64],
    marked: usize,
    work: &mut [u64],
    a: usize,
    b: usize,
    checked: bool,
) -> Result<bool, Refusal>
    ensures { (said_yes result, state_of cells.new top trail.new trailed.new marks.now marked, work.new) ≡ call_by checked (state_of cells.old top trail.old trailed.old marks.now marked) work.old a b }
{
    let state = State {
        cells,
        top,
        trail,
        trailed: *trailed,
        marks,
        marked,
    };
    check(&state, work, a, b, checked)?;
    Ok(settle(cells, top, trail, trailed, work, a, b, checked))
}
