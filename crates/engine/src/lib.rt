// The public calls. `crates/engine_c` exports each to C, as `include/trisculap.h` declares it. A call
// returns 0 where it answers and the number of the refusal where it refuses. Each contract says the
// returned number, the answer and every lent word by the definition that the inner call is proved against.
#![tactic(auto)]

ghost use Rattle.std.specs.Prelude.{◌≡◌};
ghost use Rattle.cell.specs.Answers.{number_cell};
ghost use Rattle.store.specs.Follow.{followed};
ghost use Rattle.trail.specs.State.{state_of, check_of, answer_of, said, said_number, said_yes};
ghost use Rattle.append.specs.Calls.{appending};
ghost use Rattle.marks.specs.Calls.{marking, cutting, rolling};
ghost use Rattle.cycle.specs.Verdict.{verdict_of};
ghost use Rattle.unification.specs.Calls.{plainly, checkedly};
ghost use Rattle.copy.specs.Calls.{lent, copying};
ghost use Rattle.engine.specs.Coded.{code_of, Told, tells, decides, coded, told, decided};

use cell::Refusal;
use trail::State;

// What a call returns: 0 where it answers, else the number of its refusal.
fn code<T: Drop>(answer: Result<T, Refusal>) -> u64
    ensures { result ≡ code_of (said (answer_of answer)) }
{
    match answer {
        Ok(_) => 0,
        Err(r) => u64::from(r),
    }
}

// The same of a call that has something to tell, which is written at `place`; a refusal writes nothing.
fn tell<T: Copy + Drop>(answer: Result<T, Refusal>, place: &mut T) -> u64
    ensures { Told answer place.old result place.new }
{
    match answer {
        Ok(x) => {
            *place = x;
            0
        }
        Err(r) => u64::from(r),
    }
}

// The same of a call that says yes, which is told as 1, or no, as 0.
fn decide(answer: Result<bool, Refusal>, yes: &mut u64) -> u64
    ensures { (result, yes.new) ≡ decides (said_yes answer) yes.old }
{
    tell(answer.map(u64::from), yes)
}

// The store check; refusals 1 and 2.
pub fn trisculap_check(
    cells: &[u64],
    top: usize,
    trail: &[u64],
    trailed: usize,
    marks: &[u64],
    marked: usize,
) -> u64
    ensures { result ≡ code_of (said (check_of (state_of cells.now top trail.now trailed marks.now marked))) }
{
    let lent = State {
        cells,
        top,
        trail,
        trailed,
        marks,
        marked,
    };
    code(lent.check())
}

// The cell of a number; refusal 11.
pub fn trisculap_number(n: i64, word: &mut u64) -> u64
    ensures { (result, word.new) ≡ tells (said_number (number_cell n)) word.old }
{
    tell(cell::number_cell(n), word)
}

// Follows a cell along Vars; refusals 1 and 3.
pub fn trisculap_follow(cells: &[u64], top: usize, at: usize, word: &mut u64) -> u64
    ensures { (result, word.new) ≡ tells (said_number (followed cells.now top at)) word.old }
{
    tell(store::follow(cells, top, at), word)
}

// Appends words at `top`; refusals 1, 2, 7 and 9.
pub fn trisculap_append(
    cells: &mut [u64],
    top: &mut usize,
    trail: &[u64],
    trailed: usize,
    marks: &[u64],
    marked: usize,
    words: &[u64],
    at: &mut usize,
) -> u64
    ensures { (result, at.new, state_of cells.new top.new trail.now trailed marks.now marked) ≡ told (appending (state_of cells.old top.old trail.now trailed marks.now marked) words.now) at.old }
{
    tell(
        append::append(cells, top, trail, trailed, marks, marked, words),
        at,
    )
}

// Sets a mark; refusals 1, 2 and 7.
#[tactic(auto, using(crate::specs::Coded::tells_by, crate::specs::Coded::told_by))]
pub fn trisculap_mark(
    cells: &[u64],
    top: usize,
    trail: &[u64],
    trailed: usize,
    marks: &mut [u64],
    marked: &mut usize,
    number: &mut usize,
) -> u64
    ensures { (result, number.new, state_of cells.now top trail.now trailed marks.new marked.new) ≡ told (marking (state_of cells.now top trail.now trailed marks.old marked.old)) number.old }
{
    tell(
        marks::mark(cells, top, trail, trailed, marks, marked),
        number,
    )
}

// Rolls back to mark `k`; refusals 1, 2, 8 and 10.
pub fn trisculap_rollback(
    cells: &mut [u64],
    top: &mut usize,
    trail: &mut [u64],
    trailed: &mut usize,
    marks: &mut [u64],
    marked: &mut usize,
    k: usize,
) -> u64
    ensures { (result, state_of cells.new top.new trail.new trailed.new marks.new marked.new) ≡ coded (rolling (state_of cells.old top.old trail.old trailed.old marks.old marked.old) k) }
{
    code(marks::rollback(cells, top, trail, trailed, marks, marked, k))
}

// Drops the marks above `k`; refusals 1, 2 and 8.
pub fn trisculap_cut(
    cells: &[u64],
    top: usize,
    trail: &[u64],
    trailed: usize,
    marks: &mut [u64],
    marked: &mut usize,
    k: usize,
) -> u64
    ensures { (result, state_of cells.now top trail.now trailed marks.new marked.new) ≡ coded (cutting (state_of cells.now top trail.now trailed marks.old marked.old) k) }
{
    code(marks::cut(cells, top, trail, trailed, marks, marked, k))
}

// Unifies two cells plainly; refusals 1, 2, 3, 4 and 5.
pub fn trisculap_unify(
    cells: &mut [u64],
    top: usize,
    trail: &mut [u64],
    trailed: &mut usize,
    marks: &[u64],
    marked: usize,
    work: &mut [u64],
    a: usize,
    b: usize,
    yes: &mut u64,
) -> u64
    ensures { (result, yes.new, state_of cells.new top trail.new trailed.new marks.now marked, work.new) ≡ decided (plainly (state_of cells.old top trail.old trailed.old marks.now marked) work.old a b) yes.old }
{
    decide(
        unifier::unify(cells, top, trail, trailed, marks, marked, work, a, b, false),
        yes,
    )
}

// Unifies two cells with the occurs check; refusals 1, 2, 3, 4, 5 and 6.
pub fn trisculap_unify_checked(
    cells: &mut [u64],
    top: usize,
    trail: &mut [u64],
    trailed: &mut usize,
    marks: &[u64],
    marked: usize,
    work: &mut [u64],
    a: usize,
    b: usize,
    yes: &mut u64,
) -> u64
    ensures { (result, yes.new, state_of cells.new top trail.new trailed.new marks.now marked, work.new) ≡ decided (checkedly (state_of cells.old top trail.old trailed.old marks.now marked) work.old a b) yes.old }
{
    decide(
        unifier::unify(cells, top, trail, trailed, marks, marked, work, a, b, true),
        yes,
    )
}

// Copies a term to the cells from `top` on; refusals 1, 3, 4 and 7.
pub fn trisculap_copy(
    cells: &mut [u64],
    top: &mut usize,
    work: &mut [u64],
    root: usize,
    at: &mut usize,
) -> u64
    ensures { (result, at.new, lent cells.new top.new work.new) ≡ told (copying (lent cells.old top.old work.old) root) at.old }
{
    tell(copy::copy_term(cells, top, work, root), at)
}

// Whether the root reaches a cycle; refusals 1 and 3.
pub fn trisculap_cyclic(cells: &[u64], top: usize, root: usize, yes: &mut u64) -> u64
    ensures { (result, yes.new) ≡ decides (said_yes (verdict_of cells.now top root)) yes.old }
{
    decide(cycle::cycle_verdict(cells, top, root), yes)
}
