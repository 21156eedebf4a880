// The public calls for C: each export is the engine's function of the same name, with the same contract.
// A crate is a library or an archive for C, so they stand apart. `include/trisculap.h` declares them. A slice
// is passed as a pointer and then its length.
#![tactic(auto)]

ghost use Rattle.std.specs.Prelude.{◌≡◌};
ghost use Rattle.cell.specs.Answers.{number_cell};
ghost use Rattle.store.specs.Follow.{followed};
ghost use Rattle.trail.specs.State.{state_of, check_of, said, said_number, said_yes};
ghost use Rattle.append.specs.Calls.{appending};
ghost use Rattle.marks.specs.Calls.{marking, cutting, rolling};
ghost use Rattle.cycle.specs.Verdict.{verdict_of};
ghost use Rattle.unification.specs.Calls.{plainly, checkedly};
ghost use Rattle.copy.specs.Calls.{lent, copying};
ghost use Rattle.engine.specs.Coded.{code_of, tells, decides, coded, told, decided};

// The store check; refusals 1 and 2.
#[unsafe(no_mangle)]
pub extern "C" fn trisculap_check(
    cells: &[u64],
    top: usize,
    trail: &[u64],
    trailed: usize,
    marks: &[u64],
    marked: usize,
) -> u64
    ensures { result ≡ code_of (said (check_of (state_of cells.now top trail.now trailed marks.now marked))) }
{
    engine::trisculap_check(cells, top, trail, trailed, marks, marked)
}

// The cell of a number; refusal 11.
#[unsafe(no_mangle)]
pub extern "C" fn trisculap_number(n: i64, word: &mut u64) -> u64
    ensures { (result, word.new) ≡ tells (said_number (number_cell n)) word.old }
{
    engine::trisculap_number(n, word)
}

// Follows a cell along Vars; refusals 1 and 3.
#[unsafe(no_mangle)]
pub extern "C" fn trisculap_follow(cells: &[u64], top: usize, at: usize, word: &mut u64) -> u64
    ensures { (result, word.new) ≡ tells (said_number (followed cells.now top at)) word.old }
{
    engine::trisculap_follow(cells, top, at, word)
}

// Appends words at `top`; refusals 1, 2, 7 and 9.
#[unsafe(no_mangle)]
pub extern "C" fn trisculap_append(
    cells: &mut [u64],
    top: &mut usize,
    trail: &[u64],
    trailed: usize,
    marks: &[u64],
    marked: usize,
    words: &[u64],
    at: &mut usize,
) -> u64
    ensures { (result, at.new, state_of cells.new top.new trail.now trailed marks.now marked) ≡ told (appending (state_of cells.old top.old trail.now trailed marks.now marked) words.now) at.old }
{
    engine::trisculap_append(cells, top, trail, trailed, marks, marked, words, at)
}

// Sets a mark; refusals 1, 2 and 7.
#[unsafe(no_mangle)]
pub extern "C" fn trisculap_mark(
    cells: &[u64],
    top: usize,
    trail: &[u64],
    trailed: usize,
    marks: &mut [u64],
    marked: &mut usize,
    number: &mut usize,
) -> u64
    ensures { (result, number.new, state_of cells.now top trail.now trailed marks.new marked.new) ≡ told (marking (state_of cells.now top trail.now trailed marks.old marked.old)) number.old }
{
    engine::trisculap_mark(cells, top, trail, trailed, marks, marked, number)
}

// Rolls back to mark `k`; refusals 1, 2, 8 and 10.
#[unsafe(no_mangle)]
pub extern "C" fn trisculap_rollback(
    cells: &mut [u64],
    top: &mut usize,
    trail: &mut [u64],
    trailed: &mut usize,
    marks: &mut [u64],
    marked: &mut usize,
    k: usize,
) -> u64
    ensures { (result, state_of cells.new top.new trail.new trailed.new marks.new marked.new) ≡ coded (rolling (state_of cells.old top.old trail.old trailed.old marks.old marked.old) k) }
{
    engine::trisculap_rollback(cells, top, trail, trailed, marks, marked, k)
}

// Drops the marks above `k`; refusals 1, 2 and 8.
#[unsafe(no_mangle)]
pub extern "C" fn trisculap_cut(
    cells: &[u64],
    top: usize,
    trail: &[u64],
    trailed: usize,
    marks: &mut [u64],
    marked: &mut usize,
    k: usize,
) -> u64
    ensures { (result, state_of cells.now top trail.now trailed marks.new marked.new) ≡ coded (cutting (state_of cells.now top trail.now trailed marks.old marked.old) k) }
{
    engine::trisculap_cut(cells, top, trail, trailed, marks, marked, k)
}

// Unifies two cells plainly; refusals 1, 2, 3, 4 and 5.
#[unsafe(no_mangle)]
pub extern "C" fn trisculap_unify(
    cells: &mut [u64],
    top: usize,
    trail: &mut [u64],
    trailed: &mut usize,
    marks: &[u64],
    marked: usize,
    work: &mut [u64],
    a: usize,
    b: usize,
    yes: &mut u64,
) -> u64
    ensures { (result, yes.new, state_of cells.new top trail.new trailed.new marks.now marked, work.new) ≡ decided (plainly (state_of cells.old top trail.old trailed.old marks.now marked) work.old a b) yes.old }
{
    engine::trisculap_unify(cells, top, trail, trailed, marks, marked, work, a, b, yes)
}

// Unifies two cells with the occurs check; refusals 1, 2, 3, 4, 5 and 6.
#[unsafe(no_mangle)]
pub extern "C" fn trisculap_unify_checked(
    cells: &mut [u64],
    top: usize,
    trail: &mut [u64],
    trailed: &mut usize,
    marks: &[u64],
    marked: usize,
    work: &mut [u64],
    a: usize,
    b: usize,
    yes: &mut u64,
) -> u64
    ensures { (result, yes.new, state_of cells.new top trail.new trailed.new marks.now marked, work.new) ≡ decided (checkedly (state_of cells.old top trail.old trailed.old marks.now marked) work.old a b) yes.old }
{
    engine::trisculap_unify_checked(cells, top, trail, trailed, marks, marked, work, a, b, yes)
}

// Copies a term to the cells from `top` on; refusals 1, 3, 4 and 7.
#[unsafe(no_mangle)]
pub extern "C" fn trisculap_copy(
    cells: &mut [u64],
    top: &mut usize,
    work: &mut [u64],
    root: usize,
    at: &mut usize,
) -> u64
    ensures { (result, at.new, lent cells.new top.new work.new) ≡ told (copying (lent cells.old top.old work.old) root) at.old }
{
    engine::trisculap_copy(cells, top, work, root, at)
}

// Whether the root reaches a cycle; refusals 1 and 3.
#[unsafe(no_mangle)]
pub extern "C" fn trisculap_cyclic(cells: &[u64], top: usize, root: usize, yes: &mut u64) -> u64
    ensures { (result, yes.new) ≡ decides (said_yes (verdict_of cells.now top root)) yes.old }
{
    engine::trisculap_cyclic(cells, top, root, yes)
}
