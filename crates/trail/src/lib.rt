// The trail and the marks beside a store's cells: their rules, and the store check, which every call
// that is lent them makes first.
#![tactic(auto)]

ghost use Rattle.std.specs.Prelude.{◌≡◌, IfOk};
ghost use Rattle.trail.specs.Rules.{names_bound, trail_used, trail_good, marks_good, rises};
ghost use Rattle.trail.specs.State.{answer_of, check_of};

use cell::Refusal;
use cell_set::CellSet;
use std::marker::Model;
use store::{Cells, SET, Store};

// How many words a mark has: the `top` and the trail count at which it was set.
pub const MARK_WIDTH: usize = 2;

// What a call is lent, to read: the words, with how many of them are used cells, trail entries and
// marks.
#[derive(Drop)]
pub struct State<'a> {
    pub cells: &'a [u64],
    pub top: usize,
    pub trail: &'a [u64],
    pub trailed: usize,
    pub marks: &'a [u64],
    pub marked: usize,
}

impl<'a> Model for State<'a> {
    ghost use Rattle.trail.specs.State.{State as Lent, state_of};

    ghost Value = { Lent };

    ghost view = { λ s. state_of s.cells.now s.top s.trail.now s.trailed s.marks.now s.marked };
}

impl<'a> State<'a> {
    // The store check, of any words and any counts: refusal 1, else 2, else the store.
    #[tactic(auto, unfolding(crate::specs::State::check_of))]
    pub fn check(&self) -> Result<Store<'a>, Refusal>
        ensures answer { answer_of result ≡ check_of self.now }
        ensures store { IfOk result (λ s. (s.cells.words.now ≡ self.now.cells) × (s.cells.top ≡ self.now.top)) }
    {
        let store = Store::new(self.cells, self.top)?;
        if trail_good(store.cells, self.trail, self.trailed)
            && marks_good(self.top, self.trailed, self.marks, self.marked)
        {
            Ok(store)
        } else {
            Err(Refusal::Trail)
        }
    }
}

// Whether `e` is a used cell from 1 that is no unbound Var.
#[tactic(auto, unfolding(crate::specs::Rules::names_bound))]
fn names_bound(cells: Cells, e: usize) -> bool
    ensures { result ≡ names_bound cells.entry.words.now cells.entry.top e }
{
    (1..cells.top).contains(&e) && cells.words[e] != cell::var_word(e)
}

// Whether the used entries of the trail keep their rules. `seen` has the cells that were named.
#[tactic(auto, unfolding(crate::specs::Rules::trail_used, store::specs::All::all_from))]
fn trail_used(cells: Cells, trail: &[u64], trailed: usize) -> bool
    ensures { result ≡ trail_used cells.entry.words.now cells.entry.top trail.now trailed }
{
    let Some(used) = trail.get(..trailed) else {
        return false;
    };
    // An empty trail does not pay for a table.
    if used.is_empty() {
        return true;
    }
    let mut seen = CellSet::<SET>::new();
    for e in used {
        let e = *e as usize;
        if !names_bound(cells, e) || seen.contains(e) {
            return false;
        }
        seen.insert(e);
    }
    true
}

// Whether the trail keeps its rules: the used entries, and 0 behind them.
#[tactic(auto, unfolding(crate::specs::Rules::trail_good))]
fn trail_good(cells: Cells, trail: &[u64], trailed: usize) -> bool
    ensures { result ≡ trail_good cells.entry.words.now cells.entry.top trail.now trailed }
{
    trail_used(cells, trail, trailed) && store::zero_from(trail, trailed)
}

// Whether a count has not fallen from the mark before, nor is above the present one.
#[tactic(auto, unfolding(crate::specs::Rules::rises))]
fn rises(before: u64, at: u64, present: u64) -> bool
    ensures { result ≡ rises before at present }
{
    (before..=present).contains(&at)
}

// Whether the marks keep their rules. `t` and `c` are the counts of the mark before.
#[tactic(auto, unfolding(crate::specs::Rules::marks_good, crate::specs::Rules::top_before, crate::specs::Rules::trail_before, store::specs::All::all_from))]
fn marks_good(top: usize, trailed: usize, marks: &[u64], marked: usize) -> bool
    ensures { result ≡ marks_good top trailed marks.now marked }
{
    let (pairs, _) = marks.as_chunks::<MARK_WIDTH>();
    let Some(used) = pairs.get(..marked) else {
        return false;
    };
    let mut t = 0;
    let mut c = 0;
    for [nt, nc] in used {
        if !rises(t, *nt, top as u64) || !rises(c, *nc, trailed as u64) {
            return false;
        }
        t = *nt;
        c = *nc;
    }
    store::zero_from(marks, MARK_WIDTH * marked)
}
