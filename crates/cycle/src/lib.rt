// The cycle verdict, and the other answers that one depth-first walk over the links of a
// well-formed store gives: whether either of two roots reaches a cycle, and the room of a copy; and a
// bound on that room that takes no walk.
#![tactic(auto)]

ghost use Rattle.std.specs.Prelude.{◌≡◌, true, false, cond, ◌||◌, ◌+◌, ◌-◌, ◌<◌, ◌≤◌, leb, length, get_or, replicate};
ghost use Rattle.store.specs.Store.{limit, term_at};
ghost use Rattle.cycle.specs.Kids.{arity_at};
ghost use Rattle.cycle.specs.Links.{Span};
ghost use Rattle.cycle.specs.Verdict.{cyclic_at, verdict_of};
ghost use Rattle.cycle.specs.Room.{room_of};
ghost use Rattle.cycle.specs.Most.{own_room, most_room};
ghost use Rattle.cycle.specs.Counted.{Counted, RunsCounted};
ghost use Rattle.cycle.specs.Tables.{colour, Tables, Walked};
ghost use Rattle.cycle.specs.Met.{met_links};

use cell::{Kind, Refusal};
use std::mem;
use std::ops::Range;
use store::{LIMIT, SMALL, Store};

// How many cells stand behind a functor cell; none behind any other.
pub fn arity_at(cells: &[u64], f: usize) -> usize
    requires { f < length cells.now }
    ensures { result ≡ arity_at cells.now f }
{
    match store::kind_at(cells, f) {
        Kind::Atom { name: _, arity } => arity,
        _ => 0,
    }
}

// Where the links of a cell go, always to neighbours. A Str leads to its functor cell, and this to
// each argument, so that a wide header is walked once however many Str cells name it.
fn links_of(store: Store, i: usize) -> Range<usize>
    requires { (1 ≤ i) × (i < store.cells.top) }
    ensures { Span store.entry.cells.words.now i 0 result.start result.end }
{
    match store::kind_at(store.cells.words, i) {
        Kind::Var(v) => if v == i { v..v } else { v..v + 1 },
        Kind::Str(f) => f..f + 1,
        Kind::Lis(l) => l..l + 2,
        Kind::Atom { name: _, arity } => i + 1..i + 1 + arity,
        _ => 0..0,
    }
}

// A cell's colour: White before a walk meets it, Grey while it is on the path, Black once it is
// finished.
#[derive(Clone, Copy, PartialEq, Eq)]
enum Colour {
    White,
    Grey,
    Black,
}

// The links that are left at a cell, from `next` on, up to `end`, in as few bytes as the limit allows.
#[derive(Clone, Copy)]
struct Rest {
    next: u16,
    end: u16,
}

// What a walk saw: whether it came to a cell on its own path, and how many links it went over in any case.
#[derive(Clone, Copy)]
struct Seen {
    cycle: bool,
    links: usize,
}

// The tables of a walk: the colour of each cell, and for each cell of the path the links that are
// left at the one before it, the link to it just gone over; the root has none before it.
#[derive(Drop)]
struct Walk<const N: usize> {
    colours: [Colour; N],
    path: [Rest; N],
}

impl<const N: usize> Walk<N> {
    // Tables in which no cell is met.
    fn new() -> Self
        ensures { result.colours ≡ replicate N Colour.White }
    {
        Walk {
            colours: [Colour::White; N],
            path: [Rest { next: 0, end: 0 }; N],
        }
    }

    // Walks all that the root reaches; the root itself was not met before. It goes on after it came to
    // a cell on its own path, so that the finished cells are exactly those reached, and the tables may be
    // used again.
    fn walk(&mut self, store: Store, root: usize) -> Seen
        requires { let s = store.cells in (1 ≤ root) × (root < s.top) × (s.top ≤ N) × (N ≤ limit) × Tables s.words.now self.old.colours × (colour self.old.colours root ≡ Colour.White) }
        ensures { let s = store.entry.cells in Walked s.words.now root self.old.colours self.new.colours result.cycle × (met_links s.words.now s.top self.new.colours ≡ met_links s.words.now s.top self.old.colours + result.links) }
    {
        self.colours[root] = Colour::Grey;
        self.path[0] = Rest {
            next: (root + 1) as u16,
            end: (root + 1) as u16,
        };
        // The path is a stack in fixed memory, for there is no heap: `sp` counts its cells.
        let mut sp = 1;
        let mut left = links_of(store, root);
        let mut links = left.len();
        let mut cycle = false;
        while 0 < sp {
            if let Some(next) = left.next() {
                match self.colours[next] {
                    Colour::White => {
                        self.colours[next] = Colour::Grey;
                        self.path[sp] = Rest {
                            next: left.start as u16,
                            end: left.end as u16,
                        };
                        sp += 1;
                        left = links_of(store, next);
                        links += left.len();
                    }
                    Colour::Grey => cycle = true,
                    Colour::Black => {}
                }
            } else {
                sp -= 1;
                let Rest { next, end } = self.path[sp];
                left = next as usize..end as usize;
                self.colours[left.start - 1] = Colour::Black;
            }
        }
        Seen { cycle, links }
    }
}

// The room of a run, if it has no mark yet; it gets one.
fn room_once(mark: &mut bool, room: usize) -> usize
    ensures { (mark.new ≡ true) × (result ≡ cond mark.old 0 room) }
{
    if mem::replace(mark, true) { 0 } else { room }
}

// Marks on functor cells and on the first cells of pairs: the runs there are counted.
#[derive(Drop)]
struct Runs {
    heads: [bool; LIMIT],
    pairs: [bool; LIMIT],
}

impl Runs {
    fn new() -> Self
        ensures { (result.heads ≡ replicate limit false) × (result.pairs ≡ replicate limit false) }
    {
        Runs {
            heads: [false; LIMIT],
            pairs: [false; LIMIT],
        }
    }

    // The room of the run that a cell names, if it has no mark yet; it gets one.
    fn count(&mut self, store: Store, i: usize) -> usize
        requires { (1 ≤ i) × (i < store.cells.top) }
        ensures { let s = store.entry.cells in Counted s.words.now s.top i self.old.heads self.old.pairs self.new.heads self.new.pairs result }
    {
        match store::kind_at(store.cells.words, i) {
            Kind::Str(f) => {
                let room = arity_at(store.cells.words, f) + 1;
                room_once(&mut self.heads[f], room)
            }
            Kind::Lis(l) => room_once(&mut self.pairs[l], 2),
            _ => 0,
        }
    }
}

// Whether one of two roots reaches a cycle, by tables of N entries; what the first reaches is not
// walked again.
fn either_within<const N: usize>(store: Store, a: usize, b: usize) -> bool
    requires { let s = store.cells in (s.top ≤ N) × (N ≤ limit) × (term_at s.words.now s.top a ≡ true) × (term_at s.words.now s.top b ≡ true) }
    ensures { let s = store.entry.cells in result ≡ (cyclic_at s.words.now s.top a || cyclic_at s.words.now s.top b) }
{
    let mut tables = Walk::<N>::new();
    if tables.walk(store, a).cycle {
        return true;
    }
    if tables.colours[b] != Colour::White {
        return false;
    }
    tables.walk(store, b).cycle
}

// Whether one of two roots reaches a cycle. A small store gets small tables, which are sooner
// filled.
pub fn either_cyclic(store: Store, a: usize, b: usize) -> bool
    requires { let s = store.cells in (term_at s.words.now s.top a ≡ true) × (term_at s.words.now s.top b ≡ true) }
    ensures { let s = store.entry.cells in result ≡ (cyclic_at s.words.now s.top a || cyclic_at s.words.now s.top b) }
{
    if store.cells.top <= SMALL {
        either_within::<SMALL>(store, a, b)
    } else {
        either_within::<LIMIT>(store, a, b)
    }
}

// Whether the root reaches a cycle.
pub fn cyclic(store: Store, root: usize) -> bool
    requires { let s = store.cells in term_at s.words.now s.top root ≡ true }
    ensures { let s = store.entry.cells in result ≡ cyclic_at s.words.now s.top root }
{
    either_cyclic(store, root, root)
}

// The cycle verdict: whether the root reaches a cycle; refusals 1 and 3.
pub fn cycle_verdict(cells: &[u64], top: usize, root: usize) -> Result<bool, Refusal>
    ensures { result ≡ verdict_of cells.now top root }
{
    let store = Store::new(cells, top)?;
    if !store.cells.term_at(root) {
        return Err(Refusal::Root);
    }
    Ok(cyclic(store, root))
}

// 1, plus the room of each run that a finished cell names.
fn count_runs(store: Store, colours: &[Colour; LIMIT]) -> usize
    ensures { let s = store.entry.cells in RunsCounted s.words.now s.top colours.entry.now result }
{
    let mut runs = Runs::new();
    let mut sum = 1;
    for i in 1..store.cells.top {
        if colours[i] == Colour::Black {
            sum += runs.count(store, i);
        }
    }
    sum
}

// Whether the room that a copy of the root's term needs is at most `free`: 1, plus 1 + arity for each
// structure reached, plus 2 for each pair. It is at most 1 and the links that the walk goes over, so
// the runs are counted only where these are too many.
pub fn room_within(store: Store, root: usize, free: usize) -> bool
    requires { let s = store.cells in term_at s.words.now s.top root ≡ true }
    ensures { let s = store.entry.cells in result ≡ leb (room_of s.words.now s.top root) free }
{
    let mut tables = Walk::<LIMIT>::new();
    let seen = tables.walk(store, root);
    if seen.links < free {
        return true;
    }
    count_runs(store, &tables.colours) <= free
}

// The room that is counted at one cell, for the most that a copy can need: at a functor cell that of
// its run, if there are arguments; else at each Str that names it; and at each Lis that of its pair.
fn own_room(store: Store, i: usize) -> usize
    requires { (1 ≤ i) × (i < store.cells.top) }
    ensures { result ≡ own_room store.entry.cells.words.now i }
{
    match store::kind_at(store.cells.words, i) {
        Kind::Str(f) => if store::header_at(store.cells.words, f) {
            0
        } else {
            1
        },
        Kind::Lis(_) => 2,
        Kind::Atom { name: _, arity } => if arity == 0 { 0 } else { arity + 1 },
        _ => 0,
    }
}

// The most room that a copy of any term in the store can need. It takes no walk.
pub fn most_room(store: Store) -> usize
    ensures { let s = store.entry.cells in result ≡ most_room s.words.now s.top }
{
    1 + (1..store.cells.top)
        .map(|i| own_room(store, i))
        .sum::<usize>()
}
