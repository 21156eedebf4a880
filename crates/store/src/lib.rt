// A store's cells: whether any words at all are well formed, and following a cell along Vars.
#![tactic(auto)]

ghost use Rattle.std.specs.Prelude.{◌≡◌, true, false, ◌&&◌, ℕ, ◌+◌, ◌*◌, ◌<◌, ◌≤◌, length, get_or, IfOk, IfErr};
ghost use Rattle.cell.specs.Kinds.{kind_of};
ghost use Rattle.cell.specs.declared.Kind.TheVariants.{Var};
ghost use Rattle.cell.specs.declared.Refusal.TheVariants.{Cells as CellsRefused};
ghost use Rattle.store.specs.Store.{limit, kind_at, is_header, is_atom, header_at, term_at, atom_at, step, end_of, zero_from, cells_keep, cells_end, well_formed};
ghost use Rattle.store.specs.Survey.{kept_of, StandsAt};
ghost use Rattle.store.specs.Turns.{EndsBelow, turns_at};
ghost use Rattle.store.specs.Walk.{Known, Passing, Found, Settled};
ghost use Rattle.store.specs.Zeros.{zeroed};
ghost use Rattle.store.specs.Follow.{followed};

use cell::{Cell, Kind, Refusal};
use cell_set::CellSet;

// The most cells that a store may use.
pub const LIMIT: usize = 4096;

// The most cells of a small store: it gets small tables, so that it does not pay for the limit.
pub const SMALL: usize = 256;

// How many words a set of any cells takes, with a bit for each.
pub const SET: usize = LIMIT / 64;

// The same for the cells of a small store.
const SMALL_SET: usize = SMALL / 64;

// The least and the greatest word of an Atom of arity above 0.
const HEADER_FIRST: u64 = 0x1000_0001_0000_0000;

const HEADER_LAST: u64 = 0x1000_00FF_FFFF_FFFF;

// The bits of an Atom's word above its arity.
const ATOM_BITS: u64 = 0x0010_0000;

fn is_header(w: u64) -> bool
    ensures { result ≡ is_header (kind_of w) }
{
    HEADER_FIRST <= w && w <= HEADER_LAST
}

fn is_atom(w: u64) -> bool
    ensures { result ≡ is_atom (kind_of w) }
{
    w >> 40 == ATOM_BITS
}

pub fn kind_at(cells: &[u64], i: usize) -> Kind
    requires { i < length cells.now }
    ensures { result ≡ kind_at cells.now i }
{
    Cell::read(cells, i).kind
}

// Whether a cell is a header: an Atom of arity above 0.
pub fn header_at(cells: &[u64], i: usize) -> bool
    requires { i < length cells.now }
    ensures { result ≡ header_at cells.now i }
{
    is_header(cells[i])
}

// Whether a cell stands for a term: a used cell from 1 that is no header.
pub fn term_at(cells: &[u64], top: usize, i: usize) -> bool
    requires { top ≤ length cells.now }
    ensures { result ≡ term_at cells.now top i }
{
    if i < 1 || top <= i {
        return false;
    }
    !header_at(cells, i)
}

// A step along a Var; any other cell stays.
pub fn step_of(cells: &[u64], i: usize) -> usize
    requires { i < length cells.now }
    ensures { result ≡ step cells.now i }
{
    match kind_at(cells, i) {
        Kind::Var(v) => v,
        _ => i,
    }
}

// Whether the way that following takes turns at `v`, which `i` names: both cells beside it on the way
// are lower.
fn turns_at(cells: &[u64], i: usize, v: usize) -> bool
    requires { v < length cells.now }
    ensures { result ≡ turns_at cells.now i v }
{
    i < v && step_of(cells, v) < v
}

// Whether all words from a place on are 0: all of them or-ed, with no branch for each.
pub fn zero_from(words: &[u64], from: usize) -> bool
    ensures { result ≡ zero_from words.now from }
{
    let Some(rest) = words.get(from..) else {
        return true;
    };
    let mut seen: u64 = 0;
    for w in rest {
        seen |= *w;
    }
    seen == 0
}

// The words from a place to another become 0; those behind are 0 already.
pub fn zero_to(words: &mut [u64], from: usize, to: usize)
    requires { (from ≤ to) × (to ≤ length words.old) × ((i : ℕ) → to ≤ i → get_or words.old i 0 ≡ 0) }
    ensures { words.new ≡ zeroed from words.old }
{
    words[from..to].fill(0);
}

// How a used cell stands to its row of the table of kinds: it breaks it; it keeps to it; it keeps to
// it as a Var that names a higher cell, which names a lower one, so that the way turns there; or it
// is a header with so many arguments, which are still to be judged.
#[derive(Clone, Copy)]
enum Standing {
    Breaks,
    Keeps,
    Turns,
    Heads(usize),
}

// How a cell stands that has neither a way to turn nor arguments to judge.
impl From<bool> for Standing {
    ghost from_gives = { λ keeps s. s ≡ kept_of keeps };

    fn from(keeps: bool) -> Standing {
        if keeps {
            Standing::Keeps
        } else {
            Standing::Breaks
        }
    }
}

// The used cells of a store: `top` passes neither the limit nor the lent words.
#[derive(Clone, Copy)]
pub struct Cells<'a> {
    pub words: &'a [u64],
    pub top: usize,
    pub ghost fits: { (top ≤ limit) × (top ≤ length words.now) },
}

impl<'a> Cells<'a> {
    // Whether a cell of these stands for a term.
    pub fn term_at(self, i: usize) -> bool
        ensures { result ≡ term_at self.entry.words.now self.entry.top i }
    {
        term_at(self.words, self.top, i)
    }

    fn atom_at(self, f: usize) -> bool
        ensures { result ≡ atom_at self.entry.words.now self.entry.top f }
    {
        if f < 1 || self.top <= f {
            return false;
        }
        is_atom(self.words[f])
    }

    // How a Var that names `v` stands to its row.
    fn var_stands(self, i: usize, v: usize) -> Standing
        requires { (1 ≤ i) × (i < self.top) × (kind_at self.words.now i ≡ Var v) }
        ensures { StandsAt self.entry.words.now self.entry.top i result }
    {
        if v == i {
            Standing::Keeps
        } else if !self.term_at(v) {
            Standing::Breaks
        } else if turns_at(self.words, i, v) {
            Standing::Turns
        } else {
            Standing::Keeps
        }
    }

    fn stands_at(self, i: usize) -> Standing
        requires { (1 ≤ i) × (i < self.top) }
        ensures { StandsAt self.entry.words.now self.entry.top i result }
    {
        match kind_at(self.words, i) {
            Kind::Var(v) => self.var_stands(i, v),
            Kind::Str(f) => Standing::from(self.atom_at(f)),
            Kind::Lis(l) => Standing::from(self.term_at(l) && self.term_at(l + 1)),
            Kind::Atom { name: _, arity } => {
                if arity == 0 {
                    Standing::Keeps
                } else {
                    Standing::Heads(arity)
                }
            }
            Kind::Fixnum(_) => Standing::Keeps,
            Kind::Bad => Standing::Breaks,
        }
    }

    // Whether the used cells from a place on keep the rules of cells, where those before keep to their
    // rows if these do, and following ends at each of them. A header up to `last`, the last argument of
    // the header before it, breaks that one's row. A ring has a highest cell, and turns there: only
    // where a way turns is one sought.
    pub fn good_from(self, from: usize) -> bool
        requires { (1 ≤ from) × (cells_keep self.words.now from self.top ≡ true → cells_keep self.words.now 1 self.top ≡ true) × EndsBelow self.words.now from }
        ensures { result ≡ (cells_keep self.entry.words.now from self.entry.top && cells_end self.entry.words.now from self.entry.top) }
    {
        let mut turns = false;
        let mut last = 0;
        for i in from..self.top {
            match self.stands_at(i) {
                Standing::Breaks => return false,
                Standing::Keeps => {}
                Standing::Turns => turns = true,
                Standing::Heads(arity) => {
                    if i <= last {
                        return false;
                    }
                    // The sum may stop at the greatest number, which is no cell's.
                    last = i.saturating_add(arity);
                    if self.top <= last {
                        return false;
                    }
                }
            }
        }
        if turns {
            Kept { cells: self }.cells_end(from)
        } else {
            true
        }
    }
}

// Used cells that keep to their rows. So each cell on the way from one of them is another.
#[derive(Clone, Copy)]
struct Kept<'a> {
    cells: Cells<'a>,
    ghost keep: { cells_keep cells.words.now 1 cells.top ≡ true },
}

impl<'a> Kept<'a> {
    // Where `top` steps lead.
    fn end_of(self, at: usize) -> usize
        requires { (1 ≤ at) × (at < self.cells.top) }
        ensures { (1 ≤ result) × (result < self.entry.cells.top) × (result ≡ end_of self.entry.cells.words.now self.entry.cells.top at) }
    {
        let mut cur = at;
        for _ in 0..self.cells.top {
            let next = step_of(self.cells.words, cur);
            if next == cur {
                return cur;
            }
            cur = next;
        }
        cur
    }

    // Whether none of the first `n` cells on the way from a cell is another one, `goal`.
    fn passes_by(self, at: usize, n: usize, goal: usize) -> bool
        requires { (1 ≤ at) × (at < self.cells.top) }
        ensures { Passing self.entry.cells.words.now at n goal result }
    {
        let mut cur = at;
        for _ in 0..n {
            if cur == goal {
                return false;
            }
            cur = step_of(self.cells.words, cur);
        }
        true
    }

    // Whether following ends at a cell, where it does at those before `from` and at those noted. The way
    // is walked, and each cell noted, to one that stays, to one before `from`, or to a noted one. That was
    // noted by an earlier walk if it is lower than all cells of this one. Else it may be one of them, and
    // the way comes round to it. The count bounds the walk, which meets a noted cell before.
    fn chain_ends<const WORDS: usize>(
        self,
        from: usize,
        known: &mut CellSet<WORDS>,
        at: usize,
    ) -> bool
        requires { (1 ≤ at) × (at < self.cells.top) × EndsBelow self.cells.words.now from × Known self.cells.words.now self.cells.top known.old × (self.cells.top ≤ 64 * WORDS) × (WORDS ≤ limit) }
        ensures { Found self.entry.cells.words.now self.entry.cells.top at known.new result }
    {
        let cells = self.cells.words;
        let mut cur = at;
        let mut low = at;
        for n in 0..self.cells.top + 1 {
            known.insert(cur);
            let Kind::Var(next) = kind_at(cells, cur) else {
                return true;
            };
            if next == cur {
                return true;
            }
            if next < from {
                return true;
            }
            if known.contains(next) {
                if next < low {
                    return true;
                }
                return self.passes_by(at, n + 1, next);
            }
            low = low.min(next);
            cur = next;
        }
        false
    }

    // Whether following ends at the cell that `i` names, if the way turns there.
    fn turn_ends<const WORDS: usize>(
        self,
        from: usize,
        known: &mut CellSet<WORDS>,
        i: usize,
    ) -> bool
        requires { (1 ≤ from) × (from ≤ i) × (i < self.cells.top) × EndsBelow self.cells.words.now from × Known self.cells.words.now self.cells.top known.old × (self.cells.top ≤ 64 * WORDS) × (WORDS ≤ limit) }
        ensures { Settled self.entry.cells.words.now from self.entry.cells.top i known.new result }
    {
        let v = step_of(self.cells.words, i);
        if !turns_at(self.cells.words, i, v) {
            return true;
        }
        if known.contains(v) {
            return true;
        }
        self.chain_ends(from, known, v)
    }

    // Whether following ends at each used cell from a place on, where it does at those before. It does if
    // it does wherever a way turns. `known` has the cells that were walked over.
    fn turns_end<const WORDS: usize>(self, from: usize, known: &mut CellSet<WORDS>) -> bool
        requires { (1 ≤ from) × EndsBelow self.cells.words.now from × Known self.cells.words.now self.cells.top known.old × (self.cells.top ≤ 64 * WORDS) × (WORDS ≤ limit) }
        ensures { result ≡ cells_end self.entry.cells.words.now from self.entry.cells.top }
    {
        for i in from..self.cells.top {
            if !self.turn_ends(from, known, i) {
                return false;
            }
        }
        true
    }

    // The same, with a set of its own.
    fn cells_end_in<const WORDS: usize>(self, from: usize) -> bool
        requires { (1 ≤ from) × EndsBelow self.cells.words.now from × (self.cells.top ≤ 64 * WORDS) × (WORDS ≤ limit) }
        ensures { result ≡ cells_end self.entry.cells.words.now from self.entry.cells.top }
    {
        let mut known = CellSet::<WORDS>::new();
        self.turns_end(from, &mut known)
    }

    // The same; a small store gets a small set. Out of line, so that the pass over the cells keeps its
    // registers.
    #[inline(never)]
    fn cells_end(self, from: usize) -> bool
        requires { (1 ≤ from) × EndsBelow self.cells.words.now from }
        ensures { result ≡ cells_end self.entry.cells.words.now from self.entry.cells.top }
    {
        if self.cells.top <= SMALL {
            self.cells_end_in::<SMALL_SET>(from)
        } else {
            self.cells_end_in::<SET>(from)
        }
    }
}

// A store whose cells are well formed.
#[derive(Clone, Copy)]
pub struct Store<'a> {
    pub cells: Cells<'a>,
    pub ghost whole: { well_formed cells.words.now cells.top ≡ true },
}

impl<'a> Store<'a> {
    // The cells, if they are well formed, of any words and any count; refusal 1.
    pub fn new(words: &'a [u64], top: usize) -> Result<Store<'a>, Refusal>
        ensures ok { IfOk result (λ s. (s.cells.words.now ≡ words.entry.now) × (s.cells.top ≡ top)) }
        ensures err { IfErr result (λ e. (e ≡ CellsRefused) × (well_formed words.entry.now top ≡ false)) }
    {
        if top < 1 || LIMIT < top || words.len() < top {
            return Err(Refusal::Cells);
        }
        let cells = Cells { words, top };
        if words[0] == 0 && zero_from(words, top) && cells.good_from(1) {
            Ok(Store { cells })
        } else {
            Err(Refusal::Cells)
        }
    }
}

// Follows a cell: the word where it ends; refusals 1 and 3.
pub fn follow(cells: &[u64], top: usize, at: usize) -> Result<u64, Refusal>
    ensures { result ≡ followed cells.now top at }
{
    let store = Store::new(cells, top)?;
    if !store.cells.term_at(at) {
        return Err(Refusal::Root);
    }
    let e = Kept { cells: store.cells }.end_of(at);
    Ok(cells[e])
}
