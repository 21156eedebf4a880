// Plain unification past the refusals. Pairs of cells are taken from a list, the last in first, until
// none is left or two clash. The work buffer has a word for the class of each used cell, then a word
// for a shortcut along Vars from each, and then the pairs, two words a pair.
#![tactic(auto)]

ghost use Rattle.std.specs.Prelude.{◌≡◌, [], ◌∷◌, ℕ, List, suc, ◌+◌, ◌^◌, ◌<◌, ◌≤◌, length, get_or, set, MatchOption};
ghost use Rattle.cell.specs.declared.Kind.TheVariants.{Var, Str, Lis, Atom, Fixnum};
ghost use Rattle.store.specs.Store.{limit, kind_at, end_of};
ghost use Rattle.unify.specs.Internal.{lent, Begins, Left};
ghost use Rattle.unify.specs.Layout.{pair_place, pair_at, row, Grown, Forgot};
ghost use Rattle.unify.specs.Following.{Follows, Followed};
ghost use Rattle.unify.specs.Joining.{Meets, Met};
ghost use Rattle.unify.specs.Looking.{Looks, Looked};
ghost use Rattle.unify.specs.Going.{holds, Ready, Went};
ghost use Rattle.unify.specs.Whole.{Started};
ghost use Rattle.unify.specs.Decided.{Two, Kinds, AtomCell, is_dot, atom_named, agreed, Decided};
ghost use Rattle.unify.specs.Words.{Lent, Works, held};

use cell::{Cell, Kind};

// What two followed cells ask for: nothing; that the unbound Var `var` gets the word of the cell
// `from`; that two nodes be joined; or they clash.
#[derive(Clone, Copy)]
enum Act {
    Skip,
    Bind { var: usize, from: usize },
    Join(Compounds),
    Clash,
}

// Two nodes of one functor, `n` and `m`, whose arguments begin at the cells `left` and `right`.
#[derive(Clone, Copy)]
struct Compounds {
    n: usize,
    m: usize,
    left: usize,
    right: usize,
    arity: usize,
}

#[derive(Clone, Copy, PartialEq, Eq)]
struct Functor {
    name: u32,
    arity: usize,
}

// The list functor, '.'/2.
const DOT: Functor = Functor { name: 46, arity: 2 };

// The name and arity of the Atom at `f`.
fn get_name_and_arity(cells: &[u64], f: usize) -> Functor
    requires { AtomCell cells.now f }
    ensures { kind_at cells.now f ≡ Atom result.name result.arity }
{
    match store::kind_at(cells, f) {
        Kind::Atom { name, arity } => Functor { name, arity },
        _ => unreachable!(),
    }
}

// Whether the Atom at `f` is '.'/2.
#[tactic(auto, unfolding(crate::specs::Decided::is_dot))]
fn is_dot(cells: &[u64], f: usize) -> bool
    requires { AtomCell cells.now f }
    ensures { result ≡ is_dot (kind_at cells.now f) }
{
    get_name_and_arity(cells, f) == DOT
}

// Whether the Atom at `f` has this name, and arity 0.
#[tactic(auto, unfolding(crate::specs::Decided::atom_named))]
fn is_atom(cells: &[u64], f: usize, name: u32) -> bool
    requires { AtomCell cells.now f }
    ensures { result ≡ atom_named name (kind_at cells.now f) }
{
    get_name_and_arity(cells, f) == Functor { name, arity: 0 }
}

// Two constants: nothing where they are the same.
fn agree(same: bool) -> Act
    ensures { result ≡ agreed same }
{
    if same { Act::Skip } else { Act::Clash }
}

// Two Str cells, which name the functor cells `s` and `t`.
fn unify_functors(cells: &[u64], s: usize, t: usize) -> Act
    requires { AtomCell cells.now s × AtomCell cells.now t }
    ensures { (a b : ℕ) → Decided cells.now a (Str s) b (Str t) result }
{
    if s == t {
        return Act::Skip;
    }
    let f = get_name_and_arity(cells, s);
    let g = get_name_and_arity(cells, t);
    if f != g {
        return Act::Clash;
    }
    if f.arity == 0 {
        return Act::Skip;
    }
    Act::Join(Compounds {
        n: s,
        m: t,
        left: s + 1,
        right: t + 1,
        arity: f.arity,
    })
}

// A Str, which names the functor cell `s`, against a cell of the kind `k`, which is no Var.
fn unify_structure(cells: &[u64], s: usize, k: Kind) -> Act
    requires { Kinds cells.now (Str s) k }
    ensures { (a b : ℕ) → Decided cells.now a (Str s) b k result }
{
    match k {
        Kind::Str(t) => unify_functors(cells, s, t),
        Kind::Lis(l) => {
            if is_dot(cells, s) {
                Act::Join(Compounds {
                    n: s,
                    m: l,
                    left: s + 1,
                    right: l,
                    arity: 2,
                })
            } else {
                Act::Clash
            }
        }
        Kind::Atom { name, arity: _ } => agree(is_atom(cells, s, name)),
        _ => Act::Clash,
    }
}

// A Lis, whose pair begins at `l`, against a cell of the kind `k`, which is no Var.
fn unify_list(cells: &[u64], l: usize, k: Kind) -> Act
    requires { Kinds cells.now (Lis l) k }
    ensures { (a b : ℕ) → Decided cells.now a (Lis l) b k result }
{
    match k {
        Kind::Lis(m) => {
            // A return, for as an if-else it costs a further jump for each pair of nodes.
            if l == m {
                return Act::Skip;
            }
            Act::Join(Compounds {
                n: l,
                m,
                left: l,
                right: m,
                arity: 2,
            })
        }
        Kind::Str(t) => {
            if is_dot(cells, t) {
                Act::Join(Compounds {
                    n: l,
                    m: t,
                    left: l,
                    right: t + 1,
                    arity: 2,
                })
            } else {
                Act::Clash
            }
        }
        _ => Act::Clash,
    }
}

// An atom against a cell of the kind `k`, which is no Var.
fn unify_atom(cells: &[u64], name: u32, k: Kind) -> Act
    requires { (x : ℕ) × Kinds cells.now (Atom name x) k }
    ensures { (x a b : ℕ) → Decided cells.now a (Atom name x) b k result }
{
    match k {
        Kind::Atom { name: n, arity: _ } => agree(name == n),
        Kind::Str(t) => agree(is_atom(cells, t, name)),
        _ => Act::Clash,
    }
}

// A number against a cell of the kind `k`, which is no Var.
fn unify_fixnum(n: i64, k: Kind) -> Act
    ensures { (cells : List ℕ) → Kinds cells (Fixnum n) k → (a b : ℕ) → Decided cells a (Fixnum n) b k result }
{
    match k {
        Kind::Fixnum(m) => agree(n == m),
        _ => Act::Clash,
    }
}

// An unbound Var against another cell: of two unbound Vars the higher is bound.
fn unify_var(v: usize, b: Cell) -> Act
    ensures { (cells : List ℕ) → Two cells v (Var v) b.at b.kind → Decided cells v (Var v) b.at b.kind result }
{
    match b.kind {
        Kind::Var(w) => {
            if v == w {
                Act::Skip
            } else {
                Act::Bind {
                    var: v.max(w),
                    from: v.min(w),
                }
            }
        }
        _ => Act::Bind { var: v, from: b.at },
    }
}

// What two followed cells ask for, by their kinds.
fn unify_cells(cells: &[u64], a: Cell, b: Cell) -> Act
    requires { Two cells.now a.at a.kind b.at b.kind }
    ensures { Decided cells.now a.at a.kind b.at b.kind result }
{
    if let Kind::Var(v) = a.kind {
        return unify_var(v, b);
    }
    if let Kind::Var(w) = b.kind {
        return Act::Bind { var: w, from: a.at };
    }
    match a.kind {
        Kind::Str(s) => unify_structure(cells, s, b.kind),
        Kind::Lis(l) => unify_list(cells, l, b.kind),
        Kind::Atom { name, arity: _ } => unify_atom(cells, name, b.kind),
        Kind::Fixnum(n) => unify_fixnum(n, b.kind),
        Kind::Var(_) | Kind::Bad => unreachable!(),
    }
}

// A run: the lent words, the count of the used cells, and how many trail entries and pairs stand.
#[derive(Drop)]
struct Machine<'a> {
    cells: &'a mut [u64],
    top: usize,
    trail: &'a mut [u64],
    trailed: &'a mut usize,
    work: &'a mut [u64],
    pairs: usize,
}

// The place of pair number `n` in the work buffer.
fn pair_place(top: usize, n: usize) -> usize
    requires { pair_place top n < 2 ^ 64 }
    ensures { result ≡ pair_place top n }
{
    top + top + 2 * n
}

impl<'a> Machine<'a> {
    // Pair number `n`, which stands above `n` others.
    fn put(&mut self, n: usize, x: usize, y: usize)
        requires { pair_place self.old.top (n + 1) ≤ length self.old.work.now }
        ensures lent { Works self.old self.new }
        ensures pairs { self.new.pairs ≡ self.old.pairs }
        ensures grown { Grown self.old.work.now self.old.top n 1 ((x, y) ∷ []) self.new.work.now }
    {
        let at = pair_place(self.top, n);
        self.work[at] = x as u64;
        self.work[at + 1] = y as u64;
    }

    // The last pair, which then stands no more.
    fn pop(&mut self) -> Option<(usize, usize)>
        requires { pair_place self.old.top self.old.pairs ≤ length self.old.work.now }
        ensures lent { Works self.old self.new }
        ensures words { self.new.work.now ≡ self.old.work.now }
        ensures popped { MatchOption result (self.old.pairs ≡ 0) (λ p. (self.old.pairs ≡ suc self.new.pairs) × (p ≡ pair_at self.old.top self.old.work.now self.new.pairs)) }
    {
        if self.pairs == 0 {
            return None;
        }
        self.pairs -= 1;
        let at = pair_place(self.top, self.pairs);
        Some((self.work[at] as usize, self.work[at + 1] as usize))
    }

    // The arguments of two nodes, the last pair first.
    fn push_args(&mut self, two: Compounds)
        requires { (pair_place self.old.top (self.old.pairs + two.arity) ≤ length self.old.work.now) × (two.left + two.arity ≤ limit) × (two.right + two.arity ≤ limit) }
        ensures lent { Works self.old self.new }
        ensures pairs { self.new.pairs ≡ self.old.pairs + two.arity }
        ensures grown { Grown self.old.work.now self.old.top self.old.pairs two.arity (row two.left two.right two.arity 0) self.new.work.now }
    {
        for i in (0..two.arity).rev() {
            let n = self.pairs + (two.arity - 1 - i);
            self.put(n, two.left + i, two.right + i);
        }
        self.pairs += two.arity;
    }

    // No shortcut is known of any Var.
    fn forget(&mut self)
        requires { pair_place self.old.top 0 ≤ length self.old.work.now }
        ensures lent { Works self.old self.new }
        ensures pairs { self.new.pairs ≡ self.old.pairs }
        ensures forgot { Forgot self.old.work.now self.old.top self.new.work.now }
    {
        let top = self.top;
        self.work[top..2 * top].fill(0);
    }

    // The cell where following ends, by the shortcuts behind the classes.
    fn end_of(&mut self, i: usize) -> usize
        requires { Follows self.old.cells.now self.old.top self.old.work.now i }
        ensures lent { Works self.old self.new }
        ensures pairs { self.new.pairs ≡ self.old.pairs }
        ensures end { (result ≡ end_of self.old.cells.now self.old.top i) × (result < self.old.top) × Followed self.old.cells.now self.old.top self.old.work.now self.new.work.now }
    {
        let top = self.top;
        // Lent on as `&mut`: of a field that was lent as `&` only the length would be known after it.
        let cells = &mut *self.cells;
        let next = store::step_of(cells, i);
        if next == i {
            return i;
        }
        chains::end_by(cells, top, &mut self.work[top..], next)
    }

    // What the pair of `x` and `y` asks for, once both are followed. Cells of equal words come to one
    // cell, or show the same, and need not be.
    fn next_act(&mut self, x: usize, y: usize) -> Act
        requires { Looks self.old.cells.now self.old.top self.old.work.now self.old.pairs × ((x, y) ≡ pair_at self.old.top self.old.work.now self.old.pairs) }
        ensures lent { Works self.old self.new }
        ensures pairs { self.new.pairs ≡ self.old.pairs }
        ensures looked { Looked self.old.cells.now self.old.top self.old.work.now self.old.pairs self.new.work.now result }
    {
        if self.cells[x] == self.cells[y] {
            return Act::Skip;
        }
        let a = self.end_of(x);
        let b = self.end_of(y);
        // Lent on as `&mut`, as in `end_of`.
        let cells = &mut *self.cells;
        unify_cells(cells, Cell::read(cells, a), Cell::read(cells, b))
    }

    // The Var at `v` gets the word of the cell `e`, and is trailed.
    fn bind(&mut self, v: usize, e: usize)
        requires { (v < length self.old.cells.now) × (e < length self.old.cells.now) × (self.old.trailed.now < length self.old.trail.now) }
        ensures lent { Lent self.old self.new }
        ensures bound { held self.new ≡ holds (set self.old.cells.now v (get_or self.old.cells.now e 0)) (set self.old.trail.now self.old.trailed.now v) self.old.work.now self.old.pairs (self.old.trailed.now + 1) }
    {
        self.cells[v] = self.cells[e];
        self.trail[*self.trailed] = v as u64;
        *self.trailed += 1;
    }

    // The classes of two nodes become one and the pairs of their arguments are pushed, unless they
    // are in one class already.
    fn join(&mut self, two: Compounds)
        requires { Meets self.old.work.now self.old.top self.old.pairs two.n two.m two.left two.right two.arity }
        ensures lent { Works self.old self.new }
        ensures met { Met self.old.work.now self.old.top self.old.pairs two.n two.m two.left two.right two.arity self.new.work.now self.new.pairs }
    {
        let top = self.top;
        let a = classes::find(self.work, top, two.n);
        let b = classes::find(self.work, top, two.m);
        if a == b {
            return;
        }
        classes::join(self.work, top, a, b);
        self.push_args(two);
    }

    // Does what the pair of `x` and `y` asks for, which was taken last; whether the run goes on.
    fn unify_pair(&mut self, x: usize, y: usize) -> bool
        requires { Ready self.old.top (holds self.old.cells.now self.old.trail.now self.old.work.now (suc self.old.pairs) self.old.trailed.now) × ((x, y) ≡ pair_at self.old.top self.old.work.now self.old.pairs) }
        ensures lent { Lent self.old self.new }
        ensures went { Went self.old.top (holds self.old.cells.now self.old.trail.now self.old.work.now (suc self.old.pairs) self.old.trailed.now) result (held self.new) }
    {
        match self.next_act(x, y) {
            Act::Skip => {}
            Act::Bind { var, from } => self.bind(var, from),
            Act::Join(two) => self.join(two),
            Act::Clash => return false,
        }
        true
    }

    // Each node is a class of its own, no shortcut is known, and the roots are the one pair.
    fn start(&mut self, a: usize, b: usize)
        requires { (pair_place self.old.top 1 ≤ length self.old.work.now) × (self.old.pairs ≡ 0) }
        ensures lent { Works self.old self.new }
        ensures pairs { self.new.pairs ≡ 1 }
        ensures started { Started self.old.work.now self.old.top a b self.new.work.now }
    {
        classes::apart(self.work, self.top);
        self.forget();
        self.put(0, a, b);
        self.pairs = 1;
    }
}

// Unifies the cells `a` and `b` plainly, past the refusals; whether they have a unifier. After a
// clash too `trailed` counts the new trail entries, to be undone.
pub fn unify_internal(
    cells: &mut [u64],
    top: usize,
    trail: &mut [u64],
    trailed: &mut usize,
    work: &mut [u64],
    a: usize,
    b: usize,
) -> bool
    requires { Begins (lent cells.old top trail.old trailed.old) work.old a b }
    ensures { Left (lent cells.old top trail.old trailed.old) work.old a b cells.new trail.new trailed.new work.new result }
{
    let mut machine = Machine {
        cells,
        top,
        trail,
        trailed,
        work,
        pairs: 0,
    };
    machine.start(a, b);
    while let Some((x, y)) = machine.pop() {
        if !machine.unify_pair(x, y) {
            return false;
        }
    }
    true
}
