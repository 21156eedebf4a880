// Stores of ten cells or fewer, with all their words after each call: the bench heaps, and each kind
// against each other.
use crate::calls::Call;
use crate::calls::Call::{Checked, Plain};
use std::io;
use trial::{A, B, F_2, FIXNUM, G_1, HEAP_B, LIS, Lent, NIL, STR, VAR, cyclic};

const DOT_2: u64 = 0x1000_0002_0000_002E;

const MINUS_1: u64 = 0x14FF_FFFF_FFFF_FFFF;

type Heap = Lent<10, 3, 0>;

// One call on a heap as it is; tells the heap after it.
fn unify(rt: &impl Print, name: &str, mut heap: Heap, call: Call) -> io::Result<Heap> {
    let made = call.made(&mut heap, &mut [7; 121]);
    println!(rt; "{name}, {made}\n{heap}")?;
    Ok(heap)
}

// Each call of two roots, on the heap as it is.
fn each_way(rt: &impl Print, name: &str, heap: Heap, a: usize, b: usize) -> io::Result<()> {
    for call in Call::each(a, b) {
        unify(rt, name, heap, call)?;
    }
    Ok(())
}

// P1 to P4, on heap B.
pub fn heap_b(rt: &impl Print) -> io::Result<()> {
    let b = Heap::holding(&HEAP_B);
    let p = unify(rt, "P1", b, Plain(1, 3))?;
    let verdict = cyclic(&p.cells, p.top, 1);
    println!(rt; "P2, then the cycle verdict at 1: {verdict}")?;
    unify(rt, "P3, then", p, Checked(1, 3))?;
    unify(rt, "P3, then", p, Checked(3, 1))?;
    unify(rt, "P1, the other way round", b, Plain(3, 1))?;
    unify(rt, "P4", b, Checked(1, 3))?;
    unify(rt, "P4", b, Checked(3, 1))?;
    unify(rt, "one root twice", b, Plain(1, 1))?;
    unify(rt, "one root twice", b, Checked(1, 1))?;
    unify(rt, "one root twice, cyclic", p, Plain(1, 1))?;
    unify(rt, "one root twice, cyclic", p, Checked(1, 1))?;
    Ok(())
}

// f(X, a) and f(7, Y).
const P7: [u64; 9] = [
    0,
    STR + 2,
    F_2,
    VAR + 3,
    A,
    STR + 6,
    F_2,
    FIXNUM + 7,
    VAR + 8,
];

// P6 to P9.
pub fn other_heaps(rt: &impl Print) -> io::Result<()> {
    let p6 = Heap::holding(&[0, VAR + 1, VAR + 2]);
    each_way(rt, "P6", p6, 1, 2)?;
    each_way(rt, "P7", Heap::holding(&P7), 1, 5)?;
    let p8 = Heap::holding(&[0, STR + 2, DOT_2, A, NIL, LIS + 6, A, NIL]);
    each_way(rt, "P8", p8, 1, 5)?;
    let p9 = Heap::holding(&[0, STR + 2, A, A]);
    each_way(rt, "P9", p9, 1, 3)
}

// The answers to each call of two cells of these words. They may name f(a, []) at 3, the pair of its
// arguments at 4, an atom a at 6 and g(a) at 7.
fn answers(rt: &impl Print, name: &str, x: u64, y: u64) -> io::Result<()> {
    let cells = [0, x, y, F_2, A, NIL, A, G_1, A];
    let [p, q, r, s] = Call::each(1, 2).map(|call| {
        let mut heap = Lent::<9, 1, 0>::of(cells, 9);
        call.answer(&mut heap, &mut [7; 108])
    });
    println!(rt; "{name}: {p}, {q}, {r}, {s}")
}

// Each kind of cell against each other.
pub fn kinds(rt: &impl Print) -> io::Result<()> {
    answers(rt, "a and a", A, A)?;
    answers(rt, "a and b", A, B)?;
    answers(rt, "a and the structure a", A, STR + 6)?;
    answers(rt, "[] and the structure a", NIL, STR + 6)?;
    answers(rt, "7 and 7", FIXNUM + 7, FIXNUM + 7)?;
    answers(rt, "7 and 8", FIXNUM + 7, FIXNUM + 8)?;
    answers(rt, "-1 and -1", MINUS_1, MINUS_1)?;
    answers(rt, "-1 and 7", MINUS_1, FIXNUM + 7)?;
    answers(rt, "7 and a", FIXNUM + 7, A)?;
    answers(rt, "7 and the structure a", FIXNUM + 7, STR + 6)?;
    answers(rt, "f(a, []) and itself", STR + 3, STR + 3)?;
    answers(rt, "f(a, []) and g(a)", STR + 3, STR + 7)?;
    answers(rt, "f(a, []) and the pair of a and []", STR + 3, LIS + 4)?;
    answers(rt, "f(a, []) and a", STR + 3, A)?;
    answers(rt, "f(a, []) and 7", STR + 3, FIXNUM + 7)?;
    answers(rt, "the pair of a and [] and itself", LIS + 4, LIS + 4)?;
    answers(rt, "the pair of a and [] and []", LIS + 4, NIL)?;
    answers(rt, "the pair of a and [] and 7", LIS + 4, FIXNUM + 7)?;
    answers(rt, "a variable and itself", VAR + 1, VAR + 1)?;
    answers(rt, "a variable and f(a, [])", VAR + 1, STR + 3)
}

// Variables that get bound.
pub fn variables(rt: &impl Print) -> io::Result<()> {
    let a = Heap::holding(&[0, VAR + 1, STR + 3, A]);
    each_way(rt, "a variable and the structure a", a, 1, 2)?;
    let pair = Heap::holding(&[0, VAR + 1, LIS + 3, A, NIL]);
    each_way(rt, "a variable and a pair", pair, 1, 2)?;
    let chain = Heap::holding(&[0, VAR + 2, VAR + 3, VAR + 3, FIXNUM + 7]);
    each_way(rt, "a variable at the end of a chain and 7", chain, 1, 4)
}

// With an entry on the trail before the call, which names no unbound Var: it stays.
pub fn entries(rt: &impl Print) -> io::Result<()> {
    let yes = Heap::holding(&P7).trailing(&[4]);
    each_way(rt, "P7 with one entry before", yes, 1, 5)?;
    let no = Heap::holding(&[0, STR + 2, F_2, VAR + 3, A, STR + 6, F_2, FIXNUM + 7, B]);
    each_way(rt, "f(X, a) and f(7, b)", no, 1, 5)?;
    each_way(
        rt,
        "the same with one entry before",
        no.trailing(&[4]),
        1,
        5,
    )
}

// Bindings that close a cycle, at once and by way of another variable.
pub fn occurs(rt: &impl Print) -> io::Result<()> {
    let pairs = [
        0,
        LIS + 3,
        LIS + 5,
        VAR + 3,
        VAR + 4,
        LIS + 7,
        LIS + 3,
        VAR + 4,
        NIL,
    ];
    each_way(rt, "[X|Y] and [[Y], X|Y]", Heap::holding(&pairs), 1, 2)?;
    let both = [
        0,
        LIS + 3,
        G_1,
        VAR + 3,
        VAR + 4,
        STR + 7,
        STR + 2,
        G_1,
        VAR + 4,
        LIS + 5,
    ];
    each_way(rt, "[X|Y] and [g(Y)|g(X)]", Heap::holding(&both), 1, 9)
}
