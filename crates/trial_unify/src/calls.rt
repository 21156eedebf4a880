// One call, and what it answered and left.
use std::fmt;
use trial::{Lent, Outcome, zeros};

// A call, plain or checked, and its two roots.
#[derive(Clone, Copy)]
pub enum Call {
    Plain(usize, usize),
    Checked(usize, usize),
}

impl fmt::Display for Call {
    fn fmt<W: fmt::Write>(&self, f: &mut fmt::Formatter<W>) -> fmt::Result {
        match self {
            Call::Plain(a, b) => write!(f, "plain ({a}, {b})"),
            Call::Checked(a, b) => write!(f, "checked ({a}, {b})"),
        }
    }
}

impl Call {
    // Both kinds of call, and both orders of the roots.
    pub fn each(a: usize, b: usize) -> [Call; 4] {
        [
            Call::Plain(a, b),
            Call::Plain(b, a),
            Call::Checked(a, b),
            Call::Checked(b, a),
        ]
    }

    // Makes the call; tells its answer.
    pub fn answer<const CELLS: usize, const ENTRIES: usize, const MARKS: usize>(
        self,
        heap: &mut Lent<CELLS, ENTRIES, MARKS>,
        work: &mut [u64],
    ) -> Outcome<&'static str> {
        let mut yes = 0;
        let r = match self {
            Call::Plain(a, b) => engine::trisculap_unify(
                &mut heap.cells,
                heap.top,
                &mut heap.trail,
                &mut heap.trailed,
                &heap.marks,
                heap.marked,
                work,
                a,
                b,
                &mut yes,
            ),
            Call::Checked(a, b) => engine::trisculap_unify_checked(
                &mut heap.cells,
                heap.top,
                &mut heap.trail,
                &mut heap.trailed,
                &heap.marks,
                heap.marked,
                work,
                a,
                b,
                &mut yes,
            ),
        };
        Outcome::of(r, if yes == 1 { "yes" } else { "no unifier" })
    }

    // Makes the call; tells its answer and what it left.
    pub fn made<const CELLS: usize, const ENTRIES: usize, const MARKS: usize>(
        self,
        heap: &mut Lent<CELLS, ENTRIES, MARKS>,
        work: &mut [u64],
    ) -> Made {
        let answer = self.answer(heap, work);
        Made {
            call: self,
            answer,
            trailed: heap.trailed,
            zeros: zeros(work),
        }
    }
}

// A call and what it answered, the trail count after it, and how many work words at the start are 0.
#[derive(Clone, Copy)]
pub struct Made {
    call: Call,
    answer: Outcome<&'static str>,
    trailed: usize,
    zeros: usize,
}

impl fmt::Display for Made {
    fn fmt<W: fmt::Write>(&self, f: &mut fmt::Formatter<W>) -> fmt::Result {
        write!(f, "{}: {}, ", self.call, self.answer)?;
        write!(f, "trail count {}, ", self.trailed)?;
        write!(f, "work words 0: {}", self.zeros)
    }
}
