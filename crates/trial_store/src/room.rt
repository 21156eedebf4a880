// Appends up to the limit and past it, in exactly as many lent cells as the limit.
use std::{fmt, io};
use store::LIMIT;
use trial::{FIXNUM, Lent, Outcome, Told};

// What an append answered, and the top after it.
#[derive(Clone, Copy)]
pub struct Appended {
    answer: Outcome<Told<usize>>,
    top: usize,
}

impl fmt::Display for Appended {
    fn fmt<W: fmt::Write>(&self, f: &mut fmt::Formatter<W>) -> fmt::Result {
        write!(f, "{}, top {}", self.answer, self.top)
    }
}

// Appends words to the cells below `top`.
pub fn append(cells: [u64; LIMIT], top: usize, words: &[u64]) -> Appended {
    let mut lent = Lent::<LIMIT, 0, 0>::of(cells, top);
    let answer = lent.append(words);
    Appended {
        answer,
        top: lent.top,
    }
}

// As many cells as the limit, and one more.
pub fn limits(rt: &impl Print) -> io::Result<()> {
    let cells = [0; LIMIT];
    let words = [FIXNUM; LIMIT];
    println!(rt; "append to the limit: {}", append(cells, 1, &words[1..]))?;
    println!(rt; "append past the limit: {}", append(cells, 1, &words))
}
