// A history of calls on one store, with all lent words after each; and stores that a rollback would
// break.
use std::{fmt, io};
use trial::{A, G_1, LIS, Lent, Numbers, STR, VAR};

type Book = Lent<10, 3, 5>;

// All lent words and all counts.
#[derive(Clone, Copy)]
struct State<'a>(&'a Book);

impl fmt::Display for State<'_> {
    fn fmt<W: fmt::Write>(&self, f: &mut fmt::Formatter<W>) -> fmt::Result {
        let b = self.0;
        write!(f, "  top {}, trail count {}, ", b.top, b.trailed)?;
        writeln!(f, "marks {}\n{b}", b.marked)?;
        write!(f, "  marks{}", Numbers(&b.marks))
    }
}

// Two marks, with a cell bound between them; refusals; and back to each mark.
pub fn history(rt: &impl Print) -> io::Result<()> {
    let mut b = Book::holding(&[0]);
    let words = [VAR + 1, STR + 3, G_1, VAR + 4];
    println!(rt;
        "append Var 1, Str 3, g/1, Var 4: {}\n{}",
        b.append(&words),
        State(&b)
    )?;
    println!(rt; "mark: {}\n{}", b.mark(), State(&b))?;
    println!(rt; "append a: {}\n{}", b.append(&[A]), State(&b))?;
    // Cell 1 gets the word of `a` by hand, and is trailed.
    b.cells[1] = A;
    b = b.trailing(&[1]);
    println!(rt; "mark, with cell 1 bound: {}\n{}", b.mark(), State(&b))?;
    println!(rt; "mark with no room: {}\n{}", b.mark(), State(&b))?;
    println!(rt;
        "append Lis 7, a, a: {}\n{}",
        b.append(&[LIS + 7, A, A]),
        State(&b)
    )?;
    println!(rt; "append Str 2: {}\n{}", b.append(&[STR + 2]), State(&b))?;
    println!(rt; "append a, a: {}\n{}", b.append(&[A, A]), State(&b))?;
    println!(rt; "append none: {}\n{}", b.append(&[]), State(&b))?;
    println!(rt; "cut to 3: {}\n{}", b.cut(3), State(&b))?;
    println!(rt; "rollback to 0: {}\n{}", b.rollback(0), State(&b))?;
    println!(rt; "rollback to 3: {}\n{}", b.rollback(3), State(&b))?;
    println!(rt; "rollback to 2: {}\n{}", b.rollback(2), State(&b))?;
    println!(rt; "cut to 1: {}\n{}", b.cut(1), State(&b))?;
    println!(rt; "rollback to 1: {}\n{}", b.rollback(1), State(&b))?;
    println!(rt; "cut to 0: {}\n{}", b.cut(0), State(&b))
}

// Rolls 0, Str 2, g/1, Var 4, a with these trail entries back to a mark of these counts.
fn broken(rt: &impl Print, name: &str, entries: &[u64], mark: [u64; 2]) -> io::Result<()> {
    let cells = [0, STR + 2, G_1, VAR + 4, A];
    let mut b = Book::holding(&cells).trailing(entries).marking(&mark);
    println!(rt; "{name}: {}\n{}", b.rollback(1), State(&b))
}

// Each way in which a rollback would break the store, and one that breaks nothing.
pub fn left_broken(rt: &impl Print) -> io::Result<()> {
    broken(rt, "rollback to a top of 0", &[], [0, 0])?;
    broken(rt, "rollback into a run", &[], [3, 0])?;
    broken(rt, "rollback below the cell that a Var names", &[], [4, 0])?;
    broken(rt, "rollback below a trail entry that stays", &[4], [4, 1])?;
    broken(rt, "rollback that unbinds a header", &[2], [5, 0])?;
    broken(
        rt,
        "rollback that unbinds the Var and drops a",
        &[3],
        [4, 0],
    )
}
