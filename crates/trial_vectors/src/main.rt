// Replays a list of cases from standard input and prints how many differ. A row is a call on a store,
// what it answers, and the cells and the trail after it, as hexadecimal numbers:
//   CALL A B ANSWER TOP cells.. NEW-TOP cells.. ENTRIES trail..
// CALL is 1 plain, 2 checked, 3 copy, 4 cyclic; cell 0 is left out of the cells; 0 ends the list.
#![tactic(auto)]

ghost use Rattle.std.specs.Prelude.{◌≡◌, ◌≢◌, ◌<◌, ◌≤◌, length, IfOk, OnSome};

use std::io;
use std::io::Read;

const MOST_BYTES: usize = 0x4_0000;

const MOST_WORDS: usize = 128;

// Twelve for each of as many cells.
const WORK_WORDS: usize = 12 * MOST_WORDS;

// The answer in a row whose call is refused.
const REFUSED: u64 = 0xFFFF;

// The calls of a row.
#[derive(Clone, Copy)]
enum Call {
    Plain,
    Checked,
    Copy,
    Cyclic,
}

impl TryFrom<u64> for Call {
    type Error = u64;

    fn try_from(number: u64) -> Result<Call, u64> {
        match number {
            1 => Ok(Call::Plain),
            2 => Ok(Call::Checked),
            3 => Ok(Call::Copy),
            4 => Ok(Call::Cyclic),
            _ => Err(number),
        }
    }
}

// A list of words, and how many it is said to have, which may be more than there is room for.
#[derive(Clone, Copy, PartialEq)]
struct List {
    words: [u64; MOST_WORDS],
    len: usize,
}

const EMPTY: List = List {
    words: [0; MOST_WORDS],
    len: 0,
};

// The lent words of a call.
#[derive(Clone, Copy, PartialEq)]
struct Store {
    cells: List,
    trail: List,
}

// What a call tells; none where it is refused.
fn told(returned: u64, answer: u64) -> Option<u64> {
    (returned == 0).then_some(answer)
}

impl Store {
    // A unification, plain or checked: 1 for yes, 0 for no.
    fn unify<F>(&mut self, unify: F, a: usize, b: usize) -> Option<u64>
    where
        F: Fn(
            &mut [u64],
            usize,
            &mut [u64],
            &mut usize,
            &[u64],
            usize,
            &mut [u64],
            usize,
            usize,
            &mut u64,
        ) -> u64
            + Drop,
        requires { F.IsAlwaysCallable unify }
    {
        let Store { cells, trail } = self;
        let mut work = [7; WORK_WORDS];
        let mut yes = 0;
        let returned = unify(
            &mut cells.words,
            cells.len,
            &mut trail.words,
            &mut trail.len,
            &[],
            0,
            &mut work,
            a,
            b,
            &mut yes,
        );
        told(returned, yes)
    }

    // A copy: where it stands.
    fn copy(&mut self, root: usize) -> Option<u64> {
        let List { words, len } = &mut self.cells;
        let mut at = 0;
        let returned = engine::trisculap_copy(words, len, &mut [7; WORK_WORDS], root, &mut at);
        told(returned, at as u64)
    }

    // The cycle verdict: 1 for yes, 0 for no.
    fn cyclic(&self, root: usize) -> Option<u64> {
        let mut yes = 0;
        let returned = engine::trisculap_cyclic(&self.cells.words, self.cells.len, root, &mut yes);
        told(returned, yes)
    }

    // Makes a call; none where it is refused.
    fn make(&mut self, call: Call, a: usize, b: usize) -> Option<u64> {
        match call {
            Call::Plain => self.unify(engine::trisculap_unify, a, b),
            Call::Checked => self.unify(engine::trisculap_unify_checked, a, b),
            Call::Copy => self.copy(a),
            Call::Cyclic => self.cyclic(a),
        }
    }
}

// A row: a call on a store, and what must come of it.
#[derive(Drop)]
struct Row {
    call: Option<Call>,
    a: usize,
    b: usize,
    answer: Option<u64>,
    before: Store,
    after: Store,
}

impl Row {
    // Whether the call comes out as written. A call of no known number is refused.
    fn holds(&self) -> bool {
        let mut store = self.before;
        let answer = self.call.and_then(|call| store.make(call, self.a, self.b));
        answer == self.answer && store == self.after
    }
}

// What a digit stands for.
fn digit(b: u8) -> Option<u64> {
    match b {
        b'0'..=b'9' => Some(u64::from(b - b'0')),
        b'a'..=b'f' => Some(u64::from(b - b'a') + 10),
        _ => None,
    }
}

// What is left of the text.
#[derive(Drop)]
struct Reader<'a> {
    rest: &'a [u8],
}

impl Reader<'_> {
    // The next number, past what is no digit; 0 where none is left. Of more than sixteen digits the last
    // sixteen.
    fn number(&mut self) -> u64
        ensures left { length self.new.rest.now ≤ length self.old.rest.now }
        ensures taken { result ≢ 0 → length self.new.rest.now < length self.old.rest.now }
    {
        let start = self.rest.iter().position(|b| digit(*b).is_some());
        let text = &self.rest[start.unwrap_or(self.rest.len())..];
        let mut value = 0;
        let mut len = 0;
        // One pass over the digits, for most of a run is spent here.
        for b in text {
            let Some(d) = digit(*b) else {
                break;
            };
            value = (value << 4) | d;
            len += 1;
        }
        self.rest = &text[len..];
        value
    }

    // The next list: how many words, then all of them but the first `without`, which are 0.
    fn list(&mut self, without: usize) -> List
        ensures { length self.new.rest.now ≤ length self.old.rest.now }
    {
        let len = self.number() as usize;
        let mut words = [0; MOST_WORDS];
        for word in words.iter_mut().take(len).skip(without) {
            *word = self.number();
        }
        List { words, len }
    }

    // The next row; none at the end of the list.
    fn row(&mut self) -> Option<Row>
        ensures { OnSome result (length self.new.rest.now < length self.old.rest.now) }
    {
        let call = self.number();
        if call == 0 {
            return None;
        }
        Some(Row {
            call: Call::try_from(call).ok(),
            a: self.number() as usize,
            b: self.number() as usize,
            answer: Some(self.number()).filter(|answer| *answer != REFUSED),
            before: Store {
                cells: self.list(1),
                trail: EMPTY,
            },
            after: Store {
                cells: self.list(1),
                trail: self.list(0),
            },
        })
    }
}

// Tells of each row that comes out otherwise than written, and of how many do.
fn replay(rt: &impl Print, text: &[u8]) -> io::Result<()> {
    let mut reader = Reader { rest: text };
    let mut rows = 0usize;
    let mut different = 0usize;
    while let Some(row) = reader.row() {
        if !row.holds() {
            println!(rt; "different: row {rows}")?;
            different += 1;
        }
        rows += 1;
    }
    println!(rt; "rows {rows}, different {different}")
}

// Reads until the bytes are full or the input ends; tells how many it read, which `io::copy` does not
// promise to be within the room.
fn read_full(input: &mut impl Read, bytes: &mut [u8]) -> io::Result<usize>
    ensures { IfOk result (λ n. n ≤ length bytes.new) }
{
    let mut done = 0;
    while done < bytes.len() {
        match input.read(&mut bytes[done..])? {
            0 => break,
            n => done += n,
        }
    }
    Ok(done)
}

fn main(rt: HostRuntime) -> io::Result<()> {
    let mut room = [0; MOST_BYTES];
    let n = read_full(&mut rt.stdin(), &mut room)?;
    replay(&rt, &room[..n])
}
