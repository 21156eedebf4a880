// Reads little-endian words from standard input, takes their number as `top`, and prints whether they
// are a well-formed store.
#![tactic(auto)]

ghost use Rattle.std.specs.Prelude.{◌≡◌, ◌/◌, ◌%◌, ◌<◌, ◌≤◌, ◌≢◌, ◌↔◌, length, map, IfOk, IsErrOf};
ghost use Rattle.std.specs.Int.{w64, from_le_bytes};
ghost use Rattle.std.specs.Simd.{first_chunks};

use std::error::Error;
use std::io::Read;
use std::{fmt, io};

const MOST_WORDS: usize = 1024;

const MOST_BYTES: usize = 8 * MOST_WORDS;

// A byte more than the most shows that the input is longer.
const ROOM: usize = MOST_BYTES + 1;

// Why bytes are no list of words.
#[derive(Clone, Copy, Debug)]
enum InputError {
    TooLong,
    OddLength,
}

impl fmt::Display for InputError {
    fn fmt<W: fmt::Write>(&self, f: &mut fmt::Formatter<W>) -> fmt::Result {
        match self {
            InputError::TooLong => write!(f, "too long"),
            InputError::OddLength => write!(f, "odd length"),
        }
    }
}

impl Error for InputError {}

// The words that the bytes are, which stand at the start of `cells`.
fn words<'a>(bytes: &[u8], cells: &'a mut [u64; MOST_WORDS]) -> Result<&'a [u64], InputError>
    ensures words { IfOk result (λ ws. ws.now ≡ map (from_le_bytes w64) (first_chunks 8 (length bytes.now / 8) bytes.now)) }
    ensures too_long { IsErrOf result InputError.TooLong ↔ (MOST_BYTES < length bytes.now) }
    ensures odd { IsErrOf result InputError.OddLength ↔ ((length bytes.now ≤ MOST_BYTES) × (length bytes.now % 8 ≢ 0)) }
{
    if MOST_BYTES < bytes.len() {
        return Err(InputError::TooLong);
    }
    let (chunks, rest) = bytes.as_chunks::<8>();
    if !rest.is_empty() {
        return Err(InputError::OddLength);
    }
    // By index, since no contract tells what a zipped `iter_mut` has written.
    for (i, chunk) in chunks.iter().enumerate() {
        cells[i] = u64::from_le_bytes(*chunk);
    }
    Ok(&cells[..chunks.len()])
}

// The number that the store check returns for words, as C sees it, and how many they are.
#[derive(Clone, Copy)]
struct Verdict {
    top: usize,
    returned: u64,
}

impl fmt::Display for Verdict {
    fn fmt<W: fmt::Write>(&self, f: &mut fmt::Formatter<W>) -> fmt::Result {
        let top = self.top;
        match self.returned {
            0 => write!(f, "cells {top}: well formed"),
            refusal => write!(f, "cells {top}: refused {refusal}"),
        }
    }
}

// The store check of the words that the bytes are, with no trail and no marks.
fn check(bytes: &[u8]) -> Result<Verdict, InputError> {
    let mut room = [0; MOST_WORDS];
    let cells = words(bytes, &mut room)?;
    let top = cells.len();
    let returned = engine::trisculap_check(cells, top, &[], 0, &[], 0);
    Ok(Verdict { top, returned })
}

// Reads until the bytes are full or the input ends; tells how many it read, which `io::copy` does not
// promise to be within the room.
fn read_full(input: &mut impl Read, bytes: &mut [u8]) -> io::Result<usize>
    ensures { IfOk result (λ n. n ≤ length bytes.new) }
{
    let mut done = 0;
    while done < bytes.len() {
        match input.read(&mut bytes[done..])? {
            0 => break,
            n => done += n,
        }
    }
    Ok(done)
}

fn main(rt: HostRuntime) -> io::Result<()> {
    let mut room = [0; ROOM];
    let n = read_full(&mut rt.stdin(), &mut room)?;
    match check(&room[..n]) {
        Ok(verdict) => println!(rt; "{verdict}"),
        Err(why) => println!(rt; "{why}"),
    }
}
