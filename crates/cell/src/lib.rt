// A cell is a 64-bit word: value in bits 0 to 55, mark bit 56, forwarding bit 57, tag 58 to 63.
// This crate splits a word by shifts and masks, says what it means, and builds it again. It also
// holds the refusals of every public call, and makes number cells.
#![tactic(auto)]

ghost use Rattle.std.specs.Prelude.{◌≡◌, ◌+◌, ◌*◌, ◌^◌, ◌<◌, length, get_or};
ghost use Rattle.cell.specs.Word.{tag_of, forward_of, mark_of, value_of, name_of, arity_of, spare_of, arity_bits, word_of, var_word};
ghost use Rattle.cell.specs.Fixnum.{to_number};
ghost use Rattle.cell.specs.Kinds.{kind_of, word_of_kind, Proper};
ghost use Rattle.cell.specs.Answers.{refusal_number, number_cell};

// Why a public call refuses: a case for each row of the table of refusals, in its order. The
// numbers 1 to 11 are `refusal_number`, in specs/Answers.antt.
#[derive(Clone, Copy, PartialEq, Eq)]
pub enum Refusal {
    Cells,
    Trail,
    Root,
    Work,
    TrailRoom,
    Cycle,
    Room,
    Mark,
    Words,
    Left,
    Number,
}

// The number of a refusal.
impl From<Refusal> for u64 {
    ghost from_gives = { λ r n. n ≡ refusal_number r };

    fn from(r: Refusal) -> u64 {
        match r {
            Refusal::Cells => 1,
            Refusal::Trail => 2,
            Refusal::Root => 3,
            Refusal::Work => 4,
            Refusal::TrailRoom => 5,
            Refusal::Cycle => 6,
            Refusal::Room => 7,
            Refusal::Mark => 8,
            Refusal::Words => 9,
            Refusal::Left => 10,
            Refusal::Number => 11,
        }
    }
}

// What a word says, with its numbers. Bad keeps to no row of the table of kinds.
#[derive(Clone, Copy, PartialEq, Eq)]
pub enum Kind {
    Var(usize),
    Str(usize),
    Lis(usize),
    Atom { name: u32, arity: usize },
    Fixnum(i64),
    Bad,
}

// A cell that was read: its kind, held with its position.
#[derive(Clone, Copy)]
pub struct Cell {
    pub at: usize,
    pub kind: Kind,
}

pub const FIXNUM_MIN: i64 = -0x0080_0000_0000_0000;

pub const FIXNUM_MAX: i64 = 0x007F_FFFF_FFFF_FFFF;

// The tag with the forwarding and the mark bit below it: four times the tag where both are clear.
fn get_tag_bits(w: u64) -> u64
    ensures { result ≡ 4 * tag_of w + 2 * forward_of w + mark_of w }
{
    w >> 56
}

fn get_value(w: u64) -> u64
    ensures { result ≡ value_of w }
{
    w & 0x00FF_FFFF_FFFF_FFFF
}

fn get_name(w: u64) -> u32
    ensures { result ≡ name_of w }
{
    (w & 0xFFFF_FFFF) as u32
}

fn get_arity(w: u64) -> usize
    ensures { result ≡ arity_of w }
{
    ((w >> 32) & 0xFF) as usize
}

// The bits of an Atom's value above its arity.
fn get_spare(w: u64) -> u64
    ensures { result ≡ spare_of w }
{
    (w >> 40) & 0xFFFF
}

// The word with these parts.
fn build_with(tag: u64, forward: u64, mark: u64, value: u64) -> u64
    requires { (tag < 2 ^ 6) × (forward < 2) × (mark < 2) × (value < 2 ^ 56) }
    ensures { result ≡ word_of tag forward mark value }
{
    (tag << 58) | ((forward << 57) | ((mark << 56) | value))
}

fn atom_value(name: u32, arity: usize) -> u64
    requires { arity < 2 ^ arity_bits }
    ensures { result ≡ arity * 2 ^ 32 + name }
{
    ((arity as u64) << 32) | (name as u64)
}

// The number that 56 bits of two's complement stand for.
fn get_num(v: u64) -> i64
    requires { v < 2 ^ 56 }
    ensures { result ≡ to_number v }
{
    let n = v as i64;
    if v < 0x0080_0000_0000_0000 {
        n
    } else {
        n - 0x0100_0000_0000_0000
    }
}

// What a word says, of any word at all.
impl From<u64> for Kind {
    ghost from_gives = { λ w k. k ≡ kind_of w };

    fn from(w: u64) -> Kind {
        let v = get_value(w);
        // Both bits are clear in every row, so these are four times the tags 1 to 5.
        match get_tag_bits(w) {
            4 => Kind::Var(v as usize),
            8 => Kind::Str(v as usize),
            12 => Kind::Lis(v as usize),
            16 => {
                if get_spare(w) == 0 {
                    Kind::Atom {
                        name: get_name(w),
                        arity: get_arity(w),
                    }
                } else {
                    Kind::Bad
                }
            }
            20 => Kind::Fixnum(get_num(v)),
            _ => Kind::Bad,
        }
    }
}

impl Cell {
    // The cell at a position.
    pub fn read(cells: &[u64], at: usize) -> Cell
        requires { at < length cells.now }
        ensures { (result.at ≡ at) × (result.kind ≡ kind_of (get_or cells.now at 0)) }
    {
        Cell {
            at,
            kind: Kind::from(cells[at]),
        }
    }
}

// Makes a number cell: its word, or refusal 11 outside the range of a Fixnum.
pub fn number_cell(n: i64) -> Result<u64, Refusal>
    ensures { result ≡ number_cell n }
{
    if n < FIXNUM_MIN {
        return Err(Refusal::Number);
    }
    if FIXNUM_MAX < n {
        return Err(Refusal::Number);
    }
    let v = if n < 0 { n + 0x0100_0000_0000_0000 } else { n };
    Ok(build_with(5, 0, 0, v as u64))
}

// The word of a Var that names cell `i`: at cell `i` itself, an unbound one.
pub fn var_word(i: usize) -> u64
    requires { i < 2 ^ 56 }
    ensures { result ≡ var_word i }
{
    build_with(1, 0, 0, i as u64)
}

impl Kind {
    // The word of a kind whose numbers fit their places. No `From`, which would take any numbers.
    pub fn word(self) -> u64
        requires { Proper self }
        ensures { result ≡ word_of_kind self }
    {
        match self {
            Kind::Var(v) => build_with(1, 0, 0, v as u64),
            Kind::Str(v) => build_with(2, 0, 0, v as u64),
            Kind::Lis(v) => build_with(3, 0, 0, v as u64),
            Kind::Atom { name, arity } => build_with(4, 0, 0, atom_value(name, arity)),
            Kind::Fixnum(n) => number_cell(n).unwrap_or(0),
            Kind::Bad => 0,
        }
    }
}
