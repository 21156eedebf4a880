// Heap B with each bit of each cell flipped.
ghost use Rattle.std.specs.Prelude.{◌<◌};

use std::io;
use trial::{HEAP_B, check};

// Each bit of cell `i`.
fn bits(rt: &impl Print, i: usize) -> io::Result<()>
    requires { i < 4 }
{
    for bit in 0..u64::BITS {
        let mut b = HEAP_B;
        b[i] ^= 1 << bit;
        if check(&b, 4).0.is_ok() {
            println!(rt; "  accepted: cell {i}, bit {bit}")?;
        }
    }
    Ok(())
}

// Each bit of each cell.
pub fn heap_b(rt: &impl Print) -> io::Result<()> {
    println!(rt; "heap B, one bit flipped:")?;
    for i in 0..4 {
        bits(rt, i)?;
    }
    Ok(())
}
