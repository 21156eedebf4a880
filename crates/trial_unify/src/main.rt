// Runs plain and checked unification on the bench heaps and the kinds of cells, in both orders of the
// roots; on cyclic, doubling, overlapping and chained terms as large as they get; and on each refusal.
#![tactic(auto)]

mod calls;
mod heaps;
mod large;
mod refusals;

use std::io;

fn main(rt: HostRuntime) -> io::Result<()> {
    heaps::heap_b(&rt)?;
    heaps::other_heaps(&rt)?;
    heaps::kinds(&rt)?;
    heaps::variables(&rt)?;
    heaps::entries(&rt)?;
    heaps::occurs(&rt)?;
    refusals::cells(&rt)?;
    refusals::trails(&rt)?;
    refusals::roots(&rt)?;
    refusals::rooms(&rt)?;
    refusals::cycles(&rt)?;
    refusals::lowest(&rt)?;
    large::periods(&rt)?;
    large::doubling(&rt)?;
    large::overlapping(&rt)?;
    large::chains(&rt)?;
    large::lists(&rt)
}
