// Runs the calls of the ground floor on the bench lines and on damaged stores, and prints what they
// answer and leave.
#![tactic(auto)]

mod books;
mod cells;
mod flips;
mod room;
mod run;
mod var_chains;

use std::io;

fn main(rt: HostRuntime) -> io::Result<()> {
    cells::bench_lines(&rt)?;
    cells::cell_rules(&rt)?;
    cells::follows(&rt)?;
    cells::numbers(&rt)?;
    flips::heap_b(&rt)?;
    books::trails(&rt)?;
    books::marks(&rt)?;
    run::history(&rt)?;
    run::left_broken(&rt)?;
    room::limits(&rt)?;
    var_chains::rings(&rt)?;
    var_chains::tails(&rt)?;
    var_chains::turns(&rt)?;
    var_chains::sizes(&rt)?;
    var_chains::appends(&rt)?;
    var_chains::rollbacks(&rt)
}
