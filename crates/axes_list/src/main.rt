// Lists the axes of a bare fvar from standard input.
#![tactic(auto)]

use std::io;

fn main(rt: HostRuntime) -> io::Result<()> {
    lister::run(&rt)
}
