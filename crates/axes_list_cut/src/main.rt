// axes_list, run on three axes of which the last is cut.
#![tactic(auto)]

use std::io;

fn main(rt: HostRuntime) -> io::Result<()> {
    lister::run(&rt)
}
