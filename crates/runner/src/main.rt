// The runner: standard input's lines, served; one line out for each (document 01, "The runner").
// Not here: the work (crate running). Assumes nothing.
#![tactic(auto)]

use std::io;

fn main(rt: HostRuntime) -> io::Result<()> {
    serving::serve(&mut rt.stdin(), &mut rt.stdout())
}
