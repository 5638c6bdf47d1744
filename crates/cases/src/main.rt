// The test program: serves each file that an argument names, each from a fresh register, and writes the answers one
// after the other under the files' names. `args` names the files of data/, `stdout` is what must come out.
// Assumes nothing.
#![tactic(auto)]

use serving::files;
use std::io;

fn main(rt: HostRuntime) -> io::Result<()> {
    files::each(&rt, |mut file| serving::serve(&mut file, &mut rt.stdout()))
}
