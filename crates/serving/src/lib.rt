// Input served: its lines are run from a fresh register, and the answers are written.
// In order: reading a whole input; the input served.
// specs/Serving.antt says which bytes the answers to an input are. A contract knows no bytes of a file or of standard
// input and output.
// Not here: the work (crate running), the files that a program's arguments name (files.rt). Assumes nothing.
#![tactic(auto)]

ghost use Rattle.std.specs.Prelude.{ℕ, ◌<◌, List, length, take, IfOk, OnOk, IfSome};
ghost use Rattle.std.specs.Io.{ReadsAtMost};
ghost use Rattle.std.specs.Io.KnownBytes.{Consumes, Appends, IsAtEnd};
ghost use Rattle.serving.specs.Serving.{Answers};

use std::io;
use std::io::{Read, Write};

pub mod files;

// Reads until buf is full or the input ends, and returns how many bytes it put at the start of buf. An error is that
// of the first read that failed, and nothing is said of what was read before.
pub fn read_full<R: Read>(source: &mut R, buf: &mut [u8]) -> io::Result<usize>
    ensures bound { ReadsAtMost result buf.new }
    ensures bytes { IfOk result (λ n. Consumes (R.remaining source.old) (R.remaining source.new)
        (take n buf.new)) }
    ensures end { IfOk result (λ n. n < length buf.old → IsAtEnd (R.remaining source.new)) }
{
    let mut done = 0;
    while done < buf.len() {
        let n = source.read(&mut buf[done..])?;
        if n == 0 {
            break;
        }
        done += n;
    }
    Ok(done)
}

// One byte more is read than a run may have, so that input that is too long is seen to be. The tables and the output
// always fit: 512 nodes of 6 words, 2,048 entries of 4 words, and 11 bytes for each of 16,384. So no run is refused.
// An error is the first of a read, before anything is written, or of a write.
pub fn serve<R: Read, W: Write>(source: &mut R, answers: &mut W) -> io::Result<()>
    ensures { OnOk result (IfSome (R.remaining source.old) (λ input. (bytes : List ℕ) × Answers input bytes
        × Appends (W.contents answers.old) (W.contents answers.new) bytes)) }
{
    let mut input = [0u8; 16385];
    let mut nodes = [0u32; 3072];
    let mut entries = [0u32; 8192];
    let mut out = [0u8; 180224];
    let n = read_full(source, &mut input)?;
    let k = running::run(&input[..n], &mut nodes, &mut entries, &mut out).unwrap();
    answers.write_all(&out[..k])
}
