// Cases of listings: reads each file that an argument names, writes it back and loads it.
// In order: reading and writing back; loading; files.
// Not here: what is expected (stdout), the files (data/). Each line says what a call answered, by document 01's
// numbers; the tables lent are all 7, and `words` counts every word of them afterwards.
#![tactic(auto)]

ghost use Rattle.std.specs.Prelude.{◌≤◌};

use scanning::Whole;
use serving::files;
use std::fs::File;
use std::io;

// ---- reading and writing back

fn write_back(
    rt: &impl Print,
    input: &[u8],
    stamp: u32,
    keys: &[u32],
    values: &[u32],
) -> io::Result<()> {
    let mut out = [0u8; 16357];
    match listing::write(stamp, keys, values, &mut out) {
        Ok(k) => {
            println!(rt; "written={k}")?;
            if out.get(..k) == Some(input) {
                println!(rt; "same bytes")?;
            }
            Ok(())
        }
        Err(why) => say::unwritten(rt, why),
    }
}

fn reads(rt: &impl Print, input: &[u8]) -> io::Result<()> {
    let mut keys = [0u32; 510];
    let mut values = [0u32; 510];
    match scanning::read(510, input, &mut keys, &mut values) {
        Ok(Whole { stamp, count }) => {
            println!(rt; "read={stamp},{count}")?;
            let n = count as usize;
            write_back(rt, input, stamp, &keys[..n], &values[..n])
        }
        Err(why) => say::unloaded(rt, why.into()),
    }
}

// ---- loading

// Every word counts, and its place: three times the sum so far, and the word, without the carry.
fn sum(words: &[u32]) -> u64 {
    words.iter().fold(0u64, |so_far, word| {
        so_far.wrapping_mul(3).wrapping_add(u64::from(*word))
    })
}

fn loads(rt: &impl Print, input: &[u8], nodes: &mut [u32], entries: &mut [u32]) -> io::Result<()> {
    match loading::load(input, nodes, entries) {
        Ok(c) => println!(rt; "loaded={},{},{}", c.nodes, c.entries, c.stamp)?,
        Err(why) => say::unloaded(rt, why)?,
    }
    println!(rt; "words={},{}", sum(nodes), sum(entries))
}

// Into tables whose every word is 7, of so many words.
fn load_into_sevens<const NODES: usize, const ENTRIES: usize>(
    rt: &impl Print,
    input: &[u8],
) -> io::Result<()>
    requires { (NODES ≤ 65536) × (ENTRIES ≤ 65536) }
{
    let mut nodes = [7u32; NODES];
    let mut entries = [7u32; ENTRIES];
    loads(rt, input, &mut nodes, &mut entries)
}

// ---- files

// At most 65,536 bytes of it.
fn answer(rt: &impl Print, mut file: File) -> io::Result<()> {
    let mut input = [0u8; 65536];
    let n = serving::read_full(&mut file, &mut input)?;
    reads(rt, &input[..n])?;
    load_into_sevens::<3072, 8192>(rt, &input[..n])
}

fn main(rt: HostRuntime) -> io::Result<()> {
    println!(rt; "== a node table too short, an entry table too long")?;
    load_into_sevens::<3071, 8192>(&rt, b"")?;
    load_into_sevens::<3072, 8193>(&rt, b"")?;
    files::each(&rt, |file| answer(&rt, file))
}
