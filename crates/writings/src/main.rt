// Cases of writing a listing: into 80 bytes that are all 35, and of as many keys as there may be.
// In order: what was answered; writing into a part of 80 bytes; many keys; the cases.
// Not here: what is expected (stdout). Each line says what a call answered, by document 01's numbers.
#![tactic(auto)]

ghost use Rattle.std.specs.Prelude.{◌≤◌};

use listing::Unwritten;
use std::{array, io};

fn show(rt: &impl Print, written: Result<usize, Unwritten>) -> io::Result<()> {
    match written {
        Ok(length) => println!(rt; "written={length}"),
        Err(why) => say::unwritten(rt, why),
    }
}

// Writes into the first `room` of 80 bytes that are all 35, and shows all 80.
fn try_write(
    rt: &impl Print,
    stamp: u32,
    keys: &[u32],
    values: &[u32],
    room: usize,
) -> io::Result<()>
    requires { room ≤ 80 }
{
    let mut out = [35u8; 80];
    show(rt, listing::write(stamp, keys, values, &mut out[..room]))?;
    rt.write_all(&out)?;
    rt.write_all(b"\n")
}

// As many keys, 1 and on, each with the value 0.
fn try_many(rt: &impl Print, count: usize) -> io::Result<()>
    requires { count ≤ 511 }
{
    let keys: [u32; 511] = array::from_fn(|i| i as u32 + 1);
    let values = [0u32; 511];
    let mut out = [0u8; 16384];
    show(
        rt,
        listing::write(1, &keys[..count], &values[..count], &mut out),
    )
}

fn writings(rt: &impl Print) -> io::Result<()> {
    println!(rt; "== no keys, room to spare, just enough, one byte too few, none")?;
    try_write(rt, 0, &[], &[], 80)?;
    try_write(rt, 0, &[], &[], 26)?;
    try_write(rt, 0, &[], &[], 25)?;
    try_write(rt, 0, &[], &[], 0)?;
    println!(rt; "== two keys")?;
    try_write(rt, 4294967295, &[1, 4294967294], &[0, 4294967295], 80)?;
    println!(rt; "== more keys than values, more values than keys")?;
    try_write(rt, 0, &[1, 2], &[3], 80)?;
    try_write(rt, 0, &[1], &[3, 4], 80)
}

fn bad_writings(rt: &impl Print) -> io::Result<()> {
    println!(rt; "== key 0, key 4294967295, a key twice, falling keys, and no room either")?;
    try_write(rt, 0, &[0], &[3], 80)?;
    try_write(rt, 0, &[4294967295], &[3], 80)?;
    try_write(rt, 0, &[5, 5], &[3, 4], 80)?;
    try_write(rt, 0, &[5, 4], &[3, 4], 80)?;
    try_write(rt, 0, &[5, 4], &[3, 4], 0)?;
    println!(rt; "== 510 keys, 511 keys")?;
    try_many(rt, 510)?;
    try_many(rt, 511)
}

fn main(rt: HostRuntime) -> io::Result<()> {
    writings(&rt)?;
    bad_writings(&rt)
}
