// What the programs that run cases print of a refusal of the listing's crates: `refused=` and document 01's number,
// and of a listing that is not allowed the offset too, after a comma.
// In order: of writing; of reading and loading. Each returns the error of the first write that fails.
// Not here: the runner's answers (crate lines). No contract can say what is written.
#![tactic(auto)]

use listing::Unwritten;
use loading::Unloaded;
use std::io;

pub fn unwritten(rt: &impl Print, why: Unwritten) -> io::Result<()> {
    println!(rt; "refused={}", u32::from(why))
}

pub fn unloaded(rt: &impl Print, why: Unloaded) -> io::Result<()> {
    let number = u32::from(why);
    match why {
        Unloaded::BadListing(offset) => println!(rt; "refused={number},{offset}"),
        _ => println!(rt; "refused={number}"),
    }
}
