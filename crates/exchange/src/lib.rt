// Listings for other programs: written from and read into lent slices, answered in words.
// In order: putting an answer; writing; reading. Each call returns 0 or a refusal's number; a refusal changes nothing
// but the answer, and an answer of another length than 3 stays as it is. No call has a `requires`.
// Not here: the exported names (crate ffi), what a listing is (crates listing, scanning, loading). Assumes nothing.
#![tactic(auto)]

ghost use Rattle.std.specs.Prelude.{◌≡◌};
ghost use Rattle.terms.specs.Terms.{small};
ghost use Rattle.listing.specs.Listing.{key_room};
ghost use Rattle.exchange.specs.Exchange.{told, given, written_reply, wrote, write_call};
ghost use Rattle.exchange.specs.Exchange.{left, loaded_reply, loaded_words, read_loaded, read_call};

use listing::Unwritten;
use loading::Unloaded;
use packing::{Reply, name};
use terms::{Counters, Refusal};

// Puts a reply, and returns what the call returns.
pub fn give(answer: &mut [u32], reply: Reply) -> u32
    ensures { told answer.new result ≡ given answer.old reply }
{
    packing::put_reply(answer, reply);
    packing::number_in(reply)
}

// A length as a word: no listing is that long that it would not fit.
fn written_reply(w: Result<usize, Unwritten>) -> Reply
    ensures { result ≡ written_reply w }
{
    match w {
        Ok(n) => Reply {
            name: name::WRITTEN,
            first: (n % 4294967296) as u32,
            ..Reply::default()
        },
        Err(why) => packing::refused(u32::from(why)),
    }
}

#[tactic(auto, unfolding(crate::specs::Exchange::write_call))]
pub fn write_listing(
    stamp: u32,
    keys: &[u32],
    values: &[u32],
    out: &mut [u8],
    answer: &mut [u32],
) -> u32
    ensures { wrote out.new answer.new result
        ≡ write_call key_room stamp keys.now values.now out.old
        answer.old }
{
    if answer.len() != 3 {
        return u32::from(Refusal::BadTable);
    }
    let w = listing::write(stamp, keys, values, out);
    give(answer, written_reply(w))
}

// An offset is a word too: it is at most the length of the longest listing.
fn loaded_reply(l: Result<Counters, Unloaded>) -> Reply
    ensures { result ≡ loaded_reply l }
{
    match l {
        Ok(c) => Reply {
            name: name::READ,
            first: c.stamp,
            ..Reply::default()
        },
        Err(why @ Unloaded::BadListing(offset)) => Reply {
            second: (offset % 4294967296) as u32,
            ..packing::refused(u32::from(why))
        },
        Err(why) => packing::refused(u32::from(why)),
    }
}

// The loaded register's counters, and all sessions idle; a refusal changes nothing.
fn put_loaded(words: &mut [u32], l: Result<Counters, Unloaded>)
    ensures { words.new ≡ loaded_words words.old l }
{
    if let Ok(c) = l {
        packing::fresh_words(words, c);
    }
}

#[tactic(auto, unfolding(crate::specs::Exchange::read_loaded))]
fn read_loaded(
    input: &[u8],
    nodes: &mut [u32],
    entries: &mut [u32],
    words: &mut [u32],
    answer: &mut [u32],
) -> u32
    ensures { left nodes.new entries.new words.new answer.new result
        ≡ read_loaded small input.now nodes.old entries.old words.old
        answer.old }
{
    let l = loading::load(input, nodes, entries);
    put_loaded(words, l);
    give(answer, loaded_reply(l))
}

#[tactic(auto, unfolding(crate::specs::Exchange::read_call, packing::specs::Packing::number_of))]
pub fn read_listing(
    input: &[u8],
    nodes: &mut [u32],
    entries: &mut [u32],
    words: &mut [u32],
    answer: &mut [u32],
) -> u32
    ensures { left nodes.new entries.new words.new answer.new result
        ≡ read_call small input.now nodes.old entries.old words.old
        answer.old }
{
    if answer.len() != 3 {
        return u32::from(Refusal::BadTable);
    }
    if words.len() != 147 {
        return give(answer, Reply::from(Refusal::BadTable));
    }
    read_loaded(input, nodes, entries, words, answer)
}
