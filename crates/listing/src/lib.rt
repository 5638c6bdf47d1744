// The listing (document 01): writing it.
// In order: refusals; one line; a pair; pairs; the parts; sizes; the pairs that may be written; writing.
// Not here: reading (the crate above). Every byte goes straight to its place, and no scratch row is made.
// The writers of parts ask for room, which `write` has checked; `write` itself asks for nothing.
#![tactic(auto)]

ghost use Rattle.std.specs.Prelude.{◌≡◌, ◌+◌, ◌≤◌, length};
ghost use Rattle.text.specs.Text.{Puts};
ghost use Rattle.listing.specs.Listing.{field_of, pair_of, pairs, head_of, body_of, listing_of};
ghost use Rattle.listing.specs.Listing.{key_room, rising, good_pairs, done, write_of};
ghost use Rattle.listing.specs.Refusals.{unwritten_number};

// Why nothing was written.
#[derive(Clone, Copy)]
pub enum Unwritten {
    NoRoom,
    BadPairs,
}

// Document 01's number of a refusal.
impl From<Unwritten> for u32 {
    ghost from_gives = { λ why n. n ≡ unwritten_number why };

    fn from(why: Unwritten) -> u32 {
        match why {
            Unwritten::NoRoom => 11,
            Unwritten::BadPairs => 12,
        }
    }
}

// Keys, each with its value at the same place.
#[derive(Clone, Copy)]
struct Listed<'a> {
    keys: &'a [u32],
    values: &'a [u32],
    ghost same: { length keys.now ≡ length values.now },
    ghost few: { length keys.now ≤ 65536 },
}

// Writes one line.
fn put_field(out: &mut [u8], place: usize, name: &[u8], n: u32) -> usize
    requires { place + length (field_of name.now n) ≤ length out.old }
    ensures { Puts out.old out.new place (field_of name.now n) result }
{
    let a = text::put_bytes(out, place, name);
    let b = text::put_number(out, a, n as u64);
    out[b] = 10;
    b + 1
}

fn put_pair(out: &mut [u8], place: usize, k: u32, v: u32) -> usize
    requires { place + length (pair_of k v) ≤ length out.old }
    ensures { Puts out.old out.new place (pair_of k v) result }
{
    let a = put_field(out, place, b"key=", k);
    put_field(out, a, b"value=", v)
}

fn put_pairs(out: &mut [u8], place: usize, listed: &Listed) -> usize
    requires { place + length (pairs listed.now.keys.now listed.now.values.now) ≤ length out.old }
    ensures { Puts out.old out.new place (pairs listed.now.keys.now listed.now.values.now) result }
{
    let mut p = place;
    for (&k, &v) in listed.keys.iter().zip(listed.values) {
        p = put_pair(out, p, k, v);
    }
    p
}

// Writes the first two lines.
fn put_head(out: &mut [u8], place: usize, stamp: u32) -> usize
    requires { place + length (head_of stamp) ≤ length out.old }
    ensures { Puts out.old out.new place (head_of stamp) result }
{
    let a = put_field(out, place, b"edition=", 1);
    put_field(out, a, b"stamp=", stamp)
}

// Writes the pairs and their number.
fn put_body(out: &mut [u8], place: usize, listed: &Listed) -> usize
    requires { place + length (body_of listed.now.keys.now listed.now.values.now) ≤ length out.old }
    ensures { Puts out.old out.new place (body_of listed.now.keys.now listed.now.values.now) result }
{
    let a = put_pairs(out, place, listed);
    put_field(out, a, b"count=", listed.keys.len() as u32)
}

// Writes all of it, and answers the place after it.
fn put_listing(out: &mut [u8], place: usize, stamp: u32, listed: &Listed) -> usize
    requires { place + length (listing_of stamp listed.now.keys.now listed.now.values.now) ≤ length out.old }
    ensures { Puts out.old out.new place
        (listing_of stamp listed.now.keys.now listed.now.values.now) result }
{
    let a = put_head(out, place, stamp);
    put_body(out, a, listed)
}

// How many bytes a pair takes.
#[tactic(auto, using(crate::proofs::Put::pair_sizes))]
fn pair_size(k: u32, v: u32) -> usize
    ensures { result ≡ length (pair_of k v) }
{
    12 + text::width(k as u64) + text::width(v as u64)
}

// How many bytes the pairs take.
fn pairs_size(listed: &Listed) -> usize
    ensures { (result ≡ length (pairs listed.now.keys.now listed.now.values.now)) × (result ≤ 4194304) }
{
    let mut n = 0;
    for (&k, &v) in listed.keys.iter().zip(listed.values) {
        n += pair_size(k, v);
    }
    n
}

// How many bytes the listing takes.
fn size(stamp: u32, listed: &Listed) -> usize
    ensures { result ≡ length (listing_of stamp listed.now.keys.now listed.now.values.now) }
{
    24 + text::width(stamp as u64) + pairs_size(listed) + text::width(listed.keys.len() as u64)
}

// Whether the keys are in bounds and rise.
fn rises(keys: &[u32]) -> bool
    ensures { result ≡ rising 0 keys.now }
{
    let mut last = 0;
    for &k in keys {
        if k <= last || 4294967295 <= k {
            return false;
        }
        last = k;
    }
    true
}

#[tactic(auto, unfolding(crate::specs::Listing::good_pairs))]
fn good_pairs(most: u32, keys: &[u32], values: &[u32]) -> bool
    ensures { result ≡ good_pairs most keys.now values.now }
{
    keys.len() == values.len() && keys.len() <= most as usize && rises(keys)
}

// Writes a listing of a stamp, keys and values, as those that a range over all keys hands out with its snapshot, and
// answers its length. A refusal changes nothing, and no byte past the length changes.
#[tactic(auto, unfolding(crate::specs::Listing::write_of))]
pub fn write(stamp: u32, keys: &[u32], values: &[u32], out: &mut [u8]) -> Result<usize, Unwritten>
    ensures { done out.new result ≡
        write_of key_room stamp keys.now values.now out.old }
{
    if !good_pairs(510, keys, values) {
        return Err(Unwritten::BadPairs);
    }
    let listed = Listed { keys, values };
    if out.len() < size(stamp, &listed) {
        return Err(Unwritten::NoRoom);
    }
    Ok(put_listing(out, 0, stamp, &listed))
}
