// The bundle: rows of entries, newest first, in a lent table of 4 words an entry (document 01, rules B1 to B4).
// In order: one word; the entry of a link; reading at a snapshot (B3); reading the newest (B4) and whether it is
// pending; laying; finishing. A link is 0 for none, else an entry's number and one more. `size` is how many entries
// the table holds.
// Not here: whose row a link begins, and who may lay or finish (the list's). Every function is total, on any content
// of the table (crate table).
#![tactic(auto)]

ghost use Rattle.std.specs.Prelude.{◌≡◌};
ghost use Rattle.bundle.specs.Bundle.{
  word_at,
  put_at,
  entry_of,
  look_of,
  holds_up,
  at_of,
  newest_of,
  held_of,
  lay_of,
  finish_of,
};

// What holds up one who would read a row, or lay in front of it.
#[derive(Clone, Copy)]
pub enum Held {
    Wait,
    Damaged,
}

// One entry of a scan: taken for its target, or passed for the older one.
#[derive(Clone, Copy)]
pub enum Look {
    Taken(u32),
    Passed(u32),
}

// 4 words an entry.
const WIDTH: u32 = 4;

const TARGET: u32 = 0;

const STAMP: u32 = 1;

const PENDING: u32 = 2;

const OLDER: u32 = 3;

fn word(entries: &[u32], e: u32, k: u32) -> u32
    ensures { result ≡ word_at entries.now e k }
{
    table::word(entries, WIDTH, e, k)
}

fn put(entries: &mut [u32], e: u32, k: u32, v: u32)
    ensures { entries.new ≡ put_at entries.old e k v }
{
    table::store(entries, WIDTH, e, k, v);
}

// The entry that a link names.
#[tactic(auto, unfolding(crate::specs::Bundle::entry_of))]
fn entry(size: u32, link: u32) -> Option<u32>
    ensures { result ≡ entry_of size link }
{
    if link == 0 || size < link {
        return None;
    }
    Some(link - 1)
}

#[tactic(auto, unfolding(crate::specs::Bundle::look_of, crate::specs::Bundle::entry_of))]
fn look_once(entries: &[u32], size: u32, link: u32, s: u32) -> Result<Look, Held>
    ensures { result ≡ look_of size entries.now link s }
{
    let e = entry(size, link).ok_or(Held::Damaged)?;
    if word(entries, e, PENDING) == 0 && word(entries, e, STAMP) <= s {
        return Ok(Look::Taken(word(entries, e, TARGET)));
    }
    Ok(Look::Passed(word(entries, e, OLDER)))
}

// Rule B3's wait: the newest is pending and carries less than s.
#[tactic(auto, unfolding(crate::specs::Bundle::holds_up, crate::specs::Bundle::entry_of))]
fn holds_up(entries: &[u32], size: u32, newest: u32, s: u32) -> bool
    ensures { result ≡ holds_up size entries.now newest s }
{
    let Some(e) = entry(size, newest) else {
        return false;
    };
    word(entries, e, PENDING) != 0 && word(entries, e, STAMP) < s
}

// Rule B3: reading at snapshot s the row that begins at `newest`.
#[tactic(auto, using(crate::proofs::Ways::scanned), unfolding(crate::specs::Bundle::at_of))]
pub fn read_at(entries: &[u32], size: u32, newest: u32, s: u32) -> Result<u32, Held>
    ensures { result ≡ at_of size entries.now newest s }
{
    if holds_up(entries, size, newest, s) {
        return Err(Held::Wait);
    }
    let mut link = newest;
    for _ in 0..size {
        match look_once(entries, size, link, s)? {
            Look::Taken(target) => return Ok(target),
            Look::Passed(older) => link = older,
        }
    }
    Err(Held::Damaged)
}

// Rule B4: the newest entry of the row that begins at `newest`.
#[tactic(auto, unfolding(crate::specs::Bundle::newest_of, crate::specs::Bundle::entry_of))]
pub fn read_newest(entries: &[u32], size: u32, newest: u32) -> Result<u32, Held>
    ensures { result ≡ newest_of size entries.now newest }
{
    let e = entry(size, newest).ok_or(Held::Damaged)?;
    if word(entries, e, PENDING) == 0 {
        return Ok(word(entries, e, TARGET));
    }
    Err(Held::Wait)
}

// Whether the newest entry is pending, asked before laying. An empty row holds nobody up.
#[tactic(auto, unfolding(crate::specs::Bundle::held_of, crate::specs::Bundle::entry_of))]
pub fn newest_held(entries: &[u32], size: u32, newest: u32) -> Result<(), Held>
    ensures { result ≡ held_of size entries.now newest }
{
    if newest == 0 {
        return Ok(());
    }
    let e = entry(size, newest).ok_or(Held::Damaged)?;
    if word(entries, e, PENDING) != 0 {
        return Err(Held::Wait);
    }
    Ok(())
}

// Entry e, pending, carrying the stamp read, in front of the row that begins at `older`.
#[tactic(auto, unfolding(crate::specs::Bundle::lay_of))]
pub fn lay(entries: &mut [u32], e: u32, target: u32, stamp: u32, older: u32)
    ensures { entries.new ≡ lay_of entries.old e target stamp older }
{
    put(entries, e, TARGET, target);
    put(entries, e, STAMP, stamp);
    put(entries, e, PENDING, 1);
    put(entries, e, OLDER, older);
}

// Entry e gets its update's number, and is final.
#[tactic(auto, unfolding(crate::specs::Bundle::finish_of))]
pub fn finish(entries: &mut [u32], e: u32, number: u32)
    ensures { entries.new ≡ finish_of entries.old e number }
{
    put(entries, e, STAMP, number);
    put(entries, e, PENDING, 0);
}
