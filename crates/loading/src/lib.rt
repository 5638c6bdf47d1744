// Reading a listing into lent register tables (document 01).
// In order: refusals; one key more; all keys; loading.
// Not here: fresh tables (crate register), the steps of an insert (crate steps). The input is checked and its numbers
// are gathered before the first word of a table changes, so that a refusal changes nothing. Assumes nothing.
#![tactic(auto)]

ghost use Rattle.std.specs.Prelude.{◌≡◌, true, ◌+◌, ◌≤◌, ◌<◌, length};
ghost use Rattle.terms.specs.Terms.{small};
ghost use Rattle.steps.specs.Steps.{tables};
ghost use Rattle.register.specs.Register.{fits};
ghost use Rattle.loading.specs.Refused.{unloaded, unloaded_number};
ghost use Rattle.loading.specs.Filing.{used, pred_of, prepared_nodes, filed_nodes};
ghost use Rattle.loading.specs.Filing.{prepared_entries, filed_entries, filed, filed_all, fresh_tables};
ghost use Rattle.loading.specs.Loading.{done, load_of};

use nodes::{NEWEST, NEXT};
use scanning::Unread;
use terms::{Counters, Refusal};

// Why no register was loaded: a table of another length; a listing that is not allowed, with the offset of its first
// bad line; or a key too many.
#[derive(Clone, Copy)]
pub enum Unloaded {
    BadTable,
    BadListing(usize),
    TooMany,
}

impl From<Unread> for Unloaded {
    ghost from_gives = { λ e u. u ≡ unloaded e };

    fn from(e: Unread) -> Unloaded {
        match e {
            Unread::BadListing(place) => Unloaded::BadListing(place),
            Unread::TooMany => Unloaded::TooMany,
        }
    }
}

// Document 01's number of a refusal.
impl From<Unloaded> for u32 {
    ghost from_gives = { λ why n. n ≡ unloaded_number why };

    fn from(why: Unloaded) -> u32 {
        match why {
            Unloaded::BadTable => u32::from(Refusal::BadTable),
            Unloaded::BadListing(_) => 9,
            Unloaded::TooMany => 10,
        }
    }
}

// The counters where i keys are filed.
fn count_used(i: u32) -> Counters
    requires { i < 65536 }
    ensures { result ≡ used i }
{
    Counters {
        nodes: i + 2,
        entries: 2 * i + 1,
        stamp: i,
    }
}

// The node of the last of i keys, or the head.
#[tactic(auto, unfolding(crate::specs::Filing::pred_of))]
fn pred(i: u32) -> u32
    requires { i < 65536 }
    ensures { result ≡ pred_of i }
{
    if i == 0 { 0 } else { i + 1 }
}

// The end of the list, where the next key is filed: the counters, and the node before the tail.
#[derive(Clone, Copy)]
struct End {
    counters: Counters,
    pred: u32,
    ghost entries_fit: { counters.entries + 2 ≤ 4294967295 },
    ghost stamp_fits: { counters.stamp + 1 ≤ 4294967295 },
}

// After i keys.
fn end_after(i: u32) -> End
    requires { i < 65536 }
    ensures { (result.counters ≡ used i) × (result.pred ≡ pred_of i) }
{
    End {
        counters: count_used(i),
        pred: pred(i),
    }
}

// What an insert's Prepare there writes: the new node, and both bundles' newest entries.
#[tactic(auto, unfolding(crate::specs::Filing::prepared_nodes))]
fn prepare_node(nodes: &mut [u32], end: End, key: u32, value: u32)
    ensures { nodes.new ≡ prepared_nodes end.counters end.pred key value nodes.old }
{
    let n = end.counters.nodes;
    let e = end.counters.entries;
    nodes::new_node(nodes, n, key, value, 1);
    nodes::put(nodes, end.pred, NEWEST, e + 1);
    nodes::put(nodes, n, NEWEST, e + 2);
}

// And what its Link and its Finish write.
#[tactic(auto, unfolding(crate::specs::Filing::filed_nodes))]
fn file_node(nodes: &mut [u32], end: End, key: u32, value: u32)
    ensures { nodes.new ≡ filed_nodes end.counters end.pred key value nodes.old }
{
    let n = end.counters.nodes;
    prepare_node(nodes, end, key, value);
    nodes::put(nodes, end.pred, NEXT, n);
    nodes::unlock(nodes, end.pred);
}

// The two entries that its Prepare lays.
#[tactic(auto, unfolding(crate::specs::Filing::prepared_entries))]
fn prepare_entries(entries: &mut [u32], end: End, older: u32)
    ensures { entries.new ≡ prepared_entries end.counters older entries.old }
{
    let n = end.counters.nodes;
    let e = end.counters.entries;
    let stamp = end.counters.stamp;
    bundle::lay(entries, e, n, stamp, older);
    bundle::lay(entries, e + 1, 1, stamp, 0);
}

// And its Finish numbers.
#[tactic(auto, unfolding(crate::specs::Filing::filed_entries))]
fn file_entries(entries: &mut [u32], end: End, older: u32)
    ensures { entries.new ≡ filed_entries end.counters older entries.old }
{
    let e = end.counters.entries;
    let stamp = end.counters.stamp;
    prepare_entries(entries, end, older);
    bundle::finish(entries, e, stamp + 1);
    bundle::finish(entries, e + 1, stamp + 1);
}

// The tables with one key more, above the i that they have.
fn file(nodes: &mut [u32], entries: &mut [u32], i: u32, key: u32, value: u32)
    requires { i < 65536 }
    ensures { tables nodes.new entries.new ≡
        filed i key value (tables nodes.old entries.old) }
{
    let end = end_after(i);
    let older = nodes::node(nodes, end.pred, NEWEST);
    file_node(nodes, end, key, value);
    file_entries(entries, end, older);
}

// The tables with all keys, each with the value at its place.
fn file_all(nodes: &mut [u32], entries: &mut [u32], keys: &[u32], values: &[u32])
    requires { length keys.now < 65536 }
    ensures { tables nodes.new entries.new ≡
        filed_all 0 keys.now values.now (tables nodes.old entries.old) }
{
    for (i, (&key, &value)) in keys.iter().zip(values).enumerate() {
        file(nodes, entries, i as u32, key, value);
    }
}

// Fresh tables, then all keys.
fn fill(nodes: &mut [u32], entries: &mut [u32], keys: &[u32], values: &[u32])
    requires { (length keys.now < 65536) × (fits small nodes.old entries.old ≡ true) }
    ensures { tables nodes.new entries.new ≡
        filed_all 0 keys.now values.now
        (fresh_tables nodes.old entries.old) }
{
    // Nothing is refused: the lengths are right.
    let _ = register::fresh(nodes, entries);
    file_all(nodes, entries, keys, values);
}

// For tables of the right lengths.
fn load_into(input: &[u8], nodes: &mut [u32], entries: &mut [u32]) -> Result<Counters, Unloaded>
    requires { fits small nodes.old entries.old ≡ true }
    ensures { done (tables nodes.new entries.new) result ≡
        load_of small input.now nodes.old entries.old }
{
    let mut keys = [0u32; 510];
    let mut values = [0u32; 510];
    let whole = scanning::read(510, input, &mut keys, &mut values)?;
    let n = whole.count as usize;
    fill(nodes, entries, &keys[..n], &values[..n]);
    Ok(count_used(whole.count))
}

// Reads a listing into the two tables, which then hold what a fresh register holds after inserting the keys in order.
// A refusal changes nothing.
#[tactic(auto, unfolding(crate::specs::Loading::load_of))]
pub fn load(input: &[u8], nodes: &mut [u32], entries: &mut [u32]) -> Result<Counters, Unloaded>
    ensures { done (tables nodes.new entries.new) result ≡
        load_of small input.now nodes.old entries.old }
{
    if !register::right_lengths(terms::small_size(), nodes, entries) {
        return Err(Unloaded::BadTable);
    }
    load_into(input, nodes, entries)
}
