// A lent table of 32-bit words, `width` words a row: word k of row i stands at place i * width + k.
// In order: reading a word; storing one; clearing all. The first two are total: past the table's end a word reads as
// 0 and a store changes nothing, so that callers owe nothing on any content. Not here: what the words mean. Assumes
// nothing.
#![tactic(auto)]

ghost use Rattle.std.specs.Prelude.{◌≡◌};
ghost use Rattle.table.specs.Table.{word_of, store_of, clear_of};

#[tactic(auto, unfolding(crate::specs::Table::word_of))]
pub fn word(table: &[u32], width: u32, i: u32, k: u32) -> u32
    ensures { result ≡ word_of width table.now i k }
{
    let place = i as usize * width as usize + k as usize;
    table.get(place).copied().unwrap_or(0)
}

#[tactic(auto, unfolding(crate::specs::Table::store_of))]
pub fn store(table: &mut [u32], width: u32, i: u32, k: u32, v: u32)
    ensures { table.new ≡ store_of width table.old i k v }
{
    let place = i as usize * width as usize + k as usize;
    // Not by `get_mut`: its contract says nothing of what the slice ends as.
    if place < table.len() {
        table[place] = v;
    }
}

// Every word 0.
pub fn clear(table: &mut [u32])
    ensures { table.new ≡ clear_of table.old }
{
    table.fill(0);
}
