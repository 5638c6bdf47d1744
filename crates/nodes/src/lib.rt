// The node table: 6 words a node, in a lent slice.
// In order: where each word stands; reading one and storing one; unlocking; a new node.
// Not here: which node is whose, and the table's length (the list's). Every function is total, on any content of the
// table (crate table). Assumes nothing.
#![tactic(auto)]

ghost use Rattle.std.specs.Prelude.{◌≡◌};
ghost use Rattle.nodes.specs.Nodes.{node_at, put_node, unlocked, unlocked_both, new_node};

// 6 words a node.
const WIDTH: u32 = 6;

pub const KEY: u32 = 0;

pub const VALUE: u32 = 1;

pub const NEXT: u32 = 2;

pub const LOCK: u32 = 3;

pub const REMOVED: u32 = 4;

pub const NEWEST: u32 = 5;

pub fn node(nodes: &[u32], n: u32, k: u32) -> u32
    ensures { result ≡ node_at nodes.now n k }
{
    table::word(nodes, WIDTH, n, k)
}

pub fn put(nodes: &mut [u32], n: u32, k: u32, v: u32)
    ensures { nodes.new ≡ put_node nodes.old n k v }
{
    table::store(nodes, WIDTH, n, k, v);
}

pub fn unlock(nodes: &mut [u32], n: u32)
    ensures { nodes.new ≡ unlocked nodes.old n }
{
    put(nodes, n, LOCK, 0);
}

// pred, and curr where the operation holds it too.
pub fn unlock_both(nodes: &mut [u32], pred: u32, curr: u32, both: bool)
    ensures { nodes.new ≡ unlocked_both nodes.old pred curr both }
{
    unlock(nodes, pred);
    if both {
        unlock(nodes, curr);
    }
}

// Not locked, not removed, with an empty bundle.
#[tactic(auto, unfolding(crate::specs::Nodes::named_node, crate::specs::Nodes::clear_node))]
pub fn new_node(nodes: &mut [u32], n: u32, key: u32, value: u32, next: u32)
    ensures { nodes.new ≡ new_node nodes.old n key value next }
{
    put(nodes, n, KEY, key);
    put(nodes, n, VALUE, value);
    put(nodes, n, NEXT, next);
    put(nodes, n, LOCK, 0);
    put(nodes, n, REMOVED, 0);
    put(nodes, n, NEWEST, 0);
}
