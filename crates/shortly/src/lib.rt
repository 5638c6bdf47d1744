// The short ways of a step: what nearly every step of a walk and of a range does, told from a record's nine words
// without decoding them.
// In order: what a short way tells; Walk that moves on; Follow that goes on or meets a key; Hand; a range's two. A
// short way tests all that it needs, of the words and of the tables, and tells what changes; where a test fails it
// tells None: the step is then the register's, on the record decoded. proofs/Agrees.antt has that what a short way
// tells is that step's outcome. What is told is small, so that compiled code keeps it in registers.
// Not here: the register's step (crate register), storing the words and the answer (crate stepping). Assumes nothing.
#![tactic(auto)]

ghost use Rattle.std.specs.Prelude.{◌≡◌};
ghost use Rattle.terms.specs.Terms.{small};
ghost use Rattle.shortly.specs.Shortly.{
  seeks_of,
  walk_shortly,
  sees_shortly,
  follow_shortly,
  hand_shortly,
  range_shortly,
};

use encoding::{OpWords, PhaseWords, Words, kind, phase};
use nodes::{KEY, NEWEST, VALUE};

// A range is led on: the next phase's number, and its node. Or it hands out: how many keys it then has handed out, and
// the key with its value.
#[derive(Clone, Copy)]
pub enum Ranged {
    Leads(u32, u32),
    Hands(u32, u32, u32),
}

// Are these the words of an operation? Its first number is the key sought. Whether the second is 0 comes first: this
// compiles to fewer jumps than the kind's number first.
#[tactic(auto, using(crate::proofs::Ways::kinds))]
pub fn seeks(o: OpWords) -> bool
    ensures { result ≡ seeks_of o }
{
    if o.second == 0 {
        matches!(o.kind, kind::INSERT..=kind::RANGE)
    } else {
        matches!(o.kind, kind::INSERT | kind::RANGE)
    }
}

// Of an operation that seeks this key: curr is pred now, and the node that this tells is curr.
#[tactic(auto, unfolding(crate::specs::Shortly::walk_shortly))]
pub fn walk(nodes: &[u32], sought: u32, p: PhaseWords) -> Option<u32>
    ensures { result ≡ walk_shortly small nodes.now sought p }
{
    if p.phase == phase::WALK && encoding::all_zero(p.c, p.d, p.e) {
        return reading::moves_on(terms::small_size(), nodes, sought, p.b);
    }
    None
}

// A range from low to high, at the node that the link at its snapshot leads to.
#[tactic(auto, unfolding(crate::specs::Shortly::sees_shortly))]
fn sees(nodes: &[u32], low: u32, high: u32, to: u32) -> Option<Ranged>
    ensures { result ≡ sees_shortly small nodes.now low high to }
{
    if 512 <= to {
        return None;
    }
    let key = nodes::node(nodes, to, KEY);
    if key < low {
        Some(Ranged::Leads(phase::FOLLOW, to))
    } else if key <= high {
        Some(Ranged::Leads(phase::HAND, to))
    } else {
        None
    }
}

#[tactic(auto, unfolding(crate::specs::Shortly::follow_shortly))]
fn follow(
    nodes: &[u32],
    entries: &[u32],
    low: u32,
    high: u32,
    at: u32,
    snapshot: u32,
) -> Option<Ranged>
    ensures { result ≡ follow_shortly small nodes.now entries.now low high at snapshot }
{
    if 512 <= at {
        return None;
    }
    let link = nodes::node(nodes, at, NEWEST);
    match bundle::read_at(entries, 2048, link, snapshot) {
        Ok(to) => sees(nodes, low, high, to),
        Err(_) => None,
    }
}

#[tactic(auto, unfolding(crate::specs::Shortly::hand_shortly))]
fn hand(nodes: &[u32], at: u32, handed: u32) -> Option<Ranged>
    ensures { result ≡ hand_shortly small nodes.now at handed }
{
    if at < 512 && handed < 510 {
        let key = nodes::node(nodes, at, KEY);
        let value = nodes::node(nodes, at, VALUE);
        return Some(Ranged::Hands(handed + 1, key, value));
    }
    None
}

#[tactic(auto, unfolding(crate::specs::Shortly::range_shortly))]
pub fn range(nodes: &[u32], entries: &[u32], w: Words) -> Option<Ranged>
    ensures { result ≡ range_shortly small nodes.now entries.now w }
{
    let o = w.op;
    let p = w.phase;
    if o.kind == kind::RANGE && encoding::all_zero(0, p.d, p.e) {
        return match p.phase {
            phase::FOLLOW => follow(nodes, entries, o.first, o.second, p.a, p.b),
            phase::HAND => hand(nodes, p.a, p.c),
            _ => None,
        };
    }
    None
}
