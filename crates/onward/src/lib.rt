// Walk and handing out, as far as each goes on without a halt, without a record in between: what makes a call of many
// steps fast.
// In order: how far a call is; walking on; a range, the key that Follow leads to, handing out; how far a session gets.
// These are the steps of document 01 one after the other (crate several proves it); what does not go on is left to the
// step itself. Not here: the steps (crate steps). Assumes nothing.
#![tactic(auto)]

ghost use Rattle.std.specs.Prelude.{◌≡◌, ◌-◌, ◌≤◌, ◌<◌};
ghost use Rattle.terms.specs.Terms.{small, sought_of, high_of};
ghost use Rattle.onward.specs.Onward.{
  walk_on,
  in_range,
  followed_to,
  has_room,
  put_pair,
  next_key,
  handed_to,
  hand_on,
  reached,
  walk_far,
  hand_far,
  on_course,
  far_of,
};

use nodes::{KEY, NEWEST, VALUE};
use steps::{Phase, Query, Session};
use terms::Op;

// What a call has done and may do: `count` of the lent pairs are filled and `made` steps are made, of at most `most`.
#[derive(Clone, Copy)]
pub struct Progress {
    pub count: u32,
    pub made: u32,
    pub most: u32,
    pub ghost within: { (count ≤ made) × (made ≤ most) × (most < 4294967295) },
}

#[derive(Clone, Copy)]
pub struct Walked {
    pub pred: u32,
    pub curr: u32,
    pub made: u32,
}

#[tactic(auto, using(crate::proofs::Ways::walks))]
fn walk_on(nodes: &[u32], sought: u32, from: u32, to: u32, p: Progress) -> Walked
    ensures { result ≡ walk_on (p.most - p.made) small nodes.now sought from to p.made }
{
    let mut pred = from;
    let mut curr = to;
    for made in p.made..p.most {
        let Some(next) = reading::moves_on(terms::small_size(), nodes, sought, curr) else {
            return Walked { pred, curr, made };
        };
        pred = curr;
        curr = next;
    }
    Walked {
        pred,
        curr,
        made: p.most,
    }
}

// The keys that a range hands out: from `low` to `high`, as they stood at `snapshot`.
#[derive(Clone, Copy)]
struct Range {
    low: u32,
    high: u32,
    snapshot: u32,
}

#[derive(Clone, Copy)]
pub struct Handing {
    pub at: u32,
    pub handed: u32,
    pub count: u32,
    pub made: u32,
}

#[tactic(auto, unfolding(crate::specs::Onward::has_room))]
pub fn has_room(pairs: &[u32], count: u32) -> bool
    ensures { result ≡ has_room pairs.now count }
{
    count as usize * 2 + 2 <= pairs.len()
}

pub fn put_pair(pairs: &mut [u32], count: u32, key: u32, value: u32)
    ensures { pairs.new ≡ put_pair pairs.old count key value }
{
    table::store(pairs, 2, count, 0, key);
    table::store(pairs, 2, count, 1, value);
}

impl Range {
    // The node `to`, where its key is in the range.
    #[tactic(auto, unfolding(crate::specs::Onward::in_range))]
    fn holds(self, nodes: &[u32], to: u32) -> Option<u32>
        ensures { result ≡ in_range small nodes.now self.low self.high to }
    {
        if to < terms::small_size().nodes {
            let key = nodes::node(nodes, to, KEY);
            return (self.low <= key && key <= self.high).then_some(to);
        }
        None
    }

    // The node in range that Follow leads to.
    #[tactic(auto, unfolding(crate::specs::Onward::followed_to))]
    fn follow_to(self, nodes: &[u32], entries: &[u32], at: u32) -> Option<u32>
        ensures { result ≡ followed_to small nodes.now entries.now self.low self.high at self.snapshot }
    {
        let z = terms::small_size();
        if at < z.nodes {
            let link = nodes::node(nodes, at, NEWEST);
            if let Ok(to) = bundle::read_at(entries, z.entries, link, self.snapshot) {
                return self.holds(nodes, to);
            }
        }
        None
    }

    // The key that comes next, where it may be handed out and another finds room after it.
    #[tactic(auto, unfolding(crate::specs::Onward::next_key))]
    fn next_key(self, nodes: &[u32], entries: &[u32], pairs: &[u32], from: Handing) -> Option<u32>
        requires { from.count < 4294967295 }
        ensures { result ≡ next_key small nodes.now entries.now pairs.now self.low self.high
            self.snapshot from.at from.handed from.count }
    {
        if from.handed < terms::small_size().keys && has_room(pairs, from.count + 1) {
            return self.follow_to(nodes, entries, from.at);
        }
        None
    }

    #[tactic(auto, using(crate::proofs::Ways::gives))]
    fn hand_on(
        self,
        nodes: &[u32],
        entries: &[u32],
        pairs: &mut [u32],
        at: u32,
        handed: u32,
        p: Progress,
    ) -> Handing
        ensures { handed_to pairs.new result
            ≡ hand_on (p.most - p.made) small nodes.now entries.now self.low self.high self.snapshot
            pairs.old at handed p.count p.made }
    {
        let mut h = Handing {
            at,
            handed,
            count: p.count,
            made: p.made,
        };
        // A key takes two steps.
        while h.made + 1 < p.most {
            let Some(to) = self.next_key(nodes, entries, pairs, h) else {
                return h;
            };
            let key = nodes::node(nodes, to, KEY);
            let value = nodes::node(nodes, to, VALUE);
            put_pair(pairs, h.count, key, value);
            h = Handing {
                at: to,
                handed: h.handed + 1,
                count: h.count + 1,
                made: h.made + 2,
            };
        }
        h
    }
}

// A session's record on its way, how many pairs are filled and how many steps are made.
#[derive(Clone, Copy)]
pub struct Far {
    pub session: Session,
    pub count: u32,
    pub made: u32,
}

fn stay(session: Session, p: Progress) -> Far
    ensures { result ≡ record { session = session; count = p.count; made = p.made } }
{
    Far {
        session,
        count: p.count,
        made: p.made,
    }
}

fn walk_far(nodes: &[u32], op: Op, pred: u32, curr: u32, p: Progress) -> Far
    ensures { result
        ≡ walk_far op p.count (walk_on (p.most - p.made) small nodes.now (sought_of op) pred curr p.made) }
{
    let w = walk_on(nodes, terms::sought(op), pred, curr, p);
    let phase = Phase::Walk {
        pred: w.pred,
        curr: w.curr,
    };
    Far {
        session: Session { op, phase },
        count: p.count,
        made: w.made,
    }
}

fn hand_far(
    nodes: &[u32],
    entries: &[u32],
    pairs: &mut [u32],
    op: Op,
    query: Query,
    p: Progress,
) -> Far
    ensures { reached pairs.new result ≡ hand_far op query.snapshot
        (hand_on (p.most - p.made) small nodes.now entries.now (sought_of op) (high_of op)
        query.snapshot pairs.old query.at query.handed p.count p.made) }
{
    let range = Range {
        low: terms::sought(op),
        high: terms::high(op),
        snapshot: query.snapshot,
    };
    let h = range.hand_on(nodes, entries, pairs, query.at, query.handed, p);
    let phase = Query {
        at: h.at,
        handed: h.handed,
        ..query
    }
    .following();
    Far {
        session: Session { op, phase },
        count: h.count,
        made: h.made,
    }
}

// Walking and handing out go on for many steps, and the other phases not.
fn along(nodes: &[u32], entries: &[u32], pairs: &mut [u32], s: Session, p: Progress) -> Far
    ensures { reached pairs.new result ≡ on_course s.phase (p.most - p.made) small
        nodes.now entries.now pairs.old s p.count p.made }
{
    match s.phase {
        Phase::Walk { pred, curr } => walk_far(nodes, s.op, pred, curr, p),
        Phase::Follow {
            at,
            snapshot,
            handed,
        } => {
            let query = Query {
                at,
                snapshot,
                handed,
            };
            hand_far(nodes, entries, pairs, s.op, query, p)
        }
        _ => stay(s, p),
    }
}

// How far session `who` gets, where a step of it would be made.
#[tactic(auto, unfolding(crate::specs::Onward::far_of))]
pub fn go_far(
    nodes: &[u32],
    entries: &[u32],
    pairs: &mut [u32],
    who: u32,
    s: Session,
    p: Progress,
) -> Far
    ensures { reached pairs.new result ≡ far_of (p.most - p.made) small nodes.now
        entries.now pairs.old who s p.count p.made }
{
    let z = terms::small_size();
    if register::right_lengths(z, nodes, entries) && who < 16 && terms::names(s.op) {
        return along(nodes, entries, pairs, s, p);
    }
    stay(s, p)
}
