// The short ways of an update: the steps that change of its record the phase's number alone, told from the record's
// words without decoding them.
// In order: an update's words; Walk that arrives; Lock; Check that finds what the walk saw; Link; by the phase. A
// short way tests all that it needs, of the words and of the tables, and tells the number of the phase that it leads
// to; where a test fails it changes nothing and tells None: the step is then the register's, on the record decoded.
// proofs/Agrees.antt has that what a short way tells is that step's outcome.
// Not here: a walk that moves on and a range's steps (crate shortly), Number and Finish (crate closing), Prepare
// (crate register), storing the words and the answer (crate stepping). Assumes nothing.
#![tactic(auto)]

ghost use Rattle.std.specs.Prelude.{◌≡◌, ◌<◌};
ghost use Rattle.terms.specs.Terms.{small};
ghost use Rattle.advancing.specs.Advancing.{
  updates_of,
  advanced,
  arrive_ahead,
  lock_ahead,
  stands_of,
  remove_ahead,
  check_ahead,
  link_ahead,
  early_ahead,
  advance_of,
};

use encoding::{OpWords, PhaseWords, kind, phase};
use nodes::{KEY, LOCK, NEXT, REMOVED};
use steps::Who;

#[tactic(auto, unfolding(crate::specs::Advancing::updates_of))]
pub fn updates(o: OpWords) -> bool
    ensures { result ≡ updates_of o }
{
    match o.kind {
        kind::INSERT => true,
        kind::REMOVE => o.second == 0,
        _ => false,
    }
}

#[tactic(auto, unfolding(crate::specs::Advancing::arrive_ahead))]
fn arrive(nodes: &[u32], sought: u32, curr: u32) -> Option<u32>
    ensures { result ≡ arrive_ahead small nodes.now sought curr }
{
    if curr < 512 && sought <= nodes::node(nodes, curr, KEY) {
        return Some(phase::LOCK);
    }
    None
}

#[tactic(auto, unfolding(crate::specs::Advancing::lock_ahead, steps::specs::Steps::free))]
fn lock(nodes: &mut [u32], who: Who, n: u32, then: u32) -> Option<u32>
    ensures { advanced nodes.new result ≡ lock_ahead small nodes.old who.number n then }
{
    if 512 <= n {
        return None;
    }
    let word = nodes::node(nodes, n, LOCK);
    if word == 0 || word == who.number + 1 {
        nodes::put(nodes, n, LOCK, who.number + 1);
        return Some(then);
    }
    None
}

// Both are nodes, pred is not removed, and its next is curr.
#[tactic(auto, unfolding(crate::specs::Advancing::stands_of))]
fn stands(nodes: &[u32], pred: u32, curr: u32) -> bool
    ensures { result ≡ stands_of small nodes.now pred curr }
{
    pred < 512
        && curr < 512
        && nodes::node(nodes, pred, REMOVED) == 0
        && nodes::node(nodes, pred, NEXT) == curr
}

#[tactic(auto, unfolding(crate::specs::Advancing::remove_ahead))]
fn check_remove(nodes: &[u32], sought: u32, curr: u32) -> Option<u32>
    ensures { result ≡ remove_ahead nodes.now sought curr }
{
    if nodes::node(nodes, curr, REMOVED) == 0 && nodes::node(nodes, curr, KEY) == sought {
        return Some(phase::PREPARE);
    }
    None
}

#[tactic(auto, unfolding(crate::specs::Advancing::check_ahead))]
fn check(nodes: &[u32], removes: bool, sought: u32, pred: u32, curr: u32) -> Option<u32>
    ensures { result ≡ check_ahead small nodes.now removes sought pred curr }
{
    if !stands(nodes, pred, curr) {
        return None;
    }
    if removes {
        return check_remove(nodes, sought, curr);
    }
    if nodes::node(nodes, curr, KEY) == sought {
        return None;
    }
    Some(phase::PREPARE)
}

#[tactic(auto, unfolding(crate::specs::Advancing::link_ahead))]
fn link(nodes: &mut [u32], removes: bool, pred: u32, node: u32) -> Option<u32>
    ensures { advanced nodes.new result ≡ link_ahead small nodes.old removes pred node }
{
    if 512 <= pred {
        return None;
    }
    if removes {
        if 512 <= node {
            return None;
        }
        let next = nodes::node(nodes, node, NEXT);
        nodes::put(nodes, node, REMOVED, 1);
        nodes::put(nodes, pred, NEXT, next);
        return Some(phase::FINISH);
    }
    nodes::put(nodes, pred, NEXT, node);
    Some(phase::FINISH)
}

// The phases before Prepare.
#[tactic(auto, unfolding(crate::specs::Advancing::early_ahead))]
fn early(
    nodes: &mut [u32],
    who: Who,
    removes: bool,
    sought: u32,
    phase: u32,
    pred: u32,
    curr: u32,
) -> Option<u32>
    ensures { advanced nodes.new result
        ≡ early_ahead small nodes.old who.number removes sought phase pred curr }
{
    match phase {
        phase::WALK => arrive(nodes, sought, curr),
        phase::LOCK if removes => lock(nodes, who, pred, phase::LOCK_CURR),
        phase::LOCK => lock(nodes, who, pred, phase::CHECK),
        phase::LOCK_CURR => lock(nodes, who, curr, phase::CHECK),
        phase::CHECK => check(nodes, removes, sought, pred, curr),
        _ => None,
    }
}

#[tactic(auto, unfolding(crate::specs::Advancing::advance_of))]
pub fn advance(nodes: &mut [u32], who: u32, o: OpWords, p: PhaseWords) -> Option<u32>
    requires { who < 16 }
    ensures { advanced nodes.new result ≡ advance_of small nodes.old who o p }
{
    let who = Who { number: who };
    if !updates(o) {
        return None;
    }
    let removes = o.kind == kind::REMOVE;
    if p.phase == phase::LINK {
        return link(nodes, removes, p.a, p.b);
    }
    if encoding::all_zero(p.c, p.d, p.e) {
        return early(nodes, who, removes, o.first, p.phase, p.a, p.b);
    }
    None
}
