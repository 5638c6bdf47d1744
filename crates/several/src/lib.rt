// Several steps of one session in one call, so that a caller decodes and encodes the session's record once for all.
// In order: what a call returns; the pairs handed out; whether the call goes on; one step; as far as
// it gets and one step; the steps.
// Not here: the step (crate register), the words of records and answers (crate packing). Assumes nothing.
#![tactic(auto)]

ghost use Rattle.std.specs.Prelude.{◌≡◌, ◌-◌, ◌<◌};
ghost use Rattle.terms.specs.Terms.{small};
ghost use Rattle.several.specs.Several.{
  handed,
  hand_out,
  goes_on,
  turned,
  turn_of,
  gone,
  stride_of,
  several_of,
};

use onward::Progress;
use steps::Session;
use terms::{Answer, Counters};

// What a step left beside the tables; how many pairs are filled; whether the call goes on after it.
#[derive(Clone, Copy)]
pub struct Turn {
    pub counters: Counters,
    pub session: Session,
    pub answer: Answer,
    pub count: u32,
    pub on: bool,
}

// The last step of a call, and how many it made.
#[derive(Clone, Copy)]
pub struct Went {
    pub last: Turn,
    pub made: u32,
}

// A key more, where there is room; how many pairs are filled then.
fn hand_out(pairs: &mut [u32], count: u32, answer: Answer) -> u32
    requires { count < 4294967295 }
    ensures { handed pairs.new result ≡ hand_out pairs.old count answer }
{
    match answer {
        Answer::Key(key, value) => {
            if onward::has_room(pairs, count) {
                onward::put_pair(pairs, count, key, value);
                return count + 1;
            }
            count
        }
        _ => count,
    }
}

fn goes_on(pairs: &[u32], count: u32, answer: Answer) -> bool
    ensures { result ≡ goes_on pairs.now count answer }
{
    match answer {
        Answer::Working => true,
        Answer::Key(_, _) => onward::has_room(pairs, count),
        _ => false,
    }
}

#[tactic(auto, unfolding(crate::specs::Several::turn_of))]
fn one_step(
    nodes: &mut [u32],
    entries: &mut [u32],
    pairs: &mut [u32],
    count: u32,
    c: Counters,
    who: u32,
    s: Session,
) -> Turn
    requires { count < 4294967295 }
    ensures { turned nodes.new entries.new pairs.new result
        ≡ turn_of small nodes.old entries.old pairs.old count c who s }
{
    let out = register::step(nodes, entries, c, who, s);
    let filled = hand_out(pairs, count, out.answer);
    let on = goes_on(pairs, filled, out.answer);
    Turn {
        counters: out.counters,
        session: out.session,
        answer: out.answer,
        count: filled,
        on,
    }
}

// As far as the session gets without a halt, and one step more.
#[tactic(auto, using(crate::proofs::Strides::fits), unfolding(crate::specs::Several::stride_of))]
fn stride(
    nodes: &mut [u32],
    entries: &mut [u32],
    pairs: &mut [u32],
    c: Counters,
    who: u32,
    s: Session,
    p: Progress,
) -> Went
    ensures { gone nodes.new entries.new pairs.new result
        ≡ stride_of (p.most - p.made) small nodes.old entries.old pairs.old p.count c who s
        p.made }
{
    let far = onward::go_far(nodes, entries, pairs, who, s, p);
    let made = far.made + 1;
    let last = one_step(nodes, entries, pairs, far.count, c, who, far.session);
    Went { last, made }
}

// Steps of session `who` until an answer that is neither working nor a key, or a key that leaves no room for another,
// or `limit` steps; one at least.
#[tactic(auto, using(crate::proofs::Strides::goes))]
pub fn steps(
    nodes: &mut [u32],
    entries: &mut [u32],
    pairs: &mut [u32],
    c: Counters,
    who: u32,
    s: Session,
    limit: u32,
) -> Went
    ensures { gone nodes.new entries.new pairs.new result
        ≡ several_of small nodes.old entries.old pairs.old c who s limit }
{
    let most = limit.saturating_sub(1);
    let mut counters = c;
    let mut session = s;
    let mut count = 0;
    let mut made = 0;
    loop {
        let p = Progress { count, made, most };
        let went = stride(nodes, entries, pairs, counters, who, session, p);
        let last = went.last;
        if most < went.made || !last.on {
            return went;
        }
        counters = last.counters;
        session = last.session;
        count = last.count;
        made = went.made;
    }
}
