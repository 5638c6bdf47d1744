// The steps that write nothing: Walk, has's Follow by the newest link, and a range's Fix, Follow and Hand.
// In order: as document 01 has them. Not here: what they mean (crate steps, specs/Steps.antt). Assumes nothing.
#![tactic(auto)]

ghost use Rattle.std.specs.Prelude.{◌≡◌};
ghost use Rattle.steps.specs.Steps.{
  moves_on,
  walk_step,
  has_sees,
  newest_step,
  fix_step,
  range_sees,
  follow_step,
  hand_step,
};

use bundle::Held;
use nodes::{KEY, NEWEST, NEXT, VALUE};
use steps::{Phase, Query, Stepped, Task};
use terms::{Answer, Size};

// The node that Walk moves on to, where `curr` is a node with a key below the key sought.
#[tactic(auto, unfolding(steps::specs::Steps::moves_on))]
pub fn moves_on(size: Size, nodes: &[u32], sought: u32, curr: u32) -> Option<u32>
    ensures { result ≡ moves_on size nodes.now sought curr }
{
    if curr < size.nodes && nodes::node(nodes, curr, KEY) < sought {
        return Some(nodes::node(nodes, curr, NEXT));
    }
    None
}

#[tactic(auto, unfolding(steps::specs::Steps::walk_step, steps::specs::Steps::moves_on))]
pub fn walk(task: Task, nodes: &[u32], pred: u32, curr: u32) -> Stepped
    ensures { result ≡ walk_step task.size nodes.now task.counters task.op pred curr }
{
    if task.size.nodes <= curr {
        return task.damaged(Phase::Walk { pred, curr });
    }
    if let Some(next) = moves_on(task.size, nodes, terms::sought(task.op), curr) {
        return task.work(Phase::Walk {
            pred: curr,
            curr: next,
        });
    }
    task.work(steps::arrived(task.op, pred, curr))
}

// Has at the node that the newest link leads to.
#[tactic(auto, unfolding(steps::specs::Steps::has_sees))]
fn has_sees(task: Task, nodes: &[u32], at: u32, to: u32) -> Stepped
    ensures { result ≡ has_sees task.size nodes.now task.counters task.op at to }
{
    if task.size.nodes <= to {
        return task.damaged(Phase::Newest { at });
    }
    let key = nodes::node(nodes, to, KEY);
    let sought = terms::sought(task.op);
    if key < sought {
        return task.work(Phase::Newest { at: to });
    }
    if key == sought {
        return task.end(Answer::Present);
    }
    task.end(Answer::Absent)
}

#[tactic(auto, unfolding(steps::specs::Steps::newest_step))]
pub fn newest(task: Task, nodes: &[u32], entries: &[u32], at: u32) -> Stepped
    ensures { result ≡ newest_step task.size nodes.now entries.now task.counters task.op at }
{
    let here = Phase::Newest { at };
    if task.size.nodes <= at {
        return task.damaged(here);
    }
    let link = nodes::node(nodes, at, NEWEST);
    match bundle::read_newest(entries, task.size.entries, link) {
        Err(Held::Wait) => task.wait(here),
        Ok(to) => has_sees(task, nodes, at, to),
        Err(Held::Damaged) => task.damaged(here),
    }
}

pub fn fix(task: Task, pred: u32) -> Stepped
    ensures { result ≡ fix_step task.counters task.op pred }
{
    let snapshot = task.counters.stamp;
    let query = Query {
        at: pred,
        snapshot,
        handed: 0,
    };
    task.work(query.following())
}

// A range at the node that the link at its snapshot leads to.
#[tactic(auto, unfolding(steps::specs::Steps::range_sees))]
fn range_sees(task: Task, nodes: &[u32], query: Query, to: u32) -> Stepped
    ensures { result
        ≡ range_sees task.size nodes.now task.counters task.op query.at query.snapshot query.handed
        to }
{
    if task.size.nodes <= to {
        return task.damaged(query.following());
    }
    let key = nodes::node(nodes, to, KEY);
    let on = Query { at: to, ..query };
    if key < terms::sought(task.op) {
        return task.work(on.following());
    }
    if key <= terms::high(task.op) {
        return task.work(on.handing());
    }
    task.end(Answer::End(query.snapshot, query.handed))
}

#[tactic(auto, unfolding(steps::specs::Steps::follow_step))]
pub fn follow(task: Task, nodes: &[u32], entries: &[u32], query: Query) -> Stepped
    ensures { result
        ≡ follow_step task.size nodes.now entries.now task.counters task.op query.at query.snapshot
        query.handed }
{
    let here = query.following();
    if task.size.nodes <= query.at {
        return task.damaged(here);
    }
    let link = nodes::node(nodes, query.at, NEWEST);
    match bundle::read_at(entries, task.size.entries, link, query.snapshot) {
        Err(Held::Wait) => task.wait(here),
        Ok(to) => range_sees(task, nodes, query, to),
        Err(Held::Damaged) => task.damaged(here),
    }
}

#[tactic(auto, unfolding(steps::specs::Steps::hand_step))]
pub fn hand(task: Task, nodes: &[u32], query: Query) -> Stepped
    ensures { result
        ≡ hand_step task.size nodes.now task.counters task.op query.at query.snapshot query.handed }
{
    if task.size.nodes <= query.at || task.size.keys <= query.handed {
        return task.damaged(query.handing());
    }
    let key = nodes::node(nodes, query.at, KEY);
    let value = nodes::node(nodes, query.at, VALUE);
    let on = Query {
        handed: query.handed + 1,
        ..query
    };
    task.give(on.following(), Answer::Key(key, value))
}
