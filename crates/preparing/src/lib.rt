// Prepare of both updates: the wait, the counters, and the two pending entries.
// In order: is a newest entry pending; laying an entry in a node's bundle; room for both updates; Prepare.
// Not here: what they mean (crate steps, specs/Steps.antt). Assumes nothing.
#![tactic(auto)]

ghost use Rattle.std.specs.Prelude.{◌≡◌, ◌+◌, ◌<◌, ◌≤◌};
ghost use Rattle.steps.specs.declared.Phase.{Phase};
ghost use Rattle.steps.specs.Steps.{
  done,
  tables,
  lay_in,
  insert_laid,
  remove_laid,
  insert_room,
  remove_room,
  held_at,
  held_either,
  prepare_step,
  works,
  counted,
};

use bundle::Held;
use nodes::{NEWEST, NEXT};
use steps::{Laid, Phase, Stepped, Task};
use terms::{Answer, Counters, Refusal, Size};

// Whether the newest entry of a node's bundle is pending.
#[tactic(auto, unfolding(steps::specs::Steps::held_at))]
fn held_at(size: Size, nodes: &[u32], entries: &[u32], node: u32) -> Result<(), Held>
    ensures { result ≡ held_at size nodes.now entries.now node }
{
    if size.nodes <= node {
        return Err(Held::Damaged);
    }
    let link = nodes::node(nodes, node, NEWEST);
    bundle::newest_held(entries, size.entries, link)
}

// Of pred's bundle, and then of curr's.
fn held_either(size: Size, nodes: &[u32], entries: &[u32], pred: u32, curr: u32) -> Result<(), Held>
    ensures { result ≡ held_either size nodes.now entries.now pred curr }
{
    held_at(size, nodes, entries, pred)?;
    held_at(size, nodes, entries, curr)
}

// Entry e, pending, to the target, in front of the node's bundle.
#[tactic(auto, unfolding(steps::specs::Steps::lay_in))]
fn lay_in(nodes: &mut [u32], entries: &mut [u32], node: u32, e: u32, target: u32, stamp: u32)
    requires { e < 4294967295 }
    ensures { tables nodes.new entries.new
        ≡ lay_in node e target stamp (tables nodes.old entries.old) }
{
    let older = nodes::node(nodes, node, NEWEST);
    bundle::lay(entries, e, target, stamp, older);
    nodes::put(nodes, node, NEWEST, e + 1);
}

// The new node between pred and curr, then the entry in pred to it, then its own to curr.
#[tactic(auto, unfolding(steps::specs::Steps::insert_laid))]
fn lay_insert(task: Task, nodes: &mut [u32], entries: &mut [u32], pred: u32, curr: u32)
    requires { task.counters.entries + 2 ≤ 4294967295 }
    ensures { tables nodes.new entries.new
        ≡ insert_laid nodes.old entries.old task.counters task.op pred curr }
{
    let n = task.counters.nodes;
    let e = task.counters.entries;
    let stamp = task.counters.stamp;
    let key = terms::sought(task.op);
    let value = terms::value(task.op);
    nodes::new_node(nodes, n, key, value, curr);
    lay_in(nodes, entries, pred, e, n, stamp);
    lay_in(nodes, entries, n, e + 1, curr, stamp);
}

// The entry in pred to curr's next, then curr's to the head.
#[tactic(auto, unfolding(steps::specs::Steps::remove_laid))]
fn lay_remove(task: Task, nodes: &mut [u32], entries: &mut [u32], pred: u32, curr: u32)
    requires { task.counters.entries + 2 ≤ 4294967295 }
    ensures { tables nodes.new entries.new
        ≡ remove_laid nodes.old entries.old task.counters pred curr }
{
    let e = task.counters.entries;
    let stamp = task.counters.stamp;
    let next = nodes::node(nodes, curr, NEXT);
    lay_in(nodes, entries, pred, e, next, stamp);
    lay_in(nodes, entries, curr, e + 1, 0, stamp);
}

// Both entries are laid, and `used` nodes are in use: on to Number.
fn go_on(task: Task, used: u32, pred: u32, node: u32) -> Stepped
    requires { task.counters.entries + 2 ≤ 4294967295 }
    ensures { result
        ≡ works (counted task.counters used) task.op
        (Phase.Number pred node task.counters.entries (task.counters.entries + 1)) }
{
    let lower = task.counters.entries;
    let counters = Counters {
        nodes: used,
        entries: lower + 2,
        ..task.counters
    };
    let counted = Task { counters, ..task };
    let laid = Laid {
        pred,
        node,
        lower,
        upper: lower + 1,
    };
    counted.work(laid.numbering())
}

#[tactic(auto, unfolding(steps::specs::Steps::insert_room))]
fn room_insert(task: Task, nodes: &mut [u32], entries: &mut [u32], pred: u32, curr: u32) -> Stepped
    ensures { done nodes.new entries.new result
        ≡ insert_room task.size nodes.old entries.old task.counters task.op pred curr }
{
    let n = task.counters.nodes;
    if task.size.nodes < n {
        return task.damaged(Phase::Prepare { pred, curr });
    }
    if n == task.size.nodes {
        nodes::unlock(nodes, pred);
        return task.end(Answer::Refused(Refusal::Full));
    }
    if (task.size.entries as u64) < task.counters.entries as u64 + 2 {
        return task.damaged(Phase::Prepare { pred, curr });
    }
    lay_insert(task, nodes, entries, pred, curr);
    go_on(task, n + 1, pred, n)
}

#[tactic(auto, unfolding(steps::specs::Steps::remove_room))]
fn room_remove(task: Task, nodes: &mut [u32], entries: &mut [u32], pred: u32, curr: u32) -> Stepped
    ensures { done nodes.new entries.new result
        ≡ remove_room task.size nodes.old entries.old task.counters task.op pred curr }
{
    let n = task.counters.nodes;
    if task.size.nodes < n || (task.size.entries as u64) < task.counters.entries as u64 + 2 {
        return task.damaged(Phase::Prepare { pred, curr });
    }
    lay_remove(task, nodes, entries, pred, curr);
    go_on(task, n, pred, curr)
}

// Where no newest entry that it looks at is pending, room for the rest.
#[tactic(auto, unfolding(steps::specs::Steps::prepare_step))]
pub fn prepare(task: Task, nodes: &mut [u32], entries: &mut [u32], pred: u32, curr: u32) -> Stepped
    ensures { done nodes.new entries.new result
        ≡ prepare_step task.size nodes.old entries.old task.counters task.op pred curr }
{
    let here = Phase::Prepare { pred, curr };
    let removes = terms::removes(task.op);
    let held = if removes {
        held_either(task.size, nodes, entries, pred, curr)
    } else {
        held_at(task.size, nodes, entries, pred)
    };
    match held {
        Ok(()) if removes => room_remove(task, nodes, entries, pred, curr),
        Ok(()) => room_insert(task, nodes, entries, pred, curr),
        Err(Held::Wait) => task.wait(here),
        Err(Held::Damaged) => task.damaged(here),
    }
}
