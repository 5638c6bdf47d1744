// Lock and Check of both updates: what they do to the node table.
// In order: Lock; an insert's Check; a remove's Check. Not here: what they mean (crate steps, specs/Steps.antt).
// Assumes nothing.
#![tactic(auto)]

ghost use Rattle.std.specs.Prelude.{◌≡◌, ◌<◌};
ghost use Rattle.steps.specs.Steps.{
  moved,
  free,
  again_of,
  lock_step,
  linked_of,
  insert_meets,
  insert_check,
  remove_check,
  check_step,
  works,
  ends,
};
ghost use Rattle.nodes.specs.Nodes.{unlocked_both};

use nodes::{KEY, LOCK, NEXT, REMOVED};
use steps::{Phase, Stepped, Task, Who};
use terms::Answer;

// A lock word that is free or the session's own.
#[tactic(auto, unfolding(steps::specs::Steps::free))]
fn is_free(who: Who, word: u32) -> bool
    ensures { result ≡ free who.number word }
{
    word == 0 || word == who.number + 1
}

#[tactic(auto, unfolding(steps::specs::Steps::lock_step))]
pub fn lock(task: Task, nodes: &mut [u32], who: u32, node: u32, here: Phase, then: Phase) -> Stepped
    requires { who < 16 }
    ensures { moved nodes.new result
        ≡ lock_step task.size nodes.old task.counters who task.op node here then }
{
    let who = Who { number: who };
    if task.size.nodes <= node {
        return task.damaged(here);
    }
    if is_free(who, nodes::node(nodes, node, LOCK)) {
        nodes::put(nodes, node, LOCK, who.number + 1);
        return task.work(then);
    }
    task.wait(here)
}

// Unlock, and walk again from the head as it now stands.
fn again(task: Task, nodes: &mut [u32], pred: u32, curr: u32, both: bool) -> Stepped
    ensures { moved nodes.new result
        ≡ moved (unlocked_both nodes.old pred curr both)
        (works task.counters task.op (again_of nodes.old)) }
{
    let next = nodes::node(nodes, 0, NEXT);
    nodes::unlock_both(nodes, pred, curr, both);
    task.work(Phase::Walk {
        pred: 0,
        curr: next,
    })
}

// Unlock, and the operation is over.
fn leave(task: Task, nodes: &mut [u32], pred: u32, curr: u32, both: bool, answer: Answer) -> Stepped
    ensures { moved nodes.new result
        ≡ moved (unlocked_both nodes.old pred curr both) (ends task.counters answer) }
{
    nodes::unlock_both(nodes, pred, curr, both);
    task.end(answer)
}

// An insert's curr, where pred leads to it.
#[tactic(auto, unfolding(steps::specs::Steps::insert_meets))]
fn meet(task: Task, nodes: &mut [u32], pred: u32, curr: u32) -> Stepped
    ensures { moved nodes.new result
        ≡ insert_meets task.size nodes.old task.counters task.op pred curr }
{
    if task.size.nodes <= curr {
        return task.damaged(Phase::Check { pred, curr });
    }
    if nodes::node(nodes, curr, KEY) == terms::sought(task.op) {
        return leave(task, nodes, pred, curr, false, Answer::Present);
    }
    task.work(Phase::Prepare { pred, curr })
}

#[tactic(auto, unfolding(steps::specs::Steps::insert_check))]
fn check_insert(task: Task, nodes: &mut [u32], pred: u32, curr: u32) -> Stepped
    ensures { moved nodes.new result
        ≡ insert_check task.size nodes.old task.counters task.op pred curr }
{
    if task.size.nodes <= pred {
        return task.damaged(Phase::Check { pred, curr });
    }
    if nodes::node(nodes, pred, REMOVED) != 0 || nodes::node(nodes, pred, NEXT) != curr {
        return again(task, nodes, pred, curr, false);
    }
    meet(task, nodes, pred, curr)
}

// Whether a remove's two nodes are linked and in the list.
#[tactic(auto, unfolding(steps::specs::Steps::linked_of))]
fn holds(nodes: &[u32], pred: u32, curr: u32) -> bool
    ensures { result ≡ linked_of nodes.now pred curr }
{
    nodes::node(nodes, pred, REMOVED) == 0
        && nodes::node(nodes, curr, REMOVED) == 0
        && nodes::node(nodes, pred, NEXT) == curr
}

#[tactic(auto, unfolding(steps::specs::Steps::remove_check))]
fn check_remove(task: Task, nodes: &mut [u32], pred: u32, curr: u32) -> Stepped
    ensures { moved nodes.new result
        ≡ remove_check task.size nodes.old task.counters task.op pred curr }
{
    if task.size.nodes <= pred || task.size.nodes <= curr {
        return task.damaged(Phase::Check { pred, curr });
    }
    if holds(nodes, pred, curr) {
        if nodes::node(nodes, curr, KEY) == terms::sought(task.op) {
            return task.work(Phase::Prepare { pred, curr });
        }
        return leave(task, nodes, pred, curr, true, Answer::Absent);
    }
    again(task, nodes, pred, curr, true)
}

#[tactic(auto, unfolding(steps::specs::Steps::check_step))]
pub fn check(task: Task, nodes: &mut [u32], pred: u32, curr: u32) -> Stepped
    ensures { moved nodes.new result
        ≡ check_step task.size nodes.old task.counters task.op pred curr }
{
    if terms::removes(task.op) {
        return check_remove(task, nodes, pred, curr);
    }
    check_insert(task, nodes, pred, curr)
}
