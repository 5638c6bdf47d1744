// Number, Link and Finish of both updates.
// In order: as document 01 has them. Not here: what they mean (crate steps, specs/Steps.antt). Assumes nothing.
#![tactic(auto)]

ghost use Rattle.std.specs.Prelude.{◌≡◌};
ghost use Rattle.steps.specs.Steps.{
  done,
  moved,
  number_step,
  insert_link,
  remove_link,
  link_step,
  finish_answer,
  in_tables,
  finish_step,
};

use nodes::{NEXT, REMOVED};
use steps::{Laid, Stepped, Task};
use terms::{Answer, Counters, Size};

#[tactic(auto, unfolding(steps::specs::Steps::number_step))]
pub fn number(task: Task, laid: Laid) -> Stepped
    ensures { result
        ≡ number_step task.size task.counters task.op laid.pred laid.node laid.lower laid.upper }
{
    let stamp = task.counters.stamp;
    if task.size.updates <= stamp {
        return task.damaged(laid.numbering());
    }
    let counters = Counters {
        stamp: stamp + 1,
        ..task.counters
    };
    let raised = Task { counters, ..task };
    raised.work(laid.linking(stamp + 1))
}

#[tactic(auto, unfolding(steps::specs::Steps::remove_link))]
fn link_remove(task: Task, nodes: &mut [u32], laid: Laid, number: u32) -> Stepped
    ensures { moved nodes.new result
        ≡ remove_link task.size nodes.old task.counters task.op laid.pred laid.node laid.lower
        laid.upper number }
{
    if task.size.nodes <= laid.pred || task.size.nodes <= laid.node {
        return task.damaged(laid.linking(number));
    }
    let next = nodes::node(nodes, laid.node, NEXT);
    nodes::put(nodes, laid.node, REMOVED, 1);
    nodes::put(nodes, laid.pred, NEXT, next);
    task.work(laid.finishing(number))
}

#[tactic(auto, unfolding(steps::specs::Steps::link_step, steps::specs::Steps::insert_link))]
pub fn link(task: Task, nodes: &mut [u32], laid: Laid, number: u32) -> Stepped
    ensures { moved nodes.new result
        ≡ link_step task.size nodes.old task.counters task.op laid.pred laid.node laid.lower
        laid.upper number }
{
    if terms::removes(task.op) {
        return link_remove(task, nodes, laid, number);
    }
    if task.size.nodes <= laid.pred {
        return task.damaged(laid.linking(number));
    }
    nodes::put(nodes, laid.pred, NEXT, laid.node);
    task.work(laid.finishing(number))
}

// What an update that is finished answers.
pub fn finished(removes: bool, number: u32) -> Answer
    ensures { result ≡ finish_answer removes number }
{
    if removes {
        Answer::Removed(number)
    } else {
        Answer::Inserted(number)
    }
}

// Whether all that Finish uses lies in the tables.
pub fn is_usable(size: Size, removes: bool, laid: Laid) -> bool
    ensures { result ≡ in_tables size removes laid.pred laid.node laid.lower laid.upper }
{
    laid.lower < size.entries
        && laid.upper < size.entries
        && laid.pred < size.nodes
        && (!removes || laid.node < size.nodes)
}

#[tactic(auto, unfolding(steps::specs::Steps::finish_step, steps::specs::Steps::usable))]
pub fn finish(
    task: Task,
    nodes: &mut [u32],
    entries: &mut [u32],
    laid: Laid,
    number: u32,
) -> Stepped
    ensures { done nodes.new entries.new result
        ≡ finish_step task.size nodes.old entries.old task.counters task.op laid.pred laid.node
        laid.lower laid.upper number }
{
    let removes = terms::removes(task.op);
    if is_usable(task.size, removes, laid) {
        bundle::finish(entries, laid.lower, number);
        bundle::finish(entries, laid.upper, number);
        nodes::unlock_both(nodes, laid.pred, laid.node, removes);
        return task.end(finished(removes, number));
    }
    task.damaged(laid.finishing(number))
}
