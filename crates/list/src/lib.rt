// The list steps: one step of a session, by the phase that its record has reached.
// Not here: the checks before a step (crate register), and what a step means (crate steps, specs/Steps.antt). Assumes
// nothing.
#![tactic(auto)]

ghost use Rattle.std.specs.Prelude.{◌≡◌, ◌<◌};
ghost use Rattle.steps.specs.Steps.{done, act_step};

use steps::{Laid, Phase, Query, Stepped, Task};
use terms::Refusal;

pub fn act(task: Task, nodes: &mut [u32], entries: &mut [u32], who: u32, phase: Phase) -> Stepped
    requires { who < 16 }
    ensures { done nodes.new entries.new result
        ≡ act_step task.size nodes.old entries.old task.counters who task.op phase }
{
    match phase {
        Phase::Idle => task.refuse(phase, Refusal::Idle),
        Phase::Walk { pred, curr } => reading::walk(task, nodes, pred, curr),
        Phase::Lock { pred, curr } => {
            let then = steps::locked(task.op, pred, curr);
            locking::lock(task, nodes, who, pred, phase, then)
        }
        Phase::LockCurr { pred, curr } => {
            let then = Phase::Check { pred, curr };
            locking::lock(task, nodes, who, curr, phase, then)
        }
        Phase::Check { pred, curr } => locking::check(task, nodes, pred, curr),
        Phase::Prepare { pred, curr } => preparing::prepare(task, nodes, entries, pred, curr),
        Phase::Number {
            pred,
            node,
            lower,
            upper,
        } => {
            let laid = Laid {
                pred,
                node,
                lower,
                upper,
            };
            finishing::number(task, laid)
        }
        Phase::Link {
            pred,
            node,
            lower,
            upper,
            number,
        } => {
            let laid = Laid {
                pred,
                node,
                lower,
                upper,
            };
            finishing::link(task, nodes, laid, number)
        }
        Phase::Finish {
            pred,
            node,
            lower,
            upper,
            number,
        } => {
            let laid = Laid {
                pred,
                node,
                lower,
                upper,
            };
            finishing::finish(task, nodes, entries, laid, number)
        }
        Phase::Newest { at } => reading::newest(task, nodes, entries, at),
        Phase::Fix { pred } => reading::fix(task, pred),
        Phase::Follow {
            at,
            snapshot,
            handed,
        } => {
            let query = Query {
                at,
                snapshot,
                handed,
            };
            reading::follow(task, nodes, entries, query)
        }
        Phase::Hand {
            at,
            snapshot,
            handed,
        } => {
            let query = Query {
                at,
                snapshot,
                handed,
            };
            reading::hand(task, nodes, query)
        }
    }
}
