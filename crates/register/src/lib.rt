// The register's public calls: fresh, start and step over two lent tables.
// In order: what the calls return; the tables' lengths; fresh; start; step. No call has a `requires`: bad tables,
// sessions, keys, ranges and contents are refused by number (document 01).
// Not here: the step through a reference to the record (crate inplace), the call over sixteen records (crate sixteen),
// listings (crate listing). Assumes nothing.
#![tactic(auto)]

ghost use Rattle.std.specs.Prelude.{◌≡◌};
ghost use Rattle.terms.specs.Terms.{small};
ghost use Rattle.steps.specs.Steps.{done};
ghost use Rattle.register.specs.Register.{
  fits,
  bad_key,
  keeps,
  began,
  start_of,
  step_of,
  opened,
  fresh_nodes,
  fresh_entries,
  fresh_of,
};

use nodes::{KEY, NEWEST, NEXT};
use steps::{Phase, Session, Stepped, Task, Who};
use terms::{Answer, Counters, Op, Refusal, Size};

// What a start returns: the session's record afterwards, and the answer.
#[derive(Clone, Copy)]
pub struct Started {
    pub session: Session,
    pub answer: Answer,
}

#[tactic(auto, unfolding(crate::specs::Register::fits))]
pub fn right_lengths(z: Size, nodes: &[u32], entries: &[u32]) -> bool
    ensures { result ≡ fits z nodes.now entries.now }
{
    nodes.len() == z.nodes as usize * 6 && entries.len() == z.entries as usize * 4
}

// Head and tail, the head's link to the tail, and its entry 0, dated 0, to the tail.
#[tactic(auto, unfolding(crate::specs::Register::fresh_nodes))]
fn open_nodes(nodes: &mut [u32])
    ensures { nodes.new ≡ fresh_nodes nodes.old }
{
    table::clear(nodes);
    nodes::put(nodes, 0, NEXT, 1);
    nodes::put(nodes, 0, NEWEST, 1);
    nodes::put(nodes, 1, KEY, 4294967295);
}

#[tactic(auto, unfolding(crate::specs::Register::fresh_entries))]
fn open_entries(entries: &mut [u32])
    ensures { entries.new ≡ fresh_entries entries.old }
{
    table::clear(entries);
    bundle::lay(entries, 0, 1, 0, 0);
    bundle::finish(entries, 0, 0);
}

// The counters of the register that the tables now hold.
#[tactic(auto, unfolding(crate::specs::Register::fresh_of))]
pub fn fresh(nodes: &mut [u32], entries: &mut [u32]) -> Result<Counters, Refusal>
    ensures { opened nodes.new entries.new result
        ≡ fresh_of small nodes.old entries.old }
{
    if !right_lengths(terms::small_size(), nodes, entries) {
        return Err(Refusal::BadTable);
    }
    open_nodes(nodes);
    open_entries(entries);
    let counters = Counters {
        nodes: 2,
        entries: 1,
        stamp: 0,
    };
    Ok(counters)
}

#[tactic(auto, unfolding(crate::specs::Register::bad_key))]
fn is_bad_key(op: Op) -> bool
    ensures { result ≡ bad_key op }
{
    terms::out_of_bounds(terms::sought(op)) || terms::out_of_bounds(terms::high(op))
}

fn keep(session: Session, why: Refusal) -> Started
    ensures { result ≡ keeps session why }
{
    Started {
        session,
        answer: Answer::Refused(why),
    }
}

// The start of an idle session, where only the operation's own numbers are left to check.
#[tactic(auto, unfolding(crate::specs::Register::began))]
fn begin(nodes: &[u32], s: Session, op: Op) -> Started
    ensures { result ≡ began nodes.now s op }
{
    if is_bad_key(op) {
        return keep(s, Refusal::BadKey);
    }
    if terms::high(op) < terms::sought(op) {
        return keep(s, Refusal::BadRange);
    }
    let curr = nodes::node(nodes, 0, NEXT);
    let phase = Phase::Walk { pred: 0, curr };
    Started {
        session: Session { op, phase },
        answer: Answer::Started,
    }
}

#[tactic(auto, unfolding(crate::specs::Register::start_of))]
pub fn start(nodes: &[u32], entries: &[u32], who: u32, s: Session, op: Op) -> Started
    ensures { result ≡ start_of small nodes.now entries.now who s op }
{
    if !right_lengths(terms::small_size(), nodes, entries) {
        return keep(s, Refusal::BadTable);
    }
    if 16 <= who {
        return keep(s, Refusal::BadSession);
    }
    if steps::busy(s) {
        return keep(s, Refusal::Busy);
    }
    begin(nodes, s, op)
}

#[tactic(auto, unfolding(crate::specs::Register::step_of, steps::specs::Steps::among_sixteen))]
pub fn step(nodes: &mut [u32], entries: &mut [u32], c: Counters, who: u32, s: Session) -> Stepped
    ensures { done nodes.new entries.new result
        ≡ step_of small nodes.old entries.old c who s }
{
    let task = Task {
        size: terms::small_size(),
        counters: c,
        op: s.op,
    };
    if !right_lengths(task.size, nodes, entries) {
        return task.refuse(s.phase, Refusal::BadTable);
    }
    let Some(who) = Who::new(who) else {
        return task.refuse(s.phase, Refusal::BadSession);
    };
    if steps::busy(s) {
        return list::act(task, nodes, entries, who.number, s.phase);
    }
    task.refuse(s.phase, Refusal::Idle)
}
