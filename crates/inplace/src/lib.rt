// The step that changes one session's record where it stands (document 01: "The step changes that one record where it
// stands"). It copies the record out, takes crate register's step by value, and stores the advanced record.
// Not here: anything that a caller without such a reference needs (crate register). Assumes nothing.
#![tactic(auto)]

ghost use Rattle.std.specs.Prelude.{◌≡◌};
ghost use Rattle.terms.specs.Terms.{small};
ghost use Rattle.register.specs.Register.{step_of};
ghost use Rattle.steps.specs.Steps.{done};

use steps::{Session, Stepped};
use terms::Counters;

pub fn step_in_place(
    nodes: &mut [u32],
    entries: &mut [u32],
    c: Counters,
    who: u32,
    session: &mut Session,
) -> Stepped
    ensures { (done nodes.new entries.new result
        ≡ step_of small nodes.old entries.old c who session.old)
        × (session.new ≡ result.session) }
{
    let out = register::step(nodes, entries, c, who, *session);
    *session = out.session;
    out
}
