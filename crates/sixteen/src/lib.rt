// A register for programs: the counters and sixteen session records, by value beside the two lent tables.
// In order: the register and its calls; one record out of sixteen; fresh; start; step; any call.
// A loop that is to be fast keeps the sixteen records in a local of its own and calls crate register with one of them.
// Not here: what the calls mean (crate register). Assumes nothing.
#![tactic(auto)]

ghost use Rattle.std.specs.Prelude.{◌≡◌, set};
ghost use Rattle.terms.specs.Terms.{small};
ghost use Rattle.sixteen.specs.Sixteen.{
  session_of,
  fresh_register,
  served,
  serve_start,
  serve_step,
  serve_of,
};

use steps::Session;
use terms::{Answer, Counters, Op};

#[derive(Clone, Copy)]
pub struct Register {
    pub counters: Counters,
    pub sessions: [Session; 16],
}

// A call for a session: start an operation, or step.
#[derive(Clone, Copy)]
pub enum Call {
    Start(u32, Op),
    Step(u32),
}

#[derive(Clone, Copy)]
pub struct Served {
    pub register: Register,
    pub answer: Answer,
}

// A session above 15 has none, and counts as idle until it is refused.
fn session_at(sessions: [Session; 16], who: u32) -> Session
    ensures { result ≡ session_of sessions who }
{
    sessions
        .get(who as usize)
        .copied()
        .unwrap_or(steps::idle_session())
}

fn with_session(mut sessions: [Session; 16], who: u32, s: Session) -> [Session; 16]
    ensures { result ≡ set sessions who s }
{
    if who < 16 {
        sessions[who as usize] = s;
    }
    sessions
}

// Sixteen idle records beside a fresh register's counters.
pub fn fresh_register(counters: Counters) -> Register
    ensures { result ≡ fresh_register counters }
{
    let s = steps::idle_session();
    let sessions = [s; 16];
    Register { counters, sessions }
}

fn serve_start(nodes: &[u32], entries: &[u32], g: Register, who: u32, op: Op) -> Served
    ensures { result ≡ serve_start small nodes.now entries.now g who op }
{
    let s = session_at(g.sessions, who);
    let out = register::start(nodes, entries, who, s, op);
    let register = Register {
        counters: g.counters,
        sessions: with_session(g.sessions, who, out.session),
    };
    Served {
        register,
        answer: out.answer,
    }
}

fn serve_step(nodes: &mut [u32], entries: &mut [u32], g: Register, who: u32) -> Served
    ensures { served nodes.new entries.new result
        ≡ serve_step small nodes.old entries.old g who }
{
    let s = session_at(g.sessions, who);
    let out = register::step(nodes, entries, g.counters, who, s);
    let register = Register {
        counters: out.counters,
        sessions: with_session(g.sessions, who, out.session),
    };
    Served {
        register,
        answer: out.answer,
    }
}

pub fn serve(nodes: &mut [u32], entries: &mut [u32], g: Register, call: Call) -> Served
    ensures { served nodes.new entries.new result
        ≡ serve_of small nodes.old entries.old g call }
{
    match call {
        Call::Start(who, op) => serve_start(nodes, entries, g, who, op),
        Call::Step(who) => serve_step(nodes, entries, g, who),
    }
}
