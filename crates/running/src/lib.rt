// The whole runner as one function (document 01, "The runner"): from an input and two lent tables to an output and
// its length.
// In order: numbers; why a run writes nothing; a call and its session's record; a turn; the room a run needs; one
// line; the lines; the run.
// The sixteen records stay where they are in `serve_lines`: each call is lent one.
// Not here: lines and answers (crate lines), reading and writing files (crate serving). Assumes nothing.
#![tactic(auto)]

ghost use Rattle.std.specs.Prelude.{◌≡◌, ◌+◌, ◌*◌, ◌≤◌, length};
ghost use Rattle.text.specs.Text.{lines_of};
ghost use Rattle.terms.specs.Terms.{small};
ghost use Rattle.steps.specs.Steps.{done};
ghost use Rattle.sixteen.specs.Sixteen.{fresh_register};
ghost use Rattle.running.specs.Running.{caller_of, lines_run, wrote, write_at, room_for, outcome, run_of};
ghost use Rattle.running.specs.OneRecord.{slot_of, call_of, turned, turn_of};
ghost use Rattle.running.specs.OneLine.{call_in};

use sixteen::Call;
use steps::{Session, Stepped};
use terms::Counters;

// The longest input that is run, in bytes.
const LONGEST: usize = 16384;

// Document 01's number of a line that is no call.
const BAD_LINE: u32 = 13;

// And of input that is longer.
const TOO_LONG: u32 = 14;

// Why a run writes nothing: the output is too short, or a lent table has another length.
#[derive(Clone, Copy)]
pub enum Unrun {
    NoRoom,
    BadTable,
}

fn caller(call: Call) -> u32
    ensures { result ≡ caller_of call }
{
    match call {
        Call::Start(who, _) | Call::Step(who) => who,
    }
}

// Where a call's record stands. A session above 15 has none: it is lent the last one, and gives it back as it was.
fn slot(call: Call) -> usize
    ensures { result ≡ slot_of call }
{
    caller(call).min(15) as usize
}

// A call, with its session's record.
fn serve_one(nodes: &mut [u32], entries: &mut [u32], c: Counters, call: Call, s: Session) -> Stepped
    ensures { done nodes.new entries.new result
        ≡ call_of small nodes.old entries.old c call s }
{
    match call {
        Call::Start(who, op) => {
            let started = register::start(nodes, entries, who, s, op);
            Stepped {
                counters: c,
                session: started.session,
                answer: started.answer,
            }
        }
        Call::Step(who) => register::step(nodes, entries, c, who, s),
    }
}

// A call, and its answer printed at `place`: the place after it. No answer is longer than 67 bytes.
fn turn(
    nodes: &mut [u32],
    entries: &mut [u32],
    out: &mut [u8],
    place: usize,
    c: &mut Counters,
    call: Call,
    s: &mut Session,
) -> usize
    requires { place + 67 ≤ length out.old }
    ensures { turned nodes.new entries.new out.new c.new s.new result
        ≡ turn_of small nodes.old entries.old out.old place c.old call s.old }
{
    let stepped = serve_one(nodes, entries, *c, call, *s);
    *c = stepped.counters;
    *s = stepped.session;
    lines::print(out, place, caller(call), stepped.answer)
}

// 11 bytes for each byte of input: an empty line is answered by 11. Input that is too long is answered by one line.
#[tactic(auto, unfolding(crate::specs::Running::room_for))]
fn room(n: usize) -> usize
    ensures { result ≡ room_for n }
{
    if n <= LONGEST { 11 * n } else { 11 }
}

// The call that a line is, if it is one. A last line, without byte 10, is none, whatever it says.
#[tactic(auto, unfolding(crate::specs::OneLine::call_in))]
fn read(line: &[u8]) -> Option<Call>
    ensures { result ≡ call_in line.now }
{
    lines::read_line(line.strip_suffix(b"\n")?)
}

// The lines one after the other, on the register that the tables hold with the counters c and sixteen idle records.
fn serve_lines(
    input: &[u8],
    nodes: &mut [u32],
    entries: &mut [u32],
    out: &mut [u8],
    c: Counters,
) -> usize
    requires { 11 * length input.now ≤ length out.old }
    ensures { wrote nodes.new entries.new out.new result
        ≡ write_at out.old 0 (lines_run (lines_of input.now) small nodes.old
        entries.old (fresh_register c)) }
{
    let mut counters = c;
    let mut sessions = [steps::idle_session(); 16];
    let mut at = 0;
    for line in input.split_inclusive(|b| text::ends_line(*b)) {
        match read(line) {
            None => {
                at = lines::print_refusal(out, at, BAD_LINE);
            }
            Some(call) => {
                let session = &mut sessions[slot(call)];
                at = turn(nodes, entries, out, at, &mut counters, call, session);
            }
        }
    }
    at
}

// The whole run. It writes nothing where it answers NoRoom or BadTable.
pub fn run(
    input: &[u8],
    nodes: &mut [u32],
    entries: &mut [u32],
    out: &mut [u8],
) -> Result<usize, Unrun>
    ensures { outcome nodes.new entries.new out.new result
        ≡ run_of small input.now nodes.old entries.old out.old }
{
    if out.len() < room(input.len()) {
        return Err(Unrun::NoRoom);
    }
    if LONGEST < input.len() {
        return Ok(lines::print_refusal(out, 0, TOO_LONG));
    }
    match register::fresh(nodes, entries) {
        Ok(c) => Ok(serve_lines(input, nodes, entries, out, c)),
        Err(_) => Err(Unrun::BadTable),
    }
}
