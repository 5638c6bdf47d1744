// The register for other programs (C, Rust): fresh, start, step, many steps and listings, over lent slices.
// In order: fresh; start; many steps; one step, with a walk's short way (crate shortly); writing and reading a
// listing. `words` are 147: the counters and sixteen records (crate packing); `answer` is 3: the answer's name and
// values, and for many steps two numbers more. Each call returns 0 or a refusal's number; a refusal changes nothing
// but the answer; where the answer has another length, nothing at all is written. No call has a `requires`: wrong
// lengths are refused 7, words that are no record's 8. include/ravencrumb.h declares the calls; crate
// ffi_c exports them.
// Not here: the checks, answering and many steps (crate calling), a step that is no walk that moves on (crate
// stepping), what the calls mean (crate register). Assumes nothing.
#![tactic(auto)]

ghost use Rattle.std.specs.Prelude.{◌≡◌, length};
ghost use Rattle.terms.specs.Terms.{small};
ghost use Rattle.listing.specs.Listing.{key_room};
ghost use Rattle.exchange.specs.Exchange.{told, left, wrote, write_call, read_call};
ghost use Rattle.calling.specs.Calling.{strode};
ghost use Rattle.stepping.specs.Stepping.{heard, IsAdmitted, step_call};
ghost use Rattle.ffi.specs.Ffi.{
  cleared,
  fresh_call,
  start_record,
  start_session,
  start_call,
  IsWalker,
  unfit,
  steps_call,
};

use encoding::{Malformed, Words, phase};
use packing::{A, B, Reply};
use steps::Session;
use terms::{Answer, Op, Refusal};

#[tactic(auto, unfolding(crate::specs::Ffi::fresh_call))]
#[unsafe(no_mangle)]
pub extern "C" fn ravencrumb_fresh(nodes: &mut [u32], entries: &mut [u32], words: &mut [u32]) -> u32
    ensures { cleared nodes.new entries.new words.new result
        ≡ fresh_call small nodes.old entries.old words.old }
{
    if words.len() != 147 {
        return u32::from(Refusal::BadTable);
    }
    match register::fresh(nodes, entries) {
        Ok(counters) => {
            packing::fresh_words(words, counters);
            0
        }
        Err(why) => u32::from(why),
    }
}

#[tactic(auto, unfolding(crate::specs::Ffi::start_record))]
fn start_record(
    nodes: &[u32],
    entries: &[u32],
    words: &mut [u32],
    answer: &mut [u32],
    who: u32,
    s: Session,
    op: Op,
) -> u32
    ensures { heard words.new answer.new result
        ≡ start_record small nodes.now entries.now words.old answer.old
        who op s }
{
    let out = register::start(nodes, entries, who, s, op);
    packing::put_record(words, who, Words::from(out.session));
    calling::tell(answer, out.answer)
}

#[tactic(auto, unfolding(crate::specs::Ffi::start_session))]
fn start_session(
    nodes: &[u32],
    entries: &[u32],
    words: &mut [u32],
    answer: &mut [u32],
    who: u32,
    op: Op,
) -> u32
    ensures { heard words.new answer.new result
        ≡ start_session small nodes.now entries.now words.old answer.old
        who op }
{
    match Session::try_from(packing::record_at(words, who)) {
        Ok(s) => start_record(nodes, entries, words, answer, who, s, op),
        Err(Malformed) => calling::refuse(answer, u32::from(Refusal::Damaged)),
    }
}

// Kind 1 insert (key, value), 2 remove (key), 3 has (key), 4 range (low, high). Any other names no key: refused 3.
#[tactic(auto, unfolding(crate::specs::Ffi::start_call))]
#[unsafe(no_mangle)]
pub extern "C" fn ravencrumb_start(
    nodes: &[u32],
    entries: &[u32],
    words: &mut [u32],
    answer: &mut [u32],
    who: u32,
    kind: u32,
    first: u32,
    second: u32,
) -> u32
    ensures { heard words.new answer.new result
        ≡ start_call small nodes.now entries.now words.old answer.old
        who kind first second }
{
    if answer.len() != 3 {
        return u32::from(Refusal::BadTable);
    }
    if !calling::right_lengths(nodes, entries, words) {
        return calling::refuse(answer, u32::from(Refusal::BadTable));
    }
    if 16 <= who {
        return calling::refuse(answer, u32::from(Refusal::BadSession));
    }
    let op = encoding::op_from(kind, first, second);
    start_session(nodes, entries, words, answer, who, op)
}

// Steps of one session: see crate several for when it ends. Key i handed out is word 2 i of `pairs`, its value the
// next.
#[tactic(auto, unfolding(crate::specs::Ffi::steps_call, calling::specs::Calling::many_call))]
#[unsafe(no_mangle)]
pub extern "C" fn ravencrumb_steps(
    nodes: &mut [u32],
    entries: &mut [u32],
    words: &mut [u32],
    pairs: &mut [u32],
    answer: &mut [u32],
    who: u32,
    limit: u32,
) -> u32
    ensures { strode nodes.new entries.new words.new pairs.new
        answer.new result
        ≡ steps_call small nodes.old entries.old words.old pairs.old
        answer.old who limit }
{
    if answer.len() != 5 {
        return u32::from(Refusal::BadTable);
    }
    calling::many(nodes, entries, words, pairs, answer, who, limit)
}

// Of an operation that seeks this key.
#[tactic(auto, using(crate::proofs::Walks::walks_shortly))]
fn step_walking(
    nodes: &mut [u32],
    entries: &mut [u32],
    words: &mut [u32],
    answer: &mut [u32],
    who: u32,
    sought: u32,
) -> u32
    requires { IsWalker small nodes.old entries.old words.old answer.old who sought }
    ensures { left nodes.new entries.new words.new answer.new result
        ≡ step_call small nodes.old entries.old words.old answer.old
        who }
{
    let p = packing::phase_at(words, who);
    match shortly::walk(nodes, sought, p) {
        Some(next) => {
            let reply = Reply::from(Answer::Working);
            stepping::go(words, answer, who, A, p.b, B, next, reply)
        }
        None => stepping::otherwise(nodes, entries, words, answer, who),
    }
}

#[tactic(auto, using(crate::proofs::Walks::seeks_first))]
fn step_seeking(
    nodes: &mut [u32],
    entries: &mut [u32],
    words: &mut [u32],
    answer: &mut [u32],
    who: u32,
) -> u32
    requires { IsAdmitted small nodes.old entries.old words.old answer.old who }
    ensures { left nodes.new entries.new words.new answer.new result
        ≡ step_call small nodes.old entries.old words.old answer.old
        who }
{
    let o = packing::op_at(words, who);
    if shortly::seeks(o) {
        return step_walking(nodes, entries, words, answer, who, o.first);
    }
    stepping::otherwise(nodes, entries, words, answer, who)
}

fn step_shortly(
    nodes: &mut [u32],
    entries: &mut [u32],
    words: &mut [u32],
    answer: &mut [u32],
    who: u32,
) -> u32
    requires { IsAdmitted small nodes.old entries.old words.old answer.old who }
    ensures { left nodes.new entries.new words.new answer.new result
        ≡ step_call small nodes.old entries.old words.old answer.old
        who }
{
    if packing::phase_number(words, who) == phase::WALK {
        return step_seeking(nodes, entries, words, answer, who);
    }
    stepping::otherwise(nodes, entries, words, answer, who)
}

// The other checks, where the nodes and the answer have their lengths.
#[tactic(auto, using(crate::proofs::Ways::checked_steps))]
fn step_checked(
    nodes: &mut [u32],
    entries: &mut [u32],
    words: &mut [u32],
    answer: &mut [u32],
    who: u32,
) -> u32
    requires { (length nodes.old ≡ 3072) × (length answer.old ≡ 3) }
    ensures { left nodes.new entries.new words.new answer.new result
        ≡ step_call small nodes.old entries.old words.old answer.old
        who }
{
    if entries.len() != 8192 {
        return calling::refuse(answer, u32::from(Refusal::BadTable));
    }
    if who < 16 {
        if words.len() != 147 {
            return calling::refuse(answer, u32::from(Refusal::BadTable));
        }
        return step_shortly(nodes, entries, words, answer, who);
    }
    stepping::otherwise(nodes, entries, words, answer, who)
}

// Where the nodes have another length. An answer of another length stays as it is.
fn refuse_nodes(answer: &mut [u32]) -> u32
    ensures { told answer.new result ≡ unfit answer.old }
{
    if answer.len() != 3 {
        return u32::from(Refusal::BadTable);
    }
    calling::refuse(answer, u32::from(Refusal::BadTable))
}

// By a short way where one leads: nearly all steps are a walk's or a range's. Of the checks no two in a row go on
// alike: compiled code would make one test of the two, which costs more than both.
#[tactic(auto, using(crate::proofs::Ways::step_nodes))]
#[unsafe(no_mangle)]
pub extern "C" fn ravencrumb_step(
    nodes: &mut [u32],
    entries: &mut [u32],
    words: &mut [u32],
    answer: &mut [u32],
    who: u32,
) -> u32
    ensures { left nodes.new entries.new words.new answer.new result
        ≡ step_call small nodes.old entries.old words.old answer.old
        who }
{
    if nodes.len() != 3072 {
        return refuse_nodes(answer);
    }
    if answer.len() != 3 {
        return stepping::otherwise(nodes, entries, words, answer, who);
    }
    step_checked(nodes, entries, words, answer, who)
}

#[unsafe(no_mangle)]
pub extern "C" fn ravencrumb_write(
    stamp: u32,
    keys: &[u32],
    values: &[u32],
    out: &mut [u8],
    answer: &mut [u32],
) -> u32
    ensures { wrote out.new answer.new result
        ≡ write_call key_room stamp keys.now values.now out.old
        answer.old }
{
    exchange::write_listing(stamp, keys, values, out, answer)
}

#[unsafe(no_mangle)]
pub extern "C" fn ravencrumb_read(
    input: &[u8],
    nodes: &mut [u32],
    entries: &mut [u32],
    words: &mut [u32],
    answer: &mut [u32],
) -> u32
    ensures { left nodes.new entries.new words.new answer.new result
        ≡ read_call small input.now nodes.old entries.old words.old
        answer.old }
{
    exchange::read_listing(input, nodes, entries, words, answer)
}
