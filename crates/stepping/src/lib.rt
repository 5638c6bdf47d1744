// One step of a session on its words, by a short way where one leads.
// In order: the whole step; what a range's short way tells (crate shortly); an update's steps that change
// the phase alone (crate advancing); Number and Finish (crate closing); by the phase, with the checks. Where no short
// way leads, the step is one of many (crate calling), on the record decoded.
// Not here: the step for C, and a walk that moves on (crate ffi), what the short ways test (their crates). Assumes
// nothing.
#![tactic(auto)]

ghost use Rattle.std.specs.Prelude.{◌≡◌};
ghost use Rattle.terms.specs.Terms.{small};
ghost use Rattle.exchange.specs.Exchange.{left};
ghost use Rattle.stepping.specs.Stepping.{IsAdmitted, heard, went, settled, ended, step_call};

use encoding::{PhaseWords, Words, kind, phase};
use packing::{A, C, PHASE, Reply};
use shortly::Ranged;
use steps::Who;
use terms::{Answer, Counters, Refusal};

// The whole call: one of many steps. No key is looked for in the pair lent to it.
#[tactic(auto, using(crate::proofs::Single::one_of_many, crate::proofs::Ways::step_silent))]
fn fully(
    nodes: &mut [u32],
    entries: &mut [u32],
    words: &mut [u32],
    answer: &mut [u32],
    who: u32,
) -> u32
    ensures { left nodes.new entries.new words.new answer.new result
        ≡ step_call small nodes.old entries.old words.old answer.old
        who }
{
    if answer.len() != 3 {
        return u32::from(Refusal::BadTable);
    }
    let mut pair = [0; 2];
    calling::many(nodes, entries, words, &mut pair, answer, who, 1)
}

// Puts what a short way tells: the two words that change, and the answer, which is no refusal.
pub fn go(
    words: &mut [u32],
    answer: &mut [u32],
    who: u32,
    j: u32,
    x: u32,
    k: u32,
    y: u32,
    reply: Reply,
) -> u32
    ensures { heard words.new answer.new result
        ≡ went words.old answer.old who j x k y reply }
{
    packing::put_two(words, who, j, x, k, y);
    packing::put_reply(answer, reply);
    0
}

#[tactic(auto, using(crate::proofs::Short::leads_shortly, crate::proofs::Short::hands_shortly))]
fn ranging(
    nodes: &mut [u32],
    entries: &mut [u32],
    words: &mut [u32],
    answer: &mut [u32],
    who: u32,
) -> u32
    requires { IsAdmitted small nodes.old entries.old words.old answer.old who }
    ensures { left nodes.new entries.new words.new answer.new result
        ≡ step_call small nodes.old entries.old words.old answer.old
        who }
{
    let w = packing::record_at(words, who);
    match shortly::range(nodes, entries, w) {
        Some(Ranged::Leads(phase, to)) => {
            let reply = Reply::from(Answer::Working);
            go(words, answer, who, PHASE, phase, A, to, reply)
        }
        Some(Ranged::Hands(handed, key, value)) => {
            let reply = Reply::from(Answer::Key(key, value));
            go(words, answer, who, PHASE, phase::FOLLOW, C, handed, reply)
        }
        None => fully(nodes, entries, words, answer, who),
    }
}

#[tactic(auto, using(crate::proofs::Short::advances_fully))]
fn updating(
    nodes: &mut [u32],
    entries: &mut [u32],
    words: &mut [u32],
    answer: &mut [u32],
    who: Who,
) -> u32
    requires { IsAdmitted small nodes.old entries.old words.old answer.old who.number }
    ensures { left nodes.new entries.new words.new answer.new result
        ≡ step_call small nodes.old entries.old words.old answer.old
        who.number }
{
    let o = packing::op_at(words, who.number);
    let p = packing::phase_at(words, who.number);
    match advancing::advance(nodes, who.number, o, p) {
        Some(phase) => {
            let reply = Reply::from(Answer::Working);
            go(words, answer, who.number, PHASE, phase, A, p.a, reply)
        }
        None => fully(nodes, entries, words, answer, who.number),
    }
}

// Puts other counters, another record and the answer, which is no refusal.
fn settle(
    words: &mut [u32],
    answer: &mut [u32],
    who: u32,
    c: Counters,
    w: Words,
    reply: Reply,
) -> u32
    ensures { heard words.new answer.new result
        ≡ settled words.old answer.old who c w reply }
{
    packing::put_counters(words, c);
    packing::put_record(words, who, w);
    packing::put_reply(answer, reply);
    0
}

#[tactic(auto, using(crate::proofs::Short::numbers_shortly))]
fn numbering(
    nodes: &mut [u32],
    entries: &mut [u32],
    words: &mut [u32],
    answer: &mut [u32],
    who: u32,
) -> u32
    requires { IsAdmitted small nodes.old entries.old words.old answer.old who }
    ensures { left nodes.new entries.new words.new answer.new result
        ≡ step_call small nodes.old entries.old words.old answer.old
        who }
{
    let c = packing::counters_at(words);
    let o = packing::op_at(words, who);
    let p = packing::phase_at(words, who);
    match closing::number(c.stamp, o, p) {
        Some(stamp) => {
            let raised = Counters { stamp, ..c };
            let phase = PhaseWords {
                phase: phase::LINK,
                e: stamp,
                ..p
            };
            let w = Words { op: o, phase };
            settle(words, answer, who, raised, w, Reply::from(Answer::Working))
        }
        None => fully(nodes, entries, words, answer, who),
    }
}

fn end_update(words: &mut [u32], answer: &mut [u32], who: u32, removes: bool, number: u32) -> u32
    ensures { heard words.new answer.new result
        ≡ ended words.old answer.old who removes number }
{
    let c = packing::counters_at(words);
    let reply = Reply::from(finishing::finished(removes, number));
    let idle = Words::default();
    settle(words, answer, who, c, idle, reply)
}

#[tactic(auto, using(crate::proofs::Short::finishes_fully))]
fn finishing(
    nodes: &mut [u32],
    entries: &mut [u32],
    words: &mut [u32],
    answer: &mut [u32],
    who: u32,
) -> u32
    requires { IsAdmitted small nodes.old entries.old words.old answer.old who }
    ensures { left nodes.new entries.new words.new answer.new result
        ≡ step_call small nodes.old entries.old words.old answer.old
        who }
{
    let o = packing::op_at(words, who);
    let p = packing::phase_at(words, who);
    if closing::finish(nodes, entries, o, p) {
        return end_update(words, answer, who, o.kind == kind::REMOVE, p.e);
    }
    fully(nodes, entries, words, answer, who)
}

fn by_phase(
    nodes: &mut [u32],
    entries: &mut [u32],
    words: &mut [u32],
    answer: &mut [u32],
    who: Who,
) -> u32
    requires { IsAdmitted small nodes.old entries.old words.old answer.old who.number }
    ensures { left nodes.new entries.new words.new answer.new result
        ≡ step_call small nodes.old entries.old words.old answer.old
        who.number }
{
    match packing::phase_number(words, who.number) {
        phase::FOLLOW.. => ranging(nodes, entries, words, answer, who.number),
        phase::NUMBER => numbering(nodes, entries, words, answer, who.number),
        phase::FINISH => finishing(nodes, entries, words, answer, who.number),
        _ => updating(nodes, entries, words, answer, who),
    }
}

// Every step but a walk's that moves on: it compiles to a function of its own, so that such a walk saves no registers
// for the others. It makes the checks again because compiled code does not know of its caller's, and each use of a
// table would make them.
#[tactic(auto, unfolding(steps::specs::Steps::among_sixteen))]
pub fn otherwise(
    nodes: &mut [u32],
    entries: &mut [u32],
    words: &mut [u32],
    answer: &mut [u32],
    who: u32,
) -> u32
    ensures { left nodes.new entries.new words.new answer.new result
        ≡ step_call small nodes.old entries.old words.old answer.old
        who }
{
    if answer.len() == 3
        && calling::right_lengths(nodes, entries, words)
        && let Some(who) = Who::new(who)
    {
        return by_phase(nodes, entries, words, answer, who);
    }
    fully(nodes, entries, words, answer, who)
}
