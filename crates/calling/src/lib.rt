// What the library's calls have in common, and many steps in one call: the slices' lengths, answering, and the steps
// of one session on its record decoded once.
// In order: the slices' lengths; answering; what is put back; many steps. `words` are 147: the counters and sixteen
// records (crate packing). No function has a `requires`: wrong lengths are refused 7, words that are no record's 8.
// Not here: the calls for C (crate ffi), when many steps end (crate several). Assumes nothing.
#![tactic(auto)]

ghost use Rattle.std.specs.Prelude.{◌≡◌};
ghost use Rattle.terms.specs.Terms.{small};
ghost use Rattle.terms.specs.Terms.{refusal_number};
ghost use Rattle.packing.specs.Packing.{refused_by, put_reply};
ghost use Rattle.exchange.specs.Exchange.{told};
ghost use Rattle.calling.specs.Calling.{
  lengths_fit,
  refusal,
  answered,
  kept,
  tally,
  strode,
  steps_record,
  steps_session,
  many_call,
};

use encoding::{Malformed, Words};
use packing::Reply;
use steps::Session;
use terms::{Answer, Counters, Refusal};

#[tactic(auto, unfolding(crate::specs::Calling::lengths_fit))]
pub fn right_lengths(nodes: &[u32], entries: &[u32], words: &[u32]) -> bool
    ensures { result ≡ lengths_fit small nodes.now entries.now words.now }
{
    register::right_lengths(terms::small_size(), nodes, entries) && words.len() == 147
}

#[tactic(auto, unfolding(packing::specs::Packing::number_of))]
pub fn refuse(answer: &mut [u32], number: u32) -> u32
    ensures { told answer.new result ≡ refusal answer.old number }
{
    exchange::give(answer, packing::refused(number))
}

// Puts an answer, and returns what the call returns.
pub fn tell(answer: &mut [u32], given: Answer) -> u32
    ensures { told answer.new result ≡ answered answer.old given }
{
    exchange::give(answer, Reply::from(given))
}

// Puts what a step returns beside the tables and the answer.
fn keep(words: &mut [u32], who: u32, c: Counters, s: Session)
    ensures { words.new ≡ kept words.old who c s }
{
    packing::put_counters(words, c);
    packing::put_record(words, who, Words::from(s));
}

// Puts how many pairs are filled and how many steps were made behind an answer, and returns what the call returns.
fn count_up(answer: &mut [u32], number: u32, count: u32, made: u32) -> u32
    ensures { told answer.new result ≡ told (tally answer.old count made) number }
{
    table::store(answer, 5, 0, 3, count);
    table::store(answer, 5, 0, 4, made);
    number
}

fn stand_still(answer: &mut [u32], why: Refusal) -> u32
    ensures { told answer.new result
        ≡ told (tally (put_reply answer.old (refused_by (refusal_number why))) 0 0) (refusal_number why) }
{
    let n = refuse(answer, u32::from(why));
    count_up(answer, n, 0, 0)
}

#[tactic(auto, unfolding(crate::specs::Calling::steps_record))]
fn steps_record(
    nodes: &mut [u32],
    entries: &mut [u32],
    words: &mut [u32],
    pairs: &mut [u32],
    answer: &mut [u32],
    who: u32,
    limit: u32,
    s: Session,
) -> u32
    ensures { strode nodes.new entries.new words.new pairs.new
        answer.new result
        ≡ steps_record small nodes.old entries.old words.old pairs.old
        answer.old who limit s }
{
    let c = packing::counters_at(words);
    let out = several::steps(nodes, entries, pairs, c, who, s, limit);
    let last = out.last;
    keep(words, who, last.counters, last.session);
    let n = tell(answer, last.answer);
    count_up(answer, n, last.count, out.made)
}

#[tactic(auto, unfolding(crate::specs::Calling::steps_session))]
fn steps_session(
    nodes: &mut [u32],
    entries: &mut [u32],
    words: &mut [u32],
    pairs: &mut [u32],
    answer: &mut [u32],
    who: u32,
    limit: u32,
) -> u32
    ensures { strode nodes.new entries.new words.new pairs.new
        answer.new result
        ≡ steps_session small nodes.old entries.old words.old pairs.old
        answer.old who limit }
{
    match Session::try_from(packing::record_at(words, who)) {
        Ok(s) => steps_record(nodes, entries, words, pairs, answer, who, limit, s),
        Err(Malformed) => stand_still(answer, Refusal::Damaged),
    }
}

// The checks, and the steps on the record decoded.
#[tactic(auto, unfolding(crate::specs::Calling::many_call))]
pub fn many(
    nodes: &mut [u32],
    entries: &mut [u32],
    words: &mut [u32],
    pairs: &mut [u32],
    answer: &mut [u32],
    who: u32,
    limit: u32,
) -> u32
    ensures { strode nodes.new entries.new words.new pairs.new
        answer.new result
        ≡ many_call small nodes.old entries.old words.old pairs.old
        answer.old who limit }
{
    if !right_lengths(nodes, entries, words) {
        return stand_still(answer, Refusal::BadTable);
    }
    if 16 <= who {
        return stand_still(answer, Refusal::BadSession);
    }
    steps_session(nodes, entries, words, pairs, answer, who, limit)
}
