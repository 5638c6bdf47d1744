// The counters, the sixteen records and an answer in lent slices of words.
// In order: four places in a record; the numbers of answers; what is answered; counters; one session's record; a fresh
// register's words; answers. Words 0 to 2 are nodes used, entries used and the stamp; session s has words 3 + 9 s to
// 11 + 9 s (crate encoding says which). An answer is three words: its name and its two values. Everything is total:
// what lies past a slice's end reads as 0.
// Not here: the lengths that a call asks for (crate calling). Assumes nothing.
#![tactic(auto)]

ghost use Rattle.std.specs.Prelude.{◌≡◌};
ghost use Rattle.terms.specs.Terms.{refusal_number};
ghost use Rattle.packing.specs.Packing.{
  counters_at,
  put_counters,
  op_at,
  phase_at,
  record_at,
  phase_number,
  put_op,
  put_phase,
  put_two,
  put_record,
  fresh_words,
  refused_by,
  reply_of,
  number_of,
  put_reply,
};

use encoding::{OpWords, PhaseWords, Words};
use terms::{Answer, Counters, Refusal};

// Where the phase and its first three numbers stand in a record.
pub const PHASE: u32 = 6;

pub const A: u32 = 7;

pub const B: u32 = 8;

pub const C: u32 = 9;

// The number of each answer; a refusal is 0.
pub mod name {
    pub const STARTED: u32 = 1;

    pub const WORKING: u32 = 2;

    pub const WAITING: u32 = 3;

    pub const KEY: u32 = 4;

    pub const INSERTED: u32 = 5;

    pub const REMOVED: u32 = 6;

    pub const PRESENT: u32 = 7;

    pub const ABSENT: u32 = 8;

    pub const END: u32 = 9;

    pub const WRITTEN: u32 = 10;

    pub const READ: u32 = 11;
}

// An answer's name and values, as numbers: a refusal's name is 0, a value that an answer doesn't have is 0.
#[derive(Clone, Copy, Default)]
pub struct Reply {
    pub name: u32,
    pub first: u32,
    pub second: u32,
}

pub fn counters_at(words: &[u32]) -> Counters
    ensures { result ≡ counters_at words.now }
{
    Counters {
        nodes: table::word(words, 9, 0, 0),
        entries: table::word(words, 9, 0, 1),
        stamp: table::word(words, 9, 0, 2),
    }
}

#[tactic(auto, unfolding(crate::specs::Packing::put_counters))]
pub fn put_counters(words: &mut [u32], c: Counters)
    ensures { words.new ≡ put_counters words.old c }
{
    table::store(words, 9, 0, 0, c.nodes);
    table::store(words, 9, 0, 1, c.entries);
    table::store(words, 9, 0, 2, c.stamp);
}

pub fn op_at(words: &[u32], who: u32) -> OpWords
    ensures { result ≡ op_at words.now who }
{
    OpWords {
        kind: table::word(words, 9, who, 3),
        first: table::word(words, 9, who, 4),
        second: table::word(words, 9, who, 5),
    }
}

pub fn phase_at(words: &[u32], who: u32) -> PhaseWords
    ensures { result ≡ phase_at words.now who }
{
    PhaseWords {
        phase: table::word(words, 9, who, 6),
        a: table::word(words, 9, who, 7),
        b: table::word(words, 9, who, 8),
        c: table::word(words, 9, who, 9),
        d: table::word(words, 9, who, 10),
        e: table::word(words, 9, who, 11),
    }
}

pub fn record_at(words: &[u32], who: u32) -> Words
    ensures { result ≡ record_at words.now who }
{
    Words {
        op: op_at(words, who),
        phase: phase_at(words, who),
    }
}

// The phase's number alone, for who asks nothing else of a record.
pub fn phase_number(words: &[u32], who: u32) -> u32
    ensures { result ≡ phase_number words.now who }
{
    table::word(words, 9, who, PHASE)
}

#[tactic(auto, unfolding(crate::specs::Packing::put_op))]
fn put_op(words: &mut [u32], who: u32, w: OpWords)
    ensures { words.new ≡ put_op words.old who w }
{
    table::store(words, 9, who, 3, w.kind);
    table::store(words, 9, who, 4, w.first);
    table::store(words, 9, who, 5, w.second);
}

#[tactic(auto, unfolding(crate::specs::Packing::put_front, crate::specs::Packing::put_back))]
fn put_phase(words: &mut [u32], who: u32, w: PhaseWords)
    ensures { words.new ≡ put_phase words.old who w }
{
    table::store(words, 9, who, 6, w.phase);
    table::store(words, 9, who, 7, w.a);
    table::store(words, 9, who, 8, w.b);
    table::store(words, 9, who, 9, w.c);
    table::store(words, 9, who, 10, w.d);
    table::store(words, 9, who, 11, w.e);
}

// Two words of a record, where a step leaves the others as they are.
pub fn put_two(words: &mut [u32], who: u32, j: u32, x: u32, k: u32, y: u32)
    ensures { words.new ≡ put_two words.old who j x k y }
{
    table::store(words, 9, who, j, x);
    table::store(words, 9, who, k, y);
}

pub fn put_record(words: &mut [u32], who: u32, w: Words)
    ensures { words.new ≡ put_record words.old who w }
{
    put_op(words, who, w.op);
    put_phase(words, who, w.phase);
}

// An idle record's words are all 0.
pub fn fresh_words(words: &mut [u32], c: Counters)
    ensures { words.new ≡ fresh_words words.old c }
{
    table::clear(words);
    put_counters(words, c);
}

pub fn refused(number: u32) -> Reply
    ensures { result ≡ refused_by number }
{
    Reply {
        first: number,
        ..Reply::default()
    }
}

impl From<Refusal> for Reply {
    ghost from_gives = { λ why r. r ≡ refused_by (refusal_number why) };

    fn from(why: Refusal) -> Self {
        refused(u32::from(why))
    }
}

impl From<Answer> for Reply {
    ghost from_gives = { λ a r. r ≡ reply_of a };

    fn from(a: Answer) -> Self {
        match a {
            Answer::Started => Reply {
                name: name::STARTED,
                ..Reply::default()
            },
            Answer::Working => Reply {
                name: name::WORKING,
                ..Reply::default()
            },
            Answer::Waiting => Reply {
                name: name::WAITING,
                ..Reply::default()
            },
            Answer::Key(first, second) => Reply {
                name: name::KEY,
                first,
                second,
            },
            Answer::Inserted(first) => Reply {
                name: name::INSERTED,
                first,
                ..Reply::default()
            },
            Answer::Removed(first) => Reply {
                name: name::REMOVED,
                first,
                ..Reply::default()
            },
            Answer::Present => Reply {
                name: name::PRESENT,
                ..Reply::default()
            },
            Answer::Absent => Reply {
                name: name::ABSENT,
                ..Reply::default()
            },
            Answer::End(first, second) => Reply {
                name: name::END,
                first,
                second,
            },
            Answer::Refused(why) => Reply::from(why),
        }
    }
}

// What a call returns: a refusal's number, else 0.
#[tactic(auto, unfolding(crate::specs::Packing::number_of))]
pub fn number_in(r: Reply) -> u32
    ensures { result ≡ number_of r }
{
    if r.name == 0 { r.first } else { 0 }
}

#[tactic(auto, unfolding(crate::specs::Packing::put_reply))]
pub fn put_reply(answer: &mut [u32], r: Reply)
    ensures { answer.new ≡ put_reply answer.old r }
{
    table::store(answer, 3, 0, 0, r.name);
    table::store(answer, 3, 0, 1, r.first);
    table::store(answer, 3, 0, 2, r.second);
}
