// A session's record as nine words, for callers in other languages, and back.
// In order: the numbers of kinds and phases; the words; an operation's; a phase's; a record's; what words would stand
// for; are words 0; are they right; decoding.
// The words of a record are decoded and encoded back unchanged; words that no record encodes to are malformed
// (proofs/Trip.antt). Not here: where the words lie in a lent slice (crate packing). Assumes nothing.
#![tactic(auto)]

ghost use Rattle.std.specs.Prelude.{◌≡◌};
ghost use Rattle.encoding.specs.Encoding.{
  op_words,
  phase_words,
  encode,
  op_from,
  phase_from,
  session_from,
  same_three,
  op_right,
  front_right,
  back_right,
  decode,
};

use steps::{Phase, Session};
use terms::Op;

// The number of each kind of operation; none is 0.
pub mod kind {
    pub const INSERT: u32 = 1;

    pub const REMOVE: u32 = 2;

    pub const HAS: u32 = 3;

    pub const RANGE: u32 = 4;
}

// The number of each phase, in document 01's order; idle is 0.
pub mod phase {
    pub const WALK: u32 = 1;

    pub const LOCK: u32 = 2;

    pub const LOCK_CURR: u32 = 3;

    pub const CHECK: u32 = 4;

    pub const PREPARE: u32 = 5;

    pub const NUMBER: u32 = 6;

    pub const LINK: u32 = 7;

    pub const FINISH: u32 = 8;

    pub const NEWEST: u32 = 9;

    pub const FIX: u32 = 10;

    pub const FOLLOW: u32 = 11;

    pub const HAND: u32 = 12;
}

// An operation: its kind and its two numbers. A number that it does not use is 0.
#[derive(Clone, Copy, Default, PartialEq)]
pub struct OpWords {
    pub kind: u32,
    pub first: u32,
    pub second: u32,
}

// A phase: its number, and its own five numbers. Those that it does not use are 0.
#[derive(Clone, Copy, Default, PartialEq)]
pub struct PhaseWords {
    pub phase: u32,
    pub a: u32,
    pub b: u32,
    pub c: u32,
    pub d: u32,
    pub e: u32,
}

#[derive(Clone, Copy, Default, PartialEq)]
pub struct Words {
    pub op: OpWords,
    pub phase: PhaseWords,
}

// What words are that no record encodes to.
#[derive(Clone, Copy)]
pub struct Malformed;

impl From<Op> for OpWords {
    ghost from_gives = { λ op w. w ≡ op_words op };

    fn from(op: Op) -> Self {
        match op {
            Op::None => OpWords::default(),
            Op::Insert(first, second) => OpWords {
                kind: kind::INSERT,
                first,
                second,
            },
            Op::Remove(first) => OpWords {
                kind: kind::REMOVE,
                first,
                ..OpWords::default()
            },
            Op::Has(first) => OpWords {
                kind: kind::HAS,
                first,
                ..OpWords::default()
            },
            Op::Range(first, second) => OpWords {
                kind: kind::RANGE,
                first,
                second,
            },
        }
    }
}

impl From<Phase> for PhaseWords {
    ghost from_gives = { λ p w. w ≡ phase_words p };

    fn from(phase: Phase) -> Self {
        match phase {
            Phase::Idle => PhaseWords::default(),
            Phase::Walk { pred, curr } => PhaseWords {
                phase: phase::WALK,
                a: pred,
                b: curr,
                ..PhaseWords::default()
            },
            Phase::Lock { pred, curr } => PhaseWords {
                phase: phase::LOCK,
                a: pred,
                b: curr,
                ..PhaseWords::default()
            },
            Phase::LockCurr { pred, curr } => PhaseWords {
                phase: phase::LOCK_CURR,
                a: pred,
                b: curr,
                ..PhaseWords::default()
            },
            Phase::Check { pred, curr } => PhaseWords {
                phase: phase::CHECK,
                a: pred,
                b: curr,
                ..PhaseWords::default()
            },
            Phase::Prepare { pred, curr } => PhaseWords {
                phase: phase::PREPARE,
                a: pred,
                b: curr,
                ..PhaseWords::default()
            },
            Phase::Number {
                pred,
                node,
                lower,
                upper,
            } => PhaseWords {
                phase: phase::NUMBER,
                a: pred,
                b: node,
                c: lower,
                d: upper,
                ..PhaseWords::default()
            },
            Phase::Link {
                pred,
                node,
                lower,
                upper,
                number,
            } => PhaseWords {
                phase: phase::LINK,
                a: pred,
                b: node,
                c: lower,
                d: upper,
                e: number,
            },
            Phase::Finish {
                pred,
                node,
                lower,
                upper,
                number,
            } => PhaseWords {
                phase: phase::FINISH,
                a: pred,
                b: node,
                c: lower,
                d: upper,
                e: number,
            },
            Phase::Newest { at } => PhaseWords {
                phase: phase::NEWEST,
                a: at,
                ..PhaseWords::default()
            },
            Phase::Fix { pred } => PhaseWords {
                phase: phase::FIX,
                a: pred,
                ..PhaseWords::default()
            },
            Phase::Follow {
                at,
                snapshot,
                handed,
            } => PhaseWords {
                phase: phase::FOLLOW,
                a: at,
                b: snapshot,
                c: handed,
                ..PhaseWords::default()
            },
            Phase::Hand {
                at,
                snapshot,
                handed,
            } => PhaseWords {
                phase: phase::HAND,
                a: at,
                b: snapshot,
                c: handed,
                ..PhaseWords::default()
            },
        }
    }
}

impl From<Session> for Words {
    ghost from_gives = { λ s w. w ≡ encode s };

    fn from(s: Session) -> Self {
        Words {
            op: OpWords::from(s.op),
            phase: PhaseWords::from(s.phase),
        }
    }
}

// Any other kind names no operation.
#[tactic(auto, unfolding(crate::specs::Encoding::op_from))]
pub fn op_from(kind: u32, first: u32, second: u32) -> Op
    ensures { result ≡ op_from kind first second }
{
    match kind {
        kind::INSERT => Op::Insert(first, second),
        kind::REMOVE => Op::Remove(first),
        kind::HAS => Op::Has(first),
        kind::RANGE => Op::Range(first, second),
        _ => Op::None,
    }
}

// Any phase past 11 is read as the last one: decoding tells whether it is.
#[tactic(auto, unfolding(crate::specs::Encoding::phase_from))]
fn phase_from(w: PhaseWords) -> Phase
    ensures { result ≡ phase_from w }
{
    match w.phase {
        0 => Phase::Idle,
        phase::WALK => Phase::Walk {
            pred: w.a,
            curr: w.b,
        },
        phase::LOCK => Phase::Lock {
            pred: w.a,
            curr: w.b,
        },
        phase::LOCK_CURR => Phase::LockCurr {
            pred: w.a,
            curr: w.b,
        },
        phase::CHECK => Phase::Check {
            pred: w.a,
            curr: w.b,
        },
        phase::PREPARE => Phase::Prepare {
            pred: w.a,
            curr: w.b,
        },
        phase::NUMBER => Phase::Number {
            pred: w.a,
            node: w.b,
            lower: w.c,
            upper: w.d,
        },
        phase::LINK => Phase::Link {
            pred: w.a,
            node: w.b,
            lower: w.c,
            upper: w.d,
            number: w.e,
        },
        phase::FINISH => Phase::Finish {
            pred: w.a,
            node: w.b,
            lower: w.c,
            upper: w.d,
            number: w.e,
        },
        phase::NEWEST => Phase::Newest { at: w.a },
        phase::FIX => Phase::Fix { pred: w.a },
        phase::FOLLOW => Phase::Follow {
            at: w.a,
            snapshot: w.b,
            handed: w.c,
        },
        _ => Phase::Hand {
            at: w.a,
            snapshot: w.b,
            handed: w.c,
        },
    }
}

fn session_from(w: Words) -> Session
    ensures { result ≡ session_from w }
{
    let o = w.op;
    Session {
        op: op_from(o.kind, o.first, o.second),
        phase: phase_from(w.phase),
    }
}

#[tactic(auto, unfolding(crate::specs::Encoding::same_three))]
pub fn all_zero(x: u32, y: u32, z: u32) -> bool
    ensures { result ≡ same_three x y z 0 0 0 }
{
    x == 0 && y == 0 && z == 0
}

// A kind, and 0 in the words that it does not use.
#[tactic(auto, using(crate::proofs::Ways::right_ops))]
pub fn op_right(w: OpWords) -> bool
    ensures { result ≡ op_right w }
{
    if w.kind == 0 {
        return all_zero(w.kind, w.first, w.second);
    }
    if w.kind == kind::INSERT || w.kind == kind::RANGE {
        return true;
    }
    if w.kind <= kind::HAS {
        return w.second == 0;
    }
    false
}

// A phase, and 0 in those of its first two numbers that it does not use.
#[tactic(auto, using(crate::proofs::Ways::right_fronts))]
fn front_right(w: PhaseWords) -> bool
    ensures { result ≡ front_right w }
{
    if w.phase == 0 {
        return all_zero(w.phase, w.a, w.b);
    }
    if w.phase <= phase::FINISH {
        return true;
    }
    if w.phase <= phase::FIX {
        return w.b == 0;
    }
    w.phase <= phase::HAND
}

// 0 in those of the last three numbers that the phase does not use.
#[tactic(auto, using(crate::proofs::Ways::right_backs))]
fn back_right(w: PhaseWords) -> bool
    ensures { result ≡ back_right w }
{
    if w.phase <= phase::PREPARE {
        return all_zero(w.c, w.d, w.e);
    }
    if w.phase == phase::NUMBER {
        return w.e == 0;
    }
    if w.phase <= phase::FINISH {
        return true;
    }
    if w.phase <= phase::FIX {
        return all_zero(w.c, w.d, w.e);
    }
    all_zero(0, w.d, w.e)
}

// The record that encodes to these words. What no record encodes to is malformed: a kind above 4, a phase above 12,
// an unused word that is not 0.
impl TryFrom<Words> for Session {
    type Error = Malformed;

    ghost try_from_gives = { λ w r. r ≡ decode w };

    #[tactic(auto, unfolding(crate::specs::Encoding::decode))]
    fn try_from(w: Words) -> Result<Self, Malformed> {
        if op_right(w.op) && front_right(w.phase) && back_right(w.phase) {
            Ok(session_from(w))
        } else {
            Err(Malformed)
        }
    }
}
