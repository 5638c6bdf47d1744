// The list's session record, what a step returns, and the small functions that build both.
// In order: phases and records; who steps; what a step is given and returns; where a walk and a lock lead; whether a
// session is busy.
// Not here: the phases' own functions (crates reading, locking, preparing, finishing). specs/Steps.antt defines every
// step. Assumes nothing.
#![tactic(auto)]

ghost use Rattle.std.specs.Prelude.{◌≡◌, ◌<◌};
ghost use Rattle.std.specs.Option.{option_map};
ghost use Rattle.steps.specs.Steps.{
  idle,
  among_sixteen,
  gives,
  works,
  waits,
  ends,
  refuses,
  damaged,
  arrived_of,
  locked_of,
  under_way,
  busy_of,
};

use terms::{Answer, Counters, Op, Refusal, Size};

// Each phase with its own numbers. Past Prepare: `node` is the new node of an insert or the removed node of a remove,
// and `lower` and `upper` are the entries laid in pred and in it.
#[derive(Clone, Copy)]
pub enum Phase {
    Idle,
    Walk {
        pred: u32,
        curr: u32,
    },
    Lock {
        pred: u32,
        curr: u32,
    },
    LockCurr {
        pred: u32,
        curr: u32,
    },
    Check {
        pred: u32,
        curr: u32,
    },
    Prepare {
        pred: u32,
        curr: u32,
    },
    Number {
        pred: u32,
        node: u32,
        lower: u32,
        upper: u32,
    },
    Link {
        pred: u32,
        node: u32,
        lower: u32,
        upper: u32,
        number: u32,
    },
    Finish {
        pred: u32,
        node: u32,
        lower: u32,
        upper: u32,
        number: u32,
    },
    Newest {
        at: u32,
    },
    Fix {
        pred: u32,
    },
    Follow {
        at: u32,
        snapshot: u32,
        handed: u32,
    },
    Hand {
        at: u32,
        snapshot: u32,
        handed: u32,
    },
}

// What Prepare laid: the lower entry in pred, and the upper one in the node.
#[derive(Clone, Copy)]
pub struct Laid {
    pub pred: u32,
    pub node: u32,
    pub lower: u32,
    pub upper: u32,
}

impl Laid {
    pub fn numbering(self) -> Phase
        ensures { result ≡ Phase.Number self.pred self.node self.lower self.upper }
    {
        Phase::Number {
            pred: self.pred,
            node: self.node,
            lower: self.lower,
            upper: self.upper,
        }
    }

    pub fn linking(self, number: u32) -> Phase
        ensures { result ≡ Phase.Link self.pred self.node self.lower self.upper number }
    {
        Phase::Link {
            pred: self.pred,
            node: self.node,
            lower: self.lower,
            upper: self.upper,
            number,
        }
    }

    pub fn finishing(self, number: u32) -> Phase
        ensures { result ≡ Phase.Finish self.pred self.node self.lower self.upper number }
    {
        Phase::Finish {
            pred: self.pred,
            node: self.node,
            lower: self.lower,
            upper: self.upper,
            number,
        }
    }
}

// How far a range is: the node where it stands, its snapshot, and how many keys it has handed out.
#[derive(Clone, Copy)]
pub struct Query {
    pub at: u32,
    pub snapshot: u32,
    pub handed: u32,
}

impl Query {
    pub fn following(self) -> Phase
        ensures { result ≡ Phase.Follow self.at self.snapshot self.handed }
    {
        Phase::Follow {
            at: self.at,
            snapshot: self.snapshot,
            handed: self.handed,
        }
    }

    pub fn handing(self) -> Phase
        ensures { result ≡ Phase.Hand self.at self.snapshot self.handed }
    {
        Phase::Hand {
            at: self.at,
            snapshot: self.snapshot,
            handed: self.handed,
        }
    }
}

// A session's record: which operation it runs, and which phase it has reached.
#[derive(Clone, Copy)]
pub struct Session {
    pub op: Op,
    pub phase: Phase,
}

// One of the sixteen sessions.
#[derive(Clone, Copy)]
pub struct Who {
    pub number: u32,
    ghost one_of_sixteen: { number < 16 },
}

impl Who {
    #[tactic(auto, unfolding(crate::specs::Steps::among_sixteen))]
    pub fn new(number: u32) -> Option<Who>
        ensures { option_map (λ who. who.number) result ≡ among_sixteen number }
    {
        if number < 16 {
            return Some(Who { number });
        }
        None
    }
}

// What a step returns beside the tables: the counters, the session's record afterwards, and the answer.
#[derive(Clone, Copy)]
pub struct Stepped {
    pub counters: Counters,
    pub session: Session,
    pub answer: Answer,
}

pub fn idle_session() -> Session
    ensures { result ≡ idle }
{
    Session {
        op: Op::None,
        phase: Phase::Idle,
    }
}

// What a step is given beside the tables and the phase: their size, the counters, and the session's operation.
#[derive(Clone, Copy)]
pub struct Task {
    pub size: Size,
    pub counters: Counters,
    pub op: Op,
}

impl Task {
    pub fn give(self, phase: Phase, answer: Answer) -> Stepped
        ensures { result ≡ gives self.counters self.op phase answer }
    {
        let session = Session { op: self.op, phase };
        Stepped {
            counters: self.counters,
            session,
            answer,
        }
    }

    pub fn work(self, phase: Phase) -> Stepped
        ensures { result ≡ works self.counters self.op phase }
    {
        self.give(phase, Answer::Working)
    }

    // Waiting changes nothing.
    pub fn wait(self, phase: Phase) -> Stepped
        ensures { result ≡ waits self.counters self.op phase }
    {
        self.give(phase, Answer::Waiting)
    }

    // The operation is over.
    pub fn end(self, answer: Answer) -> Stepped
        ensures { result ≡ ends self.counters answer }
    {
        let over = Task {
            op: Op::None,
            ..self
        };
        over.give(Phase::Idle, answer)
    }

    // A refusal changes nothing.
    pub fn refuse(self, phase: Phase, why: Refusal) -> Stepped
        ensures { result ≡ refuses self.counters self.op phase why }
    {
        self.give(phase, Answer::Refused(why))
    }

    pub fn damaged(self, phase: Phase) -> Stepped
        ensures { result ≡ damaged self.counters self.op phase }
    {
        self.refuse(phase, Refusal::Damaged)
    }
}

// Where the walk leads.
pub fn arrived(op: Op, pred: u32, curr: u32) -> Phase
    ensures { result ≡ arrived_of op pred curr }
{
    match op {
        Op::None => Phase::Idle,
        Op::Insert(..) | Op::Remove(_) => Phase::Lock { pred, curr },
        Op::Has(_) => Phase::Newest { at: pred },
        Op::Range(..) => Phase::Fix { pred },
    }
}

// Where the lock of pred leads: a remove locks curr too.
pub fn locked(op: Op, pred: u32, curr: u32) -> Phase
    ensures { result ≡ locked_of op pred curr }
{
    if terms::removes(op) {
        return Phase::LockCurr { pred, curr };
    }
    Phase::Check { pred, curr }
}

fn under_way(phase: Phase) -> bool
    ensures { result ≡ under_way phase }
{
    !matches!(phase, Phase::Idle)
}

// A record that names an operation and a phase of it.
pub fn busy(s: Session) -> bool
    ensures { result ≡ busy_of s }
{
    terms::names(s.op) && under_way(s.phase)
}
