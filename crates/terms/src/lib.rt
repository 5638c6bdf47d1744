// What callers and every shape of the register speak of: sizes, counters, operations, answers and refusals.
// In order: sizes, counters, operations, refusals and answers; a refusal's number; the numbers in an operation.
// Not here: the phases of an operation, which are a shape's own. Assumes nothing.
#![tactic(auto)]

ghost use Rattle.std.specs.Prelude.{◌≡◌};
ghost use Rattle.terms.specs.Terms.{
  small,
  refusal_number,
  sought_of,
  high_of,
  value_of,
  removes_of,
  names_of,
  out_of_bounds,
};

// How much the tables hold: nodes (head and tail included), entries, keys, and the updates that those allow.
#[derive(Clone, Copy)]
pub struct Size {
    pub nodes: u32,
    pub entries: u32,
    pub keys: u32,
    pub updates: u32,
}

// How much of them is used, and the stamp.
#[derive(Clone, Copy)]
pub struct Counters {
    pub nodes: u32,
    pub entries: u32,
    pub stamp: u32,
}

// Insert a key with a value, remove a key, has a key, range from low to high.
#[derive(Clone, Copy)]
pub enum Op {
    None,
    Insert(u32, u32),
    Remove(u32),
    Has(u32),
    Range(u32, u32),
}

#[derive(Clone, Copy)]
pub enum Refusal {
    BadSession,
    Busy,
    BadKey,
    BadRange,
    Idle,
    Full,
    BadTable,
    Damaged,
}

// Key: a key and its value. Inserted, Removed: the update's number. End: the snapshot, and the keys handed out.
#[derive(Clone, Copy)]
pub enum Answer {
    Started,
    Working,
    Waiting,
    Key(u32, u32),
    Inserted(u32),
    Removed(u32),
    Present,
    Absent,
    End(u32, u32),
    Refused(Refusal),
}

// Document 01's number of a refusal.
impl From<Refusal> for u32 {
    ghost from_gives = { λ why n. n ≡ refusal_number why };

    fn from(why: Refusal) -> u32 {
        match why {
            Refusal::BadSession => 1,
            Refusal::Busy => 2,
            Refusal::BadKey => 3,
            Refusal::BadRange => 4,
            Refusal::Idle => 5,
            Refusal::Full => 6,
            Refusal::BadTable => 7,
            Refusal::Damaged => 8,
        }
    }
}

pub fn small_size() -> Size
    ensures { result ≡ small }
{
    Size {
        nodes: 512,
        entries: 2048,
        keys: 510,
        updates: 1020,
    }
}

// The key sought; `low` for a range.
pub fn sought(op: Op) -> u32
    ensures { result ≡ sought_of op }
{
    match op {
        Op::None => 0,
        Op::Insert(key, _) | Op::Remove(key) | Op::Has(key) | Op::Range(key, _) => key,
    }
}

// The last key that the operation looks at.
pub fn high(op: Op) -> u32
    ensures { result ≡ high_of op }
{
    match op {
        Op::None => 0,
        Op::Insert(key, _) | Op::Remove(key) | Op::Has(key) | Op::Range(_, key) => key,
    }
}

pub fn value(op: Op) -> u32
    ensures { result ≡ value_of op }
{
    match op {
        Op::Insert(_, value) => value,
        _ => 0,
    }
}

pub fn removes(op: Op) -> bool
    ensures { result ≡ removes_of op }
{
    matches!(op, Op::Remove(_))
}

// Whether an operation is named at all.
pub fn names(op: Op) -> bool
    ensures { result ≡ names_of op }
{
    !matches!(op, Op::None)
}

// A key that is the head's or the tail's.
#[tactic(auto, unfolding(crate::specs::Terms::out_of_bounds))]
pub fn out_of_bounds(key: u32) -> bool
    ensures { result ≡ out_of_bounds key }
{
    key == 0 || key == 4294967295
}
