// Reading a listing (document 01): a check of all of it, then the keys and values into lent slices.
// In order: what is to come, and answers; one line; all lines; numbers by name; reading.
// Not here: a register made of them (the crate above). The whole input is checked before the first write, so that a
// refusal changes nothing. A line's name decides by what is to come: another edition, or a line that is only
// tried, is one more case of `step`.
#![tactic(auto)]

ghost use Rattle.std.specs.Prelude.{◌≡◌, ◌≤◌};
ghost use Rattle.std.proofs.lemmas.List.Edits.{sets};
ghost use Rattle.text.specs.Text.{lines_of, Puts};
ghost use Rattle.scanning.specs.Reading.{edition_of, stamp_of, value_of, count_of, keyed, key_of, step_of};
ghost use Rattle.scanning.specs.Reading.{refused_at, line_at, ended_of, check_of, one, numbers_in, done, read_of};

use text::Seen;

// What is to come: the edition, the stamp, a key or the count, a value, or nothing more.
#[derive(Clone, Copy)]
pub enum State {
    Edition,
    Stamp,
    Key { stamp: u32, count: u32, last: u32 },
    Value { stamp: u32, count: u32, last: u32 },
    Whole { stamp: u32, count: u32 },
}

// A whole listing's stamp, and how many keys it has.
#[derive(Clone, Copy)]
pub struct Whole {
    pub stamp: u32,
    pub count: u32,
}

// Why a listing is not read: 9 with the offset of a line, or 10.
#[derive(Clone, Copy)]
pub enum Unread {
    BadListing(usize),
    TooMany,
}

// Why a line is not taken: it is not allowed there, or it is a key too many.
#[derive(Clone, Copy)]
pub enum Fault {
    Bad,
    Many,
}

impl Fault {
    fn at(self, place: usize) -> Unread
        ensures { result ≡ refused_at place self }
    {
        match self {
            Fault::Bad => Unread::BadListing(place),
            Fault::Many => Unread::TooMany,
        }
    }
}

#[tactic(auto, unfolding(crate::specs::Reading::edition_of))]
fn edition_line(l: &[u8]) -> Result<State, Fault>
    ensures { result ≡ edition_of l.now }
{
    match text::field(l, b"edition=") {
        Some(1) => Ok(State::Stamp),
        _ => Err(Fault::Bad),
    }
}

#[tactic(auto, unfolding(crate::specs::Reading::stamp_of))]
fn stamp_line(l: &[u8]) -> Result<State, Fault>
    ensures { result ≡ stamp_of l.now }
{
    match text::field(l, b"stamp=") {
        Some(stamp) => Ok(State::Key {
            stamp,
            count: 0,
            last: 0,
        }),
        None => Err(Fault::Bad),
    }
}

#[tactic(auto, unfolding(crate::specs::Reading::value_of))]
fn value_line(stamp: u32, count: u32, last: u32, l: &[u8]) -> Result<State, Fault>
    ensures { result ≡ value_of stamp count last l.now }
{
    match text::field(l, b"value=") {
        Some(_) => Ok(State::Key { stamp, count, last }),
        None => Err(Fault::Bad),
    }
}

#[tactic(auto, unfolding(crate::specs::Reading::count_of))]
fn count_line(stamp: u32, count: u32, l: &[u8]) -> Result<State, Fault>
    ensures { result ≡ count_of stamp count l.now }
{
    match text::field(l, b"count=") {
        Some(n) if n == count => Ok(State::Whole { stamp, count }),
        _ => Err(Fault::Bad),
    }
}

// A key in bounds and above the last is one more, unless there are `most` already.
#[tactic(auto, unfolding(crate::specs::Reading::keyed))]
fn key_read(most: u32, stamp: u32, count: u32, last: u32, k: u32) -> Result<State, Fault>
    ensures { result ≡ keyed most stamp count last k }
{
    if k <= last || 4294967295 <= k {
        return Err(Fault::Bad);
    }
    if most <= count {
        return Err(Fault::Many);
    }
    Ok(State::Value {
        stamp,
        count: count + 1,
        last: k,
    })
}

// After a value, a key or the count.
#[tactic(auto, unfolding(crate::specs::Reading::key_of))]
fn key_line(most: u32, stamp: u32, count: u32, last: u32, l: &[u8]) -> Result<State, Fault>
    ensures { result ≡ key_of most stamp count last l.now }
{
    match text::field(l, b"key=") {
        Some(k) => key_read(most, stamp, count, last, k),
        None => count_line(stamp, count, l),
    }
}

fn step(most: u32, st: State, l: &[u8]) -> Result<State, Fault>
    ensures { result ≡ step_of most st l.now }
{
    match st {
        State::Edition => edition_line(l),
        State::Stamp => stamp_line(l),
        State::Key { stamp, count, last } => key_line(most, stamp, count, last, l),
        State::Value { stamp, count, last } => value_line(stamp, count, last, l),
        State::Whole { .. } => Err(Fault::Bad),
    }
}

// One line, refused by its own offset.
fn line_at(most: u32, place: usize, st: State, l: &[u8]) -> Result<State, Unread>
    ensures { result ≡ line_at place (step_of most st l.now) }
{
    step(most, st, l).map_err(|e| e.at(place))
}

// The input ends here.
fn ended(place: usize, st: State) -> Result<Whole, Unread>
    ensures { result ≡ ended_of place st }
{
    match st {
        State::Whole { stamp, count } => Ok(Whole { stamp, count }),
        _ => Err(Unread::BadListing(place)),
    }
}

// Whether the whole input is a listing of at most `most` keys.
pub fn check(most: u32, input: &[u8]) -> Result<Whole, Unread>
    ensures { result ≡ check_of most input.now }
{
    let mut st = State::Edition;
    let mut place = 0;
    loop {
        match text::next_line(input, place) {
            Seen::End => return ended(place, st),
            Seen::Torn => return Err(Unread::BadListing(place)),
            Seen::Line(e) => {
                st = line_at(most, place, st, &input[place..e])?;
                place = e + 1;
            }
        }
    }
}

// Stores n at i, where it is a number and there is room, and answers the next place.
fn keep(out: &mut [u32], i: usize, n: Option<u32>) -> usize
    requires { i ≤ 9223372036854775807 }
    ensures { Puts out.old out.new i (one n) result }
{
    match n {
        Some(v) => {
            if i < out.len() {
                out[i] = v;
            }
            i + 1
        }
        None => i,
    }
}

// The numbers of the lines with the name, in order, from the start of out; what has no room is left out.
fn gather(input: &[u8], name: &[u8], out: &mut [u32])
    ensures { out.new ≡
        sets out.old 0 (numbers_in name.now (lines_of input.now)) }
{
    let mut place = 0;
    let mut i = 0;
    while let Seen::Line(e) = text::next_line(input, place) {
        i = keep(out, i, text::field(&input[place..e], name));
        place = e + 1;
    }
}

// Reads a listing into keys and values, from the start of each; what has no room there is left out, and the answer
// says how many there are. A refusal changes nothing.
#[tactic(auto, unfolding(crate::specs::Reading::read_of))]
pub fn read(most: u32, input: &[u8], keys: &mut [u32], values: &mut [u32]) -> Result<Whole, Unread>
    ensures { done keys.new values.new result ≡
        read_of most input.now keys.old values.old }
{
    let whole = check(most, input)?;
    gather(input, b"key=", keys);
    gather(input, b"value=", values);
    Ok(whole)
}
