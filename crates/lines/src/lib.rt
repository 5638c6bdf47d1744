// The runner's lines (document 01, "The runner"): reading one as a call, and printing the line that answers it.
// In order: commas; reading; a name and numbers; printing.
// Numbers and names are read and written by crate text alone. `print` and `print_refusal` ask for room that their
// caller has checked.
// Not here: what a call does, and the run over all lines (crate running). Assumes nothing.
#![tactic(auto)]

ghost use Rattle.std.specs.Prelude.{◌≡◌, ◌+◌, ◌≤◌, length};
ghost use Rattle.text.specs.Text.{Puts};
ghost use Rattle.lines.specs.Lines.{comma_at, two_in, keyed, paired, start_in, line_in};
ghost use Rattle.lines.specs.Lines.{one_of, more, words_of, answer_line, refused_line};

use sixteen::Call;
use terms::{Answer, Op};

// Where the first comma stands, if there is one.
fn comma(s: &[u8]) -> Option<usize>
    ensures { result ≡ comma_at s.now }
{
    s.iter().position(|b| *b == b',')
}

// Two numbers with a comma between them.
#[tactic(auto, using(crate::proofs::Read::twos))]
fn two_numbers(s: &[u8]) -> Option<(u32, u32)>
    ensures { result ≡ two_in s.now }
{
    let c = comma(s)?;
    let a = text::read_number(&s[..c])?;
    let b = text::read_number(&s[c + 1..])?;
    Some((a, b))
}

// `remove=S` or `has=S`, where the rest of the line was the number k.
#[tactic(auto, using(crate::proofs::Read::heads))]
fn with_key(head: &[u8], k: u32) -> Option<Call>
    ensures { result ≡ keyed head.now k }
{
    if let Some(s) = text::field(head, b"remove=") {
        return Some(Call::Start(s, Op::Remove(k)));
    }
    let s = text::field(head, b"has=")?;
    Some(Call::Start(s, Op::Has(k)))
}

// `insert=S` or `range=S`, where the rest of the line was two numbers.
#[tactic(auto, using(crate::proofs::Read::heads))]
fn with_two(head: &[u8], a: u32, b: u32) -> Option<Call>
    ensures { result ≡ paired head.now a b }
{
    if let Some(s) = text::field(head, b"insert=") {
        return Some(Call::Start(s, Op::Insert(a, b)));
    }
    let s = text::field(head, b"range=")?;
    Some(Call::Start(s, Op::Range(a, b)))
}

// A line cut at its first comma.
#[tactic(auto, using(crate::proofs::Read::starts))]
fn read_start(head: &[u8], tail: &[u8]) -> Option<Call>
    ensures { result ≡ start_in head.now tail.now }
{
    if let Some(k) = text::read_number(tail) {
        return with_key(head, k);
    }
    let (a, b) = two_numbers(tail)?;
    with_two(head, a, b)
}

// A line without its byte 10, if it is a call.
#[tactic(auto, using(crate::proofs::Read::lines))]
pub fn read_line(l: &[u8]) -> Option<Call>
    ensures { result ≡ line_in l.now }
{
    if let Some(c) = comma(l) {
        return read_start(&l[..c], &l[c + 1..]);
    }
    let s = text::field(l, b"step=")?;
    Some(Call::Step(s))
}

// A name, or a comma, and a number.
#[tactic(auto, using(text::proofs::Write::two_parts), unfolding(crate::specs::Lines::one_of))]
fn put_one(out: &mut [u8], place: usize, name: &[u8], a: u32) -> usize
    requires { place + length (one_of name.now a) ≤ length out.old }
    ensures { Puts out.old out.new place (one_of name.now a) result }
{
    let p = text::put_bytes(out, place, name);
    text::put_number(out, p, a as u64)
}

// A name and numbers with commas between them.
fn put_words(out: &mut [u8], place: usize, name: &[u8], first: u32, rest: &[u32]) -> usize
    requires { place + length (more name.now first rest.now) ≤ length out.old }
    ensures { Puts out.old out.new place (more name.now first rest.now) result }
{
    let mut at = put_one(out, place, name, first);
    for n in rest {
        at = put_one(out, at, b",", *n);
    }
    at
}

// The answer's name and numbers; a refusal has its number alone.
#[tactic(auto, using(crate::proofs::Words::words))]
fn print_words(out: &mut [u8], place: usize, who: u32, a: Answer) -> usize
    requires { place + length (words_of who a) ≤ length out.old }
    ensures { Puts out.old out.new place (words_of who a) result }
{
    match a {
        Answer::Started => put_one(out, place, b"started=", who),
        Answer::Working => put_one(out, place, b"working=", who),
        Answer::Waiting => put_one(out, place, b"waiting=", who),
        Answer::Key(k, v) => put_words(out, place, b"key=", who, &[k, v]),
        Answer::Inserted(n) => put_words(out, place, b"inserted=", who, &[n]),
        Answer::Removed(n) => put_words(out, place, b"removed=", who, &[n]),
        Answer::Present => put_one(out, place, b"present=", who),
        Answer::Absent => put_one(out, place, b"absent=", who),
        Answer::End(t, c) => put_words(out, place, b"end=", who, &[t, c]),
        Answer::Refused(why) => put_one(out, place, b"refused=", u32::from(why)),
    }
}

// One line out.
#[tactic(auto, using(text::proofs::Write::two_parts), unfolding(crate::specs::Lines::answer_line))]
pub fn print(out: &mut [u8], place: usize, who: u32, a: Answer) -> usize
    requires { place + length (answer_line who a) ≤ length out.old }
    ensures { Puts out.old out.new place (answer_line who a) result }
{
    let p = print_words(out, place, who, a);
    text::put_bytes(out, p, b"\n")
}

// The line for a refusal that is the runner's own: BadLine and TooLong.
#[tactic(auto, using(text::proofs::Write::two_parts), unfolding(crate::specs::Lines::refused_line))]
pub fn print_refusal(out: &mut [u8], place: usize, number: u32) -> usize
    requires { place + length (refused_line number) ≤ length out.old }
    ensures { Puts out.old out.new place (refused_line number) result }
{
    let p = put_one(out, place, b"refused=", number);
    text::put_bytes(out, p, b"\n")
}
