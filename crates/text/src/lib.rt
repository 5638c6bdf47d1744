// Bytes, decimal numbers and lines (document 01, "The listing"): the one reader and the one writer of them, for the
// listing and for the runner.
// In order: answers; a byte; reading a number; writing one; lines; a line's name and number.
// Not here: names and the order of lines. Every answer is an equation with a definition of specs/Text.antt.
// `put_number` and `put_bytes` ask for room, and `line_end` for a place within: they are parts of callers that have
// checked it.
#![tactic(auto)]

ghost use Rattle.std.specs.Prelude.{◌≡◌, ◌+◌, ◌≤◌, length, drop};
ghost use Rattle.text.specs.Text.{class_of, ends, with_digit, grow, number_in, digits, Puts};
ghost use Rattle.text.specs.Text.{seen, lines_of, line_length, field_in};

// What a byte is in a number or a line.
#[derive(Clone, Copy)]
pub enum Byte {
    Digit(u32),
    LineEnd,
    Other,
}

// What stands at a place: the input's end, a line without its line end, or a line with its line end at a place.
#[derive(Clone, Copy)]
pub enum Seen {
    End,
    Torn,
    Line(usize),
}

// Bytes 48 to 57 are digits, 10 ends a line.
#[tactic(auto, using(crate::proofs::Read::classes))]
pub fn classify(b: u8) -> Byte
    ensures { result ≡ class_of b }
{
    match b {
        b'0'..=b'9' => Byte::Digit((b - b'0') as u32),
        b'\n' => Byte::LineEnd,
        _ => Byte::Other,
    }
}

// The number n with one digit more, if that is a number; before the first digit n is `None`.
#[tactic(auto, using(crate::proofs::Read::digit_more))]
fn with_digit(n: Option<u32>, d: u32) -> Option<u32>
    ensures { result ≡ with_digit n d }
{
    match n {
        None => Some(d),
        Some(0) => None,
        Some(v) => v.checked_mul(10)?.checked_add(d),
    }
}

// The number n with one byte more, if that is a number.
#[tactic(auto, using(crate::proofs::Read::byte_more))]
fn grown(n: Option<u32>, b: u8) -> Option<u32>
    ensures { result ≡ grow n b }
{
    match classify(b) {
        Byte::Digit(d) => with_digit(n, d),
        Byte::LineEnd | Byte::Other => None,
    }
}

// What the whole of s is as a number.
#[tactic(auto, using(crate::proofs::Read::number_read))]
pub fn read_number(s: &[u8]) -> Option<u32>
    ensures { result ≡ number_in s.now }
{
    let mut n = None;
    for b in s {
        n = Some(grown(n, *b)?);
    }
    n
}

// How many digits n has.
#[tactic(auto, using(crate::proofs::Write::digits_wide))]
pub fn width(n: u64) -> usize
    ensures { result ≡ length (digits n) }
{
    if n < 10 {
        return 1;
    }
    width(n / 10) + 1
}

// Writes n at `place`, each digit straight to its own place, and answers the place after it.
#[tactic(auto, using(crate::proofs::Write::digits_put))]
pub fn put_number(out: &mut [u8], place: usize, n: u64) -> usize
    requires { place + length (digits n) ≤ length out.old }
    ensures { Puts out.old out.new place (digits n) result }
{
    if n < 10 {
        out[place] = b'0' + (n % 10) as u8;
        return place + 1;
    }
    let p = put_number(out, place, n / 10);
    out[p] = b'0' + (n % 10) as u8;
    p + 1
}

// Writes the bytes s at `place`, and answers the place after them.
#[tactic(auto, using(crate::proofs::Lines::put_between))]
pub fn put_bytes(out: &mut [u8], place: usize, s: &[u8]) -> usize
    requires { place + length s.now ≤ length out.old }
    ensures { Puts out.old out.new place s.now result }
{
    let next = place + s.len();
    out[place..next].copy_from_slice(s);
    next
}

// Whether b ends a line.
#[tactic(auto, unfolding(crate::specs::Text::ends))]
pub fn ends_line(b: u8) -> bool
    ensures { result ≡ ends b }
{
    matches!(classify(b), Byte::LineEnd)
}

// Where the first line end at or after `place` stands, or the length.
pub fn line_end(s: &[u8], place: usize) -> usize
    requires { place ≤ length s.now }
    ensures { result ≡ place + line_length (drop place s.now) }
{
    match s[place..].iter().position(|b| ends_line(*b)) {
        Some(n) => place + n,
        None => s.len(),
    }
}

// What stands at `place`.
#[tactic(auto, using(crate::proofs::Lines::sights))]
pub fn next_line(s: &[u8], place: usize) -> Seen
    ensures { result ≡ seen place (lines_of (drop place s.now)) }
{
    if s.len() <= place {
        return Seen::End;
    }
    let e = line_end(s, place);
    if e < s.len() {
        return Seen::Line(e);
    }
    Seen::Torn
}

// The number after the name in the line s.
#[tactic(auto, using(crate::proofs::Lines::fields))]
pub fn field(s: &[u8], name: &[u8]) -> Option<u32>
    ensures { result ≡ field_in name.now s.now }
{
    read_number(s.strip_prefix(name)?)
}
