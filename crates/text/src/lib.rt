// The lowest layer of the texts: where a line ends, its fields, decimal fields, words and bits.
#![tactic(auto)]

ghost use Rattle.std.specs.Prelude.{◌≡◌, [], ◌≤◌, ◌<◌, length, get_or, option_map};
ghost use Rattle.model.specs.Text.{fields, digits_from, word_of};
ghost use Rattle.text.specs.Places.{IsEnd, IsSplit, FieldStarts};
ghost use Rattle.text.specs.Numbers.{class_of, IsDecimal};
ghost use Rattle.text.specs.Words.{word_for};
ghost use Rattle.text.specs.Bits.{is_bit, all_bits, bits_form};

// A byte by its class.
#[derive(Clone, Copy, PartialEq, Eq)]
pub enum Class {
    Digit(usize),
    Tab,
    LineEnd,
    Other,
}

// The word that a field is.
#[derive(Clone, Copy, PartialEq, Eq)]
pub enum LineWord {
    Seg,
    Mux,
    Out,
    Hold,
    Write,
    Read,
    Csu,
}

// The count of a line's fields and the places of the first seven: field k starts at starts[k], and
// the tab or the line's end behind it stands one before starts[k + 1].
#[derive(Drop)]
pub struct Fields {
    pub count: usize,
    pub starts: [usize; 8],
}

// The place of the first byte b at or behind a place, or the length where there is none.
#[tactic(auto, using(crate::proofs::Parts::scanning))]
pub fn end_of(s: &[u8], at: usize, b: u8) -> usize
    requires { at ≤ length s.now }
    ensures { IsEnd b s.now at result }
{
    for i in at..s.len() {
        if s[i] == b {
            return i;
        }
    }
    s.len()
}

// A line's fields, each byte looked at once.
pub fn split(line: &[u8]) -> Fields
    ensures { IsSplit line.now result }
{
    let mut starts = [0usize; 8];
    let mut count: usize = 0;
    let mut at: usize = 0;
    loop {
        let end = end_of(line, at, b'\t');
        count += 1;
        if count < 8 {
            starts[count] = end + 1;
        }
        if end == line.len() {
            return Fields { count, starts };
        }
        at = end + 1;
    }
}

// Field k of a line as a part of it, by the places that `split` found.
pub fn field<'a, 'b>(line: &'a [u8], starts: &'b [usize; 8], k: usize) -> &'a [u8]
    requires { (k < 7) × (k < length (fields line.now)) × FieldStarts line.now starts.now }
    ensures { result.now ≡ get_or (fields line.now) k [] }
{
    let start = starts[k];
    let end = starts[k + 1] - 1;
    &line[start..end]
}

// Digit, tab, line end or any other byte.
#[tactic(auto, using(crate::proofs::Decimals::classes))]
pub fn class_of(b: u8) -> Class
    ensures { result ≡ class_of b }
{
    match b {
        b'\t' => Class::Tab,
        b'\n' => Class::LineEnd,
        b'0'..=b'9' => Class::Digit(usize::from(b - b'0')),
        _ => Class::Other,
    }
}

// The number that at most four digits give.
fn digits_of(f: &[u8]) -> Option<usize>
    requires { length f.now ≤ 4 }
    ensures { result ≡ digits_from 0 f.now }
{
    let mut v: usize = 0;
    for b in f {
        let Class::Digit(d) = class_of(*b) else {
            return None;
        };
        v = v * 10 + d;
    }
    Some(v)
}

// A decimal field's number: one to four digits, no leading zero.
pub fn decimal_of(f: &[u8]) -> Option<usize>
    ensures { IsDecimal f.now result }
{
    let n = f.len();
    if n == 0 || 4 < n {
        return None;
    }
    if 1 < n && f[0] == b'0' {
        return None;
    }
    digits_of(f)
}

// The word that a field is.
#[tactic(auto, using(crate::proofs::Words::words))]
pub fn word_of(f: &[u8]) -> Option<LineWord>
    ensures { option_map word_for result ≡ word_of f.now }
{
    match f {
        b"seg" => Some(LineWord::Seg),
        b"mux" => Some(LineWord::Mux),
        b"out" => Some(LineWord::Out),
        b"hold" => Some(LineWord::Hold),
        b"write" => Some(LineWord::Write),
        b"read" => Some(LineWord::Read),
        b"csu" => Some(LineWord::Csu),
        _ => None,
    }
}

// Whether a byte is a bit, `X` where unknown ones are allowed.
fn is_bit(b: u8, unknown: bool) -> bool
    ensures { result ≡ is_bit unknown b }
{
    match b {
        b'0' | b'1' => true,
        b'X' => unknown,
        _ => false,
    }
}

// Whether all bytes are bits, none included. The loop has no early exit, so that the compiler can compare many bytes at once.
#[tactic(auto, using(crate::proofs::Bits::listing))]
pub fn all_bits(s: &[u8], unknown: bool) -> bool
    ensures { result ≡ all_bits unknown s.now }
{
    let mut all = true;
    for b in s {
        if !is_bit(*b, unknown) {
            all = false;
        }
    }
    all
}

// Whether a BITS or RESET field has good form: at least one bit and nothing else.
#[tactic(auto, using(crate::proofs::Bits::form_by_length))]
pub fn are_bits(f: &[u8], unknown: bool) -> bool
    ensures { result ≡ bits_form unknown f.now }
{
    !f.is_empty() && all_bits(f, unknown)
}
