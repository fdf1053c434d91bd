// Numbers in base ten, fields and lines, written into a buffer from a place on, and the exit status for what is written.
#![tactic(auto)]

ghost use Rattle.std.specs.Prelude.{◌≡◌, [], ◌∷◌, ◌++◌, map, ◌+◌, ◌*◌, ◌≤◌, ◌<◌, length, drop};
ghost use Rattle.model.specs.Text.{tab};
ghost use Rattle.model.specs.Printed.{number, fields_of, line, exit_status};
ghost use Rattle.plan_text.specs.Writing.{write_at};
ghost use Rattle.program_lines.specs.Puts.{Puts, tabbed};

use plan_text::put;

// The digits of the largest usize, which is below 10 ^ 20.
const DIGITS: usize = 20;

// The byte of a digit.
fn digit(n: usize) -> u8
    requires { n < 10 }
    ensures { result ≡ 48 + n }
{
    b'0' + n as u8
}

// The digits of n at the end of an array, from the lowest on; the place of the highest.
fn fill_digits(n: usize, digits: &mut [u8; DIGITS]) -> usize
    requires { length digits.old ≡ 20 }
    ensures { (result ≤ 20) × (length digits.new ≡ 20) × (drop result digits.new ≡ number n) }
{
    let mut left = n;
    let mut i = DIGITS;
    // A while, as the count of digits follows from n.
    while 10 <= left {
        i -= 1;
        digits[i] = digit(left % 10);
        left /= 10;
    }
    i -= 1;
    digits[i] = digit(left);
    i
}

// The count of the digits of n.
pub fn digit_count(n: usize) -> usize
    ensures { result ≡ length (number n) }
{
    let mut digits = [0u8; DIGITS];
    DIGITS - fill_digits(n, &mut digits)
}

// The digits of n from a place on; the place behind them.
pub fn put_number(out: &mut [u8], at: usize, n: usize) -> usize
    requires { at + length (number n) ≤ length out.old }
    ensures value { (result ≡ at + length (number n)) × (result ≤ at + 20) }
    ensures out_after { out.new ≡ write_at at (number n) out.old }
{
    let mut digits = [0u8; DIGITS];
    let from = fill_digits(n, &mut digits);
    put(out, at, &digits[from..])
}

// A field: a tab, and a number.
fn put_field(out: &mut [u8], at: usize, n: usize) -> usize
    requires { at + 21 ≤ length out.old }
    ensures puts { Puts at (tab ∷ number n) out.old result out.new }
    ensures upper_bound { result ≤ at + 21 }
{
    let next = put(out, at, b"\t");
    put_number(out, next, n)
}

// A field for each number.
fn put_fields(out: &mut [u8], at: usize, numbers: &[usize]) -> usize
    requires { at + 21 * length numbers.now ≤ length out.old }
    ensures puts { Puts at (tabbed numbers.now) out.old result out.new }
    ensures upper_bound { result ≤ at + 21 * length numbers.now }
{
    let mut next = at;
    for n in numbers {
        next = put_field(out, next, *n);
    }
    next
}

// A line: a word, a field for each number, and the line's end.
pub fn put_line(out: &mut [u8], at: usize, word: &[u8], numbers: &[usize]) -> usize
    requires { at + (length word.now + (21 * length numbers.now + 1)) ≤ length out.old }
    ensures puts { Puts at (word.now ++ fields_of (map number numbers.now)) out.old result out.new }
    ensures upper_bound { result ≤ at + (length word.now + (21 * length numbers.now + 1)) }
{
    let next = put(out, at, word);
    let end = put_fields(out, next, numbers);
    put(out, end, b"\n")
}

// The line of a refusal by its number and place.
pub fn put_refusal(out: &mut [u8], n: usize, place: usize) -> usize
    requires { 47 ≤ length out.old }
    ensures { Puts 0 (line "fail" (number n ∷ number place ∷ [])) out.old result out.new }
{
    let numbers = [n, place];
    put_line(out, 0, b"fail", &numbers)
}

// The exit status for a printed answer: 1 for a refusal, else 0.
#[tactic(auto, using(crate::proofs::Status::status_is))]
pub fn exit_status(answer: &[u8]) -> u8
    ensures { result ≡ exit_status answer.now }
{
    u8::from(answer.starts_with(b"fail"))
}
