// The line of an answer: its six fields in decimal, a space between, a newline after. Assumes nothing.
#![tactic(auto)]

ghost use Rattle.std.specs.Prelude.{◌≡◌, ◌+◌, ◌≤◌, length, take};
ghost use Rattle.print.specs.Print.{digits, width, field, printed, longest, Put};

use model::Answer;

// How many bytes the longest line has.
pub const LONGEST: usize = 36;

// Numbers are printed by hand: `write!` into a slice promises how many bytes it writes, and not which.

// How many digits a number has.
fn digit_count(n: u16) -> usize
    ensures { (result ≡ width n) × (result ≤ 5) }
{
    match n {
        0..=9 => 1,
        10..=99 => 2,
        100..=999 => 3,
        1000..=9999 => 4,
        _ => 5,
    }
}

// The last digits of a number, as many as there is room for; the last is written first. By index: tried with `iter_mut().rev()`, and of what is written through it a proof knows no byte.
fn put_digits(out: &mut [u8], n: u16)
    ensures { out.new ≡ digits (length out.old) n }
{
    let mut rest = n;
    for i in (0..out.len()).rev() {
        // a digit fits a byte
        out[i] = b'0' + ((rest % 10) as u8);
        rest /= 10;
    }
}

// A number and the byte after it, from place `at` on; the answer is the next place.
fn put_field(out: &mut [u8], at: usize, n: u16, after: u8) -> usize
    requires { at + 6 ≤ length out.old }
    ensures { Put out.old at (field n after) out.new result }
{
    let end = at + digit_count(n);
    put_digits(&mut out[at..end], n);
    out[end] = after;
    end + 1
}

// An answer's line, at the front of `out`; its length comes back.
pub fn line(answer: Answer, out: &mut [u8]) -> usize
    requires { longest ≤ length out.old }
    ensures { (result ≤ length out.new) × (take result out.new ≡ printed answer) }
{
    let fields = [
        (answer.code, b' '),
        (answer.running, b' '),
        (answer.retry, b' '),
        (answer.mark, b' '),
        (answer.moved, b' '),
        (answer.ahead, b'\n'),
    ];
    let mut next = 0;
    for (number, after) in fields {
        next = put_field(out, next, number, after);
    }
    next
}
