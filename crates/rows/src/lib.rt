// A row of the yard sheet: 28 columns and a newline, on a lent page of bytes. Assumes nothing.
#![tactic(auto)]

ghost use Rattle.std.specs.Prelude.{◌≡◌, List, ◌++◌, ℕ, ◌+◌, ◌≤◌, length, take, drop};
ghost use Rattle.rows.specs.Printed.{spaces, aligned, name, label, printed, Written};

use model::kinds::{LOCK, PARK, READY};

// What the row of a queue says; what the queue does not have is 0, as the row shows it. The kind is List's number.
#[derive(Clone, Copy)]
pub struct Row {
    pub kind: u16,
    pub number: u16,
    pub count: u16,
    pub first: u16,
    pub last: u16,
    pub holder: u16,
    pub wakeup: u16,
}

// The 28 columns from `at` on become spaces.
fn blank(page: &mut [u8], at: usize)
    requires { at + 28 ≤ length page.old }
    ensures { Written at (spaces 28) page.old page.new }
{
    page[at..at + 28].fill(b' ');
}

// A number, right-aligned in the columns from `at` on, which are blank; the last digit is written first. A digit fits a byte. No `write!`: no clause says which bytes it writes. By place in the page, not on a lent part of it: so `partly_on` and `partly_last` have it.
fn put_number(page: &mut [u8], at: usize, columns: usize, number: u16)
    requires { at + columns ≤ length page.old }
    ensures { take columns (drop at page.old) ≡ spaces columns → Written at (aligned columns number) page.old page.new }
{
    let mut rest = number;
    for i in (at..at + columns).rev() {
        if rest < 10 {
            page[i] = b'0' + (rest as u8);
            return;
        }
        page[i] = b'0' + ((rest % 10) as u8);
        rest /= 10;
    }
}

// The two letters of a kind.
fn letters_of(kind: u16) -> [u8; 2]
    ensures { result ≡ name kind }
{
    match kind {
        READY => *b"RD",
        PARK => *b"PK",
        LOCK => *b"LK",
        _ => *b"CN",
    }
}

// A row in two steps, each small enough for a compiler to copy it to where it is called. First its name and its number, and spaces behind them.
pub fn put_label(page: &mut [u8], at: usize, kind: u16, number: u16)
    requires { at + 28 ≤ length page.old }
    ensures { Written at (label kind number ++ spaces 22) page.old page.new }
{
    blank(page, at);
    page[at..at + 2].copy_from_slice(&letters_of(kind));
    put_number(page, at + 3, 3, number);
}

// Then its other numbers, and the newline.
pub fn put_rest(page: &mut [u8], at: usize, row: Row)
    requires { at + 29 ≤ length page.old }
    ensures { (old : List ℕ) → Written at (label row.kind row.number ++ spaces 22) old page.old → Written at (printed row) old page.new }
{
    put_number(page, at + 7, 4, row.count);
    put_number(page, at + 12, 4, row.first);
    put_number(page, at + 17, 4, row.last);
    put_number(page, at + 22, 4, row.holder);
    put_number(page, at + 27, 1, row.wakeup);
    page[at + 28] = b'\n';
}
