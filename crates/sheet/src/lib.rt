// The yard sheet, on an area that holds a state: a row for each queue, on a lent page of bytes. Assumes nothing.
// Why an area and its counts are two parameters: crates/area/src/lib.rt, above its reads and writes.
#![tactic(auto)]

ghost use Rattle.std.specs.Prelude.{◌≡◌, true, ◌+◌, ◌*◌, ◌≤◌, length};
ghost use Rattle.model.specs.Queue.{queue_by, is_queue};
ghost use Rattle.model.specs.Machine.{State, model};
ghost use Rattle.model.specs.Refusals.{report_in};
ghost use Rattle.area.specs.Holds.{Holds, Held};
ghost use Rattle.sheet.specs.Sheet.{Shows, holder_of, wakeup_of, row_of, count_of, Sheets, Rows};

use area::places;
use model::kinds::{CONDITION, LOCK, PARK, READY};
use model::{Refusal, Shape};
use rows::Row;
use std::marker::Model;

// How many bytes a row has: 28 columns and a newline.
const ROW: usize = 29;

// An area that holds a state, and the counts by which it is laid out.
#[derive(Drop)]
struct Yard<'a> {
    area: &'a [u16],
    shape: Shape,
}

impl<'a> Model for Yard<'a> {
    ghost use Rattle.area.specs.Holds.{Held};
    ghost use Rattle.sheet.specs.Sheet.{Area};

    ghost Value = { Area };

    ghost view = { λ y. record { words = y.area.now; shape = y.shape } };

    ghost invariant = { λ y. Held y.shape y.area.now };
}

impl<'a> Yard<'a> {
    // ---- what a row says; a queue is named by List's kind and a number, as `queue_by` has it

    // The holder, where the queue is a lock's, else 0, as the row has it (`holder_of`).
    fn holder_in(&self, kind: u16, number: u16) -> u16
        requires { is_queue self.now.shape kind number ≡ true }
        ensures { (s : State model) → Shows self.now s → result ≡ holder_of s (queue_by kind number) }
    {
        match kind {
            LOCK => area::holder_of(self.area, self.shape, number),
            _ => 0,
        }
    }

    // The wakeup, where the queue is a condition's, else 0, as the row has it (`wakeup_of`).
    fn wakeup_in(&self, kind: u16, number: u16) -> u16
        requires { is_queue self.now.shape kind number ≡ true }
        ensures { (s : State model) → Shows self.now s → result ≡ wakeup_of s (queue_by kind number) }
    {
        match kind {
            CONDITION => area::get(self.area, places::wakeup(self.shape, number)),
            _ => 0,
        }
    }

    // The row of the queue of a kind and a number. The queue is walked once, to count it; its tail is the last, and links to the first.
    fn row_of(&self, kind: u16, number: u16) -> Row
        requires { is_queue self.now.shape kind number ≡ true }
        ensures { (s : State model) → Shows self.now s → result ≡ row_of s (queue_by kind number) }
    {
        let i = moves::queue_at(self.shape, kind, number).unwrap();
        Row {
            kind,
            number,
            count: moves::count_in(self.area, self.shape, i),
            first: moves::first_in(self.area, self.shape, i),
            last: moves::last_in(self.area, self.shape, i),
            holder: self.holder_in(kind, number),
            wakeup: self.wakeup_in(kind, number),
        }
    }

    // ---- the page

    // How many queues of a kind are numbered from 1 on.
    fn count_of(&self, kind: u16) -> u16
        ensures { result ≡ count_of self.now.shape kind }
    {
        match kind {
            PARK => self.shape.parks,
            LOCK => self.shape.locks,
            CONDITION => self.shape.conditions,
            _ => 0,
        }
    }

    // The rows of these, in number order, from `at` on; where the next row goes. There is one of it for each kind: a compiler then knows the kind in the loop.
    fn put_kind<const KIND: u16>(&self, page: &mut [u8], at: usize) -> usize
        requires { at + 29 * count_of self.now.shape KIND ≤ length page.old }
        ensures { Rows self.now (queue_by KIND) (count_of self.now.shape KIND) at page.old page.new result }
    {
        // no `chunks_exact_mut`: of what is written through an iterator a proof knows nothing
        let mut next = at;
        for number in 1..=self.count_of(KIND) {
            let row = self.row_of(KIND, number);
            rows::put_label(page, next, row.kind, row.number);
            rows::put_rest(page, next, row);
            next += ROW;
        }
        next
    }
}

// The whole page: ready, parks, locks, conditions. A page too short is refused and stays as it was.
pub fn sheet(area: &[u16], shape: Shape, page: &mut [u8]) -> Result<u16, Refusal>
    requires { Held shape area.now }
    ensures { (s : State model) → Holds shape area.now s → Sheets shape s page.old page.new (report_in result) }
{
    let rows = 1
        + usize::from(shape.parks)
        + usize::from(shape.locks)
        + usize::from(shape.conditions);
    let need = ROW * rows;
    if page.len() < need {
        return Err(Refusal::Short);
    }
    let yard = Yard { area, shape };
    let ready = yard.row_of(READY, 0);
    rows::put_label(page, 0, ready.kind, ready.number);
    rows::put_rest(page, 0, ready);
    let parks_end = yard.put_kind::<PARK>(page, ROW);
    let locks_end = yard.put_kind::<LOCK>(page, parks_end);
    yard.put_kind::<CONDITION>(page, locks_end);
    // 519 rows at most, so the bytes fit
    Ok(need as u16)
}
