// Reads of the timers, on an area that holds a valid state: who is due within so many ticks, and who is the nearest. Assumes nothing.
// Why an area and its counts are two parameters: crates/area/src/lib.rt, above its reads and writes.
#![tactic(auto)]

ghost use Rattle.std.specs.Prelude.{◌≡◌, true, ◌++◌, ◌≤◌, length, drop};
ghost use Rattle.std.specs.Option.{unwrap_or};
ghost use Rattle.model.specs.Queue.{inside};
ghost use Rattle.model.specs.Machine.{State, model};
ghost use Rattle.model.specs.Refusals.{report_in};
ghost use Rattle.model.specs.Valid.{Valid};
ghost use Rattle.model.specs.Timers.{left, nearest};
ghost use Rattle.area.specs.Holds.{Holds};
ghost use Rattle.area.specs.Calls.{Stands};
ghost use Rattle.timers.specs.Telling.{Shows, nonzero, due_ones, fewer, Tells, nearest_in};

use area::places;
use model::{Refusal, Shape, Ticks};
use std::marker::Model;

// What is answered to who is the nearest: the code, the process, its ticks left; so it crosses to C. No process where nobody is armed.
#[derive(Clone, Copy)]
pub struct Earliest {
    pub code: u32,
    pub process: u32,
    pub left: u32,
}

// A full round of the clock.
const ROUND: u32 = 65536;

// An area that holds a valid state, and the clock that it has. Order's `Clocked` is another: there no state need be valid.
#[derive(Drop)]
struct Reading<'a> {
    area: &'a [u16],
    shape: Shape,
    clock: u16,
}

impl<'a> Model for Reading<'a> {
    ghost use Rattle.model.specs.Machine.{State, model};
    ghost use Rattle.order.specs.Order.{Timers};
    ghost use Rattle.timers.specs.Telling.{Shows};

    ghost Value = { Timers };

    ghost view = { λ r. record { words = r.area.now; shape = r.shape; clock = r.clock } };

    ghost invariant = { λ r. (s : State model) × Shows (record { words = r.area.now; shape = r.shape; clock = r.clock }) s };
}

impl<'a> Reading<'a> {
    // p's ticks left, where it is armed.
    fn left_of(&self, p: u16) -> Option<u32>
        requires { inside self.now.shape.processes p ≡ true }
        ensures { (s : State model) → Shows self.now s → result ≡ nonzero (left self.now.shape s p) }
    {
        if area::get(self.area, places::armed(self.shape, p)) == 0 {
            return None;
        }
        match order::ticks_ahead(self.area, self.shape, self.clock, p) {
            0 => Some(ROUND),
            left => Some(u32::from(left)),
        }
    }

    // ---- who is due

    // Whether p is due within so many ticks.
    fn is_due(&self, ticks: u16, p: u16) -> bool
        requires { inside self.now.shape.processes p ≡ true }
        ensures { (s : State model) → Shows self.now s → result ≡ inside ticks (left self.now.shape s p) }
    {
        // Tried: with is_some_and who is due takes up to 15 in a hundred longer, since a compiler asks twice whether p is armed.
        match self.left_of(p) {
            Some(left) => left <= u32::from(ticks),
            None => false,
        }
    }

    // How many are.
    fn count_due(&self, ticks: u16) -> u16
        ensures { (s : State model) → Shows self.now s → result ≡ length (due_ones ticks self.now.shape s) }
    {
        // Tried: with a chain's filter and count who is due takes 6 to 8 in a hundred longer.
        let mut count: u16 = 0;
        for p in 1..=self.shape.processes {
            if self.is_due(ticks, p) {
                count += 1;
            }
        }
        count
    }

    // They are written to the front of the buffer, in process order.
    fn write_due(&self, ticks: u16, buffer: &mut [u16])
        requires { (s : State model) × Shows self.now s × (length (due_ones ticks self.now.shape s) ≤ length buffer.old) }
        ensures { (s : State model) → Shows self.now s → let ones = due_ones ticks self.now.shape s in buffer.new ≡ ones ++ drop (length ones) buffer.old }
    {
        // Tried: a chain of those due, zipped with the buffer's slots, takes twice as long.
        let mut at: usize = 0;
        for p in 1..=self.shape.processes {
            if self.is_due(ticks, p) {
                buffer[at] = p;
                at += 1;
            }
        }
    }

    // ---- who is the nearest

    // The first by number of those with the fewest ticks left, with those ticks.
    fn nearest(&self) -> Option<(u16, u32)>
        ensures { (s : State model) → Shows self.now s → unwrap_or result (0, 0) ≡ nearest self.now.shape s }
    {
        // Tried: with filter_map and min_by_key this takes up to a fifth longer; and as one pair, a compiler packs them anew for each that is nearer.
        let mut process: u16 = 0;
        let mut least: Option<u32> = None;
        for p in 1..=self.shape.processes {
            if let Some(left) = self.left_of(p) {
                if nearer(left, least) {
                    process = p;
                    least = Some(left);
                }
            }
        }
        Some(process).zip(least)
    }
}

// Whether so many ticks left are fewer than those of the nearest so far, if there is one.
fn nearer(left: u32, least: Option<u32>) -> bool
    ensures { result ≡ fewer left least }
{
    least.is_none_or(|least| left < least)
}

// Who is due within so many ticks, by ticks left and then by number, two words each into the buffer: process and ticks left.
pub fn due(area: &[u16], shape: Shape, ticks: Ticks, buffer: &mut [u16]) -> Result<u16, Refusal>
    requires { Stands shape area.now }
    ensures { (s : State model) → Holds shape area.now s → Valid shape s → Tells ticks.0 shape s buffer.old buffer.new (report_in result) }
{
    let within = ticks.0;
    let clock = area::get(area, places::clock());
    let reading = Reading { area, shape, clock };
    let told = reading.count_due(within);
    if told == 0 {
        return Ok(0);
    }
    let count = usize::from(told);
    if buffer.len() < 2 * count {
        return Err(Refusal::Short);
    }
    reading.write_due(within, buffer);
    order::arrange(area, shape, clock, buffer, count);
    Ok(told)
}

// The process with the fewest ticks left, and of several the first by number.
pub fn nearest(area: &[u16], shape: Shape) -> Earliest
    requires { Stands shape area.now }
    ensures { (s : State model) → Holds shape area.now s → Valid shape s → result ≡ nearest_in shape s }
{
    let clock = area::get(area, places::clock());
    let reading = Reading { area, shape, clock };
    let (process, left) = reading.nearest().unwrap_or((0, 0));
    Earliest {
        code: 0,
        process: u32::from(process),
        left,
    }
}
