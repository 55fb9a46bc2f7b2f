// The clock: Tick. Assumes nothing.
ghost use Rattle.std.specs.Prelude.{◌≡◌, true, [], ℕ, ◌<◌, ◌≤◌, length, slice_index};
ghost use Rattle.model.specs.declared.Call.TheVariants.{Tick};
ghost use Rattle.model.specs.Rules.{due};
ghost use Rattle.model.specs.Machine.{State, model};
ghost use Rattle.model.specs.Valid.{Valid};
ghost use Rattle.area.specs.Holds.{Holds, Held, Becomes};
ghost use Rattle.area.specs.Loose.{Loose};
ghost use Rattle.crowds.specs.Crowds.{staying};
ghost use Rattle.area.specs.Calls.{Stands, Does, woken};

use area::places;
use model::{Answer, Shape};
use outcomes::answers;

// Whether nobody's timer rings at this time.
fn nobody_due(area: &[u16], shape: Shape, time: u16) -> bool
    requires { Held shape area.now }
    ensures { (s : State model) → Holds shape area.now s → result ≡ true → due shape s.fields time ≡ [] }
{
    let at = area::records_at(shape);
    // not 1..=, whose search asks more in each turn
    !(1..shape.processes + 1).any(|p| links::rings(&area[at..], p, time))
}

// Where the first word from `from` on stands that says that somebody waits, `end` if none before it does. Most conditions are empty. With `position` and an Option a Tick that wakes all of 1,023 on 255 conditions takes 1.09 to 1.17 of the time.
fn next_waited(area: &[u16], from: usize, end: usize) -> usize
    requires { (from ≤ end) × (end ≤ length area.now) }
    ensures { (from ≤ result) × (result ≤ end) × ((k : ℕ) → from ≤ k → k < result → slice_index area.now k < 8) }
{
    let mut i = from;
    while i < end && area[i] < links::NUMBER {
        i += 1;
    }
    i
}

// Those whose timer rings at this time leave their conditions.
fn sweep_all(area: &mut [u16], shape: Shape, time: u16)
    requires { Held shape area.old }
    ensures { (s : State model) → Holds shape area.old s → Loose shape area.old area.new s.fields (staying s.fields time shape.conditions s.queues) }
{
    let end = area::records_at(shape);
    let mut i = next_waited(area, area::conditions_at(shape), end);
    // not a `for` with the test in it: measured with 255 conditions, a Tick then takes 245 ns in place of 181
    while i < end {
        crowds::sweep(area, shape, i, time);
        i = next_waited(area, i + 1, end);
    }
}

// Each process whose timer rings at this time wakes, in process order. The answer is how many.
fn wake_due(area: &mut [u16], shape: Shape, time: u16) -> u16
    requires { Stands shape area.old }
    ensures { (s : State model) → Holds shape area.old s → Valid shape s → (result ≡ length (due shape s.fields time)) × Becomes shape area.old area.new (woken (due shape s.fields time) s) }
{
    if nobody_due(area, shape, time) {
        return 0;
    }
    sweep_all(area, shape, time);
    crowds::wake_due(area, shape, time)
}

pub fn tick(area: &mut [u16], shape: Shape) -> Answer
    requires { Stands shape area.old }
    ensures { (s : State model) → Holds shape area.old s → Valid shape s → Does Tick shape area.old area.new s result }
{
    let before = area::get(area, places::clock());
    let time = before.wrapping_add(1);
    area::put(area, places::clock(), time);
    let moved = wake_due(area, shape, time);
    answers::finish(area, shape, 0, moved, 0)
}
