// Waiting on a condition, on an area that holds a valid state: Wait. Assumes nothing.
// Why an area and its counts are two parameters: crates/area/src/lib.rt, above its reads and writes.
#![tactic(auto)]

ghost use Rattle.std.specs.Prelude.{◌≡◌, true, [], ◌∷◌, length};
ghost use Rattle.model.specs.declared.Call.TheVariants.{Wait};
ghost use Rattle.model.specs.Queue.{Queue, inside, member, ahead_of};
ghost use Rattle.model.specs.Queue.Queue.{ready};
ghost use Rattle.model.specs.Rules.{alarm, arm};
ghost use Rattle.model.specs.Machine.{State, model};
ghost use Rattle.model.specs.Valid.{Valid};
ghost use Rattle.model.specs.Refusals.{answer_in};
ghost use Rattle.area.specs.Holds.{Holds, Becomes};
ghost use Rattle.area.specs.Calls.{Stands, Does, changed};

use area::places;
use locks::again;
use model::{Answer, Refusal, Shape, Ticks};
use outcomes::{answers, codes};

// The timer of a wait of t ticks: the clock plus t, going round, or 0 for none, as a timer's word has it (`alarm`).
fn alarm_at(now: u16, t: u16) -> u16
    ensures { result ≡ alarm now t }
{
    if t == 0 {
        return 0;
    }
    now.wrapping_add(t)
}

// The running process p is armed and sets its timer, if it is to wait for some ticks, and moves to the condition. How many are ahead of it there.
fn sleep(area: &mut [u16], shape: Shape, condition: u16, p: u16, ticks: Ticks) -> u16
    requires holds { (s : State model) × Holds shape area.old s × (member p (s.queues ready) ≡ true) }
    requires is_condition { inside shape.conditions condition ≡ true }
    ensures { (s : State model) → Holds shape area.old s → member p (s.queues ready) ≡ true → (result ≡ length (ahead_of p ((changed (arm p ticks.0 s.fields) ((p, Queue.condition condition) ∷ []) s).queues (Queue.condition condition)))) × Becomes shape area.old area.new (changed (arm p ticks.0 s.fields) ((p, Queue.condition condition) ∷ []) s) }
{
    let now = area::get(area, places::clock());
    let t = ticks.0;
    area::put(area, places::armed(shape, p), area::bit_of(t));
    area::put(area, places::timer(shape, p), alarm_at(now, t));
    let to = area::condition_at(shape, condition);
    let base = area::records_at(shape);
    moves::queue(area, base, to, p, 1)
}

pub fn wait(
    area: &mut [u16],
    shape: Shape,
    lock: u16,
    condition: u16,
    ticks: Ticks,
) -> Result<Answer, Refusal>
    requires { Stands shape area.old }
    ensures { (s : State model) → Holds shape area.old s → Valid shape s → Does (Wait lock condition ticks) shape area.old area.new s (answer_in result) }
{
    let running = area::running_of(area);
    codes::calling_two(running, shape.locks, lock, shape.conditions, condition)?;
    let holder = area::holder_of(area, shape, lock);
    if holder != running {
        return Err(Refusal::NotHeld);
    }
    let moved = locks::release(area, shape, lock);
    let off = again::called_off(area, shape, running, condition);
    if off {
        return Ok(answers::finish(area, shape, 0, moved, 0));
    }
    let wakeup = area::get(area, places::wakeup(shape, condition));
    if wakeup != 0 {
        area::put(area, places::wakeup(shape, condition), 0);
        return Ok(answers::finish(area, shape, 0, moved, 0));
    }
    let ahead = sleep(area, shape, condition, running, ticks);
    Ok(answers::finish(area, shape, 1, moved, ahead))
}
