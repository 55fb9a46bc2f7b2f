// One process wakes from a condition, on an area that holds a valid state: Notify and Naked here, Abort and SetAbortable in aborts. Assumes nothing.
// Why an area and its counts are two parameters: crates/area/src/lib.rt, above its reads and writes.
#![tactic(auto)]

ghost use Rattle.std.specs.Prelude.{◌≡◌, true, [], ◌∷◌, length};
ghost use Rattle.model.specs.declared.Call.TheVariants.{Notify, Naked};
ghost use Rattle.model.specs.Queue.{Queue, inside, member, first_only};
ghost use Rattle.model.specs.Machine.{State, model};
ghost use Rattle.model.specs.Refusals.{answer_in};
ghost use Rattle.model.specs.Valid.{Valid};
ghost use Rattle.area.specs.Holds.{Holds, Held, Becomes, Tried};
ghost use Rattle.area.specs.Calls.{Stands, Does, woken};

use area::places;
use model::{Answer, Refusal, Shape};
use outcomes::{answers, codes};

pub mod aborts;

// p wakes, if it stands in the condition: it moves to ready, its timer is 0, and it is no longer armed. Whether it does.
fn rouse(area: &mut [u16], shape: Shape, condition: u16, p: u16) -> bool
    requires held { Held shape area.old }
    requires is_condition { inside shape.conditions condition ≡ true }
    requires is_process { inside shape.processes p ≡ true }
    ensures { (s : State model) → Holds shape area.old s → Tried (member p (s.queues (Queue.condition condition))) result area.old area.new (Becomes shape area.old area.new (woken (p ∷ []) s)) }
{
    let from = area::condition_at(shape, condition);
    let to = area::ready_at();
    let base = area::records_at(shape);
    if !moves::send(area, base, from, to, p) {
        return false;
    }
    area::put(area, places::timer(shape, p), 0);
    area::put(area, places::armed(shape, p), 0);
    true
}

// The first of the condition wakes, if there is one. The answer is how many.
fn wake_first(area: &mut [u16], shape: Shape, condition: u16) -> u16
    requires held { Held shape area.old }
    requires is_condition { inside shape.conditions condition ≡ true }
    ensures { (s : State model) → Holds shape area.old s → (result ≡ length (first_only (s.queues (Queue.condition condition)))) × Becomes shape area.old area.new (woken (first_only (s.queues (Queue.condition condition))) s) }
{
    let at = area::condition_at(shape, condition);
    let first = moves::first_in(area, shape, at);
    if first == 0 {
        return 0;
    }
    rouse(area, shape, condition, first);
    1
}

pub fn notify(area: &mut [u16], shape: Shape, condition: u16) -> Result<Answer, Refusal>
    requires { Stands shape area.old }
    ensures { (s : State model) → Holds shape area.old s → Valid shape s → Does (Notify condition) shape area.old area.new s (answer_in result) }
{
    let running = area::running_of(area);
    codes::calling(running, shape.conditions, condition)?;
    let moved = wake_first(area, shape, condition);
    Ok(answers::finish(area, shape, 0, moved, 0))
}

pub fn naked(area: &mut [u16], shape: Shape, condition: u16) -> Result<Answer, Refusal>
    requires { Stands shape area.old }
    ensures { (s : State model) → Holds shape area.old s → Valid shape s → Does (Naked condition) shape area.old area.new s (answer_in result) }
{
    codes::missing(shape.conditions, condition)?;
    let moved = wake_first(area, shape, condition);
    if moved != 0 {
        return Ok(answers::finish(area, shape, 0, moved, 0));
    }
    area::put(area, places::wakeup(shape, condition), 1);
    Ok(answers::finish(area, shape, 1, 0, 0))
}
