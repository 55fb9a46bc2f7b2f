// Monitor locks, on an area that holds a valid state: Enter and Exit here, Reenter in again. Assumes nothing.
// Why an area and its counts are two parameters: crates/area/src/lib.rt, above its reads and writes.
#![tactic(auto)]

ghost use Rattle.std.specs.Prelude.{◌≡◌, true, [], ◌∷◌, length};
ghost use Rattle.model.specs.declared.Call.TheVariants.{Enter, Exit};
ghost use Rattle.model.specs.Queue.{Queue, inside, member, ahead_of, first_only};
ghost use Rattle.model.specs.Queue.Queue.{ready};
ghost use Rattle.model.specs.Field.{put};
ghost use Rattle.model.specs.Field.Field.{failed, holder};
ghost use Rattle.model.specs.Rules.{released};
ghost use Rattle.model.specs.Machine.{State, model};
ghost use Rattle.model.specs.Valid.{Valid};
ghost use Rattle.model.specs.Refusals.{answer_in};
ghost use Rattle.area.specs.Holds.{Holds, Held, Becomes};
ghost use Rattle.area.specs.Calls.{Stands, Does, changed};

use area::places;
use model::{Answer, Refusal, Shape};
use outcomes::{answers, codes};

pub mod again;

// Unlocks, and the first of the lock's queue, if it has one, moves to ready. The answer is how many moved.
pub fn release(area: &mut [u16], shape: Shape, lock: u16) -> u16
    requires held { Held shape area.old }
    requires is_lock { inside shape.locks lock ≡ true }
    ensures { (s : State model) → Holds shape area.old s → (result ≡ length (first_only (s.queues (Queue.lock lock)))) × Becomes shape area.old area.new (changed (put (holder lock) 0 s.fields) (released s.queues lock) s) }
{
    let from = area::lock_at(shape, lock);
    let first = moves::first_in(area, shape, from);
    area::set_holder(area, shape, lock, 0);
    if first == 0 {
        return 0;
    }
    let to = area::ready_at();
    let base = area::records_at(shape);
    moves::send(area, base, from, to, first);
    1
}

// The running process p becomes failed and moves to the lock. How many are ahead of it there.
fn block(area: &mut [u16], shape: Shape, lock: u16, p: u16) -> u16
    requires holds { (s : State model) × Holds shape area.old s × (member p (s.queues ready) ≡ true) }
    requires is_lock { inside shape.locks lock ≡ true }
    ensures { (s : State model) → Holds shape area.old s → member p (s.queues ready) ≡ true → (result ≡ length (ahead_of p ((changed (put (failed p) 1 s.fields) ((p, Queue.lock lock) ∷ []) s).queues (Queue.lock lock)))) × Becomes shape area.old area.new (changed (put (failed p) 1 s.fields) ((p, Queue.lock lock) ∷ []) s) }
{
    area::put(area, places::failed(shape, p), 1);
    let to = area::lock_at(shape, lock);
    let base = area::records_at(shape);
    moves::queue(area, base, to, p, 0)
}

pub fn enter(area: &mut [u16], shape: Shape, lock: u16) -> Result<Answer, Refusal>
    requires { Stands shape area.old }
    ensures { (s : State model) → Holds shape area.old s → Valid shape s → Does (Enter lock) shape area.old area.new s (answer_in result) }
{
    let running = area::running_of(area);
    codes::calling(running, shape.locks, lock)?;
    let holder = area::holder_of(area, shape, lock);
    if holder == running {
        return Err(Refusal::Held);
    }
    if holder == 0 {
        area::set_holder(area, shape, lock, running);
        return Ok(answers::finish(area, shape, 1, 0, 0));
    }
    let ahead = block(area, shape, lock, running);
    Ok(answers::finish(area, shape, 0, 0, ahead))
}

pub fn exit(area: &mut [u16], shape: Shape, lock: u16) -> Result<Answer, Refusal>
    requires { Stands shape area.old }
    ensures { (s : State model) → Holds shape area.old s → Valid shape s → Does (Exit lock) shape area.old area.new s (answer_in result) }
{
    let running = area::running_of(area);
    codes::calling(running, shape.locks, lock)?;
    let holder = area::holder_of(area, shape, lock);
    if holder != running {
        return Err(Refusal::NotHeld);
    }
    let moved = release(area, shape, lock);
    Ok(answers::finish(area, shape, 0, moved, 0))
}
