// Many wake at once, on an area that holds a valid state: Broadcast here, Tick in clock. Assumes nothing.
// Why an area and its counts are two parameters: crates/area/src/lib.rt, above its reads and writes.
#![tactic(auto)]

ghost use Rattle.std.specs.Prelude.{◌≡◌, ℕ, true, length};
ghost use Rattle.model.specs.declared.Call.TheVariants.{Broadcast};
ghost use Rattle.model.specs.Queue.{Queue, inside};
ghost use Rattle.model.specs.Machine.{State, model};
ghost use Rattle.model.specs.Refusals.{answer_in};
ghost use Rattle.model.specs.Valid.{Valid};
ghost use Rattle.area.specs.Layout.{at};
ghost use Rattle.area.specs.Layout.Slot.{Tail};
ghost use Rattle.area.specs.Holds.{Holds, Held, Becomes};
ghost use Rattle.area.specs.Calls.{Stands, Does, woken};

use model::{Answer, Refusal, Shape};
use outcomes::{answers, codes};

pub mod clock;

// All of the condition whose tail stands at from wake, first to last. The answer is how many.
fn wake_all(area: &mut [u16], shape: Shape, from: usize) -> u16
    requires { (c : ℕ) × Held shape area.old × (inside shape.conditions c ≡ true) × (from ≡ at shape (Tail (Queue.condition c))) }
    ensures { (s : State model) (c : ℕ) → Holds shape area.old s → inside shape.conditions c ≡ true → from ≡ at shape (Tail (Queue.condition c)) → (result ≡ length (s.queues (Queue.condition c))) × Becomes shape area.old area.new (woken (s.queues (Queue.condition c)) s) }
{
    let first = moves::first_in(area, shape, from);
    if first == 0 {
        return 0;
    }
    let last = crowds::empty(area, shape, from);
    crowds::wake_chain(area, shape, first, last)
}

pub fn broadcast(area: &mut [u16], shape: Shape, condition: u16) -> Result<Answer, Refusal>
    requires { Stands shape area.old }
    ensures { (s : State model) → Holds shape area.old s → Valid shape s → Does (Broadcast condition) shape area.old area.new s (answer_in result) }
{
    let running = area::running_of(area);
    codes::calling(running, shape.conditions, condition)?;
    let from = area::condition_at(shape, condition);
    let all = wake_all(area, shape, from);
    Ok(answers::finish(area, shape, 0, all, 0))
}
