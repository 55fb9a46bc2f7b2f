// Entering again after a wait: Reenter. Assumes nothing.
ghost use Rattle.std.specs.Prelude.{◌≡◌, true, ◌&&◌};
ghost use Rattle.model.specs.declared.Call.TheVariants.{Reenter};
ghost use Rattle.model.specs.Queue.{inside};
ghost use Rattle.model.specs.Field.{some};
ghost use Rattle.model.specs.Field.Field.{abort, abortable};
ghost use Rattle.model.specs.Machine.{State, model};
ghost use Rattle.model.specs.Valid.{Valid};
ghost use Rattle.model.specs.Refusals.{answer_in};
ghost use Rattle.area.specs.Holds.{Holds, Held};
ghost use Rattle.area.specs.Calls.{Stands, Does};

use crate::block;
use area::places;
use model::{Answer, Refusal, Shape};
use outcomes::{answers, codes};

// Whether p is called off the condition: its abort is set, and the condition is abortable.
pub fn called_off(area: &[u16], shape: Shape, p: u16, condition: u16) -> bool
    requires held { Held shape area.now }
    requires is_process { inside shape.processes p ≡ true }
    requires is_condition { inside shape.conditions condition ≡ true }
    ensures { (s : State model) → Holds shape area.now s → result ≡ some (s.fields (abort p)) && some (s.fields (abortable condition)) }
{
    area::get(area, places::abort(shape, p)) != 0
        && area::get(area, places::abortable(shape, condition)) != 0
}

pub fn reenter(area: &mut [u16], shape: Shape, lock: u16, condition: u16) -> Result<Answer, Refusal>
    requires { Stands shape area.old }
    ensures { (s : State model) → Holds shape area.old s → Valid shape s → Does (Reenter lock condition) shape area.old area.new s (answer_in result) }
{
    let running = area::running_of(area);
    codes::calling_two(running, shape.locks, lock, shape.conditions, condition)?;
    let holder = area::holder_of(area, shape, lock);
    if holder == running {
        return Err(Refusal::Held);
    }
    if holder != 0 {
        let ahead = block(area, shape, lock, running);
        return Ok(answers::finish(area, shape, 0, 0, ahead));
    }
    if called_off(area, shape, running, condition) {
        area::put(area, places::abort(shape, running), 0);
        return Ok(answers::finish(area, shape, 2, 0, 0));
    }
    area::set_holder(area, shape, lock, running);
    Ok(answers::finish(area, shape, 1, 0, 0))
}
