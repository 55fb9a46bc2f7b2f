// Priorities: SetPriority. Assumes nothing.
ghost use Rattle.model.specs.declared.Call.TheVariants.{SetPriority};
ghost use Rattle.model.specs.Machine.{State, model};
ghost use Rattle.model.specs.Refusals.{answer_in};
ghost use Rattle.model.specs.Valid.{Valid};
ghost use Rattle.area.specs.Holds.{Holds};
ghost use Rattle.area.specs.Calls.{Stands, Does};

use area::layout;
use model::{Answer, Priority, Refusal, Shape};
use outcomes::answers;

pub fn set_priority(area: &mut [u16], shape: Shape, priority: Priority) -> Result<Answer, Refusal>
    requires { Stands shape area.old }
    ensures { (s : State model) → Holds shape area.old s → Valid shape s → Does (SetPriority priority) shape area.old area.new s (answer_in result) }
{
    let v = priority.0;
    let running = area::running_of(area);
    if running == 0 {
        return Err(Refusal::Nobody);
    }
    if layout::HIGHEST < v {
        return Err(Refusal::BadPriority);
    }
    let base = area::records_at(shape);
    moves::rank(area, base, running, v);
    Ok(answers::finish(area, shape, 0, 0, 0))
}
