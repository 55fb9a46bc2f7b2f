// A process called off its wait: Abort and SetAbortable. Assumes nothing.
ghost use Rattle.std.specs.Prelude.{◌≡◌, true, ◌&&◌, cond, [], ◌∷◌};
ghost use Rattle.model.specs.declared.Call.TheVariants.{Abort, SetAbortable};
ghost use Rattle.model.specs.Queue.{Queue, bit, inside, member};
ghost use Rattle.model.specs.Field.{some};
ghost use Rattle.model.specs.Field.Field.{abortable};
ghost use Rattle.model.specs.Rules.{abortably};
ghost use Rattle.model.specs.Machine.{State, model};
ghost use Rattle.model.specs.Refusals.{answer_in};
ghost use Rattle.model.specs.Valid.{Valid};
ghost use Rattle.area.specs.Holds.{Holds, Held, Becomes, Tried};
ghost use Rattle.area.specs.Calls.{Stands, Does, woken};

use crate::rouse;
use area::places;
use model::{Answer, Process, Refusal, Shape};
use outcomes::{answers, codes};

// p wakes, if the condition is abortable and p waits there. Whether it does.
fn call_off(area: &mut [u16], shape: Shape, condition: u16, p: u16) -> bool
    requires held { Held shape area.old }
    requires is_condition { inside shape.conditions condition ≡ true }
    requires is_process { inside shape.processes p ≡ true }
    ensures { (s : State model) → Holds shape area.old s → Tried (some (s.fields (abortable condition)) && member p (s.queues (Queue.condition condition))) result area.old area.new (Becomes shape area.old area.new (woken (p ∷ []) s)) }
{
    let allowed = area::get(area, places::abortable(shape, condition));
    if allowed == 0 {
        return false;
    }
    rouse(area, shape, condition, p)
}

// p wakes, if it waits on a condition that is abortable. The answer is how many wake.
fn call_off_any(area: &mut [u16], shape: Shape, p: u16) -> u16
    requires held { Held shape area.old }
    requires is_process { inside shape.processes p ≡ true }
    ensures { (s : State model) → Holds shape area.old s → (result ≡ bit (abortably shape s.fields s.queues p)) × Becomes shape area.old area.new (woken (cond (abortably shape s.fields s.queues p) (p ∷ []) []) s) }
{
    // most do not wait
    if !area::waits(area, shape, p) {
        return 0;
    }
    // no `any`: its contract does not say what the closure wrote in the area
    for c in 1..=shape.conditions {
        if call_off(area, shape, c, p) {
            return 1;
        }
    }
    0
}

pub fn abort(area: &mut [u16], shape: Shape, process: Process) -> Result<Answer, Refusal>
    requires { Stands shape area.old }
    ensures { (s : State model) → Holds shape area.old s → Valid shape s → Does (Abort process) shape area.old area.new s (answer_in result) }
{
    let p = process.0;
    codes::missing(shape.processes, p)?;
    area::put(area, places::abort(shape, p), 1);
    let moved = call_off_any(area, shape, p);
    Ok(answers::finish(area, shape, 0, moved, 0))
}

pub fn set_abortable(
    area: &mut [u16],
    shape: Shape,
    condition: u16,
    value: u16,
) -> Result<Answer, Refusal>
    requires { Stands shape area.old }
    ensures { (s : State model) → Holds shape area.old s → Valid shape s → Does (SetAbortable condition value) shape area.old area.new s (answer_in result) }
{
    codes::missing(shape.conditions, condition)?;
    if value > 1 {
        return Err(Refusal::NoSuch);
    }
    area::put(area, places::abortable(shape, condition), value);
    Ok(answers::finish(area, shape, 0, 0, 0))
}
