// The kernel's calls on any words whatever: an unsound area is refused, and a sound one is served. Assumes nothing.
#![tactic(auto)]

ghost use Rattle.model.specs.declared.Call.TheVariants.{Enter, Exit, Wait, Notify, Broadcast, Naked, Requeue, SetPriority, Tick, Abort, SetAbortable, Reenter};
ghost use Rattle.model.specs.Refusals.{answer_in};
ghost use Rattle.monitor.specs.Calls.{Performs};

use model::{Answer, Call, Priority, Process, Refusal, Ticks};

// ---- the calls, each on any words: an unsound area is refused, and on a sound one the crate that has the call makes it

pub fn enter(area: &mut [u16], lock: u16) -> Result<Answer, Refusal>
    ensures { Performs (Enter lock) area.old area.new (answer_in result) }
{
    let shape = sound::shape_of(area)?;
    locks::enter(area, shape, lock)
}

pub fn exit(area: &mut [u16], lock: u16) -> Result<Answer, Refusal>
    ensures { Performs (Exit lock) area.old area.new (answer_in result) }
{
    let shape = sound::shape_of(area)?;
    locks::exit(area, shape, lock)
}

pub fn wait(area: &mut [u16], lock: u16, condition: u16, ticks: Ticks) -> Result<Answer, Refusal>
    ensures { Performs (Wait lock condition ticks) area.old area.new (answer_in result) }
{
    let shape = sound::shape_of(area)?;
    waits::wait(area, shape, lock, condition, ticks)
}

pub fn notify(area: &mut [u16], condition: u16) -> Result<Answer, Refusal>
    ensures { Performs (Notify condition) area.old area.new (answer_in result) }
{
    let shape = sound::shape_of(area)?;
    wakes::notify(area, shape, condition)
}

pub fn broadcast(area: &mut [u16], condition: u16) -> Result<Answer, Refusal>
    ensures { Performs (Broadcast condition) area.old area.new (answer_in result) }
{
    let shape = sound::shape_of(area)?;
    broadcasts::broadcast(area, shape, condition)
}

pub fn naked(area: &mut [u16], condition: u16) -> Result<Answer, Refusal>
    ensures { Performs (Naked condition) area.old area.new (answer_in result) }
{
    let shape = sound::shape_of(area)?;
    wakes::naked(area, shape, condition)
}

pub fn requeue(
    area: &mut [u16],
    source: u16,
    destination: u16,
    process: Process,
) -> Result<Answer, Refusal>
    ensures { Performs (Requeue source destination process) area.old area.new (answer_in result) }
{
    let shape = sound::shape_of(area)?;
    queues::requeue(area, shape, source, destination, process)
}

pub fn set_priority(area: &mut [u16], priority: Priority) -> Result<Answer, Refusal>
    ensures { Performs (SetPriority priority) area.old area.new (answer_in result) }
{
    let shape = sound::shape_of(area)?;
    queues::ranks::set_priority(area, shape, priority)
}

pub fn tick(area: &mut [u16]) -> Result<Answer, Refusal>
    ensures { Performs Tick area.old area.new (answer_in result) }
{
    let shape = sound::shape_of(area)?;
    Ok(broadcasts::clock::tick(area, shape))
}

pub fn abort(area: &mut [u16], process: Process) -> Result<Answer, Refusal>
    ensures { Performs (Abort process) area.old area.new (answer_in result) }
{
    let shape = sound::shape_of(area)?;
    wakes::aborts::abort(area, shape, process)
}

pub fn set_abortable(area: &mut [u16], condition: u16, value: u16) -> Result<Answer, Refusal>
    ensures { Performs (SetAbortable condition value) area.old area.new (answer_in result) }
{
    let shape = sound::shape_of(area)?;
    wakes::aborts::set_abortable(area, shape, condition, value)
}

pub fn reenter(area: &mut [u16], lock: u16, condition: u16) -> Result<Answer, Refusal>
    ensures { Performs (Reenter lock condition) area.old area.new (answer_in result) }
{
    let shape = sound::shape_of(area)?;
    locks::again::reenter(area, shape, lock, condition)
}

// Any of the twelve.
fn attempt(area: &mut [u16], call: Call) -> Result<Answer, Refusal>
    ensures { Performs call area.old area.new (answer_in result) }
{
    match call {
        Call::Enter { lock } => enter(area, lock),
        Call::Exit { lock } => exit(area, lock),
        Call::Wait {
            lock,
            condition,
            ticks,
        } => wait(area, lock, condition, ticks),
        Call::Notify { condition } => notify(area, condition),
        Call::Broadcast { condition } => broadcast(area, condition),
        Call::Naked { condition } => naked(area, condition),
        Call::Requeue {
            source,
            destination,
            process,
        } => requeue(area, source, destination, process),
        Call::SetPriority { priority } => set_priority(area, priority),
        Call::Tick => tick(area),
        Call::Abort { process } => abort(area, process),
        Call::SetAbortable { condition, value } => set_abortable(area, condition, value),
        Call::Reenter { lock, condition } => reenter(area, lock, condition),
    }
}

// Any of the twelve, and its answer, that of a refusal too.
pub fn perform(area: &mut [u16], call: Call) -> Answer
    ensures { Performs call area.old area.new result }
{
    outcomes::answers::answer(attempt(area, call))
}
