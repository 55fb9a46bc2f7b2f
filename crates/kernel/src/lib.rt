// What C calls, by name and contract; kernel_c exports it: each call on an area of any words and any numbers, its answer packed in one number. Thin over monitor. Assumes nothing.
#![tactic(auto)]

ghost use Rattle.std.specs.Prelude.{ℕ, List};
ghost use Rattle.model.specs.declared.Call.{Call};
ghost use Rattle.model.specs.declared.Call.TheVariants.{Enter, Exit, Wait, Notify, Broadcast, Naked, Requeue, SetPriority, Tick, Abort, SetAbortable, Reenter};
ghost use Rattle.model.specs.Machine.{fields_of};
ghost use Rattle.model.specs.Refusals.{answer_in};
ghost use Rattle.monitor.specs.Calls.{Performs};
ghost use Rattle.wire.specs.Wire.{Carries};
ghost use Rattle.kernel.specs.Exports.{Crosses, Begins, Judges, Writes, Dues, Pages, Nears};

use model::{Answer, Priority, Process, Refusal, Shape, Ticks};
use outcomes::answers;

// ---- Start and Sound

pub fn kernel_start(
    area: &mut [u16],
    processes: u16,
    locks: u16,
    conditions: u16,
    parks: u16,
    priorities: &[u8],
) -> u64
    ensures { Begins (record { processes = processes; locks = locks; conditions = conditions; parks = parks }) priorities.now area.old area.new result }
{
    let shape = Shape {
        processes,
        locks,
        conditions,
        parks,
    };
    wire::pack(answers::answer(start::start(area, shape, priorities)))
}

pub fn kernel_sound(area: &[u16]) -> u64
    ensures { Judges area.now result }
{
    u64::from(sound::sound(area))
}

// ---- the twelve calls

// What is told of a call, as one number, out of which it comes back.
fn cross(outcome: Result<Answer, Refusal>) -> u64
    requires { (c : Call) × (old : List ℕ) × (new : List ℕ) × Performs c old new (answer_in outcome) }
    ensures { Carries 10 result (fields_of (answer_in outcome)) }
{
    wire::pack(answers::answer(outcome))
}

pub fn kernel_enter(area: &mut [u16], lock: u16) -> u64
    ensures { Crosses (Enter lock) area.old area.new result }
{
    cross(monitor::enter(area, lock))
}

pub fn kernel_exit(area: &mut [u16], lock: u16) -> u64
    ensures { Crosses (Exit lock) area.old area.new result }
{
    cross(monitor::exit(area, lock))
}

pub fn kernel_wait(area: &mut [u16], lock: u16, condition: u16, ticks: u16) -> u64
    ensures { Crosses (Wait lock condition (record { 0 = ticks })) area.old area.new result }
{
    cross(monitor::wait(area, lock, condition, Ticks(ticks)))
}

pub fn kernel_notify(area: &mut [u16], condition: u16) -> u64
    ensures { Crosses (Notify condition) area.old area.new result }
{
    cross(monitor::notify(area, condition))
}

pub fn kernel_broadcast(area: &mut [u16], condition: u16) -> u64
    ensures { Crosses (Broadcast condition) area.old area.new result }
{
    cross(monitor::broadcast(area, condition))
}

pub fn kernel_naked(area: &mut [u16], condition: u16) -> u64
    ensures { Crosses (Naked condition) area.old area.new result }
{
    cross(monitor::naked(area, condition))
}

pub fn kernel_requeue(area: &mut [u16], source: u16, destination: u16, process: u16) -> u64
    ensures { Crosses (Requeue source destination (record { 0 = process })) area.old area.new result }
{
    cross(monitor::requeue(area, source, destination, Process(process)))
}

pub fn kernel_set_priority(area: &mut [u16], priority: u16) -> u64
    ensures { Crosses (SetPriority (record { 0 = priority })) area.old area.new result }
{
    cross(monitor::set_priority(area, Priority(priority)))
}

pub fn kernel_tick(area: &mut [u16]) -> u64
    ensures { Crosses Tick area.old area.new result }
{
    cross(monitor::tick(area))
}

pub fn kernel_abort(area: &mut [u16], process: u16) -> u64
    ensures { Crosses (Abort (record { 0 = process })) area.old area.new result }
{
    cross(monitor::abort(area, Process(process)))
}

pub fn kernel_set_abortable(area: &mut [u16], condition: u16, value: u16) -> u64
    ensures { Crosses (SetAbortable condition value) area.old area.new result }
{
    cross(monitor::set_abortable(area, condition, value))
}

pub fn kernel_reenter(area: &mut [u16], lock: u16, condition: u16) -> u64
    ensures { Crosses (Reenter lock condition) area.old area.new result }
{
    cross(monitor::reenter(area, lock, condition))
}

// ---- reads; List's kind is a number, as C has it

pub fn kernel_list(area: &[u16], kind: u16, number: u16, buffer: &mut [u16]) -> u64
    ensures { Writes kind number area.now buffer.old buffer.new result }
{
    wire::pack_list(answers::report(reads::list(area, kind, number, buffer)))
}

pub fn kernel_due(area: &[u16], ticks: u16, buffer: &mut [u16]) -> u64
    ensures { Dues ticks area.now buffer.old buffer.new result }
{
    wire::pack_report(answers::report(reads::due(area, Ticks(ticks), buffer)))
}

pub fn kernel_sheet(area: &[u16], page: &mut [u8]) -> u64
    ensures { Pages area.now page.old page.new result }
{
    wire::pack_report(answers::report(reads::sheet(area, page)))
}

pub fn kernel_nearest(area: &[u16]) -> u64
    ensures { Nears area.now result }
{
    wire::pack_nearest(reads::nearest(area))
}
