// The static library for C, libkernel_c.a: each export is the function of the crate kernel that has its name, and promises the same; the functions are not here, since no crate stands on a static library. Assumes nothing.
#![tactic(auto)]

ghost use Rattle.model.specs.declared.Call.TheVariants.{Enter, Exit, Wait, Notify, Broadcast, Naked, Requeue, SetPriority, Tick, Abort, SetAbortable, Reenter};
ghost use Rattle.kernel.specs.Exports.{Crosses, Begins, Judges, Writes, Dues, Pages, Nears};

// ---- Start and Sound

#[unsafe(no_mangle)]
pub extern "C" fn kernel_start(
    area: &mut [u16],
    processes: u16,
    locks: u16,
    conditions: u16,
    parks: u16,
    priorities: &[u8],
) -> u64
    ensures { Begins (record { processes = processes; locks = locks; conditions = conditions; parks = parks }) priorities.now area.old area.new result }
{
    kernel::kernel_start(area, processes, locks, conditions, parks, priorities)
}

#[unsafe(no_mangle)]
pub extern "C" fn kernel_sound(area: &[u16]) -> u64
    ensures { Judges area.now result }
{
    kernel::kernel_sound(area)
}

// ---- the twelve calls

#[unsafe(no_mangle)]
pub extern "C" fn kernel_enter(area: &mut [u16], lock: u16) -> u64
    ensures { Crosses (Enter lock) area.old area.new result }
{
    kernel::kernel_enter(area, lock)
}

#[unsafe(no_mangle)]
pub extern "C" fn kernel_exit(area: &mut [u16], lock: u16) -> u64
    ensures { Crosses (Exit lock) area.old area.new result }
{
    kernel::kernel_exit(area, lock)
}

#[unsafe(no_mangle)]
pub extern "C" fn kernel_wait(area: &mut [u16], lock: u16, condition: u16, ticks: u16) -> u64
    ensures { Crosses (Wait lock condition (record { 0 = ticks })) area.old area.new result }
{
    kernel::kernel_wait(area, lock, condition, ticks)
}

#[unsafe(no_mangle)]
pub extern "C" fn kernel_notify(area: &mut [u16], condition: u16) -> u64
    ensures { Crosses (Notify condition) area.old area.new result }
{
    kernel::kernel_notify(area, condition)
}

#[unsafe(no_mangle)]
pub extern "C" fn kernel_broadcast(area: &mut [u16], condition: u16) -> u64
    ensures { Crosses (Broadcast condition) area.old area.new result }
{
    kernel::kernel_broadcast(area, condition)
}

#[unsafe(no_mangle)]
pub extern "C" fn kernel_naked(area: &mut [u16], condition: u16) -> u64
    ensures { Crosses (Naked condition) area.old area.new result }
{
    kernel::kernel_naked(area, condition)
}

#[unsafe(no_mangle)]
pub extern "C" fn kernel_requeue(
    area: &mut [u16],
    source: u16,
    destination: u16,
    process: u16,
) -> u64
    ensures { Crosses (Requeue source destination (record { 0 = process })) area.old area.new result }
{
    kernel::kernel_requeue(area, source, destination, process)
}

#[unsafe(no_mangle)]
pub extern "C" fn kernel_set_priority(area: &mut [u16], priority: u16) -> u64
    ensures { Crosses (SetPriority (record { 0 = priority })) area.old area.new result }
{
    kernel::kernel_set_priority(area, priority)
}

#[unsafe(no_mangle)]
pub extern "C" fn kernel_tick(area: &mut [u16]) -> u64
    ensures { Crosses Tick area.old area.new result }
{
    kernel::kernel_tick(area)
}

#[unsafe(no_mangle)]
pub extern "C" fn kernel_abort(area: &mut [u16], process: u16) -> u64
    ensures { Crosses (Abort (record { 0 = process })) area.old area.new result }
{
    kernel::kernel_abort(area, process)
}

#[unsafe(no_mangle)]
pub extern "C" fn kernel_set_abortable(area: &mut [u16], condition: u16, value: u16) -> u64
    ensures { Crosses (SetAbortable condition value) area.old area.new result }
{
    kernel::kernel_set_abortable(area, condition, value)
}

#[unsafe(no_mangle)]
pub extern "C" fn kernel_reenter(area: &mut [u16], lock: u16, condition: u16) -> u64
    ensures { Crosses (Reenter lock condition) area.old area.new result }
{
    kernel::kernel_reenter(area, lock, condition)
}

// ---- reads

#[unsafe(no_mangle)]
pub extern "C" fn kernel_list(area: &[u16], kind: u16, number: u16, buffer: &mut [u16]) -> u64
    ensures { Writes kind number area.now buffer.old buffer.new result }
{
    kernel::kernel_list(area, kind, number, buffer)
}

#[unsafe(no_mangle)]
pub extern "C" fn kernel_due(area: &[u16], ticks: u16, buffer: &mut [u16]) -> u64
    ensures { Dues ticks area.now buffer.old buffer.new result }
{
    kernel::kernel_due(area, ticks, buffer)
}

#[unsafe(no_mangle)]
pub extern "C" fn kernel_sheet(area: &[u16], page: &mut [u8]) -> u64
    ensures { Pages area.now page.old page.new result }
{
    kernel::kernel_sheet(area, page)
}

#[unsafe(no_mangle)]
pub extern "C" fn kernel_nearest(area: &[u16]) -> u64
    ensures { Nears area.now result }
{
    kernel::kernel_nearest(area)
}
