// One queue written out: List. Assumes nothing.
ghost use Rattle.model.specs.Machine.{State, model};
ghost use Rattle.model.specs.Refusals.{report_in};
ghost use Rattle.area.specs.Holds.{Holds, Held};
ghost use Rattle.queues.specs.Listing.{Lists};

use model::{Refusal, Shape};

// List of a kind, which is C's number, and a number.
pub fn list(
    area: &[u16],
    shape: Shape,
    kind: u16,
    number: u16,
    buffer: &mut [u16],
) -> Result<u16, Refusal>
    requires { Held shape area.now }
    ensures { (s : State model) → Holds shape area.now s → Lists kind number shape s buffer.old buffer.new (report_in result) }
{
    let Some(i) = moves::queue_at(shape, kind, number) else {
        return Err(Refusal::NoSuch);
    };
    // a buffer with room for every process has room for any queue
    let room = buffer.len();
    if room < usize::from(shape.processes) && room < usize::from(moves::count_in(area, shape, i)) {
        return Err(Refusal::Short);
    }
    Ok(moves::copy_out(area, shape, i, buffer))
}
