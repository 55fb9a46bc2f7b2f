// The reads on any words whatever: an unsound area is refused, and of a sound one its state is told. Assumes nothing.
#![tactic(auto)]

ghost use Rattle.model.specs.Refusals.{report_in};
ghost use Rattle.reads.specs.Reads.{ListsOn, TellsOn, SheetsOn, NearestOn};

use model::{Refusal, Ticks};
use timers::Earliest;

// List: one queue, first to last, into the buffer; the kind is C's number.
pub fn list(area: &[u16], kind: u16, number: u16, buffer: &mut [u16]) -> Result<u16, Refusal>
    ensures { ListsOn kind number area.now buffer.old buffer.new (report_in result) }
{
    let shape = sound::shape_of(area)?;
    queues::listing::list(area, shape, kind, number, buffer)
}

// Who is due within so many ticks, by ticks left and then by number, two words each into the buffer.
pub fn due(area: &[u16], ticks: Ticks, buffer: &mut [u16]) -> Result<u16, Refusal>
    ensures { TellsOn ticks.0 area.now buffer.old buffer.new (report_in result) }
{
    let shape = sound::shape_of(area)?;
    timers::due(area, shape, ticks, buffer)
}

// The yard sheet: a row for each queue, on a page of bytes.
pub fn sheet(area: &[u16], page: &mut [u8]) -> Result<u16, Refusal>
    ensures { SheetsOn area.now page.old page.new (report_in result) }
{
    let shape = sound::shape_of(area)?;
    sheet::sheet(area, shape, page)
}

// Who is the nearest, and its ticks left.
pub fn nearest(area: &[u16]) -> Earliest
    ensures { NearestOn area.now result }
{
    match sound::shape_of(area) {
        Ok(shape) => timers::nearest(area, shape),
        Err(why) => Earliest {
            code: u32::from(u16::from(why)),
            process: 0,
            left: 0,
        },
    }
}
