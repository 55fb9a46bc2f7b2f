// What a call comes to: dispatch, which ends every accepted one. `answers` has its answer, and `codes` the tests that calls share. Assumes nothing.
// Why an area and its counts are two parameters: crates/area/src/lib.rt, above its reads and writes.
#![tactic(auto)]

ghost use Rattle.std.specs.Prelude.{◌≡◌};
ghost use Rattle.model.specs.Queue.{first};
ghost use Rattle.model.specs.Queue.Queue.{ready};
ghost use Rattle.model.specs.Machine.{State, model, retry};
ghost use Rattle.area.specs.Holds.{Holds, Held, Becomes, dispatched};

use area::places;
use model::Shape;

pub mod answers;
pub mod codes;

// Who runs now, 0 for nobody, and its failed bit as it was: numbers, as the state has them (`first`, `retry`).
#[derive(Clone, Copy)]
struct Dispatched {
    running: u16,
    retry: u16,
}

// The first of ready runs, and is no longer failed.
fn dispatch(area: &mut [u16], shape: Shape) -> Dispatched
    requires { Held shape area.old }
    ensures { (s : State model) → Holds shape area.old s → (result.running ≡ first (s.queues ready)) × (result.retry ≡ retry (s.queues ready) s.fields) × Becomes shape area.old area.new (dispatched s) }
{
    let at = area::ready_at();
    let first = moves::first_in(area, shape, at);
    area::set_running(area, first);
    if first == 0 {
        return Dispatched {
            running: 0,
            retry: 0,
        };
    }
    let failed = area::get(area, places::failed(shape, first));
    if failed != 0 {
        area::put(area, places::failed(shape, first), 0);
    }
    Dispatched {
        running: first,
        retry: failed,
    }
}
