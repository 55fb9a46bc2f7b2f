// Places in queues, on an area that holds a valid state: Requeue here, SetPriority in ranks, List in listing. Assumes nothing.
// Why an area and its counts are two parameters: crates/area/src/lib.rt, above its reads and writes.
#![tactic(auto)]

ghost use Rattle.std.specs.Prelude.{◌≡◌, ◌≢◌, true, false, List, [], ◌∷◌, ℕ};
ghost use Rattle.model.specs.declared.Call.TheVariants.{Requeue};
ghost use Rattle.model.specs.Queue.{Queue, member};
ghost use Rattle.model.specs.Queue.Queue.{ready};
ghost use Rattle.model.specs.Rules as rules;
ghost use Rattle.model.specs.Machine as machine;
ghost use Rattle.model.specs.Machine.{State, model};
ghost use Rattle.model.specs.Refusals.{answer_in};
ghost use Rattle.model.specs.Valid.{Valid};
ghost use Rattle.area.specs.Holds.{Holds};
ghost use Rattle.area.specs.Calls.{Stands, Does};

use model::{Answer, Process, Refusal, Shape};
use outcomes::{answers, codes};

pub mod listing;
pub mod ranks;

// 1 for a move from a park into ready.
fn arrives(source: u16, destination: u16) -> u16
    ensures { (p : ℕ) (qs : Queue → List ℕ) → member p (qs (rules.ready_or_park source)) ≡ true → (source ≢ 0 → member p (qs ready) ≡ false) → result ≡ machine.arrivals (qs ready) ((p, rules.ready_or_park destination) ∷ []) }
{
    u16::from(source != 0 && destination == 0)
}

pub fn requeue(
    area: &mut [u16],
    shape: Shape,
    source: u16,
    destination: u16,
    process: Process,
) -> Result<Answer, Refusal>
    requires { Stands shape area.old }
    ensures { (s : State model) → Holds shape area.old s → Valid shape s → Does (Requeue source destination process) shape area.old area.new s (answer_in result) }
{
    let p = process.0;
    if shape.parks < source || shape.parks < destination {
        return Err(Refusal::NoSuch);
    }
    codes::missing(shape.processes, p)?;
    let from = area::park_at(source);
    let to = area::park_at(destination);
    let base = area::records_at(shape);
    if !moves::send(area, base, from, to, p) {
        return Err(Refusal::NotThere);
    }
    Ok(answers::finish(area, shape, 0, arrives(source, destination), 0))
}
