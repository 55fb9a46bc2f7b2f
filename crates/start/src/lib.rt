// Start: the area is written anew, and every process comes into ready, linked there by ring. Assumes nothing.
// Why an area and its counts are two parameters: crates/area/src/lib.rt, above its reads and writes.
#![tactic(auto)]

ghost use Rattle.std.specs.Prelude.{◌≡◌, true, [], ◌≤◌, length};
ghost use Rattle.model.specs.declared.Shape.{Shape};
ghost use Rattle.model.specs.Rules.{counted, any_above, start_code};
ghost use Rattle.model.specs.Refusals.{code_in, answer_in};
ghost use Rattle.area.specs.Layout.{size, Image, Stored};
ghost use Rattle.area.specs.State.{laid};
ghost use Rattle.area.specs.Holds.{Becomes};
ghost use Rattle.start.specs.Start.{Starts, lined};

use area::layout;
use model::{Answer, Refusal, Shape};
use outcomes::answers;

// ---- tests

// Whether the counts are in range.
fn in_range(shape: Shape) -> bool
    ensures { result ≡ counted shape }
{
    (1..=layout::MOST_PROCESSES).contains(&shape.processes)
        && shape.locks <= layout::MOST_LOCKS
        && shape.conditions <= layout::MOST_CONDITIONS
        && shape.parks <= layout::MOST_PARKS
}

// Whether one of the priorities is above the highest.
fn one_above(priorities: &[u8]) -> bool
    ensures { result ≡ any_above 7 priorities.now }
{
    priorities.iter().any(|&p| u16::from(p) > layout::HIGHEST)
}

// The tests of the counts and the priorities alone.
fn tested(shape: Shape, priorities: &[u8]) -> Result<(), Refusal>
    ensures { code_in result ≡ start_code shape priorities.now }
{
    if !in_range(shape) {
        return Err(Refusal::BadCount);
    }
    if priorities.len() != usize::from(shape.processes) {
        return Err(Refusal::BadList);
    }
    if one_above(priorities) {
        return Err(Refusal::BadPriority);
    }
    Ok(())
}

// ---- words

// An area of these counts, in its first three words, in which all else is 0.
fn count_out(area: &mut [u16], shape: Shape)
    requires { (counted shape ≡ true) × (size shape ≤ length area.old) }
    ensures { Stored shape area.old area.new (laid shape (lined [] 0)) }
{
    let words = area::size_of(shape);
    area[..words].fill(0);
    area[layout::PROCESSES] = shape.processes;
    area[layout::LOCKS_CONDITIONS] = shape.locks * layout::LOCKS_UNIT + shape.conditions;
    area[layout::PARKS] = shape.parks * layout::PARKS_UNIT;
}

// Every process takes its priority and comes into ready, 1 first.
fn line_up(area: &mut [u16], shape: Shape, priorities: &[u8])
    requires accepted { start_code shape priorities.now ≡ 0 }
    requires image { Image shape area.old (laid shape (lined [] 0)) }
    ensures { Becomes shape area.old area.new (lined priorities.now shape.processes) }
{
    let at = area::records_at(shape);
    let tail = many::bands::gather(&mut area[at..], priorities);
    area[layout::READY] = tail * links::NUMBER;
}

// ---- Start

pub fn start(area: &mut [u16], shape: Shape, priorities: &[u8]) -> Result<Answer, Refusal>
    ensures { Starts shape priorities.now area.old area.new (answer_in result) }
{
    tested(shape, priorities)?;
    if area.len() < area::size_of(shape) {
        return Err(Refusal::Short);
    }
    count_out(area, shape);
    line_up(area, shape, priorities);
    Ok(answers::finish(area, shape, 0, 0, 0))
}
