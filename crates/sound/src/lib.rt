// Whether an area is sound: one pass over the words of the queues, each ring walked as its word is met. Assumes nothing.
// Why an area and its counts are two parameters: crates/area/src/lib.rt, above its reads and writes.
#![tactic(auto)]

ghost use Rattle.std.specs.Prelude.{◌≡◌, true, List, ℕ, ◌≤◌, ◌<◌, length, option_map};
ghost use Rattle.area.specs.Reading.{shape_of};
ghost use Rattle.area.specs.Sound.{Sound};
ghost use Rattle.heads.specs.First.{Counted};
ghost use Rattle.heads.specs.Heads.{head_at};
ghost use Rattle.members.specs.Walk.{Met, Told};
ghost use Rattle.sound.specs.Passed.{passed, all_passed};
ghost use Rattle.sound.specs.Opened.{Opens};

use area::layout;
use members::Roll;
use model::{Refusal, Shape};

// Walks the rings of the queues of a kind, `number` of them, whose words stand first in `heads`. The answer is as walk's, and the kind a number, as there; it is a const argument, so that each kind has a loop of its own.
fn rings<const KIND: u16>(
    heads: &[u16],
    roll: Roll,
    number: usize,
    count: usize,
    marks: &mut [u64; 16],
) -> Option<usize>
    requires { (number < 1024) × (head_at KIND number ≤ length heads.now) }
    ensures { (js : List ℕ) → Met roll.entry.processes marks.old js count → Told roll.entry.processes result marks.new (passed heads.now roll.entry.records.now roll.entry.processes KIND number js) }
{
    let mut found = count;
    // by number, as `passed` goes: a lock has two words, any other queue one
    for i in 0..number {
        let at = heads::head_at(KIND, i);
        let w = heads[at];
        let v = heads::holder_word(heads, KIND, at);
        // most queues are empty
        if heads::vacant(KIND, w) && v == 0 {
            continue;
        }
        // masked, P is as it was, and a compiler sees that holder and tail have ten bits
        if !heads::in_order(roll.processes & links::MASK, KIND, w, v) {
            return None;
        }
        found = roll.walk(
            KIND,
            usize::from(links::next_field(v)),
            usize::from(links::next_field(w)),
            found,
            marks,
        )?;
    }
    Some(found)
}

// How many processes stand in the rings of an area whose counts are in range, None where a queue has no such ring. The locks come last: their rings take the most code, and a compiler copies a long function in at its last call.
fn met(area: &[u16], shape: Shape) -> Option<usize>
    requires { Counted area.now × (shape ≡ shape_of area.now) }
    ensures { result ≡ option_map length (all_passed shape area.now) }
{
    let first_record = area::records_at(shape);
    let roll = Roll {
        records: &area[first_record..],
        processes: shape.processes,
    };
    let mut marks = [0u64; 16];
    let plain = rings::<{ heads::PLAIN }>(
        &area[layout::READY..],
        roll,
        1 + usize::from(shape.parks),
        0,
        &mut marks,
    )?;
    let first_condition = area::conditions_at(shape);
    let waiting = rings::<{ heads::CONDITION }>(
        &area[first_condition..],
        roll,
        usize::from(shape.conditions),
        plain,
        &mut marks,
    )?;
    let first_lock = area::locks_at(shape);
    rings::<{ heads::LOCK }>(
        &area[first_lock..],
        roll,
        usize::from(shape.locks),
        waiting,
        &mut marks,
    )
}

// Whether an area is sound.
pub fn sound(words: &[u16]) -> bool
    ensures { (result ≡ true → Sound words.now) × (Sound words.now → result ≡ true) }
{
    // a slice of its own, so that a compiler hands the parameter over in registers
    let area = &words[0..];
    if !heads::counted(area) {
        return false;
    }
    let shape = area::shape_of(area);
    if met(area, shape) != Some(usize::from(shape.processes)) {
        return false;
    }
    let first_record = area::records_at(shape);
    heads::runs(area, &area[first_record..])
}

// The counts of a sound area, with which every call on one but Start begins; an unsound one is refused.
pub fn shape_of(area: &[u16]) -> Result<Shape, Refusal>
    ensures { Opens area.now result }
{
    if !sound(area) {
        return Err(Refusal::Unsound);
    }
    Ok(area::shape_of(area))
}
