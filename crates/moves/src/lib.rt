// The queues of an area, as rings in its records: reads of one, and the move of a process from one to another. Assumes nothing.
// Why an area and its counts are two parameters: crates/area/src/lib.rt, above its reads and writes.
#![tactic(auto)]

ghost use Rattle.std.specs.Prelude.{◌≡◌, true, cond, Some, None, ◌++◌, ◌<◌, ◌≤◌, length, drop};
ghost use Rattle.model.specs.declared.Shape.{Shape};
ghost use Rattle.model.specs.Queue.{Queue, inside, exists, queue_by, is_queue, member, ahead_of, remove, insert, first};
ghost use Rattle.model.specs.Queue.Queue.{ready};
ghost use Rattle.model.specs.Field.Field.{priority};
ghost use Rattle.model.specs.Machine.{State, model};
ghost use Rattle.ring.specs.Ring.{Arrived, Ring};
ghost use Rattle.area.specs.Layout.{at, records_at};
ghost use Rattle.area.specs.Layout.Slot.{Tail};
ghost use Rattle.area.specs.State.{last};
ghost use Rattle.area.specs.Holds.{Holds, Held, Becomes, Tried, Moves, with, sent};
ghost use Rattle.area.specs.Rings.{Leaves, Joins, Relinked, ranks};

use model::Shape;
use model::kinds::{CONDITION, LOCK, PARK, READY};
use ring::Arrival;

// ---- reads; a process is 0 where there is none, as `first` and `last` have it, and the kind is List's number, C's own

// Whether a number is one of 1 to `most`.
fn inside(most: u16, number: u16) -> bool
    ensures { result ≡ inside most number }
{
    (1..=most).contains(&number)
}

// Where the tail of the queue of a kind and a number stands, if there is such a queue.
pub fn queue_at(shape: Shape, kind: u16, number: u16) -> Option<usize>
    ensures { result ≡ cond (is_queue shape kind number) (Some (at shape (Tail (queue_by kind number)))) None }
{
    match kind {
        READY if number == 0 => Some(area::ready_at()),
        PARK if inside(shape.parks, number) => Some(area::park_at(number)),
        LOCK if inside(shape.locks, number) => Some(area::lock_at(shape, number)),
        CONDITION if inside(shape.conditions, number) => Some(area::condition_at(shape, number)),
        _ => None,
    }
}

// The ring of the queue whose tail stands at i: the records, and its last.
fn ring_at(area: &[u16], shape: Shape, i: usize) -> (&[u16], u16)
    requires held { Held shape area.now }
    requires is_queue { (q : Queue) × (exists shape q ≡ true) × (i ≡ at shape (Tail q)) }
    ensures { (s : State model) (q : Queue) → Holds shape area.now s → exists shape q ≡ true → i ≡ at shape (Tail q) → Ring result.0.now result.1 (s.queues q) }
{
    let at = area::records_at(shape);
    (&area[at..], links::next_field(area[i]))
}

// The first of the queue whose tail stands at i, 0 if it is empty.
pub fn first_in(area: &[u16], shape: Shape, i: usize) -> u16
    requires held { Held shape area.now }
    requires is_queue { (q : Queue) × (exists shape q ≡ true) × (i ≡ at shape (Tail q)) }
    ensures { (s : State model) (q : Queue) → Holds shape area.now s → exists shape q ≡ true → i ≡ at shape (Tail q) → result ≡ first (s.queues q) }
{
    let (records, tail) = ring_at(area, shape, i);
    ring::first_of(records, tail)
}

// The last of the queue whose tail stands at i, 0 if it is empty.
pub fn last_in(area: &[u16], shape: Shape, i: usize) -> u16
    requires held { Held shape area.now }
    requires is_queue { (q : Queue) × (exists shape q ≡ true) × (i ≡ at shape (Tail q)) }
    ensures { (s : State model) (q : Queue) → Holds shape area.now s → exists shape q ≡ true → i ≡ at shape (Tail q) → result ≡ last (s.queues q) }
{
    links::next_field(area[i])
}

// How many processes the queue whose tail stands at i has.
pub fn count_in(area: &[u16], shape: Shape, i: usize) -> u16
    requires held { Held shape area.now }
    requires is_queue { (q : Queue) × (exists shape q ≡ true) × (i ≡ at shape (Tail q)) }
    ensures { (s : State model) (q : Queue) → Holds shape area.now s → exists shape q ≡ true → i ≡ at shape (Tail q) → result ≡ length (s.queues q) }
{
    let (records, tail) = ring_at(area, shape, i);
    ring::length_of(records, tail)
}

// Writes the queue whose tail stands at i to the front of out, the first of it first. The answer is how many.
pub fn copy_out(area: &[u16], shape: Shape, i: usize, out: &mut [u16]) -> u16
    requires { (s : State model) × (q : Queue) × Holds shape area.now s × (exists shape q ≡ true) × (i ≡ at shape (Tail q)) × (length (s.queues q) ≤ length out.old) }
    ensures { (s : State model) (q : Queue) → Holds shape area.now s → exists shape q ≡ true → i ≡ at shape (Tail q) → (result ≡ length (s.queues q)) × (out.new ≡ s.queues q ++ drop (length (s.queues q)) out.old) }
{
    let (records, tail) = ring_at(area, shape, i);
    ring::write_out(records, tail, out)
}

// ---- moves; the records begin at base, and a place is one of a queue by the counts, so each asks for what no type of one of them can have

// p leaves the ring whose tail stands at i, if it stands there. Whether it does.
fn take_out(area: &mut [u16], base: usize, i: usize, p: u16) -> bool
    requires { (n : Shape) × (base ≡ records_at n) × Leaves n area.old i p }
    ensures { (n : Shape) → base ≡ records_at n → (j : Leaves n area.old i p) → Tried j.stood result area.old area.new (Relinked n area.old area.new j.parts j.queues j.queue (remove p (j.queues j.queue))) }
{
    let word = area[i];
    let tail = links::next_field(word);
    let prev = ring::before(&area[base..], tail, p);
    if prev == 0 {
        return false;
    }
    let new = ring::leave(&mut area[base..], tail, prev, p);
    // mostly the tail stays, and a read of it need not wait for a write
    if new == tail {
        return true;
    }
    area[i] = links::with_next(word, new);
    true
}

// p, which stands in no ring, joins the one whose tail stands at i.
fn put_in(area: &mut [u16], base: usize, i: usize, p: u16) -> Arrival
    requires { (n : Shape) × (base ≡ records_at n) × Joins n area.old i p }
    ensures { (n : Shape) → base ≡ records_at n → (j : Joins n area.old i p) → Arrived p (insert (ranks j.parts) p (j.queues j.queue)) result.tail result.ahead × Relinked n area.old area.new j.parts j.queues j.queue (insert (ranks j.parts) p (j.queues j.queue)) }
{
    let word = area[i];
    let arrival = ring::join(&mut area[base..], links::next_field(word), p);
    area[i] = links::with_next(word, arrival.tail);
    arrival
}

// p moves from the queue whose tail stands at `from`, if it stands there, to ready or a park, whose tail stands at `to`. Whether it does.
pub fn send(area: &mut [u16], base: usize, from: usize, to: usize, p: u16) -> bool
    requires { (n : Shape) × (base ≡ records_at n) × Moves n area.old from to p 0 }
    ensures { (n : Shape) → base ≡ records_at n → (m : Moves n area.old from to p 0) → Tried m.stood result area.old area.new (Becomes n area.old area.new (sent p m.to m.state)) }
{
    if !take_out(area, base, from, p) {
        return false;
    }
    area::set_waiting(&mut area[base..], p, 0);
    put_in(area, base, to, p);
    true
}

// p, which stands in ready, moves to the lock or the condition whose tail stands at `to`; waits, a bit as its word has it, is 1 if that is a condition. How many are ahead of it there, counted on the one walk: to its place or, where it is the last, along the queue.
pub fn queue(area: &mut [u16], base: usize, to: usize, p: u16, waits: u16) -> u16
    requires { (n : Shape) × (base ≡ records_at n) × (m : Moves n area.old (at n (Tail ready)) to p waits) × (m.stood ≡ true) }
    ensures { (n : Shape) → base ≡ records_at n → (m : Moves n area.old (at n (Tail ready)) to p waits) → m.stood ≡ true → (result ≡ length (ahead_of p ((sent p m.to m.state).queues m.to))) × Becomes n area.old area.new (sent p m.to m.state) }
{
    let from = area::ready_at();
    take_out(area, base, from, p);
    area::set_waiting(&mut area[base..], p, waits);
    let arrival = put_in(area, base, to, p);
    if arrival.tail == p {
        let all = ring::length_of(&area[base..], p);
        return all - 1;
    }
    arrival.ahead
}

// p, which stands in ready, takes the priority v, and its place in ready by it.
pub fn rank(area: &mut [u16], base: usize, p: u16, v: u16)
    requires holds { (n : Shape) × (s : State model) × (base ≡ records_at n) × Holds n area.old s × (member p (s.queues ready) ≡ true) }
    requires fits { v < 8 }
    ensures { (n : Shape) (s : State model) → base ≡ records_at n → Holds n area.old s → member p (s.queues ready) ≡ true → Becomes n area.old area.new (sent p ready (with (priority p) v s)) }
{
    let at = area::ready_at();
    take_out(area, base, at, p);
    area::set_rank(&mut area[base..], p, v);
    put_in(area, base, at, p);
}
