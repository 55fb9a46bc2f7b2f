// The area of words: where each word stands, and reads and writes of a part of a word. Assumes nothing.
#![tactic(auto)]

ghost use Rattle.std.specs.Prelude.{◌≡◌, true, List, ◌++◌, ℕ, ◌+◌, ◌*◌, ◌/◌, ◌%◌, ◌^◌, ◌<◌, ◌≤◌, length};
ghost use Rattle.model.specs.declared.Shape.{Shape};
ghost use Rattle.model.specs.Queue.{inside, bit};
ghost use Rattle.model.specs.Queue.Queue.{ready, lock, condition};
ghost use Rattle.model.specs.Field.{Field, some};
ghost use Rattle.model.specs.Field.Field.{running, priority, armed, timer, holder};
ghost use Rattle.model.specs.Rules.{ready_or_park};
ghost use Rattle.model.specs.Machine as machine;
ghost use Rattle.model.specs.Machine.{State, model};
ghost use Rattle.area.specs.Layout.{Part, Parts, span, at, Lies, Flag, locks_at, conditions_at, records_at, size, alter, Image, Stored};
ghost use Rattle.area.specs.Layout.Part.{kept, waiting};
ghost use Rattle.area.specs.Layout.Slot.{Tail, Link};
ghost use Rattle.area.specs.Reading.{shape_of};
ghost use Rattle.area.specs.Holds.{Holds, Held, Becomes, Takes, with};

use layout::{HEAD, LOCK, READY};
use links::RECORD;
use model::Shape;
use places::Place;

pub mod layout;
pub mod places;

// ---- counts and addresses

// The counts that the words say.
pub fn shape_of(area: &[u16]) -> Shape
    requires { 3 ≤ length area.now }
    ensures { result ≡ shape_of area.now }
{
    let both = area[layout::LOCKS_CONDITIONS];
    Shape {
        processes: area[layout::PROCESSES],
        locks: both / layout::LOCKS_UNIT,
        conditions: both % layout::LOCKS_UNIT,
        parks: area[layout::PARKS] / layout::PARKS_UNIT,
    }
}

// Where the locks, the conditions and the records begin, and how many words the area takes.
pub fn locks_at(shape: Shape) -> usize
    ensures { result ≡ locks_at shape }
{
    HEAD + usize::from(shape.parks)
}

pub fn conditions_at(shape: Shape) -> usize
    ensures { result ≡ conditions_at shape }
{
    locks_at(shape) + LOCK * usize::from(shape.locks)
}

pub fn records_at(shape: Shape) -> usize
    ensures { result ≡ records_at shape }
{
    conditions_at(shape) + usize::from(shape.conditions)
}

pub fn size_of(shape: Shape) -> usize
    ensures { result ≡ size shape }
{
    records_at(shape) + RECORD * usize::from(shape.processes)
}

// Where the tail of ready stands.
pub fn ready_at() -> usize
    ensures { (n : Shape) → result ≡ at n (Tail ready) }
{
    READY
}

// Where the tail of park k stands, that of ready for 0.
pub fn park_at(k: u16) -> usize
    ensures { (n : Shape) → result ≡ at n (Tail (ready_or_park k)) }
{
    READY + usize::from(k)
}

// Where the tail of lock l stands.
pub fn lock_at(shape: Shape, l: u16) -> usize
    requires { inside shape.locks l ≡ true }
    ensures { result ≡ at shape (Tail (lock l)) }
{
    locks_at(shape) + LOCK * (usize::from(l) - 1)
}

// Where the tail of condition c stands.
pub fn condition_at(shape: Shape, c: u16) -> usize
    requires { inside shape.conditions c ≡ true }
    ensures { result ≡ at shape (Tail (condition c)) }
{
    conditions_at(shape) + (usize::from(c) - 1)
}

// Where the record of process p begins.
fn record_at(shape: Shape, p: u16) -> usize
    requires { inside shape.processes p ≡ true }
    ensures { result ≡ at shape (Link p) }
{
    records_at(shape) + links::link_at(p)
}

// ---- a part of a word; what narrows is proved to fit, and `as` alone narrows without a branch

// The part that counts in steps of unit and has span values.
fn part_of(word: u16, unit: u16, span: u32) -> u16
    requires { (0 < unit) × (0 < span) }
    ensures { result ≡ word / unit % span }
{
    (u32::from(word / unit) % span) as u16
}

// The word with another value of that part, and every other bit as it was.
fn with_part(word: u16, unit: u16, span: u32, value: u16) -> u16
    requires { (0 < span) × (span * unit ≤ 65536) × ((i : ℕ) × (unit ≡ 2 ^ i)) × (word + value * unit < 65536 + word / unit % span * unit) }
    ensures { result + word / unit % span * unit ≡ word + value * unit }
{
    let above = span * u32::from(unit);
    let high = u32::from(word) / above * above;
    let low = u32::from(word % unit);
    ((high | low) + u32::from(value) * u32::from(unit)) as u16
}

// ---- reads and writes; that a field is 0 for nobody is the state's (`s.fields`), so a reader answers a number.
// An area and its counts stay two parameters, here and above: a struct of both would spare a contract `Held`, ask in its place that counts and slice are the same behind its `&mut`, and shared reads would need another. Nor can a type say that a number is a process, a lock or a condition, or that a place is a queue's: the counts that say so stand in another parameter.

// Who runs, 0 for nobody.
pub fn running_of(area: &[u16]) -> u16
    requires { (n : Shape) × Held n area.now }
    ensures { (n : Shape) (s : State model) → Holds n area.now s → result ≡ s.fields running }
{
    links::next_field(area[layout::RUNNING])
}

// Who holds the lock, 0 for nobody.
pub fn holder_of(area: &[u16], shape: Shape, l: u16) -> u16
    requires held { Held shape area.now }
    requires is_lock { inside shape.locks l ≡ true }
    ensures { (s : State model) → Holds shape area.now s → result ≡ s.fields (holder l) }
{
    let at = lock_at(shape, l) + layout::HOLDER;
    links::next_field(area[at])
}

// The field of the state at this place.
pub fn get(area: &[u16], place: Place) -> u16
    requires { (n : Shape) × (f : Field) × Held n area.now × Lies n (kept f) place }
    ensures { (n : Shape) (s : State model) (f : Field) → Holds n area.now s → Lies n (kept f) place → result ≡ s.fields f }
{
    let at = place.at;
    part_of(area[at], place.unit, place.span)
}

// Whether p waits.
pub fn waits(area: &[u16], shape: Shape, p: u16) -> bool
    requires held { Held shape area.now }
    requires is_process { inside shape.processes p ≡ true }
    ensures { (s : State model) → Holds shape area.now s → result ≡ machine.waiting shape s.queues p }
{
    let at = record_at(shape, p) + links::FLAGS;
    part_of(area[at], layout::WAITING, layout::BIT) != 0
}

// The part at this place takes the value.
fn store(area: &mut [u16], place: Place, value: u16)
    requires { (n : Shape) × (t : Parts) × (f : Part) × Image n area.old t × Lies n f place × (value < span f) }
    ensures { (n : Shape) (t : Parts) (f : Part) → Image n area.old t → Lies n f place → value < span f → Stored n area.old area.new (alter f value t) }
{
    let at = place.at;
    let word = area[at];
    area[at] = with_part(word, place.unit, place.span, value);
}

// The field of the state at this place takes the value.
pub fn put(area: &mut [u16], place: Place, value: u16)
    requires { (n : Shape) × (f : Field) × Held n area.old × Takes n f place value }
    ensures { (n : Shape) (s : State model) (f : Field) → Holds n area.old s → Takes n f place value → Becomes n area.old area.new (with f value s) }
{
    store(area, place, value);
}

// The bit, a number as the parts of a word are, that says whether a number is other than 0: a lock with this holder is locked, a wait of so many ticks is armed.
pub fn bit_of(v: u16) -> u16
    ensures { (result ≡ bit (some v)) × (result < 2) }
{
    u16::from(v != 0)
}

// The lock's holder, and with it its locked bit.
pub fn set_holder(area: &mut [u16], shape: Shape, l: u16, p: u16)
    requires held { Held shape area.old }
    requires is_lock { inside shape.locks l ≡ true }
    requires is_process_or_none { p ≤ shape.processes }
    ensures { (s : State model) → Holds shape area.old s → Becomes shape area.old area.new (with (holder l) p s) }
{
    store(area, places::locked(shape, l), bit_of(p));
    store(area, places::holder(shape, l), p);
}

// Who runs, p or nobody: the word has nothing else in it.
pub fn set_running(area: &mut [u16], p: u16)
    requires { (n : Shape) × Held n area.old × (p ≤ n.processes) }
    ensures { (n : Shape) (s : State model) → Holds n area.old s → p ≤ n.processes → Becomes n area.old area.new (with running p s) }
{
    area[layout::RUNNING] = p * links::NUMBER;
}

// ---- the records, lent as a part behind what stands in front of them: a fact of the part and of the counts, which no type of one of them can have

// p's priority.
pub fn set_rank(records: &mut [u16], p: u16, v: u16)
    requires image { (n : Shape) × (front : List ℕ) × (t : Parts) × (length front ≡ records_at n) × Image n (front ++ records.old) t × (inside n.processes p ≡ true) }
    requires fits { v < 8 }
    ensures { (n : Shape) (front : List ℕ) (t : Parts) → length front ≡ records_at n → Image n (front ++ records.old) t → inside n.processes p ≡ true → Stored n (front ++ records.old) (front ++ records.new) (alter (kept (priority p)) v t) }
{
    let at = links::link_at(p);
    let link = records[at];
    // a constant: `u32` has no `From<usize>`
    records[at] = with_part(link, links::PRIORITY, links::PRIORITIES as u32, v);
}

// One bit of p's flags, by how much it counts there.
fn set_flag(records: &mut [u16], p: u16, unit: u16, value: u16)
    requires image { (n : Shape) × (front : List ℕ) × (t : Parts) × (f : Part) × (length front ≡ records_at n) × Image n (front ++ records.old) t × (inside n.processes p ≡ true) × Flag p f unit }
    requires is_bit { value < 2 }
    ensures { (n : Shape) (front : List ℕ) (t : Parts) (f : Part) → length front ≡ records_at n → Image n (front ++ records.old) t → inside n.processes p ≡ true → Flag p f unit → Stored n (front ++ records.old) (front ++ records.new) (alter f value t) }
{
    let at = links::link_at(p) + links::FLAGS;
    let flags = records[at];
    records[at] = with_part(flags, unit, layout::BIT, value);
}

// p's waiting bit, which goes with a move: a number, as the part of a word takes it (`alter`).
pub fn set_waiting(records: &mut [u16], p: u16, waits: u16)
    requires image { (n : Shape) × (front : List ℕ) × (t : Parts) × (length front ≡ records_at n) × Image n (front ++ records.old) t × (inside n.processes p ≡ true) }
    requires is_bit { waits < 2 }
    ensures { (n : Shape) (front : List ℕ) (t : Parts) → length front ≡ records_at n → Image n (front ++ records.old) t → inside n.processes p ≡ true → Stored n (front ++ records.old) (front ++ records.new) (alter (waiting p) waits t) }
{
    set_flag(records, p, layout::WAITING, waits);
}

// p's timer is 0, and it is neither armed nor waiting, which goes with waking.
pub fn set_awake(records: &mut [u16], p: u16)
    requires { (n : Shape) × (front : List ℕ) × (t : Parts) × (length front ≡ records_at n) × Image n (front ++ records.old) t × (inside n.processes p ≡ true) }
    ensures { (n : Shape) (front : List ℕ) (t : Parts) → length front ≡ records_at n → Image n (front ++ records.old) t → inside n.processes p ≡ true → Stored n (front ++ records.old) (front ++ records.new) (alter (waiting p) 0 (alter (kept (armed p)) 0 (alter (kept (timer p)) 0 t))) }
{
    let at = links::link_at(p) + links::TIMER;
    records[at] = 0;
    set_flag(records, p, links::ARMED, 0);
    set_waiting(records, p, 0);
}
