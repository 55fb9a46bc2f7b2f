// Where each part of the area stands. Assumes nothing.
ghost use Rattle.std.specs.Prelude.{◌≡◌, true};
ghost use Rattle.model.specs.declared.Shape.{Shape};
ghost use Rattle.model.specs.Queue.{inside};
ghost use Rattle.model.specs.Field.{Field};
ghost use Rattle.area.specs.Layout.{Part, Lies};
ghost use Rattle.area.specs.Layout.Part.{kept};

use crate::{condition_at, layout, lock_at, record_at};
use model::Shape;

// The index of a word, by how much the word grows where the part grows by one, and how many values the part has.
#[derive(Clone, Copy)]
pub struct Place {
    pub at: usize,
    pub unit: u16,
    pub span: u32,
}

impl Place {
    // A word that has nothing else in it.
    fn word(at: usize) -> Place
        ensures { result ≡ record { at = at; unit = 1; span = 65536 } }
    {
        Place {
            at,
            unit: 1,
            span: layout::WORD,
        }
    }

    // One bit of a word.
    fn bit(at: usize, unit: u16) -> Place
        ensures { result ≡ record { at = at; unit = unit; span = 2 } }
    {
        Place {
            at,
            unit,
            span: layout::BIT,
        }
    }
}

pub fn clock() -> Place
    ensures { (n : Shape) → Lies n (kept Field.clock) result }
{
    Place::word(layout::CLOCK)
}

pub fn failed(shape: Shape, p: u16) -> Place
    requires { inside shape.processes p ≡ true }
    ensures { Lies shape (kept (Field.failed p)) result }
{
    Place::bit(record_at(shape, p), layout::FAILED)
}

pub fn armed(shape: Shape, p: u16) -> Place
    requires { inside shape.processes p ≡ true }
    ensures { Lies shape (kept (Field.armed p)) result }
{
    Place::bit(record_at(shape, p) + links::FLAGS, links::ARMED)
}

pub fn timer(shape: Shape, p: u16) -> Place
    requires { inside shape.processes p ≡ true }
    ensures { Lies shape (kept (Field.timer p)) result }
{
    Place::word(record_at(shape, p) + links::TIMER)
}

pub fn abort(shape: Shape, p: u16) -> Place
    requires { inside shape.processes p ≡ true }
    ensures { Lies shape (kept (Field.abort p)) result }
{
    Place::bit(record_at(shape, p) + links::FLAGS, layout::ABORT)
}

pub fn locked(shape: Shape, l: u16) -> Place
    requires { inside shape.locks l ≡ true }
    ensures { Lies shape (Part.locked l) result }
{
    Place::bit(lock_at(shape, l), layout::LOCKED)
}

pub fn holder(shape: Shape, l: u16) -> Place
    requires { inside shape.locks l ≡ true }
    ensures { Lies shape (kept (Field.holder l)) result }
{
    Place {
        at: lock_at(shape, l) + layout::HOLDER,
        unit: links::NUMBER,
        span: u32::from(links::NUMBERS),
    }
}

pub fn wakeup(shape: Shape, c: u16) -> Place
    requires { inside shape.conditions c ≡ true }
    ensures { Lies shape (kept (Field.wakeup c)) result }
{
    Place::bit(condition_at(shape, c), layout::WAKEUP)
}

pub fn abortable(shape: Shape, c: u16) -> Place
    requires { inside shape.conditions c ≡ true }
    ensures { Lies shape (kept (Field.abortable c)) result }
{
    Place::bit(condition_at(shape, c), layout::ABORTABLE)
}
