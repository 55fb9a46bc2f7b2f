// The words before the records: whether the counts, the running process and the words of a queue are in order. Assumes nothing.
#![tactic(auto)]

ghost use Rattle.std.specs.Prelude.{◌≡◌, ◌+◌, ◌*◌, ◌≤◌, ◌<◌, length};
ghost use Rattle.heads.specs.Heads.{is_vacant, heading, head_at, holder_in};
ghost use Rattle.heads.specs.First.{Decides, Counted, Led, Runs};

use area::layout;

// The kinds of queues: ready and the parks, the locks, the conditions. They are numbers, and no enum, since `is_vacant`, `heading`, `head_at` and `holder_in` say of every number what is answered.
pub const PLAIN: u16 = 0;

pub const LOCK: u16 = 1;

pub const CONDITION: u16 = 2;

// ---- the counts and running

// Whether an area is long enough and its counts are in range.
pub fn counted(area: &[u16]) -> bool
    ensures { Decides result (Counted area.now) }
{
    if area.len() < layout::HEAD {
        return false;
    }
    let shape = area::shape_of(area);
    shape.processes != 0
        && shape.processes <= layout::MOST_PROCESSES
        && area[layout::PARKS] % layout::PARKS_UNIT == 0
        && shape.parks <= layout::MOST_PARKS
        && area::size_of(shape) <= area.len()
}

// Whether the running process is the first of ready, 0 if ready is empty, and is not failed; asked where the ring of ready is in order.
pub fn runs(area: &[u16], records: &[u16]) -> bool
    requires { (6 ≤ length area.now) × Led area.now records.now }
    ensures { Decides result (Runs area.now records.now) }
{
    let w = area[layout::RUNNING];
    let tail = links::next_field(area[layout::READY]);
    if tail == 0 {
        return w == 0;
    }
    let first = links::next_of(records, tail);
    w == first * links::NUMBER && links::link_of(records, first) & layout::FAILED == 0
}

// ---- the words of a queue

// Whether a queue's word says that it is empty and has no bit set; a condition's may have abortable.
pub fn vacant(kind: u16, w: u16) -> bool
    ensures { result ≡ is_vacant kind w }
{
    match kind {
        CONDITION => w - (w & layout::ABORTABLE) == 0,
        _ => w == 0,
    }
}

// Whether the words of a queue of this kind are in order: w has the tail, v the holder, 0 where there is none.
pub fn in_order(processes: u16, kind: u16, w: u16, v: u16) -> bool
    ensures { result ≡ heading processes kind w v }
{
    // all that stands above the low bits, so that past here it is the number alone
    if processes < w >> links::SHIFT || processes < v >> links::SHIFT || v & links::LOW != 0 {
        return false;
    }
    if v != 0 {
        return w & links::LOW == layout::LOCKED;
    }
    match kind {
        CONDITION => {
            // abortable may be set or not
            let bare = w - (w & layout::ABORTABLE);
            bare == layout::WAKEUP || bare & links::LOW == 0
        }
        _ => w & links::LOW == 0,
    }
}

// Where the words of queue i of this kind stand, among those of the kind.
pub fn head_at(kind: u16, i: usize) -> usize
    requires { i < 1024 }
    ensures { result ≡ head_at kind i }
{
    match kind {
        LOCK => i * layout::LOCK,
        _ => i,
    }
}

// The holder's word, 0 for a queue that has none, as `holder_in` has it.
pub fn holder_word(heads: &[u16], kind: u16, at: usize) -> u16
    requires { kind ≡ 1 → at + 1 < length heads.now }
    ensures { result ≡ holder_in heads.now kind at }
{
    match kind {
        LOCK => heads[at + layout::HOLDER],
        _ => 0,
    }
}
