// The words that a process's number stands in: read and write a link, which has the priority of a process, its next in its ring, and failed. And whether a process's timer rings. Assumes nothing.
#![tactic(auto)]

ghost use Rattle.std.specs.Prelude.{◌≡◌, ◌+◌, ◌*◌, ◌/◌, ◌%◌, ◌≤◌, ◌<◌, eqb, set};
ghost use Rattle.links.specs.Link.{Stands, slot, link, next, priority, rings, relink, point, wedge};

// The words of a process's record; the link is the first of them, and the others stand so far behind it.
pub const RECORD: usize = 3;

pub const FLAGS: usize = 1;

pub const TIMER: usize = 2;

// Armed counts so much in the flags.
pub const ARMED: u16 = 4;

// A link's priority counts in steps of this many.
pub const PRIORITY: u16 = 8192;

// How many priorities there are, from 0 up.
pub const PRIORITIES: usize = 8;

// A process's number counts in steps of this many, as the next in a link and in every other word that has one.
pub const NUMBER: u16 = 8;

// A process's number is below this.
pub const NUMBERS: u16 = 1024;

// A process's number has ten bits, above three others.
pub const SHIFT: u16 = 3;

pub const MASK: u16 = 1023;

// The ten bits in their place, and the three below them.
const FIELD: u16 = 8184;

pub const LOW: u16 = 7;

// ---- readers; the records and p stay two parameters, since a struct of both would be made anew for each p

// The process's number in a word: the next in a link, a tail, a holder, or who runs.
pub fn next_field(word: u16) -> u16
    ensures { result ≡ word / 8 % 1024 }
{
    (word >> SHIFT) & MASK
}

// Whether n is the next in a link: asked of the bits in their place, so that a walk has no more than the link to carry on.
pub fn points(word: u16, n: u16) -> bool
    requires { n < 1024 }
    ensures { result ≡ eqb (word / 8 % 1024) n }
{
    word & FIELD == n * NUMBER
}

// The priority in a link.
pub fn priority_field(word: u16) -> u16
    ensures { result ≡ word / 8192 }
{
    word / PRIORITY
}

// Where p's link stands in the records.
pub fn link_at(p: u16) -> usize
    requires { 1 ≤ p }
    ensures { result ≡ slot p }
{
    (usize::from(p) - 1) * RECORD
}

// p's link, which holds both its priority and its next.
pub fn link_of(records: &[u16], p: u16) -> u16
    requires { Stands records.now p }
    ensures { result ≡ link records.now p }
{
    let at = link_at(p);
    records[at]
}

// The process behind p in its ring.
pub fn next_of(records: &[u16], p: u16) -> u16
    requires { Stands records.now p }
    ensures { result ≡ next records.now p }
{
    next_field(link_of(records, p))
}

// p's priority.
pub fn priority_of(records: &[u16], p: u16) -> u16
    requires { Stands records.now p }
    ensures { result ≡ priority records.now p }
{
    priority_field(link_of(records, p))
}

// The least link of p's priority: no link of a lower one reaches it, and every link of its own or a higher one does.
pub fn least_of(records: &[u16], p: u16) -> u16
    requires { Stands records.now p }
    ensures { result ≡ priority records.now p * 8192 }
{
    link_of(records, p) / PRIORITY * PRIORITY
}

// Whether p is armed and its timer is at this time. Mostly the timer tells.
pub fn rings(records: &[u16], p: u16, time: u16) -> bool
    requires { Stands records.now p }
    ensures { result ≡ rings records.now time p }
{
    let at = link_at(p);
    records[at + TIMER] == time && records[at + FLAGS] / ARMED % 2 == 1
}

// ---- writers

// A link with another next, and every other bit as it was.
pub fn with_next(word: u16, n: u16) -> u16
    requires { n < 1024 }
    ensures { result ≡ relink word n }
{
    word / PRIORITY * PRIORITY + word % NUMBER + n * NUMBER
}

// n is now behind p.
pub fn set_next(records: &mut [u16], p: u16, n: u16)
    requires stands { Stands records.old p }
    requires is_number { n < 1024 }
    ensures { records.new ≡ point records.old p n }
{
    let at = link_at(p);
    let word = records[at];
    records[at] = with_next(word, n);
}

// p's link is this priority and this next alone.
pub fn set_link(records: &mut [u16], p: u16, v: u16, n: u16)
    requires stands { Stands records.old p }
    requires fits { (v < 8) × (n < 1024) }
    ensures { records.new ≡ set records.old (slot p) (v * 8192 + n * 8) }
{
    let at = link_at(p);
    records[at] = v * PRIORITY + n * NUMBER;
}

// p is now behind q, and before whoever was behind q.
pub fn follow(records: &mut [u16], q: u16, p: u16)
    requires stands { Stands records.old q }
    requires newcomer_stands { Stands records.old p }
    ensures { records.new ≡ wedge records.old q p }
{
    let link = link_of(records, q);
    set_next(records, p, next_field(link));
    let at = link_at(q);
    records[at] = with_next(link, p);
}
