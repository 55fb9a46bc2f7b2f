// A ring walker, which keeps the records and a place, and gives the processes of a ring one by one. Assumes nothing.
ghost use Rattle.std.specs.Prelude.{◌≡◌, ◌≢◌, not, List, [], ◌++◌, ℕ, ◌+◌, ◌≤◌, ◌<◌, eqb, length, take, drop};
ghost use Rattle.std.specs.Iterator.{YieldsFirst, item_count};
ghost use Rattle.links.specs.Link.{Stands, next};
ghost use Rattle.ring.specs.Ring.{Ring};
ghost use Rattle.ring.specs.Way.{to_come, Walks, Passed};

use links::{link_of, next_of, points};

// The records, the tail of the ring, and the process at which the walker stands.
#[derive(Drop)]
pub struct Walker<'a> {
    records: &'a [u16],
    tail: u16,
    at: u16,
}

impl<'a> Walker<'a> {
    // A walker at the tail, before the first process.
    pub fn new(records: &'a [u16], tail: u16) -> Self
        ensures stands { (result.records ≡ records.entry) × (result.tail ≡ tail) × (result.at ≡ tail) }
        ensures walks { (xs : List ℕ) → Ring records.entry.now tail xs → tail ≢ 0 → Walks result × Passed result tail [] xs }
    {
        Walker {
            records,
            tail,
            at: tail,
        }
    }
}

impl Iterator for Walker<'_> {
    type Item = u16;

    ghost can_next = { Walks };

    ghost next_gives = { YieldsFirst to_come };

    ghost remaining = { item_count to_come };

    // One process on, unless the tail is next.
    fn next(&mut self) -> Option<u16> {
        if !goes_on(self.records, self.at, self.tail) {
            return None;
        }
        self.at = next_of(self.records, self.at);
        Some(self.at)
    }
}

// Whether another than the tail is behind p.
fn goes_on(records: &[u16], p: u16, tail: u16) -> bool
    requires { Stands records.now p × (tail < 1024) }
    ensures { result ≡ not (eqb (next records.now p) tail) }
{
    !points(link_of(records, p), tail)
}

// Walks along the ring of tail, which has a process, and writes those before the tail to the front of out. The answer is how many.
pub fn walk(records: &[u16], tail: u16, out: &mut [u16]) -> u16
    requires { (xs : List ℕ) × Ring records.now tail xs × (tail ≢ 0) × (length xs ≤ length out.old) }
    ensures { (xs : List ℕ) → Ring records.now tail xs → (result + 1 ≡ length xs) × (out.new ≡ take result xs ++ drop result out.old) }
{
    // the count is the answer; no `zip` with the slots, since of what is written through `iter_mut` a proof knows nothing
    let mut count: u16 = 0;
    for p in Walker::new(records, tail) {
        out[usize::from(count)] = p;
        count += 1;
    }
    count
}
