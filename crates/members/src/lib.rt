// The members of one ring: the ring is walked from its first to its tail, and each process marked as it is met. Assumes nothing.
#![tactic(auto)]

ghost use Rattle.std.specs.Prelude.{◌≡◌, true, not, List, ℕ, ◌*◌, ◌/◌, ◌≤◌, ◌<◌, leb, length};
ghost use Rattle.members.specs.Marks.{met_in, marked};
ghost use Rattle.members.specs.Walk.{is_eligible, is_asleep, is_idle, is_tidy, fitting, ringed, Met, Told};

use area::layout;

// A word of the table has 64 bits: the number of a bit has six.
const SHIFT: usize = 6;

const MASK: usize = 63;

// All flags but armed and abort: in a condition they are waiting alone.
const FIXED: u16 = 65530;

// The highest time.
const LATEST: u16 = 65535;

// ---- the processes met so far, a bit for each

// p is now met. Whether it was not before.
fn mark(marks: &mut [u64; 16], p: usize) -> bool
    requires { p < 1024 }
    ensures { (marks.new ≡ marked marks.old p) × (result ≡ not (met_in marks.old p)) }
{
    let i = p >> SHIFT;
    let bits = marks[i];
    let more = bits | (1 << (p & MASK));
    marks[i] = more;
    more != bits
}

// ---- one ring

// Whether p may stand in a ring: a process, and not the holder of the ring's lock.
fn eligible(processes: usize, holder: usize, p: usize) -> bool
    ensures same { result ≡ is_eligible processes holder p }
    ensures within { result ≡ true → (1 ≤ p) × (p ≤ processes) }
{
    p != 0 && p <= processes && p != holder
}

// Whether a process in a condition may have these flags and this timer: it waits, and has a timer only if it is armed. By armed, the highest timer is 0 or any.
fn asleep(flags: u16, timer: u16) -> bool
    ensures { result ≡ is_asleep flags timer }
{
    flags & FIXED == layout::WAITING && timer <= flags / links::ARMED * LATEST
}

// Whether a process in any other queue may have them: it does not wait, is not armed and has no timer. The two words are asked as one number, which a compiler reads at once.
fn idle(flags: u16, timer: u16) -> bool
    ensures { result ≡ is_idle flags timer }
{
    u32::from(timer) * layout::WORD + u32::from(flags) <= u32::from(layout::ABORT)
}

// Whether a link in a queue other than a condition's has the low bits that it may have: in a lock's it is failed.
fn tidy(kind: u16, link: u16) -> bool
    ensures { result ≡ is_tidy kind link }
{
    match kind {
        heads::LOCK => link & links::LOW == layout::FAILED,
        _ => link & layout::UNNAMED == 0,
    }
}

// Whether a record fits a queue of this kind, which is a number, since `fitting` answers every number.
fn fits(kind: u16, link: u16, flags: u16, timer: u16) -> bool
    ensures { result ≡ fitting kind link flags timer }
{
    match kind {
        heads::CONDITION => asleep(flags, timer) && link & links::LOW == 0,
        _ => tidy(kind, link) && idle(flags, timer),
    }
}

// Whether the priority in a link is not above that in the link before it. With all bits set below the latter, the words compare as they stand.
fn falls(before: u16, link: u16) -> bool
    ensures { result ≡ leb (link / 8192) (before / 8192) }
{
    link <= before | (links::PRIORITY - 1)
}

// The processes of an area: their records, and how many there are.
#[derive(Clone, Copy)]
pub struct Roll<'a> {
    pub records: &'a [u16],
    pub processes: u16,
    ghost few: { processes < 1024 },
    ghost long: { 3 * processes ≤ length records.now },
}

impl Roll<'_> {
    // Walks the ring of `tail` from its first and marks each process that it meets. The answer is how many are met by then, None if it is no such ring. The marks are beside the roll, since they are written and it is read; the kind is a number, since `ringed` answers every number.
    pub fn walk(
        self,
        kind: u16,
        holder: usize,
        tail: usize,
        count: usize,
        marks: &mut [u64; 16],
    ) -> Option<usize>
        requires { tail ≤ self.processes }
        ensures { (js : List ℕ) → Met self.entry.processes marks.old js count → Told self.entry.processes result marks.new (ringed self.entry.records.now self.entry.processes kind holder tail js) }
    {
        if tail == 0 {
            return Some(count);
        }
        let processes = usize::from(self.processes);
        // by hand, not `links::link_at`: that takes a u16, and the walk goes by usize
        let last = (tail - 1) * links::RECORD;
        let mut p = usize::from(links::next_field(self.records[last]));
        let mut before = layout::HIGHEST * links::PRIORITY;
        // as a `for` over the count, 50 who queue at a lock are checked in 196 ns in place of 181
        let mut found = count;
        while found < processes {
            if !eligible(processes, holder, p) {
                return None;
            }
            let at = (p - 1) * links::RECORD;
            let link = self.records[at];
            if !fits(
                kind,
                link,
                self.records[at + links::FLAGS],
                self.records[at + links::TIMER],
            ) {
                return None;
            }
            if !falls(before, link) {
                return None;
            }
            if !mark(marks, p) {
                return None;
            }
            found += 1;
            if p == tail {
                return Some(found);
            }
            before = link;
            p = usize::from(links::next_field(link));
        }
        None
    }
}
