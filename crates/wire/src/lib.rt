// Answers as numbers, in which they cross to C and stand in a log: a field in so many bits, the code lowest. Assumes nothing.
#![tactic(auto)]

ghost use Rattle.std.specs.Prelude.{◌≡◌, length, ◌+◌, ◌*◌, ◌%◌, ◌^◌, ◌≤◌, ◌<◌};
ghost use Rattle.wire.specs.Wire.{packed, report_fields, nearest_fields, number_of};

use model::{Answer, Report};
use timers::Earliest;

// A field, in bits that hold so many numbers, and the others above them.
fn above(room: u64, low: u32, high: u64) -> u64
    requires { (0 < room) × (room ≤ 2 ^ 20) × (room * high < 2 ^ 60) }
    ensures { result ≡ low % room + room * high }
{
    u64::from(low) % room + room * high
}

// Fields in one number, so many bits each, the first lowest.
#[inline(always)]
fn packed<const BITS: u32>(fields: &[u32]) -> u64
    requires narrow { BITS ≤ 20 }
    requires fits { BITS * length fields.now ≤ 60 }
    ensures { result ≡ packed BITS fields.now }
{
    let room = 1 << BITS;
    let mut number = 0;
    for field in fields.iter().rev() {
        number = above(room, *field, number);
    }
    number
}

// Ten bits a field, code lowest.
pub fn pack(a: Answer) -> u64
    ensures { result ≡ number_of a }
{
    packed::<10>(&[
        u32::from(a.code),
        u32::from(a.running),
        u32::from(a.retry),
        u32::from(a.mark),
        u32::from(a.moved),
        u32::from(a.ahead),
    ])
}

// List's code and count, ten bits each, code lowest; apart from the next, since one of a const argument would ask of its caller that it is at most 20.
pub fn pack_list(r: Report) -> u64
    ensures { result ≡ packed 10 (report_fields r) }
{
    packed::<10>(&[u32::from(r.code), u32::from(r.count)])
}

// Those of the reads of document 02, twenty bits each.
pub fn pack_report(r: Report) -> u64
    ensures { result ≡ packed 20 (report_fields r) }
{
    packed::<20>(&[u32::from(r.code), u32::from(r.count)])
}

// Who is the nearest, twenty bits a field, code lowest.
pub fn pack_nearest(a: Earliest) -> u64
    ensures { result ≡ packed 20 (nearest_fields a) }
{
    packed::<20>(&[a.code, a.process, a.left])
}
