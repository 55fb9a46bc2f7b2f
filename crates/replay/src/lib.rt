// A log of calls, made one after the other on one area. Assumes nothing.
#![tactic(auto)]

ghost use Rattle.std.specs.Prelude.{◌≡◌, ◌<◌, ◌*◌, length, drop};
ghost use Rattle.replay.specs.Replay.{operation, recorded, first_of, Served, Replayed};

use model::{Call, Priority, Process, Ticks};
use monitor::perform;
use wire::pack;

// ---- one record

// Operation k, from 0, with its three arguments; those that its call does not use are 0.
#[tactic(auto, unfolding(crate::specs::Replay::operation, crate::specs::Replay::pick))]
fn operate(k: u16, a: u16, b: u16, c: u16) -> Option<Call>
    ensures { result ≡ operation k a b c }
{
    match (k, a, b, c) {
        (0, lock, 0, 0) => Some(Call::Enter { lock }),
        (1, lock, 0, 0) => Some(Call::Exit { lock }),
        (2, lock, condition, ticks) => Some(Call::Wait {
            lock,
            condition,
            ticks: Ticks(ticks),
        }),
        (3, condition, 0, 0) => Some(Call::Notify { condition }),
        (4, condition, 0, 0) => Some(Call::Broadcast { condition }),
        (5, condition, 0, 0) => Some(Call::Naked { condition }),
        (6, source, destination, process) => Some(Call::Requeue {
            source,
            destination,
            process: Process(process),
        }),
        (7, priority, 0, 0) => Some(Call::SetPriority {
            priority: Priority(priority),
        }),
        (8, 0, 0, 0) => Some(Call::Tick),
        (9, process, 0, 0) => Some(Call::Abort {
            process: Process(process),
        }),
        (10, condition, value, 0) => Some(Call::SetAbortable { condition, value }),
        (11, lock, condition, 0) => Some(Call::Reenter { lock, condition }),
        _ => None,
    }
}

// Four words: the operation in the first four bits of the first, whose other bits are 0, and three arguments.
#[tactic(auto, unfolding(crate::specs::Replay::recorded, crate::specs::Replay::pick))]
pub fn decode(word: u16, a: u16, b: u16, c: u16) -> Option<Call>
    ensures { result ≡ recorded word a b c }
{
    if word % 4096 != 0 {
        return None;
    }
    operate(word / 4096, a, b, c)
}

// ---- a log

// Record number k of the log, from 0; one that is not whole is malformed.
#[tactic(auto, unfolding(crate::specs::Replay::first_of, crate::specs::Replay::pick))]
fn record_at(log: &[u16], k: usize) -> Option<Call>
    ensures { result ≡ first_of (drop (k * 4) log.now) }
{
    match log.get(k.checked_mul(4)?..)? {
        &[word, a, b, c, ..] => decode(word, a, b, c),
        _ => None,
    }
}

// Record number k is made and its answer is written, or it is malformed. Whether it was made.
fn serve(area: &mut [u16], log: &[u16], answers: &mut [u64], k: usize) -> bool
    requires { k < length answers.old }
    ensures { Served (first_of (drop (k * 4) log.now)) area.old area.new answers.old answers.new k result }
{
    match record_at(log, k) {
        Some(call) => {
            answers[k] = pack(perform(area, call));
            true
        }
        None => false,
    }
}

// The calls of the log, one after the other, up to a malformed record or the end of the room for answers. The answer is how many were made.
pub fn replay(area: &mut [u16], log: &[u16], answers: &mut [u64]) -> usize
    ensures { Replayed log.now area.old area.new answers.old answers.new result }
{
    // by number: of what is written through `iter_mut` a proof knows nothing
    for done in 0..answers.len() {
        if !serve(area, log, answers, done) {
            return done;
        }
    }
    answers.len()
}
