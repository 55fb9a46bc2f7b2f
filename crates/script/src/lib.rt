// The lines of Rehearse: a line of bytes is cut at its spaces into a name and numbers, and these say the call. Assumes nothing.
#![tactic(auto)]

ghost use Rattle.std.specs.Prelude.{◌≡◌, ◌≤◌, length, map};
ghost use Rattle.script.specs.Line.{beside, name_of, said, meaning};
ghost use Rattle.script.specs.Read.{Tells};

use model::{Call, Priority, Process, Shape, Ticks};

// How many bytes the longest line has that means anything; a number takes one at least.
const LONGEST: usize = 8192;

// The first word of a line.
#[derive(Clone, Copy)]
pub enum Name {
    Start,
    Enter,
    Exit,
    Wait,
    Notify,
    Broadcast,
    Naked,
    Requeue,
    SetPriority,
    Tick,
    Abort,
    SetAbortable,
    Reenter,
}

// What a line says: a call, or Start with its shape and the count of its bytes, which `Tells` takes from the room; a slice would keep the room lent.
#[derive(Clone, Copy)]
pub enum Line {
    Call(Call),
    Start(Shape, usize),
}

// The words that are names, each with its name.
const NAMES: [(&[u8], Name); 13] = [
    (b"start", Name::Start),
    (b"enter", Name::Enter),
    (b"exit", Name::Exit),
    (b"wait", Name::Wait),
    (b"notify", Name::Notify),
    (b"broadcast", Name::Broadcast),
    (b"naked", Name::Naked),
    (b"requeue", Name::Requeue),
    (b"setpriority", Name::SetPriority),
    (b"tick", Name::Tick),
    (b"abort", Name::Abort),
    (b"setabortable", Name::SetAbortable),
    (b"reenter", Name::Reenter),
];

// The name beside the first of these words that is this one. No `find` and `map`: tried, and from the search along the table to `beside` the proof is longer than this loop with its own.
fn name_beside(rows: &[(&[u8], Name)], word: &[u8]) -> Option<Name>
    ensures { result ≡ beside word.now (map (λ r. (r.0.now, r.1)) rows.now) }
{
    for (text, name) in rows {
        if words::equal(word, text) {
            return Some(*name);
        }
    }
    None
}

// The name that a word is.
fn name_of(word: &[u8]) -> Option<Name>
    ensures { result ≡ name_of word.now }
{
    name_beside(&NAMES, word)
}

// What a name says with its numbers. Start's bytes come to the front of `bytes`.
#[tactic(auto, using(crate::proofs::Names::miscounted))]
fn line_of(name: Name, numbers: &[u16], bytes: &mut [u8]) -> Option<Line>
    requires { length numbers.now ≤ length bytes.old }
    ensures { Tells result bytes.new (said name numbers.now) }
{
    let call = match (name, numbers) {
        (Name::Start, &[processes, locks, conditions, parks, ref rest @ ..]) => {
            let shape = Shape {
                processes,
                locks,
                conditions,
                parks,
            };
            return words::put_bytes(rest, bytes).then_some(Line::Start(shape, rest.len()));
        }
        (Name::Enter, &[lock]) => Call::Enter { lock },
        (Name::Exit, &[lock]) => Call::Exit { lock },
        (Name::Wait, &[lock, condition, ticks]) => Call::Wait {
            lock,
            condition,
            ticks: Ticks(ticks),
        },
        (Name::Notify, &[condition]) => Call::Notify { condition },
        (Name::Broadcast, &[condition]) => Call::Broadcast { condition },
        (Name::Naked, &[condition]) => Call::Naked { condition },
        (Name::Requeue, &[source, destination, process]) => Call::Requeue {
            source,
            destination,
            process: Process(process),
        },
        (Name::SetPriority, &[priority]) => Call::SetPriority {
            priority: Priority(priority),
        },
        (Name::Tick, &[]) => Call::Tick,
        (Name::Abort, &[process]) => Call::Abort {
            process: Process(process),
        },
        (Name::SetAbortable, &[condition, value]) => Call::SetAbortable { condition, value },
        (Name::Reenter, &[lock, condition]) => Call::Reenter { lock, condition },
        _ => return None,
    };
    Some(Line::Call(call))
}

// What a line of any bytes says, if anything. The table has room for its numbers; Start's bytes come to the front of `bytes`.
pub fn parse(line: &[u8], table: &mut [u16], bytes: &mut [u8]) -> Option<Line>
    requires numbers_fit { 8192 ≤ length table.old }
    requires bytes_fit { 8192 ≤ length bytes.old }
    ensures { Tells result bytes.new (meaning line.now) }
{
    if line.len() > LONGEST {
        return None;
    }
    let end = words::word_end(line, 0);
    let name = name_of(&line[..end])?;
    let count = words::numbers(line, end, table)?;
    line_of(name, &table[..count], bytes)
}
