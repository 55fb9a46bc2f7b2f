// What the kernel is called with and what it answers, as types; the tuple structs keep numbers of different kinds apart. `kinds` names List's. Assumes nothing.
#![tactic(auto)]

ghost use Rattle.std.specs.Prelude.{◌≡◌};
ghost use Rattle.model.specs.Refusals.{code_of};

pub mod kinds;

// The four counts of an area.
#[derive(Clone, Copy)]
pub struct Shape {
    pub processes: u16,
    pub locks: u16,
    pub conditions: u16,
    pub parks: u16,
}

// A number of clock ticks.
#[derive(Clone, Copy)]
pub struct Ticks(pub u16);

// The number of a process, from 1; 0 is none.
#[derive(Clone, Copy)]
pub struct Process(pub u16);

// A priority, 0 to 7; 7 is the highest.
#[derive(Clone, Copy)]
pub struct Priority(pub u16);

// The twelve calls that change an area, each with its numbers.
#[derive(Clone, Copy)]
pub enum Call {
    Enter {
        lock: u16,
    },
    Exit {
        lock: u16,
    },
    Wait {
        lock: u16,
        condition: u16,
        ticks: Ticks,
    },
    Notify {
        condition: u16,
    },
    Broadcast {
        condition: u16,
    },
    Naked {
        condition: u16,
    },
    Requeue {
        source: u16,
        destination: u16,
        process: Process,
    },
    SetPriority {
        priority: Priority,
    },
    Tick,
    Abort {
        process: Process,
    },
    SetAbortable {
        condition: u16,
        value: u16,
    },
    Reenter {
        lock: u16,
        condition: u16,
    },
}

// What Start and each of the twelve calls answer. Code 0 accepts; a refusal has zeros beside its code, a number and no Result, since so it crosses to C (`fields_of`). The code stands amidst the others: four zeros side by side a compiler writes as one number, and then it takes every answer apart again.
#[derive(Clone, Copy)]
pub struct Answer {
    pub running: u16,
    pub retry: u16,
    pub code: u16,
    pub mark: u16,
    pub moved: u16,
    pub ahead: u16,
}

// What a read into a lent buffer answers: its code, and how much it wrote there; so it crosses to C.
#[derive(Clone, Copy)]
pub struct Report {
    pub code: u16,
    pub count: u16,
}

// Why a call is refused: 01's codes by name, from 1.
#[derive(Clone, Copy)]
pub enum Refusal {
    // The area is not sound.
    Unsound,
    // A count is out of range.
    BadCount,
    // The list is not as long as there are processes.
    BadList,
    // A priority is above 7.
    BadPriority,
    // The area, the buffer or the page is too short.
    Short,
    // Nobody runs.
    Nobody,
    // No such lock, condition, park, process, queue or value.
    NoSuch,
    // The running process holds the lock already.
    Held,
    // The running process does not hold the lock.
    NotHeld,
    // The process does not stand in the source queue.
    NotThere,
}

// The code, as C and a log have it.
impl From<Refusal> for u16 {
    ghost from_gives = { λ why code. code ≡ code_of why };

    fn from(why: Refusal) -> u16
        ensures { result ≡ code_of why }
    {
        match why {
            Refusal::Unsound => 1,
            Refusal::BadCount => 2,
            Refusal::BadList => 3,
            Refusal::BadPriority => 4,
            Refusal::Short => 5,
            Refusal::Nobody => 6,
            Refusal::NoSuch => 7,
            Refusal::Held => 8,
            Refusal::NotHeld => 9,
            Refusal::NotThere => 10,
        }
    }
}
