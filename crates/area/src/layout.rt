// The layout as the code has it: where the words stand and how much each part of a word counts, each named once. The words of a record, and the parts of them that rings go by, are links's. specs/Layout.antt is what it is held to. Assumes nothing.

// ---- words

// The first words: the counts, the clock, the running process, the tail of ready.
pub const PROCESSES: usize = 0;

pub const LOCKS_CONDITIONS: usize = 1;

pub const PARKS: usize = 2;

pub const CLOCK: usize = 3;

pub const RUNNING: usize = 4;

pub const READY: usize = 5;

// How many words stand before the parks.
pub const HEAD: usize = 6;

// The words of a lock, and how far behind its first the holder stands.
pub const LOCK: usize = 2;

pub const HOLDER: usize = 1;

// ---- parts of a word: by how much it grows where the part grows by one

// The number of locks, above that of conditions; the number of parks.
pub const LOCKS_UNIT: u16 = 256;

pub const PARKS_UNIT: u16 = 4096;

// The bits of a link, of the flags, of a lock's and of a condition's word.
pub const FAILED: u16 = 4;

pub const WAITING: u16 = 2;

pub const ABORT: u16 = 1;

pub const LOCKED: u16 = 1;

pub const WAKEUP: u16 = 1;

pub const ABORTABLE: u16 = 2;

// The bits of a link below failed, which have no name.
pub const UNNAMED: u16 = 3;

// ---- how many values a part has

pub const BIT: u32 = 2;

pub const WORD: u32 = 65536;

// ---- limits

// The most that there can be of each.
pub const MOST_PROCESSES: u16 = 1023;

pub const MOST_LOCKS: u16 = 255;

pub const MOST_CONDITIONS: u16 = 255;

pub const MOST_PARKS: u16 = 8;

// The highest priority.
pub const HIGHEST: u16 = 7;
