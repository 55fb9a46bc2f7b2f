// The kinds of queues by List's numbers, as C has them. Assumes nothing.

pub const READY: u16 = 0;

pub const PARK: u16 = 1;

pub const LOCK: u16 = 2;

pub const CONDITION: u16 = 3;
