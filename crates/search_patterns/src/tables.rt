// What a gate's clauses force first, and where nothing, by the values of its variables: each entry is proved to be so.

// What the clauses of a gate force first, by the values of its variables, the first variable's counting 1, the next one's 3, and so on: 0
// nothing, else 2 * variable + 2, and 1 more where plain. A table for each pattern: a constant is copied where it is read, so it is small.
pub const COPY_FORCED: [u8; 27] = [
    0, 7, 6, 5, 0, 5, 4, 4, 0, 0, 7, 6, 5, 0, 5, 4, 4, 0, 0, 7, 6, 5, 0, 5, 4, 4, 0,
];

pub const INVERSE_FORCED: [u8; 27] = [
    0, 6, 7, 4, 4, 0, 5, 0, 5, 0, 6, 7, 4, 4, 0, 5, 0, 5, 0, 6, 7, 4, 4, 0, 5, 0, 5,
];

pub const BOTH_FORCED: [u8; 27] = [
    0, 7, 0, 0, 9, 8, 4, 4, 0, 0, 7, 6, 5, 0, 5, 4, 4, 0, 4, 7, 0, 4, 4, 0, 4, 4, 0,
];

pub const EITHER_FORCED: [u8; 27] = [
    0, 0, 6, 5, 0, 5, 0, 9, 8, 5, 0, 6, 5, 0, 5, 5, 0, 5, 0, 7, 6, 5, 0, 5, 4, 4, 0,
];

pub const STEP_FORCED: [u8; 81] = [
    0, 0, 6, 5, 0, 5, 0, 9, 0, 0, 0, 6, 5, 0, 5, 0, 11, 10, 0, 7, 6, 5, 0, 5, 4, 4, 0, 0, 0, 6, 5,
    0, 5, 0, 9, 8, 5, 0, 6, 5, 0, 5, 5, 0, 5, 0, 7, 6, 5, 0, 5, 4, 4, 0, 0, 7, 6, 5, 0, 5, 4, 9, 0,
    0, 7, 6, 5, 0, 5, 4, 4, 0, 0, 7, 6, 5, 0, 5, 4, 4, 0,
];

pub const LOW_FORCED: [u8; 27] = [
    4, 4, 0, 4, 4, 0, 4, 4, 0, 4, 4, 0, 4, 4, 0, 4, 4, 0, 4, 4, 0, 4, 4, 0, 4, 4, 0,
];

pub const HIGH_FORCED: [u8; 27] = [
    5, 0, 5, 5, 0, 5, 5, 0, 5, 5, 0, 5, 5, 0, 5, 5, 0, 5, 5, 0, 5, 5, 0, 5, 5, 0, 5,
];

pub const RAISED_FORCED: [u8; 27] = [
    0, 0, 6, 5, 0, 5, 0, 0, 0, 0, 0, 6, 5, 0, 5, 0, 0, 0, 0, 0, 6, 5, 0, 5, 0, 0, 0,
];

// Where nothing is forced, a bit for each entry of a table; of a step's where that is so whatever its last variable's value is, and for each
// of that one's values. A visit looks here first, since mostly nothing is.
pub const COPY_QUIET: u32 = 71705361;

pub const INVERSE_QUIET: u32 = 42287777;

pub const BOTH_QUIET: u32 = 76686093;

pub const EITHER_QUIET: u32 = 71640147;

pub const STEP_QUIET: u32 = 71573521;

pub const STEP_QUIET_OPEN: u32 = 71608147;

pub const STEP_QUIET_HIGH: u32 = 71640147;

pub const STEP_QUIET_LOW: u32 = 71705361;

pub const LOW_QUIET: u32 = 76695844;

pub const HIGH_QUIET: u32 = 38347922;

pub const RAISED_QUIET: u32 = 122660819;
