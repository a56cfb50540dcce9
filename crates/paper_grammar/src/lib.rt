// The words of document 01's grammar, for code and definitions: no function.
#![tactic(auto)]

// The text's limits: bytes, nodes, n, channels.
pub const MAX_LENGTH: usize = 255;

pub const MAX_NODES: usize = 64;

pub const MAX_NUMBER: usize = 32;

pub const MAX_CHANNELS: usize = 8;

// A state assertion or a formula.
#[derive(Clone, Copy)]
pub enum Sort {
    State,
    Formula,
}

// What a part's first byte begins: a part of one byte, `!`, `(`, `#`, `[`, or nothing.
#[derive(Drop)]
pub enum Lead {
    Leaf,
    Not,
    Open,
    Measure,
    Enter,
    Other,
}

// What joins two parts: `&`, `|`, `;`, or nothing.
#[derive(Drop)]
pub enum Joint {
    And,
    Or,
    Chop,
    Nothing,
}
