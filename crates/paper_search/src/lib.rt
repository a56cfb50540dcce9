// What the search answers: definitions and laws, and their two types.
#![tactic(auto)]

// What a search that is made answers: found, none, spent, each with its count.
#[derive(Clone, Copy)]
pub enum Answer {
    Found(u32),
    None(u32),
    Spent(u32),
}

// How many places are lent, of each array.
#[derive(Drop)]
pub struct Lent {
    pub variables: usize,
    pub marks: usize,
    pub values: usize,
    pub trail: usize,
    pub recording: usize,
}
