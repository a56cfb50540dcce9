// What defines a variable of a formula, of other variables: AnyOf is of as many as its second number says, from its first on; Step is
// p, or both q and s.
#![tactic(auto)]

#[derive(Clone, Copy)]
pub enum Gate {
    Constant(bool),
    Copy(u32),
    Inverse(u32),
    Both(u32, u32),
    Either(u32, u32),
    AnyOf(u32, u32),
    Step(u32, u32, u32),
}
