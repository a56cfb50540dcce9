// Document 01's grammar: what each byte of a text can be.
#![tactic(auto)]

ghost use Rattle.std.specs.Prelude.{◌≡◌};
ghost use Rattle.paper_grammar.specs.Reader.{lead_of, own_lead, joint_of, own_joint, is_digit, is_letter, is_joint, begins, is_start};

use paper_grammar::{Joint, Lead, Sort};

pub fn is_digit(b: u8) -> bool
    ensures { result ≡ is_digit b }
{
    matches!(b, b'0'..=b'9')
}

pub fn is_letter(b: u8) -> bool
    ensures { result ≡ is_letter b }
{
    matches!(b, b'a'..=b'h')
}

// What a byte begins in one sort alone.
fn own_lead(s: Sort, b: u8) -> Lead
    ensures { result ≡ own_lead s b }
{
    match s {
        Sort::State => {
            if is_letter(b) {
                Lead::Leaf
            } else {
                Lead::Other
            }
        }
        Sort::Formula => match b {
            b'#' => Lead::Measure,
            b'[' => Lead::Enter,
            _ => Lead::Other,
        },
    }
}

// What a byte begins.
pub fn lead_of(s: Sort, b: u8) -> Lead
    ensures { result ≡ lead_of s b }
{
    match b {
        b'T' | b'F' => Lead::Leaf,
        b'!' => Lead::Not,
        b'(' => Lead::Open,
        _ => own_lead(s, b),
    }
}

// Whether a lead begins a part.
fn begins(l: Lead) -> bool
    ensures { result ≡ begins l }
{
    !matches!(l, Lead::Other)
}

// Whether a byte is the first of a part of either sort.
pub fn is_start(b: u8) -> bool
    ensures { result ≡ is_start b }
{
    begins(lead_of(Sort::State, b)) || begins(lead_of(Sort::Formula, b))
}

// What joins two parts of one sort alone.
fn own_joint(s: Sort, b: u8) -> Joint
    ensures { result ≡ own_joint s b }
{
    match s {
        Sort::State => Joint::Nothing,
        Sort::Formula => {
            if b == b';' {
                Joint::Chop
            } else {
                Joint::Nothing
            }
        }
    }
}

// What joins two parts.
fn joint_of(s: Sort, b: u8) -> Joint
    ensures { result ≡ joint_of s b }
{
    match b {
        b'&' => Joint::And,
        b'|' => Joint::Or,
        _ => own_joint(s, b),
    }
}

pub fn is_joint(s: Sort, b: u8) -> bool
    ensures { result ≡ is_joint s b }
{
    !matches!(joint_of(s, b), Joint::Nothing)
}
