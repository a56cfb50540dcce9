// The recording read from an assignment's channel variables.
#![tactic(auto)]

ghost use Rattle.std.specs.Prelude.{◌≡◌, ◌+◌, ◌*◌, ◌^◌, ◌≤◌, length};
ghost use Rattle.lists.specs.Listing.{sum};
ghost use Rattle.interval.specs.Limits.{max_steps};
ghost use Rattle.paper_grammar.specs.Limits.{max_channels};
ghost use Rattle.paper_meaning.specs.Meaning.{bit};
ghost use Rattle.paper_circuit.specs.Circuit.{channel_of};
ghost use Rattle.paper_assignments.specs.Extension.{value_in, recording_of};

// The byte of instant t: bit b where channel b is high.
fn recorded(assignment: &[u8], c: usize, t: usize) -> u8
    requires { (c ≤ max_channels) × (t ≤ max_steps) × (t * c + c ≤ length assignment.now) }
    ensures { result ≡ sum (λ b. bit (value_in assignment.now (channel_of c t b)) * 2 ^ b) c }
{
    let at = t * c;
    let mut byte: u8 = 0;
    for (b, value) in assignment[at..at + c].iter().enumerate() {
        byte += u8::from(*value == 1) << b;
    }
    byte
}

// The recording, to all of `out`.
pub fn put_recording(out: &mut [u8], assignment: &[u8], c: usize)
    requires { (c ≤ max_channels) × (length out.old ≤ max_steps) × (length out.old * c ≤ length assignment.now) }
    ensures { out.new ≡ recording_of c (length out.old) assignment.now }
{
    for (t, byte) in out.iter_mut().enumerate() {
        *byte = recorded(assignment, c, t);
    }
}
