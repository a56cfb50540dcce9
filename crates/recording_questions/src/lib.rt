// Questions 10 and 11, and 13 of an assignment: whether bytes are as many as they should be, and each below a number.
#![tactic(auto)]

ghost use Rattle.std.specs.Prelude.{◌≡◌, ◌^◌, ◌≤◌, ◌<◌, length};
ghost use Rattle.interval.specs.Limits.{max_steps};
ghost use Rattle.paper_grammar.specs.Limits.{max_channels};
ghost use Rattle.paper_meaning.specs.Recording.{ask_recording, ask_below, ask_bytes};

use refusal::Refusal;

// Question 10.
pub fn ask_recording(k: u32, recording: &[u8]) -> Result<(), Refusal>
    ensures { result ≡ ask_recording k recording.now }
{
    refusal::ask(10, recording.len() == k as usize)
}

// The question whether each byte is below a number.
pub fn ask_below(number: u32, most: usize, bytes: &[u8]) -> Result<(), Refusal>
    requires { length bytes.now < 2 ^ 32 }
    ensures { result ≡ ask_below number most bytes.now }
{
    for (t, byte) in bytes.iter().enumerate() {
        if usize::from(*byte) >= most {
            let place = t as u32;
            return Err(Refusal { number, place });
        }
    }
    Ok(())
}

// Question 11.
pub fn ask_bytes(c: u32, recording: &[u8]) -> Result<(), Refusal>
    requires { (c ≤ max_channels) × (length recording.now ≤ max_steps) }
    ensures { result ≡ ask_bytes c recording.now }
{
    ask_below(11, 1usize << c, recording)
}
