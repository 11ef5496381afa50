// Numbers as a WAV file writes them, the low byte first. Nothing here has a `requires`: a byte past the
// end counts as 0.
#![tactic(auto)]

ghost use Rattle.std.specs.Prelude.{◌≡◌, ℕ, ◌+◌, ◌<◌, get_or};
ghost use Rattle.wav_bytes.specs.Bytes.{two_at, four_at};

fn byte_at(bytes: &[u8], at: usize) -> u8
    ensures { result ≡ get_or bytes.now at 0 }
{
    bytes.get(at).copied().unwrap_or(0)
}

// The N bytes from place `at` on, by a `for`: the clause of `array::from_fn` did not give a proof the values
// that its closure captures.
fn bytes_at<const N: usize>(bytes: &[u8], at: usize) -> [u8; N]
    ensures { (k : ℕ) → k < N → get_or result k 0 ≡ get_or bytes.now (at + k) 0 }
{
    let mut found = [0; N];
    for (k, byte) in found.iter_mut().enumerate() {
        *byte = byte_at(bytes, at.saturating_add(k));
    }
    found
}

// The number that two bytes from place `at` on stand for; a byte past the end counts as 0.
pub fn two_at(bytes: &[u8], at: usize) -> u16
    ensures { result ≡ two_at bytes.now at }
{
    u16::from_le_bytes(bytes_at(bytes, at))
}

// The number that four bytes from place `at` on stand for; a byte past the end counts as 0.
pub fn four_at(bytes: &[u8], at: usize) -> u32
    ensures { result ≡ four_at bytes.now at }
{
    u32::from_le_bytes(bytes_at(bytes, at))
}
