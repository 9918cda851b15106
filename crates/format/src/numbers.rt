// Numbers of the file, little-endian and unsigned.
ghost use Rattle.std.specs.Prelude.{◌≡◌, ◌+◌, ◌≤◌, ◌<◌, length};
ghost use Rattle.format.specs.Numbers.{number16, number32, within};

// The number of 16 bits at a place.
#[tactic(auto, unfolding(crate::specs::Numbers::number16))]
pub fn number16(file: &[u8], at: usize) -> u32
    requires { at + 2 ≤ length file.now }
    ensures { (result ≡ number16 file.now at) × (result < 65536) }
{
    u32::from(u16::from_le_bytes([file[at], file[at + 1]]))
}

// The number of 32 bits at a place.
#[tactic(auto, unfolding(crate::specs::Numbers::number16, crate::specs::Numbers::number32))]
pub fn number32(file: &[u8], at: usize) -> u32
    requires { at + 4 ≤ length file.now }
    ensures { result ≡ number32 file.now at }
{
    u32::from_le_bytes([file[at], file[at + 1], file[at + 2], file[at + 3]])
}

// Whether x is `low` to `high`, both included.
pub fn within(low: u32, high: u32, x: u32) -> bool
    ensures { result ≡ within low high x }
{
    (low..=high).contains(&x)
}
