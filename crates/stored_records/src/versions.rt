// A set of versions, as a stored file has it.
ghost use Rattle.std.specs.Prelude.{◌≡◌, ◌-◌, ◌^◌, ◌/◌, ◌%◌, ◌<◌, ◌≤◌, ◌↔◌, IsTrue};

/// The versions 1 to 8 in a byte: bit 0 is for version 1, bit 7 for version 8.
#[derive(Clone, Copy, Debug, PartialEq, Eq)]
pub struct Versions(pub u8);

impl Versions {
    pub fn contains(self, version: u32) -> bool
        requires { (1 ≤ version) × (version ≤ 8) }
        ensures { IsTrue result ↔ (self.0 / 2 ^ (version - 1) % 2 ≡ 1) }
    {
        (self.0 >> (version - 1)) % 2 == 1
    }
}
