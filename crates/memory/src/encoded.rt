// What the content of one place is kept in.
ghost use Rattle.std.specs.Prelude.{◌≡◌};
ghost use Rattle.memory.specs.Encodings.{Encoding, Restores};

use store::place::Entry;

// A value that keeps an entry or nothing.
pub trait Encoded: Copy {
    // how it is read and written
    ghost encoding: { Encoding Self };

    // How many bits a digest may have.
    fn digest_bits() -> u32
        ensures { result ≡ encoding.bits };

    fn decode(self) -> Option<Entry>
        ensures { result ≡ encoding.decoded self };

    fn encode(content: Option<Entry>) -> Self
        ensures { result ≡ encoding.encoded content };

    ghost restores: { Restores encoding };
}
