// A signed number as 32 bits in two's complement, and back.
ghost use Rattle.std.specs.Prelude.{◌≡◌};
ghost use Rattle.meaning.specs.LayoutFile.{bits_of};
ghost use Rattle.meaning.specs.ReadFile.{signed_of};

pub fn bits_of(z: i32) -> u32
    ensures { result ≡ bits_of z }
{
    z.cast_unsigned()
}

pub fn signed_of(bits: u32) -> i32
    ensures { result ≡ signed_of bits }
{
    bits.cast_signed()
}
