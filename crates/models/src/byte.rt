// A customer, a run end, a break place or a position in one byte.
ghost use Rattle.std.specs.Prelude.{◌≡◌};
ghost use Rattle.definitions.specs.Bytes.{byte_of, number_of};

// The number that a byte means.
pub fn number_of(byte: u8) -> usize
    ensures { result ≡ number_of byte }
{
    byte as usize
}

// The byte that a number is stored in.
pub fn byte_of(number: usize) -> u8
    ensures { result ≡ byte_of number }
{
    (number % 256) as u8
}
