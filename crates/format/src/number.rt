//! Eight bytes, low byte first, as a number in two's complement.
ghost use Rattle.std.specs.Prelude.{◌≡◌, ◌+◌, ◌*◌, ◌^◌, ◌≤◌, length, pos, ◌≤ℤ◌, ◌<ℤ◌};
ghost use Rattle.format.specs.Numbers.{number as number_of};

/// Number `i` of the document.
pub(crate) fn number_at(bytes: &[u8], i: usize) -> i64
    requires { 8 * i + 8 ≤ length bytes.now }
    ensures { result ≡ number_of bytes.now i }
{
    let (words, _) = bytes.as_chunks();
    i64::from_le_bytes(words[i])
}

/// Number `i` of the document, which is known to be 0 or more and to fit 32 bits.
pub(crate) fn natural_at(bytes: &[u8], i: usize) -> u32
    requires there { 8 * i + 8 ≤ length bytes.now }
    requires natural { (pos 0 ≤ℤ number_of bytes.now i) × (number_of bytes.now i <ℤ pos (2 ^ 32)) }
    ensures { number_of bytes.now i ≡ pos result }
{
    number_at(bytes, i) as u32
}
