//! Numbers with a fixed number of bytes, the lowest byte first.
ghost use Rattle.std.specs.Char.{IsScalar};
ghost use Rattle.std.specs.Int.{w16, w32, to_le_bytes, from_le_bytes};
ghost use Rattle.std.specs.Prelude.{◌≡◌, ◌<◌, ◌^◌, ℕ, List, [], ◌∷◌, length, slice_index};
ghost use Rattle.tt_codec.specs.Read.{byte_again, half_again, word_again, char_again};

/// A number that is stored in a fixed number of bytes, the lowest byte first.
pub trait Encodable: Copy {
    /// The number of bytes of a value.
    const SIZE: usize;

    ghost SIZE: { ℕ };

    /// The numbers that are values.
    ghost IsValue: { Self → Type 0 };

    /// The bytes of a value.
    ghost bytes_of: { Self → List ℕ };

    /// The value with these bytes.
    ghost value_of: { List ℕ → Self };

    /// Fills the slice with the value's bytes. The slice has the length `SIZE`.
    fn write(self, into: &mut [u8])
        requires { length into.old ≡ SIZE }
        ensures bytes { into.new ≡ bytes_of self }
        ensures value { IsValue self };

    /// Returns the value with these bytes. Their number is `SIZE`, and they are the bytes of a value: any bytes for `u8`, `u16` and
    /// `u32`; for `char` those of a number for which `char::from_u32` returns `Some`.
    fn read(from: &[u8]) -> Self
        requires size { length from.now ≡ SIZE }
        requires written { (value : Self) × IsValue value × (from.now ≡ bytes_of value) }
        ensures { result ≡ value_of from.now };

    ghost reads_back: { (value : Self) → IsValue value → value_of (bytes_of value) ≡ value };
}

impl Encodable for u8 {
    const SIZE: usize = 1;

    ghost SIZE = { 1 };

    ghost IsValue = { λ value. value < 2 ^ 8 };

    ghost bytes_of = { λ value. value ∷ [] };

    ghost value_of = { λ bytes. slice_index bytes 0 };

    ghost reads_back = { byte_again };

    fn write(self, into: &mut [u8]) {
        into[0] = self;
    }

    fn read(from: &[u8]) -> u8 {
        from[0]
    }
}

impl Encodable for u16 {
    const SIZE: usize = 2;

    ghost SIZE = { 2 };

    ghost IsValue = { λ value. value < 2 ^ 16 };

    ghost bytes_of = { to_le_bytes w16 };

    ghost value_of = { from_le_bytes w16 };

    ghost reads_back = { half_again };

    fn write(self, into: &mut [u8]) {
        into.copy_from_slice(&self.to_le_bytes());
    }

    fn read(from: &[u8]) -> u16 {
        u16::from_le_bytes([from[0], from[1]])
    }
}

impl Encodable for u32 {
    const SIZE: usize = 4;

    ghost SIZE = { 4 };

    ghost IsValue = { λ value. value < 2 ^ 32 };

    ghost bytes_of = { to_le_bytes w32 };

    ghost value_of = { from_le_bytes w32 };

    ghost reads_back = { word_again };

    fn write(self, into: &mut [u8]) {
        into.copy_from_slice(&self.to_le_bytes());
    }

    fn read(from: &[u8]) -> u32 {
        u32::from_le_bytes([from[0], from[1], from[2], from[3]])
    }
}

impl Encodable for char {
    const SIZE: usize = 4;

    ghost SIZE = { 4 };

    ghost IsValue = { λ value. IsScalar value };

    ghost bytes_of = { to_le_bytes w32 };

    ghost value_of = { from_le_bytes w32 };

    ghost reads_back = { char_again };

    fn write(self, into: &mut [u8]) {
        (self as u32).write(into);
    }

    fn read(from: &[u8]) -> char {
        let code = u32::from_le_bytes([from[0], from[1], from[2], from[3]]);
        char::from_u32(code).unwrap()
    }
}
