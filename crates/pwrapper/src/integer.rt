// The integer types of 8 to 64 bits, signed or not, by what the text of a number is made of.
ghost use Rattle.std.specs.Prelude.{◌≡◌, ◌<◌, ◌≤◌, ℕ, ℤ, pos, unsigned_abs};
ghost use Rattle.std.specs.Int.{is_negative};
ghost use Rattle.std.proofs.Common.{rules};
ghost use Rattle.pwrapper.specs.Number.{twos_complement};

// An integer of 8 to 64 bits, signed or not.
pub trait PrimitiveInteger: Copy {
    // How many bits the type has.
    const BITS: u32;

    ghost BITS: { ℕ };

    // The number that a value stands for.
    ghost value: { Self → ℤ };

    // Whether it is below zero.
    fn is_negative(self) -> bool
        ensures { result ≡ is_negative (value self) };

    // Its absolute value, also of the least number of a type.
    fn absolute_value(self) -> u64
        ensures { result ≡ unsigned_abs (value self) };

    // Its two's complement in the bits of its type, as a number.
    fn twos_complement(self) -> u64
        ensures { result ≡ twos_complement BITS (value self) };

    // A type has bits, and no more than 64.
    ghost bits_law: { (0 < BITS) × (BITS ≤ 64) };
}

impl PrimitiveInteger for u8 {
    const BITS: u32 = 8;

    ghost BITS = { 8 };

    ghost value = { λ n. pos n };

    fn is_negative(self) -> bool {
        false
    }

    fn absolute_value(self) -> u64 {
        u64::from(self)
    }

    fn twos_complement(self) -> u64 {
        u64::from(self)
    }

    ghost bits_law = { Prim.search rules };
}

impl PrimitiveInteger for u16 {
    const BITS: u32 = 16;

    ghost BITS = { 16 };

    ghost value = { λ n. pos n };

    fn is_negative(self) -> bool {
        false
    }

    fn absolute_value(self) -> u64 {
        u64::from(self)
    }

    fn twos_complement(self) -> u64 {
        u64::from(self)
    }

    ghost bits_law = { Prim.search rules };
}

impl PrimitiveInteger for u32 {
    const BITS: u32 = 32;

    ghost BITS = { 32 };

    ghost value = { λ n. pos n };

    fn is_negative(self) -> bool {
        false
    }

    fn absolute_value(self) -> u64 {
        u64::from(self)
    }

    fn twos_complement(self) -> u64 {
        u64::from(self)
    }

    ghost bits_law = { Prim.search rules };
}

impl PrimitiveInteger for u64 {
    const BITS: u32 = 64;

    ghost BITS = { 64 };

    ghost value = { λ n. pos n };

    fn is_negative(self) -> bool {
        false
    }

    fn absolute_value(self) -> u64 {
        self
    }

    fn twos_complement(self) -> u64 {
        self
    }

    ghost bits_law = { Prim.search rules };
}

impl PrimitiveInteger for i8 {
    const BITS: u32 = 8;

    ghost BITS = { 8 };

    ghost value = { λ z. z };

    fn is_negative(self) -> bool {
        self < 0
    }

    fn absolute_value(self) -> u64 {
        u64::from(self.unsigned_abs())
    }

    fn twos_complement(self) -> u64 {
        u64::from(self.cast_unsigned())
    }

    ghost bits_law = { Prim.search rules };
}

impl PrimitiveInteger for i16 {
    const BITS: u32 = 16;

    ghost BITS = { 16 };

    ghost value = { λ z. z };

    fn is_negative(self) -> bool {
        self < 0
    }

    fn absolute_value(self) -> u64 {
        u64::from(self.unsigned_abs())
    }

    fn twos_complement(self) -> u64 {
        u64::from(self.cast_unsigned())
    }

    ghost bits_law = { Prim.search rules };
}

impl PrimitiveInteger for i32 {
    const BITS: u32 = 32;

    ghost BITS = { 32 };

    ghost value = { λ z. z };

    fn is_negative(self) -> bool {
        self < 0
    }

    fn absolute_value(self) -> u64 {
        u64::from(self.unsigned_abs())
    }

    fn twos_complement(self) -> u64 {
        u64::from(self.cast_unsigned())
    }

    ghost bits_law = { Prim.search rules };
}

impl PrimitiveInteger for i64 {
    const BITS: u32 = 64;

    ghost BITS = { 64 };

    ghost value = { λ z. z };

    fn is_negative(self) -> bool {
        self < 0
    }

    fn absolute_value(self) -> u64 {
        self.unsigned_abs()
    }

    fn twos_complement(self) -> u64 {
        self.cast_unsigned()
    }

    ghost bits_law = { Prim.search rules };
}
