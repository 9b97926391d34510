// The integer types as values.
ghost use Rattle.std.specs.Prelude.{◌≡◌};
ghost use Rattle.str_writer.specs.Value.{Form, integer};
ghost use Rattle.value_writes.specs.Values.{integer_of};

use crate::{Integer, Width};
use pwrapper::PrimitiveInteger;

// An integer type whose numbers are values of a formatter's calls.
pub trait IntegerValue: PrimitiveInteger {
    // The number with its type.
    fn to_integer(self) -> Integer
        ensures { (form : Form) → integer_of form result ≡ integer form Self.BITS (Self.value self) };
}

impl IntegerValue for u8 {
    fn to_integer(self) -> Integer {
        Integer::Unsigned(Width::W8, u64::from(self))
    }
}

impl IntegerValue for u16 {
    fn to_integer(self) -> Integer {
        Integer::Unsigned(Width::W16, u64::from(self))
    }
}

impl IntegerValue for u32 {
    fn to_integer(self) -> Integer {
        Integer::Unsigned(Width::W32, u64::from(self))
    }
}

impl IntegerValue for u64 {
    fn to_integer(self) -> Integer {
        Integer::Unsigned(Width::W64, self)
    }
}

impl IntegerValue for i8 {
    fn to_integer(self) -> Integer {
        Integer::Signed(Width::W8, i64::from(self))
    }
}

impl IntegerValue for i16 {
    fn to_integer(self) -> Integer {
        Integer::Signed(Width::W16, i64::from(self))
    }
}

impl IntegerValue for i32 {
    fn to_integer(self) -> Integer {
        Integer::Signed(Width::W32, i64::from(self))
    }
}

impl IntegerValue for i64 {
    fn to_integer(self) -> Integer {
        Integer::Signed(Width::W64, self)
    }
}
