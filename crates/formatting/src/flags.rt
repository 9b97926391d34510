// The flags of a formatter. A setter takes the flags and hands back a changed copy.
ghost use Rattle.std.specs.Prelude.{◌≡◌};
ghost use Rattle.formatting.specs.Flags.{default_flags, with_num_fmt, with_hex, with_alternate};
ghost use Rattle.formatting.specs.declared.flags.NumberFormatting.TheVariants.{Decimal, Binary};
ghost use Rattle.formatting.specs.declared.flags.HexFormatting.TheVariants.{Upper, Lower};

// How numbers are written in debug form.
#[derive(Clone, Copy, Debug, PartialEq, Eq)]
pub enum NumberFormatting {
    Decimal,
    Hexadecimal,
    Binary,
}

// The case of the hexadecimal digits above 9.
#[derive(Clone, Copy, Debug, PartialEq, Eq)]
pub enum HexFormatting {
    Upper,
    Lower,
}

#[derive(Clone, Copy, Debug, PartialEq, Eq)]
pub struct FormattingFlags {
    pub num_fmt: NumberFormatting,
    pub hex_fmt: HexFormatting,
    pub is_alternate: bool,
}

impl FormattingFlags {
    pub const DEFAULT: Self = Self {
        num_fmt: NumberFormatting::Decimal,
        hex_fmt: HexFormatting::Upper,
        is_alternate: false,
    };

    pub const NEW: Self = Self::DEFAULT;

    // The default flags: decimal, upper digits, not alternate.
    pub fn new() -> Self
        ensures { result ≡ default_flags }
    {
        Self::NEW
    }

    // The flags with another form of numbers.
    pub fn set_num_fmt(mut self, num_fmt: NumberFormatting) -> Self
        ensures { result ≡ with_num_fmt self num_fmt }
    {
        self.num_fmt = num_fmt;
        self
    }

    // The flags with decimal numbers.
    pub fn set_decimal(mut self) -> Self
        ensures { result ≡ with_num_fmt self Decimal }
    {
        self.num_fmt = NumberFormatting::Decimal;
        self
    }

    // The flags with hexadecimal numbers in upper digits.
    pub fn set_hexadecimal(mut self) -> Self
        ensures { result ≡ with_hex self Upper }
    {
        self.num_fmt = NumberFormatting::Hexadecimal;
        self.hex_fmt = HexFormatting::Upper;
        self
    }

    // The flags with hexadecimal numbers in lower digits.
    pub fn set_lower_hexadecimal(mut self) -> Self
        ensures { result ≡ with_hex self Lower }
    {
        self.num_fmt = NumberFormatting::Hexadecimal;
        self.hex_fmt = HexFormatting::Lower;
        self
    }

    // The flags with binary numbers.
    pub fn set_binary(mut self) -> Self
        ensures { result ≡ with_num_fmt self Binary }
    {
        self.num_fmt = NumberFormatting::Binary;
        self
    }

    // The flags with the alternate form on or off: prefixes, and a field a line.
    pub fn set_alternate(mut self, is_alternate: bool) -> Self
        ensures { result ≡ with_alternate self is_alternate }
    {
        self.is_alternate = is_alternate;
        self
    }

    // The form of numbers.
    pub fn num_fmt(self) -> NumberFormatting
        ensures { result ≡ self.num_fmt }
    {
        self.num_fmt
    }

    // The case of hexadecimal digits.
    pub fn hex_fmt(self) -> HexFormatting
        ensures { result ≡ self.hex_fmt }
    {
        self.hex_fmt
    }

    // Whether the form is the alternate one.
    pub fn is_alternate(self) -> bool
        ensures { result ≡ self.is_alternate }
    {
        self.is_alternate
    }
}

impl Default for FormattingFlags {
    ghost is_default = { λ flags. flags ≡ default_flags };

    fn default() -> Self {
        Self::DEFAULT
    }
}
