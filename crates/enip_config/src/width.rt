//! The widths of the numbers in a configuration.

ghost use Rattle.std.specs.Prelude.{◌≡◌, ◌≤◌, ℕ};

/// A number of a fixed width: 8, 16, 32 or 64 bits.
pub(crate) trait Width: Sized {
    /// The value of the number.
    ghost number: { Self → ℕ };

    /// The greatest number of this width.
    ghost most: { ℕ };

    /// The number in this width.
    fn of(wide: u64) -> Self
        requires { wide ≤ most }
        ensures { number result ≡ wide };
}

impl Width for u8 {
    ghost number = { λ n. n };

    ghost most = { 0xff };

    fn of(wide: u64) -> u8 {
        wide as u8
    }
}

impl Width for u16 {
    ghost number = { λ n. n };

    ghost most = { 0xffff };

    fn of(wide: u64) -> u16 {
        wide as u16
    }
}

impl Width for u32 {
    ghost number = { λ n. n };

    ghost most = { 0xffffffff };

    fn of(wide: u64) -> u32 {
        wide as u32
    }
}

impl Width for u64 {
    ghost number = { λ n. n };

    ghost most = { 0xffffffffffffffff };

    fn of(wide: u64) -> u64 {
        wide
    }
}
