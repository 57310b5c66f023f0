//! The limits.
ghost use Rattle.std.specs.Prelude.{◌≡◌};
ghost use Rattle.fb_numbers.specs.Numbers.{is_instant as model_is_instant};

/// The greatest t of a transaction.
pub const GREATEST_T: u32 = 2_147_483_647;

/// The first millisecond of the year 1.
pub const LEAST_INSTANT: i64 = -62_135_596_800_000;

/// The last millisecond of the year 9999.
pub const GREATEST_INSTANT: i64 = 253_402_300_799_999;

/// The most datoms of an entry.
pub const MOST_DATOMS: usize = 65_535;

/// The most bytes of an entry.
pub const LARGEST_ENTRY: usize = 67_108_864;

/// The most bytes of a keyword, a symbol or a uri.
pub const LONGEST_NAME: usize = 65_535;

/// The most bytes of a string.
pub const LONGEST_STRING: usize = 1_048_576;

/// The greatest n of a user entity that a transaction may make.
pub const MOST_USERS: u64 = 1 << 40;

/// Whether the milliseconds lie in the range of instants.
pub fn is_instant(millis: i64) -> bool
    ensures { result ≡ model_is_instant millis }
{
    LEAST_INSTANT <= millis && millis <= GREATEST_INSTANT
}
