// The byte of an order's flags.
ghost use Rattle.std.specs.Prelude.{◌≡◌, ◌+◌, ◌≤◌, ◌<◌};
ghost use Rattle.records.specs.Record.{flag, has_flag, with_flag};

// Each flag's value. They stay numbers of one byte: an order's record for C has it (`flags_of` in `specs/Record.antt`), and each flag may be on beside any other.
pub const SUBMITTED: u8 = 1;

pub const FILLED: u8 = 2;

pub const FAILED: u8 = 4;

pub const CLIENT: u8 = 8;

pub const REASON: u8 = 16;

// Whether the flag of a value is on.
pub fn has_flag(flags: u8, value: u8) -> bool
    requires { 0 < value }
    ensures { result ≡ has_flag value flags }
{
    flags / value % 2 == 1
}

// A flag's value where it is on.
pub fn flag_if(on: bool, value: u8) -> u8
    ensures { (result ≡ flag on value) × (result ≤ value) }
{
    if on { value } else { 0 }
}

// The byte with the flag of a value on or off.
pub fn with_flag(flags: u8, value: u8, on: bool) -> u8
    requires some { 0 < value }
    requires fits { flags + value < 256 }
    ensures { (result ≡ with_flag value on flags) × (result ≤ flags + value) }
{
    let others = flags - flag_if(has_flag(flags, value), value);
    others + flag_if(on, value)
}
