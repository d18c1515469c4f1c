//! The six point data record formats that are read (LAS 1.4 R15, section 2.6).

ghost use Rattle.std.specs.Prelude.{◌≡◌, ◌≤◌, ◌+◌, IfSome};
ghost use Rattle.ept_las.specs.Format.{IsFormat, is_format, record_length, gps_place, colour_place};

// The last of the formats 0 to 3.
const LAST_PLAIN: u8 = 3;

/// The first of the extended formats, 6 and 7, which have fields of their own.
pub const FIRST_EXTENDED: u8 = 6;

/// Whether a point data record format is one of the six that are read: 0 to 3, 6 and 7.
pub fn is_format(format: u8) -> bool
    ensures { result ≡ is_format format }
{
    format <= LAST_PLAIN || format == 6 || format == 7
}

/// How many bytes the fields of a record have. A record may be longer, and the rest is skipped.
#[tactic(auto, unfolding(crate::specs::Format::record_length))]
pub fn record_length(format: u8) -> u16
    requires { IsFormat format }
    ensures { result ≡ record_length format }
{
    match format {
        0 => 20,
        1 => 28,
        2 => 26,
        3 => 34,
        6 => 30,
        _ => 36,
    }
}

/// The place of the GPS time in a record, in a format that has it.
#[tactic(auto, unfolding(crate::specs::Format::gps_place, crate::specs::Format::record_length))]
pub fn gps_place(format: u8) -> Option<usize>
    requires { IsFormat format }
    ensures place { result ≡ gps_place format }
    ensures within { IfSome result (λ at. at + 8 ≤ record_length format) }
{
    match format {
        1 | 3 => Some(20),
        6 | 7 => Some(22),
        _ => None,
    }
}

/// The place of red, green and blue in a record, in a format that has them.
#[tactic(auto, unfolding(crate::specs::Format::colour_place, crate::specs::Format::record_length))]
pub fn colour_place(format: u8) -> Option<usize>
    requires { IsFormat format }
    ensures place { result ≡ colour_place format }
    ensures within { IfSome result (λ at. at + 6 ≤ record_length format) }
{
    match format {
        2 => Some(20),
        3 => Some(28),
        7 => Some(30),
        _ => None,
    }
}
