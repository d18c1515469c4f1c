//! The fields of a record that have other places in formats 6 and 7.

ghost use Rattle.ept_point.specs.Dimensions.{IsWithin, ReturnNumber, NumberOfReturns, ScanDirectionFlag, EdgeOfFlightLine, ClassFlags, ScanChannel};

use crate::format::FIRST_EXTENDED;
use crate::words::{bits, i8_at, i16_at, u16_at};

// The places of these fields, in bytes.
const RETURNS_AT: usize = 14;

const FLAGS_AT: usize = 15;

const PLAIN_RANK_AT: usize = 16;

const PLAIN_SOURCE_AT: usize = 18;

const EXTENDED_CLASS_AT: usize = 16;

const EXTENDED_ANGLE_AT: usize = 18;

const EXTENDED_SOURCE_AT: usize = 20;

/// The fields of a point that describe its laser pulse: its return, its class and its angle.
#[derive(Drop)]
pub struct Pulse {
    pub return_number: u8,
    pub number_of_returns: u8,
    pub scan_direction: u8,
    pub edge: u8,
    pub class: u8,
    pub class_flags: u8,
    pub channel: u8,
    pub angle_rank: i8,
    pub angle: i16,
    pub source_id: u16,
    ghost return_number_bound: { IsWithin ReturnNumber return_number },
    ghost number_of_returns_bound: { IsWithin NumberOfReturns number_of_returns },
    ghost scan_direction_bound: { IsWithin ScanDirectionFlag scan_direction },
    ghost edge_bound: { IsWithin EdgeOfFlightLine edge },
    ghost class_flags_bound: { IsWithin ClassFlags class_flags },
    ghost channel_bound: { IsWithin ScanChannel channel },
}

impl Pulse {
    ghost use Rattle.std.specs.Prelude.{◌≤◌, length, true, false};
    ghost use Rattle.ept_las.specs.Format.{IsFormat, is_extended, record_length};
    ghost use Rattle.ept_las.specs.Pulses.{IsPulseOf};

    /// The fields of a record of this format.
    pub fn of(format: u8, bytes: &[u8]) -> Pulse
        requires format { IsFormat format }
        requires room { record_length format ≤ length bytes.now }
        ensures { IsPulseOf (is_extended format) bytes.now result }
    {
        if format < FIRST_EXTENDED {
            Pulse::plain(bytes)
        } else {
            Pulse::extended(bytes)
        }
    }

    // Reads the fields in the formats 0 to 3.
    #[tactic(auto, unfolding(crate::specs::Pulses::return_number_of, crate::specs::Pulses::number_of_returns_of, crate::specs::Pulses::scan_direction_of, crate::specs::Pulses::edge_of, crate::specs::Pulses::class_of, crate::specs::Pulses::class_flags_of, crate::specs::Pulses::channel_of, crate::specs::Pulses::angle_rank_of, crate::specs::Pulses::angle_of, crate::specs::Pulses::source_id_of,))]
    fn plain(bytes: &[u8]) -> Pulse
        requires { 20 ≤ length bytes.now }
        ensures { IsPulseOf false bytes.now result }
    {
        let returns = bytes[RETURNS_AT];
        let flags = bytes[FLAGS_AT];
        Pulse {
            return_number: bits(returns, 0, 3),
            number_of_returns: bits(returns, 3, 3),
            scan_direction: bits(returns, 6, 1),
            edge: bits(returns, 7, 1),
            class: bits(flags, 0, 5),
            class_flags: bits(flags, 5, 3),
            channel: 0,
            angle_rank: i8_at(bytes, PLAIN_RANK_AT),
            angle: 0,
            source_id: u16_at(bytes, PLAIN_SOURCE_AT),
        }
    }

    // Reads the fields in the formats 6 and 7.
    #[tactic(auto, unfolding(crate::specs::Pulses::return_number_of, crate::specs::Pulses::number_of_returns_of, crate::specs::Pulses::scan_direction_of, crate::specs::Pulses::edge_of, crate::specs::Pulses::class_of, crate::specs::Pulses::class_flags_of, crate::specs::Pulses::channel_of, crate::specs::Pulses::angle_rank_of, crate::specs::Pulses::angle_of, crate::specs::Pulses::source_id_of,))]
    fn extended(bytes: &[u8]) -> Pulse
        requires { 30 ≤ length bytes.now }
        ensures { IsPulseOf true bytes.now result }
    {
        let returns = bytes[RETURNS_AT];
        let flags = bytes[FLAGS_AT];
        Pulse {
            return_number: bits(returns, 0, 4),
            number_of_returns: bits(returns, 4, 4),
            scan_direction: bits(flags, 6, 1),
            edge: bits(flags, 7, 1),
            class: bytes[EXTENDED_CLASS_AT],
            class_flags: bits(flags, 0, 4),
            channel: bits(flags, 4, 2),
            angle_rank: 0,
            angle: i16_at(bytes, EXTENDED_ANGLE_AT),
            source_id: u16_at(bytes, EXTENDED_SOURCE_AT),
        }
    }
}
