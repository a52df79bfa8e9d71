//! The keys of each section, in the order of checks, with their types and limits. It is the table of specs/Table.antt, line by line.
ghost use Rattle.std.specs.Prelude.{◌≡◌};
ghost use Rattle.network_rows.specs.Table.{keys_of};

use crate::key::Word::{A, B, Bytes, Es, Frames, High, Low, Periodic, Sporadic, Switch};
use crate::key::{Key, Section};
use crate::rule::Presence::{ForSwitches, MayBeAbsent, Optional, OptionalWord, Required};
use crate::rule::Rule;
use crate::rule::ValueType::{
    EitherWord, Integer, IntegerAbove, NodeName, OneOf, OneOfThree, Paths, Reference,
};
use vlink::{FrameSize, LATEST_NS};

// A line of the table: the key, which rows have it, and what its value must be.
macro_rules! rule {
    ($key:ident, $presence:expr, $value_type:expr) => {
        Rule {
            key: Key::$key,
            presence: $presence,
            value_type: $value_type,
        }
    };
}

/// The sections that are lists of tables, in the order of checks.
pub const LISTS: [Section; 5] = [
    Section::Node,
    Section::Link,
    Section::Outage,
    Section::Vl,
    Section::Stream,
];

/// One second in ns: the greatest latency, propagation time, skew or jitter.
pub const SECOND_NS: u64 = 1_000_000_000;

// The bandwidth allocation gaps, in ms (ARINC 664 Part 7).
const BAGS_MS: [u64; 8] = [1, 2, 4, 8, 16, 32, 64, 128];

const LEAST_FRAME: u64 = FrameSize::LEAST as u64;

const GREATEST_FRAME: u64 = FrameSize::GREATEST as u64;

pub const UNTIL_NS: Rule = rule!(UntilNs, Required, Integer(1, LATEST_NS));

pub const SEED: Rule = rule!(Seed, Required, Integer(0, i64::MAX as u64));

pub const NAME: Rule = rule!(Name, Required, NodeName(1, 32));

pub const KIND: Rule = rule!(Kind, Required, EitherWord(Es, Switch));

pub const PORT_BYTES: Rule = rule!(PortBytes, Required, Integer(GREATEST_FRAME, 1_048_576));

pub const NET: Rule = rule!(Net, ForSwitches, EitherWord(A, B));

pub const LATENCY_NS: Rule = rule!(LatencyNs, ForSwitches, Integer(1, SECOND_NS));

pub const LINK_A: Rule = rule!(A, Required, Reference);

pub const LINK_B: Rule = rule!(B, Required, Reference);

pub const MBIT: Rule = rule!(Mbit, Required, OneOfThree(10, 100, 1000));

pub const PROPAGATION_NS: Rule = rule!(PropagationNs, Required, Integer(1, SECOND_NS));

pub const FROM: Rule = rule!(From, Required, Reference);

pub const TO: Rule = rule!(To, Required, Reference);

pub const FROM_NS: Rule = rule!(FromNs, Required, Integer(0, LATEST_NS));

pub const TO_NS: Rule = rule!(ToNs, Required, IntegerAbove(Key::FromNs, 0, LATEST_NS));

pub const ID: Rule = rule!(Id, Required, Integer(0, 65_535));

pub const BAG_MS: Rule = rule!(BagMs, Required, OneOf(BAGS_MS));

pub const SMAX: Rule = rule!(Smax, Required, Integer(LEAST_FRAME, GREATEST_FRAME));

pub const PRIORITY: Rule = rule!(Priority, Required, EitherWord(High, Low));

pub const POLICING_JITTER_NS: Rule = rule!(PolicingJitterNs, Required, Integer(0, SECOND_NS));

pub const POLICING: Rule = rule!(Policing, OptionalWord(Bytes), EitherWord(Bytes, Frames));

pub const SKEW_MAX_NS: Rule = rule!(SkewMaxNs, Required, Integer(0, SECOND_NS));

pub const DEPTH: Rule = rule!(Depth, Required, Integer(1, 1024));

pub const SUB: Rule = rule!(Sub, Optional(1), Integer(1, 4));

pub const SIZE: Rule = rule!(Size, Required, Integer(LEAST_FRAME, GREATEST_FRAME));

pub const FRAMES: Rule = rule!(Frames, Optional(1), Integer(1, 64));

pub const LAST_SIZE: Rule = rule!(LastSize, MayBeAbsent, Integer(LEAST_FRAME, GREATEST_FRAME));

pub const OFFSET_NS: Rule = rule!(OffsetNs, Required, Integer(0, LATEST_NS));

pub const PERIOD_NS: Rule = rule!(PeriodNs, Required, Integer(1000, LATEST_NS));

pub const JITTER_NS: Rule = rule!(JitterNs, Required, Integer(0, SECOND_NS));

pub const TIMING: Rule = rule!(
    Timing,
    OptionalWord(Periodic),
    EitherWord(Periodic, Sporadic)
);

pub const END_NS: Rule = rule!(EndNs, MayBeAbsent, Integer(0, LATEST_NS));

pub const SUB_VL: Rule = rule!(SubVl, MayBeAbsent, Integer(0, 3));

pub const STREAM_VL: Rule = rule!(Vl, Required, Integer(0, 65_535));

pub const PATHS_A: Rule = rule!(A, Required, Paths(3, 32));

pub const PATHS_B: Rule = rule!(B, Required, Paths(3, 32));

const TOP_KEYS: [Rule; 2] = [UNTIL_NS, SEED];

const NODE_KEYS: [Rule; 5] = [NAME, KIND, PORT_BYTES, NET, LATENCY_NS];

const LINK_KEYS: [Rule; 4] = [LINK_A, LINK_B, MBIT, PROPAGATION_NS];

const OUTAGE_KEYS: [Rule; 4] = [FROM, TO, FROM_NS, TO_NS];

const VL_KEYS: [Rule; 20] = [
    ID,
    BAG_MS,
    SMAX,
    PRIORITY,
    POLICING_JITTER_NS,
    POLICING,
    SKEW_MAX_NS,
    DEPTH,
    SUB,
    SIZE,
    FRAMES,
    LAST_SIZE,
    OFFSET_NS,
    PERIOD_NS,
    JITTER_NS,
    TIMING,
    END_NS,
    SUB_VL,
    PATHS_A,
    PATHS_B,
];

const STREAM_KEYS: [Rule; 10] = [
    STREAM_VL, SIZE, FRAMES, LAST_SIZE, OFFSET_NS, PERIOD_NS, JITTER_NS, TIMING, END_NS, SUB_VL,
];

/// Returns the keys of a section, in the order of checks.
pub fn keys_of(section: Section) -> &'static [Rule]
    ensures { result.now ≡ keys_of section }
{
    match section {
        Section::Top => &TOP_KEYS,
        Section::Node => &NODE_KEYS,
        Section::Link => &LINK_KEYS,
        Section::Outage => &OUTAGE_KEYS,
        Section::Vl => &VL_KEYS,
        Section::Stream => &STREAM_KEYS,
    }
}
