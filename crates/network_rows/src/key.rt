//! Sections, keys and words of a description.
ghost use Rattle.std.specs.Prelude.{◌≡◌};
ghost use Rattle.network_rows.specs.Keys.{key_text, section_text, word_text};

/// A section of a description: its top table, or one of its lists of tables.
#[derive(Clone, Copy, Debug, PartialEq, Eq)]
pub enum Section {
    Top,
    Node,
    Link,
    Outage,
    Vl,
    Stream,
}

/// A key of a description.
#[derive(Clone, Copy, Debug)]
pub enum Key {
    UntilNs,
    Seed,
    Name,
    Kind,
    PortBytes,
    Net,
    LatencyNs,
    A,
    B,
    Mbit,
    PropagationNs,
    From,
    To,
    FromNs,
    ToNs,
    Id,
    BagMs,
    Smax,
    Priority,
    PolicingJitterNs,
    Policing,
    SkewMaxNs,
    Depth,
    Sub,
    Size,
    Frames,
    LastSize,
    OffsetNs,
    PeriodNs,
    JitterNs,
    Timing,
    EndNs,
    SubVl,
    Vl,
}

/// A word that a description uses as a value.
#[derive(Clone, Copy)]
pub enum Word {
    Es,
    Switch,
    A,
    B,
    High,
    Low,
    Bytes,
    Frames,
    Periodic,
    Sporadic,
}

impl Section {
    /// Returns the section as a description writes it; `top` for the top table, which a description does not name.
    pub fn text(self) -> &'static str
        ensures { result.now ≡ section_text self }
    {
        match self {
            Section::Top => "top",
            Section::Node => "node",
            Section::Link => "link",
            Section::Outage => "outage",
            Section::Vl => "vl",
            Section::Stream => "stream",
        }
    }
}

impl Key {
    /// Returns the key as a description writes it.
    pub fn text(self) -> &'static str
        ensures { result.now ≡ key_text self }
    {
        match self {
            Key::UntilNs => "until_ns",
            Key::Seed => "seed",
            Key::Name => "name",
            Key::Kind => "kind",
            Key::PortBytes => "port_bytes",
            Key::Net => "net",
            Key::LatencyNs => "latency_ns",
            Key::A => "a",
            Key::B => "b",
            Key::Mbit => "mbit",
            Key::PropagationNs => "propagation_ns",
            Key::From => "from",
            Key::To => "to",
            Key::FromNs => "from_ns",
            Key::ToNs => "to_ns",
            Key::Id => "id",
            Key::BagMs => "bag_ms",
            Key::Smax => "smax",
            Key::Priority => "priority",
            Key::PolicingJitterNs => "policing_jitter_ns",
            Key::Policing => "policing",
            Key::SkewMaxNs => "skew_max_ns",
            Key::Depth => "depth",
            Key::Sub => "sub",
            Key::Size => "size",
            Key::Frames => "frames",
            Key::LastSize => "last_size",
            Key::OffsetNs => "offset_ns",
            Key::PeriodNs => "period_ns",
            Key::JitterNs => "jitter_ns",
            Key::Timing => "timing",
            Key::EndNs => "end_ns",
            Key::SubVl => "sub_vl",
            Key::Vl => "vl",
        }
    }
}

impl Word {
    /// Returns the word as a description writes it.
    pub fn text(self) -> &'static str
        ensures { result.now ≡ word_text self }
    {
        match self {
            Word::Es => "es",
            Word::Switch => "switch",
            Word::A => "A",
            Word::B => "B",
            Word::High => "high",
            Word::Low => "low",
            Word::Bytes => "bytes",
            Word::Frames => "frames",
            Word::Periodic => "periodic",
            Word::Sporadic => "sporadic",
        }
    }
}
