// The terms that every call shares: the settings, the two labels and the numbers answered.
#![tactic(auto)]

ghost use Rattle.std.specs.Prelude.{◌≡◌, true, false, IfOk, IfErr};
ghost use Rattle.terms.specs.declared.Refusal.TheVariants.{SettingsOutOfRange};
ghost use Rattle.terms.specs.Settings.{in_range, no_settings};
ghost use Rattle.terms.specs.Refusals.{number_of};
ghost use Rattle.terms.specs.Labels.{byte_of};

// How a log is cut: K pattern bits, their target, and the least and the greatest length of a piece.
#[repr(C)]
#[derive(Clone, Copy, Debug, PartialEq, Eq)]
pub struct Settings {
    pub bits: u32,
    pub target: u32,
    pub minimum: u64,
    pub maximum: u64,
}

// Settings that are in range: whoever is handed them has nothing to ask.
#[derive(Clone, Copy)]
pub struct Checked {
    pub settings: Settings,
    pub ghost ranged: { in_range settings ≡ true },
}

// The settings of the school.
pub const HOUSE: Settings = Settings {
    bits: 13,
    target: 120,
    minimum: 2_048,
    maximum: 65_536,
};

// What a sheet says of its log: an exercise in the hall, or the training ship.
#[derive(Clone, Copy, Debug, PartialEq, Eq)]
pub enum Label {
    Practice,
    Live,
}

// Why a call is refused: a name for each row of the table of numbers.
#[derive(Clone, Copy, Debug, PartialEq, Eq)]
pub enum Refusal {
    SettingsOutOfRange = 1,
    LogTooLong = 2,
    CarryNotInOrder = 3,
    CarryClosed = 4,
    RoomTooShort = 5,
    RecordTooLong = 6,
    NoSuchSegment = 7,
    BayNotDone = 8,
    BayMalformed = 9,
    ListNotWellFormed = 10,
    EditOutOfRange = 11,
    NoSheet = 12,
    CheckWordWrong = 13,
    TrailerWrong = 14,
    OtherLabel = 15,
    TooManyCuts = 16,
    ListFull = 17,
}

// What a call answers: the entries or bytes written, or why it is refused.
pub type Answer = Result<u64, Refusal>;

// A log has at most this many bytes.
pub const LONGEST: u64 = 1_099_511_627_776;

impl Settings {
    // Every part 0: what stands beside a refusal.
    pub fn none() -> Settings
        ensures { result ≡ no_settings }
    {
        Settings {
            bits: 0,
            target: 0,
            minimum: 0,
            maximum: 0,
        }
    }

    // Whether every setting is within its range.
    #[tactic(auto, unfolding(crate::specs::Settings::in_range))]
    pub fn in_range(self) -> bool
        ensures { result ≡ in_range self }
    {
        self.bits >= 1
            && self.bits <= 31
            && self.target >= 1
            && self.target >> self.bits == 0
            && self.minimum >= 48
            && self.maximum <= 16_777_216
            && self.minimum <= self.maximum
    }

    // The settings, if they are in range.
    pub fn checked(self) -> Result<Checked, Refusal>
        ensures ok { IfOk result (λ checked. checked.settings ≡ self) }
        ensures refused { IfErr result (λ why. (why ≡ SettingsOutOfRange) × (in_range self ≡ false)) }
    {
        if !self.in_range() {
            return Err(Refusal::SettingsOutOfRange);
        }
        Ok(Checked { settings: self })
    }
}

impl From<Label> for u8 {
    // The byte that stands for a label on a sheet.
    ghost from_gives = { λ label byte. byte ≡ byte_of label };

    fn from(label: Label) -> u8 {
        match label {
            Label::Practice => b'P',
            Label::Live => b'L',
        }
    }
}

impl From<Refusal> for u32 {
    // The number of the refusal's row.
    ghost from_gives = { λ refusal number. number ≡ number_of refusal };

    fn from(refusal: Refusal) -> u32 {
        refusal as u32
    }
}
