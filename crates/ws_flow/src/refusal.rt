ghost use Rattle.std.specs.Prelude.{◌≡◌};
ghost use Rattle.ws_flow.specs.Refusals.{refusal_number};

/// Why a pipeline file is refused, with the number that is told of it.
#[derive(Clone, Copy)]
pub enum Refusal {
    /// The file is longer than 1,048,576 bytes.
    FileTooLong = 8,

    /// The file isn't TOML: its text isn't UTF-8, has an error, gives a key twice, or has an integer outside 64 bits.
    NotToml = 9,

    /// A key is missing, unknown or of the wrong type; or one of bytes isn't an even number of hexadecimal digits.
    WrongKey = 10,

    /// `version` is another integer than 1.
    OtherVersion = 12,

    /// The kind of a stage is unknown.
    UnknownKind = 11,

    /// There are more than 16 stages.
    TooManyStages = 1,

    /// A number, or the length of a key, is out of its range.
    OutOfRange = 2,

    /// There are more than four `hex` stages.
    TooManyHex = 7,

    /// A `number` or `frame` would see how the input was cut.
    SeesCutting = 3,

    /// `workers` is more than 8.
    TooManyWorkers = 4,

    /// A stage's worker is less than the one before.
    WorkersOutOfOrder = 6,

    /// A worker has no stage.
    IdleWorker = 5,
}

impl Refusal {
    /// The number that stands behind `plan refused`.
    pub fn number(&self) -> u8
        ensures { result ≡ refusal_number self.now }
    {
        *self as u8
    }
}
