ghost use Rattle.std.specs.Prelude.{◌≡◌};
ghost use Rattle.command_words.specs.Modes.{mode_of, mode_row};

/// What `sodac` is asked to do.
#[derive(Clone, Copy, Debug, PartialEq, Eq)]
pub enum Mode {
    /// `check`: print the canonical text.
    Check,
    /// `plain`: write the arrays, evaluated in memory.
    Plain,
    /// `plan`: print delays, storage and certificate.
    Plan,
    /// `compile`: write the module text to a file.
    Compile,
    /// `sim`: write the arrays by the simulator.
    Sim,
    /// `selftest`: make a program and an array from a seed, and simulate.
    Selftest,
}

const ALL: [Mode; 6] = [
    Mode::Check,
    Mode::Plain,
    Mode::Plan,
    Mode::Compile,
    Mode::Sim,
    Mode::Selftest,
];

impl Mode {
    // The word that stands for the mode.
    fn word(self) -> &'static str
        ensures { result.now ≡ (mode_row self).word }
    {
        match self {
            Mode::Check => "check",
            Mode::Plain => "plain",
            Mode::Plan => "plan",
            Mode::Compile => "compile",
            Mode::Sim => "sim",
            Mode::Selftest => "selftest",
        }
    }

    /// Whether the mode takes `--share`.
    pub(crate) fn takes_share(self) -> bool
        ensures { result ≡ (mode_row self).share }
    {
        match self {
            Mode::Check | Mode::Plain | Mode::Plan | Mode::Compile | Mode::Sim => true,
            Mode::Selftest => false,
        }
    }

    /// Whether the mode takes `--raw`.
    pub(crate) fn takes_raw(self) -> bool
        ensures { result ≡ (mode_row self).raw }
    {
        match self {
            Mode::Plain | Mode::Sim => true,
            Mode::Check | Mode::Plan | Mode::Compile | Mode::Selftest => false,
        }
    }

    /// Whether the mode takes `--trace`.
    pub(crate) fn takes_trace(self) -> bool
        ensures { result ≡ (mode_row self).trace }
    {
        match self {
            Mode::Sim => true,
            Mode::Check | Mode::Plain | Mode::Plan | Mode::Compile | Mode::Selftest => false,
        }
    }

    /// Whether the mode takes `--params`.
    pub(crate) fn takes_params(self) -> bool
        ensures { result ≡ (mode_row self).params }
    {
        match self {
            Mode::Plain | Mode::Sim => true,
            Mode::Check | Mode::Plan | Mode::Compile | Mode::Selftest => false,
        }
    }

    /// Whether the mode takes `--stall`.
    pub(crate) fn takes_stall(self) -> bool
        ensures { result ≡ (mode_row self).stall }
    {
        match self {
            Mode::Sim => true,
            Mode::Check | Mode::Plain | Mode::Plan | Mode::Compile | Mode::Selftest => false,
        }
    }
}

/// The mode of a word.
pub(crate) fn mode_of(word: &str) -> Option<Mode>
    ensures { result ≡ mode_of word.now }
{
    ALL.iter().copied().find(|mode| mode.word() == word)
}
