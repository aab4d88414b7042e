//! Why the words of the command line ask for nothing.
ghost use Rattle.std.specs.Prelude.{◌≡◌, true, Some};
ghost use Rattle.mt_settings.specs.Words.{option_named};

use std::alloc::AllocError;

/// An option of a command.
#[derive(Clone, Copy, Debug, PartialEq, Eq)]
pub enum OptionName {
    /// `--login`: the account's login.
    Login,
    /// `--store`: the folder of the store.
    Store,
    /// `--slots`: how many tasks run at once.
    Slots,
    /// `--log-limit`: the bytes that the log may have.
    LogLimit,
    /// `--work`: the folder of the tasks.
    Work,
    /// `--helper`: the program of the helpers.
    Helper,
    /// `--launcher`: the program that runs tasks elsewhere.
    Launcher,
    /// `--at`: the one moment of the clock.
    At,
    /// `--connections`: the number of connections after which a serve ends.
    Connections,
    /// `--listen`: the address that is listened at.
    Listen,
}

impl OptionName {
    /// The word that names it.
    pub fn text(self) -> &'static str
        ensures { option_named true result.now ≡ Some self }
    {
        match self {
            OptionName::Login => "--login",
            OptionName::Store => "--store",
            OptionName::Slots => "--slots",
            OptionName::LogLimit => "--log-limit",
            OptionName::Work => "--work",
            OptionName::Helper => "--helper",
            OptionName::Launcher => "--launcher",
            OptionName::At => "--at",
            OptionName::Connections => "--connections",
            OptionName::Listen => "--listen",
        }
    }
}

/// The first fault of the words, from their front; the words behind the command are counted from 0.
#[derive(Clone, Copy, Debug, PartialEq, Eq)]
pub enum UsageFault {
    /// There is no word.
    NoCommand,
    /// The first word is no command.
    UnknownCommand,
    /// The word at this place is no option of the command.
    UnknownOption { word: usize },
    /// The option at this place is the last word.
    NoValue { word: usize },
    /// The option at this place came before.
    Twice { word: usize },
    /// The word at this place is no value of the option before it.
    BadValue { word: usize },
    /// The command needs this option.
    Missing(OptionName),
}

/// Why words give no settings.
#[derive(Clone, Copy, Debug, PartialEq, Eq)]
pub enum SettingsError {
    /// They are not of the grammar.
    Usage(UsageFault),
    /// Out of memory.
    Memory,
}

/// Why an option isn't taken.
#[derive(Clone, Copy, Debug, PartialEq, Eq)]
pub(crate) enum OptionFault {
    /// It came before.
    Twice,
    /// The value is none that it may have.
    BadValue,
}

impl From<AllocError> for SettingsError {
    ghost use Rattle.std.specs.Prelude.{◌≡◌};
    ghost use Rattle.mt_settings.specs.declared.fault.SettingsError.TheVariants.{Memory};

    ghost from_gives = { λ _ e. e ≡ Memory };

    fn from(_: AllocError) -> SettingsError {
        SettingsError::Memory
    }
}
