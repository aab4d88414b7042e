//! The lengths that paths and logins keep, in bytes, and a law that says each as a number.
ghost use Rattle.std.specs.Prelude.{◌≡◌};

/// The text of a path behind its login, as `/stor/a/b`.
pub const LONGEST_PATH: usize = 1_024;

/// One component.
pub const LONGEST_COMPONENT: usize = 255;

/// A login.
pub const LONGEST_LOGIN: usize = 64;

/// The pieces of a name that are looked at: that of the login, and one more than a path has room for, since
/// each has a byte and a slash.
pub const MOST_PIECES: usize = LONGEST_PATH / 2 + 2;

/// Each limit is this number, whatever a definition calls it.
pub fn constants_are()
    ensures longest_path { LONGEST_PATH ≡ 1024 }
    ensures longest_component { LONGEST_COMPONENT ≡ 255 }
    ensures longest_login { LONGEST_LOGIN ≡ 64 }
    ensures most_pieces { MOST_PIECES ≡ 514 }
{}
