//! Names in a window.
ghost use Rattle.std.specs.Prelude.{◌≡◌, ◌∷◌, length, map};
ghost use Rattle.std.specs.List.{flat_map};
ghost use Rattle.json.specs.Print.{escape};
ghost use Rattle.mt_path.specs.AccountPath.{path_text, slash};
ghost use Rattle.mt_path.specs.Keys.{shown_byte};
ghost use Rattle.mt_jobtext.specs.JobTexts.{line, posted_text};
ghost use Rattle.mt_jobtext.specs.Windows.{Puts};

use crate::quotes::{put_byte, put_escaped};
use crate::window::{Window, shown_byte};
use mt_path::Path;
use mt_types::{InputLine, Item};

/// Adds a path with its login, as it stands between the quotes of JSON.
pub(crate) fn put_path(window: &mut Window, login: &str, path: &Path)
    ensures { Puts (escape (path_text login.now path.now)) window.old window.new }
{
    put_part(window, login.as_bytes());
    put_part(window, path.area().name().as_bytes());
    put_key(window, path.key());
}

// Adds a slash and a part, as they stand between quotes.
fn put_part(window: &mut Window, part: &[u8])
    ensures { Puts (escape (slash ∷ part.now)) window.old window.new }
{
    put_escaped(window, b"/");
    put_escaped(window, part);
}

// Adds a key as it stands between quotes, with a slash for each byte 0.
fn put_key(window: &mut Window, key: &[u8])
    ensures { Puts (escape (map shown_byte key.now)) window.old window.new }
{
    for byte in key {
        put_byte(window, shown_byte(*byte));
    }
}

/// Adds what was posted, as it stands between quotes; a path with its login.
pub(crate) fn put_posted(window: &mut Window, login: &str, posted: &InputLine)
    ensures { Puts (escape (posted_text login.now posted.now)) window.old window.new }
{
    match posted {
        InputLine::Named(path) => put_path(window, login, path),
        InputLine::Other(text) => put_escaped(window, text.as_bytes()),
    }
}

/// Adds a line with a path. One that the window passes over whole is only counted.
pub(crate) fn put_path_line(window: &mut Window, login: &str, path: &Path)
    ensures { Puts (line (path_text login.now path.now)) window.old window.new }
{
    let len = line_len(login, path);
    if window.passes(len) {
        window.pass(len);
    } else {
        put_shown_line(window, login, path);
    }
}

/// How long the line of a path is.
pub(crate) fn line_len(login: &str, path: &Path) -> usize
    ensures { result ≡ length (line (path_text login.now path.now)) }
{
    let below = path.area().name().len() + path.key().len() + 3;
    login.len() + below
}

// Adds a line with a path.
fn put_shown_line(window: &mut Window, login: &str, path: &Path)
    ensures { Puts (line (path_text login.now path.now)) window.old window.new }
{
    window.put(b"/");
    window.put(login.as_bytes());
    window.put(b"/");
    window.put(path.area().name().as_bytes());
    window.put_shown(path.key());
    window.put(b"\n");
}

/// Adds a line for each item, with its name.
pub(crate) fn put_item_lines<B>(window: &mut Window, login: &str, items: &[Item<B>])
    ensures { Puts (flat_map (λ i. line (path_text login.now i.name)) items.now) window.old window.new }
{
    for item in items {
        put_path_line(window, login, &item.name);
    }
}

/// Adds a line as it was posted.
pub(crate) fn put_posted_line(window: &mut Window, login: &str, posted: &InputLine)
    ensures { Puts (line (posted_text login.now posted.now)) window.old window.new }
{
    match posted {
        InputLine::Named(path) => put_path_line(window, login, path),
        InputLine::Other(text) => put_text_line(window, text.as_bytes()),
    }
}

// Adds a line with a text.
fn put_text_line(window: &mut Window, text: &[u8])
    ensures { Puts (line text.now) window.old window.new }
{
    window.put(text);
    window.put(b"\n");
}
