//! A checker of certificates, line by line.
ghost use Rattle.std.specs.Prelude.{◌≡◌, true, IfOk, None, Option, Some};
ghost use Rattle.mt_checker.specs.Stages.{Beginning, Over, Stage};
ghost use Rattle.mt_checker.specs.Kept.{Keeps, Says, stage_after};

use crate::following::follow;
use crate::state::State;
use mt_base::Text;
use mt_certline::read_line;
use std::alloc::{AllocError, Global};
use std::mem;

/// What is said of a line.
#[derive(Clone, Copy, Debug, PartialEq, Eq)]
pub enum Checked {
    /// It may stand there, and more lines are to come.
    Going,
    /// It is the last line of a certificate that adds up.
    Accepted,
    /// It may not stand there, or stands behind one that may not or behind the last.
    Refused,
    /// Out of memory: each line behind it is refused.
    Memory,
}

/// A checker of the lines of a certificate. It keeps a byte for each place of the phase that is being listed, what the next
/// phase reads of the outputs, and past the last phase their names.
#[derive(Drop)]
pub struct Checker {
    pub(crate) login: Text,
    pub(crate) state: State,
}

// What is said of a line behind which this is kept.
fn said(state: &State) -> Checked
    ensures { (s : Option Stage) → Keeps state.now s → Says result s state.now }
{
    match state {
        State::Start => Checked::Going,
        State::Inputs { kinds: _, feed: _ } => Checked::Going,
        State::Listed {
            kinds: _,
            standing: _,
        } => Checked::Going,
        State::Done => Checked::Accepted,
        State::Refused => Checked::Refused,
    }
}

// What is kept behind the line that a text is.
fn follow_text(alloc: Global, login: &str, state: State, text: &[u8]) -> Result<State, AllocError>
    ensures { IfOk result (λ t. (s : Option Stage) → Keeps state s → Keeps t (stage_after login.now s text.now)) }
{
    match read_line(alloc, login, text)? {
        Some(line) => follow(alloc, state, line),
        None => Ok(State::Refused),
    }
}

impl Checker {
    /// A checker that has seen no line, for the account of this login.
    pub fn new(alloc: Global, login: &str) -> Result<Checker, AllocError>
        ensures login { IfOk result (λ c. c.login ≡ login.now) }
        ensures keeps { IfOk result (λ c. Keeps c.state (Some Beginning)) }
    {
        Ok(Checker {
            login: Text::from_str(alloc, login)?,
            state: State::Start,
        })
    }

    /// One line more, without its line feed.
    pub fn line(&mut self, alloc: Global, text: &[u8]) -> Checked
        ensures login { self.new.login ≡ self.old.login }
        ensures says { (s : Option Stage) → Keeps self.old.state s → Says result (stage_after self.old.login s text.now) self.new.state }
    {
        let state = mem::replace(&mut self.state, State::Refused);
        match follow_text(alloc, self.login.as_str(), state, text) {
            Ok(state) => {
                let checked = said(&state);
                self.state = state;
                checked
            }
            Err(AllocError) => Checked::Memory,
        }
    }

    /// Whether the last line of a certificate that adds up was there, and none behind it.
    pub fn is_done(&self) -> bool
        ensures yes { Keeps self.now.state (Some Over) → result ≡ true }
        ensures no { (s : Stage) → Keeps self.now.state (Some s) → result ≡ true → s ≡ Over }
    {
        matches!(&self.state, State::Done)
    }
}
