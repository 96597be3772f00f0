//! What is kept of a driver's text.

use sva_judge::Spot;
use sva_open::Driver;
use sva_open_safe::Wrong;
use sva_script::Names;
use sva_step::Config;

/// What is told of a line of an act.
#[derive(Drop)]
pub struct Said {
    /// Its thread; empty before `race`.
    pub thread: Vec<u8>,
    /// Its words behind its name, a space between two.
    pub text: Vec<u8>,
}

/// A driver that was read, before its first line is taken.
#[derive(Drop)]
pub struct Read {
    /// Its config.
    pub config: Config,
    /// The names of all its lines.
    pub names: Names,
    /// The number behind that of its last line.
    pub next: u64,
    /// Whether it has a `race`.
    pub is_race: bool,
    /// How many lines stand before `race`.
    pub before: usize,
    /// The driver before its first line.
    pub opening: Driver,
    /// Of each line, what is told of it.
    pub said: Vec<Said>,
}

/// Why lines that are taken one after another lead no further.
#[derive(Clone, Copy, PartialEq, Eq)]
pub enum Halt {
    /// A line isn't permitted where it stands.
    Refused {
        /// Its place.
        place: usize,
    },
    /// Behind a line something is wrong.
    Leaks {
        /// The number of the line in the text, from 1 on.
        number: u64,
        /// What is told of it.
        wrong: Wrong,
    },
}

/// A driver behind the lines before `race`.
#[derive(Drop)]
pub struct Text {
    /// Its config.
    pub config: Config,
    /// The driver behind the lines before `race`.
    pub driver: Driver,
    /// Where it was before them.
    pub opened: Spot,
    /// How many lines stand before `race`.
    pub before: usize,
    /// Of each line, what is told of it.
    pub said: Vec<Said>,
}

/// What the text of a driver comes to before it is judged.
#[derive(Drop)]
pub enum Begun {
    /// Lines are wrong, or one before `race` isn't permitted where it stands: that was told.
    Faulted,
    /// Behind a line before `race` something is wrong.
    Leaks {
        /// The number of the line in the text, from 1 on.
        number: u64,
        /// What is told of it.
        wrong: Wrong,
    },
    /// The driver stands behind the lines before `race`, and nothing is wrong behind any of them.
    Stands {
        /// The driver.
        text: Text,
    },
}
