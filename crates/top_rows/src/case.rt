//! Commands, one a line.

/// A command: `graftlab WORD.. < INPUT ! read N write N`. The input is a file, `N empty lines`, or an input that leads
/// to a limit: `a stream past its limit` or `a full journal`. It may be left out, and so may the numbers of the calls,
/// counted from 1, at which the source and the sink fail. The word `*` stands for each of several numbers of workers.
/// A file whose name ends with `.hex` has the octets of the input in hexadecimal.
#[derive(Clone, Copy)]
pub struct Case<'a> {
    pub words: &'a str,
    pub input: &'a str,
    pub read_fails: u32,
    pub write_fails: u32,
}

/// What is printed of a run beside its text.
#[derive(Clone, Copy)]
pub enum Shown {
    Nothing,
    /// The number of prefixes that its remotes were told.
    Told,
    /// The stories, and what each remote received.
    All,
}

/// The limit at which a run ends whose input is made for that.
#[derive(Clone, Copy)]
pub enum Limit {
    Stream,
    Journal,
}

/// The number of a call that is never reached.
const NEVER: u32 = u32::MAX;

/// Returns the number after a word of a text.
fn number_behind(text: &str, word: &str) -> Option<u32> {
    let (_, behind) = text.split_once(word)?;
    let number = behind.split_whitespace().next()?;
    number.parse::<u32>().ok()
}

impl<'a> Case<'a> {
    pub fn of(line: &'a str) -> Case<'a> {
        let (command, faults) = line.split_once(" ! ").unwrap_or((line, ""));
        let (words, input) = command.split_once(" < ").unwrap_or((command, ""));
        Case {
            words,
            input,
            read_fails: number_behind(faults, "read ").unwrap_or(NEVER),
            write_fails: number_behind(faults, "write ").unwrap_or(NEVER),
        }
    }

    /// Returns whether the command is run by each of several numbers of workers.
    pub fn is_by_each(&self) -> bool {
        self.words.ends_with(" *")
    }

    /// Returns what is printed beside the text of its run: all that is seen; for a drill, how much its remotes were
    /// told; or nothing, if that depends on the order of the workers' turns.
    pub fn shown(&self) -> Shown {
        if self.is_by_each() {
            return Shown::Nothing;
        }
        if self.words.contains(" drill ") {
            return Shown::Told;
        }
        Shown::All
    }

    /// Returns the number of empty lines of the input, if it is such an input.
    pub fn empty_lines(&self) -> Option<u32> {
        let number = self.input.strip_suffix(" empty lines")?;
        number.parse::<u32>().ok()
    }

    /// Returns whether the file of the input has its octets in hexadecimal.
    pub fn is_in_hex(&self) -> bool {
        self.input.ends_with(".hex")
    }

    /// Returns the limit to which the input leads, if it is made for one.
    pub fn limit(&self) -> Option<Limit> {
        match self.input {
            "a stream past its limit" => Some(Limit::Stream),
            "a full journal" => Some(Limit::Journal),
            _ => None,
        }
    }

    /// Returns the number of bytes for which the sink has room. A run that ends at a limit has a long text.
    pub fn room(&self) -> usize {
        if self.limit().is_some() {
            4_194_304
        } else {
            4096
        }
    }
}
