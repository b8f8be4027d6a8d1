//! The words of the command line.

/// The text that tells how to call the program.
pub const HELP: &str = "\
Measures the calls of a world: a line for each case, with its name, its size and the nanoseconds of one call.

Usage: examples bench [--run] [--csv] [--only PREFIX] [--max N] [--repeat R]

  --run          measures the cases; without it they are only listed
  --csv          prints fields with commas between, below a line of their names
  --only PREFIX  leaves out the cases whose names begin otherwise
  --max N        leaves out the sizes beyond this one
  --repeat R     how often each case is measured, 1 to 1000 times, 5 if left out; the best time counts

It ends with 0, with 1 where a call, a device or memory failed, and with 64 for bad arguments.
";

/// Which cases are meant, and what is to be done with them.
#[derive(Clone, Copy)]
pub struct Choice<'a> {
    /// The cases are measured, not only listed.
    pub is_run: bool,
    /// Lines are fields with commas between, below a line of their names.
    pub is_csv: bool,
    /// The text that tells how to call the program is asked for, and no case.
    pub wants_help: bool,
    /// How the names of the cases begin.
    pub prefix: &'a str,
    /// Larger sizes are left out.
    pub largest: u32,
    /// How often each case is measured; the best time counts. It is measured once at least.
    pub repeat: u32,
}

// What a word of the command line asks for.
#[derive(Clone, Copy)]
enum Asked {
    Run,
    Csv,
    Help,
    Prefix,
    Largest,
    Repeat,
}

// All words that ask for something.
const WORDS: [(&str, Asked); 7] = [
    ("--run", Asked::Run),
    ("--csv", Asked::Csv),
    ("--help", Asked::Help),
    ("-h", Asked::Help),
    ("--only", Asked::Prefix),
    ("--max", Asked::Largest),
    ("--repeat", Asked::Repeat),
];

// What the word asks for.
fn asked_by(word: &str) -> Option<Asked> {
    for (own, asked) in &WORDS {
        if *own == word {
            return Some(*asked);
        }
    }
    None
}

// How often each case is measured.
fn repeat_of(word: &str) -> Option<u32> {
    let repeat = word.parse::<u32>().ok()?;
    if 1 <= repeat && repeat <= 1000 {
        Some(repeat)
    } else {
        None
    }
}

impl<'a> Choice<'a> {
    /// Whether a case of this name is meant at this size.
    pub fn takes(&self, name: &str, size: u32) -> bool {
        name.starts_with(self.prefix) && size <= self.largest
    }

    // Notes what is asked for without a value, and answers what wants one behind it.
    fn note(&mut self, asked: Asked) -> Option<Asked> {
        match asked {
            Asked::Run => self.is_run = true,
            Asked::Csv => self.is_csv = true,
            Asked::Help => self.wants_help = true,
            Asked::Prefix | Asked::Largest | Asked::Repeat => return Some(asked),
        }
        None
    }

    // Takes the value of what is asked for.
    fn take(&mut self, asked: Asked, value: &'a str) -> Option<()> {
        match asked {
            Asked::Prefix => self.prefix = value,
            Asked::Largest => self.largest = value.parse::<u32>().ok()?,
            Asked::Repeat => self.repeat = repeat_of(value)?,
            Asked::Run | Asked::Csv | Asked::Help => return None,
        }
        Some(())
    }
}

/// Reads the words behind the program's name. None is said where they ask for nothing that there is.
pub fn read(words: &[String]) -> Option<Choice<'_>> {
    let mut choice = Choice {
        is_run: false,
        is_csv: false,
        wants_help: false,
        prefix: "",
        largest: 1_000_000,
        repeat: 5,
    };
    let mut waiting = None;
    for word in words {
        let word = word.as_str();
        waiting = match waiting {
            None => choice.note(asked_by(word)?),
            Some(asked) => {
                choice.take(asked, word)?;
                None
            }
        };
    }
    match waiting {
        None => Some(choice),
        Some(_) => None,
    }
}
