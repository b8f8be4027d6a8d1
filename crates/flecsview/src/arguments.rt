//! The words of the command line.

/// What the command line asks for.
#[derive(Clone, Copy)]
pub struct Request<'a> {
    /// The file of the script, or none for standard input.
    pub script: Option<&'a str>,
    /// Whether names are to stand in place of handles.
    pub has_names: bool,
    /// Whether it asks how to call the program.
    pub wants_help: bool,
    /// The file for a picture of the tables.
    pub tables: Option<&'a str>,
    /// The file for one of the pairs.
    pub graph: Option<&'a str>,
    /// The file for one of the batches.
    pub batches: Option<&'a str>,
}

// What the next word is.
#[derive(Clone, Copy)]
enum Next {
    Word,
    Tables,
    Graph,
    Batches,
}

impl<'a> Request<'a> {
    // Takes a word that is no file of a picture.
    fn take_word(&mut self, word: &'a str) -> Option<Next> {
        match word {
            "--names" => self.has_names = true,
            "--help" => self.wants_help = true,
            "--tables" => return Some(Next::Tables),
            "--graph" => return Some(Next::Graph),
            "--batches" => return Some(Next::Batches),
            _ if word.starts_with('-') || self.script.is_some() => return None,
            _ => self.script = Some(word),
        }
        Some(Next::Word)
    }

    // Takes a word, and says what the next one is.
    fn take(&mut self, next: Next, word: &'a str) -> Option<Next> {
        match next {
            Next::Word => return self.take_word(word),
            Next::Tables => self.tables = Some(word),
            Next::Graph => self.graph = Some(word),
            Next::Batches => self.batches = Some(word),
        }
        Some(Next::Word)
    }
}

/// Reads the words behind the program's name. None is said where they ask for nothing that there is.
pub fn read(words: &[String]) -> Option<Request<'_>> {
    let mut request = Request {
        script: None,
        has_names: false,
        wants_help: false,
        tables: None,
        graph: None,
        batches: None,
    };
    let mut next = Next::Word;
    for word in words {
        next = request.take(next, word.as_str())?;
    }
    match next {
        Next::Word => Some(request),
        _ => None,
    }
}
