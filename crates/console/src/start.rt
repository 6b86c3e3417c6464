// Reads the words after the program's name.
ghost use Rattle.std.specs.Prelude.{◌≡◌, string_bytes};
ghost use Rattle.std.specs.Result.{result_map_both};
ghost use Rattle.console.specs.Chosen.{asked};
ghost use Rattle.console.specs.Options.{after_depot, dashed, nothing_asked, with_word};

use crate::kinds::Kind;
use depot::by_name;

// What they ask for: the help, clock times beside seconds, a depot's file, and its roads.
#[derive(Debug, Drop)]
pub struct Options {
    pub help: bool,
    pub times: bool,
    pub depot: Option<String>,
    pub kind: Option<Kind>,
}

fn is_dashed(word: &str) -> bool
    ensures { result ≡ dashed word.now }
{
    matches!(word.as_bytes(), [b'-', ..])
}

impl Options {
    pub fn new() -> Options
        ensures { asked result ≡ nothing_asked }
    {
        Options {
            help: false,
            times: false,
            depot: None,
            kind: None,
        }
    }

    // The same with one word more, or the word where it is not understood.
    pub fn with(self, word: String) -> Result<Options, String>
        ensures { result_map_both asked string_bytes result ≡ with_word (asked self) (string_bytes word) }
    {
        let mut options = self;
        if word.as_str() == "--help" {
            options.help = true;
        } else if word.as_str() == "--times" {
            options.times = true;
        } else if is_dashed(word.as_str()) {
            return Err(word);
        } else if options.depot.is_none() {
            options.depot = Some(word);
        } else {
            return options.with_kind(word);
        }
        Ok(options)
    }

    fn with_kind(self, word: String) -> Result<Options, String>
        ensures { result_map_both asked string_bytes result ≡ after_depot (asked self) (string_bytes word) self.kind }
    {
        if self.kind.is_some() {
            return Err(word);
        }
        let Some(kind) = by_name(word.as_bytes()) else {
            return Err(word);
        };
        let mut options = self;
        options.kind = Some(kind);
        Ok(options)
    }
}
