//! Jobs: what a command asks for.

ghost use Rattle.std.specs.Prelude.{◌≡◌};
ghost use Rattle.lab_words.specs.Asked.{usage_text, version_text};

use bgp_types::Prefix;
use graft_edge::Name;
use thiserror::Error;

/// The form in which a job writes what it has to say.
#[derive(Clone, Copy, Debug, PartialEq, Eq)]
pub enum Form {
    /// As lines of text.
    Plain,
    /// As one JSON object.
    Json,
}

/// What is to be done. A seed is 1 to 9,999, and a run has 1 to 8 workers.
#[derive(Debug, Drop)]
pub enum Job {
    /// Run the laboratory of the source, and write its report.
    Run {
        workers: usize,
        form: Form,
    },
    /// Say whether the source is the input of a laboratory.
    Check {
        form: Form,
    },
    /// Write the laboratory of a seed.
    Make {
        seed: u32,
    },
    /// Run the laboratory of a seed, and write its summary.
    Drill {
        seed: u32,
        workers: usize,
        form: Form,
    },
    /// Run the laboratory of the source, and write the input followed by its journal.
    Journal {
        workers: usize,
    },
    /// Say whether the source is a journal that some run of its laboratory has.
    Audit,
    /// Run the laboratory of the source, and write what taps at the links of its remotes see, as a pcap file.
    Capture {
        workers: usize,
    },
    /// Write the laboratory of the sessions in the capture of the source; the home side is at this address, or without it at port 179.
    Import {
        home: Option<u32>,
    },
    /// Run the laboratory of the source, and write its events round by round.
    Timeline {
        workers: usize,
        form: Form,
    },
    /// Run the laboratory of the source, and write all that there is at its end.
    Show {
        workers: usize,
        form: Form,
    },
    /// Run the laboratory of the source, and write the session of this peering message by message.
    Story {
        peering: Name,
        workers: usize,
    },
    /// Run the laboratory of the source, and write why this router chose the route that it has to a prefix.
    Why {
        router: Name,
        prefix: Prefix,
        workers: usize,
        form: Form,
    },
    /// Run the laboratory of the source, and write a picture of it.
    Picture {
        workers: usize,
    },
    /// Run the laboratory of the source, and write which of its expectations hold.
    Test {
        workers: usize,
        form: Form,
    },
    /// Write the usage line.
    Help,
    /// Write the version of the program.
    Version,
}

/// The reason why the words give no job.
#[derive(Clone, Copy, Debug, PartialEq, Eq, Error)]
pub enum WordStop {
    /// The words are no command of the program.
    #[error("usage")]
    Usage,
    #[error("no memory")]
    NoMemory,
}

/// The usage line of the program.
pub const USAGE_TEXT: &str =
    "usage: graftlab run|check|make N|drill N|journal|audit|capture|import [HOME]\
     |show|timeline|why ROUTER PREFIX|story PEERING|picture|test [--workers W] [--json]\n";

/// The version line of the program.
pub const VERSION_TEXT: &str = "graftlab 0.1.0\n";

/// Law: the usage line is that of the definition.
pub fn usage_is_as_told()
    ensures { USAGE_TEXT.now ≡ usage_text }
{}

/// Law: the version line is that of the definition.
pub fn version_is_as_told()
    ensures { VERSION_TEXT.now ≡ version_text }
{}
