//! The outcomes of the top call.
ghost use Rattle.std.specs.Prelude.{◌≡◌};
ghost use Rattle.top_call.specs.Outcomes.{status_of};

use scan_history::HistoryFault;
use session_rules::Ends;
use session_script::ScriptFault;
use sky_rules::SkyFault;
use table_rules::LoadFault;

/// One of the texts of a command, in the order in which they are fetched; a journal is the only text of its command.
#[derive(Clone, Copy, Debug, PartialEq, Eq)]
pub enum Which {
    Sky,
    Catalogue,
    Sources,
    Script,
    Journal,
}

/// The outcome of the top call.
#[derive(Drop)]
pub enum Outcome {
    /// All was written and sent. If queries were run, there is an end for each.
    Done { ends: Ends },
    /// The arguments are no command.
    Usage,
    /// The sky plan is not accepted; its first fault.
    BadSky { fault: SkyFault },
    /// The catalogue is not accepted; its first fault.
    BadCatalogue { fault: LoadFault },
    /// The source table is not accepted; its first fault.
    BadSources { fault: LoadFault },
    /// The script is not accepted; its first fault.
    BadScript { fault: ScriptFault },
    /// A text is longer than its limit.
    TooLong { which: Which },
    /// A text could not be fetched.
    ShelfFault { which: Which },
    /// The output failed, and a prefix of it may have been written.
    SinkFault { ends: Ends },
    /// An allocation failed, and nothing was written.
    Memory,
    /// The journal is not accepted; its first fault.
    BadJournal { fault: HistoryFault },
}

/// Returns the exit status. Does not allocate.
pub fn status(outcome: &Outcome) -> u8
    ensures { result ≡ status_of outcome.now }
{
    match outcome {
        Outcome::Done { .. } => 0,
        Outcome::Usage => 2,
        Outcome::BadSky { .. } => 3,
        Outcome::BadCatalogue { .. } => 4,
        Outcome::BadScript { .. } => 5,
        Outcome::TooLong { .. } => 6,
        Outcome::ShelfFault { .. } => 7,
        Outcome::SinkFault { .. } => 8,
        Outcome::Memory => 9,
        Outcome::BadSources { .. } => 11,
        Outcome::BadJournal { .. } => 12,
    }
}
