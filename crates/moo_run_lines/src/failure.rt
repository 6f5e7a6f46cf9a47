//! How a run of the program fails.

ghost use Rattle.std.specs.Prelude.{◌≡◌};
ghost use Rattle.moo_run_lines.specs.Lines.{word_of, status_of, text_failure, store_failure, dump_failure, service_failure};
ghost use Rattle.moo_run_lines.specs.Lines.{read_failure, load_failure};

use moo_damage::{Key, Kind};
use moo_http::ServiceFault;
use moo_load::{InputFault, LoadFault};
use moo_store::{DumpFault, StoreFault};
use moo_text::TextFault;
use sqlite::{Error, ErrorCode};

/// How a run of the program fails.
#[derive(Clone, Copy)]
pub enum Failure {
    /// The words aren't those of a command, or can't be read.
    Usage,
    /// There is no such file.
    NoFile,
    /// The store failed, or has other tables than ours.
    Store(Error),
    /// The tables, or the lines of a dump, show no world: the kind and the place of the first damage.
    Damaged(Kind, Key),
    /// The tables are those of a later version.
    NewerVersion,
    /// This line of a text, counted from 1, isn't one of a dump.
    NotADump(u64),
    /// There is no such file of batches or dump, or it can't be opened.
    NoBatches,
    /// The reader failed.
    Read,
    /// The writer failed, or took no bytes.
    Write,
    /// The text is longer than 1,073,741,824 bytes.
    TooLong,
    /// The port can't be listened on.
    Port,
    /// Memory ran out.
    OutOfMemory,
}

impl Failure {
    /// The line of the failure, without the kind and the place of a damage. A failure of the writer has no line.
    pub fn word(self) -> &'static str
        ensures { result.now ≡ word_of self }
    {
        match self {
            Failure::Usage => "moo: usage\n",
            Failure::NoFile | Failure::Store(_) => "moo: store fault\n",
            Failure::Damaged(_, _) => "moo: damaged\n",
            Failure::NewerVersion => "moo: newer version\n",
            Failure::NotADump(_) => "moo: not a dump\n",
            Failure::NoBatches | Failure::Read => "moo: read fault\n",
            Failure::Write => "",
            Failure::TooLong => "moo: input too long\n",
            Failure::Port => "moo: cannot listen\n",
            Failure::OutOfMemory => "moo: no memory\n",
        }
    }

    /// The exit status: 1 for the store, a stream, a text that is too long or a port, 2 for usage, 3 for tables that show no world
    /// of this version or a text that isn't a dump, 4 if memory ran out.
    pub fn status(self) -> u8
        ensures { result ≡ status_of self }
    {
        match self {
            Failure::NoFile
            | Failure::Store(_)
            | Failure::NoBatches
            | Failure::Read
            | Failure::Write
            | Failure::TooLong
            | Failure::Port => 1,
            Failure::Usage => 2,
            Failure::Damaged(_, _) | Failure::NewerVersion | Failure::NotADump(_) => 3,
            Failure::OutOfMemory => 4,
        }
    }
}

impl From<TextFault> for Failure {
    ghost from_gives = { λ fault failure. failure ≡ text_failure fault };

    fn from(fault: TextFault) -> Failure {
        match fault {
            TextFault::Read => Failure::Read,
            TextFault::Write => Failure::Write,
            TextFault::OutOfMemory => Failure::OutOfMemory,
            TextFault::Long => Failure::TooLong,
        }
    }
}

impl From<StoreFault> for Failure {
    ghost from_gives = { λ fault failure. failure ≡ store_failure fault };

    fn from(fault: StoreFault) -> Failure {
        match fault {
            StoreFault::Store(error) => Failure::Store(error),
            StoreFault::Damaged(kind, key) => Failure::Damaged(kind, key),
            StoreFault::NewerVersion => Failure::NewerVersion,
            StoreFault::OutOfMemory => Failure::OutOfMemory,
            StoreFault::Closed => Failure::Store(Error::SqliteFailure(ErrorCode::Closed)),
        }
    }
}

impl From<DumpFault> for Failure {
    ghost from_gives = { λ fault failure. failure ≡ dump_failure fault };

    fn from(fault: DumpFault) -> Failure {
        match fault {
            DumpFault::Write => Failure::Write,
            DumpFault::OutOfMemory => Failure::OutOfMemory,
            DumpFault::Closed => Failure::Store(Error::SqliteFailure(ErrorCode::Closed)),
        }
    }
}

impl From<ServiceFault> for Failure {
    ghost from_gives = { λ fault failure. failure ≡ service_failure fault };

    fn from(fault: ServiceFault) -> Failure {
        match fault {
            ServiceFault::Port => Failure::Port,
            ServiceFault::Write => Failure::Write,
            ServiceFault::OutOfMemory => Failure::OutOfMemory,
        }
    }
}

impl From<InputFault> for Failure {
    ghost from_gives = { λ fault failure. failure ≡ read_failure fault };

    fn from(fault: InputFault) -> Failure {
        match fault {
            InputFault::Read => Failure::Read,
            InputFault::TooLong => Failure::TooLong,
            InputFault::OutOfMemory => Failure::OutOfMemory,
        }
    }
}

impl From<LoadFault> for Failure {
    ghost from_gives = { λ fault failure. failure ≡ load_failure fault };

    fn from(fault: LoadFault) -> Failure {
        match fault {
            LoadFault::NotADump(line, _) => Failure::NotADump(line),
            LoadFault::Damaged(kind, key) => Failure::Damaged(kind, key),
            LoadFault::OutOfMemory => Failure::OutOfMemory,
        }
    }
}
