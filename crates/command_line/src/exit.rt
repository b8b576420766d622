ghost use Rattle.std.specs.Prelude.{◌≡◌};

/// How the program ends.
#[derive(Clone, Copy)]
pub enum Exit {
    /// The program has done everything that was asked.
    Done,
    /// A device failed, the script was too long, or memory ran out.
    Failed,
    /// The words of the command line are wrong.
    WrongWords,
    /// A line of the script was not understood.
    NotUnderstood,
    /// No list of events explains the stores that were audited.
    Unexplained,
}

impl Exit {
    /// The exit status: 0 for `Done`, 1 for `Failed`, 2 for `WrongWords`, 3 for `NotUnderstood`, 4 for `Unexplained`.
    pub fn status(self) -> u8
        ensures done { self ≡ Exit.Done → result ≡ 0 }
        ensures failed { self ≡ Exit.Failed → result ≡ 1 }
        ensures wrong_words { self ≡ Exit.WrongWords → result ≡ 2 }
        ensures not_understood { self ≡ Exit.NotUnderstood → result ≡ 3 }
        ensures unexplained { self ≡ Exit.Unexplained → result ≡ 4 }
    {
        match self {
            Exit::Done => 0,
            Exit::Failed => 1,
            Exit::WrongWords => 2,
            Exit::NotUnderstood => 3,
            Exit::Unexplained => 4,
        }
    }
}
