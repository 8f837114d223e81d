ghost use Rattle.std.specs.Prelude.{◌≡◌, ◌≢◌, MatchOption};
ghost use Rattle.client_script.specs.Verbs.{text_of};
ghost use Rattle.client_script.specs.declared.verb.Verb.{Verb};

/// What a line begins with.
#[derive(Clone, Copy, Debug)]
pub(crate) enum Verb {
    Initialize,
    Targets,
    Sources,
    Inverse,
    Compile,
    Test,
    Run,
    Clean,
    Reload,
    Cancel,
    Wait,
    Show,
    Shutdown,
    Exit,
}

impl Verb {
    /// The verb that a word spells.
    pub(crate) fn spelled(word: &str) -> Option<Verb>
        ensures { MatchOption result ((verb : Verb) → word.now ≢ text_of verb) (λ verb. word.now ≡ text_of verb) }
    {
        match word {
            "initialize" => Some(Verb::Initialize),
            "targets" => Some(Verb::Targets),
            "sources" => Some(Verb::Sources),
            "inverse" => Some(Verb::Inverse),
            "compile" => Some(Verb::Compile),
            "test" => Some(Verb::Test),
            "run" => Some(Verb::Run),
            "clean" => Some(Verb::Clean),
            "reload" => Some(Verb::Reload),
            "cancel" => Some(Verb::Cancel),
            "wait" => Some(Verb::Wait),
            "show" => Some(Verb::Show),
            "shutdown" => Some(Verb::Shutdown),
            "exit" => Some(Verb::Exit),
            _ => None,
        }
    }
}
