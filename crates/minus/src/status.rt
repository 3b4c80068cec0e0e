//! How a session stands.
ghost use Rattle.std.specs.Prelude.{◌≡◌, true, false, [], if◌then◌else◌};
ghost use Rattle.minus_term.specs.Terminal.{cleanup_bytes};
ghost use Rattle.minus.specs.Steps.{cleanup_after};
ghost use Rattle.minus.specs.declared.status.Status.TheVariants as stands;

/// How a session stands.
#[derive(Clone, Copy, Debug, PartialEq, Eq)]
pub(crate) enum Status {
    /// It takes steps.
    Running,
    /// It has exited, and each step is refused.
    Ended,
    /// A write or a flush was refused, and each step is refused.
    Failed,
}

impl Status {
    // Whether it takes steps.
    pub(crate) fn is_running(self) -> bool
        ensures running { result ≡ true → self ≡ stands.Running }
        ensures over { result ≡ false → self ≡ stands.Running → ⊥ }
    {
        match self {
            Status::Running => true,
            Status::Ended | Status::Failed => false,
        }
    }

    // Whether the terminal is still to be cleaned up: not after an exit.
    pub(crate) fn needs_cleanup(self) -> bool
        ensures bytes { (if result then cleanup_bytes else []) ≡ cleanup_after self }
        ensures ended { self ≡ stands.Ended → result ≡ false }
    {
        match self {
            Status::Running | Status::Failed => true,
            Status::Ended => false,
        }
    }
}
