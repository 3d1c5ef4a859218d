//! Jobs on threads of their own.

ghost use Rattle.std.specs.Prelude.{ℕ};
ghost use Rattle.proxy_links.specs.Starting.{Starts};

/// Whether a job was started.
#[derive(Debug, Drop)]
pub enum Started<J> {
    Started,
    /// It wasn't; here it is again.
    Failed(J),
}

/// A way to start jobs, each on a thread of its own. It counts its faults.
pub trait Spawner<J> {
    // which jobs it may be given
    ghost can_start: { Self → J → Type 0 };

    ghost faults: { Self → ℕ };

    /// Starts a job, or hands it back where none can be started.
    fn start(&mut self, job: J) -> Started<J>
        requires { can_start self.old job }
        ensures { Starts result (faults self.old) (faults self.new) };
}

/// Starts each job by a closure, which is made where the runtime is at hand.
#[derive(Drop)]
pub struct StartBy<F> {
    pub start: F,
    pub faults: u64,
}

impl<J, F: Fn(J) -> Started<J>> Spawner<J> for StartBy<F> {
    ghost can_start = { λ s job. F.pre s.start job };

    ghost faults = { λ s. s.faults };

    /// The answer is the closure's.
    fn start(&mut self, job: J) -> Started<J>
        requires { F.pre self.old.start job }
        ensures starts { Starts result self.old.faults self.new.faults }
        ensures answer { F.post self.old.start job result }
    {
        let started = (self.start)(job);
        if let Started::Failed(_) = &started {
            self.faults = self.faults.saturating_add(1);
        }
        started
    }
}
