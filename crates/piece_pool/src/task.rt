//! A task for the caller's thread.
ghost use Rattle.std.specs.Prelude.{◌≡◌};

/// A task that the caller's thread runs once.
///
/// The contracts of the thread calls say nothing of what a closure writes through a `&mut` that it
/// captures. So the pool is passed a value of this trait, which returns what it wrote to.
pub(crate) trait Task {
    /// What the task returns.
    type Output;

    /// The task may be run.
    ghost can_run: { Self → Type 0 };

    /// The task may return this.
    ghost run_gives: { Self → Self.Output → Type 0 };

    /// Runs the task.
    fn run(self) -> Self::Output
        requires { can_run self }
        ensures { run_gives self result };
}

/// No task.
#[derive(Clone, Copy)]
pub(crate) struct NoTask;

impl Task for NoTask {
    ghost use Rattle.std.specs.Prelude.{⊤};

    type Output = ();

    ghost can_run = { λ _. ⊤ };

    ghost run_gives = { λ _ _. ⊤ };

    fn run(self) {}
}

/// A borrowed closure. The task returns the reference, so that what it refers to is known afterwards.
#[derive(Drop)]
pub(crate) struct Borrowed<'f, F> {
    pub(crate) f: &'f mut F,
}

impl<'f, F: FnMut() -> T, T> Task for Borrowed<'f, F> {
    ghost use Rattle.std.specs.Prelude.{◌≡◌};

    type Output = (&'f mut F, T);

    ghost can_run = { λ task. F.pre task.f.now };

    ghost run_gives = { λ task r. (r.0.ghost_name ≡ task.f.ghost_name)
        × F.step task.f.now r.1 r.0.now };

    fn run(self) -> (&'f mut F, T) {
        let Borrowed { f } = self;
        let given = f();
        (f, given)
    }
}

/// Does nothing. Using a returned reference ties it to the parameter that it was borrowed from.
pub(crate) fn take_back<T>(reference: &mut T)
    ensures same { reference.new ≡ reference.old }
{}
