//! Jobs on threads.

ghost use Rattle.std.specs.Prelude.{⊤};
ghost use Rattle.tcp_links.specs.Starting.{GivesBack};

use proxy_links::Started;
use std::thread::{Builder, Promise, Threads};

/// Of the end of a job nothing is promised.
#[derive(Clone, Copy)]
struct AnyEnd;

impl Promise<()> for AnyEnd {
    ghost kept_by = { λ _ _. ⊤ };
}

/// Starts a job on a thread of its own with so many bytes of stack, or hands it back where there is none.
pub fn start_on_thread<R: Threads, J: FnOnce() + Send + 'static>(
    rt: &R,
    stack_len: usize,
    job: J,
) -> Started<J>
    requires { J.pre job }
    ensures { GivesBack result job }
{
    match Builder::new()
        .stack_size(stack_len)
        .spawn_with(rt, AnyEnd, job)
    {
        Ok(_) => Started::Started,
        Err(refused) => Started::Failed(refused.value),
    }
}
