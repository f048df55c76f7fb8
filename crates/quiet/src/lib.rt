// Whether nothing is undelivered.
#![tactic(auto)]

ghost use Rattle.std.specs.Prelude.{◌≡◌};
ghost use Rattle.quiet.specs.Quiet.{quiet};
ghost use Rattle.quiet.specs.Parts.{channels_quiet, task_quiet};

use channels::Channel;
use state::{State, Task};

pub fn quiet(s: State) -> bool
    ensures { result ≡ quiet s }
{
    let tasks = s.tasks.iter().all(|p| task_quiet(p));
    let gates = s.gates.iter().all(|k| all_quiet(&k.down));
    tasks & gates
}

fn task_quiet(p: &Task) -> bool
    ensures { result ≡ task_quiet p.now }
{
    all_quiet(&p.up) && all_quiet(&p.across)
}

fn all_quiet<C: Channel, const N: usize>(list: &[C; N]) -> bool
    ensures { result ≡ channels_quiet C.count C.empty N list.now }
{
    list.iter().all(|c| c.count() == 0)
}
