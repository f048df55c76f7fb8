// A set of tasks is a mask of 16 bits: bit t is task t.
#![tactic(auto)]

ghost use Rattle.std.specs.Prelude.{◌≡◌, ◌≤◌, ◌-◌};
ghost use Rattle.sets.specs.Sets.{member_of, subset_of, all_below_of, union_of, minus_of, with_of, without_of, lowest_of, next_above_of, alone_of, found_of};
ghost use Rattle.sets.specs.Highest.{highest_of, is_highest_of};
ghost use Rattle.laws.specs.Below.{first_from};

use numbers::TaskNo;

pub fn member(set: u16, task: TaskNo) -> bool
    ensures { result ≡ member_of set task.0 }
{
    let t = task.0;
    if t < 16 { (set >> t) % 2 == 1 } else { false }
}

pub fn subset(part: u16, whole: u16) -> bool
    ensures { result ≡ subset_of part whole }
{
    part & whole == part
}

// Whether a set names no task from a number on.
pub fn all_below(set: u16, tasks: u8) -> bool
    ensures { result ≡ all_below_of set tasks }
{
    if tasks < 16 { set >> tasks == 0 } else { true }
}

pub fn union(one: u16, other: u16) -> u16
    ensures { result ≡ union_of one other }
{
    one | other
}

pub fn minus(set: u16, leaving: u16) -> u16
    ensures { result ≡ minus_of set leaving }
{
    set ^ (set & leaving)
}

pub fn with(set: u16, task: TaskNo) -> u16
    ensures { result ≡ with_of set task.0 }
{
    union(set, alone(task))
}

pub fn without(set: u16, task: TaskNo) -> u16
    ensures { result ≡ without_of set task.0 }
{
    minus(set, alone(task))
}

pub fn lowest(set: u16) -> Option<TaskNo>
    ensures { result ≡ lowest_of set }
{
    first_from(set, 0)
}

// The lowest member above a task.
pub fn next_above(set: u16, task: TaskNo) -> Option<TaskNo>
    ensures { result ≡ next_above_of set task.0 }
{
    let t = task.0;
    if t < 16 { first_from(set, t + 1) } else { None }
}

pub fn highest(set: u16) -> Option<TaskNo>
    ensures { result ≡ highest_of set }
{
    for t in (0..16).rev() {
        if (set >> t) % 2 == 1 {
            return Some(TaskNo(t));
        }
    }
    None
}

// Whether a task is the set's highest.
pub fn is_highest(set: u16, task: TaskNo) -> bool
    ensures { result ≡ is_highest_of set task.0 }
{
    highest(set) == Some(task)
}

// The set of one task.
fn alone(task: TaskNo) -> u16
    ensures { result ≡ alone_of task.0 }
{
    let t = task.0;
    if t < 16 { 1 << t } else { 0 }
}

// The first member from a number on.
fn first_from(set: u16, from: u8) -> Option<TaskNo>
    requires { from ≤ 16 }
    ensures { result ≡ found_of (first_from from (16 - from) (member_of set)) }
{
    for t in from..16 {
        if (set >> t) % 2 == 1 {
            return Some(TaskNo(t));
        }
    }
    None
}
