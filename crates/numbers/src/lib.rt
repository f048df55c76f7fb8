// A task's number and a gate's number are types of their own, so that neither goes in the other's place.
#![tactic(auto)]

ghost use Rattle.std.specs.Prelude.{◌≡◌};
ghost use Rattle.numbers.specs.Endpoints.{endpoint_of};

#[derive(Clone, Copy, Debug, PartialEq, Eq, PartialOrd, Ord)]
pub struct TaskNo(pub u8);

#[derive(Clone, Copy, Debug, PartialEq, Eq, PartialOrd, Ord)]
pub struct GateNo(pub u8);

// Who stands at an end of a channel.
#[derive(Clone, Copy, Debug, PartialEq, Eq)]
pub enum Endpoint {
    Task(TaskNo),
    Gate(GateNo),
}

// Endpoints 0 to 15 are tasks and 16 to 31 gates; at one that a line of these counts lacks stands nobody.
pub fn resolve(tasks: u8, gates: u8, end: u8) -> Option<Endpoint>
    ensures { result ≡ endpoint_of tasks gates end }
{
    if end < 16 {
        let task = end;
        if task < tasks {
            return Some(Endpoint::Task(TaskNo(task)));
        }
        return None;
    }
    if end < 32 {
        let gate = end - 16;
        if gate < gates {
            return Some(Endpoint::Gate(GateNo(gate)));
        }
        return None;
    }
    None
}
