// Whether a table keeps the rules of the format: what number 11 asks of it. Each array is passed over once.
#![tactic(auto)]

ghost use Rattle.std.specs.Prelude.{cond, ◌≡◌, ℕ, ◌<◌, Bool, ltb, get_or};
ghost use Rattle.laws.specs.Below.{all_below};
ghost use Rattle.soundness.specs.Parts.{task_fits, row_fits, moves_fit};
ghost use Rattle.soundness.specs.Sound.{task_entry_sound, moves_sound, vector_fits, gate_entry_sound, sound_table};

use numbers::GateNo;
use table::Table;

#[tactic(auto, unfolding(crate::specs::Sound::sound_table))]
pub fn sound(table: Table) -> bool
    ensures { result ≡ sound_table table }
{
    let counts = table::count_in(table.tasks) & table::count_in(table.gates);
    counts & (tasks_sound(table) & (moves_sound(table) & gates_sound(table)))
}

// Whether each number below a bound passes a test. Unlike `.all(..)` this goes on past one that fails,
// so that the places of an array are compared side by side. Crate sound_state has the like over places;
// one for both would be public and ask something of its callers.
fn every<F: Fn(usize) -> bool>(bound: usize, passes: F) -> bool
    requires { (i : ℕ) → i < bound → F.pre passes i }
    ensures { (P : ℕ → Bool) → ((i : ℕ) (r : Bool) → i < bound → F.post passes i r → r ≡ P i) → result ≡ all_below bound P }
{
    let mut ok = true;
    for i in 0..bound {
        ok = passes(i) & ok;
    }
    ok
}

fn tasks_sound(table: Table) -> bool
    ensures { result ≡ all_below 16 (task_entry_sound table) }
{
    every(16, |t| {
        task_sound(
            t < usize::from(table.tasks),
            table.states[t],
            table.starts[t],
        )
    })
}

fn task_sound(present: bool, states: u8, start: u8) -> bool
    ensures { result ≡ task_fits present states start }
{
    if present {
        table::count_in(states) & (start < states)
    } else {
        (states == 0) & (start == 0)
    }
}

#[tactic(auto, using(crate::proofs::Rows::moves_by_task))]
fn moves_sound(table: Table) -> bool
    ensures { result ≡ moves_sound table }
{
    every(16, |t| rows_within(&table, t))
}

// The 16 rows of a task, one a state: a row past the task's states is all 0.
fn rows_within(table: &Table, t: usize) -> bool
    requires { t < 16 }
    ensures { result ≡ moves_fit table.now t }
{
    let states = table.states[t];
    let limits = limits(table.gates, states);
    every(16, |x| {
        row_within(&table.moves, t * 16 + x, x < usize::from(states), &limits)
    })
}

// The most that a cell of each gate may hold.
fn limits(gates: u8, most: u8) -> [u8; 16]
    ensures { (g : ℕ) → g < 16 → get_or result g 0 ≡ cond (ltb g gates) most 0 }
{
    std::array::from_fn(|g| limit(g < usize::from(gates), most))
}

// The most that there may be, which is nothing outside. So short that `room_of` of sound_state, its like,
// stays where it is used.
fn limit(inside: bool, most: u8) -> u8
    ensures { result ≡ cond inside most 0 }
{
    if inside { most } else { 0 }
}

// The 16 cells of a task and state, one a gate: none above its limit, and outside all 0.
fn row_within(moves: &[u8; 4096], row: usize, inside: bool, limits: &[u8; 16]) -> bool
    requires { row < 256 }
    ensures { result ≡ row_fits moves.now row inside limits.now }
{
    every(16, |g| moves[row * 16 + g] <= limit(inside, limits[g]))
}

fn gates_sound(table: Table) -> bool
    ensures { result ≡ all_below 16 (gate_entry_sound table) }
{
    every(16, |g| {
        let count = table.vectors[g];
        let few = count <= limit(g < usize::from(table.gates), 8);
        few & vectors_sound(&table.masks, GateNo(g as u8), count, table.tasks)
    })
}

fn vectors_sound(masks: &[u16], gate: GateNo, count: u8, tasks: u8) -> bool
    ensures { result ≡ all_below 8 (vector_fits masks.now gate.0 count tasks) }
{
    every(8, |v| vector_sound(masks, gate, v as u8, count, tasks))
}

fn vector_sound(masks: &[u16], gate: GateNo, v: u8, count: u8, tasks: u8) -> bool
    ensures { result ≡ vector_fits masks.now gate.0 count tasks v }
{
    let mask = table::mask_at(masks, gate, v);
    if v < count {
        (mask != 0) & (sets::all_below(mask, tasks) & table::new_below(masks, gate, v, mask))
    } else {
        mask == 0
    }
}
