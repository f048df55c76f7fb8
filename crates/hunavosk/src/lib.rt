// The call that other programs make: what program desk prints, for a table and a schedule in memory. Crate
// hunavosk_c exports it to C.
#![tactic(auto)]

ghost use Rattle.std.specs.Prelude.{◌≡◌, ltb};
ghost use Rattle.room.specs.Rooms.{room_for};
ghost use Rattle.hunavosk.specs.Calls.{called};

// Gives back how many bytes of text are written, at least one; 0 says that the text's buffer is too
// short, and then neither buffer is changed. include/hunavosk.h says it for C.
#[tactic(auto, using(room::proofs::Room::text_whole), unfolding(crate::specs::Calls::called))]
pub fn hunavosk_desk<'a>(
    table: &'a [u8],
    schedule: &'a [u8],
    log: &'a mut [u8],
    text: &'a mut [u8],
) -> usize
    ensures count { result ≡ (called table.now schedule.now log.old text.old).count }
    ensures entries { log.new ≡ (called table.now schedule.now log.old text.old).log }
    ensures bytes { text.new ≡ (called table.now schedule.now log.old text.old).text }
{
    if is_short(text.len(), log.len()) {
        return 0;
    }
    printed::print(table, schedule, log, text)
}

// Whether a text's buffer has no room for all that can be printed with a log of that length. It
// divides, since a product could be more than a number here holds.
fn is_short(text: usize, log: usize) -> bool
    ensures { result ≡ ltb text (room_for log) }
{
    text < 200 || (text - 200) / 20 < log
}
