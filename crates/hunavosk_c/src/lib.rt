// The library as C calls it: libhunavosk.a is made of this crate. It exports the one call of crate
// hunavosk, under its name and with its clauses; include/hunavosk.h declares it.
#![tactic(auto)]

ghost use Rattle.std.specs.Prelude.{◌≡◌};
ghost use Rattle.hunavosk.specs.Calls.{called};

#[unsafe(no_mangle)]
pub extern "C" fn hunavosk_desk<'a>(
    table: &'a [u8],
    schedule: &'a [u8],
    log: &'a mut [u8],
    text: &'a mut [u8],
) -> usize
    ensures count { result ≡ (called table.now schedule.now log.old text.old).count }
    ensures entries { log.new ≡ (called table.now schedule.now log.old text.old).log }
    ensures bytes { text.new ≡ (called table.now schedule.now log.old text.old).text }
{
    hunavosk::hunavosk_desk(table, schedule, log, text)
}
