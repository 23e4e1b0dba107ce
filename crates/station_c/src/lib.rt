// The calls of include/station.h: what a C program links. Each is the call of that name of the library that has it, with its
// contract.
#![tactic(auto)]

ghost use Rattle.std.specs.Prelude.{◌≡◌};
ghost use Rattle.fresh.specs.Fresh.{answer, freshly};
ghost use Rattle.calls.specs.Calls.{step_called, offer_called, tick_called, Gives};
ghost use Rattle.slots.specs.Slots.{written, putting};
ghost use Rattle.lent_list.specs.Plain.{plain_fresh, plain_step, plain_tick, plain_offer, Gives as Answers, left, plain_log};
ghost use Rattle.display.specs.Called.{display_called};
ghost use Rattle.certified.specs.Called.{certified_called};
ghost use Rattle.choose.specs.Choose.{taken_of};
ghost use Rattle.slip.specs.Slips.{checked};
ghost use Rattle.slip_writer.specs.Called.{write_called};
ghost use Rattle.journal.specs.Journal.{writing as recording};
ghost use Rattle.replay.specs.Replay.{replaying, replayed};
ghost use Rattle.envelope.specs.Reading.{reading};
ghost use Rattle.bundle.specs.Writing.{writing};

// A fresh store, of the length that is lent.
#[unsafe(no_mangle)]
pub extern "C" fn station_fresh(store: &mut [u8], n: u64, d: u64, own: u64) -> u64
    ensures { answer result store.new ≡ freshly store.old n d own }
{
    station::station_fresh(store, n, d, own)
}

// A message whose signatures the host has checked.
#[unsafe(no_mangle)]
pub extern "C" fn station_step(store: &mut [u8], message: &[u8], out: &mut [u8]) -> u64
    ensures { Gives (step_called message.now store.old out.old) result store.new out.new }
{
    station::station_step(store, message, out)
}

// A block name that the station may propose if it is the leader.
#[unsafe(no_mangle)]
pub extern "C" fn station_offer(store: &mut [u8], name: &[u8], out: &mut [u8]) -> u64
    ensures { Gives (offer_called name.now store.old out.old) result store.new out.new }
{
    station::station_offer(store, name, out)
}

// A tick of the clock.
#[unsafe(no_mangle)]
pub extern "C" fn station_tick(store: &mut [u8], out: &mut [u8]) -> u64
    ensures { Gives (tick_called store.old out.old) result store.new out.new }
{
    station::station_tick(store, out)
}

// The wall display.
#[unsafe(no_mangle)]
pub extern "C" fn station_display(store: &[u8], out: &mut [u8]) -> u64
    ensures { Gives (display_called store.now out.old) result store.now out.new }
{
    display::station_display(store, out)
}

// When a block was certified.
#[unsafe(no_mangle)]
pub extern "C" fn station_certified(store: &[u8], view: u64, height: u64, name: &[u8]) -> u64
    ensures { result ≡ certified_called store.now view height name.now }
{
    certified::station_certified(store, view, height, name)
}

// Whose certificate part to take of two status messages.
#[unsafe(no_mangle)]
pub extern "C" fn status_choose(kind: u64, n: u64, first: &[u8], second: &[u8]) -> u64
    ensures { result ≡ taken_of kind n first.now second.now }
{
    choose::status_choose(kind, n, first, second)
}

// The record of an input in one slot.
#[unsafe(no_mangle)]
pub extern "C" fn journal_put(slot: &mut [u8], sequence: u64, kind: u64, input: &[u8]) -> u64
    ensures { written result slot.new ≡ putting slot.old sequence kind input.now }
{
    slot_writer::journal_put(slot, sequence, kind, input)
}

// The record of an input in a journal's first blank slot.
#[unsafe(no_mangle)]
pub extern "C" fn journal_write(journal: &mut [u8], kind: u64, input: &[u8]) -> u64
    ensures { written result journal.new ≡ recording journal.old kind input.now }
{
    journal::journal_write(journal, kind, input)
}

// A journal's inputs handed to the station.
#[unsafe(no_mangle)]
pub extern "C" fn journal_replay(
    journal: &[u8],
    store: &mut [u8],
    out: &mut [u8],
    report: &mut [u8],
) -> u64
    ensures { replayed result store.new out.new report.new ≡ replaying journal.now store.old out.old report.old }
{
    replay::journal_replay(journal, store, out, report)
}

// The places of the messages in an envelope.
#[unsafe(no_mangle)]
pub extern "C" fn envelope_read(envelope: &[u8], list: &mut [u8]) -> u64
    ensures { written result list.new ≡ reading envelope.now list.old }
{
    envelope::envelope_read(envelope, list)
}

// One envelope of the messages at some places.
#[unsafe(no_mangle)]
pub extern "C" fn envelope_write(bytes: &[u8], list: &[u8], out: &mut [u8]) -> u64
    ensures { written result out.new ≡ writing bytes.now list.now out.old }
{
    bundle::envelope_write(bytes, list, out)
}

// The check of a slip.
#[unsafe(no_mangle)]
pub extern "C" fn slip_check(kind: u64, n: u64, slip: &[u8]) -> u64
    ensures { result ≡ checked kind n slip.now }
{
    slip::slip_check(kind, n, slip)
}

// The slip of a logged block.
#[unsafe(no_mangle)]
pub extern "C" fn slip_write(store: &[u8], name: &[u8], out: &mut [u8]) -> u64
    ensures { Gives (write_called store.now name.now out.old) result store.now out.new }
{
    slip_writer::slip_write(store, name, out)
}

// A fresh list of the plain engine, of the length that is lent.
#[unsafe(no_mangle)]
pub extern "C" fn plain_fresh(list: &mut [u8], n: u64, d: u64, own: u64) -> u64
    ensures { left result list.new ≡ plain_fresh list.old n d own }
{
    fresh_list::plain_fresh(list, n, d, own)
}

// The plain engine's answer to a tick.
#[unsafe(no_mangle)]
pub extern "C" fn plain_tick(list: &mut [u8], out: &mut [u8]) -> u64
    ensures { Answers (plain_tick list.old out.old) result list.new out.new }
{
    plain::plain_tick(list, out)
}

// The plain engine's answer to a message.
#[unsafe(no_mangle)]
pub extern "C" fn plain_step(list: &mut [u8], message: &[u8], out: &mut [u8]) -> u64
    ensures { Answers (plain_step message.now list.old out.old) result list.new out.new }
{
    plain::plain_step(list, message, out)
}

// The plain engine's answer to an offered name.
#[unsafe(no_mangle)]
pub extern "C" fn plain_offer(list: &mut [u8], name: &[u8], out: &mut [u8]) -> u64
    ensures { Answers (plain_offer name.now list.old out.old) result list.new out.new }
{
    plain::plain_offer(list, name, out)
}

// The plain engine's log.
#[unsafe(no_mangle)]
pub extern "C" fn plain_log(list: &[u8], out: &mut [u8]) -> u64
    ensures { left result out.new ≡ plain_log list.now out.old }
{
    plain::plain_log(list, out)
}
