// Replaying a journal: what was lent is looked at, its slots are replayed, and what was read is reported.
#![tactic(auto)]

ghost use Rattle.std.specs.Prelude.{◌≡◌, ◌≤◌, length};
ghost use Rattle.fields.specs.Places.{put};
ghost use Rattle.replay.specs.Replay.{has_lengths, replaying, replayed};

use answer::Refusal;

// Whether what was lent has the lengths for a replay.
fn has_lengths(journal: &[u8], store: &[u8], out: &[u8], report: &[u8]) -> bool
    ensures { result ≡ has_lengths journal.now store.now out.now report.now }
{
    if store::is_whole(store) {
        if out.len() < store::least_out_in(store) {
            return false;
        }
        let count = journal.len() / slots::LENGTH;
        if 4_294_967_295 < count {
            return false;
        }
        return 12 + 4 * count <= report.len();
    }
    false
}

// Writes the first three numbers of a report.
fn write_head(report: &mut [u8], records: u64, place: u64, torn: u64)
    requires { 12 ≤ length report.old }
    ensures { report.new ≡ put (put (put report.old 0 4 records) 4 4 place) 8 4 torn }
{
    fields::put(report, 0, 4, records);
    fields::put(report, 4, 4, place);
    fields::put(report, 8, 4, torn);
}

// Hands the input of each whole record of a journal to the station, and reports what was read.
#[unsafe(no_mangle)]
pub extern "C" fn journal_replay(
    journal: &[u8],
    store: &mut [u8],
    out: &mut [u8],
    report: &mut [u8],
) -> u64
    ensures { replayed result store.new out.new report.new ≡ replaying journal.now store.old out.old report.old }
{
    if has_lengths(journal, store, out, report) {
        if formed::well_formed(store) {
            let end = slot_replay::replay_slots(journal, store, out, report);
            write_head(report, end.records, end.place as u64, end.torn as u64);
            if end.stopped {
                return Refusal::Journal.answer() + end.place as u64;
            }
            return end.records;
        }
        return Refusal::Malformed.answer();
    }
    Refusal::Lengths.answer()
}
