// Replaying the slots of a journal: the input of each whole record goes to the station's exported calls, in order.
#![tactic(auto)]

ghost use Rattle.std.specs.Prelude.{◌^◌, ◌≤◌, ◌<◌, length};
ghost use Rattle.journal.specs.Journal.{slot_count};
ghost use Rattle.slot_replay.specs.Fold.{report_length};
ghost use Rattle.slot_replay.specs.Meaning.{Hands, Replays};

use slot_reader::Slot;

// Where a replay ended: whether it was stopped, the records handed over, the place, and how many torn slots are before it. A Result
// would say the same three numbers on both sides.
#[derive(Clone, Copy)]
pub struct Ending {
    pub stopped: bool,
    pub records: u64,
    pub place: usize,
    pub torn: usize,
}

// Hands one input to the station.
fn hand(kind: u64, input: &[u8], store: &mut [u8], out: &mut [u8]) -> u64
    ensures { Hands kind input.now store.old out.old result store.new out.new }
{
    match kind {
        1 => station::station_tick(store, out),
        2 => station::station_offer(store, input, out),
        _ => station::station_step(store, input, out),
    }
}

// Replays a journal from its first slot on, and reports the torn places behind the first 12 bytes.
pub fn replay_slots(journal: &[u8], store: &mut [u8], out: &mut [u8], report: &mut [u8]) -> Ending
    requires { (slot_count journal.now < 2 ^ 32) × (report_length (slot_count journal.now) ≤ length report.old) }
    ensures { Replays journal.now store.old out.old report.old result store.new out.new report.new }
{
    let count = journal.len() / slots::LENGTH;
    let mut records: u64 = 0;
    let mut torn: usize = 0;
    for place in 0..count {
        match journal::judge_at(journal, place) {
            Slot::Blank => {
                return Ending {
                    stopped: false,
                    records,
                    place,
                    torn,
                };
            }
            Slot::Torn => {
                fields::put(report, 12 + 4 * torn, 4, place as u64);
                torn += 1;
            }
            Slot::Bad => {
                return Ending {
                    stopped: true,
                    records,
                    place,
                    torn,
                };
            }
            Slot::Whole {
                sequence,
                kind,
                input,
            } => {
                if sequence != records {
                    return Ending {
                        stopped: true,
                        records,
                        place,
                        torn,
                    };
                }
                let answer = hand(kind, input, store, out);
                if !keeping::is_taken(answer) {
                    return Ending {
                        stopped: true,
                        records,
                        place,
                        torn,
                    };
                }
                records += 1;
            }
        }
    }
    Ending {
        stopped: false,
        records,
        place: count,
        torn,
    }
}
