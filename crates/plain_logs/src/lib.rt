// The commit stage of a tick on a station held by value, for the plain engine: the new log, or none, and what of it is reported.
#![tactic(auto)]

ghost use Rattle.std.specs.Prelude.{◌≡◌, suc, ◌+◌, ◌-◌, ◌*◌, ◌<◌, ◌≤◌, length, drop};
ghost use Rattle.rules.specs.Messages.{outgoing};
ghost use Rattle.rules.specs.Inputs as inputs;
ghost use Rattle.outgoing.specs.Wrote.{Says};
ghost use Rattle.plain_words.specs.Places.{Within};
ghost use Rattle.plain_tables.specs.Meaning.{names, room, state, Sized};
ghost use Rattle.plain_chains.specs.Meaning.{Gives};
ghost use Rattle.plain_acts.specs.Works.{Worked};
ghost use Rattle.plain_logs.specs.Parts.{logged};

use plain_acts::Work;
use plain_tables::{Engine, Names};

// "Commit every propose of this view voted for at least 2D+1 ticks ago": the log that the due ones make, or none.
pub fn commits(e: Engine) -> Option<Names>
    requires { (Sized e) × (e.statements.count < room) }
    ensures { Gives result (inputs.commits (state e).statements (inputs.due (state e)) (state e).log) }
{
    let wait = 2 * e.settings.delay + 1;
    let due = plain_orders::due(e.phase, e.view, wait, e.clock, e.statements);
    plain_chains::commits(e.statements, due, e.log)
}

// The names that the log gained, by ascending height: "each reported once".
fn reports(log: Names, from: usize, out: &mut [u8], at: usize) -> usize
    requires { (Within room log.items log.count) × (from ≤ log.count) × (at + 39 * (log.count - from) ≤ length out.old) }
    ensures { Says out.old at (outgoing (inputs.reports (suc from) (drop from (names log)))) out.new result }
{
    let mut next = at;
    for k in from..log.count {
        next = effects::committed(out, next, k as u32 + 1, log.items[k]);
    }
    next
}

// The station with another log.
fn with_log(mut e: Engine, log: Names) -> Engine
    ensures { result ≡ logged log e }
{
    e.log = log;
    e
}

// The new log is kept, and what it gained is reported.
pub fn logging(e: Engine, log: Names, out: &mut [u8], at: usize) -> Work
    requires { (Sized e) × (Within room log.items log.count) × (e.log.count ≤ log.count) × (at + 39 * (log.count - e.log.count) ≤ length out.old) }
    ensures { Worked (inputs.logging (names log) (state e)) out.old at result out.new }
{
    let next = reports(log, e.log.count, out, at);
    let engine = with_log(e, log);
    Work { engine, at: next }
}
