// The names that a tick adds to the log, each reported: written by the places of their statements.
#![tactic(auto)]

ghost use Rattle.std.specs.Prelude.{length};
ghost use Rattle.rules.specs.Inputs as inputs;
ghost use Rattle.store.specs.Decode.{state_of};
ghost use Rattle.acts.specs.Works.{Works};
ghost use Rattle.reports.specs.Gains.{grown_log, Enough};

// The log grows by the names of the statements whose places stand in a table, each reported.
pub fn logging(store: &mut [u8], out: &mut [u8], at: usize, gained: &[u16], len: usize) -> usize
    requires { Enough store.old gained.now len at (length out.old) }
    ensures { Works (inputs.logging (grown_log store.old gained.now len) (state_of store.old)) out.old at store.new out.new result }
{
    let logged = store::get_count(store, store::LOG_COUNT);
    let mut next = at;
    for k in logged..len {
        let x = store::statement_at(store, usize::from(gained[k]));
        let name = x.name;
        records::append_name(store, name);
        next = effects::committed(out, next, (k + 1) as u32, name);
    }
    next
}
