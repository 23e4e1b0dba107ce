// The station of a script: the working one, whose state is the store; or the plain engine, whose state is a list of all inputs.
ghost use Rattle.std.specs.Prelude.{◌≡◌, true};
ghost use Rattle.lent_list.specs.Plain.{left, plain_fresh};

use said::show;
use said::show::Out;
use stored::Store;

// How many inputs the list has room for.
const ROOM: usize = 4000;

// A list for the plain engine.
type List = [u8; lent_list::HEAD + slots::LENGTH * ROOM];

// Beside a list the store is kept of the same inputs, for lines that look at one.
#[derive(Drop)]
pub struct Engine {
    pub store: Store,
    list: List,
    is_plain: bool,
}

// An input, with its bytes.
#[derive(Clone, Copy)]
pub enum Input<'b> {
    Tick,
    Offer(&'b [u8]),
    Message(&'b [u8]),
}

impl Engine {
    // A store and a list of zeros, which are none that are well formed.
    pub fn new(is_plain: bool) -> Engine {
        Engine {
            store: stored::no_store(),
            list: [0; lent_list::HEAD + slots::LENGTH * ROOM],
            is_plain,
        }
    }

    // A fresh store, or a fresh list, whose own answer it is.
    pub fn fresh(&mut self, n: u64, delay: u64, own: u64) -> u64
        ensures { self.old.is_plain ≡ true → left result self.new.list ≡ plain_fresh self.old.list n delay own }
    {
        if !self.is_plain {
            return station::station_fresh(&mut self.store, n, delay, own);
        }
        let answer = fresh_list::plain_fresh(&mut self.list, n, delay, own);
        if answer == 0 {
            station::station_fresh(&mut self.store, n, delay, own);
        }
        answer
    }

    // An input. What the plain engine keeps in its list the store beside it takes too, and nobody sees what it says.
    pub fn take(&mut self, input: Input, out: &mut Out) -> u64 {
        if !self.is_plain {
            return step(&mut self.store, input, out);
        }
        let answer = plain_step(&mut self.list, input, out);
        if keeping::is_taken(answer) {
            let mut unseen = show::out_buffer();
            step(&mut self.store, input, &mut unseen);
        }
        answer
    }

    // Prints the log.
    pub fn log(&self, rt: &impl Print, line: u64) {
        if !self.is_plain {
            stored::log(rt, line, &self.store);
            return;
        }
        let mut out = show::out_buffer();
        let answer = plain::plain_log(&self.list, &mut out);
        let count = answer as usize / stored::NAME;
        stored::names(rt, line, show::refusal(answer), count, &out);
    }
}

// An input of the working station.
fn step(store: &mut Store, input: Input, out: &mut Out) -> u64 {
    match input {
        Input::Tick => station::station_tick(store, out),
        Input::Offer(name) => station::station_offer(store, name, out),
        Input::Message(message) => station::station_step(store, message, out),
    }
}

// The same of the plain engine.
fn plain_step(list: &mut List, input: Input, out: &mut Out) -> u64 {
    match input {
        Input::Tick => plain::plain_tick(list, out),
        Input::Offer(name) => plain::plain_offer(list, name, out),
        Input::Message(message) => plain::plain_step(list, message, out),
    }
}
