//! How a program tells its events: each in its turn, to the application or to the pager.
use crate::app::{App, Flow, Neighbour};
use crate::fault::Fault;
use crate::program::Program;
use crate::view::Onward;
use minus::{Event, OutputSink};
use std::io::Read;

impl<A: App, S: OutputSink + Drop, R: Read + Drop> Program<A, S, R> {
    // Tells an event: to the application where it leads to an action of the application's, and else to the pager, as a
    // key that was typed behind another.
    fn tell_one(&mut self, rt: &HostRuntime, event: Event) -> Result<Onward, Fault> {
        let own = if self.view.awaits_key() {
            None
        } else {
            self.own_act(&event)
        };
        let Some(act) = own else {
            return self.view.tell(event);
        };
        self.view.take_count(event)?;
        match self.app.act(act, rt, &mut self.view)? {
            Flow::On => Ok(Onward::On),
            Flow::Ended => Ok(Onward::Ended),
        }
    }

    // Shows another text, as a key asks, or says that there is none.
    fn turn_by_key(&mut self, rt: &HostRuntime, neighbour: Neighbour) -> Result<(), Fault> {
        if self.turn_to(rt, neighbour)? {
            return Ok(());
        }
        let said = String::from_str(rt.alloc(), "no such file (Return)")?;
        self.view.message(said)
    }

    // Whether the launcher can end what is writing the text.
    fn interrupts(&self) -> bool {
        self.app.is_written() && !self.growth.is_whole() && self.sizes.is_there()
    }

    // Whether an event waits until the text was read on as far as a key has asked: not where that may never be, as in
    // what another program is writing. An interrupt never waits, and a key that ends the program only behind another
    // one.
    fn waits_with(&self, event: &Event) -> bool {
        if !self.view.is_reading_on() || self.app.is_written() {
            return false;
        }
        let ends_now = self.pressed.is_empty() && self.view.is_end(event);
        !ends_now && !self.view.is_interrupt(event)
    }

    // Drops the keys that wait, where an event interrupts what goes on.
    fn drop_keys(&mut self, event: &Event) {
        if self.view.is_interrupt(event) {
            self.pressed.clear();
        }
    }

    // Tells events in their order, up to one that ends the session. Answers whether it goes on.
    pub(super) fn tell(&mut self, rt: &HostRuntime, events: &[Event]) -> Result<bool, Fault> {
        for event in events {
            if self.waits_with(event) {
                self.pressed.push(*event)?;
                continue;
            }
            self.drop_keys(event);
            match self.tell_one(rt, *event)? {
                Onward::On => {}
                Onward::Suspended => self.suspend(rt)?,
                Onward::Turns(neighbour) => self.turn_by_key(rt, neighbour)?,
                Onward::EndReached => {
                    if !self.turn_to(rt, Neighbour::Next)? {
                        return Ok(false);
                    }
                }
                Onward::Interrupted if self.interrupts() => rt.eprintln("interrupt")?,
                Onward::Interrupted | Onward::Ended => return Ok(false),
            }
        }
        Ok(true)
    }
}
