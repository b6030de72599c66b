// How long the calls take.
use std::time::Instant;

// A clock that runs only while a call does.
#[derive(Drop)]
pub(crate) struct Watch<'a> {
    rt: &'a HostRuntime,
    spent: u64,
}

impl<'a> Watch<'a> {
    pub(crate) fn new(rt: &'a HostRuntime) -> Watch<'a> {
        Watch { rt, spent: 0 }
    }

    // Makes a call, and keeps the nanoseconds that it took.
    pub(crate) fn time<T, F: FnOnce() -> T>(&mut self, call: F) -> T
        requires { F.IsAlwaysCallable call }
    {
        let began = Instant::now(self.rt);
        let answer = call();
        if let Ok(began) = began {
            self.keep(began);
        }
        answer
    }

    fn keep(&mut self, began: Instant) {
        if let Ok(time) = began.elapsed(self.rt) {
            self.spent = u64::try_from(time.as_nanos()).unwrap_or(u64::MAX);
        }
    }

    // The nanoseconds of the last call, once.
    pub(crate) fn take(&mut self) -> u64 {
        std::mem::take(&mut self.spent)
    }
}
