//! How long a client's turn goes on.
use canary_wire::conversation::Pace;
use std::time::{self, Duration, Instant};

// A turn by the machine's steady clock, from its begin on.
#[derive(Drop)]
pub(crate) struct TimeSlice<'a, R> {
    rt: &'a R,
    begin: Option<Instant>,
    most: Duration,
    answers_queries: bool,
    answers_histories: bool,
}

impl<'a, R: time::Clock> TimeSlice<'a, R> {
    // A turn that begins now and goes on so long at most. If the clock cannot be read, it ends
    // after its first message.
    pub(crate) fn begun(
        rt: &'a R,
        most: Duration,
        answers_queries: bool,
        answers_histories: bool,
    ) -> TimeSlice<'a, R> {
        TimeSlice {
            rt,
            begin: Instant::now(rt).ok(),
            most,
            answers_queries,
            answers_histories,
        }
    }
}

impl<R: time::Clock> Pace for TimeSlice<'_, R> {
    // Whether less than `most` has passed since the begin; false if the clock cannot be read.
    fn goes_on(&mut self) -> bool {
        let Some(begin) = self.begin else {
            return false;
        };
        match begin.elapsed(self.rt) {
            Ok(passed) => passed < self.most,
            Err(_) => false,
        }
    }

    // What was said of queries when the turn began.
    fn answers_queries(&self) -> bool {
        self.answers_queries
    }

    // What was said of histories then.
    fn answers_histories(&self) -> bool {
        self.answers_histories
    }
}
