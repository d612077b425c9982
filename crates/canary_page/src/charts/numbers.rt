//! Numbers that a chart shows.

/// From the least number to the greatest.
#[derive(Clone, Copy)]
pub(crate) struct Span {
    pub(crate) low: i64,
    pub(crate) high: i64,
}

impl Span {
    // Wide enough for this number, too.
    pub(crate) fn with(span: Option<Span>, number: i64) -> Span {
        match span {
            Some(span) => Span {
                low: span.low.min(number),
                high: span.high.max(number),
            },
            None => Span {
                low: number,
                high: number,
            },
        }
    }

    // How far below its greatest number this one is, if the whole span is so long; half of it if it
    // has one number alone.
    pub(crate) fn below(self, number: i64, length: u64) -> u64 {
        let whole = self.high.abs_diff(self.low);
        if whole == 0 {
            return length / 2;
        }
        part(self.high.abs_diff(number), whole, length)
    }
}

// As much of a length as this is of the whole. Great numbers are shortened first, so that the
// product fits.
pub(crate) fn part(some: u64, whole: u64, length: u64) -> u64 {
    let (some, whole) = shortened(some, whole);
    some.saturating_mul(length)
        .checked_div(whole)
        .unwrap_or(0)
        .min(length)
}

// Both numbers, divided by 10^9 if the second is above 10^12, which hardly changes their ratio.
fn shortened(some: u64, whole: u64) -> (u64, u64) {
    if whole > 1_000_000_000_000 {
        (some / 1_000_000_000, whole / 1_000_000_000)
    } else {
        (some, whole)
    }
}
