//! What texts are read as, by rows that Python's fractions gave; and what is shown of numbers.
use crate::rows::{check, cut, is_right};
use canary_decimal::reading::{Reading, read};
use canary_decimal::shown::{Shown, Units};
use std::alloc::Global;

// A text, its multiple of 10^-6, and its constant; `-` stands for none.
const ROWS: &str = "\
0 0 0
-0 0 0
0.95 950000 950000
0.9532146 953214 -
1e-05 10 10
-0.0000001 -1 -
0.0000001 1 -
0.9500000000000000001 950001 -
-0.9500000000000000001 -950001 -
1 1000000 1000000
12.5 12500000 12500000
1e21 9223372036854775803 -
-1e300 -9223372036854775803 -
9223372036854.775803 9223372036854775803 -
9223372036854.775804 9223372036854775803 -
0.95000009 950001 -
0.9500005 950001 -
0.95e2 95000000 95000000
95E-2 950000 950000
1.5e+3 1500000000 1500000000
000.5 500000 500000
123456789012345678901234567890e-24 123456789012 -
0.999999999999999999999 999999 -
-41.0000001 -41000001 -
300.0 300000000 300000000
-0.05 -50000 -50000
95 95000000 95000000
0.9999999 999999 -
0.99999 999990 999990
1e-5 10 10
1e-6 1 -
922337203685.4775 922337203685477500 922337203685477500
922337203685.47759 922337203685477590 922337203685477590
9223372036854.77 9223372036854770000 9223372036854770000
9223372036854.8 9223372036854775803 -
1e13 9223372036854775803 -
-1.5e2 -150000000 -150000000
1e0000 1000000 1000000
1e9999 9223372036854775803 -
0e9999 0 0
1e-9999 1 -
5.0e-0007 1 -
- - -
.5 - -
5. - -
+1 - -
1e - -
1e12345 - -
1e00001 - -
1_000 - -
0x1F - -
nan - -
-- - -
--1 - -
1.2.3 - -
1e5e5 - -
e5 - -
Infinity - -
-NaN - -
+inf - -
1e+ - -
1e-+5 - -
-.5 - -
1.e5 - -
NaN1 - -
";

// The multiple of 10^-6 for a text, and its constant; none if memory was refused.
fn said(alloc: Global, text: &str) -> Option<(Option<i64>, Option<i64>)> {
    match read(alloc, text).ok()? {
        Some(Reading::Number(decimal)) => Some((
            Some(decimal.to_multiple(6)),
            decimal.to_constant(6),
        )),
        _ => Some((None, None)),
    }
}

// The number that a word of a row is.
fn number(word: &str) -> Option<i64> {
    word.parse::<i64>().ok()
}

// Whether a row holds; none if memory was refused.
fn holds(alloc: Global, row: &str) -> Option<bool> {
    let (text, told) = cut(row, ' ');
    let (multiple, constant) = cut(told, ' ');
    let (has_multiple, has_constant) = said(alloc, text)?;
    Some(has_multiple == number(multiple) && has_constant == number(constant))
}

// Texts that are no decimal, each after the number of what it says.
const WORDS: &str = "\
1 NaN
2 Inf
2 +Inf
3 -Inf
0 ";

// What a text says that is no decimal; none if memory was refused.
fn word_of(alloc: Global, text: &str) -> Option<i64> {
    match read(alloc, text).ok()? {
        Some(Reading::NotANumber) => Some(1),
        Some(Reading::Infinite) => Some(2),
        Some(Reading::MinusInfinite) => Some(3),
        _ => Some(0),
    }
}

fn says(alloc: Global, row: &str) -> Option<bool> {
    let (word, text) = cut(row, ' ');
    Some(word_of(alloc, text) == number(word))
}

// A label, a place of a list or `-`, and a number that is reported there; then the name and text
// that people read.
const SHOWN: &str = "\
success-rate.e6f - 953215 success-rate 0.953215
rate.e6 - 950000 rate 0.95
rate.e6 - 1000000 rate 1
rate.e6 - 10000000 rate 10
rate.e6 - -500 rate -0.0005
rate.e6 - 0 rate 0
rate.e6 - 1 rate 0.000001
rate.e6 - -1 rate -0.000001
rate.e6 - -2500000 rate -2.5
rate.e6 - 9223372036854775807 rate 9223372036854.775807
rate.e6 - -9223372036854775808 rate -9223372036854.775808
rate.e6n - -9223372036854775808 rate NaN
rate.e6nf - -9223372036854775808 rate NaN
rate.e6n - -9223372036854775807 rate -9223372036854.775807
rate.e6i - -9223372036854775808 rate NaN
rate.e6i - -9223372036854775807 rate -Inf
rate.e6i - 9223372036854775807 rate +Inf
rate.e6i - -9223372036854775806 rate -9223372036854.775806
rate.e6s - -9223372036854775808 rate NaN
rate.e6s - -9223372036854775807 rate -Inf
rate.e6s - -9223372036854775806 rate null
rate.e6s - 9223372036854775807 rate +Inf
rate.e6s - 9223372036854775803 rate 9223372036854.775803
rate.e6s - 950000 rate 0.95
rate.e18sp2 1 -9223372036854775806 rate null
size.e6sl1 0 9223372036854775807 size 9223372036854775807
size.e6sl1 1 9223372036854775807 size +Inf
rate.e6n - 9223372036854775807 rate 9223372036854.775807
rate.e6si - 12 rate.e6si 12
rate.e6t - -9223372036854775808 rate NaN
rate.e6t - -9223372036854775807 rate -9223372036854.775807
rate.e6t - 9223372036854775803 rate 9223372036854.775803
rate.e6w - -9223372036854775808 rate -9223372036854.775808
pair.e6tp2 1 960000 pair 0.96
size.e6wl1 0 2 size 2
rate.e6tw - 12 rate.e6tw 12
rate.e6wn - 12 rate.e6wn 12
rate.e6fs - 12 rate.e6fs 12
rate.e9 - 1500000000 rate 1.5
rate.e10 - 1 rate 0.0000000001
rate.e18 - 9223372036854775807 rate 9.223372036854775807
rate.e18 - -1 rate -0.000000000000000001
pair.e6p2 0 1500000 pair 1.5
pair.e6p2 1 -250000 pair -0.25
many.e6p16 15 7000000 many 7
size.e6l1 0 3 size 3
size.e6l1 1 250000 size 0.25
size.e6l0 0 12 size 12
size.e6nl1 0 -9223372036854775808 size -9223372036854775808
size.e6nl1 1 -9223372036854775808 size NaN
a.b.e6 - 5000 a.b 0.005
a.e6.e7 - 5 a.e6 0.0000005
errors - 12 errors 12
errors - -9223372036854775808 errors -9223372036854775808
rate.e5 - 12 rate.e5 12
rate.e19 - 12 rate.e19 12
rate.e06 - 12 rate.e06 12
rate.e60 - 12 rate.e60 12
rate.e1 - 12 rate.e1 12
rate.e - 12 rate.e 12
rate.e6x - 12 rate.e6x 12
rate.e6fn - 12 rate.e6fn 12
rate.e6nn - 12 rate.e6nn 12
rate.e6p - 12 rate.e6p 12
rate.e6px - 12 rate.e6px 12
rate.e6lf - 12 rate.e6lf 12
rate.e6f1 - 12 rate.e6f1 12
rate.E6 - 12 rate.E6 12
rate-e6 - 12 rate-e6 12
rate.e6. - 12 rate.e6. 12
.e6 - 12 .e6 12
";

// Whether a row of labels holds.
fn shows(row: &str) -> bool {
    let (label, told) = cut(row, ' ');
    let (place, told) = cut(told, ' ');
    let (reported, told) = cut(told, ' ');
    let (name, text) = cut(told, ' ');
    let shown = Shown::or_whole(label);
    shown.name == name && is_shown(shown.units, place, reported, text)
}

fn is_shown(units: Units, place: &str, reported: &str, text: &str) -> bool {
    let Some(reported) = number(reported) else {
        return false;
    };
    units.text(place.parse::<u64>().ok(), reported).as_str() == text
}

#[test]
fn rows(rt: HostRuntime) {
    let alloc = rt.alloc();
    for row in ROWS.lines() {
        check(&rt, is_right(holds(alloc, row), holds(alloc, row)), row);
    }
    for row in SHOWN.lines() {
        check(&rt, shows(row), row);
    }
    for row in WORDS.lines() {
        check(&rt, is_right(says(alloc, row), says(alloc, row)), row);
    }
}
