// Schedules that are read, and what follows their firings.
use schedule_text::{
    Moment, Next, Schedule, ScheduleError, print_moment, read_moment, read_schedule,
};
use std::alloc::Global;

fn refused(alloc: Global, error: ScheduleError) -> Option<String> {
    format!(in alloc; "{error}").ok()
}

fn nanos_words(alloc: Global, moment: Moment) -> Option<String> {
    let nanos = moment.nanos();
    format!(in alloc; "{nanos}").ok()
}

/// The nanoseconds since 1970 of a moment, or why it is none.
pub(crate) fn moment(alloc: Global, text: &str) -> Option<String> {
    match read_moment(text) {
        Ok(moment) => nanos_words(alloc, moment),
        Err(error) => refused(alloc, error),
    }
}

/// The first firing of a due text that is read at 0, or why it isn't read.
pub(crate) fn due(alloc: Global, text: &str) -> Option<String> {
    match read_schedule(text, "", "", Moment::from_nanos(0)?) {
        Ok(schedule) => nanos_words(alloc, schedule.first?),
        Err(error) => refused(alloc, error),
    }
}

fn left_words(alloc: Global, left: Option<u32>) -> Option<String> {
    match left {
        None => String::from_str(alloc, "any").ok(),
        Some(left) => format!(in alloc; "{left}").ok(),
    }
}

// `MONTHS NANOS LEFT`; the first two are 0 without a period.
fn period_words(alloc: Global, schedule: Schedule) -> Option<String> {
    let (months, nanos) = match schedule.period {
        None => (0, 0),
        Some(period) => (period.months, period.nanos),
    };
    let left = left_words(alloc, schedule.left)?;
    format!(in alloc; "{months} {nanos} {left}").ok()
}

/// The months, the nanoseconds and the firings of a period, or why it isn't read.
pub(crate) fn period(alloc: Global, text: &str) -> Option<String> {
    match read_schedule("", text, "", Moment::from_nanos(0)?) {
        Ok(schedule) => period_words(alloc, schedule),
        Err(error) => refused(alloc, error),
    }
}

fn first_words(alloc: Global, first: Option<Moment>) -> Option<String> {
    match first {
        None => String::from_str(alloc, "none").ok(),
        Some(moment) => print_moment(alloc, moment).ok(),
    }
}

/// `NOW|DUE|PERIOD|TTL`
pub(crate) fn first(alloc: Global, text: &str) -> Option<String> {
    let (now, rest) = text.split_once('|')?;
    let (due, rest) = rest.split_once('|')?;
    let (period, ttl) = rest.split_once('|')?;
    match read_schedule(due, period, ttl, read_moment(now).ok()?) {
        Ok(schedule) => first_words(alloc, schedule.first),
        Err(error) => refused(alloc, error),
    }
}

fn next_words(alloc: Global, next: Next) -> Option<String> {
    match next {
        Next::At { moment, left } => {
            let moment = print_moment(alloc, moment).ok()?;
            let left = left_words(alloc, left)?;
            format!(in alloc; "{moment} {left}").ok()
        }
        Next::Done => String::from_str(alloc, "done").ok(),
        Next::OutOfRange => String::from_str(alloc, "out of range").ok(),
    }
}

/// `NOW|PERIOD|TTL|MOMENT|AT`
pub(crate) fn advance(alloc: Global, text: &str) -> Option<String> {
    let (now, rest) = text.split_once('|')?;
    let (period, rest) = rest.split_once('|')?;
    let (ttl, rest) = rest.split_once('|')?;
    let (moment, at) = rest.split_once('|')?;
    let schedule = read_schedule("", period, ttl, read_moment(now).ok()?).ok()?;
    let moment = read_moment(moment).ok()?;
    next_words(alloc, schedule.advance(moment, read_moment(at).ok()?))
}

/// The printed moment of so many nanoseconds.
pub(crate) fn print(alloc: Global, text: &str) -> Option<String> {
    let moment = Moment::from_nanos(text.parse::<u128>().ok()?)?;
    print_moment(alloc, moment).ok()
}
