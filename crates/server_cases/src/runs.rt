// Answers to cases of one number after another: equal ones are told once.
use case_texts::add;
use std::alloc::Global;

/// Cases with equal answers, one after another.
#[derive(Drop)]
pub(crate) struct Run {
    first: u64,
    last: u64,
    told: String,
}

fn add_run(alloc: Global, run: &Run, text: &mut String) -> Option<()> {
    let (first, last) = (run.first, run.last);
    let numbers = if first == last {
        format!(in alloc; "{{{first}: ")
    } else {
        format!(in alloc; "{{{first}-{last}: ")
    };
    add(numbers.ok()?.as_str(), text)?;
    add(run.told.as_str(), text)?;
    add("}", text)
}

/// Notes the answer to the next case. The answers before it are appended if it is another one.
pub(crate) fn note(
    alloc: Global,
    run: &mut Option<Run>,
    number: u64,
    told: String,
    text: &mut String,
) -> Option<()> {
    if let Some(before) = run {
        if before.told.as_str() == told.as_str() {
            before.last = number;
            return Some(());
        }
        add_run(alloc, before, text)?;
    }
    *run = Some(Run {
        first: number,
        last: number,
        told,
    });
    Some(())
}

/// Appends the answers that were noted last.
pub(crate) fn add_last(alloc: Global, run: &Option<Run>, text: &mut String) -> Option<()> {
    match run {
        Some(run) => add_run(alloc, run, text),
        None => Some(()),
    }
}
