// Times the calls of a script: each line counts with its quickest of five rounds.
use crate::fault::Fault;
use crate::session::Session;

const ROUNDS: u8 = 5;

const CALLS: [&str; 11] = [
    "reconcile",
    "set_blocked",
    "want",
    "add_targets",
    "clear_targets",
    "fetch",
    "expire",
    "response",
    "missing",
    "verdict",
    "retain",
];

// Makes the calls of the script once, and keeps the quickest time of each line. Calls that are not there yet are passed
// over.
fn one_round(rt: &HostRuntime, text: &str, quickest: &mut [u64]) -> anyhow::Result<()> {
    let mut session = Session::new(rt, true);
    for (i, (line, least)) in text.lines().zip(quickest.iter_mut()).enumerate() {
        match session.line(line) {
            Ok(_) | Err(Fault::NotYet) => {}
            // Here the error counts lines from 0.
            Err(fault) => return Err(fault.at(i).into()),
        }
        *least = (*least).min(session.spent());
    }
    Ok(())
}

// Prints the call, how often it came, and the mean of its times in nanoseconds.
fn print_call(rt: &HostRuntime, text: &str, quickest: &[u64], call: &str) -> anyhow::Result<()> {
    let (count, total) = text
        .lines()
        .zip(quickest.iter())
        .filter(|(line, least)| line.split_whitespace().next() == Some(call) && **least > 0)
        .fold((0u64, 0u64), |(count, total), (_, least)| {
            (count.saturating_add(1), total.saturating_add(*least))
        });
    if let Some(mean) = total.checked_div(count) {
        println!(rt; "{call} {count} {mean}")?;
    }
    Ok(())
}

// Only the times are kept beside the text: a list of the lines too would take three times the memory.
pub(crate) fn bench(rt: &HostRuntime, text: &str) -> anyhow::Result<()> {
    let mut quickest: Vec<u64> = text.lines().map(|_| u64::MAX).collect(rt.alloc())?;
    for _ in 0..ROUNDS {
        one_round(rt, text, quickest.as_mut_slice())?;
    }
    for call in CALLS {
        print_call(rt, text, quickest.as_slice(), call)?;
    }
    Ok(())
}
