//! The list of calls, one a line: `release NAME`, `done NAME`, `report NAME`, `tick`, or `tick N` for N ticks.
//!
//! A row is told by its name in the table or by its number, so that rows that are not there can be tried. An empty line
//! and one that begins with `#` are passed over. A line that is none of these is told on standard error, and the others
//! are made all the same.
use rules::calls::Call;
use table::name::name_of;
use table::rows::MOST_ROWS;

/// The most ticks that one line may ask for.
const MOST_TICKS: u32 = 1_000_000;

/// The row with this name or number.
fn row_of(text: &[u8], word: &str) -> Option<usize> {
    (0..MOST_ROWS)
        .find(|row| name_of(text, *row) == Some(word.as_bytes()))
        .or_else(|| word.parse::<usize>().ok())
}

/// The call of this name on a row.
fn call_on(name: &str, row: usize) -> Option<Call> {
    match name {
        "release" => Some(Call::Release(row)),
        "done" => Some(Call::Done(row)),
        "report" => Some(Call::Report(row)),
        _ => None,
    }
}

/// So many ticks, at most as many as one line may make.
fn ticks_in(word: &str) -> Option<u32> {
    Some(word.parse::<u32>().ok()?.min(MOST_TICKS))
}

/// The call of a line and how often it is made, if the line is one.
fn call_in(text: &[u8], line: &str) -> Option<(Call, u32)> {
    let mut words = line.split_whitespace();
    let first = words.next()?;
    let second = words.next();
    if words.next().is_some() {
        return None;
    }
    match (first, second) {
        ("tick", None) => Some((Call::Tick, 1)),
        ("tick", Some(word)) => Some((Call::Tick, ticks_in(word)?)),
        (name, Some(word)) => Some((call_on(name, row_of(text, word)?)?, 1)),
        (_, None) => None,
    }
}

/// The calls of all lines, and a report of the first row at the end, which has the clock and the counts.
pub(crate) fn read_calls(rt: &HostRuntime, text: &[u8], lines: &str) -> anyhow::Result<Vec<Call>> {
    let mut calls = Vec::new(rt.alloc());
    for (index, line) in lines.lines().enumerate() {
        let line = line.trim();
        if line.is_empty() || line.starts_with('#') {
            continue;
        }
        match call_in(text, line) {
            Some((call, times)) => {
                // A count and no index, and `repeat_n` would want it as a usize.
                for _ in 0..times {
                    calls.push(call)?;
                }
            }
            None => eprintln!(rt; "line {}: no call: {line}", index.saturating_add(1))?,
        }
    }
    calls.push(Call::Report(0))?;
    Ok(calls)
}
