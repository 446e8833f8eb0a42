//! What is told behind a run that went well, where its files may not be what was meant. No contract
//! speaks of it.

use crate::end_reason::Task;
use std::io::IsTerminal;

/// Whether the last line of a script says something and lacks its line feed.
fn is_cut(script: &str) -> bool {
    match script.split('\n').last() {
        Some(last) => !(last.is_empty() || last.starts_with('#')),
        None => false,
    }
}

/// Tells that a script may have been cut within its last line, and a person that nothing is kept of
/// a board in memory.
pub(crate) fn tell_notes(rt: &HostRuntime, task: Task<'_>) {
    let path = task.command.script().unwrap_or("the script");
    if is_cut(task.script) {
        let why = "the last line has no line feed; if the file was cut, that line isn't whole";
        let _ = eprintln!(rt; "{path}: {why}");
    }
    if task.image.is_none() && rt.stderr().is_terminal() {
        let why = "names no image: the guests were in memory, and nothing of them is kept";
        let _ = eprintln!(rt; "{}: {why}", task.command.board());
    }
}
