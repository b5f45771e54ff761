//! How far the work is, on a terminal.

use std::io::IsTerminal;

/// Files up to so many bytes are done before one looks.
const LARGE: u64 = 64 << 20;

/// How far the work is: nothing is told of small files, or where standard error is no terminal.
#[derive(Drop)]
pub struct Progress {
    length: u64,
    is_told: bool,
    percent: u64,
}

impl Progress {
    /// The work on a file of so many bytes, of which nothing is done.
    pub fn new(rt: &HostRuntime, length: u64) -> Progress {
        Progress {
            length,
            is_told: length > LARGE && rt.stderr().is_terminal(),
            percent: 0,
        }
    }

    /// Tells how much is done where so many bytes are left, if that makes another percent or is
    /// all.
    pub fn print_percentage(&mut self, rt: &HostRuntime, left: u64) {
        if !self.is_told {
            return;
        }
        let hundredth = (self.length / 100).max(1);
        let percent = self.length.saturating_sub(left) / hundredth;
        if percent != self.percent || left == 0 {
            self.percent = percent;
            // Whatever is written next stands over it.
            let end = if left == 0 { "\n" } else { "\r" };
            let _told = eprint!(rt; "{percent}%{end}");
        }
    }
}
