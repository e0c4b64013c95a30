// The lines of the script.
use crate::commands::{Command, Unread, read_command};
use std::alloc::{AllocError, Global};
use std::io::{BufRead, BufReader, Lines, Stdin};

#[derive(Drop)]
pub struct Script {
    lines: Lines<BufReader<Stdin>>,
    number: u64,
}

// A line's number, from 1, and its command; none where it is no command.
#[derive(Drop)]
pub struct Line {
    pub number: u64,
    pub command: Option<Command>,
}

impl Script {
    pub fn new(rt: &HostRuntime) -> anyhow::Result<Script> {
        let heap = rt.alloc();
        let lines = BufReader::new(heap, rt.stdin())?.lines(heap);
        Ok(Script { lines, number: 0 })
    }

    pub fn next_line(&mut self, heap: Global) -> anyhow::Result<Option<Line>> {
        let Some(text) = self.lines.next() else {
            return Ok(None);
        };
        self.number = self.number.saturating_add(1);
        let command = match read_command(heap, text?.as_str()) {
            Ok(command) => Some(command),
            Err(Unread::BadCommand) => None,
            Err(Unread::NoMemory) => return Err(AllocError.into()),
        };
        Ok(Some(Line {
            number: self.number,
            command,
        }))
    }
}
