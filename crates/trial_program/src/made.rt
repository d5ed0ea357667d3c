//! A script that is put together line by line, and what it is told.

use std::alloc::Global;
use std::process::Abort;

/// What the program tells of the three points as it opens a journal that holds nothing.
pub const OPENING: &str =
    "write field ahu1.damper 20000 ok\nwrite field lamp 0 ok\nwrite field fan 1 ok\n";

/// The lines of a script, and those that it is told.
#[derive(Drop)]
pub struct Made {
    pub asked: String,
    pub output: String,
}

impl Made {
    /// A script without a line, which is told this text as the journal is opened.
    pub fn new(rt: &impl Abort, alloc: Global, opening: &str) -> Made {
        Made {
            asked: String::new(alloc),
            output: String::from_str(alloc, opening).expect(rt, "memory"),
        }
    }

    /// Asks a line, which is to be answered so.
    pub fn put(&mut self, rt: &impl Abort, asked: &str, answer: &str) {
        writeln!(self.asked, "{asked}").expect(rt, "memory");
        writeln!(self.output, "{answer}").expect(rt, "memory");
    }

    /// A transaction that holds a point where it is, and is done at once.
    pub fn finish(&mut self, rt: &impl Abort, alloc: Global, point: &str, value: u32, txn: u32) {
        self.submit(rt, alloc, point, value, txn);
        self.cancel(rt, alloc, txn);
    }

    /// A lease of a second, which is accepted.
    fn submit(&mut self, rt: &impl Abort, alloc: Global, point: &str, value: u32, txn: u32) {
        let asked = format!(in alloc;
            "{{\"op\":\"submit\",\"writes\":[{{\"point\":\"{point}\",\"value\":{value},\"lease\":1000}}]}}"
        ).expect(rt, "memory");
        let answer = format!(in alloc;
            "{{\"ok\":\"accepted\",\"txn\":{txn},\"until\":1000}}"
        ).expect(rt, "memory");
        self.put(rt, asked.as_str(), answer.as_str());
    }

    /// Its end, before any time has passed.
    fn cancel(&mut self, rt: &impl Abort, alloc: Global, txn: u32) {
        let asked = format!(in alloc; "{{\"op\":\"cancel\",\"txn\":{txn}}}").expect(rt, "memory");
        let answer = format!(in alloc; "{{\"ok\":\"cancelled\",\"txn\":{txn},\"at\":0}}").expect(
            rt, "memory",
        );
        self.put(rt, asked.as_str(), answer.as_str());
    }
}
