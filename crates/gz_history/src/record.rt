//! A call as the history keeps it.
use gz_core::{Answer, Call, PutName};

/// A call with the ticks of its beginning and of its answer. It has an answer exactly where it has an end.
#[derive(Debug, PartialEq, Eq)]
pub struct CallRec {
    pub name: PutName,
    pub call: Call,
    pub begin: u32,
    pub end: Option<u32>,
    pub answer: Option<Answer>,
}

impl Drop for CallRec {
    fn drop(self) {
        let CallRec {
            name: _,
            call: _,
            begin: _,
            end: _,
            answer: _,
        } = self;
    }
}
