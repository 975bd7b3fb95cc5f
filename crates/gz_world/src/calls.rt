//! The records of calls.
ghost use Rattle.std.specs.Prelude.{◌≡◌, ◌+◌, ◌<◌, IfOk, length, slice_get, slice_set, Some, None};
ghost use Rattle.gz_world.specs.States.{end_at};
ghost use Rattle.gz_world.specs.Steps.{answered};
ghost use Rattle.gz_history.specs.declared.record.CallRec.{CallRec};

use gz_core::{Answer, Call};
use gz_history::CallRec;
use std::alloc::AllocError;

/// A copy of a call.
pub fn copy_of_call(call: &Call) -> Result<Call, AllocError>
    ensures { IfOk result (λ copy. copy ≡ call.now) }
{
    call.clone()
}

/// A copy of an answer.
pub fn copy_of_answer(answer: &Option<Answer>) -> Result<Option<Answer>, AllocError>
    ensures { IfOk result (λ copy. copy ≡ answer.now) }
{
    answer.clone()
}

/// The end of a call at a tick, where it has an answer.
pub fn end_at(tick: u32, answer: &Option<Answer>) -> Option<u32>
    ensures { result ≡ end_at tick answer.now }
{
    match answer {
        Some(_) => Some(tick),
        None => None,
    }
}

/// Ends the call of a record at a tick, where it has an answer.
pub fn end_call(calls: &mut Vec<CallRec>, at: usize, tick: u32, answer: Option<Answer>)
    requires { at < length calls.old.items }
    ensures { (c : CallRec) → slice_get calls.old.items at ≡ Some c → calls.new.items ≡ slice_set calls.old.items at (answered tick answer c) }
{
    end_record(&mut calls[at], tick, answer);
}

/// Ends the call of a record at a tick, where it has an answer.
fn end_record(call: &mut CallRec, tick: u32, answer: Option<Answer>)
    ensures { call.new ≡ answered tick answer call.old }
{
    if answer.is_some() {
        call.end = Some(tick);
        call.answer = answer;
    }
}
