//! How many bytes the world counts for what it holds. Counts stand still at 2^64-1. Takes no memory.
ghost use Rattle.std.specs.Prelude.{◌≡◌};
ghost use Rattle.gz_world.specs.Weights.{capped, row_weight, op_weight, reply_weight, outs_weight, call_bytes};

use gz_core::{Call, Op, Out, Reply, Row};

/// A row: 16, and 64 for each column.
pub fn row_weight(row: &Row) -> u64
    ensures { result ≡ capped (row_weight row.now) }
{
    (row.columns().len() as u64)
        .saturating_mul(64)
        .saturating_add(16)
}

/// A request: 64, and the row or the blob that it writes.
pub fn op_weight(op: &Op) -> u64
    ensures { result ≡ capped (op_weight op.now) }
{
    match op {
        Op::WriteRow { row, .. } => row_weight(row).saturating_add(64),
        Op::PutBlob { bytes, .. } => (bytes.len() as u64).saturating_add(64),
        _ => 64,
    }
}

/// A reply: 64, and the row or the blob that it shows.
pub fn reply_weight(reply: &Reply) -> u64
    ensures { result ≡ capped (reply_weight reply.now) }
{
    match reply {
        Reply::Row { row, .. } => row_weight(row).saturating_add(64),
        Reply::Blob { bytes } => (bytes.len() as u64).saturating_add(64),
        _ => 64,
    }
}

/// The requests that are sent at one event.
pub fn outs_weight(outs: &[Out]) -> u64
    ensures { result ≡ capped (outs_weight outs.now) }
{
    let mut weight: u64 = 0;
    for out in outs {
        weight = weight.saturating_add(op_weight(&out.op));
    }
    weight
}

/// The bytes that a call brings.
pub fn call_bytes(call: &Call) -> u64
    ensures { result ≡ call_bytes call.now }
{
    match call {
        Call::Put { bytes, .. } => bytes.len() as u64,
        _ => 0,
    }
}
