//! The names of calls as fields.
ghost use Rattle.std.specs.Prelude.{◌≡◌, IfOk};
ghost use Rattle.gz_text.specs.Names.{name_of_pair, name_field};

use crate::cut::parts;
use crate::fields::positive;
use crate::places::pair;
use gz_core::{PutName, Session};
use std::alloc::{AllocError, Global};

/// A name: the number of a session and that of the call within it, with a point between.
pub fn name(alloc: Global, field: &[u8]) -> Result<Option<PutName>, AllocError>
    ensures { IfOk result (λ name. name ≡ name_field field.now) }
{
    let parts = parts(alloc, field, b'.')?;
    match pair(parts.as_slice()) {
        Some((session, seq)) => Ok(name_of(session, seq)),
        None => Ok(None),
    }
}

/// The name of two numbers from 1 on.
fn name_of(session: &[u8], seq: &[u8]) -> Option<PutName>
    ensures { result ≡ name_of_pair (session.now, seq.now) }
{
    let session = positive(session)?;
    let seq = positive(seq)?;
    Some(PutName {
        session: Session(session),
        seq,
    })
}
