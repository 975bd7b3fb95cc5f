//! The way of an object's bytes: records with digests for each site, what came of each, and the object from those that are
//! whole.
#![tactic(auto)]

ghost use Rattle.gz_data.specs.Laws.{RecordHasDigest, WholePieceIs, WholePiecesGiveObject, PutsCounted, AskedComes, AwaitedIsNew};

mod gathering;
mod making;
mod pieces;
pub mod requests;
mod storing;

pub use gathering::{Came, Gathering, Heard};
pub use making::{Made, make};
pub use pieces::{piece_of, rebuild};
pub use requests::AwaitedBlob;
pub use storing::Storing;

/// Law: the digest that a put's value names for a fragment is the SHA-256 of the record that the put stores.
pub fn record_has_digest()
    ensures { RecordHasDigest }
{}

/// Law: bytes that came for a fragment are whole exactly where they have the digest, begin with the fragment's header, and go
/// on with a piece of the width that the object's pieces have.
pub fn whole_piece_is()
    ensures { WholePieceIs }
{}

/// Law: where each piece came whole, in the put's record or in other bytes of another digest, what is rebuilt from them is the
/// object that the put stored.
pub fn whole_pieces_give_object()
    ensures { WholePiecesGiveObject }
{}

/// Law: the fragments of a call that are awaited, stored and lost are all that it asked to be stored.
pub fn puts_counted()
    ensures { PutsCounted }
{}

/// Law: a blob that a call asked for and of which nothing came is awaited.
pub fn asked_comes()
    ensures { AskedComes }
{}

/// Law: of a blob of which a request is awaited nothing came yet, where each blob is asked for once.
pub fn awaited_is_new()
    ensures { AwaitedIsNew }
{}
