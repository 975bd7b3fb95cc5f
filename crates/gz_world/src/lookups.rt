//! Looking things up in the world, each by its number. None takes memory.
ghost use Rattle.std.specs.Prelude.{◌≡◌, ◌<◌, length, option_copied, slice_get};
ghost use Rattle.gz_world.specs.States.{numbered};

use crate::requests::Request;
use crate::world::{Member, World};
use gz_core::Session;
use gz_site::Site;

/// The element with a number, counted from 1.
pub fn numbered<T>(items: &[T], n: u32) -> Option<&T>
    ensures { option_copied result ≡ numbered items.now n }
{
    if n == 0 {
        None
    } else {
        items.get(n as usize - 1)
    }
}

impl<S: Site> World<S> {
    /// The request with a number.
    pub fn request(&self, n: u32) -> Option<&Request>
        ensures { option_copied result ≡ numbered self.now.net.items n }
    {
        numbered(self.net.as_slice(), n)
    }

    /// The session with a number.
    pub fn member(&self, session: Session) -> Option<&Member>
        ensures { option_copied result ≡ numbered self.now.clients.items session }
    {
        numbered(self.clients.as_slice(), session.number())
    }
}

/// The element at a place.
pub fn item_at<T>(items: &[T], at: usize) -> &T
    requires { at < length items.now }
    ensures { slice_get items.now at ≡ Some result.now }
{
    &items[at]
}
