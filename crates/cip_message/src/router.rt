//! The trait of what executes router requests. Both ends of a connection are written over it.
ghost use Rattle.std.specs.Prelude.{◌≡◌, ℕ, List, ◌≤◌, length};
ghost use Rattle.cip_message.specs.Router.{general_status, REPLY_TOO_LARGE};

use arrayvec::ArrayVec;
use cip_bytes::protocol::REPLY_LIMIT;

/// The bytes of one router reply, at most `REPLY_LIMIT`.
pub type ReplyBuf = ArrayVec<u8, REPLY_LIMIT>;

/// What executes router requests (Volume 1, Message Router).
///
/// A router names its meaning by two functions of its state, the maximum size of the reply, and the request:
/// `after` is its state afterwards, and `answer` is the reply. So a contract over a router can say what was
/// executed, and how often, whatever the router is. A router keeps one law, `too_large`. An originator also needs
/// replies that are well formed (`RepliesWellFormed`). That is a premise where it is used.
///
/// ```
/// let mut reply = ReplyBuf::new();
/// router.execute(request, 504, &mut reply);
/// ```
pub trait Router {
    ghost after: { Self → ℕ → List ℕ → Self };

    ghost answer: { Self → ℕ → List ℕ → List ℕ };

    /// Executes a request of at least 2 bytes, and leaves its reply in `reply`, in place of the old content.
    ///
    /// The reply has at most `max_size` bytes, which is 8 to `REPLY_LIMIT`.
    fn execute(&mut self, request: &[u8], max_size: usize, reply: &mut ReplyBuf)
        requires request { 2 ≤ length request.now }
        requires max_size_from { 8 ≤ max_size }
        requires max_size_to { max_size ≤ REPLY_LIMIT }
        ensures state { self.new ≡ after self.old max_size request.now }
        ensures reply { reply.new.items ≡ answer self.old max_size request.now }
        ensures fits { length reply.new.items ≤ max_size };

    // If the reply says "reply data too large", the state is unchanged.
    ghost too_large: { (router : Self) (max_size : ℕ) (request : List ℕ) →
        8 ≤ max_size → general_status (answer router max_size request) ≡ REPLY_TOO_LARGE → after router max_size request ≡ router };
}
