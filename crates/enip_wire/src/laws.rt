//! What follows from the definitions alone, for all bytes and every stream. Each law is the contract of a function
//! that does nothing.

ghost use Rattle.std.specs.Prelude.{ℕ, List, [], ◌≡◌, ◌<◌, ◌^◌, ◌++◌, length, Ok};
ghost use Rattle.std.specs.List.{concat, AllByRecursion};
ghost use Rattle.cip_bytes.specs.Numbers.{AreBytes};
ghost use Rattle.enip_wire.specs.Frames.{Frame, frame, IsFrame};
ghost use Rattle.enip_wire.specs.Stream.{Cut, Takes, bytes_taken, parsed, WholeFrame, held_and_taken, held_after_next, cleared};
ghost use Rattle.enip_wire.specs.Pieces.{Reads};
ghost use Rattle.enip_wire.specs.Items.{Item, items, AreItems, items_of};
ghost use Rattle.enip_wire.specs.Bodies.{IsRrBody, IsUnitBody, rr_body_bytes, unit_body_bytes, rr_body_of, unit_body_of};

/// At most one frame spells a prefix of some bytes.
pub fn one_spelling()
    ensures { (f g : Frame) (x y : List ℕ) → IsFrame f → IsFrame g → frame f ++ x ≡ frame g ++ y
        → (f ≡ g) × (x ≡ y) }
{}

/// A frame that was written is read again, whatever follows it: a reader that holds nothing takes exactly its
/// bytes, and they read as that frame.
pub fn frame_read_again()
    ensures taken { (f : Frame) (more : List ℕ) → IsFrame f → bytes_taken [] (frame f ++ more) ≡ length (frame f) }
    ensures shown { (f : Frame) → IsFrame f → parsed (frame f) ≡ WholeFrame f }
{}

/// A stream is cut into frames in at most one way.
pub fn one_cut()
    ensures { (stream : List ℕ) (fs gs : List Frame) (r q : List ℕ) → Cut stream fs r → Cut stream gs q
        → (fs ≡ gs) × (r ≡ q) }
{}

/// Every stream of bytes can be cut into frames and a rest.
pub fn some_cut()
    ensures { (stream : List ℕ) → AreBytes stream → (frames : List Frame) × ((rest : List ℕ) × Cut stream frames rest) }
{}

/// The bytes that are held and the piece determine how many bytes are taken.
pub fn one_number()
    ensures { (held piece : List ℕ) (n m : ℕ) → Takes held piece n → Takes held piece m → n ≡ m }
{}

/// For every list of pieces, repeated `push`, `state` and `clear` show exactly the frames of the stream, however it
/// is cut into pieces.
pub fn any_pieces()
    ensures { (pieces : List (List ℕ)) (frames : List Frame) (rest : List ℕ) → Reads [] pieces frames rest
        → Cut (concat pieces) frames rest }
{}

/// After a frame was shown and cleared, a reader of frames in place holds what `push`, `state` and `clear` leave.
/// It also takes and shows what they do. So it reads any pieces as they do.
pub fn in_place_as_gathered()
    ensures { (held piece : List ℕ) → cleared (parsed (held_and_taken held piece)) (held_after_next held piece)
        ≡ cleared (parsed (held_and_taken held piece)) (held_and_taken held piece) }
{}

/// Every list of pieces of bytes is read to its end by repeated `push`, `state` and `clear`.
pub fn some_reading()
    ensures { (pieces : List (List ℕ)) → AllByRecursion AreBytes pieces
        → (frames : List Frame) × ((rest : List ℕ) × Reads [] pieces frames rest) }
{}

/// At most one list of items spells a prefix of some bytes.
pub fn one_items()
    ensures { (l m : List Item) (x y : List ℕ) → AreItems l → AreItems m → items l ++ x ≡ items m ++ y
        → (l ≡ m) × (x ≡ y) }
{}

/// A list of items that was written is read again.
pub fn items_read_again()
    ensures { (l : List Item) → AreItems l → items_of (items l) ≡ Ok l }
{}

/// The body of a SendRRData that is written is such a body, and is read again.
pub fn rr_body_read_again()
    ensures spelled { (bytes : List ℕ) → length bytes < 2 ^ 16 → IsRrBody (rr_body_bytes bytes) bytes }
    ensures again { (bytes : List ℕ) → length bytes < 2 ^ 16 → rr_body_of (rr_body_bytes bytes) ≡ Ok bytes }
{}

/// The body of a SendUnitData that is written is such a body, and is read again.
pub fn unit_body_read_again()
    ensures spelled { (id : ℕ) (bytes : List ℕ) → id < 2 ^ 32 → length bytes < 2 ^ 16
        → IsUnitBody (unit_body_bytes id bytes) id bytes }
    ensures again { (id : ℕ) (bytes : List ℕ) → id < 2 ^ 32 → length bytes < 2 ^ 16
        → unit_body_of (unit_body_bytes id bytes) ≡ Ok (id, bytes) }
{}
